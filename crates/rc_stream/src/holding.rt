// What is held of a stream that is merged with another: what was looked at and not given.
ghost use Rattle.std.specs.Prelude.{◌≡◌, ◌∷◌, [], true, false, cond, None, Some, IfOk, OnErr, option_map};
ghost use Rattle.std.specs.Option.{option_to_list};
ghost use Rattle.rc_cell.specs.Greatest.{greater};
ghost use Rattle.rc_cell.specs.calls.Greatest.{is_nil};
ghost use Rattle.rc_cell.specs.Orders.{tomb_cmp};
ghost use Rattle.rc_cell.specs.Winner.{joined_row, first_of};
ghost use Rattle.rc_mutation.specs.Fragments.{place_order};
ghost use Rattle.rc_stream.specs.Fronts.{front_change, front_tomb};
ghost use Rattle.rc_stream.specs.Stream.{rest};
ghost use Rattle.rc_stream.specs.Merging.{changes_nothing, place_of, same_tomb};
ghost use Rattle.rc_stream.specs.calls.Merging.{together};
ghost use Rattle.rc_stream.specs.calls.Merging.{beside};
ghost use Rattle.rc_stream.specs.calls.Moving.{look_after};
ghost use Rattle.rc_stream.specs.Places.{bound_of};
ghost use Rattle.rc_stream.specs.Holding.{held_fragments, look_fragments};
ghost use Rattle.rc_stream.specs.calls.Holding.{nearer, turn_between};
ghost use Rattle.rc_stream.specs.calls.Holding.{TakesTurn, TakesFirst, WentOn, alone, begins_upto, behind_first, look_past, is_near, look_passed, look_taken, pair_step, passed_over, passes_held, row_of, row_of_both, fragment_step, turn_of};

use crate::lists::{Front, front_at, passes, row_pos, stands_upto, tomb_after};
use rc_cell::{Row, Tomb};
use rc_mutation::{Frag, greater_tomb};
use rc_position::{Key, Pos, Weight};
use std::alloc::{AllocError, Global};
use std::cmp::Ordering;
use std::mem;

/// What was taken from a stream and not given.
#[derive(Drop)]
pub(crate) enum Look {
    /// Nothing.
    Open,
    /// Nothing; the last that was taken was a change here, which was passed over.
    Over(Pos),
    /// This fragment.
    Next(Frag),
    /// This fragment; before it a change here was passed over.
    Past(Pos, Frag),
}

/// What is held of a stream.
#[derive(Drop)]
pub(crate) struct Held {
    /// What comes before what was looked at.
    pub(crate) front: Front,
    /// What was looked at.
    pub(crate) look: Look,
}

/// Whose fragment comes next.
#[derive(Drop)]
pub(crate) enum Turn {
    /// There is none.
    Nobody,
    /// That of the first stream.
    Ours,
    /// That of the second stream.
    Theirs,
    /// Those of both, at one place.
    Both,
}

/// What one step of a merge came to.
#[derive(Drop)]
pub(crate) enum Step {
    /// Nothing stands up to the position.
    Nothing,
    /// A change that changes nothing was passed over.
    Passed,
    /// This fragment comes next.
    Given(Frag),
}

impl Held {
    /// Nothing is held.
    pub(crate) fn empty() -> Self
        ensures { result ≡ record { front = Front.Passed None; look = Look.Open } }
    {
        Held {
            front: Front::Passed(None),
            look: Look::Open,
        }
    }

    /// Lets go of all that is held.
    pub(crate) fn clear(&mut self)
        ensures { self.new ≡ record { front = Front.Passed None; look = Look.Open } }
    {
        self.front = Front::Passed(None);
        self.look = Look::Open;
    }

    /// The range tombstone in force before what is held.
    pub(crate) fn tomb(&self) -> Option<Tomb>
        ensures { result ≡ front_tomb self.now.front }
    {
        match &self.front {
            Front::Passed(tomb) => *tomb,
            Front::Due(_, _) => None,
        }
    }

    /// Whether nothing is held.
    pub(crate) fn is_empty(&self) -> bool
        ensures { result ≡ is_nil (held_fragments self.now) }
    {
        match (&self.front, &self.look) {
            (Front::Due(_, _), _) => false,
            (Front::Passed(_), Look::Next(_)) => false,
            (Front::Passed(_), Look::Past(_, _)) => false,
            (Front::Passed(_), Look::Open) => true,
            (Front::Passed(_), Look::Over(_)) => true,
        }
    }

    /// Where the first that is held stands.
    pub(crate) fn place(&self, alloc: Global) -> Result<Option<(Pos, u8)>, AllocError>
        ensures { IfOk result (λ p. p ≡ option_map place_of (first_of (held_fragments self.now))) }
    {
        match &self.front {
            Front::Due(from, _) => Ok(Some((from.copy(alloc)?, 0))),
            Front::Passed(_) => self.look.place(alloc),
        }
    }

    /// Whether the first that is held stands at the position or before it.
    pub(crate) fn begins_upto(&self, alloc: Global, upto: &Pos) -> Result<bool, AllocError>
        ensures { IfOk result (λ b. b ≡ begins_upto upto.now (held_fragments self.now)) }
    {
        match &self.front {
            Front::Due(from, _) => Ok(from.cmp(upto).is_le()),
            Front::Passed(_) => self.look.begins_upto(alloc, upto),
        }
    }

    /// Holds a fragment that was taken from the stream, if one was.
    pub(crate) fn hold(&mut self, got: Option<Frag>)
        ensures front { self.new.front ≡ self.old.front }
        ensures look { self.new.look ≡ look_after got self.old.look }
    {
        match got {
            Some(frag) => self.look_at(frag),
            None => {}
        }
    }

    // Holds a fragment that was taken from the stream.
    fn look_at(&mut self, frag: Frag)
        ensures front { self.new.front ≡ self.old.front }
        ensures look { self.new.look ≡ look_after (Some frag) self.old.look }
    {
        let look = mem::replace(&mut self.look, Look::Open);
        self.look = look.followed_by(frag);
    }

    /// Takes the first that is held.
    pub(crate) fn take(&mut self) -> Option<Frag>
        ensures gives { result ≡ first_of (held_fragments self.old) }
        ensures left { held_fragments self.new ≡ rest (held_fragments self.old) }
        ensures tomb { front_tomb self.new.front ≡ behind_first (front_tomb self.old.front) (held_fragments self.old) }
        ensures look { self.new.look ≡ look_taken self.old.front self.old.look }
    {
        match mem::replace(&mut self.front, Front::Passed(None)) {
            Front::Due(from, tomb) => {
                self.front = Front::Passed(Some(tomb));
                Some(Frag::Change(from, Some(tomb)))
            }
            Front::Passed(tomb) => {
                let taken = self.look.take();
                self.front = Front::Passed(tomb_after_taken(tomb, &taken));
                taken
            }
        }
    }
}

impl Held {
    // Goes on to the position within what is held, or says that the stream is to be sought.
    pub(crate) fn go_on(&mut self, alloc: Global, to: &Pos) -> Result<bool, AllocError>
        ensures passes { IfOk result (λ b. b ≡ passes_held to.now self.old) }
        ensures within { IfOk result (λ b. b ≡ false → WentOn to.now self.old self.new) }
        ensures seeks { IfOk result (λ b. b ≡ true → self.new ≡ self.old) }
        ensures err { OnErr result (self.new ≡ self.old) }
    {
        let tomb = match &self.front {
            Front::Due(from, _) if from.cmp(to).is_gt() => return Ok(false),
            Front::Due(_, tomb) => Some(*tomb),
            Front::Passed(tomb) => *tomb,
        };
        if self.look.is_passed(alloc, to)? {
            return Ok(true);
        }
        self.front = front_at(alloc, to, tomb)?;
        Ok(false)
    }

    // A copy of the first row that is held, if the first that is held is one.
    fn copy_row(&self, alloc: Global) -> Result<Option<Row>, AllocError>
        ensures { IfOk result (λ row. row ≡ row_of (held_fragments self.now)) }
    {
        match &self.front {
            Front::Due(_, _) => Ok(None),
            Front::Passed(_) => self.look.copy_row(alloc),
        }
    }

    // Keeps where the last change stands that was passed over, if nothing that stands behind it is held.
    fn pass(&mut self, from: Pos)
        ensures front { self.new.front ≡ self.old.front }
        ensures look { self.new.look ≡ passed_over from self.old.look }
    {
        if self.look.is_open_before(&from) {
            self.look = Look::Over(from);
        }
    }

    // Keeps where a fragment stands that was passed over, if it is a change.
    fn pass_over(&mut self, frag: Frag)
        ensures front { self.new.front ≡ self.old.front }
        ensures look { self.new.look ≡ look_past frag self.old.look }
    {
        match frag {
            Frag::Change(from, _) => self.pass(from),
            Frag::Start(_) => {}
            Frag::Static(_) => {}
            Frag::Row(_, _) => {}
            Frag::End => {}
        }
    }

    // Lets go of a fragment that was taken, which is passed over if it is silent.
    fn let_go(&mut self, silent: bool, frag: Frag)
        ensures front { self.new.front ≡ self.old.front }
        ensures look { self.new.look ≡ cond silent (look_past frag self.old.look) self.old.look }
    {
        if silent {
            self.pass_over(frag);
        }
    }

    // Gives a fragment that was taken, or passes over it where it changes nothing.
    fn tell(&mut self, before: Option<Tomb>, frag: Frag) -> Step
        ensures step { result ≡ fragment_step before frag }
        ensures front { self.new.front ≡ self.old.front }
        ensures look { self.new.look ≡ cond (changes_nothing before frag) (look_past frag self.old.look) self.old.look }
    {
        if is_silent(before, &frag) {
            self.pass_over(frag);
            Step::Passed
        } else {
            Step::Given(frag)
        }
    }

    // Takes the first that is held, and gives it beside the tombstone in force in the other stream, or passes over it.
    fn step_alone(&mut self, other: Option<Tomb>) -> Step
        ensures step { result ≡ alone (front_tomb self.old.front) other (held_fragments self.old) }
        ensures took { TakesFirst result self.old self.new }
    {
        let before = greater_tomb(self.tomb(), other);
        match self.take() {
            Some(frag) => self.tell(before, beside(frag, other)),
            None => Step::Nothing,
        }
    }
}

impl Look {
    // What is looked at once a fragment was taken from the stream.
    fn followed_by(self, frag: Frag) -> Look
        ensures { result ≡ look_after (Some frag) self }
    {
        match self {
            Look::Open => Look::Next(frag),
            Look::Over(from) => Look::Past(from, frag),
            Look::Next(_) => Look::Next(frag),
            Look::Past(from, _) => Look::Past(from, frag),
        }
    }

    // Takes what was looked at.
    fn take(&mut self) -> Option<Frag>
        ensures gives { result ≡ first_of (look_fragments self.old) }
        ensures left { look_fragments self.new ≡ rest (look_fragments self.old) }
        ensures look { self.new ≡ look_taken (Front.Passed None) self.old }
    {
        let (left, taken) = mem::replace(self, Look::Open).parted();
        *self = left;
        taken
    }

    // What was looked at, beside what is left without it.
    fn parted(self) -> (Look, Option<Frag>)
        ensures gives { result.1 ≡ first_of (look_fragments self) }
        ensures left { look_fragments result.0 ≡ rest (look_fragments self) }
        ensures look { result.0 ≡ look_taken (Front.Passed None) self }
    {
        match self {
            Look::Open => (Look::Open, None),
            Look::Over(from) => (Look::Over(from), None),
            Look::Next(frag) => (Look::Open, Some(frag)),
            Look::Past(from, frag) => (Look::Over(from), Some(frag)),
        }
    }

    // Whether no fragment is looked at, and the last change that was passed over, if one was, stands before the position.
    fn is_open_before(&self, x: &Pos) -> bool
        ensures { cond result (Look.Over x.now) self.now ≡ passed_over x.now self.now }
    {
        match self {
            Look::Open => true,
            Look::Over(last) if x.cmp(last).is_le() => false,
            Look::Over(_) => true,
            Look::Next(_) => false,
            Look::Past(_, _) => false,
        }
    }

    // Whether a seek to the position passes the last that was taken.
    fn is_passed(&self, alloc: Global, to: &Pos) -> Result<bool, AllocError>
        ensures { IfOk result (λ b. b ≡ look_passed to.now self.now) }
    {
        match self {
            Look::Open => Ok(true),
            Look::Over(from) => Ok(from.cmp(to).is_le()),
            Look::Next(frag) => passes(alloc, frag, to),
            Look::Past(from, _) if from.cmp(to).is_gt() => Ok(false),
            Look::Past(_, frag) => passes(alloc, frag, to),
        }
    }

    // A copy of the row that was looked at, if one was.
    fn copy_row(&self, alloc: Global) -> Result<Option<Row>, AllocError>
        ensures { IfOk result (λ row. row ≡ row_of (look_fragments self.now)) }
    {
        match self {
            Look::Open => Ok(None),
            Look::Over(_) => Ok(None),
            Look::Next(frag) => copy_row(alloc, frag),
            Look::Past(_, frag) => copy_row(alloc, frag),
        }
    }

    // Where the fragment stands that was looked at.
    fn place(&self, alloc: Global) -> Result<Option<(Pos, u8)>, AllocError>
        ensures { IfOk result (λ p. p ≡ option_map place_of (first_of (look_fragments self.now))) }
    {
        match self {
            Look::Open => Ok(None),
            Look::Over(_) => Ok(None),
            Look::Next(frag) => Ok(Some(place(alloc, frag)?)),
            Look::Past(_, frag) => Ok(Some(place(alloc, frag)?)),
        }
    }

    // Whether it stands at the position or before it.
    fn begins_upto(&self, alloc: Global, upto: &Pos) -> Result<bool, AllocError>
        ensures { IfOk result (λ b. b ≡ begins_upto upto.now (look_fragments self.now)) }
    {
        match self {
            Look::Open => Ok(false),
            Look::Over(_) => Ok(false),
            Look::Next(frag) => stands_upto(alloc, frag, upto),
            Look::Past(_, frag) => stands_upto(alloc, frag, upto),
        }
    }
}

// Where a fragment stands.
fn place(alloc: Global, frag: &Frag) -> Result<(Pos, u8), AllocError>
    ensures { IfOk result (λ p. p ≡ place_of frag.now) }
{
    match frag {
        Frag::Row(key, _) => Ok((row_pos(alloc, key)?, 1)),
        Frag::Change(from, _) => Ok((from.copy(alloc)?, 0)),
        Frag::Start(_) | Frag::Static(_) | Frag::End => Ok((first_pos(alloc)?, 0)),
    }
}

// The position before all others.
fn first_pos(alloc: Global) -> Result<Pos, AllocError>
    ensures { IfOk result (λ x. x ≡ record { prefix = []; weight = Weight.Before }) }
{
    let prefix = Key::from_slice(alloc, &[])?;
    Ok(Pos {
        prefix,
        weight: Weight::Before,
    })
}

// The range tombstone in force behind a fragment that was taken, if one was.
fn tomb_after_taken(tomb: Option<Tomb>, taken: &Option<Frag>) -> Option<Tomb>
    ensures { result ≡ behind_first tomb (option_to_list taken.now) }
{
    match taken {
        None => tomb,
        Some(frag) => tomb_after(tomb, frag),
    }
}

// How two places compare.
fn compare(ours: &(Pos, u8), theirs: &(Pos, u8)) -> Ordering
    ensures { result ≡ place_order ours.now theirs.now }
{
    ours.0.cmp(&theirs.0).then(ours.1.cmp(&theirs.1))
}

// Whether two tombstones, or the lack of one, are the same.
pub(crate) fn same(ours: Option<Tomb>, theirs: Option<Tomb>) -> bool
    ensures { result ≡ same_tomb ours theirs }
{
    match (ours, theirs) {
        (None, None) => true,
        (Some(ours), Some(theirs)) => ours == theirs,
        (None, Some(_)) => false,
        (Some(_), None) => false,
    }
}

// Which of the first that are held has the smaller place.
pub(crate) fn nearer(alloc: Global, ours: &Held, theirs: &Held) -> Result<Turn, AllocError>
    ensures { IfOk result (λ t. t ≡ nearer (held_fragments ours.now) (held_fragments theirs.now)) }
{
    let ours = ours.place(alloc)?;
    let theirs = theirs.place(alloc)?;
    Ok(turn_between(&ours, &theirs))
}

// Which of two places is the smaller, where there are any.
fn turn_between(ours: &Option<(Pos, u8)>, theirs: &Option<(Pos, u8)>) -> Turn
    ensures { result ≡ turn_between ours.now theirs.now }
{
    match (ours, theirs) {
        (None, None) => Turn::Nobody,
        (Some(_), None) => Turn::Ours,
        (None, Some(_)) => Turn::Theirs,
        (Some(ours), Some(theirs)) => match compare(ours, theirs) {
            Ordering::Less => Turn::Ours,
            Ordering::Equal => Turn::Both,
            Ordering::Greater => Turn::Theirs,
        },
    }
}

// A copy of the row of a fragment, if it is one.
fn copy_row(alloc: Global, frag: &Frag) -> Result<Option<Row>, AllocError>
    ensures { IfOk result (λ row. row ≡ row_of (frag.now ∷ [])) }
{
    match frag {
        Frag::Row(_, row) => Ok(Some(row.copy(alloc)?)),
        Frag::Start(_) | Frag::Static(_) | Frag::Change(_, _) | Frag::End => Ok(None),
    }
}

// Whether a fragment is a change to the tombstone that is in force before it.
fn is_silent(before: Option<Tomb>, frag: &Frag) -> bool
    ensures { result ≡ changes_nothing before frag.now }
{
    match frag {
        Frag::Change(_, next) => same(before, *next),
        Frag::Start(_) => false,
        Frag::Static(_) => false,
        Frag::Row(_, _) => false,
        Frag::End => false,
    }
}

// A fragment that only one of both has at its place, where the other has this tombstone in force.
fn beside(frag: Frag, other: Option<Tomb>) -> Frag
    ensures { result ≡ beside other frag }
{
    match frag {
        Frag::Change(from, next) => Frag::Change(from, greater_tomb(next, other)),
        Frag::Start(pt) => Frag::Start(pt),
        Frag::Static(row) => Frag::Static(row),
        Frag::Row(key, row) => Frag::Row(key, row),
        Frag::End => Frag::End,
    }
}

// Two fragments at one place as one, where this is the row of both, if both are rows.
fn together(ours: Frag, theirs: &Frag, row: Option<Row>) -> Frag
    requires { row ≡ row_of_both (row_of (ours ∷ [])) (row_of (theirs.now ∷ [])) }
    ensures { result ≡ together ours theirs.now }
{
    match ours {
        Frag::Row(key, own) => match row {
            Some(row) => Frag::Row(key, row),
            None => Frag::Row(key, own),
        },
        Frag::Change(from, next) => match theirs {
            Frag::Change(_, other) => Frag::Change(from, greater_tomb(next, *other)),
            Frag::Start(_) => Frag::Change(from, next),
            Frag::Static(_) => Frag::Change(from, next),
            Frag::Row(_, _) => Frag::Change(from, next),
            Frag::End => Frag::Change(from, next),
        },
        Frag::Start(pt) => Frag::Start(pt),
        Frag::Static(row) => Frag::Static(row),
        Frag::End => Frag::End,
    }
}

// Takes the first of both, which stand at one place, and gives them as one, or passes over them.
fn step_both(alloc: Global, ours: &mut Held, theirs: &mut Held) -> Result<Step, AllocError>
    requires { nearer (held_fragments ours.old) (held_fragments theirs.old) ≡ Turn.Both }
    ensures step { IfOk result (λ s. s ≡ pair_step (greater tomb_cmp (front_tomb ours.old.front) (front_tomb theirs.old.front)) (held_fragments ours.old) (held_fragments theirs.old)) }
    ensures ours { IfOk result (λ s. TakesFirst s ours.old ours.new) }
    ensures theirs { IfOk result (λ s. TakesFirst s theirs.old theirs.new) }
    ensures err { OnErr result ((ours.new ≡ ours.old) × (theirs.new ≡ theirs.old)) }
{
    let before = greater_tomb(ours.tomb(), theirs.tomb());
    let row = joined_rows(alloc, ours, theirs)?;
    let Some(frag) = ours.take() else {
        return Ok(Step::Nothing);
    };
    let Some(other) = theirs.take() else {
        return Ok(Step::Nothing);
    };
    let frag = together(frag, &other, row);
    theirs.let_go(is_silent(before, &frag), other);
    Ok(ours.tell(before, frag))
}

// One step of a merge up to a position: the first of what is held of both is given, or passed over.
pub(crate) fn make_step(
    alloc: Global,
    ours: &mut Held,
    theirs: &mut Held,
    upto: &Pos,
) -> Result<Step, AllocError>
    ensures does { IfOk result (λ s. TakesTurn (turn_of upto.now (held_fragments ours.old) (held_fragments theirs.old)) s ours.old theirs.old ours.new theirs.new) }
    ensures err { OnErr result ((ours.new ≡ ours.old) × (theirs.new ≡ theirs.old)) }
{
    match next_turn(alloc, ours, theirs, upto)? {
        Turn::Nobody => Ok(Step::Nothing),
        Turn::Ours => Ok(ours.step_alone(theirs.tomb())),
        Turn::Theirs => Ok(theirs.step_alone(ours.tomb())),
        Turn::Both => step_both(alloc, ours, theirs),
    }
}

// Whose turn it is up to a position.
fn next_turn(alloc: Global, ours: &Held, theirs: &Held, upto: &Pos) -> Result<Turn, AllocError>
    ensures { IfOk result (λ t. t ≡ turn_of upto.now (held_fragments ours.now) (held_fragments theirs.now)) }
{
    let turn = nearer(alloc, ours, theirs)?;
    if is_near(alloc, &turn, ours, theirs, upto)? {
        return Ok(turn);
    }
    Ok(Turn::Nobody)
}

// The nearer of a position and that of the first that is held.
pub(crate) fn bound(alloc: Global, ours: &Held, upto: &Pos) -> Result<Pos, AllocError>
    ensures { IfOk result (λ x. x ≡ bound_of upto.now (held_fragments ours.now)) }
{
    match ours.place(alloc)? {
        Some((first, _)) if upto.cmp(&first).is_gt() => Ok(first),
        Some((_, _)) => upto.copy(alloc),
        None => upto.copy(alloc),
    }
}

// Whether the fragment whose turn it is stands at the position or before it.
fn is_near(
    alloc: Global,
    turn: &Turn,
    ours: &Held,
    theirs: &Held,
    upto: &Pos,
) -> Result<bool, AllocError>
    ensures { IfOk result (λ b. b ≡ is_near upto.now turn.now (held_fragments ours.now) (held_fragments theirs.now)) }
{
    match turn {
        Turn::Nobody => Ok(false),
        Turn::Ours => ours.begins_upto(alloc, upto),
        Turn::Theirs => theirs.begins_upto(alloc, upto),
        Turn::Both => ours.begins_upto(alloc, upto),
    }
}

// The rows that are held first as one, if both are rows.
fn joined_rows(alloc: Global, ours: &Held, theirs: &Held) -> Result<Option<Row>, AllocError>
    ensures { IfOk result (λ row. row ≡ row_of_both (row_of (held_fragments ours.now)) (row_of (held_fragments theirs.now))) }
{
    let Some(row) = ours.copy_row(alloc)? else {
        return Ok(None);
    };
    let Some(other) = theirs.copy_row(alloc)? else {
        return Ok(None);
    };
    Ok(Some(joined_row(alloc, row, &other)?))
}

// Two rows as one.
pub(crate) fn joined_row(alloc: Global, row: Row, other: &Row) -> Result<Row, AllocError>
    ensures { IfOk result (λ r. r ≡ joined_row (row ∷ other.now ∷ [])) }
{
    let mut row = row;
    row.join(alloc, other)?;
    Ok(row)
}
