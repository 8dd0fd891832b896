// Where a reader stands, and what of what it read is due.
ghost use Rattle.std.specs.Prelude.{◌≡◌, ◌&&◌, not, is_some, None, Some, false, true, IfOk, OnErr};
ghost use Rattle.rc_position.specs.declared.positions.Pos.{Pos};
ghost use Rattle.rc_position.specs.Position.{pos_cmp};
ghost use Rattle.std.specs.Ordering.{is_gt};
ghost use Rattle.rc_stream.specs.Merging.{same_tomb};
ghost use Rattle.rc_cacheread.specs.Spots.{change_place, stand};
ghost use Rattle.rc_cacheread.specs.calls.Spots.{GivesDue, GoesOn, IsSameSpot, HasNothingDue, WentTo, is_behind, is_row_due, is_row_from, told_at};

use rc_cell::{Row, Tomb};
use rc_mutation::Frag;
use rc_position::{Key, Pos, Weight};
use std::alloc::{AllocError, Global};

/// What was read of the stream below.
#[derive(Drop)]
pub(crate) enum Found {
    /// A row.
    Row(Key, Row),
    /// A change.
    Change(Pos, Option<Tomb>),
    /// Neither.
    Nothing,
}

/// What was read of the row at a place.
#[derive(Drop)]
pub(crate) enum RowAt {
    /// Nothing.
    Unread,
    /// This row, which is due.
    Due(Row),
    /// The row, which was given.
    Given,
}

/// A place in a partition, and what is due there: a change where a seek found a tombstone in force; a change where the tombstone in force
/// is not the one that was told; and then the row at the place.
#[derive(Drop)]
pub(crate) struct Spot {
    /// What stands before it was read.
    pub(crate) place: Pos,
    /// The row at the place.
    pub(crate) row: RowAt,
    /// The range tombstone that was told.
    pub(crate) told: Option<Tomb>,
    /// Where it is to be told again, since a seek went there.
    pub(crate) again: Option<Pos>,
    /// The range tombstone in force at the place.
    pub(crate) tomb: Option<Tomb>,
    /// From where on it is in force, if not from the place on.
    pub(crate) since: Option<Pos>,
}

/// What comes next at a place.
#[derive(Drop)]
pub(crate) enum Turn {
    /// This was due.
    Given(Frag),
    /// Nothing, up to the position that was named.
    Nothing,
    /// The slice ends here, and with it the tombstone in force.
    Closed,
    /// The place is to be read.
    Unread,
}

/// What a step of a reader came to.
#[derive(Drop)]
pub(crate) enum Step {
    /// Nothing stands up to the position that was named.
    Nothing,
    /// Something was read that is due, or passed over.
    Passed,
    /// This is the next.
    Given(Frag),
}

impl Spot {
    // The beginning of a slice.
    pub(crate) fn at(place: Pos) -> Self
        ensures place { result.place ≡ place }
        ensures row { result.row ≡ RowAt.Unread }
        ensures told { result.told ≡ None }
        ensures again { result.again ≡ None }
        ensures tomb { result.tomb ≡ None }
    {
        Spot {
            place,
            row: RowAt::Unread,
            told: None,
            again: None,
            tomb: None,
            since: None,
        }
    }

    // From the place on this tombstone is in force.
    pub(crate) fn change_to(&mut self, tomb: Option<Tomb>)
        ensures place { self.new.place ≡ self.old.place }
        ensures row { self.new.row ≡ self.old.row }
        ensures told { self.new.told ≡ self.old.told }
        ensures again { self.new.again ≡ self.old.again }
        ensures tomb { self.new.tomb ≡ tomb }
        ensures since { self.new.since ≡ None }
    {
        self.tomb = tomb;
        self.since = None;
    }

    // This row stands at the place, and this tombstone is in force there.
    pub(crate) fn read_row(&mut self, row: Row, tomb: Option<Tomb>)
        ensures place { self.new.place ≡ self.old.place }
        ensures row { self.new.row ≡ RowAt.Due row }
        ensures told { self.new.told ≡ self.old.told }
        ensures again { self.new.again ≡ self.old.again }
        ensures tomb { self.new.tomb ≡ tomb }
        ensures since { self.new.since ≡ None }
    {
        self.change_to(tomb);
        self.row = RowAt::Due(row);
    }

    // Nothing stands from the place on and before another one, and this tombstone is in force.
    pub(crate) fn go_over(&mut self, to: Pos, tomb: Option<Tomb>)
        ensures place { self.new.place ≡ to }
        ensures row { self.new.row ≡ self.old.row }
        ensures told { self.new.told ≡ self.old.told }
        ensures again { self.new.again ≡ self.old.again }
        ensures tomb { self.new.tomb ≡ tomb }
        ensures since { self.new.since ≡ Some self.old.place }
    {
        self.since = Some(std::mem::replace(&mut self.place, to));
        self.tomb = tomb;
    }

    // Goes on to a position; whether it stands behind all that was read. The only error is want of memory: then the same is due.
    pub(crate) fn seek(&mut self, alloc: Global, to: &Pos) -> Result<bool, AllocError>
        ensures ok { IfOk result (GoesOn to.now self.old self.new) }
        ensures err { OnErr result (IsSameSpot self.old self.new) }
    {
        let place = to.copy(alloc)?;
        if self.is_again_behind(to) {
            return Ok(false);
        }
        self.again = None;
        if self.is_change_behind(to) {
            self.tell_again(place);
            return Ok(false);
        }
        self.told = self.tomb;
        if self.is_row_behind(to) {
            self.tell_again(place);
            return Ok(false);
        }
        Ok(self.go_to(place))
    }

    // Whether what is to be told again is to be told behind a position.
    fn is_again_behind(&self, to: &Pos) -> bool
        ensures { result ≡ is_behind self.now.again to.now }
    {
        match &self.again {
            Some(from) => from.cmp(to).is_gt(),
            None => false,
        }
    }

    // Whether a change is due behind a position.
    fn is_change_behind(&self, to: &Pos) -> bool
        ensures { result ≡ (not (same_tomb self.now.told self.now.tomb) && is_gt (pos_cmp (change_place self.now) to.now)) }
    {
        !same(self.told, self.tomb) && self.change_place().cmp(to).is_gt()
    }

    // Whether a row is due at a position or behind it.
    fn is_row_behind(&self, to: &Pos) -> bool
        ensures { result ≡ is_row_from self.now.row self.now.place.prefix to.now }
    {
        match &self.row {
            RowAt::Due(_) => self.place.prefix.compare_with_pos(to).is_ge(),
            RowAt::Unread | RowAt::Given => false,
        }
    }

    // The tombstone that was told is to be told again at a position, if there is one.
    fn tell_again(&mut self, at: Pos)
        ensures place { self.new.place ≡ self.old.place }
        ensures row { self.new.row ≡ self.old.row }
        ensures told { self.new.told ≡ self.old.told }
        ensures again { self.new.again ≡ told_at self.old.told at }
        ensures tomb { self.new.tomb ≡ self.old.tomb }
        ensures since { self.new.since ≡ self.old.since }
    {
        self.again = match self.told {
            Some(_) => Some(at),
            None => None,
        };
    }

    // Goes on to a position behind all that is due; whether it stands behind all that was read.
    fn go_to(&mut self, to: Pos) -> bool
        requires told { self.old.told ≡ self.old.tomb }
        requires again { self.old.again ≡ None }
        ensures { WentTo to self.old self.new result }
    {
        self.step_over();
        if self.place.cmp(&to).is_gt() {
            self.tell_again(to);
            return false;
        }
        self.begin_at(to);
        true
    }

    // Nothing was read from a position on.
    fn begin_at(&mut self, place: Pos)
        ensures place { self.new.place ≡ place }
        ensures row { self.new.row ≡ RowAt.Unread }
        ensures told { self.new.told ≡ None }
        ensures again { self.new.again ≡ None }
        ensures tomb { self.new.tomb ≡ None }
    {
        self.place = place;
        self.row = RowAt::Unread;
        self.told = None;
        self.again = None;
        self.tomb = None;
        self.since = None;
    }

    // Steps over the row at the place, if it was read.
    fn step_over(&mut self)
        ensures place { self.new.place ≡ stand self.old }
        ensures row { self.new.row ≡ RowAt.Unread }
        ensures told { self.new.told ≡ self.old.told }
        ensures again { self.new.again ≡ self.old.again }
        ensures tomb { self.new.tomb ≡ self.old.tomb }
        ensures since { self.new.since ≡ self.old.since }
    {
        match &self.row {
            RowAt::Unread => {}
            RowAt::Due(_) | RowAt::Given => {
                self.place.weight = Weight::After;
                self.row = RowAt::Unread;
            }
        }
    }

    // From where on nothing was read. The only error is want of memory.
    pub(crate) fn stand(&self, alloc: Global) -> Result<Pos, AllocError>
        ensures { IfOk result (λ x. x ≡ stand self.now) }
    {
        let mut place = self.place.copy(alloc)?;
        match &self.row {
            RowAt::Unread => {}
            RowAt::Due(_) | RowAt::Given => place.weight = Weight::After,
        }
        Ok(place)
    }

    // What comes next, up to a position, in a slice that ends at `to`. The only error is want of memory: then all is as it was.
    pub(crate) fn give(&mut self, alloc: Global, to: &Pos, upto: &Pos) -> Result<Turn, AllocError>
        ensures ok { IfOk result (GivesDue to.now upto.now self.old self.new) }
        ensures err { OnErr result (self.new ≡ self.old) }
    {
        if self.again.is_some() {
            return Ok(self.give_again(upto));
        }
        if !same(self.told, self.tomb) {
            return self.give_change(alloc, upto);
        }
        if self.is_row_due() {
            return self.give_row(alloc, upto);
        }
        self.step_over();
        Ok(self.turn_here(to, upto))
    }

    // GivesDue the change to the tombstone that was in force where a seek went, if it stands at the position or before it.
    fn give_again(&mut self, upto: &Pos) -> Turn
        requires { is_some self.old.again ≡ true }
        ensures { (to : Pos) → GivesDue to upto.now self.old self.new result }
    {
        match self.again.take() {
            Some(from) => {
                if from.cmp(upto).is_gt() {
                    self.again = Some(from);
                    return Turn::Nothing;
                }
                Turn::Given(Frag::Change(from, self.told))
            }
            None => Turn::Nothing,
        }
    }

    // GivesDue the change that is due, if it stands at the position or before it.
    fn give_change(&mut self, alloc: Global, upto: &Pos) -> Result<Turn, AllocError>
        requires again { self.old.again ≡ None }
        requires due { same_tomb self.old.told self.old.tomb ≡ false }
        ensures ok { (to : Pos) → IfOk result (GivesDue to upto.now self.old self.new) }
        ensures err { OnErr result (self.new ≡ self.old) }
    {
        let from = self.change_place();
        if from.cmp(upto).is_gt() {
            return Ok(Turn::Nothing);
        }
        let from = from.copy(alloc)?;
        self.told = self.tomb;
        Ok(Turn::Given(Frag::Change(from, self.tomb)))
    }

    // Where the change stands that is due.
    fn change_place(&self) -> &Pos
        ensures { result.now ≡ change_place self.now }
    {
        match &self.since {
            Some(from) => from,
            None => &self.place,
        }
    }

    // GivesDue the row that is due, if it stands at the position or before it.
    fn give_row(&mut self, alloc: Global, upto: &Pos) -> Result<Turn, AllocError>
        requires again { self.old.again ≡ None }
        requires told { same_tomb self.old.told self.old.tomb ≡ true }
        requires due { is_row_due self.old.row ≡ true }
        ensures ok { (to : Pos) → IfOk result (GivesDue to upto.now self.old self.new) }
        ensures err { OnErr result (self.new ≡ self.old) }
    {
        if self.place.prefix.compare_with_pos(upto).is_gt() {
            return Ok(Turn::Nothing);
        }
        let key = self.place.prefix.copy(alloc)?;
        let row = self.take_row(alloc);
        Ok(Turn::Given(Frag::Row(key, row)))
    }

    // Whether a row is due.
    fn is_row_due(&self) -> bool
        ensures { result ≡ is_row_due self.now.row }
    {
        match &self.row {
            RowAt::Due(_) => true,
            RowAt::Unread | RowAt::Given => false,
        }
    }

    // Takes the row that is due.
    fn take_row(&mut self, alloc: Global) -> Row
        requires { is_row_due self.old.row ≡ true }
        ensures row { self.old.row ≡ RowAt.Due result }
        ensures given { self.new.row ≡ RowAt.Given }
        ensures place { self.new.place ≡ self.old.place }
        ensures told { self.new.told ≡ self.old.told }
        ensures again { self.new.again ≡ self.old.again }
        ensures tomb { self.new.tomb ≡ self.old.tomb }
        ensures since { self.new.since ≡ self.old.since }
    {
        match std::mem::replace(&mut self.row, RowAt::Given) {
            RowAt::Due(row) => row,
            RowAt::Unread | RowAt::Given => Row::empty(alloc),
        }
    }

    // What comes next where nothing is due.
    fn turn_here(&mut self, to: &Pos, upto: &Pos) -> Turn
        requires { HasNothingDue self.old }
        ensures { GivesDue to.now upto.now self.old self.new result }
    {
        if self.place.cmp(upto).is_gt() {
            return Turn::Nothing;
        }
        if self.place.cmp(to).is_lt() {
            return Turn::Unread;
        }
        if self.tomb.is_none() {
            return Turn::Nothing;
        }
        self.tomb = None;
        self.since = None;
        Turn::Closed
    }
}

// Whether two tombstones, or the lack of one, are the same.
fn same(told: Option<Tomb>, tomb: Option<Tomb>) -> bool
    ensures { result ≡ same_tomb told tomb }
{
    match (told, tomb) {
        (None, None) => true,
        (Some(told), Some(tomb)) => told == tomb,
        (None, Some(_)) => false,
        (Some(_), None) => false,
    }
}
