// A list of fragments as a stream.
ghost use Rattle.rc_stream.specs.Fronts.{front_tomb, front_change};
ghost use Rattle.std.specs.Prelude.{◌≡◌, ◌+◌, ◌≤◌, Some, None, drop, length, IfOk, IfSome, IsTrue, OnOk, OnErr};
ghost use Rattle.rc_position.specs.Position.{row_pos};
ghost use Rattle.rc_stream.specs.Stream.{without_head, clustered_front, first_upto, force, is_passed, is_upto, onward, opening, start_of, static_of, stream_of, sought_stream, took};
ghost use Rattle.rc_mutation.specs.Fragments.{tomb_after};

use crate::streams::{Frags, StreamErr};
use rc_cell::{Row, Tomb};
use rc_mutation::{Frag, FragList, Head};
use rc_outside::Store;
use rc_position::{Key, Pos, Weight};
use std::alloc::{AllocError, Global};
use std::marker::Model;

/// What comes before the rows and changes of a list that were not passed yet.
#[derive(Drop)]
pub(crate) enum Front {
    /// Nothing: this range tombstone is in force.
    Passed(Option<Tomb>),
    /// A change at this position to this tombstone, which a seek found in force.
    Due(Pos, Tomb),
}

/// A list of fragments as a stream, which asks nothing of a home or a store. A contract sees what it stands for.
#[derive(Drop)]
pub struct ListFrags {
    list: FragList,
    taken: usize,
    front: Front,
}

impl Model for ListFrags {
    ghost use Rattle.std.specs.Prelude.{◌++◌, ◌≤◌, drop, length};
    ghost use Rattle.rc_stream.specs.Stream.{Stream, clustered_front, start_of, static_of};
    ghost use Rattle.rc_stream.specs.Fronts.{front_tomb, front_change};

    ghost Value = { Stream };

    ghost invariant = { λ s. s.taken ≤ length s.list };

    ghost view = { λ s. record {
      head = record { pt = start_of s.list; statics = static_of s.list };
      tomb = front_tomb s.front;
      left = front_change s.front ++ clustered_front (drop s.taken s.list);
    } };
}

impl ListFrags {
    /// The stream of these fragments, from the beginning.
    pub fn new(list: FragList) -> Self
        ensures { result ≡ stream_of list }
    {
        let taken = outer_len(list.as_slice());
        ListFrags {
            list,
            taken,
            front: Front::Passed(None),
        }
    }

    /// The head of the partition. The only error is want of memory.
    pub fn copy_head(&self, alloc: Global) -> Result<Head, AllocError>
        ensures { IfOk result (λ head. head ≡ self.now.head) }
    {
        let items = self.list.as_slice();
        let statics = static_row(alloc, items)?;
        Ok(Head {
            pt: start(items),
            statics,
        })
    }

    /// Goes on to the position. The only error is want of memory: then the stream is as it was.
    pub fn go_on(&mut self, alloc: Global, to: &Pos) -> Result<(), AllocError>
        ensures ok { OnOk result (self.new ≡ sought_stream to.now self.old) }
        ensures err { OnErr result (self.new ≡ self.old) }
    {
        let tomb = match &self.front {
            Front::Due(from, _) if from.cmp(to).is_gt() => return Ok(()),
            Front::Due(_, tomb) => Some(*tomb),
            Front::Passed(tomb) => *tomb,
        };
        let left = &self.list.as_slice()[self.taken..];
        let (passed, tomb) = pass(alloc, left, tomb, to)?;
        let front = front_at(alloc, to, tomb)?;
        self.taken += passed;
        self.front = front;
        Ok(())
    }

    /// Takes the first that is left, if it stands at `upto` or before it. The only error is want of memory: then the stream is as it
    /// was.
    pub fn take_first(&mut self, alloc: Global, upto: &Pos) -> Result<Option<Frag>, AllocError>
        ensures gives { IfOk result (λ got. got ≡ first_upto upto.now self.old.left) }
        ensures upto { IfOk result (λ got. IfSome got (λ f. IsTrue (is_upto upto.now f))) }
        ensures left { IfOk result (λ got. self.new ≡ took got self.old) }
        ensures err { OnErr result (self.new ≡ self.old) }
    {
        match &self.front {
            Front::Due(from, tomb) => {
                if from.cmp(upto).is_gt() {
                    return Ok(None);
                }
                let tomb = *tomb;
                let change = Frag::Change(from.copy(alloc)?, Some(tomb));
                self.front = Front::Passed(Some(tomb));
                Ok(Some(change))
            }
            Front::Passed(tomb) => {
                let tomb = *tomb;
                let left = &self.list.as_slice()[self.taken..];
                let Some(frag) = copy_first(alloc, left, upto)? else {
                    return Ok(None);
                };
                self.taken += 1;
                self.front = Front::Passed(tomb_after(tomb, &frag));
                Ok(Some(frag))
            }
        }
    }
}

impl<H, W: Store> Frags<H, W> for ListFrags {
    ghost use Rattle.std.specs.Prelude.{◌≡◌, ⊤};
    ghost use Rattle.rc_stream.specs.Showing.{IsFromStart};

    ghost ready = { λ _ _ _. ⊤ };

    ghost seen = { λ list _ _ s. s ≡ list };

    ghost ahead = { λ _ _. ⊤ };

    ghost moves = { λ home store home' store'. (home ≡ home') × (store ≡ store') };

    ghost did = { λ _ home store _ _ _ home' store'. (home ≡ home') × (store ≡ store') };

    ghost fresh = { λ list. IsFromStart list };

    ghost might = { λ list s. s ≡ list };

    ghost damage = { λ _ _ _. ⊥ };

    fn head(&mut self, alloc: Global, _home: &mut H, _store: &mut W) -> Result<Head, StreamErr> {
        match self.copy_head(alloc) {
            Ok(head) => Ok(head),
            Err(_) => Err(StreamErr::NoMemory),
        }
    }

    fn seek(
        &mut self,
        alloc: Global,
        _home: &mut H,
        _store: &mut W,
        to: &Pos,
    ) -> Result<(), StreamErr> {
        match self.go_on(alloc, to) {
            Ok(()) => Ok(()),
            Err(_) => Err(StreamErr::NoMemory),
        }
    }

    fn next(
        &mut self,
        alloc: Global,
        _home: &mut H,
        _store: &mut W,
        upto: &Pos,
    ) -> Result<Option<Frag>, StreamErr> {
        match self.take_first(alloc, upto) {
            Ok(got) => Ok(got),
            Err(_) => Err(StreamErr::NoMemory),
        }
    }
}

// The partition tombstone that the fragments name at their start.
fn start(items: &[Frag]) -> Option<Tomb>
    ensures { result ≡ start_of items.now }
{
    let mut left = items;
    while let [first, rest @ ..] = left {
        if let Frag::Start(pt) = first {
            return *pt;
        }
        left = rest;
    }
    None
}

// The static row among the fragments; the empty row where there is none.
fn static_row(alloc: Global, items: &[Frag]) -> Result<Row, AllocError>
    ensures { IfOk result (λ row. row ≡ static_of items.now) }
{
    let mut left = items;
    while let [first, rest @ ..] = left {
        if let Frag::Static(row) = first {
            return row.copy(alloc);
        }
        left = rest;
    }
    Ok(Row::empty(alloc))
}

// How many fragments stand before the first row, change or end.
fn outer_len(items: &[Frag]) -> usize
    ensures left { drop result items.now ≡ without_head items.now }
    ensures size { result ≤ length items.now }
{
    let mut passed = 0;
    let mut left = items;
    while let [Frag::Start(_) | Frag::Static(_), rest @ ..] = left {
        passed += 1;
        left = rest;
    }
    passed
}

// How many of the rows and changes at the front a seek passes, and the range tombstone in force behind them.
fn pass(
    alloc: Global,
    items: &[Frag],
    tomb: Option<Tomb>,
    to: &Pos,
) -> Result<(usize, Option<Tomb>), AllocError>
    ensures left { IfOk result (λ p. clustered_front (drop p.0 items.now) ≡ onward to.now (clustered_front items.now)) }
    ensures tomb { IfOk result (λ p. p.1 ≡ force to.now tomb (clustered_front items.now)) }
    ensures size { IfOk result (λ p. p.0 ≤ length items.now) }
{
    let mut passed = 0;
    let mut tomb = tomb;
    let mut left = items;
    while let [first, rest @ ..] = left {
        if !passes(alloc, first, to)? {
            return Ok((passed, tomb));
        }
        passed += 1;
        tomb = tomb_after(tomb, first);
        left = rest;
    }
    Ok((passed, tomb))
}

// What a seek puts before what it left: a change at the position to the tombstone in force there, if one is.
pub(crate) fn front_at(alloc: Global, x: &Pos, tomb: Option<Tomb>) -> Result<Front, AllocError>
    ensures tomb { IfOk result (λ front. front_tomb front ≡ None) }
    ensures change { IfOk result (λ front. front_change front ≡ opening x.now tomb) }
{
    match tomb {
        Some(tomb) => Ok(Front::Due(x.copy(alloc)?, tomb)),
        None => Ok(Front::Passed(None)),
    }
}

// Whether a seek to the position passes the fragment.
pub(crate) fn passes(alloc: Global, frag: &Frag, to: &Pos) -> Result<bool, AllocError>
    ensures { IfOk result (λ b. b ≡ is_passed to.now frag.now) }
{
    match frag {
        Frag::Row(key, _) => Ok(row_pos(alloc, key)?.cmp(to).is_lt()),
        Frag::Change(from, _) => Ok(from.cmp(to).is_le()),
        Frag::Start(_) | Frag::Static(_) | Frag::End => Ok(false),
    }
}

// Whether the fragment is a row or a change at the position or before it.
pub(crate) fn stands_upto(alloc: Global, frag: &Frag, upto: &Pos) -> Result<bool, AllocError>
    ensures { IfOk result (λ b. b ≡ is_upto upto.now frag.now) }
{
    match frag {
        Frag::Row(key, _) => Ok(row_pos(alloc, key)?.cmp(upto).is_le()),
        Frag::Change(from, _) => Ok(from.cmp(upto).is_le()),
        Frag::Start(_) | Frag::Static(_) | Frag::End => Ok(false),
    }
}

// Where the row of the key stands.
pub(crate) fn row_pos(alloc: Global, key: &Key) -> Result<Pos, AllocError>
    ensures { IfOk result (λ x. x ≡ row_pos key.now) }
{
    Ok(Pos {
        prefix: key.copy(alloc)?,
        weight: Weight::At,
    })
}

// A copy of the first row or change, if it stands at the position or before it.
fn copy_first(alloc: Global, items: &[Frag], upto: &Pos) -> Result<Option<Frag>, AllocError>
    ensures { IfOk result (λ got. got ≡ first_upto upto.now (clustered_front items.now)) }
{
    let [first, _rest @ ..] = items else {
        return Ok(None);
    };
    if stands_upto(alloc, first, upto)? {
        return Ok(Some(first.copy(alloc)?));
    }
    Ok(None)
}

// The range tombstone in force behind the fragment.
pub(crate) fn tomb_after(tomb: Option<Tomb>, frag: &Frag) -> Option<Tomb>
    ensures { result ≡ tomb_after tomb frag.now }
{
    match frag {
        Frag::Change(_, next) => *next,
        Frag::Start(_) | Frag::Static(_) | Frag::Row(_, _) | Frag::End => tomb,
    }
}
