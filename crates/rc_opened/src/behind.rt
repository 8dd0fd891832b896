//! Open readers that go on behind lines that are settled.
ghost use Rattle.std.specs.Prelude.{◌≡◌, ◌+◌, ◌≤◌, ◌<◌, ◌++◌, [], List, IfErr, IfOk, OnErr, OnOk, cond, length, take, drop, nat_lt, true};
ghost use Rattle.rc_query.specs.declared.lines.OutLine.{OutLine as Line};
ghost use Rattle.rc_mutation.specs.declared.mutations.Mutation.{Mutation as Change};
ghost use Rattle.rc_schema.specs.SchemaValue.{SchemaValue};
ghost use Rattle.rc_opened.specs.Behind.{AreOver, begins_static, lines_behind};
ghost use Rattle.rc_opened.specs.calls.Behind.{without_static};
ghost use Rattle.rc_opened.specs.Opened.{left_behind, snaps_of};

use crate::opened::{Leaves, Opened};
use rc_chain::Chains;
use rc_position::{PartKey, Slice};
use rc_query::{Lines, OutLine};
use rc_snapshots::Snaps;
use rc_stream::ListFrags;
use std::alloc::{AllocError, Global};
use std::mem;

/// An open reader behind lines that are settled: it gives these first, whatever the tables say now, and then row lines of what they say now and of what is written.
pub struct OpenedBehind {
    pub(crate) front: Lines,
    pub(crate) ahead: Lines,
    pub(crate) opened: Opened,
}

impl<const S: usize> Leaves<Chains<S>> for OpenedBehind {
    ghost use Rattle.rc_opened.specs.Behind.{LeavesBehind};

    ghost lines = { λ o m lines. LeavesBehind ⟦<Opened as Leaves<Chains<S>>>⟧.lines m o lines };
}

impl OpenedBehind {
    /// A reader that gives settled lines, and then the row lines of a slice of the partition of a key, of which the tables say this, the stream of a mutation from its beginning, with snapshots of what is sealed of it and of what is written since. The static line is not given: it stands before all row lines, so it was settled. Where nothing is settled, not even that there is no line, it gives the whole answer. The only error is want of memory: then the snapshots are given back.
    pub fn open<const S: usize>(
        alloc: Global,
        chains: &mut Chains<S>,
        settled: Option<Lines>,
        snaps: Snaps,
        tables: ListFrags,
        key: &PartKey,
        slice: &Slice,
    ) -> Result<Self, (Snaps, AllocError)>
        requires { (schema : SchemaValue) × (said : List Change) × (writes : List Change) × (later : List Change) × AreOver schema said writes later tables chains.old snaps }
        ensures gives { (schema : SchemaValue) (said writes later : List Change) → AreOver schema said writes later tables chains.old snaps →
            IfOk result (λ o. ⟦<OpenedBehind as Leaves<Chains<S>>>⟧.lines o chains.new (lines_behind settled (said ++ (writes ++ later)) slice.now)) }
        ensures snaps { IfOk result (λ o. snaps_of o.opened ≡ snaps) }
        ensures key { IfOk result (λ o. o.opened.key ≡ key.now) }
        ensures back { IfErr result (λ e. e.0 ≡ snaps) }
        ensures chains { chains.new ≡ chains.old }
    {
        match Opened::open(alloc, chains, snaps, tables, key, slice) {
            Ok(opened) => match settled {
                None => Ok(OpenedBehind {
                    front: Lines::empty(alloc),
                    ahead: Lines::empty(alloc),
                    opened,
                }),
                Some(settled) => pass_static(alloc, chains, settled, opened),
            },
            Err(refused) => Err(refused),
        }
    }

    /// Gives the first lines that are left, at most `count`, and whether there are more behind them. The only error is want of memory: then none is given, and the same are left.
    pub fn read<const S: usize>(
        &mut self,
        alloc: Global,
        chains: &mut Chains<S>,
        count: u32,
    ) -> Result<(Lines, bool), AllocError>
        requires { (lines : List Line) × ⟦<OpenedBehind as Leaves<Chains<S>>>⟧.lines self.old chains.old lines }
        ensures gives { (lines : List Line) → ⟦<OpenedBehind as Leaves<Chains<S>>>⟧.lines self.old chains.old lines → IfOk result (λ gave. gave.0 ≡ take count lines) }
        ensures more { (lines : List Line) → ⟦<OpenedBehind as Leaves<Chains<S>>>⟧.lines self.old chains.old lines → IfOk result (λ gave. gave.1 ≡ nat_lt count (length lines)) }
        ensures left { (lines : List Line) → ⟦<OpenedBehind as Leaves<Chains<S>>>⟧.lines self.old chains.old lines → ⟦<OpenedBehind as Leaves<Chains<S>>>⟧.lines self.new chains.new (left_behind result count lines) }
        ensures snaps { snaps_of self.new.opened ≡ snaps_of self.old.opened }
        ensures key { self.new.opened.key ≡ self.old.opened.key }
        ensures chains { chains.new ≡ chains.old }
    {
        match self.settle(alloc) {
            Ok(()) => self.read_settled(alloc, chains, count),
            Err(error) => Err(error),
        }
    }

    /// The key of its partition.
    pub fn key(&self) -> &PartKey
        ensures { result.now ≡ self.now.opened.key }
    {
        self.opened.key()
    }

    /// The snapshots of a reader that is done with, to be taken back.
    pub fn into_snaps(self) -> Snaps
        ensures { result ≡ snaps_of self.opened }
    {
        let OpenedBehind {
            front: _front,
            ahead: _ahead,
            opened,
        } = self;
        opened.into_snaps()
    }

    // Puts what was read behind the lines in front to these. The only error is want of memory: then it is as it was.
    fn settle(&mut self, alloc: Global) -> Result<(), AllocError>
        ensures ok { OnOk result (self.new ≡ record { front = self.old.front ++ self.old.ahead; ahead = []; opened = self.old.opened }) }
        ensures err { OnErr result (self.new ≡ self.old) }
    {
        if self.front.as_slice().is_empty() {
            self.front = mem::replace(&mut self.ahead, Lines::empty(alloc));
            return Ok(());
        }
        if self.ahead.as_slice().is_empty() {
            return Ok(());
        }
        match joined(alloc, self.front.as_slice(), self.ahead.as_slice()) {
            Ok(lines) => {
                self.front = lines;
                self.ahead = Lines::empty(alloc);
                Ok(())
            }
            Err(error) => Err(error),
        }
    }

    // Gives the first lines that are left, where none was read behind those in front.
    fn read_settled<const S: usize>(
        &mut self,
        alloc: Global,
        chains: &mut Chains<S>,
        count: u32,
    ) -> Result<(Lines, bool), AllocError>
        requires ahead { self.old.ahead ≡ [] }
        requires lines { (rest : List Line) × ⟦<Opened as Leaves<Chains<S>>>⟧.lines self.old.opened chains.old rest }
        ensures gives { (rest : List Line) → ⟦<Opened as Leaves<Chains<S>>>⟧.lines self.old.opened chains.old rest → IfOk result (λ gave. gave.0 ≡ take count (self.old.front ++ rest)) }
        ensures more { (rest : List Line) → ⟦<Opened as Leaves<Chains<S>>>⟧.lines self.old.opened chains.old rest → IfOk result (λ gave. gave.1 ≡ nat_lt count (length (self.old.front ++ rest))) }
        ensures left { (rest : List Line) → ⟦<Opened as Leaves<Chains<S>>>⟧.lines self.old.opened chains.old rest → ⟦<OpenedBehind as Leaves<Chains<S>>>⟧.lines self.new chains.new (left_behind result count (self.old.front ++ rest)) }
        ensures snaps { snaps_of self.new.opened ≡ snaps_of self.old.opened }
        ensures key { self.new.opened.key ≡ self.old.opened.key }
        ensures chains { chains.new ≡ chains.old }
    {
        let made = self.front.as_slice().len();
        if (count as usize) < made {
            self.give_front(alloc, count)
        } else {
            self.read_on(alloc, chains, wanted_behind(count, made))
        }
    }

    // Gives the first of the lines in front, behind which there are more.
    fn give_front(&mut self, alloc: Global, count: u32) -> Result<(Lines, bool), AllocError>
        requires { count < length self.old.front }
        ensures gives { IfOk result (λ gave. gave.0 ≡ take count self.old.front) }
        ensures more { IfOk result (λ gave. gave.1 ≡ true) }
        ensures ok { OnOk result (self.new ≡ record { front = drop count self.old.front; ahead = self.old.ahead; opened = self.old.opened }) }
        ensures err { OnErr result (self.new ≡ self.old) }
    {
        let lines = self.front.as_slice();
        let Ok(page) = Lines::from_slice(alloc, &lines[..count as usize]) else {
            return Err(AllocError);
        };
        let Ok(front) = Lines::from_slice(alloc, &lines[count as usize..]) else {
            return Err(AllocError);
        };
        self.front = front;
        Ok((page, true))
    }

    // Gives all lines in front, and so many of those that the open reader leaves.
    fn read_on<const S: usize>(
        &mut self,
        alloc: Global,
        chains: &mut Chains<S>,
        wanted: u32,
    ) -> Result<(Lines, bool), AllocError>
        requires ahead { self.old.ahead ≡ [] }
        requires lines { (rest : List Line) × ⟦<Opened as Leaves<Chains<S>>>⟧.lines self.old.opened chains.old rest }
        ensures gives { (rest : List Line) → ⟦<Opened as Leaves<Chains<S>>>⟧.lines self.old.opened chains.old rest → IfOk result (λ gave. gave.0 ≡ self.old.front ++ take wanted rest) }
        ensures more { (rest : List Line) → ⟦<Opened as Leaves<Chains<S>>>⟧.lines self.old.opened chains.old rest → IfOk result (λ gave. gave.1 ≡ nat_lt wanted (length rest)) }
        ensures ok { (rest : List Line) → ⟦<Opened as Leaves<Chains<S>>>⟧.lines self.old.opened chains.old rest → OnOk result (⟦<OpenedBehind as Leaves<Chains<S>>>⟧.lines self.new chains.new (drop wanted rest)) }
        ensures err { (rest : List Line) → ⟦<Opened as Leaves<Chains<S>>>⟧.lines self.old.opened chains.old rest → OnErr result (⟦<OpenedBehind as Leaves<Chains<S>>>⟧.lines self.new chains.new (self.old.front ++ rest)) }
        ensures snaps { snaps_of self.new.opened ≡ snaps_of self.old.opened }
        ensures key { self.new.opened.key ≡ self.old.opened.key }
        ensures chains { chains.new ≡ chains.old }
    {
        match self.opened.read(alloc, chains, wanted) {
            Ok((lines, more)) => {
                self.ahead = lines;
                match self.settle(alloc) {
                    Ok(()) => Ok((mem::replace(&mut self.front, Lines::empty(alloc)), more)),
                    Err(error) => Err(error),
                }
            }
            Err(error) => Err(error),
        }
    }
}

// Lets the static line of an open reader go, if it is left, and puts settled lines in front. The only error is want of memory: then its snapshots are given back.
fn pass_static<const S: usize>(
    alloc: Global,
    chains: &mut Chains<S>,
    settled: Lines,
    opened: Opened,
) -> Result<OpenedBehind, (Snaps, AllocError)>
    requires { (lines : List Line) × ⟦<Opened as Leaves<Chains<S>>>⟧.lines opened chains.old lines }
    ensures gives { (lines : List Line) → ⟦<Opened as Leaves<Chains<S>>>⟧.lines opened chains.old lines → IfOk result (λ o. ⟦<OpenedBehind as Leaves<Chains<S>>>⟧.lines o chains.new (settled ++ without_static lines)) }
    ensures snaps { IfOk result (λ o. snaps_of o.opened ≡ snaps_of opened) }
    ensures key { IfOk result (λ o. o.opened.key ≡ opened.key) }
    ensures back { IfErr result (λ e. e.0 ≡ snaps_of opened) }
    ensures chains { chains.new ≡ chains.old }
{
    let mut opened = opened;
    match opened.read(alloc, chains, 1) {
        Ok((first, _more)) => Ok(OpenedBehind {
            front: settled,
            ahead: rows_of(alloc, first),
            opened,
        }),
        Err(error) => Err((opened.into_snaps(), error)),
    }
}

// A line, unless it is the static one.
fn rows_of(alloc: Global, first: Lines) -> Lines
    ensures { result ≡ cond (begins_static first) [] first }
{
    if begins_static(first.as_slice()) {
        Lines::empty(alloc)
    } else {
        first
    }
}

/// Whether lines begin with a static line.
pub fn begins_static(lines: &[OutLine]) -> bool
    ensures { result ≡ begins_static lines.now }
{
    match lines {
        [OutLine::Static(_), _rest @ ..] => true,
        [OutLine::Row(..), _rest @ ..] => false,
        [] => false,
    }
}

// How many lines are wanted behind those that are made, of which none is too many.
fn wanted_behind(count: u32, made: usize) -> u32
    requires { made ≤ count }
    ensures { result + made ≡ count }
{
    count - made as u32
}

// Lines, and others behind them, copied. The only error is want of memory.
fn joined(alloc: Global, front: &[OutLine], ahead: &[OutLine]) -> Result<Lines, AllocError>
    ensures { IfOk result (λ lines. lines ≡ front.now ++ ahead.now) }
{
    let mut all = Vec::new(alloc);
    copy_behind(alloc, &mut all, front)?;
    copy_behind(alloc, &mut all, ahead)?;
    Lines::from_slice(alloc, all.as_slice())
}

// Puts copies of lines behind others. The only error is want of memory.
fn copy_behind(alloc: Global, all: &mut Vec<OutLine>, lines: &[OutLine]) -> Result<(), AllocError>
    ensures { OnOk result (all.new.items ≡ all.old.items ++ lines.now) }
{
    let mut left = lines;
    while let [line, rest @ ..] = left {
        all.push(line.copy(alloc)?)?;
        left = rest;
    }
    Ok(())
}
