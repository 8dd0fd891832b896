//! An open reader that goes on past the row cache.
ghost use Rattle.std.specs.Prelude.{◌≡◌, ◌++◌, List, IfOk, OnErr, OnOk};
ghost use Rattle.rc_query.specs.declared.lines.OutLine.{OutLine as Line};
ghost use Rattle.rc_mutation.specs.declared.mutations.Mutation.{Mutation as Change};
ghost use Rattle.rc_mutation.specs.Fragments.{fragments};
ghost use Rattle.rc_mutation.specs.Source.{source_at_head};
ghost use Rattle.rc_schema.specs.SchemaValue.{SchemaValue};
ghost use Rattle.rc_stream.specs.Stream.{stream_of};
ghost use Rattle.rc_opened.specs.Behind.{AreOver, lines_behind};
ghost use Rattle.rc_opened.specs.Opened.{AreChangesOf, snaps_of};
ghost use Rattle.rc_paging.specs.Pages.{LinesAreLeft, StandCached, StandFor};
ghost use Rattle.rc_paging.specs.Past.{lines_past, place_behind_line, read_past, slice_past, without_written};

use crate::layers::{HeldSnaps, put_back, take_out};
use crate::pages::OpenReader;
use rc_cell::Tomb;
use rc_chain::{Chains, ReadHead, Snap};
use rc_filler::laws::a_snapshot_knows_the_writes_it_stands_for;
use rc_mutation::Mutation;
use rc_opened::{Leaves, OpenedBehind};
use rc_position::{PartKey, Pos, Slice, start_pos};
use rc_query::{Lines, OutLine};
use rc_snapshots::Snaps;
use rc_stream::ListFrags;
use std::alloc::{AllocError, Global};

impl OpenReader {
    /// Goes on past the row cache: gives a reader of what is left over what the tables of the partition of a key say now, which need not be what they said before. The line that a page told of is kept, and what is behind it is read under the partition tombstone that the tables said before. The snapshots of what is written go with it; that of the row cache stays, to be taken back (`into_held`). The only error is want of memory: then it is as it was.
    pub fn go_past<const S: usize>(
        &mut self,
        alloc: Global,
        chains: &mut Chains<S>,
        read: Mutation,
        key: &PartKey,
    ) -> Result<OpenedBehind, AllocError>
        requires { (below : List Change) × (lines : List Line) × LinesAreLeft S chains.old self.old below lines }
        ensures lines { (schema : SchemaValue) (below writes later : List Change) → AreChangesOf schema writes → AreChangesOf schema later → StandFor S chains.old self.old.held below writes later →
            IfOk result (λ o. ⟦<OpenedBehind as Leaves<Chains<S>>>⟧.lines o chains.new (lines_past below read (writes ++ later) self.old.behind self.old.remainder.slice)) }
        ensures snaps { IfOk result (λ o. snaps_of o.opened ≡ self.old.held.written) }
        ensures key { IfOk result (λ o. o.opened.key ≡ key.now) }
        ensures held { OnOk result (self.new.held ≡ without_written self.old.held) }
        ensures err { OnErr result (self.new ≡ self.old) }
        ensures chains { chains.new ≡ chains.old }
    {
        read.holds_together();
        let Ok(told) = copied(alloc, &self.behind) else {
            return Err(AllocError);
        };
        let Ok(slice) = slice_behind(alloc, &told, &self.remainder.slice) else {
            return Err(AllocError);
        };
        let Ok(tables) = tables_past(alloc, chains, &self.held.cached, &told, read) else {
            return Err(AllocError);
        };
        let held = take_out(&mut self.held);
        let (held, past) = with_written(alloc, chains, held, told, tables, key, &slice);
        put_back(&mut self.held, held);
        past
    }
}

// The reader past the cache of what is left of a slice, with the snapshots of what is written; and what is held then. The only error is want of memory: then all is held.
fn with_written<const S: usize>(
    alloc: Global,
    chains: &mut Chains<S>,
    held: HeldSnaps,
    told: Option<Lines>,
    tables: ListFrags,
    key: &PartKey,
    slice: &Slice,
) -> (HeldSnaps, Result<OpenedBehind, AllocError>)
    requires { (schema : SchemaValue) × (said : List Change) × (writes : List Change) × (later : List Change) × AreOver schema said writes later tables chains.old held.written }
    ensures gives { (schema : SchemaValue) (said writes later : List Change) → AreOver schema said writes later tables chains.old held.written →
        IfOk result.1 (λ o. ⟦<OpenedBehind as Leaves<Chains<S>>>⟧.lines o chains.new (lines_behind told (said ++ (writes ++ later)) slice.now)) }
    ensures snaps { IfOk result.1 (λ o. snaps_of o.opened ≡ held.written) }
    ensures key { IfOk result.1 (λ o. o.opened.key ≡ key.now) }
    ensures held { OnOk result.1 (result.0 ≡ without_written held) }
    ensures err { OnErr result.1 (result.0 ≡ held) }
    ensures chains { chains.new ≡ chains.old }
{
    let HeldSnaps { cached, written } = held;
    match OpenedBehind::open(alloc, chains, told, written, tables, key, slice) {
        Ok(past) => {
            let written = Snaps {
                sealed: None,
                active: None,
            };
            (HeldSnaps { cached, written }, Ok(past))
        }
        Err((written, error)) => (HeldSnaps { cached, written }, Err(error)),
    }
}

// Lines, where there are some, copied. The only error is want of memory.
fn copied(alloc: Global, lines: &Option<Lines>) -> Result<Option<Lines>, AllocError>
    ensures { IfOk result (λ copy. copy ≡ lines.now) }
{
    match lines {
        None => Ok(None),
        Some(lines) => match lines.copy(alloc) {
            Ok(copy) => Ok(Some(copy)),
            Err(error) => Err(error),
        },
    }
}

// Where a reader goes on behind the line that a page told of. The only error is want of memory.
fn place_behind_line(alloc: Global, told: &[OutLine], slice: &Slice) -> Result<Pos, AllocError>
    ensures { IfOk result (λ x. x ≡ place_behind_line told.now slice.now) }
{
    match told {
        [OutLine::Row(key, _), _rest @ ..] => start_pos(alloc, key, false),
        [OutLine::Static(_), _rest @ ..] => slice.from.copy(alloc),
        [] => slice.to.copy(alloc),
    }
}

// What is left of a slice then. The only error is want of memory.
fn slice_behind(alloc: Global, told: &Option<Lines>, slice: &Slice) -> Result<Slice, AllocError>
    ensures { IfOk result (λ left. left ≡ slice_past told.now slice.now) }
{
    match told {
        None => slice.copy(alloc),
        Some(told) => {
            let from = place_behind_line(alloc, told.as_slice(), slice)?;
            let to = slice.to.copy(alloc)?;
            Ok(Slice { from, to })
        }
    }
}

// The partition tombstone that the tables said before, which the row cache knows of each partition that it has. The only error is want of memory.
fn head_told<const S: usize>(
    chains: &Chains<S>,
    cached: &Option<Snap>,
) -> Result<Option<Tomb>, AllocError>
    requires { (below : List Change) × StandCached S below chains.now cached.now }
    ensures { (below : List Change) → StandCached S below chains.now cached.now → IfOk result (λ pt. pt ≡ source_at_head below) }
{
    a_snapshot_knows_the_writes_it_stands_for();
    match cached {
        None => Ok(None),
        Some(snap) => match chains.head(snap) {
            Ok(head) => Ok(tombstone_of(head)),
            Err(error) => Err(error),
        },
    }
}

// The partition tombstone of a head.
fn tombstone_of(head: ReadHead) -> Option<Tomb>
    ensures { result ≡ head.pt }
{
    head.pt
}

// What is read past the cache, as a stream. The only error is want of memory.
fn tables_past<const S: usize>(
    alloc: Global,
    chains: &Chains<S>,
    cached: &Option<Snap>,
    told: &Option<Lines>,
    read: Mutation,
) -> Result<ListFrags, AllocError>
    requires { (below : List Change) × StandCached S below chains.now cached.now }
    ensures { (below : List Change) → StandCached S below chains.now cached.now → IfOk result (λ list. list ≡ stream_of (fragments (read_past below told.now read))) }
{
    let mut read = read;
    if told.is_some() {
        match head_told(chains, cached) {
            Ok(pt) => read.pt = pt,
            Err(error) => return Err(error),
        }
    }
    match read.fragments(alloc) {
        Ok(list) => Ok(ListFrags::new(list)),
        Err(error) => Err(error),
    }
}
