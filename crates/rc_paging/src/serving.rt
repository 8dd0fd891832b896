// A page of an open reader, by its snapshots.
ghost use Rattle.std.specs.Prelude.{◌≡◌, ◌++◌, false, List, Option, None, IfErr, IfOk, IfSome, IsSome, OnOk, length, take, drop, nat_lt};
ghost use Rattle.rc_position.specs.declared.positions.Pos.{Pos as Position};
ghost use Rattle.rc_chain.specs.declared.chains.Snap.{Snap};
ghost use Rattle.rc_mutation.specs.declared.mutations.Mutation.{Mutation};
ghost use Rattle.rc_schema.specs.SchemaValue.{SchemaValue};
ghost use Rattle.rc_query.specs.Answer.{answer};
ghost use Rattle.rc_opened.specs.Opened.{AreChangesOf};
ghost use Rattle.rc_cached.specs.Leaving.{LeavesChains};
ghost use Rattle.rc_cached.specs.Streams.{SayBelow};
ghost use Rattle.rc_paging.specs.declared.pages.PageErr.TheVariants.{Missing, NoMemory};
ghost use Rattle.rc_paging.specs.Pages.{IsStretchKnown, StandFor, page_end, readings_with};
ghost use Rattle.rc_paging.specs.calls.Keeping.{AreAhead, ArePassedWhole, IsStreamPassedTo, KeptLayers};
ghost use Rattle.rc_paging.specs.calls.Layers.{cached_in};
ghost use Rattle.rc_paging.specs.calls.Pages.{why};
ghost use Rattle.rc_paging.specs.Remainders.{given_before};

use crate::filling::passed_to;
use crate::layers::{HeldSnaps, Layers, given_back};
use crate::pages::PageErr;
use crate::paging::paged;
use crate::remainders::Remainder;
use rc_cached::Readings;
use rc_chain::Chains;
use rc_position::{Pos, Slice, start_pos};
use rc_query::{Lines, OutLine};
use rc_snapshots::laws::a_snapshot_sees_what_it_saw;
use rc_stream::{Frags, ListFrags, StreamErr};
use std::alloc::{AllocError, Global};

// What was read, to be handed in.
fn readings(read: Option<ListFrags>) -> Readings
    ensures { result ≡ readings_with read }
{
    match read {
        None => Readings::none(),
        Some(list) => Readings::of(list),
    }
}

// Why a call over readings was refused.
fn cause(readings: &Readings) -> PageErr
    ensures { result ≡ why readings.now.missed }
{
    if readings.missed() {
        PageErr::Missing
    } else {
        PageErr::NoMemory
    }
}

// Up to where a page looks in a slice, where this is the line right behind those that are given, if there is one. The only error is want of memory.
fn page_end(alloc: Global, behind: &Lines, slice: &Slice) -> Result<Pos, AllocError>
    ensures { IfOk result (λ x. x ≡ page_end behind.now slice.now) }
{
    match behind.as_slice() {
        [OutLine::Row(key, _), ..] => start_pos(alloc, key, false),
        [OutLine::Static(_), ..] | [] => slice.to.copy(alloc),
    }
}

// The layers, once the cached stream passed up to where a page of a slice looks, where this is the line right behind those that are given, if there is one. Where what the tables say was handed in, it passes all of the slice, so that a later page does not ask for it again, and as far as memory reaches; else it may be refused.
fn passed<const S: usize>(
    alloc: Global,
    chains: &mut Chains<S>,
    readings: &mut Readings,
    layers: Layers,
    slice: &Slice,
    behind: &Lines,
    handed: bool,
) -> (Layers, Result<(), StreamErr>)
    requires { ⟦<Layers as Frags<Chains<S>, Readings>>⟧.ready layers chains.old readings.old }
    ensures kept { KeptLayers S (layers, chains.old, readings.old) (result.0, chains.new, readings.new) }
    ensures handed { IfErr result.1 (λ _. handed ≡ false) }
    ensures still { (x : Position) (snap : Option Snap) → handed ≡ false → AreAhead x (page_end behind.now slice.now) snap (layers, chains.old, readings.old) → readings.new ≡ readings.old }
    ensures passed { (x : Position) → handed ≡ false → ArePassedWhole x (layers, chains.old, readings.old) → OnOk result.1 (IfSome (cached_in result.0) (IsStreamPassedTo x (page_end behind.now slice.now) chains.new readings.new)) }
{
    if handed {
        let (layers, _went) = passed_to(alloc, chains, readings, layers, &slice.to);
        return (layers, Ok(()));
    }
    match page_end(alloc, behind, slice) {
        Ok(upto) => passed_to(alloc, chains, readings, layers, &upto),
        Err(_) => (layers, Err(StreamErr::NoMemory)),
    }
}

// Gives the first lines of what is left of a slice, at most `count`, whether there are more behind them, and the one right behind them, if there is one; and gives the snapshots back. What the page passed of the row cache is known to its snapshot then, where nothing was handed in; where what the tables say was, all that is left of the slice is filled.
pub(crate) fn serve<const S: usize>(
    alloc: Global,
    chains: &mut Chains<S>,
    held: HeldSnaps,
    read: Option<ListFrags>,
    remainder: &Remainder,
    count: u32,
) -> (HeldSnaps, Result<(Lines, bool, Lines), PageErr>)
    requires { (below : List Mutation) × (writes : List Mutation) × (later : List Mutation) × StandFor S chains.old held below writes later × SayBelow below (readings_with read) }
    ensures gives { (schema : SchemaValue) (below writes later : List Mutation) → AreChangesOf schema below → AreChangesOf schema writes → AreChangesOf schema later → StandFor S chains.old held below writes later → SayBelow below (readings_with read) →
        IfOk result.1 (λ gave. gave.0 ≡ take count (drop (given_before remainder.now) (answer (below ++ (writes ++ later)) remainder.now.slice))) }
    ensures more { (schema : SchemaValue) (below writes later : List Mutation) → AreChangesOf schema below → AreChangesOf schema writes → AreChangesOf schema later → StandFor S chains.old held below writes later → SayBelow below (readings_with read) →
        IfOk result.1 (λ gave. gave.1 ≡ nat_lt count (length (drop (given_before remainder.now) (answer (below ++ (writes ++ later)) remainder.now.slice)))) }
    ensures behind { (schema : SchemaValue) (below writes later : List Mutation) → AreChangesOf schema below → AreChangesOf schema writes → AreChangesOf schema later → StandFor S chains.old held below writes later → SayBelow below (readings_with read) →
        IfOk result.1 (λ gave. gave.2 ≡ take 1 (drop count (drop (given_before remainder.now) (answer (below ++ (writes ++ later)) remainder.now.slice)))) }
    ensures held { result.0 ≡ held }
    ensures stand { (below writes later : List Mutation) → StandFor S chains.old held below writes later → SayBelow below (readings_with read) → StandFor S chains.new held below writes later }
    ensures missing { IfErr result.1 (λ e. e ≡ Missing → IsSome held.cached × (read ≡ None)) }
    ensures known { (schema : SchemaValue) (below writes later : List Mutation) → AreChangesOf schema below → AreChangesOf schema writes → AreChangesOf schema later → StandFor S chains.old held below writes later → SayBelow below (readings_with read) →
        IfSome held.cached (IsStretchKnown chains.old remainder.now.slice.from (page_end (drop count (drop (given_before remainder.now) (answer (below ++ (writes ++ later)) remainder.now.slice))) remainder.now.slice)) → IfErr result.1 (λ e. e ≡ NoMemory) }
    ensures passed { (schema : SchemaValue) (below writes later : List Mutation) → AreChangesOf schema below → AreChangesOf schema writes → AreChangesOf schema later → StandFor S chains.old held below writes later → SayBelow below (readings_with read) → read ≡ None →
        OnOk result.1 (IfSome held.cached (IsStretchKnown chains.old remainder.now.slice.from (page_end (drop count (drop (given_before remainder.now) (answer (below ++ (writes ++ later)) remainder.now.slice))) remainder.now.slice))) }
    ensures unread { read ≡ None → chains.new ≡ chains.old }
    ensures chains { LeavesChains chains.old chains.new }
{
    a_snapshot_sees_what_it_saw();
    let handed = read.is_some();
    let mut readings = readings(read);
    let before = remainder.given_before();
    let slice = &remainder.slice;
    let (layers, gave) = paged(alloc, chains, &mut readings, held, slice, before, count);
    match gave {
        Ok(gave) => {
            let behind = &gave.2;
            let (layers, went) = passed(
                alloc,
                chains,
                &mut readings,
                layers,
                slice,
                behind,
                handed,
            );
            match went {
                Ok(()) => (given_back(layers), Ok(gave)),
                Err(_) => (given_back(layers), Err(cause(&readings))),
            }
        }
        Err(_) => (given_back(layers), Err(cause(&readings))),
    }
}
