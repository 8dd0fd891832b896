// One page of what is left of a slice.
ghost use Rattle.std.specs.Prelude.{◌≡◌, ◌+◌, ◌++◌, List, Option, None, IfOk, IfSome, OnOk, length, take, drop, nat_lt};
ghost use Rattle.rc_position.specs.declared.positions.Pos.{Pos};
ghost use Rattle.rc_chain.specs.declared.chains.Snap.{Snap};
ghost use Rattle.rc_mutation.specs.declared.mutations.Mutation.{Mutation};
ghost use Rattle.rc_schema.specs.SchemaValue.{SchemaValue};
ghost use Rattle.rc_query.specs.declared.lines.OutLine.{OutLine};
ghost use Rattle.rc_query.specs.Answer.{answer};
ghost use Rattle.rc_opened.specs.Opened.{AreChangesOf};
ghost use Rattle.rc_cached.specs.Streams.{SayBelow};
ghost use Rattle.rc_reader.specs.Left.{AreLeft, slice_lines};
ghost use Rattle.rc_reader.specs.Steps.{AreFoundBefore, GoesNoFurther, MayGive};
ghost use Rattle.rc_stream.specs.Stream.{Stream};
ghost use Rattle.rc_paging.specs.calls.Keeping.{AreAhead, AreBegun, ArePassed, ArePassedWhole, IsQuiet, KeptLayers};
ghost use Rattle.rc_paging.specs.calls.Layers.{OfLayers, cached_in};
ghost use Rattle.rc_paging.specs.calls.Words.{IsStaticKnownIn};
ghost use Rattle.rc_paging.specs.Pages.{IsStretchKnown, StandFor, page_end};

use crate::layers::{HeldSnaps, Layers};
use crate::seeking::layers_from;
use crate::standing::the_same_is_ready;
use rc_cached::Readings;
use rc_cached::laws::{
    a_cached_stream_leaves_what_others_see, a_cached_stream_misses_only_what_is_not_known,
};
use rc_chain::Chains;
use rc_position::Slice;
use rc_query::Lines;
use rc_reader::Reader;
use rc_spliced::laws::{
    an_answer_is_cut_behind_each_line, the_lines_on_each_side_are_those_of_a_part,
};
use rc_stream::{Frags, StreamErr};
use std::alloc::Global;

// Gives of the lines of a slice the first, at most `count`, behind so many that were passed, whether there are more behind them, and the one right behind them, if there is one; and gives the layers back.
fn page<const S: usize>(
    alloc: Global,
    chains: &mut Chains<S>,
    readings: &mut Readings,
    layers: Layers,
    slice: &Slice,
    passed: u32,
    count: u32,
) -> (Layers, Result<(Lines, bool, Lines), StreamErr>)
    requires ready { ⟦<Layers as Frags<Chains<S>, Readings>>⟧.ready layers chains.old readings.old }
    requires ahead { ⟦<Layers as Frags<Chains<S>, Readings>>⟧.ahead layers slice.now.from }
    ensures gives { (s : Stream) → ⟦<Layers as Frags<Chains<S>, Readings>>⟧.seen layers chains.old readings.old s → IfOk result.1 (λ gave. gave.0 ≡ take count (drop passed (slice_lines slice.now s))) }
    ensures more { (s : Stream) → ⟦<Layers as Frags<Chains<S>, Readings>>⟧.seen layers chains.old readings.old s → IfOk result.1 (λ gave. gave.1 ≡ nat_lt count (length (drop passed (slice_lines slice.now s)))) }
    ensures behind { (s : Stream) → ⟦<Layers as Frags<Chains<S>, Readings>>⟧.seen layers chains.old readings.old s → IfOk result.1 (λ gave. gave.2 ≡ take 1 (drop count (drop passed (slice_lines slice.now s)))) }
    ensures ready { ⟦<Layers as Frags<Chains<S>, Readings>>⟧.ready result.0 chains.new readings.new }
    ensures kept { KeptLayers S (layers, chains.old, readings.old) (result.0, chains.new, readings.new) }
    ensures quiet { (y : Pos) (snap : Option Snap) → AreFoundBefore (⟦<Layers as Frags<Chains<S>, Readings>>⟧.seen layers chains.old readings.old) slice.now (passed + count) y → AreAhead slice.now.from y snap (layers, chains.old, readings.old) → IsStaticKnownIn chains.old (cached_in layers) →
        IsQuiet (layers, chains.old, readings.old) (result.0, chains.new, readings.new) × OnOk result.1 (AreAhead slice.now.from y snap (result.0, chains.new, readings.new)) }
    ensures passed { ArePassed slice.now.from (layers, chains.old, readings.old) → OnOk result.1 (ArePassedWhole slice.now.from (result.0, chains.new, readings.new)) }
{
    a_cached_stream_leaves_what_others_see::<S>();
    a_cached_stream_misses_only_what_is_not_known::<S>();
    match Reader::open(alloc, layers, slice, chains, readings) {
        Ok(reader) => behind_passed(alloc, chains, readings, reader, passed, count),
        Err((layers, error)) => (layers, Err(error)),
    }
}

// So of the lines of a slice that what a reader of these snapshots reads has. No more is read of the row cache than from where the slice begins up to behind the row of the first line behind those that are given.
pub(crate) fn paged<const S: usize>(
    alloc: Global,
    chains: &mut Chains<S>,
    readings: &mut Readings,
    held: HeldSnaps,
    slice: &Slice,
    passed: u32,
    count: u32,
) -> (Layers, Result<(Lines, bool, Lines), StreamErr>)
    requires { (below : List Mutation) × (writes : List Mutation) × (later : List Mutation) × StandFor S chains.old held below writes later × SayBelow below readings.old }
    ensures gives { (schema : SchemaValue) (below writes later : List Mutation) → AreChangesOf schema below → AreChangesOf schema writes → AreChangesOf schema later → StandFor S chains.old held below writes later → SayBelow below readings.old →
        IfOk result.1 (λ gave. gave.0 ≡ take count (drop passed (answer (below ++ (writes ++ later)) slice.now))) }
    ensures more { (schema : SchemaValue) (below writes later : List Mutation) → AreChangesOf schema below → AreChangesOf schema writes → AreChangesOf schema later → StandFor S chains.old held below writes later → SayBelow below readings.old →
        IfOk result.1 (λ gave. gave.1 ≡ nat_lt count (length (drop passed (answer (below ++ (writes ++ later)) slice.now)))) }
    ensures behind { (schema : SchemaValue) (below writes later : List Mutation) → AreChangesOf schema below → AreChangesOf schema writes → AreChangesOf schema later → StandFor S chains.old held below writes later → SayBelow below readings.old →
        IfOk result.1 (λ gave. gave.2 ≡ take 1 (drop count (drop passed (answer (below ++ (writes ++ later)) slice.now)))) }
    ensures ready { ⟦<Layers as Frags<Chains<S>, Readings>>⟧.ready result.0 chains.new readings.new }
    ensures kept { (s : OfLayers) × AreBegun S held chains.old readings.old s × KeptLayers S (s, chains.old, readings.old) (result.0, chains.new, readings.new) }
    ensures quiet { (schema : SchemaValue) (below writes later : List Mutation) → AreChangesOf schema below → AreChangesOf schema writes → AreChangesOf schema later → StandFor S chains.old held below writes later → SayBelow below readings.old →
        IfSome held.cached (IsStretchKnown chains.old slice.now.from (page_end (drop count (drop passed (answer (below ++ (writes ++ later)) slice.now))) slice.now)) →
        (readings.new ≡ readings.old) × OnOk result.1 (AreAhead slice.now.from (page_end (drop count (drop passed (answer (below ++ (writes ++ later)) slice.now))) slice.now) held.cached (result.0, chains.new, readings.new)) }
    ensures passed { readings.old.list ≡ None → OnOk result.1 (ArePassedWhole slice.now.from (result.0, chains.new, readings.new)) }
{
    an_answer_is_cut_behind_each_line();
    the_lines_on_each_side_are_those_of_a_part();
    let (layers, went) = layers_from(alloc, chains, readings, held, &slice.from);
    match went {
        Ok(()) => page(alloc, chains, readings, layers, slice, passed, count),
        Err(error) => (layers, Err(error)),
    }
}

// Passes so many lines of a reader, and gives the first behind them.
fn behind_passed<const S: usize>(
    alloc: Global,
    chains: &mut Chains<S>,
    readings: &mut Readings,
    reader: Reader<Layers>,
    passed: u32,
    count: u32,
) -> (Layers, Result<(Lines, bool, Lines), StreamErr>)
    requires { MayGive ⟦<Layers as Frags<Chains<S>, Readings>>⟧.ready reader chains.old readings.old }
    ensures gives { (lines : List OutLine) → AreLeft ⟦<Layers as Frags<Chains<S>, Readings>>⟧.seen reader chains.old readings.old lines → IfOk result.1 (λ gave. gave.0 ≡ take count (drop passed lines)) }
    ensures more { (lines : List OutLine) → AreLeft ⟦<Layers as Frags<Chains<S>, Readings>>⟧.seen reader chains.old readings.old lines → IfOk result.1 (λ gave. gave.1 ≡ nat_lt count (length (drop passed lines))) }
    ensures behind { (lines : List OutLine) → AreLeft ⟦<Layers as Frags<Chains<S>, Readings>>⟧.seen reader chains.old readings.old lines → IfOk result.1 (λ gave. gave.2 ≡ take 1 (drop count (drop passed lines))) }
    ensures ready { ⟦<Layers as Frags<Chains<S>, Readings>>⟧.ready result.0 chains.new readings.new }
    ensures kept { KeptLayers S (reader.stream, chains.old, readings.old) (result.0, chains.new, readings.new) }
    ensures quiet { (x y : Pos) (snap : Option Snap) → GoesNoFurther (⟦<Layers as Frags<Chains<S>, Readings>>⟧.seen reader.stream chains.old readings.old) reader.work (passed + count) y → AreAhead x y snap (reader.stream, chains.old, readings.old) →
        IsQuiet (reader.stream, chains.old, readings.old) (result.0, chains.new, readings.new) × OnOk result.1 (AreAhead x y snap (result.0, chains.new, readings.new)) }
    ensures passed { (x : Pos) → ArePassedWhole x (reader.stream, chains.old, readings.old) → OnOk result.1 (ArePassedWhole x (result.0, chains.new, readings.new)) }
{
    a_cached_stream_leaves_what_others_see::<S>();
    a_cached_stream_misses_only_what_is_not_known::<S>();
    the_same_is_ready::<Chains<S>, Readings, Layers>();
    let mut reader = reader;
    match reader.read(alloc, chains, readings, passed) {
        Ok(_passed) => {
            let gave = with_behind(alloc, chains, readings, &mut reader, count);
            (reader.into_stream(), gave)
        }
        Err(error) => (reader.into_stream(), Err(error)),
    }
}

// Gives the first lines that are left to a reader, at most `count`, whether there are more behind them, and the one right behind them, if there is one.
fn with_behind<const S: usize>(
    alloc: Global,
    chains: &mut Chains<S>,
    readings: &mut Readings,
    reader: &mut Reader<Layers>,
    count: u32,
) -> Result<(Lines, bool, Lines), StreamErr>
    requires { MayGive ⟦<Layers as Frags<Chains<S>, Readings>>⟧.ready reader.old chains.old readings.old }
    ensures gives { (lines : List OutLine) → AreLeft ⟦<Layers as Frags<Chains<S>, Readings>>⟧.seen reader.old chains.old readings.old lines → IfOk result (λ gave. gave.0 ≡ take count lines) }
    ensures more { (lines : List OutLine) → AreLeft ⟦<Layers as Frags<Chains<S>, Readings>>⟧.seen reader.old chains.old readings.old lines → IfOk result (λ gave. gave.1 ≡ nat_lt count (length lines)) }
    ensures behind { (lines : List OutLine) → AreLeft ⟦<Layers as Frags<Chains<S>, Readings>>⟧.seen reader.old chains.old readings.old lines → IfOk result (λ gave. gave.2 ≡ take 1 (drop count lines)) }
    ensures may { MayGive ⟦<Layers as Frags<Chains<S>, Readings>>⟧.ready reader.new chains.new readings.new }
    ensures kept { KeptLayers S (reader.old.stream, chains.old, readings.old) (reader.new.stream, chains.new, readings.new) }
    ensures quiet { (x y : Pos) (snap : Option Snap) → GoesNoFurther (⟦<Layers as Frags<Chains<S>, Readings>>⟧.seen reader.old.stream chains.old readings.old) reader.old.work count y → AreAhead x y snap (reader.old.stream, chains.old, readings.old) →
        IsQuiet (reader.old.stream, chains.old, readings.old) (reader.new.stream, chains.new, readings.new) × OnOk result (AreAhead x y snap (reader.new.stream, chains.new, readings.new)) }
    ensures passed { (x : Pos) → ArePassedWhole x (reader.old.stream, chains.old, readings.old) → OnOk result (ArePassedWhole x (reader.new.stream, chains.new, readings.new)) }
{
    a_cached_stream_leaves_what_others_see::<S>();
    a_cached_stream_misses_only_what_is_not_known::<S>();
    match reader.read(alloc, chains, readings, count) {
        Ok((lines, more)) => match reader.next_made(alloc) {
            Ok(behind) => Ok((lines, more, behind)),
            Err(_) => Err(StreamErr::NoMemory),
        },
        Err(error) => Err(error),
    }
}
