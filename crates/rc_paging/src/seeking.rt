// What an open reader reads from a place on.
ghost use Rattle.std.specs.Prelude.{◌≡◌, ◌++◌, List, OnOk};
ghost use Rattle.rc_position.specs.declared.slices.Slice.{Slice};
ghost use Rattle.rc_schema.specs.SchemaValue.{SchemaValue};
ghost use Rattle.rc_mutation.specs.declared.mutations.Mutation.{Mutation};
ghost use Rattle.rc_query.specs.Answer.{answer};
ghost use Rattle.rc_stream.specs.Stream.{Stream};
ghost use Rattle.rc_reader.specs.Left.{slice_lines};
ghost use Rattle.rc_opened.specs.Opened.{AreChangesOf};
ghost use Rattle.rc_cached.specs.Streams.{SayBelow};
ghost use Rattle.rc_paging.specs.calls.Keeping.{AreBegun, IsPlacedAt};
ghost use Rattle.rc_paging.specs.Pages.{StandFor};

use crate::layers::{HeldSnaps, Layers, cache_stream, memtable_layers};
use crate::opening::new_layers_say_what_was_written;
use rc_cached::Readings;
use rc_cached::laws::{
    a_cached_stream_leaves_what_others_see, a_cached_stream_misses_only_what_is_not_known,
    a_cached_stream_says_what_lies_below, what_is_below_still_says,
};
use rc_chain::Chains;
use rc_mutation::laws::a_join_says_what_the_writes_say;
use rc_position::Pos;
use rc_stream::{Frags, Merge, StreamErr};
use std::alloc::Global;

// What a reader of these snapshots reads, from a position on: the stream of the row cache is sought to there at once, so that no call asks of the row cache what lies before it. The only error is want of memory.
pub(crate) fn layers_from<const S: usize>(
    alloc: Global,
    chains: &mut Chains<S>,
    readings: &mut Readings,
    held: HeldSnaps,
    from: &Pos,
) -> (Layers, Result<(), StreamErr>)
    requires { (below : List Mutation) × (writes : List Mutation) × (later : List Mutation) × StandFor S chains.old held below writes later × SayBelow below readings.old }
    ensures home { chains.new ≡ chains.old }
    ensures store { readings.new ≡ readings.old }
    ensures ready { ⟦<Layers as Frags<Chains<S>, Readings>>⟧.ready result.0 chains.new readings.new }
    ensures ahead { ⟦<Layers as Frags<Chains<S>, Readings>>⟧.ahead result.0 from.now }
    ensures begun { AreBegun S held chains.new readings.new result.0 }
    ensures seen { (schema : SchemaValue) (below writes later : List Mutation) → AreChangesOf schema below → AreChangesOf schema writes → AreChangesOf schema later → StandFor S chains.old held below writes later → SayBelow below readings.old →
        OnOk result.1 ((t : Stream) × ⟦<Layers as Frags<Chains<S>, Readings>>⟧.seen result.0 chains.new readings.new t × ((slice : Slice) → slice.from ≡ from.now → slice_lines slice t ≡ answer (below ++ (writes ++ later)) slice)) }
    ensures placed { OnOk result.1 (IsPlacedAt from.now result.0) }
{
    new_layers_say_what_was_written::<S>();
    a_cached_stream_says_what_lies_below::<S>();
    what_is_below_still_says::<S>();
    a_cached_stream_leaves_what_others_see::<S>();
    a_cached_stream_misses_only_what_is_not_known::<S>();
    a_join_says_what_the_writes_say();
    let HeldSnaps { cached, written } = held;
    let both = memtable_layers(alloc, written);
    let mut cached = cache_stream(alloc, cached);
    let went = cached.seek(alloc, chains, readings, from);
    (Merge::new(both, cached), went)
}
