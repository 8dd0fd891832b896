// What an open reader reads, as it is made.
ghost use Rattle.std.specs.Prelude.{◌≡◌, ◌++◌, List};
ghost use Rattle.rc_position.specs.declared.positions.Pos.{Pos};
ghost use Rattle.rc_position.specs.declared.slices.Slice.{Slice};
ghost use Rattle.rc_schema.specs.SchemaValue.{SchemaValue};
ghost use Rattle.rc_mutation.specs.declared.mutations.Mutation.{Mutation};
ghost use Rattle.rc_mutation.specs.Fragments.{fragments};
ghost use Rattle.rc_mutation.specs.Source.{IsJoinOf, IsMutation};
ghost use Rattle.rc_query.specs.Answer.{answer};
ghost use Rattle.rc_memory.specs.Memory.{Memory};
ghost use Rattle.rc_stream.specs.Did.{IsNewMerge};
ghost use Rattle.rc_stream.specs.Stream.{Stream, sought_stream, stream_of};
ghost use Rattle.rc_reader.specs.Left.{slice_lines};
ghost use Rattle.rc_opened.specs.Opened.{AreChangesOf};
ghost use Rattle.rc_cached.specs.declared.readings.Readings.{Readings as Read};
ghost use Rattle.rc_cached.specs.Streams.{OfCache};
ghost use Rattle.rc_snapshots.specs.Seeing.{SeesAllOf};
ghost use Rattle.rc_snapshots.specs.declared.snaps.Snaps.{Snaps as Two};
ghost use Rattle.rc_paging.specs.declared.layers.HeldSnaps.{HeldSnaps};
ghost use Rattle.rc_paging.specs.calls.Layers.{AreLayersOf, AreMemtableLayers, IsCacheLayerOf, OfLayers};
ghost use Rattle.rc_paging.specs.calls.Standing.{OfMemtables};

use crate::layers::Layers;
use crate::memtables::MemtableStream;
use crate::optional::Optional;
use crate::standing::what_memtables_have_stays;
use rc_cached::laws::a_cached_stream_leaves_what_others_see;
use rc_cached::{CachedStream, Readings};
use rc_chain::Chains;
use rc_mutation::laws::a_join_says_what_the_writes_say;
use rc_opened::laws::writes_have_a_join;
use rc_reader::laws::the_lines_of_a_mutation_are_its_answer;
use rc_snapshots::laws::a_snapshots_stream_says_what_was_written;
use rc_stream::laws::{
    a_later_seek_forgets_an_earlier, a_merge_is_sought_in_both, a_merge_is_the_stream_of_the_join,
    a_new_merge_stands_for_both, the_stream_of_a_mutation,
};
use rc_stream::{Frags, Merge};
use rc_writes::laws::what_says_the_same_fits;

// What an open reader reads, as it is made: what memtables have, over chains in which their snapshots stand for what is written, and with it a stream of what the row cache has. It may be called where that may be, and sought to each position; and where that stands for what tables say, sought to a position, it stands for a stream whose lines in each slice from there on are the answer to what the tables say and then to what is written.
pub(crate) fn new_layers_say_what_was_written<const S: usize>()
    ensures ready { (writes later : List Mutation) (written : Two) (inner : OfMemtables) (cached : Optional OfCache) (m : Memory) (w : Read) (s : OfLayers) → SeesAllOf writes m written.sealed → SeesAllOf later m written.active → AreMemtableLayers written inner → IsNewMerge inner cached s →
        ⟦<Optional<CachedStream> as Frags<Chains<S>, Readings>>⟧.ready cached m w → ⟦<Layers as Frags<Chains<S>, Readings>>⟧.ready s m w }
    ensures ahead { (written : Two) (inner : OfMemtables) (cached : Optional OfCache) (s : OfLayers) (x : Pos) → AreMemtableLayers written inner → IsNewMerge inner cached s → ⟦<Layers as Frags<Chains<S>, Readings>>⟧.ahead s x }
    ensures layers { (held : HeldSnaps) (inner : OfMemtables) (cached : Optional OfCache) (s : OfLayers) → AreMemtableLayers held.written inner → IsNewMerge inner cached s → IsCacheLayerOf held.cached cached.stream → AreLayersOf held s }
    ensures seen { (schema : SchemaValue) (below writes later : List Mutation) (written : Two) (inner : OfMemtables) (cached : Optional OfCache) (m : Memory) (w : Read) (s : OfLayers) (x : Pos) → AreChangesOf schema below → AreChangesOf schema writes → AreChangesOf schema later →
        SeesAllOf writes m written.sealed → SeesAllOf later m written.active → AreMemtableLayers written inner → IsNewMerge inner cached s →
        ((d : Mutation) → IsMutation d → IsJoinOf d below → ⟦<Optional<CachedStream> as Frags<Chains<S>, Readings>>⟧.seen cached m w (sought_stream x (stream_of (fragments d)))) →
        (t : Stream) × ⟦<Layers as Frags<Chains<S>, Readings>>⟧.seen s m w t × ((slice : Slice) → slice.from ≡ x → slice_lines slice t ≡ answer (below ++ (writes ++ later)) slice) }
{
    the_stream_of_a_mutation();
    writes_have_a_join();
    a_join_says_what_the_writes_say();
    what_says_the_same_fits();
    a_snapshots_stream_says_what_was_written::<S, Readings>();
    a_cached_stream_leaves_what_others_see::<S>();
    what_memtables_have_stays::<S, Readings>();
    a_new_merge_stands_for_both::<
        Chains<S>,
        Readings,
        Optional<MemtableStream>,
        Optional<MemtableStream>,
    >();
    a_new_merge_stands_for_both::<
        Chains<S>,
        Readings,
        Merge<Optional<MemtableStream>, Optional<MemtableStream>>,
        Optional<CachedStream>,
    >();
    a_merge_is_the_stream_of_the_join();
    a_merge_is_sought_in_both();
    a_later_seek_forgets_an_earlier();
    the_lines_of_a_mutation_are_its_answer();
}
