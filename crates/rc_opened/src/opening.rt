// What an open reader reads, as it is made.
ghost use Rattle.std.specs.Prelude.{◌≡◌, ◌++◌, List};
ghost use Rattle.rc_position.specs.declared.positions.Pos.{Pos};
ghost use Rattle.rc_position.specs.declared.slices.Slice.{Slice};
ghost use Rattle.rc_schema.specs.SchemaValue.{SchemaValue};
ghost use Rattle.rc_mutation.specs.declared.mutations.Mutation.{Mutation};
ghost use Rattle.rc_mutation.specs.Source.{IsJoinOf, IsMutation};
ghost use Rattle.rc_query.specs.Answer.{answer};
ghost use Rattle.rc_memory.specs.Memory.{Memory};
ghost use Rattle.rc_stream.specs.Stream.{Stream};
ghost use Rattle.rc_reader.specs.Left.{slice_lines};
ghost use Rattle.rc_snapshots.specs.declared.snaps.Snaps.{Snaps};
ghost use Rattle.rc_snapshots.specs.Seeing.{SeesAllOf};
ghost use Rattle.rc_opened.specs.Opened.{AreChangesOf, AreStreamsOf, OfSources, no_files};
ghost use Rattle.rc_opened.specs.calls.Opened.{AreSources};

use crate::laws::writes_have_a_join;
use crate::no_files::NoFiles;
use crate::opened::Sources;
use crate::written::Written;
use rc_chain::Chains;
use rc_mutation::laws::a_join_says_what_the_writes_say;
use rc_reader::laws::the_lines_of_a_mutation_are_its_answer;
use rc_snapshots::laws::a_snapshots_stream_says_what_was_written;
use rc_stream::laws::{
    a_merge_is_the_stream_of_the_join, a_new_merge_stands_for_both, the_stream_of_a_mutation,
};
use rc_stream::{Frags, ListFrags, Merge};
use rc_writes::laws::what_says_the_same_fits;

/// What an open reader reads, as it is made, over chains in which both snapshots see what is written: it may be called and sought to each position, its streams are those of the snapshots, and it stands for a stream whose lines in each slice are the answer to what the tables said and then to what is written.
pub(crate) fn new_sources_say_what_was_written<const S: usize>()
    ensures ready { (tables : Mutation) (writes later : List Mutation) (snaps : Snaps) (m : Memory) (s : OfSources) → SeesAllOf writes m snaps.sealed → SeesAllOf later m snaps.active → AreSources tables snaps s →
        ⟦<Sources as Frags<Chains<S>, NoFiles>>⟧.ready s m no_files }
    ensures ahead { (tables : Mutation) (snaps : Snaps) (s : OfSources) (x : Pos) → AreSources tables snaps s → ⟦<Sources as Frags<Chains<S>, NoFiles>>⟧.ahead s x }
    ensures streams { (tables : Mutation) (snaps : Snaps) (s : OfSources) → AreSources tables snaps s → AreStreamsOf snaps s }
    ensures seen { (schema : SchemaValue) (tables : Mutation) (said writes later : List Mutation) (snaps : Snaps) (m : Memory) (s : OfSources) → IsMutation tables → IsJoinOf tables said → AreChangesOf schema writes → AreChangesOf schema later →
        SeesAllOf writes m snaps.sealed → SeesAllOf later m snaps.active → AreSources tables snaps s →
        (t : Stream) × ⟦<Sources as Frags<Chains<S>, NoFiles>>⟧.seen s m no_files t × ((slice : Slice) → slice_lines slice t ≡ answer (said ++ (writes ++ later)) slice) }
{
    the_stream_of_a_mutation();
    writes_have_a_join();
    a_join_says_what_the_writes_say();
    what_says_the_same_fits();
    a_snapshots_stream_says_what_was_written::<S, NoFiles>();
    a_new_merge_stands_for_both::<Chains<S>, NoFiles, Written, Written>();
    a_new_merge_stands_for_both::<Chains<S>, NoFiles, ListFrags, Merge<Written, Written>>();
    a_merge_is_the_stream_of_the_join();
    the_lines_of_a_mutation_are_its_answer();
}
