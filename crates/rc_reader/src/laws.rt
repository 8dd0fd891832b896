//! The laws of what this crate defines, each the contract of a function that does nothing.

ghost use Rattle.std.specs.Prelude.{◌≡◌, [], ◌∷◌, List, IsTrue};
ghost use Rattle.rc_mutation.specs.declared.mutations.Mutation.{Mutation};
ghost use Rattle.rc_mutation.specs.Fragments.{fragments};
ghost use Rattle.rc_mutation.specs.Source.{IsJoinOf, IsMutation, SameSource};
ghost use Rattle.rc_position.specs.declared.positions.Pos.{Pos};
ghost use Rattle.rc_position.specs.Position.{covers};
ghost use Rattle.rc_position.specs.declared.slices.Slice.{Slice};
ghost use Rattle.rc_query.specs.Answer.{answer};
ghost use Rattle.rc_query.specs.declared.lines.OutLine.{OutLine};
ghost use Rattle.rc_reader.specs.declared.readers.Reader.{Reader};
ghost use Rattle.rc_reader.specs.Left.{AreLeft, slice_lines};
ghost use Rattle.rc_stream.specs.Merging.{IsOrdered};
ghost use Rattle.rc_stream.specs.Stream.{Stream, says, stream_of};

use rc_outside::Store;
use rc_query::laws::{answer_of_joined_writes, the_source_determines_the_answer};
use rc_stream::Frags;
use rc_stream::laws::the_stream_of_a_mutation;

/// The lines in a slice of the stream of a mutation are its answer there; so they are the answer of writes that join to it, and of those
/// with the same source.
pub fn the_lines_of_a_mutation_are_its_answer()
    ensures answer { (m : Mutation) (slice : Slice) → IsMutation m → slice_lines slice (stream_of (fragments m)) ≡ answer (m ∷ []) slice }
    ensures joined { (m : Mutation) (writes : List Mutation) (slice : Slice) → IsMutation m → IsJoinOf m writes → slice_lines slice (stream_of (fragments m)) ≡ answer writes slice }
    ensures source { (m : Mutation) (writes : List Mutation) (slice : Slice) → IsMutation m → SameSource (m ∷ []) writes → slice_lines slice (stream_of (fragments m)) ≡ answer writes slice }
{
    the_stream_of_a_mutation();
    answer_of_joined_writes();
    the_source_determines_the_answer();
}

/// Streams in order, of one head, that say the same at each position of a slice have the same lines there. So a stream that says there
/// what that of a mutation does has its answer.
pub fn the_lines_are_what_a_stream_says()
    ensures { (s t : Stream) (slice : Slice) → IsOrdered s.left → IsOrdered t.left → s.head ≡ t.head → ((x : Pos) → IsTrue (covers slice.from slice.to x) → says x s ≡ says x t) →
        slice_lines slice s ≡ slice_lines slice t }
{}

/// Where a home and a store changed, and the stream of a reader stands for what it stood for, the same lines are left to the reader.
pub fn what_is_left_stays_where_the_stream_does<H, W: Store, S: Frags<H, W>>()
    ensures { (reader : Reader S) (h g : H) (w v : W) (lines : List OutLine) → ((s : Stream) → S.seen reader.stream h w s → S.seen reader.stream g v s) →
        AreLeft S.seen reader h w lines → AreLeft S.seen reader g v lines }
{}
