//! The laws of open readers, each the contract of a function that does nothing.
ghost use Rattle.std.specs.Prelude.{◌≡◌, ◌++◌, ◌∷◌, [], ⊤, ℕ, false, List, Some};
ghost use Rattle.rc_position.specs.declared.comps.Comp.{Comp};
ghost use Rattle.rc_position.specs.declared.slices.Slice.{Slice};
ghost use Rattle.rc_position.specs.Position.{start_bound};
ghost use Rattle.rc_schema.specs.SchemaValue.{SchemaValue};
ghost use Rattle.rc_mutation.specs.declared.mutations.Mutation.{Mutation};
ghost use Rattle.rc_mutation.specs.Source.{IsJoinOf, IsMutation};
ghost use Rattle.rc_query.specs.declared.lines.OutLine.{OutLine};
ghost use Rattle.rc_query.specs.declared.lines.OutLine.TheVariants.{Row, Static};
ghost use Rattle.rc_query.specs.Answer.{answer};
ghost use Rattle.rc_opened.specs.Opened.{AreChangesOf};
ghost use Rattle.rc_spliced.specs.Spliced.{IsSpliced};
ghost use Rattle.rc_memory.specs.Memory.{Memory};
ghost use Rattle.rc_chain.specs.declared.chains.Snap.{Snap as Snapshot};
ghost use Rattle.rc_snapshots.specs.Seeing.{SeeSameChanges, SeesSameChanges};
ghost use Rattle.rc_cached.specs.Leaving.{LeavesChains};
ghost use Rattle.rc_paging.specs.declared.layers.HeldSnaps.{HeldSnaps};
ghost use Rattle.rc_paging.specs.declared.pages.OpenReader.{OpenReader};
ghost use Rattle.rc_paging.specs.declared.forms.PartReader.{PartReader as Reader};
ghost use Rattle.rc_paging.specs.Forms.{ByForm, held_by};
ghost use Rattle.rc_paging.specs.Pages.{LinesAreLeft, StandCached, StandFor};
ghost use Rattle.rc_paging.specs.Past.{lines_past};
ghost use Rattle.rc_paging.specs.Remainders.{IsRemainderOf};

use crate::forms::{LeavesOver, PartReader};
use rc_chain::Chains;
use rc_opened::laws::writes_have_a_join;
use rc_opened::what_is_left_stays_where_the_snapshots_see_the_same_changes;
use rc_query::laws::answer_of_joined_writes;
use rc_snapshots::laws::a_snapshot_sees_what_it_saw;
use rc_spliced::laws::{
    an_answer_goes_on, an_answer_is_cut_at_each_position, an_answer_is_cut_behind_each_line,
    the_lines_on_each_side_are_those_of_a_part,
};

/// Whatever calls change of the chains, versions too, the same lines are left to an open reader where its snapshot of the row cache can be filled and stands for what the tables say still, and those of what is written see what the same changes say.
pub fn what_is_left_stays()
    ensures lines { (S : ℕ) (o : OpenReader) (m n : Memory) (below : List Mutation) (lines : List OutLine) → StandCached S below n o.held.cached → SeeSameChanges o.held.written m n → LinesAreLeft S m o below lines → LinesAreLeft S n o below lines }
    ensures stand { (S : ℕ) (held : HeldSnaps) (m n : Memory) (below writes later : List Mutation) → StandCached S below n held.cached → SeeSameChanges held.written m n → StandFor S m held below writes later → StandFor S n held below writes later }
{
    a_snapshot_sees_what_it_saw();
}

/// What calls of open readers leave of the chains they leave one after another, and where they change nothing; and snapshots of what is written see then what the same changes say.
pub fn what_readers_leave_of_chains()
    ensures none { (m : Memory) → LeavesChains m m }
    ensures along { (old mid new : Memory) → LeavesChains old mid → LeavesChains mid new → LeavesChains old new }
    ensures see { (old new : Memory) (s : Snapshot) → LeavesChains old new → SeesSameChanges s old new }
{
    a_snapshot_sees_what_it_saw();
}

/// So it is of a reader in either form: past the row cache nothing is asked of that.
pub fn what_is_left_to_a_reader_stays<const S: usize>()
    ensures { (r : Reader) (m n : Memory) (below : List Mutation) (lines : List OutLine) → ByForm (λ o. StandCached S below n o.held.cached) (λ _. ⊤) r → SeeSameChanges (held_by r).written m n →
        ⟦<PartReader as LeavesOver<Chains<S>>>⟧.lines r m below lines → ⟦<PartReader as LeavesOver<Chains<S>>>⟧.lines r n below lines }
{
    what_is_left_stays();
    what_is_left_stays_where_the_snapshots_see_the_same_changes::<S>();
}

/// Behind the line that a page told of, a reader that goes on past the row cache goes on in one answer: the lines that were given, and those that are left to it, are the answer to what was said before, spliced with what the tables say now right behind that line, and where the slice begins if that is the static one. Where they say now what they said, the lines that were left are left. Behind no line none is.
pub fn a_reader_goes_on_in_one_answer()
    ensures spliced { (schema : SchemaValue) (below written : List Mutation) (first read spliced : Mutation) (slice : Slice) (given rest : List OutLine) (key : List Comp) (shown : List (ℕ × List ℕ)) → IsJoinOf first below → IsMutation first → AreChangesOf schema below → AreChangesOf schema written →
        answer (below ++ written) slice ≡ given ++ Row key shown ∷ rest → IsSpliced (start_bound key false) first read spliced → answer (spliced ∷ written) slice ≡ given ++ lines_past below read written (Some (Row key shown ∷ [])) slice }
    ensures same { (schema : SchemaValue) (below written : List Mutation) (read : Mutation) (slice : Slice) (given rest : List OutLine) (key : List Comp) (shown : List (ℕ × List ℕ)) → IsJoinOf read below → IsMutation read → AreChangesOf schema below → AreChangesOf schema written →
        answer (below ++ written) slice ≡ given ++ Row key shown ∷ rest → lines_past below read written (Some (Row key shown ∷ [])) slice ≡ Row key shown ∷ rest }
    ensures spliced_static { (schema : SchemaValue) (below written : List Mutation) (first read spliced : Mutation) (slice : Slice) (rest : List OutLine) (shown : List (ℕ × List ℕ)) → IsJoinOf first below → IsMutation first → AreChangesOf schema written →
        answer (below ++ written) slice ≡ Static shown ∷ rest → IsSpliced slice.from first read spliced → answer (spliced ∷ written) slice ≡ lines_past below read written (Some (Static shown ∷ [])) slice }
    ensures same_static { (schema : SchemaValue) (below written : List Mutation) (read : Mutation) (slice : Slice) (rest : List OutLine) (shown : List (ℕ × List ℕ)) → IsJoinOf read below → IsMutation read → AreChangesOf schema written →
        answer (below ++ written) slice ≡ Static shown ∷ rest → lines_past below read written (Some (Static shown ∷ [])) slice ≡ Static shown ∷ rest }
    ensures none { (below written : List Mutation) (read : Mutation) (slice : Slice) → lines_past below read written (Some []) slice ≡ [] }
{
    writes_have_a_join();
    answer_of_joined_writes();
    an_answer_goes_on();
    an_answer_is_cut_at_each_position();
    an_answer_is_cut_behind_each_line();
    the_lines_on_each_side_are_those_of_a_part();
}

/// What is left to a reader of a slice once it goes on past the row cache is told by that slice, whatever is left of it.
pub fn a_reader_goes_on_in_its_slice()
    ensures { (S : ℕ) (m : Memory) (o : OpenReader) (below written : List Mutation) (read : Mutation) (lines : List OutLine) (slice : Slice) → LinesAreLeft S m o below lines → IsRemainderOf slice o.remainder → lines_past below read written o.behind o.remainder.slice ≡ lines_past below read written o.behind slice }
{}
