//! The laws of what this crate defines, each the contract of a function that does nothing.

ghost use Rattle.std.specs.Prelude.{◌≡◌, ◌++◌, ◌∷◌, [], ℕ, Bool, List, Some, None, map, IsTrue};
ghost use Rattle.std.specs.Option.{option_to_list};
ghost use Rattle.rc_cell.specs.Greatest.{greater};
ghost use Rattle.rc_cell.specs.Orders.{tomb_cmp};
ghost use Rattle.rc_mutation.specs.laws.ByKey.{joined_if_any};
ghost use Rattle.rc_stream.specs.Merging.{IsOrdered, IsTelling, joined_head, merged_stream, rows_here};
ghost use Rattle.std.specs.Ordering.{is_le};
ghost use Rattle.rc_position.specs.declared.positions.Pos.{Pos};
ghost use Rattle.rc_position.specs.Position.{pos_cmp};
ghost use Rattle.rc_mutation.specs.declared.fragments.Frag.{Frag};
ghost use Rattle.rc_mutation.specs.declared.mutations.Mutation.{Mutation};
ghost use Rattle.rc_mutation.specs.Fragments.{changes_of, fragments, in_order, placed_change, placed_row};
ghost use Rattle.rc_mutation.specs.Source.{IsJoinOf, IsMutation};
ghost use Rattle.rc_stream.specs.Did.{IsNewMerge, IsQuiet, Spends, both_left, both_settled};
ghost use Rattle.rc_stream.specs.declared.merges.Merge.{Merge};
ghost use Rattle.rc_stream.specs.Moving.{Keeps, KeepsSeen};
ghost use Rattle.rc_stream.specs.Places.{Reaches};
ghost use Rattle.rc_stream.specs.Showing.{EitherSpot, IsFromStart, MergesTwo};
ghost use Rattle.rc_stream.specs.Stream.{Stream, force, is_passed, says, sought_stream, stream_of, took};

use crate::merges::Merge;
use crate::streams::Frags;
use rc_outside::Store;

/// The stream of the fragments of a mutation has its partition tombstone and its static row, and gives its rows and changes
/// of tombstone by position; it is whole.
pub fn the_stream_of_a_mutation()
    ensures whole { (m : Mutation) → IsMutation m → IsFromStart (stream_of (fragments m)) }
    ensures fragments { (m : Mutation) → IsMutation m →
        stream_of (fragments m) ≡ record {
          head = record { pt = m.pt; statics = m.statics };
          tomb = None;
          left = in_order (map placed_row m.rows ++ map placed_change (changes_of m.ranges));
        } }
{}

/// After a seek a stream says the same as before at the position and at each one behind it.
pub fn a_seek_changes_nothing_from_there_on()
    ensures { (s : Stream) (x y : Pos) → IsTrue (is_le (pos_cmp x y)) → says y (sought_stream x s) ≡ says y s }
{}

/// After its first was taken, a stream says the same as before at each position that lies behind it: behind a row, or at a
/// change or behind it.
pub fn a_taken_fragment_changes_nothing_behind()
    ensures { (s : Stream) (f : Frag) (fs : List Frag) (y : Pos) →
        s.left ≡ f ∷ fs → IsTrue (is_passed y f) → says y (took (Some f) s) ≡ says y s }
{}

/// Two streams merged have the greater partition tombstone and the static rows as one, at each position the row of both as
/// one, where one of both has any, and the greater of the tombstones in force there.
pub fn a_merge_says_what_both_say()
    ensures head { (s t : Stream) → (merged_stream s t).head ≡ joined_head s.head t.head }
    ensures rows { (s t : Stream) (x : Pos) → IsOrdered s.left → IsOrdered t.left →
        rows_here x (merged_stream s t).left ≡ option_to_list (joined_if_any (rows_here x s.left ++ rows_here x t.left)) }
    ensures first { (s t : Stream) → (merged_stream s t).tomb ≡ greater tomb_cmp s.tomb t.tomb }
    ensures tombs { (s t : Stream) (x : Pos) → IsOrdered s.left → IsOrdered t.left →
        force x (merged_stream s t).tomb (merged_stream s t).left ≡ greater tomb_cmp (force x s.tomb s.left) (force x t.tomb t.left) }
{}

/// The streams of the fragments of two mutations, merged, are the stream of the fragments of what both join to.
pub fn a_merge_is_the_stream_of_the_join()
    ensures { (one other joined : Mutation) → IsMutation one → IsMutation other → IsMutation joined →
        IsJoinOf joined (one ∷ other ∷ []) →
        merged_stream (stream_of (fragments one)) (stream_of (fragments other)) ≡ stream_of (fragments joined) }
{}

/// Two streams merged are canonical: rows and changes by strictly ascending place, and each change tells of a tombstone
/// that was not in force before it.
pub fn a_merge_is_canonical()
    ensures ordered { (s t : Stream) → IsOrdered s.left → IsOrdered t.left → IsOrdered (merged_stream s t).left }
    ensures telling { (s t : Stream) → IsOrdered s.left → IsOrdered t.left → IsTelling (merged_stream s t).tomb (merged_stream s t).left }
{}

/// Canonical streams of the same head and the same tombstone before their first that say the same at each position are
/// equal.
pub fn a_canonical_stream_is_determined()
    ensures { (s t : Stream) → IsOrdered s.left → IsOrdered t.left → IsTelling s.tomb s.left → IsTelling t.tomb t.left →
        s.head ≡ t.head → s.tomb ≡ t.tomb → ((x : Pos) → says x s ≡ says x t) → s ≡ t }
{}

/// Two streams merged and then sought are both sought and then merged.
pub fn a_merge_is_sought_in_both()
    ensures { (s t : Stream) (x : Pos) → IsOrdered s.left → IsOrdered t.left →
        sought_stream x (merged_stream s t) ≡ merged_stream (sought_stream x s) (sought_stream x t) }
{}

/// A later seek forgets an earlier one.
pub fn a_later_seek_forgets_an_earlier()
    ensures { (s : Stream) (x y : Pos) → IsTrue (is_le (pos_cmp x y)) → sought_stream y (sought_stream x s) ≡ sought_stream y s }
{}

/// A new merge of two parts stands for what both say together, whichever streams the parts stand for, from their beginning or from
/// where they were sought to. It is ready where both are and the calls of each leave the other ready and what it stands for; and each
/// position is ahead of it from which on both may be sought. It is fresh where both are, might stand for what two streams merge to for
/// which the parts might stand, and may name as damaged what they may.
pub fn a_new_merge_stands_for_both<H, W: Store, A: Frags<H, W>, B: Frags<H, W>>()
    ensures seen { (a : A) (b : B) (m : Merge A B) (h : H) (w : W) (s t : Stream) → IsNewMerge a b m → A.seen a h w s → B.seen b h w t →
        s.tomb ≡ None → t.tomb ≡ None → IsOrdered s.left → IsOrdered t.left → ⟦<Merge<A, B> as Frags<H, W>>⟧.seen m h w (merged_stream s t) }
    ensures ready { (a : A) (b : B) (m : Merge A B) (h : H) (w : W) → IsNewMerge a b m → A.ready a h w → B.ready b h w →
        Keeps B.moves A.ready → Keeps A.moves B.ready → KeepsSeen B.moves A.seen → KeepsSeen A.moves B.seen → ⟦<Merge<A, B> as Frags<H, W>>⟧.ready m h w }
    ensures ahead { (a : A) (b : B) (m : Merge A B) (x : Pos) → IsNewMerge a b m → ((y : Pos) → Reaches x y → A.ahead a y) → ((y : Pos) → Reaches x y → B.ahead b y) →
        ⟦<Merge<A, B> as Frags<H, W>>⟧.ahead m x }
    ensures fresh { (a : A) (b : B) (m : Merge A B) → IsNewMerge a b m → A.fresh a → B.fresh b → ⟦<Merge<A, B> as Frags<H, W>>⟧.fresh m }
    ensures might { (a : A) (b : B) (m : Merge A B) (s : Stream) → IsNewMerge a b m → ⟦<Merge<A, B> as Frags<H, W>>⟧.might m s → MergesTwo (A.might a) (B.might b) s }
    ensures damage { (a : A) (b : B) (m : Merge A B) (file offset : ℕ) → IsNewMerge a b m → ⟦<Merge<A, B> as Frags<H, W>>⟧.damage m file offset → EitherSpot (A.damage a) (B.damage b) file offset }
{}

/// Where what the two parts of a merge may still ask for bounds what their calls do, their sum bounds what those of the merge do. Where
/// parts that are settled ask for nothing, so does the merge; a head that was answered settles it.
pub fn a_merge_asks_for_what_its_parts_do<H, W: Store, A: Frags<H, W>, B: Frags<H, W>>()
    ensures spends { (left : A → ℕ) (left' : B → ℕ) (asks : W → ℕ) → Spends A.did left asks → Spends B.did left' asks →
        Spends ⟦<Merge<A, B> as Frags<H, W>>⟧.did (both_left left left') asks }
    ensures quiet { (settled : A → Bool) (settled' : B → Bool) (asks : W → ℕ) → IsQuiet A.did settled asks → IsQuiet B.did settled' asks →
        IsQuiet ⟦<Merge<A, B> as Frags<H, W>>⟧.did (both_settled settled settled') asks }
{}
