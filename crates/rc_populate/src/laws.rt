//! The laws of fills, in the words of their clauses: what was filled is known to the snapshot, all else is as before, and a chain stays continuous where what was handed in is what its source says. Each is the contract of a function that does nothing.

ghost use Rattle.std.specs.Prelude.{◌≡◌, ◌≢◌, ◌<◌, ℕ, suc, true, false, IsTrue, List, None, Option, Some, length};
ghost use Rattle.std.specs.Option.{option_to_list};
ghost use Rattle.rc_cell.specs.declared.rows.Row.{Row};
ghost use Rattle.rc_cell.specs.declared.writes.Tomb.{Tomb};
ghost use Rattle.rc_cell.specs.Orders.{tomb_cmp};
ghost use Rattle.rc_cell.specs.Winner.{empty_row, greatest, joined_row};
ghost use Rattle.rc_position.specs.declared.positions.Pos.{Pos};
ghost use Rattle.rc_position.specs.Position.{Head, IsBefore, Place, covers};
ghost use Rattle.rc_mutation.specs.declared.mutations.Mutation.{Mutation};
ghost use Rattle.rc_mutation.specs.Source.{source_at, source_at_head, source_at_static};
ghost use Rattle.rc_core.specs.declared.entries.ChainKind.TheVariants.{Cache};
ghost use Rattle.rc_core.specs.Chain.{IsKnown, has_flag, states_at};
ghost use Rattle.rc_core.specs.Chains.{IsChainContinuous, Shown, at_place, phase_at, upto};
ghost use Rattle.rc_core.specs.Continuity.{EachOf, IsWithin, fill_statics, static_states, version_tombs};
ghost use Rattle.rc_core.specs.SpotState.{through};
ghost use Rattle.rc_core.specs.Steps.{IsCarriedIn, IsChain, MayPopulate, gap_filled, row_filled};
ghost use Rattle.rc_core.specs.Version.{Behind, IsVersion, On, Spot, Version, end_position, state_at, static_state};
ghost use Rattle.rc_memory.specs.Memory.{KeptChain, Memory, IsVersionAt, chain_at, on_chain, on_shown};
ghost use Rattle.rc_populate.specs.Filling.{IsEntryOpened, chain_opened, filled_statics, on_newest_of};

use rc_core::laws::carrying::{
    a_filled_gap_is_carried, a_filled_row_is_carried, a_filled_static_row_keeps_what_is_carried,
};
use rc_core::laws::filling::{
    a_filled_gap_is_seen_as_known, a_filled_row_is_seen_as_known,
    a_filled_static_row_is_known_and_keeps_continuity,
};
use rc_core::laws::keeping::{
    a_filled_gap_keeps_the_whole_chain, a_filled_row_keeps_the_whole_chain,
    a_filled_static_row_keeps_the_whole_chain, an_opened_entry_is_continuous,
};

/// A gap that a snapshot fills: each position inside is known to it; each position and each gap outside is seen as before, and so are the head and the static row; what was known is known, and what was carried is carried. A chain stays a chain, and continuous where its source has no row and this tombstone at each position inside.
pub fn a_filled_gap_keeps_what_is_said()
    ensures known { (c : Shown) (j : ℕ) (from to : Pos) (tomb : Option Tomb) (x : Pos) → MayPopulate (at_place Head c) j → EachOf IsVersion c.versions → covers from to x ≡ true →
        IsKnown Cache (upto (on_newest_of (gap_filled from to tomb) c).versions j) x }
    ensures elsewhere { (c : Shown) (j : ℕ) (from to : Pos) (tomb : Option Tomb) (x : Pos) → MayPopulate (at_place Head c) j → EachOf IsVersion c.versions → covers from to x ≡ false →
        through (states_at (On x) (upto (on_newest_of (gap_filled from to tomb) c).versions j)) ≡ through (states_at (On x) (upto c.versions j)) }
    ensures gaps { (c : Shown) (j : ℕ) (from to : Pos) (tomb : Option Tomb) (x : Pos) → MayPopulate (at_place Head c) j → EachOf IsVersion c.versions → IsBefore x end_position → covers from to x ≡ false →
        through (states_at (Behind x) (upto (on_newest_of (gap_filled from to tomb) c).versions j)) ≡ through (states_at (Behind x) (upto c.versions j)) }
    ensures head { (c : Shown) (j : ℕ) (from to : Pos) (tomb : Option Tomb) → MayPopulate (at_place Head c) j →
        (version_tombs (upto (on_newest_of (gap_filled from to tomb) c).versions j) ≡ version_tombs (upto c.versions j)) × (static_states (upto (on_newest_of (gap_filled from to tomb) c).versions j) ≡ static_states (upto c.versions j)) }
    ensures kept { (c : Shown) (j : ℕ) (from to : Pos) (tomb : Option Tomb) (x : Pos) → MayPopulate (at_place Head c) j → IsChain (at_place Head c) →
        IsKnown Cache (upto c.versions j) x → IsKnown Cache (upto (on_newest_of (gap_filled from to tomb) c).versions j) x }
    ensures chain { (below : ℕ → List Mutation) (p : Place) (c : Shown) (j : ℕ) (from to : Pos) (tomb : Option Tomb) → MayPopulate (at_place p c) j → IsChain (at_place p c) →
        ((x : Pos) → covers from to x ≡ true → source_at (below (phase_at c.versions j)) x ≡ (empty_row, tomb)) →
        IsChainContinuous below (at_place p c) → IsChainContinuous below (at_place p (on_newest_of (gap_filled from to tomb) c)) }
    ensures form { (p : Place) (c : Shown) (j : ℕ) (from to : Pos) (tomb : Option Tomb) → MayPopulate (at_place p c) j → IsChain (at_place p c) → IsChain (at_place p (on_newest_of (gap_filled from to tomb) c)) }
    ensures carried { (p : Place) (c : Shown) (j : ℕ) (from to : Pos) (tomb : Option Tomb) (x : Pos) → MayPopulate (at_place p c) j → IsChain (at_place p c) →
        IsCarriedIn (at_place p c) x → IsCarriedIn (at_place p (on_newest_of (gap_filled from to tomb) c)) x }
{
    a_filled_gap_is_seen_as_known();
    a_filled_gap_keeps_the_whole_chain();
    a_filled_gap_is_carried();
}

/// A row that a snapshot fills, not an empty one: where it and its tombstone are what the source says at its position, that is known to the snapshot. Each other spot is seen as before, and so are the head and the static row; what was known is known, and what was carried is carried. A chain stays a chain, and continuous.
pub fn a_filled_row_keeps_what_is_said()
    ensures known { (below : ℕ → List Mutation) (c : Shown) (j : ℕ) (x : Pos) (row : Row) (tomb : Option Tomb) → MayPopulate (at_place Head c) j → IsChain (at_place Head c) →
        source_at (below (phase_at c.versions j)) x ≡ (row, tomb) → row ≢ empty_row → IsChainContinuous below (at_place Head c) →
        IsKnown Cache (upto (on_newest_of (row_filled x row tomb) c).versions j) x }
    ensures elsewhere { (c : Shown) (j : ℕ) (x : Pos) (row : Row) (tomb : Option Tomb) (s : Spot) → MayPopulate (at_place Head c) j → EachOf IsVersion c.versions → s ≢ On x →
        through (states_at s (upto (on_newest_of (row_filled x row tomb) c).versions j)) ≡ through (states_at s (upto c.versions j)) }
    ensures head { (c : Shown) (j : ℕ) (x : Pos) (row : Row) (tomb : Option Tomb) → MayPopulate (at_place Head c) j →
        (version_tombs (upto (on_newest_of (row_filled x row tomb) c).versions j) ≡ version_tombs (upto c.versions j)) × (static_states (upto (on_newest_of (row_filled x row tomb) c).versions j) ≡ static_states (upto c.versions j)) }
    ensures kept { (below : ℕ → List Mutation) (c : Shown) (j : ℕ) (x : Pos) (row : Row) (tomb : Option Tomb) → MayPopulate (at_place Head c) j → IsChain (at_place Head c) →
        source_at (below (phase_at c.versions j)) x ≡ (row, tomb) → row ≢ empty_row → IsChainContinuous below (at_place Head c) →
        (y : Pos) → IsKnown Cache (upto c.versions j) y → IsKnown Cache (upto (on_newest_of (row_filled x row tomb) c).versions j) y }
    ensures chain { (below : ℕ → List Mutation) (p : Place) (c : Shown) (j : ℕ) (x : Pos) (row : Row) (tomb : Option Tomb) → MayPopulate (at_place p c) j → IsChain (at_place p c) →
        source_at (below (phase_at c.versions j)) x ≡ (row, tomb) → row ≢ empty_row →
        IsChainContinuous below (at_place p c) → IsChainContinuous below (at_place p (on_newest_of (row_filled x row tomb) c)) }
    ensures form { (p : Place) (c : Shown) (j : ℕ) (x : Pos) (row : Row) (tomb : Option Tomb) → MayPopulate (at_place p c) j → IsBefore x end_position → IsChain (at_place p c) → IsChain (at_place p (on_newest_of (row_filled x row tomb) c)) }
    ensures carried { (below : ℕ → List Mutation) (p : Place) (c : Shown) (j : ℕ) (x : Pos) (row : Row) (tomb : Option Tomb) → MayPopulate (at_place p c) j → IsChain (at_place p c) →
        source_at (below (phase_at c.versions j)) x ≡ (row, tomb) → row ≢ empty_row → IsChainContinuous below (at_place p c) →
        (y : Pos) → IsCarriedIn (at_place p c) y → IsCarriedIn (at_place p (on_newest_of (row_filled x row tomb) c)) y }
{
    a_filled_row_is_seen_as_known();
    a_filled_row_keeps_the_whole_chain();
    a_filled_row_is_carried();
}

/// A static row that a snapshot fills is known to it, also where there is none. Each spot is seen as before, and so is the head; what was known is known, and what was carried is carried. A chain stays a chain, and continuous where what is filled is the source's static row.
pub fn a_filled_static_row_keeps_what_is_said()
    ensures known { (c : Shown) (j : ℕ) (statics : Option Row) → MayPopulate (at_place Head c) j → IsTrue (has_flag Cache (static_states (upto (on_newest_of (fill_statics statics) c).versions j))) }
    ensures elsewhere { (c : Shown) (j : ℕ) (statics : Option Row) (s : Spot) → MayPopulate (at_place Head c) j → states_at s (upto (on_newest_of (fill_statics statics) c).versions j) ≡ states_at s (upto c.versions j) }
    ensures head { (c : Shown) (j : ℕ) (statics : Option Row) → MayPopulate (at_place Head c) j → version_tombs (upto (on_newest_of (fill_statics statics) c).versions j) ≡ version_tombs (upto c.versions j) }
    ensures kept { (c : Shown) (j : ℕ) (statics : Option Row) (x : Pos) → MayPopulate (at_place Head c) j → IsKnown Cache (upto c.versions j) x → IsKnown Cache (upto (on_newest_of (fill_statics statics) c).versions j) x }
    ensures chain { (below : ℕ → List Mutation) (p : Place) (c : Shown) (j : ℕ) (statics : Option Row) → MayPopulate (at_place p c) j → IsChain (at_place p c) →
        joined_row (option_to_list statics) ≡ source_at_static (below (phase_at c.versions j)) →
        IsChainContinuous below (at_place p c) → IsChainContinuous below (at_place p (on_newest_of (fill_statics statics) c)) }
    ensures form { (p : Place) (c : Shown) (j : ℕ) (statics : Option Row) → MayPopulate (at_place p c) j → IsChain (at_place p c) → IsChain (at_place p (on_newest_of (fill_statics statics) c)) }
    ensures carried { (p : Place) (c : Shown) (j : ℕ) (statics : Option Row) (x : Pos) → MayPopulate (at_place p c) j → IsChain (at_place p c) →
        IsCarriedIn (at_place p c) x → IsCarriedIn (at_place p (on_newest_of (fill_statics statics) c)) x }
{
    a_filled_static_row_is_known_and_keeps_continuity();
    a_filled_static_row_keeps_the_whole_chain();
    a_filled_static_row_keeps_what_is_carried();
}

/// A chain that is opened with the head of what lies below is continuous: its partition tombstone and its static row are known, and nothing else is.
pub fn an_opened_chain_says_what_is_handed_in()
    ensures form { (p : Place) (pt : Option Tomb) (statics : Option Row) (phase : ℕ) → IsChain (at_place p (chain_opened pt statics phase).chain) }
    ensures chain { (below : ℕ → List Mutation) (p : Place) (pt : Option Tomb) (statics : Option Row) (phase : ℕ) → pt ≡ source_at_head (below phase) → joined_row (option_to_list statics) ≡ source_at_static (below phase) →
        IsChainContinuous below (at_place p (chain_opened pt statics phase).chain) }
    ensures known { (pt : Option Tomb) (statics : Option Row) (phase : ℕ) → IsTrue (has_flag Cache (static_states (chain_opened pt statics phase).chain.versions)) }
    ensures unknown { (pt : Option Tomb) (statics : Option Row) (phase : ℕ) (s : Spot) → has_flag Cache (states_at s (chain_opened pt statics phase).chain.versions) ≡ false }
{
    an_opened_entry_is_continuous();
}

/// What the source of a continuous chain says may be filled: what a version holds is within it. And what is given of a static row joins to that row.
pub fn what_the_source_says_may_be_filled()
    ensures statics { (below : ℕ → List Mutation) (p : Place) (c : Shown) (j : ℕ) (v : Version) → IsVersionAt c.versions j v → IsChainContinuous below (at_place p c) →
        IsWithin (static_state v) (source_at_static (below (phase_at c.versions j)), None) }
    ensures clustered { (below : ℕ → List Mutation) (p : Place) (c : Shown) (j : ℕ) (v : Version) (x : Pos) → IsVersionAt c.versions j v → IsChainContinuous below (at_place p c) →
        IsWithin (state_at (On x) v) (source_at (below (phase_at c.versions j)) x) }
    ensures given { (writes : List Mutation) → joined_row (option_to_list (filled_statics (source_at_static writes))) ≡ source_at_static writes }
{}

/// A fill changes the newest version of one chain alone: what a snapshot of an older version sees is as it was, and so is each other chain.
pub fn a_fill_changes_the_newest_version_alone()
    ensures here { (id : ℕ) (f : Version → Version) (old new : Memory) (k : KeptChain) → new.chains ≡ on_chain id (on_shown (on_newest_of f)) old.chains → chain_at old id ≡ Some k → chain_at new id ≡ Some (on_shown (on_newest_of f) k) }
    ensures others { (id : ℕ) (f : Version → Version) (old new : Memory) (i : ℕ) → new.chains ≡ on_chain id (on_shown (on_newest_of f)) old.chains → i ≢ id → chain_at new i ≡ chain_at old i }
    ensures older { (f : Version → Version) (c : Shown) (i : ℕ) → suc i < length c.versions → upto (on_newest_of f c).versions i ≡ upto c.versions i }
    ensures opened { (id : ℕ) (pt : Option Tomb) (statics : Option Row) (phase : ℕ) (old new : Memory) → IsEntryOpened id pt statics phase old new → chain_at new id ≡ Some (chain_opened pt statics phase) }
    ensures beside { (id : ℕ) (pt : Option Tomb) (statics : Option Row) (phase : ℕ) (old new : Memory) (i : ℕ) → IsEntryOpened id pt statics phase old new → i ≢ id → chain_at new i ≡ chain_at old i }
{}
