//! What keeps the continuity of a whole chain: fills of the newest version, a unit of merging, a dropped version, a new phase.

ghost use Rattle.std.specs.Prelude.{◌≡◌, ◌≢◌, ◌<◌, ◌++◌, ◌∷◌, [], ℕ, suc, true, List, Option, length};
ghost use Rattle.std.specs.Option.{option_to_list};
ghost use Rattle.rc_cell.specs.declared.rows.Row.{Row};
ghost use Rattle.rc_cell.specs.declared.writes.Tomb.{Tomb};
ghost use Rattle.rc_cell.specs.Orders.{tomb_cmp};
ghost use Rattle.rc_cell.specs.Winner.{empty_row, greatest, joined_row};
ghost use Rattle.rc_position.specs.declared.positions.Pos.{Pos};
ghost use Rattle.rc_position.specs.Position.{IsBefore, covers};
ghost use Rattle.rc_mutation.specs.declared.mutations.Mutation.{Mutation};
ghost use Rattle.rc_mutation.specs.Source.{SameSource, source_at, source_at_head, source_at_static};
ghost use Rattle.rc_core.specs.declared.entries.ChainKind.TheVariants.{Cache};
ghost use Rattle.rc_core.specs.Chains.{Chain, IsChainContinuous, IsNeeded, phase_at, upto, with_versions};
ghost use Rattle.rc_core.specs.Continuity.{fill_statics};
ghost use Rattle.rc_core.specs.Merge.{IsMerged, IsSeenAlike, IsSilent};
ghost use Rattle.rc_core.specs.Steps.{IsCarriedIn, IsChain, MayPopulate, add_version, drop_version, gap_filled, new_chain, number_after_removal, on_newest, opened_version, row_filled, with_newest, with_phase};
ghost use Rattle.rc_core.specs.Version.{IsVersion, Version, end_position};

/// A cache chain that is opened with the source's head, its static row known also where there is none, is continuous.
pub fn an_opened_entry_is_continuous()
    ensures chain { (pt : Option Tomb) (statics : Option Row) (phase : ℕ) (below : ℕ → List Mutation) → pt ≡ source_at_head (below phase) →
        joined_row (option_to_list statics) ≡ source_at_static (below phase) → IsChainContinuous below (new_chain Cache (opened_version pt statics phase)) }
    ensures form { (pt : Option Tomb) (statics : Option Row) (phase : ℕ) → IsChain (new_chain Cache (opened_version pt statics phase)) }
{}

/// A change of the newest version that leaves a version, and a version that is added, leave a chain.
pub fn what_leaves_a_chain()
    ensures newest { (c : Chain) (newest : ℕ) (change : Version → Version) → suc newest ≡ length c.versions →
        ((v : Version) → IsVersion v → IsVersion (change v)) → IsChain c → IsChain (with_newest change c) }
    ensures added { (c : Chain) (pt : Option Tomb) (phase : ℕ) → IsChain c → IsChain (add_version pt phase c) }
{}

/// A gap filled keeps the continuity of the whole chain, where a snapshot that may populate found it in its source: at each position inside
/// no row, and this tombstone.
pub fn a_filled_gap_keeps_the_whole_chain()
    ensures chain { (below : ℕ → List Mutation) (c : Chain) (pin : ℕ) → MayPopulate c pin → (from to : Pos) (tomb : Option Tomb) → IsChain c →
        ((x : Pos) → covers from to x ≡ true → source_at (below (phase_at c.versions pin)) x ≡ (empty_row, tomb)) →
        IsChainContinuous below c → IsChainContinuous below (with_newest (gap_filled from to tomb) c) }
    ensures form { (c : Chain) (pin : ℕ) (from to : Pos) (tomb : Option Tomb) → MayPopulate c pin → IsChain c →
        IsChain (with_newest (gap_filled from to tomb) c) }
{}

/// A row filled, not an empty one, keeps the continuity of the whole chain, where a snapshot that may populate found it and its range
/// tombstone in its source.
pub fn a_filled_row_keeps_the_whole_chain()
    ensures chain { (below : ℕ → List Mutation) (c : Chain) (pin : ℕ) → MayPopulate c pin → (x : Pos) (row : Row) (tomb : Option Tomb) → IsChain c →
        source_at (below (phase_at c.versions pin)) x ≡ (row, tomb) → row ≢ empty_row →
        IsChainContinuous below c → IsChainContinuous below (with_newest (row_filled x row tomb) c) }
    ensures form { (c : Chain) (pin : ℕ) (x : Pos) (row : Row) (tomb : Option Tomb) → MayPopulate c pin → IsBefore x end_position → IsChain c →
        IsChain (with_newest (row_filled x row tomb) c) }
{}

/// A static row filled, also where there is none, keeps the continuity of the whole chain, where a snapshot that may populate found it in
/// its source.
pub fn a_filled_static_row_keeps_the_whole_chain()
    ensures chain { (below : ℕ → List Mutation) (c : Chain) (pin : ℕ) → MayPopulate c pin → (given : Option Row) → IsChain c →
        joined_row (option_to_list given) ≡ source_at_static (below (phase_at c.versions pin)) →
        IsChainContinuous below c → IsChainContinuous below (with_newest (fill_statics given) c) }
    ensures form { (c : Chain) (pin : ℕ) (given : Option Row) → MayPopulate c pin → IsChain c → IsChain (with_newest (fill_statics given) c) }
{}

/// What lies below counts by what it says, and at the phases of the chain's versions alone: another list there that says the same, and any list
/// at another phase, keep the whole chain continuous.
pub fn what_lies_below_counts_by_its_source()
    ensures { (below other : ℕ → List Mutation) (c : Chain) → IsChain c →
        ((j : ℕ) → j < length c.versions → SameSource (below (phase_at c.versions j)) (other (phase_at c.versions j))) →
        IsChainContinuous below c → IsChainContinuous other c }
{}

/// A phase whose mutations say the same at each place may be given to the newest version of an attached chain.
pub fn a_new_phase_keeps_the_whole_chain()
    ensures { (below : ℕ → List Mutation) (c : Chain) (newest to : ℕ) → suc newest ≡ length c.versions → IsChain c → c.attached ≡ true →
        SameSource (below (phase_at c.versions newest)) (below to) →
        IsChainContinuous below c → IsChainContinuous below (with_newest (with_phase to) c) }
{}

/// A new phase of the newest version changes nothing that is seen: a chain is left, and what was carried is carried.
pub fn a_new_phase_changes_nothing_that_is_seen()
    ensures seen { (versions : List Version) (newest to : ℕ) → suc newest ≡ length versions → IsSeenAlike versions (on_newest (with_phase to) versions) }
    ensures form { (c : Chain) (newest to : ℕ) → suc newest ≡ length c.versions → IsChain c → IsChain (with_newest (with_phase to) c) }
    ensures carried { (c : Chain) (newest to : ℕ) (x : Pos) → suc newest ≡ length c.versions → IsCarriedIn c x → IsCarriedIn (with_newest (with_phase to) c) x }
{}

/// A unit of merging keeps the continuity of the whole chain, where nobody needs the older of the two versions: no snapshot pins it, and
/// it is not the one below the newest of a chain under update.
pub fn a_merged_unit_keeps_the_whole_chain()
    ensures chain { (below : ℕ → List Mutation) (c : Chain) (front back : List Version) (older newer older_after newer_after : Version) →
        c.versions ≡ front ++ older ∷ newer ∷ back → (IsNeeded c (length front) → ⊥) → IsMerged older newer older_after newer_after →
        older_after.phase ≡ older.phase → newer_after.phase ≡ newer.phase →
        IsChainContinuous below c → IsChainContinuous below (with_versions (front ++ older_after ∷ newer_after ∷ back) c) }
    ensures form { (c : Chain) (front back : List Version) (older newer older_after newer_after : Version) →
        c.versions ≡ front ++ older ∷ newer ∷ back → IsVersion older_after → IsVersion newer_after →
        IsChain c → IsChain (with_versions (front ++ older_after ∷ newer_after ∷ back) c) }
    ensures seen { (c : Chain) (front back : List Version) (older newer older_after newer_after : Version) →
        c.versions ≡ front ++ older ∷ newer ∷ back → (IsNeeded c (length front) → ⊥) → IsMerged older newer older_after newer_after →
        (j : ℕ) → IsNeeded c j → IsSeenAlike (upto c.versions j) (upto (front ++ older_after ∷ newer_after ∷ back) j) }
{}

/// A version that says nothing, and whose partition tombstone is not above the next one's, may be dropped where nobody needs it: the
/// whole chain stays continuous.
pub fn a_dropped_version_keeps_the_whole_chain()
    ensures chain { (below : ℕ → List Mutation) (c : Chain) (front back : List Version) (v next : Version) →
        c.versions ≡ front ++ v ∷ next ∷ back → (IsNeeded c (length front) → ⊥) → IsSilent v →
        greatest tomb_cmp (option_to_list v.pt ++ option_to_list next.pt) ≡ greatest tomb_cmp (option_to_list next.pt) →
        IsChainContinuous below c → IsChainContinuous below (drop_version (length front) c) }
    ensures form { (c : Chain) (front back : List Version) (v next : Version) →
        c.versions ≡ front ++ v ∷ next ∷ back → (IsNeeded c (length front) → ⊥) → IsChain c → IsChain (drop_version (length front) c) }
    ensures seen { (c : Chain) (front back : List Version) (v next : Version) → c.versions ≡ front ++ v ∷ next ∷ back →
        (IsNeeded c (length front) → ⊥) → IsSilent v →
        greatest tomb_cmp (option_to_list v.pt ++ option_to_list next.pt) ≡ greatest tomb_cmp (option_to_list next.pt) →
        (j : ℕ) → IsNeeded c j → IsSeenAlike (upto c.versions j) (upto (drop_version (length front) c).versions (number_after_removal (length front) j)) }
{}
