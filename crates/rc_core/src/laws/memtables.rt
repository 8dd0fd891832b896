//! The form of a memtable's chain: all flags are Inherit, and the tombstones at bare positions are those of the gaps behind them. What
//! keeps it, and that what is seen at each pinned version stays.

ghost use Rattle.std.specs.Prelude.{◌≡◌, ◌≢◌, ◌<◌, ◌++◌, ◌∷◌, [], ℕ, IsTrue, suc, true, List, None, Option, length};
ghost use Rattle.std.specs.Option.{option_to_list};
ghost use Rattle.rc_cell.specs.Orders.{tomb_cmp};
ghost use Rattle.rc_cell.specs.Winner.{empty_row, greatest, joined_row};
ghost use Rattle.rc_core.specs.Merge.{IsMerged, IsSeenAlike, IsSilent, new_version};
ghost use Rattle.rc_cell.specs.declared.rows.Row.{Row};
ghost use Rattle.rc_cell.specs.declared.writes.Tomb.{Tomb};
ghost use Rattle.rc_position.specs.declared.comps.Comp.{Comp};
ghost use Rattle.rc_position.specs.declared.positions.Pos.{Pos};
ghost use Rattle.rc_position.specs.Position.{covers, row_pos};
ghost use Rattle.rc_mutation.specs.declared.mutations.Mutation.{Mutation};
ghost use Rattle.rc_mutation.specs.Source.{SameSource, rows_in, source_at};
ghost use Rattle.rc_mutation.specs.Cover.{tombs_over};
ghost use Rattle.rc_core.specs.declared.parts.Part.{Part};
ghost use Rattle.rc_core.specs.declared.entries.ChainKind.TheVariants.{Memtable};
ghost use Rattle.rc_core.specs.Chain.{IsEvenAt, IsKnown, states_at, content, has_flag};
ghost use Rattle.rc_core.specs.Chains.{AllInherit, Chain, IsMemtableChain, IsNeeded, upto, with_versions};
ghost use Rattle.rc_core.specs.Continuity.{EachOf};
ghost use Rattle.rc_core.specs.StandsFor.{ArePartsFrom, IsWholeAt, StandsFor, part_pieces, rows_of, written_pt, written_range, written_row, written_statics};
ghost use Rattle.rc_core.specs.Steps.{IsChain, add_version, detach, drop_version, join_pt, join_statics, new_chain, on_newest, range_joined, release, row_joined, snapshot, with_newest};
ghost use Rattle.rc_core.specs.Version.{On, Spot, Version};

/// A new memtable's chain, of one version that says nothing, has the form.
pub fn a_new_memtable_has_the_form()
    ensures memtable { (pt : Option Tomb) (phase : ℕ) → IsMemtableChain (new_chain Memtable (new_version pt phase)) }
    ensures form { (pt : Option Tomb) (phase : ℕ) → IsChain (new_chain Memtable (new_version pt phase)) }
{}

/// A write to the newest version of an attached memtable chain keeps its form: a row, a range tombstone, a partition tombstone, a static row.
pub fn a_write_keeps_the_memtables_form()
    ensures row { (c : Chain) (newest : ℕ) → suc newest ≡ length c.versions → IsChain c → c.attached ≡ true → IsMemtableChain c →
        (x : Pos) (row : Row) → IsMemtableChain (with_newest (row_joined x row) c) }
    ensures range { (c : Chain) (newest : ℕ) → suc newest ≡ length c.versions → IsChain c → c.attached ≡ true → IsMemtableChain c →
        (from to : Pos) (tomb : Tomb) → IsMemtableChain (with_newest (range_joined from to tomb) c) }
    ensures head { (c : Chain) (newest : ℕ) → suc newest ≡ length c.versions → IsChain c → c.attached ≡ true → IsMemtableChain c →
        (tomb : Tomb) → IsMemtableChain (with_newest (join_pt tomb) c) }
    ensures statics { (c : Chain) (newest : ℕ) → suc newest ≡ length c.versions → IsChain c → c.attached ≡ true → IsMemtableChain c →
        (row : Row) → IsMemtableChain (with_newest (join_statics row) c) }
{}

/// A write to the newest version leaves the versions up to each older one, so what is seen there stays.
pub fn a_write_is_not_seen_below()
    ensures { (c : Chain) (write : Version → Version) (newest j : ℕ) → suc newest ≡ length c.versions → suc j < length c.versions →
        upto (on_newest write c.versions) j ≡ upto c.versions j }
{}

/// A new version over an attached memtable chain keeps its form.
pub fn a_new_version_keeps_the_memtables_form()
    ensures { (c : Chain) (newest : ℕ) (pt : Option Tomb) (phase : ℕ) → suc newest ≡ length c.versions → IsChain c → c.attached ≡ true →
        IsMemtableChain c → IsMemtableChain (add_version pt phase c) }
{}

/// Merging two versions of which nobody needs the older, and dropping one that says nothing, keep a memtable chain's form.
pub fn merging_keeps_the_memtables_form()
    ensures merged { (c : Chain) (front back : List Version) (older newer older_after newer_after : Version) →
        c.versions ≡ front ++ older ∷ newer ∷ back → (IsNeeded c (length front) → ⊥) → IsMerged older newer older_after newer_after →
        IsMemtableChain c → IsMemtableChain (with_versions (front ++ older_after ∷ newer_after ∷ back) c) }
    ensures dropped { (c : Chain) (front back : List Version) (v next : Version) →
        c.versions ≡ front ++ v ∷ next ∷ back → (IsNeeded c (length front) → ⊥) → IsSilent v →
        greatest tomb_cmp (option_to_list v.pt ++ option_to_list next.pt) ≡ greatest tomb_cmp (option_to_list next.pt) →
        IsMemtableChain c → IsMemtableChain (drop_version (length front) c) }
{}

/// A snapshot of an attached memtable chain, its release, and detaching keep its form.
pub fn pinning_keeps_the_memtables_form()
    ensures pinned { (c : Chain) (pin : ℕ) → c.attached ≡ true → suc pin ≡ length c.versions → IsMemtableChain c → IsMemtableChain (snapshot pin c) }
    ensures released { (c : Chain) (i : ℕ) → IsMemtableChain c → IsMemtableChain (release i c) }
    ensures detached { (c : Chain) → IsMemtableChain c → IsMemtableChain (detach c) }
{}

/// A chain stands for no writes where it is new; it stands for the same writes where a version is added, where the same is seen, as after a merge or
/// where a version that says nothing is dropped, and for any that say the same.
pub fn a_memtable_stands_for_its_writes()
    ensures fresh { (phase : ℕ) → StandsFor [] (new_version None phase ∷ []) }
    ensures added { (writes : List Mutation) (versions : List Version) (phase : ℕ) → StandsFor writes versions → StandsFor writes (versions ++ new_version None phase ∷ []) }
    ensures alike { (writes : List Mutation) (before now : List Version) → IsSeenAlike before now → StandsFor writes before → StandsFor writes now }
    ensures same { (writes others : List Mutation) (versions : List Version) → SameSource writes others → StandsFor writes versions → StandsFor others versions }
{}

/// What is joined into the newest version of a memtable's chain is one write more: a row at a key, a range tombstone, a static row, a partition tombstone.
pub fn a_write_is_one_more()
    ensures row { (c : Chain) (newest : ℕ) → suc newest ≡ length c.versions → IsChain c → IsMemtableChain c → (writes : List Mutation) (key : List Comp) (row : Row) →
        StandsFor writes c.versions → StandsFor (writes ++ written_row key row ∷ []) (on_newest (row_joined (row_pos key) row) c.versions) }
    ensures range { (c : Chain) (newest : ℕ) → suc newest ≡ length c.versions → IsChain c → IsMemtableChain c → (writes : List Mutation) (from to : Pos) (tomb : Tomb) →
        StandsFor writes c.versions → StandsFor (writes ++ written_range from to tomb ∷ []) (on_newest (range_joined from to tomb) c.versions) }
    ensures statics { (c : Chain) (newest : ℕ) → suc newest ≡ length c.versions → IsChain c → IsMemtableChain c → (writes : List Mutation) (row : Row) →
        StandsFor writes c.versions → StandsFor (writes ++ written_statics row ∷ []) (on_newest (join_statics row) c.versions) }
    ensures head { (c : Chain) (newest : ℕ) → suc newest ≡ length c.versions → IsChain c → IsMemtableChain c → (writes : List Mutation) (tomb : Tomb) →
        StandsFor writes c.versions → StandsFor (writes ++ written_pt tomb ∷ []) (on_newest (join_pt tomb) c.versions) }
{}

/// Every place of a memtable's chain is known, and a row is seen at the position of its key alone.
pub fn a_memtable_is_known_everywhere()
    ensures spot { (s : Spot) (versions : List Version) → EachOf AllInherit versions → IsTrue (has_flag Memtable (states_at s versions)) }
    ensures known { (versions : List Version) → EachOf AllInherit versions → (x : Pos) → IsKnown Memtable versions x }
    ensures row { (writes : List Mutation) (versions : List Version) (x : Pos) → StandsFor writes versions →
        (content (states_at (On x) versions)).0 ≢ empty_row → x ≡ row_pos x.prefix }
{}

/// The rows and range tombstones of a memtable's parts, got one after another up to a bound, say at each position what its writes say: where tombstones are even, and no range
/// of a write begins or ends between a row's position and what is behind its key.
pub fn the_parts_together_say_what_the_writes_say()
    ensures { (writes : List Mutation) (versions : List Version) → StandsFor writes versions → EachOf AllInherit versions → ((x : Pos) → IsEvenAt Memtable versions x) →
        ((key : List Comp) → IsWholeAt writes key) → (parts : List Part) (from upto : Pos) → ArePartsFrom versions from upto parts → (y : Pos) → covers from upto y ≡ true →
        ◌≡◌ {A = Row × Option Tomb} (joined_row (rows_in y (rows_of parts)), greatest tomb_cmp (tombs_over (part_pieces from parts) y)) (source_at writes y) }
{}
