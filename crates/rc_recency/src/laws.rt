//! The laws of versions of chains as they are held, each the contract of a function that does nothing.
ghost use Rattle.std.specs.Prelude.{◌≡◌, ℕ, Option, Some, None, Contains};
ghost use Rattle.rc_cell.specs.declared.rows.Row.{Row};
ghost use Rattle.rc_position.specs.declared.positions.Pos.{Pos};
ghost use Rattle.lsa_store.specs.declared.place.Ref.{Ref};
ghost use Rattle.lsa_region.specs.Region.{View};
ghost use Rattle.lsa_list.specs.declared.recency.List.{List as Slots};
ghost use Rattle.rc_core.specs.declared.entries.Entry.{Entry};
ghost use Rattle.rc_core.specs.Version.{Version};
ghost use Rattle.rc_object.specs.Objects.{HoldsEntry, HoldsStatic};
ghost use Rattle.rc_registry.specs.Registry.{Registry};
ghost use Rattle.rc_memory.specs.declared.counts.Counts.{Counts};
ghost use Rattle.rc_memory.specs.Memory.{KeptChain, Memory, IsMemberObject, chain_at};
ghost use Rattle.rc_memory.specs.Kept.{HoldMemory};
ghost use Rattle.rc_memory.specs.Recency.{IsRecency};
ghost use Rattle.rc_memory.specs.Changes.{member_at};
ghost use Rattle.rc_recency.specs.Holding.{IsHeldVersion, IsOffMemtable};

/// An object at a place of a version holds what the version has there: the entry at a position, or the static row.
pub fn an_object_at_a_place_holds_what_is_there()
    ensures entry { (slots : Slots) (v : View) (registry : Registry) (counts : Counts) (m : Memory) (id j : ℕ) (k : KeptChain) (c : Version) (n r : Ref) (x : Pos) → IsHeldVersion slots v registry counts m id j k c n → IsMemberObject m r (member_at id j (Some x)) → (y : Entry) × Contains c.entries y × (y.position ≡ x) × HoldsEntry v r y }
    ensures statics { (slots : Slots) (v : View) (registry : Registry) (counts : Counts) (m : Memory) (id j : ℕ) (k : KeptChain) (c : Version) (n r : Ref) → IsHeldVersion slots v registry counts m id j k c n → IsMemberObject m r (member_at id j None) → (row : Row) × (c.statics ≡ Some row) × HoldsStatic v r row }
{}

/// An object at a place is of a version of a chain that is held.
pub fn an_object_at_a_place_is_of_a_version()
    ensures { (slots : Slots) (v : View) (registry : Registry) (counts : Counts) (m : Memory) (id j : ℕ) (at : Option Pos) (e : Ref) → HoldMemory slots v registry counts m → IsMemberObject m e (member_at id j at) → (k : KeptChain) × (c : Version) × (n : Ref) × IsHeldVersion slots v registry counts m id j k c n }
{}

/// Where the recency list keeps its rule it has nothing of a memtable.
pub fn nothing_of_a_memtable_is_listed()
    ensures { (m : Memory) (id j : ℕ) (at : Option Pos) (k : KeptChain) → IsRecency m → chain_at m id ≡ Some k → IsOffMemtable k.chain.kind (member_at id j at) m }
{}
