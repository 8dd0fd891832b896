//! The laws of a region, each the contract of a function that does nothing.
ghost use Rattle.std.specs.Prelude.{◌≡◌, ℕ, ◌+◌, ◌^◌, ◌<◌, ◌≤◌, List, length, Some, None, IsSome};
ghost use Rattle.lsa_kinds.specs.declared.kind.Kind.{Kind};
ghost use Rattle.lsa_kinds.specs.Kinds.{links_of};
ghost use Rattle.lsa_kinds.specs.Fields.{spelled_number, IsPut};
ghost use Rattle.lsa_store.specs.Bytes.{overwritten};
ghost use Rattle.lsa_store.specs.declared.place.Ref.{Ref};
ghost use Rattle.lsa_region.specs.declared.end.End.{End};
ghost use Rattle.lsa_region.specs.declared.end.End.TheVariants.{Obj};
ghost use Rattle.lsa_region.specs.Ends.{named_as};
ghost use Rattle.lsa_region.specs.Region.{View, body, link_of, IsEnd, IsWell, Renamed};

/// What is no end names nothing.
pub fn what_is_no_end_names_nothing()
    ensures { (v : View) (e : End) → IsWell v → (IsEnd v e → ⊥) → link_of v e ≡ None }
{}

/// Past the links of an object's kind nothing is set.
pub fn past_the_links_nothing_is_set()
    ensures { (v : View) (r : Ref) (kind : Kind) (bytes : List ℕ) (field : ℕ) → IsWell v → body v r ≡ Some (kind, bytes) → links_of kind ≤ field → link_of v (Obj r field) ≡ None }
{}

/// Each live object has its name from one that was live before the move.
pub fn a_renaming_is_onto()
    ensures { (old new : View) (names : List (Ref × Ref)) (q : Ref) → Renamed old new names → IsSome (body new q) → (r : Ref) × IsSome (body old r) × (named_as names r ≡ q) }
{}

/// Two live objects have two names.
pub fn a_renaming_is_one_to_one()
    ensures { (old new : View) (names : List (Ref × Ref)) (r q : Ref) → Renamed old new names → IsSome (body old r) → IsSome (body old q) → named_as names r ≡ named_as names q → r ≡ q }
{}

/// A number written over an object's bytes reads back, and every field apart from it reads as it did.
pub fn a_written_number_reads_back()
    ensures { (bytes : List ℕ) (offset width value : ℕ) → offset + width ≤ length bytes → value < 256 ^ width → IsPut bytes (overwritten bytes offset (spelled_number width value)) offset width value }
{}
