//! The laws of kinds and fields, each the contract of a function that does nothing.
ghost use Rattle.std.specs.Prelude.{◌≡◌, ℕ, ◌^◌, ◌<◌};
ghost use Rattle.lsa_kinds.specs.declared.kind.Kind.{Kind};
ghost use Rattle.lsa_kinds.specs.Fields.{number, spelled_number};
ghost use Rattle.lsa_kinds.specs.Kinds.{fields_of, AreApart, AreInside};

/// No two fields of a kind have a byte in common.
pub fn fields_of_a_kind_are_apart()
    ensures { (kind : Kind) → AreApart (fields_of kind) }
{}

/// Each field of a kind lies behind its links, in the bytes that an object of the kind has at least.
pub fn fields_of_a_kind_are_inside()
    ensures { (kind : Kind) → AreInside kind (fields_of kind) }
{}

/// The bytes that spell a number are the number's.
pub fn a_spelled_number_reads_back()
    ensures { (width value : ℕ) → value < 256 ^ width → number (spelled_number width value) ≡ value }
{}
