//! The laws of what this crate defines, each the contract of a function that does nothing.

ghost use Rattle.std.specs.Prelude.{◌∷◌, [], All, IsTrue, List};
ghost use Rattle.rc_schema.specs.SchemaValue.{SchemaValue, is_schema};
ghost use Rattle.rc_mutation.specs.declared.mutations.Mutation.{Mutation};
ghost use Rattle.rc_mutation.specs.Source.{IsMutation, SameSource};
ghost use Rattle.rc_writes.specs.Allowed.{ChangeFits};
ghost use Rattle.rc_writes.specs.Limits.{IsWithinLimits};
ghost use Rattle.rc_writes.specs.Single.{IsSingle, IsOnePlace};

/// A single write is to one row, to the static row, to one range or to the whole partition, and to nothing else.
pub fn a_single_write_is_to_one_place()
    ensures { (m : Mutation) → IsSingle m → IsOnePlace m }
{}

/// What fits a schema is within the limits of the byte codes: keys of at most 4 components with texts of at most 64 bytes,
/// columns below 32 and values of at most 256 bytes.
pub fn what_fits_is_within_the_limits()
    ensures { (schema : SchemaValue) (m : Mutation) → IsTrue (is_schema schema) → ChangeFits schema m → IsWithinLimits m }
{}

/// What says the same as changes that fit a schema fits it.
pub fn what_says_the_same_fits()
    ensures { (schema : SchemaValue) (m : Mutation) (changes : List Mutation) → IsMutation m → SameSource (m ∷ []) changes → All (ChangeFits schema) changes → ChangeFits schema m }
{}
