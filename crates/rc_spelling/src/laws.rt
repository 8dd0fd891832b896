//! Laws of spellings, each the contract of a function that does nothing.

ghost use Rattle.std.specs.Prelude.{◌≡◌, ◌∷◌, List, ℕ, ℤ, IsTrue, Some, map};
ghost use Rattle.std.specs.Char.{is_ascii_alphanumeric};
ghost use Rattle.std.specs.Fmt.{signed_decimal};
ghost use Rattle.std.specs.Int.{w64};
ghost use Rattle.std.specs.Int.RustNames.{FitsSigned};
ghost use Rattle.std.specs.List.{list_all, AllByRecursion};
ghost use Rattle.rc_position.specs.declared.comps.Comp.{Comp};
ghost use Rattle.rc_spelling.specs.Numbers.{signed_of};
ghost use Rattle.rc_spelling.specs.Spelling.{bytes_spelled, components_spelled};
ghost use Rattle.rc_spelling.specs.Printed.{AreBytes, IsComponent, printed_bytes, key_text, bytes_of_component};

/// Printed bytes spell the bytes.
#[tactic(auto, using(crate::specs::laws::printed_bytes_read_back))]
pub fn printed_bytes_read_back()
    ensures { (bytes : List ℕ) → AreBytes bytes → bytes_spelled (printed_bytes bytes) ≡ Some bytes }
{}

/// A printed number is read as the number.
#[tactic(auto, using(crate::specs::laws::printed_numbers_read_back))]
pub fn printed_numbers_read_back()
    ensures { (number : ℤ) → FitsSigned w64 number → signed_of (signed_decimal number) ≡ Some number }
{}

/// A printed key of one component and more spells the components' bytes, those of an int being its decimal number.
#[tactic(auto, using(crate::specs::laws::printed_keys_read_back))]
pub fn printed_keys_read_back()
    ensures { (first : Comp) (rest : List Comp) → AllByRecursion IsComponent (first ∷ rest) → components_spelled (key_text (first ∷ rest)) ≡ Some (map bytes_of_component (first ∷ rest)) }
{}

/// A value of letters and digits is printed as it was written.
#[tactic(auto, using(crate::specs::laws::plain_values_stay))]
pub fn plain_values_print_as_written()
    ensures { (value : List ℕ) → IsTrue (list_all is_ascii_alphanumeric value) → printed_bytes value ≡ value }
{}
