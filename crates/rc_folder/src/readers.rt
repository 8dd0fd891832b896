//! How many readers may be open.

ghost use Rattle.std.specs.Prelude.{◌≡◌};
ghost use Rattle.rc_machine.specs.Steps.{most_readers};

/// The most readers that may be open at once.
pub const MOST_READERS: usize = 64;

/// The constant is the machine's number.
pub fn most_readers_are_named()
    ensures { MOST_READERS ≡ most_readers }
{}
