//! A source that gives one byte at a time.

ghost use Rattle.std.specs.Prelude.{◌≡◌, ℕ, ◌<◌, ◌≤◌, Some, length, take, drop, IfOk, MatchResult};
ghost use Rattle.std.specs.Io.KnownBytes.{ReadConsumes};
ghost use Rattle.rc_outside.specs.Faults.{no_faults, Rose};

use rc_outside::{Failed, Source, SureSource};

/// A source of given bytes that gives one at a time.
#[derive(Drop)]
pub(crate) struct OneByte {
    pub(crate) bytes: SureSource,
}

impl Source for OneByte {
    ghost left = { λ s. Some s.bytes };

    ghost faults = { λ _. no_faults };

    fn pull(&mut self, into: &mut [u8]) -> Result<usize, Failed> {
        let mut byte = [0u8; 1];
        match self.bytes.pull(&mut byte) {
            Err(failed) => Err(failed),
            Ok(0) => Ok(0),
            Ok(_) => {
                into[0] = byte[0];
                Ok(1)
            }
        }
    }
}
