// Where bytes come from.
ghost use Rattle.std.specs.Prelude.{◌≡◌, ℕ, ◌<◌, ◌≤◌, List, Option, length, drop, IfOk, MatchResult};
ghost use Rattle.std.specs.Io.KnownBytes.{ReadConsumes};
ghost use Rattle.rc_outside.specs.Faults.{Rose};

use thiserror::Error;

/// A call to the outside failed. The count of faults of the end that was called rose.
#[derive(Debug, Drop, Error)]
#[error("a call to the outside failed")]
pub struct Failed;

/// A stream of bytes that is pulled, as standard input.
pub trait Source {
    // the bytes that are left, where the source tells them
    ghost left: { Self → Option (List ℕ) };

    // how many calls have failed so far; the count stays at 2^64 - 1
    ghost faults: { Self → ℕ };

    /// Takes the next bytes into the front of `into`, which may not be empty, and answers how many: at most
    /// `into.len()`, and 0 only at the end of the input. The rest of `into` stays.
    /// `Failed` when the outside fails: then nothing was taken, `into` is as it was, and the count of faults rose.
    fn pull(&mut self, into: &mut [u8]) -> Result<usize, Failed>
        requires { 0 < length into.old }
        ensures within { IfOk result (λ k. k ≤ length into.new) }
        ensures taken { ReadConsumes (left self.old) (left self.new) result into.new }
        ensures untouched { MatchResult result
            (λ k. drop k into.new ≡ drop k into.old)
            (λ _. into.new ≡ into.old) }
        ensures cause { MatchResult result
            (λ _. faults self.new ≡ faults self.old)
            (λ _. Rose (faults self.old) (faults self.new)) };
}
