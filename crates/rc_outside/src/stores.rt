// Where files lie.
ghost use Rattle.std.specs.Prelude.{◌≡◌, ℕ, ◌≤◌, Option, None, length, IsSome, IfOk, OnOk, MatchResult};
ghost use Rattle.rc_outside.specs.Files.{HoldsSameFiles, Files, Draft, IsFile, IsNoFile, LiesInFile, AreNumbers, IsSizeOf, AreBytesOf, new_draft, grown_draft, with_draft, unless_refused};
ghost use Rattle.rc_outside.specs.Faults.{raised_count};

use super::sources::Failed;
use std::alloc::Global;
use thiserror::Error;

/// Why a call of a store was refused.
#[derive(Debug, Drop, Error)]
pub enum StoreErr {
    /// The outside failed, and the count of faults rose.
    #[error("a call to the store failed")]
    Fault,
    /// Memory was refused.
    #[error("out of memory")]
    NoMemory,
}

/// A folder of numbered files that is read by ranges and grows by whole files. At most one file is being built at a
/// time: it is among the files only once it is finished.
pub trait Store {
    ghost use Rattle.rc_outside.specs.Faults.{RisesIfFailed, RisesIfFault, OnFault};

    // the files, where the store tells them
    ghost files: { Self → Option Files };

    // what is being built: none where nothing is; else its number and its bytes so far, where the store tells them
    ghost building: { Self → Option (Option Draft) };

    // how many calls have failed so far; the count stays at 2^64 - 1
    ghost faults: { Self → ℕ };

    // how many ranges of files were asked for so far; the count stays at 2^64 - 1
    ghost asks: { Self → ℕ };

    /// The numbers of the files, ascending. `StoreErr::Fault` when the outside fails, `StoreErr::NoMemory` when memory
    /// is refused: both leave the store as it was, but for the count of faults.
    fn numbers(&mut self, alloc: Global) -> Result<Vec<u32>, StoreErr>
        ensures numbers { IfOk result (λ v. AreNumbers (files self.old) v.items) }
        ensures store { HoldsSameFiles files building self.old self.new }
        ensures faults { RisesIfFault OnFault result (faults self.old) (faults self.new) }
        ensures asks { asks self.new ≡ asks self.old };

    /// The length in bytes of file `n`, which is there. `Failed` when the outside fails: then the count of faults rose.
    fn size(&mut self, n: u32) -> Result<u64, Failed>
        requires { IsFile (files self.old) n }
        ensures size { IfOk result (λ k. IsSizeOf (files self.old) n k) }
        ensures store { HoldsSameFiles files building self.old self.new }
        ensures faults { RisesIfFailed result (faults self.old) (faults self.new) }
        ensures asks { asks self.new ≡ asks self.old };

    /// Fills `into` with the bytes of file `n` from the offset `off` on; all of them are there. The call is counted as
    /// asked for, also where it fails. `Failed` when the outside fails: then the count of faults rose, and what `into`
    /// holds is open.
    fn read_at(&mut self, n: u32, off: u64, into: &mut [u8]) -> Result<(), Failed>
        requires { LiesInFile (files self.old) n off (length into.old) }
        ensures bytes { OnOk result (AreBytesOf (files self.old) n off into.new) }
        ensures store { HoldsSameFiles files building self.old self.new }
        ensures faults { RisesIfFailed result (faults self.old) (faults self.new) }
        ensures asks { asks self.new ≡ raised_count (asks self.old) };

    /// Begins to build file `n`, which is not there, with no bytes, where nothing is being built. `StoreErr::Fault`
    /// when the outside fails, `StoreErr::NoMemory` when memory is refused: then nothing is being built.
    fn begin(&mut self, alloc: Global, n: u32) -> Result<(), StoreErr>
        requires idle { building self.old ≡ None }
        requires fresh { IsNoFile (files self.old) n }
        ensures files { files self.new ≡ files self.old }
        ensures building { building self.new ≡ unless_refused result (new_draft (files self.old) n) }
        ensures faults { RisesIfFault OnFault result (faults self.old) (faults self.new) }
        ensures asks { asks self.new ≡ asks self.old };

    /// Appends the piece to the file that is being built. `StoreErr::Fault` when the outside fails,
    /// `StoreErr::NoMemory` when memory is refused: then nothing is being built any more.
    fn append(&mut self, alloc: Global, piece: &[u8]) -> Result<(), StoreErr>
        requires { IsSome (building self.old) }
        ensures files { files self.new ≡ files self.old }
        ensures building { building self.new ≡ unless_refused result (grown_draft (building self.old) piece.now) }
        ensures faults { RisesIfFault OnFault result (faults self.old) (faults self.new) }
        ensures asks { asks self.new ≡ asks self.old };

    /// Puts the file that is being built among the files; then nothing is being built. `StoreErr::Fault` when the
    /// outside fails, `StoreErr::NoMemory` when memory is refused: then the files are as before, and nothing is being
    /// built.
    fn finish(&mut self, alloc: Global) -> Result<(), StoreErr>
        requires { IsSome (building self.old) }
        ensures files { MatchResult result
            (λ _. files self.new ≡ with_draft (files self.old) (building self.old))
            (λ _. files self.new ≡ files self.old) }
        ensures building { building self.new ≡ None }
        ensures faults { RisesIfFault OnFault result (faults self.old) (faults self.new) }
        ensures asks { asks self.new ≡ asks self.old };

    /// Gives up what is being built, if something is. Never refused.
    fn abandon(&mut self)
        ensures files { files self.new ≡ files self.old }
        ensures building { building self.new ≡ None }
        ensures faults { faults self.old ≤ faults self.new }
        ensures asks { asks self.new ≡ asks self.old };

    /// How many ranges of files were asked for so far, a count that stays at 2^64 - 1.
    fn asks(&self) -> u64
        ensures { result ≡ asks self.now };
}
