// Where bytes go.
ghost use Rattle.std.specs.Prelude.{ℕ, List, Option};

use thiserror::Error;

/// Why a push was refused.
#[derive(Debug, Drop, Error)]
pub enum SinkErr {
    /// The outside failed: a front of the piece was written, maybe none of it, and the count of faults rose.
    #[error("a write to the outside failed")]
    Failed,
    /// Memory was refused: nothing was written, and the count of faults is as before.
    #[error("out of memory")]
    NoMemory,
}

/// A stream of bytes that is pushed, as standard output.
pub trait Sink {
    ghost use Rattle.rc_outside.specs.Pushed.{Pushed};

    // the bytes that were written, where the sink tells them
    ghost written: { Self → Option (List ℕ) };

    // how many calls have failed so far; the count stays at 2^64 - 1
    ghost faults: { Self → ℕ };

    /// Writes the piece after what was written before. `SinkErr::Failed` when the outside fails: then a front of the
    /// piece was written and the count of faults rose. `SinkErr::NoMemory` when memory is refused: then nothing was
    /// written.
    fn push(&mut self, piece: &[u8]) -> Result<(), SinkErr>
        ensures { Pushed (written self.old) (written self.new) (faults self.old) (faults self.new)
            piece.now result };
}
