//! What a machine counts of its answers.
ghost use Rattle.std.specs.Prelude.{◌≡◌, ◌≤◌};
ghost use Rattle.rc_lines.specs.declared.commands.Command.{Command as Asked};
ghost use Rattle.rc_folder.specs.Counting.{counted_answer, is_answered};

use rc_lines::{Command, Reply};

/// The counts of answers to `open` and `read`; each stays at 2^64 - 1.
#[derive(Clone, Copy, Debug)]
pub struct Answered {
    /// Those for which the store was asked for nothing.
    pub hits: u64,
    /// Those for which it was asked.
    pub misses: u64,
}

impl Answered {
    /// No answers.
    pub fn none() -> Self
        ensures hits { result.hits ≡ 0 }
        ensures misses { result.misses ≡ 0 }
    {
        Answered { hits: 0, misses: 0 }
    }

    /// Counts a reply to a command, before and after which the store had been asked so often: no count is less then.
    pub fn count(self, command: &Command, reply: &Reply, before: u64, after: u64) -> Self
        ensures counted { result ≡ counted_answer command.now reply.now before after self }
        ensures hits { self.hits ≤ result.hits }
        ensures misses { self.misses ≤ result.misses }
    {
        if !is_answer(command, reply) {
            return self;
        }
        if before == after {
            Answered {
                hits: self.hits.saturating_add(1),
                misses: self.misses,
            }
        } else {
            Answered {
                hits: self.hits,
                misses: self.misses.saturating_add(1),
            }
        }
    }
}

// Whether a reply answers a command that reads from a partition.
fn is_answer(command: &Command, reply: &Reply) -> bool
    ensures { result ≡ is_answered command.now reply.now }
{
    match command {
        Command::OpenRead { .. } => matches!(reply, Reply::Fine),
        Command::Read { .. } => matches!(reply, Reply::Given { .. }),
        _ => false,
    }
}
