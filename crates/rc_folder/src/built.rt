//! Which commands are served.

ghost use Rattle.std.specs.Prelude.{◌≡◌};
ghost use Rattle.rc_machine.specs.Built.{is_built};

use rc_lines::Command;

/// Whether a command is served: all but those of a flush in steps and of cleaning.
pub fn is_built(command: &Command) -> bool
    ensures { result ≡ is_built command.now }
{
    match command {
        Command::FlushBegin | Command::FlushStep { .. } | Command::Clean { .. } => false,
        Command::Nothing
        | Command::SetSchema(_)
        | Command::Put(_)
        | Command::OpenRead { .. }
        | Command::Read { .. }
        | Command::Close { .. }
        | Command::Flush
        | Command::Evict { .. }
        | Command::Compact { .. }
        | Command::Stats => true,
    }
}
