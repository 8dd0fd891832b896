//! One line, one call of the machine.

ghost use Rattle.std.specs.Prelude.{◌≡◌, Some, IfOk};
ghost use Rattle.rc_lines.specs.Grammar.{parse};
ghost use Rattle.rc_machine.specs.State.{State};
ghost use Rattle.rc_plain.specs.Stands.{PlainStands};
ghost use Rattle.direct.specs.calls.Answered.{IsCommandAnswered};

use rc_lines::{LineErr, Refusal, Reply, read_line};
use rc_outside::Store;
use rc_plain::{Machine, Plain, is_built};
use std::alloc::{AllocError, Global};

/// Answers a line: a command that is served takes one step of the machine, and each other line is refused and changes nothing. The reply is a value. The
/// only error is want of memory, behind which the machine stands as well, and may be called again.
pub fn answer<W: Store>(
    alloc: Global,
    machine: &mut Plain,
    store: &mut W,
    line: &[u8],
) -> Result<Reply, AllocError>
    requires { (m : State) × PlainStands (W.files store.old) machine.old m }
    ensures answered { IfOk result (λ reply. (m : State) → PlainStands (W.files store.old) machine.old m →
        (next : State) × IsCommandAnswered m (parse (Some m.schema) line.now) reply next × PlainStands (W.files store.new) machine.new next) }
    ensures stands { (m : State) × PlainStands (W.files store.new) machine.new m }
{
    match read_line(alloc, Some(machine.schema()), line) {
        Ok(command) => {
            if is_built(&command) {
                machine.serve(alloc, store, &command)
            } else {
                Ok(Reply::Refused(Refusal::BadLine))
            }
        }
        Err(LineErr::Refused(refusal)) => Ok(Reply::Refused(refusal)),
        Err(LineErr::NoMemory) => Err(AllocError),
    }
}
