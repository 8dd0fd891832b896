//! What some writes join to.

ghost use Rattle.std.specs.Prelude.{◌≡◌, ◌<◌, [], ◌∷◌, length, IfOk};
ghost use Rattle.std.specs.List.{All};
ghost use Rattle.rc_mutation.specs.Source.{IsJoinOf};
ghost use Rattle.rc_plain.specs.calls.Index.{changes_numbered};

use rc_mutation::{Mutation, Write};
use std::alloc::{AllocError, Global};

/// What the writes with these numbers join to: those of each half by themselves, and then both.
pub(crate) fn joined(
    alloc: Global,
    log: &[Write],
    numbers: &[usize],
) -> Result<Mutation, AllocError>
    requires { All (λ n. n < length log.now) numbers.now }
    ensures { IfOk result (λ change. IsJoinOf change (changes_numbered log.now numbers.now)) }
{
    match numbers {
        [] => Ok(Mutation::empty(alloc)),
        [number] => copied(alloc, &log[*number].change),
        _ => {
            let half = numbers.len() / 2;
            let mut first = joined(alloc, log, &numbers[..half])?;
            let rest = joined(alloc, log, &numbers[half..])?;
            first.join(alloc, &rest)?;
            Ok(first)
        }
    }
}

/// A copy of one change, which is what it joins to by itself.
fn copied(alloc: Global, change: &Mutation) -> Result<Mutation, AllocError>
    ensures { IfOk result (λ copy. IsJoinOf copy (change.now ∷ [])) }
{
    change.holds_together();
    change.copy(alloc)
}
