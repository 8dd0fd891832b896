//! The recency list in its order: the object at its front goes to its back.

ghost use Rattle.rc_chain_guarded.specs.Guarded.{IsTracked};

use crate::homes::{SEGMENT, position_of};
use crate::known::Known;
use rc_chain::Chains;
use rc_position::Pos;
use std::alloc::{AllocError, Global};

/// `touch`, of the least recently used object: its chain, its version, and its position, none of a static row.
pub fn turn(
    alloc: Global,
    chains: &mut Chains<SEGMENT>,
    _known: &Known,
) -> Result<Option<(u64, u64, Option<Pos>)>, AllocError>
    requires { IsTracked chains.old _known.now }
    ensures { IsTracked chains.new _known.now }
{
    match chains.front() {
        Some(r) => {
            chains.known();
            let (id, number) = chains.home(r);
            let x = position_of(alloc, chains.region(), r);
            chains.touch(r);
            Ok(Some((id, number, x?)))
        }
        None => Ok(None),
    }
}
