//! The recency list in its order: each object of it goes to its back in turn, which leaves the list as it was.

ghost use Rattle.rc_chain_guarded.specs.Guarded.{IsTracked};

use crate::tally::Tally;
use rc_chain::Chains;
use rc_chain_guarded::turning::turn;
use rc_chain_guarded::{Known, SEGMENT};
use rc_plain_chains::{Place, Recency};
use rc_position::Pos;
use std::alloc::{AllocError, Global};

// Whether what was first stands at a place.
fn is_first(first: &Option<(u64, u64, Option<Pos>)>, place: &Place) -> bool {
    match first {
        Some((id, number, x)) => place.is_of(*id, *number, x),
        None => false,
    }
}

/// Turns the list once round, beside the plain one.
pub(crate) fn turn_round(
    alloc: Global,
    chains: &mut Chains<SEGMENT>,
    known: &Known,
    recency: &Recency,
    tally: &mut Tally,
) -> Result<(), AllocError>
    requires { IsTracked chains.old known.now }
    ensures { IsTracked chains.new known.now }
{
    for place in &recency.places {
        let first = turn(alloc, chains, known)?;
        tally.expect(is_first(&first, place), "the recency list");
    }
    let empty = chains.front().is_none();
    tally.expect(
        empty == recency.places.is_empty(),
        "whether the recency list is empty",
    );
    Ok(())
}
