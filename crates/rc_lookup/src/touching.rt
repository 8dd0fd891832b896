//! What is read becomes the most recent.
ghost use Rattle.std.specs.Prelude.{◌≡◌, None, Some};
ghost use Rattle.rc_core.specs.Version.{end_position};
ghost use Rattle.rc_memory.specs.Changes.{member_at};
ghost use Rattle.rc_memory.specs.Memory.{HasChain, HasVersion, IsMemberObject, Member};
ghost use Rattle.rc_lookup.specs.Touched.{AreTouched, IsHeadOrEnd};
ghost use Rattle.rc_lookup.specs.calls.Recent.{IsTurnedAlone};

use crate::places::bare;
use lsa_region::Ref;
use rc_chain::Chains;
use rc_position::Weight;
use rc_version::{entry_at, static_row};
use std::alloc::Global;

// Makes an object the most recent one, if it is in the recency list.
pub(crate) fn touch_listed<const S: usize>(chains: &mut Chains<S>, r: Ref)
    requires { (w : Member) × IsMemberObject chains.old r w }
    ensures { (w : Member) → IsMemberObject chains.old r w → IsTurnedAlone w chains.old chains.new }
{
    if chains.is_listed(r) {
        chains.touch(r);
    }
}

// Makes the static row of a version of a chain the most recent object, if it is in the recency list.
fn touch_static<const S: usize>(chains: &mut Chains<S>, id: u64, number: u64)
    requires { HasVersion chains.old id number }
    ensures { AreTouched (λ w. w ≡ member_at id number None) chains.old chains.new }
{
    chains.known();
    chains.places_stand();
    let v = chains.version(id, number);
    if let Some(r) = static_row(chains.region(), v) {
        touch_listed(chains, r);
    }
}

// Makes the end of the partition in a version of a chain the most recent object, if it is in the recency list.
fn touch_end<const S: usize>(alloc: Global, chains: &mut Chains<S>, id: u64, number: u64)
    requires { HasVersion chains.old id number }
    ensures { AreTouched (λ w. w ≡ member_at id number (Some end_position)) chains.old chains.new }
{
    chains.known();
    chains.places_stand();
    let v = chains.version(id, number);
    let end = bare(alloc, Weight::After);
    if let Some(e) = entry_at(chains.region(), v, &end) {
        touch_listed(chains, e);
    }
}

/// Makes the static row of a partition and its end, in the versions of a chain, the most recent objects, those that are in the recency list.
pub(crate) fn touch_head_and_end<const S: usize>(alloc: Global, chains: &mut Chains<S>, id: u64)
    requires { HasChain chains.old id }
    ensures { AreTouched (IsHeadOrEnd id) chains.old chains.new }
{
    chains.known();
    for number in 0..chains.versions(id) {
        touch_static(chains, id, number);
        touch_end(alloc, chains, id, number);
    }
}
