//! The use of one chain.

ghost use Rattle.std.specs.Prelude.{◌≡◌, IfOk, IfSome, IsSome, IsSomeAnd, OnErr, OnOk, option_map};
ghost use Rattle.rc_core.specs.Steps.{free_number, pin_at};
ghost use Rattle.rc_registry.specs.Registry.{detached_use, new_use, set_passed, set_updating, with_pin, without_pin, without_version};

use crate::pins::Pins;
use lsa_region::Root;
use rc_core::ChainKind;
use std::alloc::{AllocError, Global};

/// What is known of the use of a chain.
#[derive(Drop)]
pub struct Use {
    /// The root slot behind which its versions stand.
    pub root: Root,
    /// What stands below its oldest version.
    pub kind: ChainKind,
    /// Whether it is found by its key.
    pub attached: bool,
    /// Whether an update stands in its newest version.
    pub updating: bool,
    /// The cleaner's mark that it left the chain unmerged.
    pub passed: bool,
    /// Its snapshots.
    pub pins: Pins,
}

/// A chain that is found by its key, not under update, and pinned by nobody.
pub(crate) fn new_use(alloc: Global, root: Root, kind: ChainKind) -> Use
    ensures { result ≡ new_use root kind }
{
    Use {
        root,
        kind,
        attached: true,
        updating: false,
        passed: false,
        pins: Pins::new(alloc),
    }
}

/// A chain is no longer found by its key, and not under update.
pub(crate) fn detach(chain: &mut Option<Use>)
    ensures { chain.new ≡ option_map detached_use chain.old }
{
    if let Some(chain) = chain {
        chain.attached = false;
        chain.updating = false;
    }
}

/// A chain is under update, or no longer.
pub(crate) fn set_updating(chain: &mut Option<Use>, updating: bool)
    ensures { chain.new ≡ option_map (set_updating updating) chain.old }
{
    if let Some(chain) = chain {
        chain.updating = updating;
    }
}

/// A chain has the cleaner's mark, or no longer.
pub(crate) fn set_passed(chain: &mut Option<Use>, passed: bool)
    ensures { chain.new ≡ option_map (set_passed passed) chain.old }
{
    if let Some(chain) = chain {
        chain.passed = passed;
    }
}

/// One snapshot of a version of a chain more. The only error is want of memory, which changes nothing.
pub(crate) fn pin(chain: &mut Option<Use>, version: u64) -> Result<u64, AllocError>
    ensures number { IfSome chain.old (λ u. IfOk result (λ n. n ≡ free_number u.pins)) }
    ensures pinned { OnOk result (chain.new ≡ option_map (with_pin version) chain.old) }
    ensures err { OnErr result (chain.new ≡ chain.old) }
{
    match chain {
        Some(chain) => chain.pins.pin(version),
        None => Err(AllocError),
    }
}

/// Takes the snapshot of a number of a chain back.
pub(crate) fn unpin(chain: &mut Option<Use>, pin: u64)
    requires { IsSomeAnd chain.old (λ u. IsSome (pin_at u.pins pin)) }
    ensures { chain.new ≡ option_map (without_pin pin) chain.old }
{
    if let Some(chain) = chain {
        chain.pins.release(pin);
    }
}

/// The version of a number of a chain is gone: the newer ones have numbers less by one.
pub(crate) fn renumber(chain: &mut Option<Use>, version: u64)
    ensures { chain.new ≡ option_map (without_version version) chain.old }
{
    if let Some(chain) = chain {
        chain.pins.renumber(version);
    }
}
