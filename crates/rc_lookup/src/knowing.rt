// Whether the static row of a partition is known to a snapshot.
ghost use Rattle.std.specs.Prelude.{◌≡◌, IfOk};
ghost use Rattle.rc_core.specs.Chain.{has_flag};
ghost use Rattle.rc_core.specs.Continuity.{static_states};
ghost use Rattle.rc_memory.specs.Memory.{HasPin};
ghost use Rattle.rc_cursor.specs.Snapshots.{kind_seen, versions_seen};

use rc_cursor::laws::a_snapshot_sees_up_to_its_version;
use rc_row_cache::{Chains, Snap};
use std::alloc::AllocError;

/// Whether the static row of its partition is known to a snapshot. The only error is want of memory.
pub(crate) fn is_static_row_known<const S: usize>(
    chains: &Chains<S>,
    snap: &Snap,
) -> Result<bool, AllocError>
    requires { HasPin chains.now snap.now.chain snap.now.pin }
    ensures { IfOk result (λ known. known ≡ has_flag (kind_seen chains.now snap.now) (static_states (versions_seen chains.now snap.now))) }
{
    a_snapshot_sees_up_to_its_version();
    let head = chains.head(snap)?;
    Ok(head.known)
}
