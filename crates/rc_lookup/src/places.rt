// The ends of a partition.
ghost use Rattle.std.specs.Prelude.{◌≡◌, []};

use rc_position::{Key, Pos, Weight};
use std::alloc::Global;

/// A position of no components.
pub(crate) fn bare(alloc: Global, weight: Weight) -> Pos
    ensures { result ≡ record { prefix = []; weight = weight } }
{
    Pos {
        prefix: Key::empty(alloc),
        weight,
    }
}
