//! Which keys can be spelled.
ghost use Rattle.std.specs.Prelude.{◌↔◌, IsTrue};
ghost use Rattle.rc_rowcode.specs.Spelling.{CompFits, KeyFits};

use rc_position::{Comp, Key, LONGEST_TEXT};

// Whether a component is a number, or a text within the limit.
fn is_spelled(comp: &Comp) -> bool
    ensures { IsTrue result ↔ CompFits comp.now }
{
    match comp {
        Comp::Int(_) => true,
        Comp::Text(bytes) => bytes.as_slice().len() <= LONGEST_TEXT,
    }
}

/// Whether a key is within the limits: at most 4 components, and texts within the limit of their length.
pub(crate) fn is_within_limits(key: &Key) -> bool
    ensures { IsTrue result ↔ KeyFits key.now }
{
    let mut left = key.as_slice();
    if left.len() > 4 {
        return false;
    }
    while let [comp, rest @ ..] = left {
        if !is_spelled(comp) {
            return false;
        }
        left = rest;
    }
    true
}
