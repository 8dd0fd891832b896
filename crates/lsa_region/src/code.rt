//! The number that stands in a link, and the end that it tells.
ghost use Rattle.std.specs.Prelude.{◌≡◌, IfSome};
ghost use Rattle.lsa_region.specs.Codes.{end_of};
ghost use Rattle.lsa_region.specs.calls.Codes.{link_code, IsCodable};

use crate::end::{End, Root};
use lsa_store::Ref;

// One more than a half of a number can tell.
const HALF: u64 = 4_294_967_296;

// The upper half of the number of a root slot.
const SLOTS: u64 = 4_294_967_295;

/// The number that tells an end, or nothing.
pub(crate) fn code(named: Option<End>) -> u64
    requires { IfSome named IsCodable }
    ensures { result ≡ link_code named }
{
    match named {
        None => 0,
        Some(End::Obj(r, field)) => {
            (r.segment as u64 + 1) * HALF + (r.offset as u64 / 8 * 256 + field as u64)
        }
        Some(End::Slot(root)) => SLOTS * HALF + root.number as u64,
    }
}

/// The end that a number tells, if it tells one.
pub(crate) fn end(code: u64) -> Option<End>
    ensures { result ≡ end_of code }
{
    let (high, low) = (code / HALF, code % HALF);
    if high == 0 {
        None
    } else if high == SLOTS {
        Some(End::Slot(Root {
            number: low as usize,
        }))
    } else {
        let r = Ref {
            segment: (high - 1) as u32,
            offset: (low / 256 * 8) as u32,
        };
        Some(End::Obj(r, (low % 256) as u8))
    }
}
