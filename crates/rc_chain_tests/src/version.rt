//! How many objects and bytes a version takes: tests of `rc_version`, whose numbers were worked out by hand.
ghost use Rattle.std.specs.Prelude.{◌≡◌};
ghost use Rattle.rc_rowcode.specs.Spelling.{KeyFits, row_code as code_of, IsCode, IsCodedRow};

use crate::objects::{FIVE, coded, key_of, takes};
use lsa_kinds::round_up;
use lsa_region::Region;
use rc_position::Key;
use rc_rowcode::{Scratch, key_size};
use rc_version::{Flag, join_row, new_version};
use std::alloc::{AllocError, Global};
use std::test::Fail;

// Makes a version with a row of this code at a key; false where there is no room.
fn version_made(region: &mut Region<4096>, key: &Key, code: &[u8], sc: &mut Scratch) -> bool
    requires limits { KeyFits key.now }
    requires code { IsCode code_of IsCodedRow code.now }
    requires size { sc.old.size ≡ 1000 }
{
    if code.len() > 400 || region.spare() < 152 {
        return false;
    }
    let position = 1 + key_size(key);
    let size = round_up(80 + position + code.len());
    let v = new_version(region, Flag::Inherit, None, 7);
    if size > 512 || size > region.spare() {
        return false;
    }
    join_row(region, v, key, code, sc);
    true
}

// The same of the row with the marker 10.
fn version_with(alloc: Global, region: &mut Region<4096>, key: &Key) -> Result<bool, AllocError>
    requires { KeyFits key.now }
{
    let mut sc = Scratch::new(alloc, 1000)?;
    match coded(alloc, &[1, 10, 0, 0, 0, 0, 0, 0, 0, 0, 0])? {
        Some(row) => Ok(version_made(region, key, row.bytes(), &mut sc)),
        None => Ok(false),
    }
}

// The same at the key of the number 5.
fn version_at_five(alloc: Global, region: &mut Region<4096>) -> Result<bool, AllocError> {
    match key_of(alloc, &FIVE)? {
        Some(key) => version_with(alloc, region, &key),
        None => Ok(false),
    }
}

// The head of 64 bytes, the end dummy of 88, and the row of 104 at the key of one number.
#[test]
fn a_version_of_one_row(rt: HostRuntime) -> Result<(), Fail> {
    let mut region = Region::<4096>::open(rt.alloc(), 4)?;
    assert!(rt; version_at_five(rt.alloc(), &mut region)?);
    assert!(rt; takes(&region, 3, 256));
    Ok(())
}
