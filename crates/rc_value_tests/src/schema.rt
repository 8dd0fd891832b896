//! Names of columns, and the sizes of objects, worked out by hand from the limits. The other calls are cases that a program reads.

use rc_schema::Schema;
use std::test::Fail;

#[test]
fn names_of_columns(rt: HostRuntime) -> Result<(), Fail> {
    let schema = Schema::read(rt.alloc(), b"ck=int static=s cols=a,b")?;
    assert!(rt; schema.col(b"b") == Some(1) && schema.static_col(b"b") == None);
    Ok(())
}

#[test]
fn the_largest_objects(rt: HostRuntime) -> Result<(), Fail> {
    let schema = Schema::read(rt.alloc(), b"ck=int static=s cols=a,b")?;
    // 80 + (1 + 1 + 9) + (9 + 13 + 1 + 2 * 268), and 32 + (1 + 1 + 1 + 268), each rounded up
    assert!(rt; schema.largest_entry() == 656 && schema.largest_static() == 304);
    Ok(())
}
