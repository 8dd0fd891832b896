// That what is known of tables is kept and shared.
use rc_position::PartKey;
use rc_tables::TableSet;
use rc_tfile::{PartRef, PartRefs, TableInfo};
use std::alloc::{AllocError, Global};
use std::test::Fail;

// A list of one partition.
fn parts_of(alloc: Global) -> Result<PartRefs, AllocError> {
    let key = PartKey::from_slice(alloc, b"p")?;
    let part = PartRef {
        key,
        dir_off: 61,
        dir_len: 40,
    };
    PartRefs::from_slice(alloc, &[part])
}

// What is known of a table that lists one partition.
fn known(alloc: Global, number: u32) -> Result<TableInfo, AllocError> {
    let parts = parts_of(alloc)?;
    Ok(TableInfo { number, parts })
}

// The set of two tables, the later one with the lower number.
fn two_of(alloc: Global) -> Result<TableSet, AllocError> {
    let none = TableSet::empty(alloc)?;
    let one = none.with(alloc, known(alloc, 7)?)?;
    one.with(alloc, known(alloc, 3)?)
}

#[test]
fn tables_are_shared(rt: HostRuntime) -> Result<(), Fail> {
    let two = two_of(rt.alloc())?;
    let same = two.share()?;
    let numbers = same.numbers(rt.alloc())?;
    assert!(rt; numbers.as_slice() == [7u32, 3].as_slice());
    Ok(())
}
