//! Each call once, with answers worked out by hand from the rule. The tables of cases are read by a program.

ghost use Rattle.std.specs.Prelude.{◌≡◌};

use rc_position::{Comp, Key, PartKey, Pos, Steps, Text, Weight};
use std::alloc::{AllocError, Global};
use std::cmp::Ordering;
use std::marker::Brand;
use std::sync::ledger::{Blank, Ledger};
use std::test::Fail;

// The position of this one int.
fn pos(alloc: Global, number: i64, weight: Weight) -> Result<Pos, AllocError> {
    Ok(Pos {
        prefix: Key::from_slice(alloc, &[Comp::Int(number)])?,
        weight,
    })
}

// What `cmp` and `==` answer under the bound alone.
fn ordered<T: Ord>(left: &T, right: &T) -> (Ordering, bool) {
    (left.cmp(right), left == right)
}

// A row against its copy and against the position behind it, and its key against the key of no components.
fn orders_of(alloc: Global, row: &Pos, after: &Pos) -> Result<[(Ordering, bool); 3], AllocError> {
    let copied = ordered(row, &row.copy(alloc)?);
    let keys = ordered(&row.prefix, &Key::empty(alloc));
    Ok([copied, ordered(row, after), keys])
}

#[test]
fn orders_and_copies(rt: HostRuntime) -> Result<(), Fail> {
    let row = pos(rt.alloc(), 1, Weight::At)?;
    let after = pos(rt.alloc(), 1, Weight::After)?;
    let orders = orders_of(rt.alloc(), &row, &after)?;
    assert!(rt;
        orders
            == [
                (Ordering::Equal, true),
                (Ordering::Less, false),
                (Ordering::Greater, false)
            ]
    );
    Ok(())
}

#[test]
fn weights_against_longer_keys(rt: HostRuntime) {
    assert!(rt; Weight::After.compare_with_longer() == Ordering::Greater);
}

#[test]
fn texts_in_the_memory_that_holds_them(rt: HostRuntime) -> Result<(), Fail> {
    let name = Text::from_vec(Vec::from_slice(rt.alloc(), b"owner")?);
    assert!(rt; ordered(&name, &name.copy(rt.alloc())?) == (Ordering::Equal, true));
    Ok(())
}

// The key of a number and a text.
fn key_of(alloc: Global) -> Result<Key, AllocError> {
    let name = Text::from_slice(alloc, b"owner")?;
    let comps = Vec::from_array(alloc, [Comp::Int(2), Comp::Text(name)])?;
    Ok(Key::from_vec(comps))
}

#[test]
fn copies_keys(rt: HostRuntime) -> Result<(), Fail> {
    let key = key_of(rt.alloc())?;
    assert!(rt; ordered(&key, &key.copy(rt.alloc())?) == (Ordering::Equal, true));
    Ok(())
}

#[test]
fn copies_the_key_of_a_partition(rt: HostRuntime) -> Result<(), Fail> {
    let a = rt.alloc();
    let key = PartKey::from_vec(Vec::from_slice(a, b"dev7")?);
    assert!(rt; ordered(&key, &key.copy(a)?) == (Ordering::Equal, true));
    Ok(())
}

// The orders of a row to another's end, counted.
fn counted<L: Ledger>(alloc: Global, blank: Blank) -> Result<(Ordering, Ordering), AllocError>
    requires name { blank.name ≡ L.name }
    requires parts { blank.parts ≡ L.parts }
    requires one { blank.parts ≡ 1 }
{
    let mut steps = Steps::<L>::new(blank);
    let row = pos(alloc, 1, Weight::At)?;
    let after = pos(alloc, 1, Weight::After)?;
    let first = row.compare_counted(&after, &mut steps);
    let second = after.prefix.compare_with_pos_counted(&row, &mut steps);
    Ok((first, second))
}

#[test]
fn counts(rt: HostRuntime) -> Result<(), Fail> {
    let orders = counted::<Brand>(rt.alloc(), Blank::new(1))?;
    assert!(rt; orders == (Ordering::Less, Ordering::Equal));
    Ok(())
}
