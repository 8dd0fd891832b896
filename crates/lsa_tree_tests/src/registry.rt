//! Each call of a registry once: tests of `rc_registry`.

use lsa_region::Root;
use rc_core::ChainKind;
use rc_registry::Registry;
use std::process::Abort;
use std::test::Fail;

#[test]
fn a_number_is_told_before_it_is_used_again(rt: HostRuntime) -> Result<(), Fail> {
    let mut registry = Registry::new(rt.alloc());
    let root = Root { number: 2 };
    let id = registry.insert(root, ChainKind::Cache)?;
    assert!(rt; registry.is_there(id));
    assert_eq!(rt; registry.get(id).root, root);
    registry.remove(id);
    assert_eq!(rt; registry.next(None), None);
    let other = registry.insert(root, ChainKind::Memtable)?;
    is_told_once(&rt, &mut registry, id, other);
    Ok(())
}

// The number of the chain that went is told, and no other; the other chain is there.
fn is_told_once(rt: &impl Abort, registry: &mut Registry, id: u64, other: u64) {
    assert_ne!(rt; other, id);
    assert_eq!(rt; registry.take_dropped(), Some(id));
    assert_eq!(rt; registry.take_dropped(), None);
    assert_eq!(rt; registry.next(None), Some(other));
}

#[test]
fn a_snapshot_follows_its_version(rt: HostRuntime) -> Result<(), Fail> {
    let mut registry = Registry::new(rt.alloc());
    let id = registry.insert(Root { number: 0 }, ChainKind::Cache)?;
    assert!(rt; registry.is_there(id));
    let first = registry.pin(id, 1)?;
    assert!(rt; registry.is_there(id));
    let second = registry.pin(id, 4)?;
    assert!(rt; registry.is_there(id));
    registry.renumber(id, 2);
    assert!(rt; registry.is_there(id));
    assert_eq!(rt; registry.pin_at(id, first), Some(1));
    assert_eq!(rt; registry.pin_at(id, second), Some(3));
    assert!(rt; registry.is_pinned(id, 3));
    assert!(rt; !registry.is_free(id));
    Ok(())
}

#[test]
fn a_detached_chain_is_not_under_update(rt: HostRuntime) -> Result<(), Fail> {
    let mut registry = Registry::new(rt.alloc());
    let id = registry.insert(Root { number: 7 }, ChainKind::Memtable)?;
    assert!(rt; registry.is_there(id));
    registry.set_updating(id, true);
    assert!(rt; registry.is_there(id));
    registry.set_passed(id, true);
    assert!(rt; registry.is_there(id));
    registry.detach(id);
    assert!(rt; registry.is_there(id));
    let chain = registry.get(id);
    assert!(rt; chain.passed);
    assert!(rt; !chain.attached);
    assert!(rt; !chain.updating);
    assert!(rt; chain.pins.are_free());
    Ok(())
}
