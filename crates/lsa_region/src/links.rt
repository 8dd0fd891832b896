//! The links in objects, and the root slots: what each of these ends names.
ghost use Rattle.std.specs.Prelude.{◌≡◌, ◌≢◌, ℕ, ◌+◌, ◌*◌, ◌^◌, ◌<◌, ◌≤◌, length, true, false, Option, Some, None, IfOk, IfSome};
ghost use Rattle.lsa_region.specs.Ends.{named_in, slots_in, IsEndIn, same_ref, same_end};
ghost use Rattle.lsa_region.specs.calls.Ends.{IsSetIn, IsSameShape};
ghost use Rattle.lsa_region.specs.Paired.{WellPaired, IsTied, IsParted, IsExchanged};

use crate::code::{code, end as told};
use crate::end::End;
use crate::slots::Slots;
use lsa_store::{Ref, Store};

/// What an end names.
pub(crate) fn named<const S: usize>(store: &Store<S>, roots: &Slots, end: End) -> Option<End>
    requires { IsEndIn store.now.cells roots.now end }
    ensures { result ≡ named_in store.now.cells roots.now end }
{
    match end {
        End::Obj(object, field) => told(store.word(object, field as usize)),
        End::Slot(root) => roots.get(root.number),
    }
}

/// Lets an end name another one, or nothing.
pub(crate) fn set<const S: usize>(
    store: &mut Store<S>,
    roots: &mut Slots,
    end: End,
    named: Option<End>,
)
    requires end { IsEndIn store.old.cells roots.old end }
    requires named { IfSome named (IsEndIn store.old.cells roots.old) }
    ensures set { IsSetIn store.old.cells roots.old store.new.cells roots.new end named }
    ensures usages { store.new.usages ≡ store.old.usages }
{
    store.known();
    roots.known();
    match end {
        End::Obj(object, field) => store.set_word(object, field as usize, code(named)),
        End::Slot(root) => roots.set(root.number, named),
    }
}

/// Ties two ends to each other.
pub(crate) fn tie<const S: usize>(store: &mut Store<S>, roots: &mut Slots, a: End, b: End)
    requires first { IsEndIn store.old.cells roots.old a }
    requires second { IsEndIn store.old.cells roots.old b }
    requires differ { a ≢ b }
    ensures tied { IsTied (named_in store.old.cells roots.old) (named_in store.new.cells roots.new) a b }
    ensures ends { (e : End) → IsEndIn store.old.cells roots.old e → IsEndIn store.new.cells roots.new e }
    ensures back { (e : End) → IsEndIn store.new.cells roots.new e → IsEndIn store.old.cells roots.old e }
    ensures shape { IsSameShape store.old.cells store.new.cells }
    ensures usages { store.new.usages ≡ store.old.usages }
    ensures slots { slots_in roots.new ≡ slots_in roots.old }
{
    set(store, roots, a, Some(b));
    set(store, roots, b, Some(a));
}

/// Parts two ends.
pub(crate) fn part<const S: usize>(store: &mut Store<S>, roots: &mut Slots, a: End, b: End)
    requires first { IsEndIn store.old.cells roots.old a }
    requires second { IsEndIn store.old.cells roots.old b }
    ensures parted { IsParted (named_in store.old.cells roots.old) (named_in store.new.cells roots.new) a b }
    ensures ends { (e : End) → IsEndIn store.old.cells roots.old e → IsEndIn store.new.cells roots.new e }
    ensures back { (e : End) → IsEndIn store.new.cells roots.new e → IsEndIn store.old.cells roots.old e }
    ensures shape { IsSameShape store.old.cells store.new.cells }
    ensures usages { store.new.usages ≡ store.old.usages }
    ensures slots { slots_in roots.new ≡ slots_in roots.old }
{
    set(store, roots, a, None);
    set(store, roots, b, None);
}

/// Whether the two are the same end.
pub(crate) fn same(a: End, b: End) -> bool
    ensures { result ≡ same_end a b }
{
    match (a, b) {
        (End::Obj(r, field), End::Obj(s, other)) => same_object(r, s) && field == other,
        (End::Slot(r), End::Slot(s)) => r.number == s.number,
        _ => false,
    }
}

// Whether the two name the same object.
fn same_object(r: Ref, s: Ref) -> bool
    ensures { result ≡ same_ref r s }
{
    r.segment == s.segment && r.offset == s.offset
}

// Whether what is named is this end.
fn names(named: Option<End>, end: End) -> bool
    ensures yes { result ≡ true → named ≡ Some end }
    ensures no { result ≡ false → named ≢ Some end }
{
    match named {
        Some(mate) => same(mate, end),
        None => false,
    }
}

// Lets an end name another one, or nothing, and that one name it.
fn point<const S: usize>(store: &mut Store<S>, roots: &mut Slots, end: End, mate: Option<End>)
    requires first { IsEndIn store.old.cells roots.old end }
    requires second { IfSome mate (IsEndIn store.old.cells roots.old) }
    requires differ { mate ≢ Some end }
    ensures here { named_in store.new.cells roots.new end ≡ mate }
    ensures mates { (other : End) → mate ≡ Some other → named_in store.new.cells roots.new other ≡ Some end }
    ensures others { (e : End) → e ≢ end → mate ≢ Some e → named_in store.new.cells roots.new e ≡ named_in store.old.cells roots.old e }
    ensures ends { (e : End) → IsEndIn store.old.cells roots.old e → IsEndIn store.new.cells roots.new e }
    ensures back { (e : End) → IsEndIn store.new.cells roots.new e → IsEndIn store.old.cells roots.old e }
    ensures shape { IsSameShape store.old.cells store.new.cells }
    ensures usages { store.new.usages ≡ store.old.usages }
    ensures slots { slots_in roots.new ≡ slots_in roots.old }
{
    set(store, roots, end, mate);
    if let Some(other) = mate {
        set(store, roots, other, Some(end));
    }
}

/// Lets two ends, of which each that is set is one of a pair, change places.
pub(crate) fn exchange<const S: usize>(store: &mut Store<S>, roots: &mut Slots, a: End, b: End)
    requires first { IsEndIn store.old.cells roots.old a }
    requires second { IsEndIn store.old.cells roots.old b }
    requires differ { a ≢ b }
    requires paired { WellPaired (named_in store.old.cells roots.old) }
    requires mates { (e other : End) → named_in store.old.cells roots.old e ≡ Some other → IsEndIn store.old.cells roots.old other }
    ensures exchanged { IsExchanged (named_in store.old.cells roots.old) (named_in store.new.cells roots.new) a b }
    ensures ends { (e : End) → IsEndIn store.old.cells roots.old e → IsEndIn store.new.cells roots.new e }
    ensures back { (e : End) → IsEndIn store.new.cells roots.new e → IsEndIn store.old.cells roots.old e }
    ensures shape { IsSameShape store.old.cells store.new.cells }
    ensures usages { store.new.usages ≡ store.old.usages }
    ensures slots { slots_in roots.new ≡ slots_in roots.old }
{
    let first = named(store, roots, a);
    let second = named(store, roots, b);
    if !names(first, b) {
        point(store, roots, a, second);
        point(store, roots, b, first);
    }
}
