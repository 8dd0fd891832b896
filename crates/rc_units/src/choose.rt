//! Which version the cleaner merges next.

ghost use Rattle.std.specs.Prelude.{◌≡◌, ◌<◌, ◌↔◌, ℕ, IfSome, IsTrue, None, length};
ghost use Rattle.rc_core.specs.Chains.{Chain, IsPinned, IsUpdating};
ghost use Rattle.rc_units.specs.Clean.{MayMerge};

// Whether a snapshot pins the version of a number.
fn is_pinned(pins: &[Option<usize>], version: usize) -> bool
    ensures { IsTrue result ↔ IsPinned pins.now version }
{
    let mut left = pins;
    while let [first, rest @ ..] = left {
        if *first == Some(version) {
            return true;
        }
        left = rest;
    }
    false
}

/// Whether the cleaner may merge the version of a number, of a chain of so many with these pins: nobody pins it, it is not the newest, and not the one below
/// the newest of a chain under update.
pub fn may_merge(version: usize, versions: usize, pins: &[Option<usize>], updating: bool) -> bool
    requires { version < versions }
    ensures { (c : Chain) → length c.versions ≡ versions → c.pins ≡ pins.now → (IsTrue updating ↔ IsUpdating c.updating) → (IsTrue result ↔ MayMerge c version) }
{
    version < versions - 1 && !is_pinned(pins, version) && !(updating && version == versions - 2)
}

/// The number of the version that the cleaner merges next, of a chain of so many with these pins: the newest that it may merge, so that it may not merge the
/// one over it, which takes what is merged, nor any other that is newer. None where it may merge none.
pub fn next_to_clean(versions: usize, pins: &[Option<usize>], updating: bool) -> Option<usize>
    ensures some { IfSome result (λ i. (c : Chain) → length c.versions ≡ versions → c.pins ≡ pins.now → (IsTrue updating ↔ IsUpdating c.updating) → MayMerge c i × ((j : ℕ) → i < j → MayMerge c j → ⊥)) }
    ensures none { result ≡ None → (c : Chain) → length c.versions ≡ versions → c.pins ≡ pins.now → (IsTrue updating ↔ IsUpdating c.updating) → (j : ℕ) → MayMerge c j → ⊥ }
{
    let mut left = versions;
    while left > 0 {
        left -= 1;
        if may_merge(left, versions, pins, updating) {
            return Some(left);
        }
    }
    None
}
