//! The index in two maps: the number of each key, and the key of each number, so that a number is forgotten without a search for it.
ghost use Rattle.std.specs.Prelude.{◌≡◌, ◌<◌, ℕ, List as Sequence, [], ◌∷◌, Some, None, IfNone, IsSome, OnErr, OnOk, cond, nat_eq};
ghost use Rattle.std.specs.BTreeMap.{insert_entry, is_at};
ghost use Rattle.std.specs.HashMap.{spare};
ghost use Rattle.std.specs.Map.{remove_entry, set_value};
ghost use Rattle.std.specs.Ordering.{eq_by_cmp};
ghost use Rattle.rc_position.specs.Position.{bytes_cmp};
ghost use Rattle.rc_entries.specs.Found.{DoKeysAscend, IsForgotten, entry_number};
ghost use Rattle.rc_entries.specs.calls.Index.{IsIndex, entry_key};

use rc_position::PartKey;
use std::alloc::{AllocError, Global};
use std::collections::{BTreeMap, HashMap};

/// Makes room in both maps for a key that has no number: it has the number 0 then, which is to be set. The only error is want of memory, after which both say what they said.
pub(crate) fn make_room(
    numbers: &mut BTreeMap<PartKey, u64>,
    keys: &mut HashMap<u64, PartKey>,
    alloc: Global,
    key: &PartKey,
) -> Result<(), AllocError>
    ensures placed { OnOk result (numbers.new.entries ≡ insert_entry bytes_cmp numbers.old.entries key.now 0) }
    ensures ascend { OnOk result (DoKeysAscend numbers.new.entries) }
    ensures room { OnOk result (0 < spare keys.new) }
    ensures same { OnErr result (numbers.new.entries ≡ numbers.old.entries) }
    ensures keys { (id : ℕ) → entry_key keys.new.entries id ≡ entry_key keys.old.entries id }
{
    keys.reserve(1)?;
    let copy = key.copy(alloc)?;
    numbers.insert(copy, 0)?;
    Ok(())
}

/// Sets the number of a key, for which there is room in both maps.
pub(crate) fn set_number(
    numbers: &mut BTreeMap<PartKey, u64>,
    keys: &mut HashMap<u64, PartKey>,
    key: PartKey,
    id: u64,
)
    requires there { IsSome (entry_number numbers.old.entries key) }
    requires room { 0 < spare keys.old }
    ensures numbers { numbers.new.entries ≡ set_value (is_at (bytes_cmp key)) numbers.old.entries id }
    ensures keys { (i : ℕ) → entry_key keys.new.entries i ≡ cond (nat_eq id i) (Some key) (entry_key keys.old.entries i) }
{
    if let Some(number) = numbers.get_mut(&key) {
        *number = id;
    }
    if keys.insert(id, key).is_err() {
        unreachable!()
    }
}

/// Gives the room back that was made for a key, which has no number then.
pub(crate) fn drop_room(numbers: &mut BTreeMap<PartKey, u64>, key: &PartKey)
    ensures { numbers.new.entries ≡ remove_entry (is_at (bytes_cmp key.now)) numbers.old.entries }
{
    numbers.remove(key);
}

/// Takes a key out, and gives its number. None where it has none.
pub(crate) fn take_out(
    numbers: &mut BTreeMap<PartKey, u64>,
    keys: &mut HashMap<u64, PartKey>,
    key: &PartKey,
) -> Option<u64>
    requires index { IsIndex numbers.old.entries keys.old.entries }
    ensures value { result ≡ entry_number numbers.old.entries key.now }
    ensures none { IfNone result (numbers.new.entries ≡ numbers.old.entries) }
    ensures numbers { numbers.new.entries ≡ remove_entry (is_at (bytes_cmp key.now)) numbers.old.entries }
    ensures left { (q : Sequence ℕ) → entry_number numbers.new.entries q ≡ cond (eq_by_cmp bytes_cmp key.now q) None (entry_number numbers.old.entries q) }
    ensures ascend { DoKeysAscend numbers.new.entries }
    ensures index { IsIndex numbers.new.entries keys.new.entries }
{
    let id = numbers.remove(key)?;
    keys.remove(&id);
    Some(id)
}

/// Takes the key out that has a number, if one has it.
pub(crate) fn forget(
    numbers: &mut BTreeMap<PartKey, u64>,
    keys: &mut HashMap<u64, PartKey>,
    id: u64,
)
    requires index { IsIndex numbers.old.entries keys.old.entries }
    ensures forgotten { IsForgotten (id ∷ []) numbers.old.entries numbers.new.entries }
    ensures ascend { DoKeysAscend numbers.old.entries → DoKeysAscend numbers.new.entries }
    ensures index { IsIndex numbers.new.entries keys.new.entries }
{
    if let Some(key) = keys.remove(&id) {
        numbers.remove(&key);
    }
}
