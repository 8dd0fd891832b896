//! The numbers of each partition's writes.

ghost use Rattle.std.specs.Prelude.{◌≡◌, ℕ, List, [], ◌∷◌, ◌++◌, Some, cond, IfOk, OnOk, OnErr};
ghost use Rattle.std.specs.Ordering.{eq_by_cmp};
ghost use Rattle.rc_position.specs.Position.{bytes_cmp};
ghost use Rattle.rc_plain.specs.calls.Index.{numbers_at_key, numbers_of};

use rc_position::PartKey;
use std::alloc::{AllocError, Global};
use std::collections::BTreeMap;

/// The numbers at a key, none where it has none.
pub(crate) fn numbers_at<'a>(index: &'a BTreeMap<PartKey, Vec<usize>>, key: &PartKey) -> &'a [usize]
    ensures { result.now ≡ numbers_of index.now key.now }
{
    match index.get(key) {
        Some(numbers) => numbers.as_slice(),
        None => &[],
    }
}

/// Puts a number behind the others at a key. Want of memory leaves the numbers at each key as they were.
pub(crate) fn add_number(
    alloc: Global,
    index: &mut BTreeMap<PartKey, Vec<usize>>,
    key: &PartKey,
    number: usize,
) -> Result<(), AllocError>
    ensures ok { OnOk result ((q : List ℕ) → numbers_at_key index.new q ≡ cond (eq_by_cmp bytes_cmp key.now q) (Some (numbers_of index.old key.now ++ number ∷ [])) (numbers_at_key index.old q)) }
    ensures err { OnErr result ((q : List ℕ) → numbers_at_key index.new q ≡ numbers_at_key index.old q) }
{
    match index.get_mut(key) {
        Some(numbers) => Ok(numbers.push(number)?),
        None => {
            let key = key.copy(alloc)?;
            let numbers = Vec::from_slice(alloc, &[number])?;
            index.insert(key, numbers)?;
            Ok(())
        }
    }
}
