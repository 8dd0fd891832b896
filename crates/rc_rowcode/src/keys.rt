//! Keys and positions.

ghost use Rattle.std.specs.Prelude.{◌≡◌, ◌≤◌, ◌<◌, ◌+◌, ◌^◌, ◌++◌, ◌∷◌, length, IfOk, OnOk, OnErr, IfSome};
ghost use Rattle.std.specs.Option.{option_map};
ghost use Rattle.std.specs.List.{flat_map, AllByRecursion};
ghost use Rattle.std.specs.Vec.{vec_capacity};
ghost use Rattle.rc_position.specs.Position.{comp_cmp, weight_number, longest_text};
ghost use Rattle.rc_rowcode.specs.Spelling.{comp_code, key_code, pos_code, CompFits, KeyFits, IsKey, IsPos, ReadsPrefix};
ghost use Rattle.rc_rowcode.specs.calls.Reading.{parse_text, parse_component, parse_components, parse_key, parse_position};
ghost use Rattle.rc_rowcode.specs.calls.Views.{seen_comp};

use crate::numbers::{append, append_byte, append_stamp, bytes_at, stamp_at};
use crate::widths::key_in_range;
use rc_position::{Comp, Key, LONGEST_TEXT, Pos, Text, Weight};
use std::alloc::{AllocError, Global};
use std::cmp::Ordering;

/// A component whose text lies elsewhere.
#[derive(Clone, Copy)]
pub(crate) enum CompView<'a> {
    Int(i64),
    Text(&'a [u8]),
}

impl<'a> CompView<'a> {
    /// The component, with its text in place.
    pub(crate) fn of(comp: &'a Comp) -> Self
        ensures { seen_comp result ≡ comp.now }
    {
        match comp {
            Comp::Int(number) => CompView::Int(*number),
            Comp::Text(text) => CompView::Text(text.as_slice()),
        }
    }
}

impl CompView<'_> {
    /// The order of components.
    pub(crate) fn order(&self, other: &CompView<'_>) -> Ordering
        ensures { result ≡ comp_cmp (seen_comp self.now) (seen_comp other.now) }
    {
        match (self, other) {
            (CompView::Int(a), CompView::Int(b)) => a.cmp(b),
            (CompView::Int(_), CompView::Text(_)) => Ordering::Less,
            (CompView::Text(_), CompView::Int(_)) => Ordering::Greater,
            (CompView::Text(a), CompView::Text(b)) => a.cmp(b),
        }
    }

    /// An equal component of its own memory, or want of memory.
    fn copy(&self, alloc: Global) -> Result<Comp, AllocError>
        ensures { IfOk result (λ comp. comp ≡ seen_comp self.now) }
    {
        match self {
            CompView::Int(number) => Ok(Comp::Int(*number)),
            CompView::Text(bytes) => Ok(Comp::Text(Text::from_slice(alloc, bytes)?)),
        }
    }
}

#[tactic(auto, unfolding(crate::specs::calls::Reading::parse_text))]
fn text_at(bytes: &[u8]) -> Option<(CompView<'_>, &[u8])>
    ensures { option_map (λ x. (seen_comp x.0, x.1.now)) result ≡ parse_text bytes.now }
{
    match bytes {
        [] => None,
        [count, rest @ ..] => {
            let (text, rest) = bytes_at(LONGEST_TEXT, *count as usize, rest)?;
            Some((CompView::Text(text), rest))
        }
    }
}

/// The component at the front, and what follows it.
#[tactic(auto, unfolding(crate::specs::calls::Reading::parse_component))]
pub(crate) fn comp_at(bytes: &[u8]) -> Option<(CompView<'_>, &[u8])>
    ensures { option_map (λ x. (seen_comp x.0, x.1.now)) result ≡ parse_component bytes.now }
{
    match bytes {
        [] => None,
        [0, rest @ ..] => {
            let (number, rest) = stamp_at(rest)?;
            Some((CompView::Int(number), rest))
        }
        [1, rest @ ..] => text_at(rest),
        [_first, _rest @ ..] => None,
    }
}

/// So many components.
fn comps_at(
    alloc: Global,
    count: u8,
    bytes: &[u8],
) -> Result<Option<(Vec<Comp>, &[u8])>, AllocError>
    ensures { IfOk result (λ found. option_map (λ x. (x.0.items, x.1.now)) found ≡ parse_components count bytes.now) }
{
    let mut comps = Vec::new(alloc);
    let mut rest = bytes;
    for _ in 0..count {
        let Some((comp, after)) = comp_at(rest) else {
            return Ok(None);
        };
        comps.push(comp.copy(alloc)?)?;
        rest = after;
    }
    Ok(Some((comps, rest)))
}

/// The key at the front, and what follows it.
#[tactic(auto, unfolding(crate::specs::calls::Reading::parse_key))]
fn key_at(alloc: Global, bytes: &[u8]) -> Result<Option<(Key, &[u8])>, AllocError>
    ensures { IfOk result (λ found. option_map (λ x. (x.0, x.1.now)) found ≡ parse_key bytes.now) }
{
    match bytes {
        [] => Ok(None),
        [count, rest @ ..] => {
            if 4 < *count {
                return Ok(None);
            }
            let Some((comps, rest)) = comps_at(alloc, *count, rest)? else {
                return Ok(None);
            };
            Ok(Some((Key::from_vec(comps), rest)))
        }
    }
}

/// The position at the front, and what follows it.
#[tactic(auto, unfolding(crate::specs::calls::Reading::parse_position))]
fn pos_at(alloc: Global, bytes: &[u8]) -> Result<Option<(Pos, &[u8])>, AllocError>
    ensures { IfOk result (λ found. option_map (λ x. (x.0, x.1.now)) found ≡ parse_position bytes.now) }
{
    let (weight, rest) = match bytes {
        [0, rest @ ..] => (Weight::Before, rest),
        [1, rest @ ..] => (Weight::At, rest),
        [2, rest @ ..] => (Weight::After, rest),
        _ => return Ok(None),
    };
    let Some((prefix, rest)) = key_at(alloc, rest)? else {
        return Ok(None);
    };
    Ok(Some((Pos { prefix, weight }, rest)))
}

fn append_text(out: &mut Vec<u8>, bytes: &[u8])
    requires fits { length bytes.now ≤ longest_text }
    requires enough { length out.old.items + length (1 ∷ length bytes.now ∷ bytes.now) ≤ vec_capacity out.old }
    ensures items { out.new.items ≡ out.old.items ++ 1 ∷ length bytes.now ∷ bytes.now }
    ensures room { vec_capacity out.old ≤ vec_capacity out.new }
{
    append_byte(out, 1);
    append_byte(out, bytes.len() as u8);
    append(out, bytes);
}

fn append_comp(out: &mut Vec<u8>, comp: &Comp)
    requires fits { CompFits comp.now }
    requires enough { length out.old.items + length (comp_code comp.now) ≤ vec_capacity out.old }
    ensures items { out.new.items ≡ out.old.items ++ comp_code comp.now }
    ensures room { vec_capacity out.old ≤ vec_capacity out.new }
{
    match comp {
        Comp::Int(number) => {
            append_byte(out, 0);
            append_stamp(out, *number);
        }
        Comp::Text(text) => append_text(out, text.as_slice()),
    }
}

fn append_comps(out: &mut Vec<u8>, comps: &[Comp])
    requires fits { AllByRecursion CompFits comps.now }
    requires enough { length out.old.items + length (flat_map comp_code comps.now) ≤ vec_capacity out.old }
    ensures items { out.new.items ≡ out.old.items ++ flat_map comp_code comps.now }
    ensures room { vec_capacity out.old ≤ vec_capacity out.new }
{
    let mut left = comps;
    while let [comp, rest @ ..] = left {
        append_comp(out, comp);
        left = rest;
    }
}

/// Appends a key's code, for which there is room.
pub(crate) fn append_key(out: &mut Vec<u8>, key: &Key)
    requires fits { KeyFits key.now }
    requires enough { length out.old.items + length (key_code key.now) ≤ vec_capacity out.old }
    ensures items { out.new.items ≡ out.old.items ++ key_code key.now }
    ensures room { vec_capacity out.old ≤ vec_capacity out.new }
{
    let comps = key.as_slice();
    append_byte(out, comps.len() as u8);
    append_comps(out, comps);
}

/// Appends a position's code, for which there is room.
pub(crate) fn append_pos(out: &mut Vec<u8>, x: &Pos)
    requires fits { KeyFits x.now.prefix }
    requires enough { length out.old.items + length (pos_code x.now) ≤ vec_capacity out.old }
    ensures items { out.new.items ≡ out.old.items ++ pos_code x.now }
    ensures room { vec_capacity out.old ≤ vec_capacity out.new }
{
    let weight = match x.weight {
        Weight::Before => 0,
        Weight::At => 1,
        Weight::After => 2,
    };
    append_byte(out, weight);
    append_key(out, &x.prefix);
}

#[tactic(auto, unfolding(crate::specs::Spelling::stamp_code))]
fn comp_size(comp: &Comp) -> usize
    requires { CompFits comp.now }
    ensures { result ≡ length (comp_code comp.now) }
{
    match comp {
        Comp::Int(_) => 9,
        Comp::Text(text) => 2 + text.as_slice().len(),
    }
}

fn comps_size(comps: &[Comp]) -> usize
    requires fits { AllByRecursion CompFits comps.now }
    requires small { length (flat_map comp_code comps.now) < 2 ^ 32 }
    ensures { result ≡ length (flat_map comp_code comps.now) }
{
    let mut left = comps;
    let mut total = 0;
    while let [comp, rest @ ..] = left {
        total += comp_size(comp);
        left = rest;
    }
    total
}

/// The length of a key's code, in bytes.
pub fn key_size(key: &Key) -> usize
    requires { KeyFits key.now }
    ensures value { result ≡ length (key_code key.now) }
    ensures small { result ≤ 265 }
    ensures coded { IsKey key.now }
{
    key_in_range(key);
    1 + comps_size(key.as_slice())
}

/// The length of a position's code, in bytes: one more than that of its prefix.
pub fn pos_size(pos: &Pos) -> usize
    requires { KeyFits pos.now.prefix }
    ensures value { result ≡ length (pos_code pos.now) }
    ensures small { result ≤ 266 }
    ensures coded { IsPos pos.now }
{
    1 + key_size(&pos.prefix)
}

/// Appends the key's code. The only error is want of memory, and then nothing is appended.
pub fn write_key(_alloc: Global, key: &Key, out: &mut Vec<u8>) -> Result<(), AllocError>
    requires { KeyFits key.now }
    ensures ok { OnOk result (out.new.items ≡ out.old.items ++ key_code key.now) }
    ensures err { OnErr result (out.new.items ≡ out.old.items) }
    ensures coded { IsKey key.now }
{
    out.reserve(key_size(key))?;
    append_key(out, key);
    Ok(())
}

/// Appends the position's code. The only error is want of memory, and then nothing is appended.
pub fn write_pos(_alloc: Global, x: &Pos, out: &mut Vec<u8>) -> Result<(), AllocError>
    requires { KeyFits x.now.prefix }
    ensures ok { OnOk result (out.new.items ≡ out.old.items ++ pos_code x.now) }
    ensures err { OnErr result (out.new.items ≡ out.old.items) }
    ensures coded { IsPos x.now }
{
    out.reserve(pos_size(x))?;
    append_pos(out, x);
    Ok(())
}

/// The key that the bytes begin with, and the length of its code; none exactly where no prefix of them is a key's code.
/// The only error is want of memory.
pub fn read_key(alloc: Global, bytes: &[u8]) -> Result<Option<(Key, usize)>, AllocError>
    ensures value { IfOk result (λ found. ReadsPrefix key_code IsKey bytes.now found) }
    ensures limits { IfOk result (λ found. IfSome found (λ x. KeyFits x.0)) }
    ensures within { IfOk result (λ found. IfSome found (λ x. x.1 ≤ length bytes.now)) }
{
    let Some((key, rest)) = key_at(alloc, bytes)? else {
        return Ok(None);
    };
    Ok(Some((key, bytes.len() - rest.len())))
}

/// The position that the bytes begin with, and the length of its code; none exactly where no prefix of them is a
/// position's code. The only error is want of memory.
pub fn read_pos(alloc: Global, bytes: &[u8]) -> Result<Option<(Pos, usize)>, AllocError>
    ensures value { IfOk result (λ found. ReadsPrefix pos_code IsPos bytes.now found) }
    ensures limits { IfOk result (λ found. IfSome found (λ x. KeyFits x.0.prefix)) }
    ensures within { IfOk result (λ found. IfSome found (λ x. x.1 ≤ length bytes.now)) }
{
    let Some((x, rest)) = pos_at(alloc, bytes)? else {
        return Ok(None);
    };
    Ok(Some((x, bytes.len() - rest.len())))
}
