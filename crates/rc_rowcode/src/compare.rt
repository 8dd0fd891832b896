//! Positions compared as codes: without decoding them, and without taking memory.

ghost use Rattle.std.specs.Prelude.{◌≡◌, ◌+◌, [], ◌∷◌, MatchOption};
ghost use Rattle.rc_position.specs.declared.positions.Weight.{Weight};
ghost use Rattle.rc_position.specs.declared.positions.Pos.{Pos};
ghost use Rattle.rc_position.specs.Position.{pos_cmp, row_pos, prefix_cmp, weight_number};
ghost use Rattle.rc_rowcode.specs.Spelling.{pos_code, IsPos};
ghost use Rattle.rc_rowcode.specs.calls.Views.{seen_comp};
ghost use Rattle.rc_rowcode.specs.calls.Comparing.{listed_comps, seen_comps, seen_pos};

use crate::keys::{CompView, comp_at};
use crate::numbers::byte_at;
use rc_position::{Comp, Key, Pos, Steps, Weight};
use std::cmp::Ordering;
use std::sync::ledger::Ledger;

/// Components that are still to be compared: of a code, how many and the bytes from the first on; or of a key.
#[derive(Clone, Copy)]
pub(crate) enum Comps<'a> {
    Coded { count: u8, bytes: &'a [u8] },
    Plain(&'a [Comp]),
}

/// A position, wherever it lies.
#[derive(Clone, Copy)]
pub(crate) struct PosView<'a> {
    pub(crate) comps: Comps<'a>,
    pub(crate) weight: Weight,
}

// The weight of a byte; any weight of other bytes.
fn weight_of(byte: u8) -> Weight
    ensures { (w : Weight) → byte ≡ weight_number w → result ≡ w }
{
    match byte {
        0 => Weight::Before,
        1 => Weight::At,
        _ => Weight::After,
    }
}

impl<'a> PosView<'a> {
    // The position of a code, in place; any position of other bytes.
    fn of_code(code: &'a [u8]) -> Self
        ensures { (x : Pos) → IsPos x → code.now ≡ pos_code x → seen_pos result ≡ x }
    {
        let Some((weight, rest)) = byte_at(code) else {
            return PosView::nothing();
        };
        let Some((count, bytes)) = byte_at(rest) else {
            return PosView::nothing();
        };
        PosView {
            comps: Comps::Coded { count, bytes },
            weight: weight_of(weight),
        }
    }

    // A position of no components.
    fn nothing() -> Self {
        PosView {
            comps: Comps::Plain(&[]),
            weight: Weight::Before,
        }
    }

    // A position, in place.
    fn of_pos(x: &'a Pos) -> Self
        ensures { seen_pos result ≡ x.now }
    {
        PosView {
            comps: Comps::Plain(x.prefix.as_slice()),
            weight: x.weight,
        }
    }

    // The position of a key's row, in place.
    fn of_key(key: &'a Key) -> Self
        ensures { seen_pos result ≡ row_pos key.now }
    {
        PosView {
            comps: Comps::Plain(key.as_slice()),
            weight: Weight::At,
        }
    }
}

// The first of so many components of a code, and those behind it.
fn first_coded(count: u8, bytes: &[u8]) -> Option<(CompView<'_>, Comps<'_>)>
    ensures { MatchOption result (listed_comps count bytes.now ≡ []) (λ x. listed_comps count bytes.now ≡ seen_comp x.0 ∷ seen_comps x.1) }
{
    if count == 0 {
        return None;
    }
    let Some((comp, bytes)) = comp_at(bytes) else {
        return None;
    };
    let rest = Comps::Coded {
        count: count - 1,
        bytes,
    };
    Some((comp, rest))
}

// The first of some components, and those behind it.
fn first_plain(comps: &[Comp]) -> Option<(CompView<'_>, Comps<'_>)>
    ensures { MatchOption result (comps.now ≡ []) (λ x. comps.now ≡ seen_comp x.0 ∷ seen_comps x.1) }
{
    match comps {
        [] => None,
        [comp, rest @ ..] => Some((CompView::of(comp), Comps::Plain(rest))),
    }
}

// The first component, and those behind it.
fn first(comps: Comps<'_>) -> Option<(CompView<'_>, Comps<'_>)>
    ensures { MatchOption result (seen_comps comps.entry ≡ []) (λ x. seen_comps comps.entry ≡ seen_comp x.0 ∷ seen_comps x.1) }
{
    match comps {
        Comps::Coded { count, bytes } => first_coded(count, bytes),
        Comps::Plain(items) => first_plain(items),
    }
}

// The order of two positions, given as components and weight.
fn order(left: Comps<'_>, left_weight: Weight, right: Comps<'_>, right_weight: Weight) -> Ordering
    ensures { result ≡ prefix_cmp (seen_comps left.entry) left_weight (seen_comps right.entry) right_weight }
{
    let mut xs = left;
    let mut ys = right;
    loop {
        match (first(xs), first(ys)) {
            (None, None) => return left_weight.cmp(&right_weight),
            (None, Some(_)) => return left_weight.compare_with_longer(),
            (Some(_), None) => return right_weight.compare_with_longer().reverse(),
            (Some((x, xs_rest)), Some((y, ys_rest))) => match x.order(&y) {
                Ordering::Equal => {
                    xs = xs_rest;
                    ys = ys_rest;
                }
                decided => return decided,
            },
        }
    }
}

// The order of two positions, wherever they lie.
#[tactic(auto, unfolding(rc_position::specs::Position::pos_cmp))]
fn compare(x: PosView<'_>, y: PosView<'_>) -> Ordering
    ensures { result ≡ pos_cmp (seen_pos x.entry) (seen_pos y.entry) }
{
    order(x.comps, x.weight, y.comps, y.weight)
}

/// The order of two positions by their codes, in place; any order where one is no position's code. It takes no memory.
pub fn compare_codes(a: &[u8], b: &[u8]) -> Ordering
    ensures { (x y : Pos) → IsPos x → IsPos y → a.now ≡ pos_code x → b.now ≡ pos_code y → result ≡ pos_cmp x y }
{
    compare(PosView::of_code(a), PosView::of_code(b))
}

/// The order of a position by its code, in place, to a position; any order where the bytes are no position's code. It
/// takes no memory.
pub fn compare_code_with_pos(code: &[u8], y: &Pos) -> Ordering
    ensures { (x : Pos) → IsPos x → code.now ≡ pos_code x → result ≡ pos_cmp x y.now }
{
    compare(PosView::of_code(code), PosView::of_pos(y))
}

/// The order of a position by its code, in place, to the position of a key's row; any order where the bytes are no
/// position's code. It takes no memory.
pub fn compare_code_with_key(code: &[u8], key: &Key) -> Ordering
    ensures { (x : Pos) → IsPos x → code.now ≡ pos_code x → result ≡ pos_cmp x (row_pos key.now) }
{
    compare(PosView::of_code(code), PosView::of_key(key))
}

/// The same as `compare_codes`, counted as one comparison.
pub fn compare_codes_counted<L: Ledger>(a: &[u8], b: &[u8], steps: &mut Steps<L>) -> Ordering
    ensures value { (x y : Pos) → IsPos x → IsPos y → a.now ≡ pos_code x → b.now ≡ pos_code y → result ≡ pos_cmp x y }
    ensures counted { steps.new ≡ steps.old + 1 }
{
    steps.count();
    compare_codes(a, b)
}

/// The same as `compare_code_with_pos`, counted as one comparison.
pub fn compare_code_with_pos_counted<L: Ledger>(
    code: &[u8],
    y: &Pos,
    steps: &mut Steps<L>,
) -> Ordering
    ensures value { (x : Pos) → IsPos x → code.now ≡ pos_code x → result ≡ pos_cmp x y.now }
    ensures counted { steps.new ≡ steps.old + 1 }
{
    steps.count();
    compare_code_with_pos(code, y)
}

/// The same as `compare_code_with_key`, counted as one comparison.
pub fn compare_code_with_key_counted<L: Ledger>(
    code: &[u8],
    key: &Key,
    steps: &mut Steps<L>,
) -> Ordering
    ensures value { (x : Pos) → IsPos x → code.now ≡ pos_code x → result ≡ pos_cmp x (row_pos key.now) }
    ensures counted { steps.new ≡ steps.old + 1 }
{
    steps.count();
    compare_code_with_key(code, key)
}
