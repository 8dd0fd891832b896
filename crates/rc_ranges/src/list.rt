//! The canonical list of pieces.

ghost use Rattle.std.specs.Prelude.{◌≡◌, [], ◌∷◌, IfOk, OnOk, OnErr};
ghost use Rattle.rc_position.specs.Position.{IsBefore, row_pos};
ghost use Rattle.rc_ranges.specs.Cover.{cover, IsCanonical, IsRangeJoinOf};

use crate::pieces::Piece;
use crate::sweep::{joined, tomb_in_force, tomb_in_force_at_row};
use rc_cell::Tomb;
use rc_position::{Key, Pos};
use std::alloc::{AllocError, Global};
use std::marker::Model;

/// The range tombstones of one partition: pieces in order that do not overlap, of which none is empty, and two that
/// touch have different tombstones.
#[derive(Drop)]
pub struct Ranges {
    items: Vec<Piece>,
}

impl Model for Ranges {
    ghost use Rattle.std.specs.Prelude.{List};
    ghost use Rattle.rc_ranges.specs.declared.pieces.Piece.{Piece};
    ghost use Rattle.rc_ranges.specs.Cover.{IsCanonical};

    ghost Value = { List Piece };

    ghost view = { λ r. r.items.items };

    ghost invariant = { λ r. IsCanonical r.items.items };
}

impl Ranges {
    /// No range tombstones.
    pub fn empty(alloc: Global) -> Self
        ensures { result ≡ [] }
    {
        Ranges {
            items: Vec::new(alloc),
        }
    }

    /// The range tombstones of these pieces, which are copied. The only error is want of memory.
    pub fn from_slice(alloc: Global, items: &[Piece]) -> Result<Self, AllocError>
        requires { IsCanonical items.now }
        ensures { IfOk result (λ r. r ≡ items.now) }
    {
        let mut copies = Vec::with_capacity(alloc, items.len())?;
        for piece in items {
            copies.push(piece.copy(alloc)?)?;
        }
        Ok(Ranges { items: copies })
    }

    /// The range tombstones of these pieces, in the memory that holds them.
    pub fn from_vec(items: Vec<Piece>) -> Self
        requires { IsCanonical items.items }
        ensures { result ≡ items.items }
    {
        Ranges { items }
    }

    /// The pieces, in order.
    pub fn as_slice(&self) -> &[Piece]
        ensures value { result.now ≡ self.now }
        ensures canonical { IsCanonical self.now }
    {
        self.items.as_slice()
    }

    /// Equal range tombstones. The only error is want of memory.
    pub fn copy(&self, alloc: Global) -> Result<Self, AllocError>
        ensures { IfOk result (λ r. r ≡ self.now) }
    {
        Ranges::from_slice(alloc, self.as_slice())
    }

    /// Adds a tombstone over the positions from `from` on and before `to`: at each of these the greater tombstone stands.
    /// Want of memory leaves the ranges as they were.
    pub fn add(&mut self, alloc: Global, from: &Pos, to: &Pos, tomb: Tomb) -> Result<(), AllocError>
        requires { IsBefore from.now to.now }
        ensures ok { OnOk result (IsRangeJoinOf self.new self.old (record { from = from.now; to = to.now; tomb = tomb } ∷ [])) }
        ensures err { OnErr result (self.new ≡ self.old) }
        ensures canonical { IsCanonical self.new }
    {
        let ours = self.items.as_slice();
        let piece = Piece::new(alloc, from, to, tomb)?;
        self.items = joined(alloc, ours, &[piece])?;
        Ok(())
    }

    /// Adds all pieces of others: at each position the greater tombstone stands. The work is linear in the pieces of both.
    /// Want of memory leaves the ranges as they were.
    pub fn join(&mut self, alloc: Global, other: &Ranges) -> Result<(), AllocError>
        ensures ok { OnOk result (IsRangeJoinOf self.new self.old other.now) }
        ensures err { OnErr result (self.new ≡ self.old) }
        ensures canonical { IsCanonical self.new }
    {
        self.items = joined(alloc, self.items.as_slice(), other.items.as_slice())?;
        Ok(())
    }

    /// The tombstone in force at a position, none where no piece covers it.
    pub fn at(&self, x: &Pos) -> Option<Tomb>
        ensures { result ≡ cover self.now x.now }
    {
        tomb_at(self.items.as_slice(), x)
    }

    /// The tombstone in force at the row of a key, none where no piece covers it. It takes no memory.
    pub fn at_row(&self, key: &Key) -> Option<Tomb>
        ensures { result ≡ cover self.now (row_pos key.now) }
    {
        tomb_at_row(self.items.as_slice(), key)
    }
}

// The tombstone of the piece that covers the position. Only the first that ends behind it can.
fn tomb_at(pieces: &[Piece], x: &Pos) -> Option<Tomb>
    requires { IsCanonical pieces.now }
    ensures { result ≡ cover pieces.now x.now }
{
    let first = pieces.partition_point(|piece| piece.to <= *x);
    tomb_in_force(&pieces[first..], x)
}

// The tombstone of the piece that covers the row of the key. Only the first that ends behind it can.
fn tomb_at_row(pieces: &[Piece], key: &Key) -> Option<Tomb>
    requires { IsCanonical pieces.now }
    ensures { result ≡ cover pieces.now (row_pos key.now) }
{
    let first = pieces.partition_point(|piece| key.compare_with_pos(&piece.to).is_ge());
    tomb_in_force_at_row(&pieces[first..], key)
}
