//! What fills a snapshot from what is below it.

ghost use Rattle.std.specs.Prelude.{◌≡◌};

use rc_cell::{Row, Tomb};
use rc_position::{Key, Pos};

/// What came of a fill.
#[derive(Clone, Copy, Debug, PartialEq, Eq)]
pub enum Fill {
    /// It was taken in.
    Filled,
    /// No room was found.
    Skipped,
    /// The snapshot is not of the newest version.
    NotNewest,
}

/// What fills a snapshot over a home `H`. A contract sees whether the snapshot may be filled, for which writes it stands, what is known of
/// it, and how often something was lost: evicted, or skipped for want of room. Each call needs that the filler is ready over the home
/// handed in, and that writes for which it stands say what is handed in; of all writes for which it stood it stands afterwards for those
/// that say so.
pub trait Filler<H> {
    ghost use Rattle.std.specs.Prelude.{◌≡◌, ℕ, List};
    ghost use Rattle.rc_cell.specs.declared.rows.Row.{Row};
    ghost use Rattle.rc_cell.specs.Winner.{empty_row};
    ghost use Rattle.rc_position.specs.declared.positions.Pos.{Pos};
    ghost use Rattle.rc_position.specs.Position.{IsBefore, row_pos};
    ghost use Rattle.rc_mutation.specs.declared.mutations.Mutation.{Mutation};
    ghost use Rattle.rc_mutation.specs.Source.{source_at_static};
    ghost use Rattle.rc_stream.specs.Snapshot.{Answers, SayThere, There, Throughout, Unlost};

    // its calls may be made over this home
    ghost ready: { Self → H → Type 0 };

    // a position may be put in
    ghost fits: { Self → Pos → Type 0 };

    // over this home the snapshot may be filled
    ghost may: { Self → H → Type 0 };

    // how often something was lost so far
    ghost lost: { H → ℕ };

    // over this home the snapshot stands for these writes: what it knows is what they say
    ghost stands: { Self → H → List Mutation → Type 0 };

    // over this home the position is known, and this is there
    ghost knows: { Self → H → Pos → There → Type 0 };

    // over this home the static row is known, and is this one
    ghost knows_statics: { Self → H → Row → Type 0 };

    // what a call does to a filler and its home
    ghost fills: { Self → H → Self → H → Type 0 };

    /// Takes in that from one position on and before another there is no row, and that this range tombstone is in force.
    fn gap(&mut self, home: &mut H, from: &Pos, to: &Pos, tomb: Option<Tomb>) -> Fill
        requires ready { ready self.old home.old }
        requires order { IsBefore from.now to.now }
        requires from { fits self.old from.now }
        requires to { fits self.old to.now }
        requires source { (writes : List Mutation) × stands self.old home.old writes × Throughout from.now to.now (λ x. SayThere writes x (empty_row, tomb)) }
        ensures fill { Answers result (may self.old home.old) (lost home.old) (lost home.new) }
        ensures known { Unlost (may self.old home.old) (lost home.old) (lost home.new) (Throughout from.now to.now (λ x. knows self.new home.new x (empty_row, tomb))) }
        ensures keeps { Unlost (may self.old home.old) (lost home.old) (lost home.new) ((x : Pos) (v : There) → knows self.old home.old x v → knows self.new home.new x v) }
        ensures stands { (writes : List Mutation) → stands self.old home.old writes → Throughout from.now to.now (λ x. SayThere writes x (empty_row, tomb)) → stands self.new home.new writes }
        ensures sound { (writes : List Mutation) → stands self.new home.new writes → (x : Pos) (v : There) → knows self.new home.new x v → SayThere writes x v }
        ensures may { may self.old home.old → may self.new home.new }
        ensures did { fills self.old home.old self.new home.new }
        ensures ready { ready self.new home.new };

    /// Takes in that this row is at its key, and that this range tombstone is in force there.
    fn row(&mut self, home: &mut H, key: &Key, row: &Row, tomb: Option<Tomb>) -> Fill
        requires ready { ready self.old home.old }
        requires fits { fits self.old (row_pos key.now) }
        requires source { (writes : List Mutation) × stands self.old home.old writes × SayThere writes (row_pos key.now) (row.now, tomb) }
        ensures fill { Answers result (may self.old home.old) (lost home.old) (lost home.new) }
        ensures known { Unlost (may self.old home.old) (lost home.old) (lost home.new) (knows self.new home.new (row_pos key.now) (row.now, tomb)) }
        ensures keeps { Unlost (may self.old home.old) (lost home.old) (lost home.new) ((x : Pos) (v : There) → knows self.old home.old x v → knows self.new home.new x v) }
        ensures stands { (writes : List Mutation) → stands self.old home.old writes → SayThere writes (row_pos key.now) (row.now, tomb) → stands self.new home.new writes }
        ensures sound { (writes : List Mutation) → stands self.new home.new writes → (x : Pos) (v : There) → knows self.new home.new x v → SayThere writes x v }
        ensures may { may self.old home.old → may self.new home.new }
        ensures did { fills self.old home.old self.new home.new }
        ensures ready { ready self.new home.new };

    /// Takes in that this is the static row.
    fn statics(&mut self, home: &mut H, row: &Row) -> Fill
        requires ready { ready self.old home.old }
        requires source { (writes : List Mutation) × stands self.old home.old writes × (source_at_static writes ≡ row.now) }
        ensures fill { Answers result (may self.old home.old) (lost home.old) (lost home.new) }
        ensures known { Unlost (may self.old home.old) (lost home.old) (lost home.new) (knows_statics self.new home.new row.now) }
        ensures keeps { Unlost (may self.old home.old) (lost home.old) (lost home.new) ((x : Pos) (v : There) → knows self.old home.old x v → knows self.new home.new x v) }
        ensures stands { (writes : List Mutation) → stands self.old home.old writes → (source_at_static writes ≡ row.now) → stands self.new home.new writes }
        ensures sound { (writes : List Mutation) → stands self.new home.new writes → (x : Pos) (v : There) → knows self.new home.new x v → SayThere writes x v }
        ensures may { may self.old home.old → may self.new home.new }
        ensures did { fills self.old home.old self.new home.new }
        ensures ready { ready self.new home.new };
}
