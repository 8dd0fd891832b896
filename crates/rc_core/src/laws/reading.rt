//! The parts of a snapshot: over a gap the same is seen at each place, and what is known is the source.

ghost use Rattle.std.specs.Prelude.{◌≡◌, List, None, Option, true};
ghost use Rattle.rc_cell.specs.declared.rows.Row as rows;
ghost use Rattle.rc_cell.specs.declared.writes.Tomb.{Tomb};
ghost use Rattle.rc_cell.specs.Winner.{empty_row};
ghost use Rattle.rc_position.specs.declared.comps.Comp.{Comp};
ghost use Rattle.rc_position.specs.declared.positions.Pos.{Pos};
ghost use Rattle.rc_position.specs.Position.{covers};
ghost use Rattle.rc_mutation.specs.declared.mutations.Mutation.{Mutation};
ghost use Rattle.rc_mutation.specs.Source.{source_at};
ghost use Rattle.rc_core.specs.declared.entries.ChainKind.{ChainKind};
ghost use Rattle.rc_core.specs.declared.entries.ChainKind.TheVariants.{Cache};
ghost use Rattle.rc_core.specs.declared.parts.Part.{Part};
ghost use Rattle.rc_core.specs.declared.parts.Part.TheVariants.{Gap, Row};
ghost use Rattle.rc_core.specs.Chain.{IsEvenAt, IsKnown, states_at, content};
ghost use Rattle.rc_core.specs.Continuity.{IsContinuous};
ghost use Rattle.rc_core.specs.Parts.{IsFirstPart};
ghost use Rattle.rc_core.specs.Version.{On, Version};

/// At each place of a known gap no row is seen and the gap's tombstone, and the place is known; also in a memtable's chain.
pub fn a_gap_is_seen_alike()
    ensures { (kind : ChainKind) (versions : List Version) (x upto to : Pos) (tomb : Option Tomb) → IsFirstPart kind versions x upto (Gap to tomb) →
        IsEvenAt kind versions x → (y : Pos) → covers x to y ≡ true → (content (states_at (On y) versions) ≡ (empty_row, tomb)) × IsKnown kind versions y }
{}

/// In a continuous version of a cache chain a part that is known is the source: at each place of a gap no row and its tombstone, and at a
/// row's key the row and its range tombstone.
pub fn a_known_part_is_the_source()
    ensures gap { (writes : List Mutation) (versions : List Version) (x upto to : Pos) (tomb : Option Tomb) → IsContinuous None writes versions →
        IsFirstPart Cache versions x upto (Gap to tomb) → (y : Pos) → covers x to y ≡ true → source_at writes y ≡ (empty_row, tomb) }
    ensures row { (writes : List Mutation) (versions : List Version) (x upto : Pos) (key : List Comp) (row : rows.Row) (tomb : Option Tomb) →
        IsContinuous None writes versions → IsFirstPart Cache versions x upto (Row key row tomb) → source_at writes x ≡ (row, tomb) }
{}

/// There is at most one first part from a place on.
pub fn a_first_part_is_the_only_one()
    ensures { (kind : ChainKind) (versions : List Version) (x upto : Pos) (one other : Part) → IsFirstPart kind versions x upto one →
        IsFirstPart kind versions x upto other → one ≡ other }
{}
