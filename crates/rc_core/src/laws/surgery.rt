//! Entries and versions put in, changed and taken out, over lists of a front, what is spoken of, and a back: each operation of a version said
//! by the list that it leaves.

ghost use Rattle.std.specs.Prelude.{◌≡◌, ◌++◌, ◌∷◌, [], ℕ, List, None, Option, length, map};
ghost use Rattle.rc_cell.specs.declared.writes.Tomb.{Tomb};
ghost use Rattle.rc_position.specs.declared.positions.Pos.{Pos};
ghost use Rattle.rc_position.specs.Position.{IsBefore};
ghost use Rattle.rc_core.specs.AtPlace.{EachEntry};
ghost use Rattle.rc_core.specs.Change.{at_entry, change, dummy, gap_split, lose_last_gap, take_out, with_gap, with_mark, with_marks, without_gap};
ghost use Rattle.rc_core.specs.Steps.{on_version, set_flags, set_tombs};
ghost use Rattle.rc_core.specs.Version.{Ascend, Behind, IsVersion, On, Version, finding_in, finding_of};
ghost use Rattle.rc_core.specs.declared.entries.Entry.{Entry};
ghost use Rattle.rc_core.specs.declared.entries.Flag.{Flag};
ghost use Rattle.rc_core.specs.declared.entries.Mark.{Mark};

/// What stands in front of an entry stands before it, and what stands at its back behind it.
pub fn entries_ascend_around_each()
    ensures front { (front : List Entry) (e : Entry) (back : List Entry) → Ascend (front ++ e ∷ back) → EachEntry (λ f. IsBefore f.position e.position) front }
    ensures back { (front : List Entry) (e : Entry) (back : List Entry) → Ascend (front ++ e ∷ back) → EachEntry (λ f. IsBefore e.position f.position) back }
{}

/// A split in the gap before an entry makes a dummy there; a split at an entry makes none.
pub fn a_split_makes_a_dummy_in_a_gap()
    ensures gap { (x : Pos) (front : List Entry) (e : Entry) (back : List Entry) → EachEntry (λ f. IsBefore f.position x) front → IsBefore x e.position →
        gap_split x (front ++ e ∷ back) ≡ front ++ dummy x e.gap ∷ e ∷ back }
    ensures entry { (front : List Entry) (e : Entry) (back : List Entry) → Ascend (front ++ e ∷ back) → gap_split e.position (front ++ e ∷ back) ≡ front ++ e ∷ back }
{}

/// What is done to the entry at a position is done to that entry alone.
pub fn one_entry_is_changed()
    ensures { (front : List Entry) (e : Entry) (back : List Entry) (f : Entry → Entry) → Ascend (front ++ e ∷ back) → at_entry e.position f (front ++ e ∷ back) ≡ front ++ f e ∷ back }
{}

/// An entry taken out leaves a mark on the gap before the next one; the last gap lost is that before the last entry.
pub fn one_entry_is_taken_out()
    ensures entry { (m : Mark) (front : List Entry) (e next : Entry) (back : List Entry) → Ascend (front ++ e ∷ next ∷ back) →
        take_out m e.position (front ++ e ∷ next ∷ back) ≡ front ++ with_gap m next ∷ back }
    ensures last { (front : List Entry) (e : Entry) → lose_last_gap (front ++ e ∷ []) ≡ front ++ without_gap e ∷ [] }
{}

/// A change from one entry on and before another: the first one's own mark, both marks of each between them, and the gap before the other.
pub fn a_change_goes_from_one_entry_to_another()
    ensures { (f : Mark → Mark) (front : List Entry) (from : Entry) (between : List Entry) (to : Entry) (back : List Entry) → Ascend (front ++ from ∷ (between ++ to ∷ back)) →
        change f from.position to.position (front ++ from ∷ (between ++ to ∷ back)) ≡ front ++ with_mark f from ∷ (map (with_marks f) between ++ with_gap (f to.gap) to ∷ back) }
{}

/// At an entry what it says itself is seen, and right behind it what the gap before the next one says.
pub fn an_entry_is_seen_at_its_position()
    ensures at { (front : List Entry) (e : Entry) (back : List Entry) → Ascend (front ++ e ∷ back) → finding_in (On e.position) (front ++ e ∷ back) ≡ finding_of e.at e.row }
    ensures behind { (front : List Entry) (e next : Entry) (back : List Entry) → Ascend (front ++ e ∷ next ∷ back) → finding_in (Behind e.position) (front ++ e ∷ next ∷ back) ≡ finding_of next.gap None }
{}

/// What is done to the version of a number is done to that one alone.
pub fn one_version_is_changed()
    ensures { (front : List Version) (v : Version) (back : List Version) (f : Version → Version) → on_version (length front) f (front ++ v ∷ back) ≡ front ++ f v ∷ back }
{}

/// Flags and tombstones set at a position leave the entries of a version.
pub fn set_marks_leave_a_version()
    ensures flags { (x : Pos) (at gap : Flag) (v : Version) → IsVersion v → IsVersion (set_flags x at gap v) }
    ensures tombs { (x : Pos) (at gap : Option Tomb) (v : Version) → IsVersion v → IsVersion (set_tombs x at gap v) }
{}
