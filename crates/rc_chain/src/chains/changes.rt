//! Changes of one version of a chain, by the number of the chain and that of the version, the oldest being 0. An object that is made in a cache chain goes to the back of the recency list; one that is replaced or dropped leaves it first.
ghost use Rattle.std.specs.Prelude.{◌≡◌, ◌+◌, ◌/◌, ◌≤◌, List as Sequence, [], Some, None, length};
ghost use Rattle.lsa_pool.specs.Room.{spare_of};
ghost use Rattle.lsa_store.specs.declared.place.Ref.{Ref as Name};
ghost use Rattle.rc_cell.specs.declared.rows.Row.{Row as Cells};
ghost use Rattle.rc_position.specs.declared.positions.Pos.{Pos as Position};
ghost use Rattle.rc_position.specs.Position.{IsBefore, row_pos};
ghost use Rattle.rc_rowcode.specs.Objects.{dummy_size, static_size};
ghost use Rattle.rc_rowcode.specs.Spelling.{row_code, KeyFits, RowFits};
ghost use Rattle.rc_core.specs.AtPlace.{HasEntryAt};
ghost use Rattle.rc_core.specs.Change as change;
ghost use Rattle.rc_core.specs.Continuity.{with_entries, without_statics};
ghost use Rattle.rc_core.specs.Steps as steps;
ghost use Rattle.rc_core.specs.Version.{On, Version, end_position, finding_in};
ghost use Rattle.rc_object.specs.Objects.{IsRowCode};
ghost use Rattle.rc_version.specs.Versions.{IsVersionOf, bytes_at, joined_bytes, known_between, mark_after, marked_between};
ghost use Rattle.rc_memory.specs.Memory.{KeptChain, Member, HasVersion, IsMemberObject};
ghost use Rattle.rc_memory.specs.Changes.{AtAlone, FitsChanged, IsRenewed, IsRenewedWhereNone, IsVersionChanged, IsWithout, KeepsLast, LastIsListed, Nowhere, OfVersion, member_at};

use super::Chains;
use lsa_region::{Ref, Region};
use rc_cell::{Row, Tomb};
use rc_core::Flag;
use rc_object::row_code;
use rc_position::{Key, Pos};
use rc_rowcode::laws::joined_row_has_a_code;
use rc_rowcode::{Scratch, join_codes};
use rc_version::{Marking, static_row};

impl<const S: usize> Chains<S> {
    /// Gives an entry of a chain other flags, at it and over the gap before it. Its tombstones stay.
    pub fn set_flags(&mut self, e: Ref, at: Flag, gap: Flag)
        requires { (w : Member) × (x : Position) × (w.position ≡ Some x) × IsMemberObject self.old e w }
        ensures set { (w : Member) (x : Position) → w.position ≡ Some x → IsMemberObject self.old e w → IsVersionChanged w.chain w.version (steps.set_flags x at gap) Nowhere self.old self.new }
        ensures recency { self.new.recency ≡ self.old.recency }
        ensures spare { spare_of S self.new.region.usages ≡ spare_of S self.old.region.usages }
    {
        rc_recency::set_flags(&mut self.region, e, at, gap);
    }

    /// Gives an entry of a chain other range tombstones, at it and over the gap before it. Its flags stay.
    pub fn set_tombs(&mut self, e: Ref, at: Option<Tomb>, gap: Option<Tomb>)
        requires { (w : Member) × (x : Position) × (w.position ≡ Some x) × IsMemberObject self.old e w }
        ensures set { (w : Member) (x : Position) → w.position ≡ Some x → IsMemberObject self.old e w → IsVersionChanged w.chain w.version (steps.set_tombs x at gap) Nowhere self.old self.new }
        ensures recency { self.new.recency ≡ self.old.recency }
        ensures spare { spare_of S self.new.region.usages ≡ spare_of S self.old.region.usages }
    {
        rc_recency::set_tombs(&mut self.region, e, at, gap);
    }

    /// Joins a partition tombstone to that of a version: the greater one stands.
    pub fn join_pt(&mut self, id: u64, number: u64, tomb: Tomb)
        requires { HasVersion self.old id number }
        ensures joined { IsVersionChanged id number (steps.join_pt tomb) Nowhere self.old self.new }
        ensures recency { self.new.recency ≡ self.old.recency }
        ensures spare { spare_of S self.new.region.usages ≡ spare_of S self.old.region.usages }
    {
        let v = self.version(id, number);
        rc_recency::join_pt(&mut self.region, v, tomb);
    }

    /// Gives the static row of a version another flag, also where there is no static row.
    pub fn set_static_flag(&mut self, id: u64, number: u64, flag: Flag)
        requires { HasVersion self.old id number }
        ensures set { IsVersionChanged id number (steps.set_static_flag flag) Nowhere self.old self.new }
        ensures recency { self.new.recency ≡ self.old.recency }
        ensures spare { spare_of S self.new.region.usages ≡ spare_of S self.old.region.usages }
    {
        let v = self.version(id, number);
        rc_recency::set_static_flag(&mut self.region, v, flag);
    }

    // Gives a version another phase.
    pub(super) fn set_phase(&mut self, id: u64, number: u64, phase: u64)
        requires { HasVersion self.old id number }
        ensures set { IsVersionChanged id number (steps.with_phase phase) Nowhere self.old self.new }
        ensures recency { self.new.recency ≡ self.old.recency }
        ensures spare { spare_of S self.new.region.usages ≡ spare_of S self.old.region.usages }
    {
        let v = self.version(id, number);
        rc_recency::set_phase(&mut self.region, v, phase);
    }

    // Changes the marks of a version from one position on and before another, at both of which entries stand: at each entry and over each gap between them.
    fn mark_between(&mut self, id: u64, number: u64, from: &Pos, to: &Pos, marking: Marking)
        requires ascend { IsBefore from.now to.now }
        requires version { HasVersion self.old id number }
        requires entries { OfVersion self.old id number (λ k v. HasEntryAt from.now v.entries × HasEntryAt to.now v.entries) }
        ensures marked { IsVersionChanged id number (marked_between (mark_after marking) from.now to.now) Nowhere self.old self.new }
        ensures recency { self.new.recency ≡ self.old.recency }
        ensures spare { spare_of S self.new.region.usages ≡ spare_of S self.old.region.usages }
    {
        let v = self.version(id, number);
        rc_recency::mark_between(&mut self.region, v, from, to, marking);
    }

    /// The entry of a version at a position. Where there is none, a dummy is made with the flag and the tombstone of the gap there, so that no answer at any position changes; in a cache chain it goes to the back of the recency list. Where an update stands in the version, its last entry before the end stays the last one, or is in the recency list.
    pub fn split(&mut self, id: u64, number: u64, x: &Pos) -> Ref
        requires limits { KeyFits x.now.prefix }
        requires version { HasVersion self.old id number }
        requires spare { dummy_size x.now ≤ spare_of S self.old.region.usages }
        requires fits { dummy_size x.now ≤ S / 8 }
        requires last { KeepsLast id number (λ c. with_entries (change.gap_split x.now c.entries) c) self.old }
        ensures changed { IsVersionChanged id number (λ c. with_entries (change.gap_split x.now c.entries) c) Nowhere self.old self.new }
        ensures recency { OfVersion self.old id number (λ k v. IsRenewedWhereNone k.chain.kind v (member_at id number (Some x.now)) self.old.recency self.new.recency) }
        ensures here { IsMemberObject self.new result (member_at id number (Some x.now)) }
        ensures spare { spare_of S self.old.region.usages ≤ spare_of S self.new.region.usages + dummy_size x.now }
    {
        let v = self.version(id, number);
        let kind = self.kind(id);
        rc_recency::split(
            &mut self.region,
            &self.recency,
            kind,
            v,
            x,
            &mut self.scratch,
        )
    }

    /// The entry of a version at the position of an entry of another version; else as `split`.
    pub fn split_like(&mut self, id: u64, number: u64, e: Ref) -> Ref
        requires version { HasVersion self.old id number }
        requires entry { (w : Member) × (x : Position) × (w.position ≡ Some x) × IsMemberObject self.old e w × (dummy_size x ≤ spare_of S self.old.region.usages) × KeepsLast id number (λ c. with_entries (change.gap_split x c.entries) c) self.old }
        ensures changed { (w : Member) (x : Position) → w.position ≡ Some x → IsMemberObject self.old e w → IsVersionChanged id number (λ c. with_entries (change.gap_split x c.entries) c) Nowhere self.old self.new }
        ensures recency { (w : Member) (x : Position) → w.position ≡ Some x → IsMemberObject self.old e w → OfVersion self.old id number (λ k v. IsRenewedWhereNone k.chain.kind v (member_at id number (Some x)) self.old.recency self.new.recency) }
        ensures here { (w : Member) (x : Position) → w.position ≡ Some x → IsMemberObject self.old e w → IsMemberObject self.new result (member_at id number (Some x)) }
        ensures spare { (w : Member) (x : Position) → w.position ≡ Some x → IsMemberObject self.old e w → spare_of S self.old.region.usages ≤ spare_of S self.new.region.usages + dummy_size x }
    {
        let v = self.version(id, number);
        let kind = self.kind(id);
        rc_recency::split_like(
            &mut self.region,
            &self.recency,
            kind,
            v,
            e,
            &mut self.scratch,
        )
    }

    /// Takes an entry of a version out and frees it, which is not the end dummy: the gap before the next one is Unknown then, and without a tombstone. It leaves the recency list, where it is in it.
    pub fn drop_entry(&mut self, id: u64, number: u64, e: Ref)
        requires { (x : Position) × IsMemberObject self.old e (member_at id number (Some x)) × (x ≡ end_position → ⊥) }
        ensures dropped { (x : Position) → IsMemberObject self.old e (member_at id number (Some x)) → IsVersionChanged id number (λ c. with_entries (change.drop_at x c.entries) c) (AtAlone (member_at id number (Some x))) self.old self.new }
        ensures recency { (x : Position) → IsMemberObject self.old e (member_at id number (Some x)) → IsWithout (member_at id number (Some x)) self.old.recency self.new.recency }
        ensures spare { spare_of S self.new.region.usages ≡ spare_of S self.old.region.usages }
    {
        let v = self.version(id, number);
        rc_recency::drop_entry(&mut self.region, &self.recency, v, e);
    }

    /// Takes the static row of a version out and frees it; its flag is Unknown then, also where there was none. It leaves the recency list, where it is in it.
    pub fn drop_static(&mut self, id: u64, number: u64)
        requires { HasVersion self.old id number }
        ensures dropped { IsVersionChanged id number without_statics (AtAlone (member_at id number None)) self.old self.new }
        ensures recency { IsWithout (member_at id number None) self.old.recency self.new.recency }
        ensures spare { spare_of S self.new.region.usages ≡ spare_of S self.old.region.usages }
    {
        let v = self.version(id, number);
        rc_recency::drop_static(&mut self.region, &self.recency, v);
    }

    /// Joins a row to what a version has at a key. The entry there is made anew and keeps its flags and tombstones; where there is none, it takes those of the gap. In a cache chain it goes to the back of the recency list.
    pub fn join_row(&mut self, id: u64, number: u64, key: &Key, row: &Row) -> Ref
        requires key { KeyFits key.now }
        requires row { RowFits row.now × (bytes_at (row_pos key.now) (Some row.now) ≤ S / 8) }
        requires version { HasVersion self.old id number }
        requires spare { OfVersion self.old id number (λ k v. joined_bytes (row_pos key.now) row.now v ≤ spare_of S self.old.region.usages) }
        requires fits { FitsChanged S id number (steps.row_joined (row_pos key.now) row.now) self.old }
        requires last { KeepsLast id number (steps.row_joined (row_pos key.now) row.now) self.old }
        ensures joined { IsVersionChanged id number (steps.row_joined (row_pos key.now) row.now) (AtAlone (member_at id number (Some (row_pos key.now)))) self.old self.new }
        ensures recency { OfVersion self.old id number (λ k v. IsRenewed k.chain.kind (member_at id number (Some (row_pos key.now))) self.old.recency self.new.recency) }
        ensures here { IsMemberObject self.new result (member_at id number (Some (row_pos key.now))) }
        ensures spare { OfVersion self.old id number (λ k v. spare_of S self.old.region.usages ≤ spare_of S self.new.region.usages + joined_bytes (row_pos key.now) row.now v) }
    {
        let v = self.version(id, number);
        let kind = self.kind(id);
        self.other.clear();
        self.other.put_row(row);
        rc_recency::join_row(
            &mut self.region,
            &self.recency,
            kind,
            v,
            key,
            self.other.bytes(),
            &mut self.scratch,
        )
    }

    /// Joins a row to the static row of a version, which has this flag then, and is made anew: in a cache chain it goes to the back of the recency list.
    pub fn join_static(&mut self, id: u64, number: u64, row: &Row, flag: Flag)
        requires row { RowFits row.now × (static_size row.now ≤ S / 8) }
        requires version { HasVersion self.old id number }
        requires spare { OfVersion self.old id number (λ k v. static_size (change.joined_onto v.statics row.now) ≤ spare_of S self.old.region.usages) }
        requires fits { FitsChanged S id number (steps.join_flagged_statics row.now flag) self.old }
        ensures joined { IsVersionChanged id number (steps.join_flagged_statics row.now flag) (AtAlone (member_at id number None)) self.old self.new }
        ensures recency { OfVersion self.old id number (λ k v. IsRenewed k.chain.kind (member_at id number None) self.old.recency self.new.recency) }
        ensures spare { OfVersion self.old id number (λ k v. spare_of S self.old.region.usages ≤ spare_of S self.new.region.usages + static_size (change.joined_onto v.statics row.now)) }
    {
        let v = self.version(id, number);
        let kind = self.kind(id);
        self.other.clear();
        self.other.put_row(row);
        self.scratch.clear();
        put_joined(&self.region, v, self.other.bytes(), &mut self.scratch);
        rc_recency::set_static(
            &mut self.region,
            &self.recency,
            kind,
            v,
            self.scratch.bytes(),
            flag,
        );
    }

    /// Joins the row of an object of another version, which has one, to what a version has in its place: as `join_row` at the position of an entry, or to the static row, whose flag stays.
    pub fn join_like(&mut self, id: u64, number: u64, e: Ref) -> Ref
        requires version { HasVersion self.old id number }
        requires there { (w : Member) × IsMemberObject self.old e w }
        requires entry { (w : Member) (x : Position) → IsMemberObject self.old e w → w.position ≡ Some x → (row : Cells) × OfVersion self.old w.chain w.version (λ k v. (finding_in (On x) v.entries).row ≡ Some row) × OfVersion self.old id number (λ k v. joined_bytes x row v ≤ spare_of S self.old.region.usages) × FitsChanged S id number (steps.row_joined x row) self.old × KeepsLast id number (steps.row_joined x row) self.old }
        requires statics { (w : Member) (row : Cells) → IsMemberObject self.old e w → w.position ≡ None → OfVersion self.old w.chain w.version (λ k v. v.statics ≡ Some row) → OfVersion self.old id number (λ k v. static_size (change.joined_onto v.statics row) ≤ spare_of S self.old.region.usages) × FitsChanged S id number (steps.join_statics row) self.old }
        ensures entry { (w : Member) (x : Position) (row : Cells) → IsMemberObject self.old e w → w.position ≡ Some x → OfVersion self.old w.chain w.version (λ k v. (finding_in (On x) v.entries).row ≡ Some row) → IsVersionChanged id number (steps.row_joined x row) (AtAlone (member_at id number (Some x))) self.old self.new × OfVersion self.old id number (λ k v. IsRenewed k.chain.kind (member_at id number (Some x)) self.old.recency self.new.recency) × IsMemberObject self.new result (member_at id number (Some x)) }
        ensures entry_spare { (w : Member) (x : Position) (row : Cells) → IsMemberObject self.old e w → w.position ≡ Some x → OfVersion self.old w.chain w.version (λ k v. (finding_in (On x) v.entries).row ≡ Some row) → OfVersion self.old id number (λ k v. spare_of S self.old.region.usages ≤ spare_of S self.new.region.usages + joined_bytes x row v) }
        ensures statics { (w : Member) (row : Cells) → IsMemberObject self.old e w → w.position ≡ None → OfVersion self.old w.chain w.version (λ k v. v.statics ≡ Some row) → IsVersionChanged id number (steps.join_statics row) (AtAlone (member_at id number None)) self.old self.new × OfVersion self.old id number (λ k v. IsRenewed k.chain.kind (member_at id number None) self.old.recency self.new.recency) × IsMemberObject self.new result (member_at id number None) }
        ensures statics_spare { (w : Member) (row : Cells) → IsMemberObject self.old e w → w.position ≡ None → OfVersion self.old w.chain w.version (λ k v. v.statics ≡ Some row) → OfVersion self.old id number (λ k v. spare_of S self.old.region.usages ≤ spare_of S self.new.region.usages + static_size (change.joined_onto v.statics row)) }
    {
        let v = self.version(id, number);
        let kind = self.kind(id);
        rc_recency::join_like(
            &mut self.region,
            &self.recency,
            kind,
            v,
            e,
            &mut self.scratch,
        )
    }

    /// Joins a range tombstone to a version, from one position on and before another: the greater one stands at each entry between them and over each gap. Where no entry stands at one of them, a dummy is made there, as `split` makes it.
    pub fn join_range(&mut self, id: u64, number: u64, from: &Pos, to: &Pos, tomb: Tomb)
        requires ascend { IsBefore from.now to.now }
        requires limits { KeyFits from.now.prefix × KeyFits to.now.prefix }
        requires version { HasVersion self.old id number }
        requires fits { (dummy_size from.now ≤ S / 8) × (dummy_size to.now ≤ S / 8) }
        requires spare { dummy_size from.now + dummy_size to.now ≤ spare_of S self.old.region.usages }
        requires last { LastIsListed id self.old }
        ensures joined { IsVersionChanged id number (steps.range_joined from.now to.now tomb) Nowhere self.old self.new }
        ensures recency { OfVersion self.old id number (λ k v. (mid : Sequence Member) × IsRenewedWhereNone k.chain.kind v (member_at id number (Some from.now)) self.old.recency mid × IsRenewedWhereNone k.chain.kind v (member_at id number (Some to.now)) mid self.new.recency) }
        ensures spare { spare_of S self.old.region.usages ≤ spare_of S self.new.region.usages + (dummy_size from.now + dummy_size to.now) }
    {
        let _ = &self.region;
        self.split(id, number, from);
        self.split(id, number, to);
        self.mark_between(id, number, from, to, Marking::Raise(tomb));
    }

    /// Makes a version say of each entry from one position on and before another, at both of which entries stand, and over each gap between them, that it is known, and that this range tombstone, or none, is in force. The entry at the end itself stays, and so do all rows.
    pub fn know_between(&mut self, id: u64, number: u64, from: &Pos, to: &Pos, tomb: Option<Tomb>)
        requires ascend { IsBefore from.now to.now }
        requires version { HasVersion self.old id number }
        requires entries { OfVersion self.old id number (λ k v. HasEntryAt from.now v.entries × HasEntryAt to.now v.entries) }
        ensures known { IsVersionChanged id number (known_between from.now to.now tomb) Nowhere self.old self.new }
        ensures recency { self.new.recency ≡ self.old.recency }
        ensures spare { spare_of S self.new.region.usages ≡ spare_of S self.old.region.usages }
    {
        self.mark_between(id, number, from, to, Marking::Know(tomb));
    }
}

// Puts the code of the static row of a version with the row of this code joined, into a space in which nothing is; where it has none, this code.
fn put_joined<const S: usize>(region: &Region<S>, v: Ref, code: &[u8], scratch: &mut Scratch)
    requires empty { scratch.old.bytes ≡ [] }
    requires room { (refs : Sequence Name) × (c : Version) × (row : Cells) × IsVersionOf region.now v refs c × IsRowCode code.now row × (length (row_code (change.joined_onto c.statics row)) ≤ scratch.old.size) }
    ensures joined { (refs : Sequence Name) (c : Version) (row : Cells) → IsVersionOf region.now v refs c → IsRowCode code.now row → IsRowCode scratch.new.bytes (change.joined_onto c.statics row) }
    ensures size { scratch.new.size ≡ scratch.old.size }
{
    joined_row_has_a_code();
    match static_row(region, v) {
        Some(s) => join_codes(row_code(region, s), code, scratch),
        None => scratch.put(code),
    }
}
