//! Versions over one another: added, dropped, counted and found.
ghost use Rattle.std.specs.Prelude.{◌≡◌, ◌≢◌, ◌+◌, ◌/◌, ◌≤◌, List, [], ◌∷◌, ◌++◌, length, Some, None, Contains};
ghost use Rattle.lsa_pool.specs.Room.{spare_of};
ghost use Rattle.lsa_store.specs.declared.place.Ref.{Ref as Name};
ghost use Rattle.lsa_region.specs.declared.end.Root.{Root as Place};
ghost use Rattle.lsa_region.specs.declared.end.End.TheVariants.{Obj};
ghost use Rattle.lsa_region.specs.Region.{body, link_of, slots_of, IsWell};
ghost use Rattle.lsa_list.specs.declared.recency.List.{List as Slots};
ghost use Rattle.rc_core.specs.Steps.{version_of};
ghost use Rattle.rc_core.specs.Version.{Version};
ghost use Rattle.rc_version.specs.Versions.{IsMarked, IsUnlisted, IsVersionOf};
ghost use Rattle.rc_partition.specs.Partitions.{PartitionEntry, StandingVersion, AreStanding, IsRowOfVersion, IsRowOfAny, among, partition_of, standing};

use crate::walks::{below_newer, chained, owner, root_over};
use lsa_path::{insert_behind, take_out};
use lsa_region::{End, Ref, Region, Root};
use rc_cell::Tomb;
use rc_core::Flag;
use rc_version::{free_version, new_version};

/// Puts a new version over those of a partition: its end dummy alone, whose flags are all this one, and which is in no list. It takes 152 bytes.
pub fn add_version<const S: usize>(
    region: &mut Region<S>,
    root: Root,
    flag: Flag,
    pt: Option<Tomb>,
    phase: u64,
) -> Ref
    requires stands { (slots : Slots) × (front : List PartitionEntry) × (versions : List StandingVersion) × (back : List PartitionEntry) × (listed : List Name) × AreStanding slots region.old (front ++ (partition_of root versions ∷ back)) listed }
    requires fits { 88 ≤ S / 8 }
    requires spare { 152 ≤ spare_of S region.old.usages }
    ensures added { (slots : Slots) (front : List PartitionEntry) (versions : List StandingVersion) (back : List PartitionEntry) (listed : List Name) → AreStanding slots region.old (front ++ (partition_of root versions ∷ back)) listed →
        (end : Name) × AreStanding slots region.new (front ++ (partition_of root (versions ++ (standing result (end ∷ []) (version_of flag pt phase) ∷ [])) ∷ back)) listed × IsUnlisted region.new end }
    ensures fresh { body region.old result ≡ None }
    ensures statics { (q : Name) (refs : List Name) (d : Version) → IsVersionOf region.old q refs d → link_of region.new (Obj q 3) ≡ link_of region.old (Obj q 3) }
    ensures spare { spare_of S region.old.usages ≤ spare_of S region.new.usages + 152 }
    ensures epoch { IsMarked region.old region.new }
    ensures slots { slots_of region.new ≡ slots_of region.old }
    ensures budget { length region.new.usages ≡ length region.old.usages }
    ensures moved { region.new.moved ≡ region.old.moved }
    ensures compacted { region.new.compacted ≡ region.old.compacted }
    ensures well { IsWell region.new }
{
    region.known();
    let n = new_version(region, flag, pt, phase);
    insert_behind(region, End::Slot(root), n, 1, 0);
    n
}

/// Takes a version out of a partition and frees it: nothing but its end dummy is left of it, which is in no list.
pub fn drop_version<const S: usize>(region: &mut Region<S>, _root: Root, n: Ref)
    requires stands { (slots : Slots) × (front : List PartitionEntry) × (older : List StandingVersion) × (end : Name) × (c : Version) × (newer : List StandingVersion) × (back : List PartitionEntry) × (listed : List Name) ×
        AreStanding slots region.old (among front _root older (standing n (end ∷ []) c) newer back) listed × (c.statics ≡ None) × IsUnlisted region.old end }
    ensures dropped { (slots : Slots) (front : List PartitionEntry) (older : List StandingVersion) (s : StandingVersion) (newer : List StandingVersion) (back : List PartitionEntry) (listed : List Name) → s.object ≡ n →
        AreStanding slots region.old (among front _root older s newer back) listed → AreStanding slots region.new (front ++ (partition_of _root (older ++ newer) ∷ back)) listed }
    ensures gone { body region.new n ≡ None }
    ensures statics { (q : Name) (refs : List Name) (d : Version) → q ≢ n → IsVersionOf region.old q refs d → link_of region.new (Obj q 3) ≡ link_of region.old (Obj q 3) }
    ensures spare { spare_of S region.new.usages ≡ spare_of S region.old.usages }
    ensures epoch { IsMarked region.old region.new }
    ensures slots { slots_of region.new ≡ slots_of region.old }
    ensures budget { length region.new.usages ≡ length region.old.usages }
    ensures moved { region.new.moved ≡ region.old.moved }
    ensures compacted { region.new.compacted ≡ region.old.compacted }
    ensures well { IsWell region.new }
{
    region.known();
    take_out(region, n, 1, 0);
    free_version(region, n);
}

/// How many versions a partition has. It takes as many steps.
pub fn count<const S: usize>(region: &Region<S>, root: Root) -> u64
    requires { (slots : Slots) × (front : List PartitionEntry) × (versions : List StandingVersion) × (back : List PartitionEntry) × (listed : List Name) × AreStanding slots region.now (front ++ (partition_of root versions ∷ back)) listed }
    ensures { (slots : Slots) (front : List PartitionEntry) (versions : List StandingVersion) (back : List PartitionEntry) (listed : List Name) → AreStanding slots region.now (front ++ (partition_of root versions ∷ back)) listed → result ≡ length versions }
{
    region.known();
    chained(region, End::Slot(root))
}

/// The object of a version of a partition, by its number, the oldest being 0. It takes as many steps as there are versions.
pub fn version<const S: usize>(region: &Region<S>, root: Root, number: u64) -> Ref
    requires { (slots : Slots) × (front : List PartitionEntry) × (older : List StandingVersion) × (s : StandingVersion) × (newer : List StandingVersion) × (back : List PartitionEntry) × (listed : List Name) × AreStanding slots region.now (among front root older s newer back) listed × (length older ≡ number) }
    ensures { (slots : Slots) (front : List PartitionEntry) (older : List StandingVersion) (s : StandingVersion) (newer : List StandingVersion) (back : List PartitionEntry) (listed : List Name) → AreStanding slots region.now (among front root older s newer back) listed → length older ≡ number → result ≡ s.object }
{
    region.known();
    let newer = count(region, root) - 1 - number;
    below_newer(region, root, newer)
}

/// The partition and the number of the version of which an object is an entry or the static row. It takes as many steps as the search in that version, and
/// as there are versions.
pub fn home<const S: usize>(region: &Region<S>, r: Ref) -> (Root, u64)
    requires { (slots : Slots) × (partitions : List PartitionEntry) × (listed : List Name) × AreStanding slots region.now partitions listed × IsRowOfAny region.now partitions r }
    ensures { (slots : Slots) (front : List PartitionEntry) (root : Place) (older : List StandingVersion) (s : StandingVersion) (newer : List StandingVersion) (back : List PartitionEntry) (listed : List Name) → AreStanding slots region.now (among front root older s newer back) listed →
        IsRowOfVersion region.now s r → result ≡ (root, length older) }
{
    region.known();
    let n = owner(region, r);
    (root_over(region, n), chained(region, End::Obj(n, 0)))
}
