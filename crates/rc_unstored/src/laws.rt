//! The laws of what both memtables stand for, of what snapshots see, and of the room that calls leave, each the contract of a function that does nothing.
ghost use Rattle.std.specs.Prelude.{◌≡◌, ◌≤◌, ◌+◌, ◌++◌, ◌||◌, ℕ, List, Option, Some, length, map};
ghost use Rattle.lsa_region.specs.Region.{live_bytes};
ghost use Rattle.rc_schema.specs.SchemaValue.{SchemaValue};
ghost use Rattle.rc_mutation.specs.declared.mutations.Write.{Write};
ghost use Rattle.rc_mutation.specs.Source.{SameSource, changes_to};
ghost use Rattle.rc_writes.specs.Weight.{weight};
ghost use Rattle.rc_memory.specs.Memory.{IsUntouched, Memory, chain_at};
ghost use Rattle.rc_memory.specs.Recency.{IsRecency};
ghost use Rattle.rc_evict.specs.Evictions.{IsRoomMade};
ghost use Rattle.rc_memtable.specs.LetGo.{AreLetGo, NoCountFell, TakesNoMore};
ghost use Rattle.rc_memtable.specs.Partitions.{AreAsBefore};
ghost use Rattle.rc_memtable.specs.Writes.{DoAscend, chain_of, names};
ghost use Rattle.rc_evict.specs.Snap.{Snap};
ghost use Rattle.rc_snapshots.specs.Seeing.{AllStillSee, AreSameSnapshots, HasSnap, SeesAllOf};
ghost use Rattle.rc_unstored.specs.declared.unstored.Unstored.{Unstored};
ghost use Rattle.rc_unstored.specs.Memtables.{HaveWrites, in_chains};
ghost use Rattle.rc_unstored.specs.Readers.{IsReleased, IsSnapshotOfKey, IsTakenIf};
ghost use Rattle.rc_unstored.specs.Steps.{AreObjectsMoved, IsNotPut, IsPutBehind, IsPutRefused};

use rc_evict::laws::{evictions_leave_the_use_of_a_chain, evictions_spare_memtables_and_readers};
use rc_memtable::laws::{
    what_is_let_go_takes_no_more, what_leaves_a_memtables_chains_leaves_its_writes,
};

/// What is written of a partition is one thing for its readers: what is sealed of it, and then what is written since. A write of both names its key exactly where one of either does.
pub fn both_say_what_was_written()
    ensures changes { (key : List ℕ) (writes later : List Write) → changes_to key (writes ++ later) ≡ changes_to key writes ++ changes_to key later }
    ensures named { (key : List ℕ) (writes later : List Write) → names key (writes ++ later) ≡ names key writes || names key later }
{}

/// Both memtables stand for the same writes where objects moved, where room was made, where their own chains are as they were, whatever becomes of others, and for any other lists that name the same keys and say the same of each.
pub fn what_leaves_the_chains_of_both_leaves_their_writes()
    ensures moved { (S : ℕ) (schema : SchemaValue) (u : Unstored S) (m : Memory) (writes later : List Write) → IsUntouched u.chains m → HaveWrites schema u writes later → HaveWrites schema (in_chains m u) writes later }
    ensures made { (S : ℕ) (schema : SchemaValue) (u : Unstored S) (m : Memory) (writes later : List Write) → IsRecency u.chains → IsRoomMade S u.chains m → HaveWrites schema u writes later → HaveWrites schema (in_chains m u) writes later }
    ensures beside { (S : ℕ) (schema : SchemaValue) (u : Unstored S) (m : Memory) (writes later : List Write) → ((key : List ℕ) (id : ℕ) → chain_of u.sealed key ≡ Some id → chain_at m id ≡ chain_at u.chains id) → ((key : List ℕ) (id : ℕ) → chain_of u.active key ≡ Some id → chain_at m id ≡ chain_at u.chains id) →
        HaveWrites schema u writes later → HaveWrites schema (in_chains m u) writes later }
    ensures alike { (S : ℕ) (schema : SchemaValue) (u : Unstored S) (writes later others more : List Write) → ((key : List ℕ) → names key others ≡ names key writes) → ((key : List ℕ) → SameSource (changes_to key writes) (changes_to key others)) →
        ((key : List ℕ) → names key more ≡ names key later) → ((key : List ℕ) → SameSource (changes_to key later) (changes_to key more)) → HaveWrites schema u writes later → HaveWrites schema u others more }
{
    evictions_spare_memtables_and_readers();
    what_leaves_a_memtables_chains_leaves_its_writes();
}

/// Where objects moved the snapshots are those that were there, and see what they saw.
pub fn moved_objects_are_seen_as_before()
    ensures { (old new : Memory) → IsUntouched old new → AreSameSnapshots old new }
{}

/// Where room was made each snapshot of a memtable's chain sees what it saw, and each snapshot that was there is there, where the recency list keeps its rule.
pub fn room_is_made_beside_what_memtables_see()
    ensures { (S : ℕ) (old new : Memory) → IsRecency old → IsRoomMade S old new → AllStillSee old new }
{
    evictions_leave_the_use_of_a_chain();
    evictions_spare_memtables_and_readers();
}

/// A snapshot of a key sees what is written of its partition; where there is none, nothing is.
pub fn what_a_snapshot_of_a_key_sees()
    ensures { (key : List ℕ) (writes : List Write) (old new : Memory) (found : Option Snap) → IsSnapshotOfKey key writes old new found → SeesAllOf (changes_to key writes) new found }
{}

/// After each call the region has as many segments, and no count is less. By a write that was put what is live is more by at most its weight; by none of the others is it more: where objects moved, where room was made, where no write was put, where snapshots were taken, where one that was there was taken back, where the sealed writes were let go, and where chains are as they were.
pub fn what_a_call_leaves_of_the_room()
    ensures put { (S : ℕ) (schema : SchemaValue) (w : Write) (old new : Unstored S) → IsPutBehind schema w old new → (length new.chains.region.usages ≡ length old.chains.region.usages) × (live_bytes new.chains.region ≤ live_bytes old.chains.region + weight w.change) × NoCountFell old.chains new.chains }
    ensures moved { (old new : Memory) → AreObjectsMoved old new → TakesNoMore old new }
    ensures made { (S : ℕ) (old new : Memory) → IsRoomMade S old new → TakesNoMore old new }
    ensures not_put { (S : ℕ) (old new : Unstored S) → IsNotPut old new → TakesNoMore old.chains new.chains }
    ensures refused { (S : ℕ) (old new : Unstored S) → IsPutRefused old new → TakesNoMore old.chains new.chains }
    ensures taken { (old mid new : Memory) (first second : Option Snap) → IsTakenIf old mid first → IsTakenIf mid new second → TakesNoMore old new }
    ensures released { (s : Snap) (old new : Memory) → HasSnap old s → IsReleased s old new → TakesNoMore old new }
    ensures let_go { (S : ℕ) (schema : SchemaValue) (u : Unstored S) (new : Memory) (writes later : List Write) → DoAscend u.sealed → HaveWrites schema u writes later → AreLetGo (map (λ e. e.1) u.sealed) u.chains new → TakesNoMore u.chains new }
    ensures before { (old new : Memory) → AreAsBefore old new → TakesNoMore old new }
{
    what_is_let_go_takes_no_more();
}
