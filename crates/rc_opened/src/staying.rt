// What is left to an open reader while other calls change the chains.
ghost use Rattle.std.specs.Prelude.{List};
ghost use Rattle.rc_mutation.specs.declared.mutations.Mutation.{Mutation};
ghost use Rattle.rc_memory.specs.Memory.{Memory};
ghost use Rattle.rc_query.specs.declared.lines.OutLine.{OutLine};
ghost use Rattle.rc_opened.specs.declared.opened.Opened.{Opened as Reader};
ghost use Rattle.rc_stream.specs.Stream.{Stream};
ghost use Rattle.rc_opened.specs.Opened.{no_files, snaps_of};
ghost use Rattle.rc_snapshots.specs.Seeing.{SeeSameChanges, SeesAllOf, StillSeeBoth};
ghost use Rattle.rc_opened.specs.Written.{IsStreamOf, snap_in};

use crate::no_files::NoFiles;
use crate::opened::{Leaves, Opened};
use crate::written::Written;
use rc_chain::Chains;
use rc_outside::Store;
use rc_snapshots::laws::{a_snapshot_sees_what_it_saw, a_snapshots_stream_stays};
use rc_stream::{Frags, ListFrags, Merge};

// Where what both parts of a merge stand for stays, over another home and another store, so does what the merge stands for.
fn a_merge_stays<H, W: Store, A: Frags<H, W>, B: Frags<H, W>>()
    ensures { (m : Merge A B) (h k : H) (w v : W) (s : Stream) → ((t : Stream) → A.seen m.ours.stream h w t → A.seen m.ours.stream k v t) → ((t : Stream) → B.seen m.theirs.stream h w t → B.seen m.theirs.stream k v t) →
        ⟦<Merge<A, B> as Frags<H, W>>⟧.seen m h w s → ⟦<Merge<A, B> as Frags<H, W>>⟧.seen m k v s }
{}

// What is written of a partition is ready, and stands for what it stood for, where its snapshot sees what the same changes say.
fn what_is_written_stays<const S: usize>()
    ensures ready { (r : Written) (changes : List Mutation) (m n : Memory) → IsStreamOf (snap_in r.stream) r.stream → SeesAllOf changes m (snap_in r.stream) → SeesAllOf changes n (snap_in r.stream) →
        ⟦<Written as Frags<Chains<S>, NoFiles>>⟧.ready r m no_files → ⟦<Written as Frags<Chains<S>, NoFiles>>⟧.ready r n no_files }
    ensures seen { (r : Written) (changes : List Mutation) (m n : Memory) (s : Stream) → IsStreamOf (snap_in r.stream) r.stream → SeesAllOf changes m (snap_in r.stream) → SeesAllOf changes n (snap_in r.stream) →
        ⟦<Written as Frags<Chains<S>, NoFiles>>⟧.seen r m no_files s → ⟦<Written as Frags<Chains<S>, NoFiles>>⟧.seen r n no_files s }
{
    a_snapshots_stream_stays::<S, NoFiles>();
}

/// Whatever calls change of the chains, versions too, the same lines are left to an open reader where its snapshots see what the same changes say.
pub fn what_is_left_stays_where_the_snapshots_see_the_same_changes<const S: usize>()
    ensures { (o : Reader) (m n : Memory) (lines : List OutLine) → SeeSameChanges (snaps_of o) m n →
        ⟦<Opened as Leaves<Chains<S>>>⟧.lines o m lines → ⟦<Opened as Leaves<Chains<S>>>⟧.lines o n lines }
{
    a_snapshot_sees_what_it_saw();
    what_is_written_stays::<S>();
    a_merge_stays::<Chains<S>, NoFiles, Written, Written>();
    a_merge_stays::<Chains<S>, NoFiles, ListFrags, Merge<Written, Written>>();
}

/// So they are where its snapshots are there still and see what they saw.
pub fn what_is_left_stays_where_the_snapshots_see_the_same<const S: usize>()
    ensures { (o : Reader) (m n : Memory) (lines : List OutLine) → StillSeeBoth (snaps_of o) m n →
        ⟦<Opened as Leaves<Chains<S>>>⟧.lines o m lines → ⟦<Opened as Leaves<Chains<S>>>⟧.lines o n lines }
{
    a_snapshot_sees_what_it_saw();
    what_is_left_stays_where_the_snapshots_see_the_same_changes::<S>();
}
