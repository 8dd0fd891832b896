// What fragments say, filled into a snapshot.
ghost use Rattle.std.specs.Prelude.{◌≡◌, ◌≢◌, ◌*◌, ◌/◌, ◌<◌, ◌≤◌, ◌^◌, List, None, OnOk};
ghost use Rattle.rc_cell.specs.Winner.{empty_row};
ghost use Rattle.rc_mutation.specs.declared.mutations.Mutation.{Mutation};
ghost use Rattle.rc_position.specs.Position.{IsBefore, row_pos};
ghost use Rattle.rc_rowcode.specs.Spelling.{KeyFits};
ghost use Rattle.rc_mutation.specs.Fragments.{tomb_after};
ghost use Rattle.rc_core.specs.Version.{end_position};
ghost use Rattle.rc_cached.specs.Coming.{AreCountsInRange};
ghost use Rattle.rc_cached.specs.Filling.{MayFill};
ghost use Rattle.rc_cached.specs.Stands.{StandsForWrites};
ghost use Rattle.rc_stream.specs.Snapshot.{SayThere, Throughout, Unlost, most_counted};
ghost use Rattle.rc_cacheread.specs.Passing.{IsKnownOver};
ghost use Rattle.rc_cacheread.specs.Reading.{behind_row};
ghost use Rattle.rc_snapshots.specs.Streams.{first_position};
ghost use Rattle.rc_row_cache.specs.Crowding.{LosesWhereCrowded};
ghost use Rattle.rc_row_cache.specs.Fillers.{FillerKnows, IsFillerReady, losses};
ghost use Rattle.rc_lookup.specs.calls.Filling.{FragmentsFit, IsFilledBy, IsFit, IsNotEmptyRow, NoEmptyRows, SaysAll, SaysNone, SaysUpToFragment, past};
ghost use Rattle.rc_cached.specs.calls.Parts.{of_its_filler};

use crate::places::bare;
use rc_cached::StreamFiller;
use rc_cell::{Row, Tomb};
use rc_mutation::Frag;
use rc_position::{Key, Pos, Weight};
use rc_row_cache::Chains;
use rc_row_cache::filler_laws::{
    a_fill_keeps_the_static_row_known, a_fill_takes_no_segment, what_came_of_a_fill,
};
use std::alloc::{AllocError, Global};

/// How far a snapshot was filled.
#[derive(Drop)]
pub(crate) struct Reached {
    /// The position before which it was.
    pub at: Pos,
    /// The range tombstone in force from there on.
    pub tomb: Option<Tomb>,
}

// A count of 64 bits.
fn in_range(_count: u64)
    ensures top { _count ≤ most_counted }
    ensures below { _count < 2 ^ 64 }
{}

// What is counted is counted by numbers of 64 bits.
fn counts_in_range<const S: usize>(home: &Chains<S>)
    ensures range { AreCountsInRange home.now.counts }
    ensures evicted { home.now.counts.evicted < 2 ^ 64 }
    ensures skipped { home.now.counts.skipped < 2 ^ 64 }
{
    let counts = home.counts();
    in_range(counts.evicted);
    in_range(counts.skipped);
}

// Takes in that nothing stands from one position on and before another.
fn take_gap<const S: usize>(
    home: &mut Chains<S>,
    filler: &StreamFiller,
    from: &Pos,
    to: &Pos,
    tomb: Option<Tomb>,
)
    requires ready { IsFillerReady S filler.now.filler home.old }
    requires order { IsBefore from.now to.now }
    requires source { (writes : List Mutation) × StandsForWrites S home.old filler.now.filler.chain filler.now.filler.pin writes × SaysNone writes from.now to.now tomb }
    ensures filled { IsFilledBy (of_its_filler S) filler.now home.old filler.now home.new }
    ensures known { Unlost (MayFill home.old filler.now.filler.chain filler.now.filler.pin) (losses home.old) (losses home.new) (Throughout from.now to.now (λ x. FillerKnows home.new filler.now.filler x (empty_row, tomb))) }
    ensures stands { (writes : List Mutation) → StandsForWrites S home.old filler.now.filler.chain filler.now.filler.pin writes → SaysNone writes from.now to.now tomb → StandsForWrites S home.new filler.now.filler.chain filler.now.filler.pin writes }
    ensures loses { KeyFits from.now.prefix → KeyFits to.now.prefix → LosesWhereCrowded S 0 home.old home.new }
{
    what_came_of_a_fill();
    a_fill_takes_no_segment();
    a_fill_keeps_the_static_row_known();
    counts_in_range(home);
    home.known();
    filler.filler.take_gap(home, from, to, tomb);
}

// Takes in a row.
fn take_row<const S: usize>(
    home: &mut Chains<S>,
    filler: &StreamFiller,
    key: &Key,
    row: &Row,
    tomb: Option<Tomb>,
)
    requires ready { IsFillerReady S filler.now.filler home.old }
    requires source { (writes : List Mutation) × StandsForWrites S home.old filler.now.filler.chain filler.now.filler.pin writes × SayThere writes (row_pos key.now) (row.now, tomb) }
    ensures filled { IsFilledBy (of_its_filler S) filler.now home.old filler.now home.new }
    ensures known { Unlost (MayFill home.old filler.now.filler.chain filler.now.filler.pin) (losses home.old) (losses home.new) (FillerKnows home.new filler.now.filler (row_pos key.now) (row.now, tomb)) }
    ensures stands { (writes : List Mutation) → StandsForWrites S home.old filler.now.filler.chain filler.now.filler.pin writes → SayThere writes (row_pos key.now) (row.now, tomb) → StandsForWrites S home.new filler.now.filler.chain filler.now.filler.pin writes }
    ensures loses { row.now ≢ empty_row → LosesWhereCrowded S 0 home.old home.new }
{
    what_came_of_a_fill();
    a_fill_takes_no_segment();
    a_fill_keeps_the_static_row_known();
    counts_in_range(home);
    home.known();
    filler.filler.take_row(home, key, row, tomb);
}

// Takes in that nothing stands from one position on and before another, if that is before it.
fn fill_gap<const S: usize>(
    home: &mut Chains<S>,
    filler: &StreamFiller,
    from: &Pos,
    to: &Pos,
    tomb: Option<Tomb>,
)
    requires ready { IsFillerReady S filler.now.filler home.old }
    requires source { (writes : List Mutation) × StandsForWrites S home.old filler.now.filler.chain filler.now.filler.pin writes × SaysNone writes from.now to.now tomb }
    ensures filled { IsFilledBy (of_its_filler S) filler.now home.old filler.now home.new }
    ensures known { Unlost (MayFill home.old filler.now.filler.chain filler.now.filler.pin) (losses home.old) (losses home.new) (Throughout from.now to.now (λ x. FillerKnows home.new filler.now.filler x (empty_row, tomb))) }
    ensures stands { (writes : List Mutation) → StandsForWrites S home.old filler.now.filler.chain filler.now.filler.pin writes → SaysNone writes from.now to.now tomb → StandsForWrites S home.new filler.now.filler.chain filler.now.filler.pin writes }
    ensures loses { KeyFits from.now.prefix → KeyFits to.now.prefix → LosesWhereCrowded S 0 home.old home.new }
{
    if from.cmp(to).is_lt() {
        take_gap(home, filler, from, to, tomb);
    }
}

// Takes in a row, and that nothing stands before it.
fn fill_row<const S: usize>(
    alloc: Global,
    home: &mut Chains<S>,
    filler: &StreamFiller,
    reached: &mut Reached,
    key: &Key,
    row: &Row,
) -> Result<(), AllocError>
    requires ready { IsFillerReady S filler.now.filler home.old }
    requires source { (writes : List Mutation) × StandsForWrites S home.old filler.now.filler.chain filler.now.filler.pin writes × SaysNone writes reached.old.at (row_pos key.now) reached.old.tomb × SayThere writes (row_pos key.now) (row.now, reached.old.tomb) }
    ensures filled { IsFilledBy (of_its_filler S) filler.now home.old filler.now home.new }
    ensures known { OnOk result (Unlost (MayFill home.old filler.now.filler.chain filler.now.filler.pin) (losses home.old) (losses home.new) (row.now ≢ empty_row → IsKnownOver (FillerKnows home.old filler.now.filler) first_position reached.old.at → IsKnownOver (FillerKnows home.new filler.now.filler) first_position (behind_row key.now))) }
    ensures stands { (writes : List Mutation) → StandsForWrites S home.old filler.now.filler.chain filler.now.filler.pin writes → SaysNone writes reached.old.at (row_pos key.now) reached.old.tomb × SayThere writes (row_pos key.now) (row.now, reached.old.tomb) → StandsForWrites S home.new filler.now.filler.chain filler.now.filler.pin writes }
    ensures loses { KeyFits reached.old.at.prefix → KeyFits key.now → row.now ≢ empty_row → LosesWhereCrowded S 0 home.old home.new }
    ensures at { OnOk result (reached.new.at ≡ behind_row key.now) }
    ensures tomb { reached.new.tomb ≡ reached.old.tomb }
{
    let mut at = Pos {
        prefix: key.copy(alloc)?,
        weight: Weight::At,
    };
    fill_gap(home, filler, &reached.at, &at, reached.tomb);
    take_row(home, filler, key, row, reached.tomb);
    at.weight = Weight::After;
    reached.at = at;
    Ok(())
}

// Takes in that nothing stands before a change, and goes on from there.
fn fill_change<const S: usize>(
    alloc: Global,
    home: &mut Chains<S>,
    filler: &StreamFiller,
    reached: &mut Reached,
    from: &Pos,
    tomb: Option<Tomb>,
) -> Result<(), AllocError>
    requires ready { IsFillerReady S filler.now.filler home.old }
    requires source { (writes : List Mutation) × StandsForWrites S home.old filler.now.filler.chain filler.now.filler.pin writes × SaysNone writes reached.old.at from.now reached.old.tomb }
    ensures filled { IsFilledBy (of_its_filler S) filler.now home.old filler.now home.new }
    ensures known { OnOk result (Unlost (MayFill home.old filler.now.filler.chain filler.now.filler.pin) (losses home.old) (losses home.new) (IsKnownOver (FillerKnows home.old filler.now.filler) first_position reached.old.at → IsKnownOver (FillerKnows home.new filler.now.filler) first_position from.now)) }
    ensures stands { (writes : List Mutation) → StandsForWrites S home.old filler.now.filler.chain filler.now.filler.pin writes → SaysNone writes reached.old.at from.now reached.old.tomb → StandsForWrites S home.new filler.now.filler.chain filler.now.filler.pin writes }
    ensures loses { KeyFits reached.old.at.prefix → KeyFits from.now.prefix → LosesWhereCrowded S 0 home.old home.new }
    ensures at { OnOk result (reached.new.at ≡ from.now) }
    ensures tomb { OnOk result (reached.new.tomb ≡ tomb) }
{
    let at = from.copy(alloc)?;
    fill_gap(home, filler, &reached.at, &at, reached.tomb);
    reached.at = at;
    reached.tomb = tomb;
    Ok(())
}

// Takes in what a fragment says, and that nothing stands before it.
fn fill_one<const S: usize>(
    alloc: Global,
    home: &mut Chains<S>,
    filler: &StreamFiller,
    reached: &mut Reached,
    frag: &Frag,
) -> Result<(), AllocError>
    requires ready { IsFillerReady S filler.now.filler home.old }
    requires source { (writes : List Mutation) × StandsForWrites S home.old filler.now.filler.chain filler.now.filler.pin writes × SaysUpToFragment writes reached.old.at reached.old.tomb frag.now }
    ensures filled { IsFilledBy (of_its_filler S) filler.now home.old filler.now home.new }
    ensures known { OnOk result (Unlost (MayFill home.old filler.now.filler.chain filler.now.filler.pin) (losses home.old) (losses home.new) (IsNotEmptyRow frag.now → IsKnownOver (FillerKnows home.old filler.now.filler) first_position reached.old.at → IsKnownOver (FillerKnows home.new filler.now.filler) first_position (past reached.old.at frag.now))) }
    ensures stands { (writes : List Mutation) → StandsForWrites S home.old filler.now.filler.chain filler.now.filler.pin writes → SaysUpToFragment writes reached.old.at reached.old.tomb frag.now → StandsForWrites S home.new filler.now.filler.chain filler.now.filler.pin writes }
    ensures loses { KeyFits reached.old.at.prefix → IsFit frag.now → IsNotEmptyRow frag.now → LosesWhereCrowded S 0 home.old home.new }
    ensures at { OnOk result (reached.new.at ≡ past reached.old.at frag.now) }
    ensures tomb { OnOk result (reached.new.tomb ≡ tomb_after reached.old.tomb frag.now) }
{
    match frag {
        Frag::Row(key, row) => fill_row(alloc, home, filler, reached, key, row),
        Frag::Change(from, tomb) => fill_change(alloc, home, filler, reached, from, *tomb),
        Frag::Start(_) => Ok(()),
        Frag::Static(_) => Ok(()),
        Frag::End => Ok(()),
    }
}

/// Takes in what all fragments of a partition say, from its beginning to its end. Where their keys are within the limits, what is lost is lost in a crowded region. The only error is want of memory: then the rest is not taken in.
pub(crate) fn fill_all<const S: usize>(
    alloc: Global,
    home: &mut Chains<S>,
    filler: &StreamFiller,
    frags: &[Frag],
) -> Result<(), AllocError>
    requires ready { IsFillerReady S filler.now.filler home.old }
    requires written { NoEmptyRows frags.now }
    requires source { (writes : List Mutation) × StandsForWrites S home.old filler.now.filler.chain filler.now.filler.pin writes × SaysAll writes first_position None frags.now }
    ensures filled { IsFilledBy (of_its_filler S) filler.now home.old filler.now home.new }
    ensures known { OnOk result (Unlost (MayFill home.old filler.now.filler.chain filler.now.filler.pin) (losses home.old) (losses home.new) (IsKnownOver (FillerKnows home.new filler.now.filler) first_position end_position)) }
    ensures stands { (writes : List Mutation) → StandsForWrites S home.old filler.now.filler.chain filler.now.filler.pin writes → SaysAll writes first_position None frags.now → StandsForWrites S home.new filler.now.filler.chain filler.now.filler.pin writes }
    ensures loses { FragmentsFit frags.now → LosesWhereCrowded S 0 home.old home.new }
{
    let mut reached = Reached {
        at: bare(alloc, Weight::Before),
        tomb: None,
    };
    let mut left = frags;
    while let [frag, rest @ ..] = left {
        match fill_one(alloc, home, filler, &mut reached, frag) {
            Ok(()) => left = rest,
            Err(error) => return Err(error),
        }
    }
    let end = bare(alloc, Weight::After);
    fill_gap(home, filler, &reached.at, &end, reached.tomb);
    Ok(())
}
