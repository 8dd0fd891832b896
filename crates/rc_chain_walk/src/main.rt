//! A random walk over three chains of versions in one region: some thousand calls on them, with moves between, and beside them plain chains, on which the same
//! is done by the plain functions of the core. Both are asked all that they show.
#![tactic(auto)]

mod asking;
mod both;
mod chance;
mod plain_calls;
mod space;
mod tally;
mod turning;
mod walk;

use both::Moves;
use rc_position::Pos;
use space::all_positions;
use std::alloc::{AllocError, Global};
use std::io;
use tally::Tally;
use walk::{Walk, begin};

/// How many calls are made.
const CALLS: u64 = 20_000;

/// How many calls are tried at most: one whose condition does not hold is not made, and not counted.
const TRIES: u32 = 200_000;

// The calls, until one is answered otherwise than by the plain chains; what was moved in them.
fn walk_calls(
    alloc: Global,
    walk: &mut Walk,
    positions: &[Pos],
    tally: &mut Tally,
) -> Result<Moves, AllocError> {
    for _ in 0..TRIES {
        if tally.differs.is_none() && tally.total() < CALLS {
            walk.step(alloc, positions, tally)?;
        }
    }
    Ok(walk.both.moves())
}

// A walk, asked at these positions.
fn walk_at(alloc: Global, positions: &[Pos], tally: &mut Tally) -> Result<Moves, AllocError> {
    let mut walk = begin(alloc, 7)?;
    walk_calls(alloc, &mut walk, positions, tally)
}

// The same at all positions.
fn walk_on(alloc: Global, tally: &mut Tally) -> Result<Moves, AllocError> {
    let positions = all_positions(alloc)?;
    walk_at(alloc, positions.as_slice(), tally)
}

// How often each call was made.
fn tell_calls(rt: &HostRuntime, tally: &Tally) -> io::Result<()> {
    for line in &tally.calls {
        let (kind, count) = *line;
        println!(rt; "{kind}: {count}")?;
    }
    Ok(())
}

// What was found.
fn tell_found(rt: &HostRuntime, tally: &Tally, moves: Moves) -> io::Result<()> {
    let (calls, skipped, places) = (tally.total(), tally.skipped, tally.places);
    println!(rt; "{calls} calls, {skipped} tried in vain, {places} facts compared")?;
    let (moved, emptied) = (moves.objects, moves.segments);
    println!(rt; "{moved} objects moved out of {emptied} segments")?;
    match tally.differs {
        None => println!(rt; "all alike"),
        Some(what) => println!(rt; "differs: {what}"),
    }
}

fn tell(rt: &HostRuntime, tally: &Tally, moves: Moves) -> io::Result<()> {
    tell_calls(rt, tally)?;
    tell_found(rt, tally, moves)
}

fn main(rt: HostRuntime) -> io::Result<()> {
    let mut tally = Tally::new(rt.alloc())?;
    let moves = walk_on(rt.alloc(), &mut tally)?;
    tell(&rt, &tally, moves)
}
