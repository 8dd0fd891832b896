//! What the calls of a chain cost, by the number of its rows: with the words `ROWS WORK ..` it does each work on a partition of so many rows, in a region of its own, and prints what it did.
//! The time is measured from outside.
#![tactic(auto)]

ghost use Rattle.std.specs.Prelude.{◌≤◌};

mod partition;
mod rows;
mod works;

use partition::SEGMENT;
use rc_chain::Chains;
use std::{env, io};

/// The most rows of a partition.
const MOST: u32 = 2_000_000;

fn main(rt: HostRuntime) -> io::Result<()> {
    let words = env::args(&rt)?.skip(1).collect::<Vec<String>>(rt.alloc())?;
    let [number, works @ ..] = words.as_slice() else {
        println!(rt; "words: ROWS wide|overwrite|points|pinned ..")?;
        return Ok(());
    };
    match number.as_str().parse::<u32>() {
        Ok(rows) if rows >= 1 && rows <= MOST => {
            for work in works {
                serve(&rt, work.as_str(), rows)?;
            }
            Ok(())
        }
        _ => {
            println!(rt; "a partition has 1 to {MOST} rows")?;
            Ok(())
        }
    }
}

// So many segments that the longest rows fill three quarters of them.
fn segments_for(rows: u32) -> u32
    requires { rows ≤ 2000000 }
    ensures some { 4 ≤ result }
    ensures few { result ≤ 4096 }
{
    rows / 720 + 4
}

// Does the work in an empty region, and prints what it did.
fn serve(rt: &HostRuntime, work: &str, rows: u32) -> io::Result<()>
    requires { rows ≤ 2000000 }
{
    let alloc = rt.alloc();
    let mut chains = Chains::<SEGMENT>::open(alloc, segments_for(rows))?;
    let done = match work {
        "wide" => works::wide(alloc, &mut chains, rows)?,
        "overwrite" => works::overwrite(alloc, &mut chains, rows)?,
        "points" => works::points(alloc, &mut chains, rows)?,
        "pinned" => works::pinned(alloc, &mut chains, rows)?,
        _ => {
            println!(rt; "no such work")?;
            return Ok(());
        }
    };
    report(rt, work, done, &chains)
}

fn report(rt: &HostRuntime, work: &str, done: u32, chains: &Chains<SEGMENT>) -> io::Result<()> {
    let region = chains.region();
    println!(rt;
        "{work}: {done} rows, {} objects, {} bytes live, {} objects moved out of {} segments",
        region.objects(),
        region.live(),
        region.moved(),
        region.compacted()
    )
}
