//! What the calls of a region cost, by the number of its segments: with the words `WORK SEGMENTS` it does one work and prints what it did.
//! The time is measured from outside.
#![tactic(auto)]

ghost use Rattle.std.specs.Prelude.{◌≡◌};
ghost use Rattle.lsa_region.specs.Region.{slots_of};

mod ties;
mod works;

use lsa_region::Region;
use std::{env, io};

fn main(rt: HostRuntime) -> io::Result<()> {
    let words = env::args(&rt)?.skip(1).collect::<Vec<String>>(rt.alloc())?;
    let [work, number] = words.as_slice() else {
        println!(rt; "words: open|fill|full|slots|links|moves SEGMENTS, 4 to 4096")?;
        return Ok(());
    };
    match number.as_str().parse::<u32>() {
        Ok(segments) if segments >= 4 && segments <= 4096 => {
            let mut region = Region::<4096>::open(rt.alloc(), segments)?;
            serve(&rt, &mut region, work.as_str())
        }
        _ => {
            println!(rt; "a region has 4 to 4096 segments")?;
            Ok(())
        }
    }
}

// Does the work in an empty region, and prints what it did.
fn serve(rt: &HostRuntime, region: &mut Region<4096>, work: &str) -> io::Result<()>
    requires { (slots_of region.old).there ≡ 0 }
{
    match work {
        "open" => println!(rt; "{} segments free", region.free()),
        "fill" => {
            let made = works::fill(region);
            println!(rt; "{made} objects")
        }
        "full" => {
            let made = works::fill(region);
            let full = works::ask(region, 5_000_000);
            println!(rt; "{made} objects, {full} times no room")
        }
        "slots" => {
            works::keep_slots(region, rt.alloc(), 100_000)?;
            works::change_slots(region, rt.alloc(), 1_000_000)?;
            println!(rt; "100000 slots made, and beside them 1000000 made and dropped")
        }
        "links" => links(rt, region),
        "moves" => moves(rt, region),
        _ => println!(rt; "no such work"),
    }
}

fn links(rt: &HostRuntime, region: &mut Region<4096>) -> io::Result<()> {
    if ties::change_links(region, 10_000_000) {
        println!(rt; "10000000 pairs tied and parted")
    } else {
        println!(rt; "no room")
    }
}

fn moves(rt: &HostRuntime, region: &mut Region<4096>) -> io::Result<()>
    requires { (slots_of region.old).there ≡ 0 }
{
    match works::hold(region, rt.alloc())? {
        Some(slot) => {
            let made = works::move_all(region, slot);
            println!(rt;
                "{made} steps, {} segments emptied, {} objects moved",
                region.compacted(),
                region.moved()
            )
        }
        None => println!(rt; "no room"),
    }
}
