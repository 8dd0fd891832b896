//! Worked scripts over the top call, from input bytes to output bytes, on the machine that the program runs on and on the plain one: standard input lists
//! them with their replies, and says how. What is printed are the runs that came to something else, and how many there were.
#![tactic(auto)]

mod case;
mod cases;
mod plain;
mod reading;
mod running;
mod slow;
mod stores;
mod tally;

use cases::Cases;
use std::io;

fn main(rt: HostRuntime) -> io::Result<()> {
    let alloc = rt.alloc();
    let mut cases = Cases::new(alloc)?;
    for line in rt.lines(alloc) {
        let line = line?;
        cases.take(alloc, line.as_str())?;
    }
    cases.end(alloc)?;
    let told = cases.told();
    println!(rt; "{told}")
}
