//! Cases of ends and stores of which calls fail, of bytes that are checked as table files, and of tables that are written: standard input lists the
//! cases, and says how. What is printed is each answer.
#![tactic(auto)]

mod checks;
mod desk;
mod ends;
mod stores;
mod tables;
mod telling;

use desk::Desk;
use std::io;

fn main(rt: HostRuntime) -> io::Result<()> {
    let alloc = rt.alloc();
    let mut desk = Desk::new(alloc)?;
    for line in rt.lines(alloc) {
        let line = line?;
        desk.take(alloc, line.as_str())?;
    }
    let told = desk.told();
    print!(rt; "{told}")
}
