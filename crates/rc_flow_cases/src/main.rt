//! Partitions read as streams from table files of a real folder, which are replaced, cut and changed between their check and their reading: standard
//! input lists the cases, and says how. What is printed is what each reading gave, and which ranges of the files it asked for.
#![tactic(auto)]

mod desk;
mod files;
mod readings;
mod sweeps;
mod telling;
mod walking;
mod watched;
mod words;

use desk::Desk;
use rc_outside::FolderStore;
use std::io;
use watched::Watched;

fn main(rt: HostRuntime) -> io::Result<()> {
    let alloc = rt.alloc();
    let mut text = String::new(alloc);
    let mut folder = Watched::new(alloc, FolderStore::new(&rt));
    let mut desk = Desk::new(alloc)?;
    for line in rt.lines(alloc) {
        let line = line?;
        desk.take(alloc, &mut folder, line.as_str(), &mut text)?;
    }
    print!(rt; "{text}")
}
