// What no clause says of the folder: that a call can succeed, which names its tables have, and what the host does.
ghost use Rattle.std.specs.Prelude.{◌≡◌, None};
ghost use Rattle.rc_outside.specs.Files.{IsNoFile};

use rc_outside::{FolderStore, Store, StoreErr};
use std::alloc::{AllocError, Allocator, Global};
use std::fmt::Write;
use std::fs::{self, File, Metadata, OpenOptions};
use std::io::{self, Read};
use std::rt::Files;
use std::test::Fail;

// `k` for Ok, `!` for a fault, `m` for want of memory.
fn said<T: Drop>(answer: Result<T, StoreErr>) -> u8 {
    match answer {
        Ok(_) => b'k',
        Err(StoreErr::Fault) => b'!',
        Err(StoreErr::NoMemory) => b'm',
    }
}

// Builds file `n` of two pieces. `k` where each of the four calls did, else what the first did that was refused.
fn build<S: Store>(store: &mut S, alloc: Global, n: u32, pieces: [&[u8]; 2]) -> u8
    requires idle { S.building store.old ≡ None }
    requires fresh { IsNoFile (S.files store.old) n }
    ensures { S.building store.new ≡ None }
{
    let [first, second] = pieces;
    let begun = store.begin(alloc, n);
    if begun.is_err() {
        return said(begun);
    }
    let appended = store.append(alloc, first);
    if appended.is_err() {
        return said(appended);
    }
    let grown = store.append(alloc, second);
    if grown.is_err() {
        return said(grown);
    }
    said(store.finish(alloc))
}

// What `numbers` gives: each number and a comma; `!` where it is refused.
fn listing<S: Store>(store: &mut S, alloc: Global) -> Result<String, AllocError>
    ensures { S.building store.new ≡ S.building store.old }
{
    let mut text = String::new(alloc);
    match store.numbers(alloc) {
        Ok(numbers) => tell_numbers(numbers.as_slice(), &mut text)?,
        Err(_) => text.push('!')?,
    }
    Ok(text)
}

// Tells each number and a comma.
fn tell_numbers(numbers: &[u32], text: &mut String) -> Result<(), AllocError> {
    for n in numbers {
        write!(text, "{n},")?;
    }
    Ok(())
}

// Whether `numbers` gives this.
fn lists<S: Store>(store: &mut S, alloc: Global, wanted: &str) -> Result<bool, AllocError>
    ensures { S.building store.new ≡ S.building store.old }
{
    let text = listing(store, alloc)?;
    Ok(text.as_str() == wanted)
}

// Tells the three bytes of file `n` from the offset on, or `!` for a fault; and then a bar.
fn tell_range(
    store: &mut FolderStore<'_, HostRuntime>,
    n: u32,
    off: u64,
    text: &mut Vec<u8>,
) -> Result<(), AllocError> {
    let mut bytes = [0; 3];
    match store.read_at(n, off, &mut bytes) {
        Ok(()) => text.extend_from_slice(&bytes)?,
        Err(_) => text.push(b'!')?,
    }
    text.push(b'|')?;
    Ok(())
}

// Takes away what an earlier test left at `tables`, where a folder store keeps its files.
fn clear(rt: &HostRuntime) {
    let _folder = fs::remove_dir_all(rt, "tables");
    let _file = fs::remove_file(rt, "tables");
}

// Files with the names of no tables, with bars between them.
const OTHERS: &str =
    "tables/0.tbl|tables/01.tbl|tables/+1.tbl|tables/-1.tbl|tables/4294967296.tbl|tables/1.tbl.tbl|tables/.tbl|tables/a.tbl|tables/ 1.tbl|tables/1.tmp|tables/1|tables/1.TBL|tables/1.tbl |tables/tbl";

// Writes these files.
fn write_others(rt: &HostRuntime) -> io::Result<()> {
    for path in OTHERS.split('|') {
        fs::write(rt, path, b"other")?;
    }
    Ok(())
}

// Whether a file has these bytes.
fn has_bytes(rt: &HostRuntime, path: &str, wanted: &[u8]) -> io::Result<bool> {
    let bytes = fs::read(rt, path)?;
    Ok(bytes.as_slice() == wanted)
}

#[test]
fn the_folder_keeps_tables(rt: HostRuntime) -> Result<(), Fail> {
    let alloc = rt.alloc();
    clear(&rt);
    let mut store = FolderStore::new(&rt);
    assert!(rt; lists(&mut store, alloc, "")?);
    assert!(rt; build(&mut store, alloc, 12, [b"ab", b"cde"]) == b'k');
    assert!(rt; build(&mut store, alloc, 4294967295, [b"", b"x"]) == b'k');
    write_others(&rt)?;
    assert!(rt; lists(&mut store, alloc, "12,4294967295,")?);
    assert!(rt; has_bytes(&rt, "tables/12.tbl", b"abcde")?);
    assert!(rt; fs::read(&rt, "tables/12.tmp").is_err());
    Ok(())
}

#[test]
fn a_table_that_is_given_up_leaves_nothing(rt: HostRuntime) -> Result<(), Fail> {
    let alloc = rt.alloc();
    clear(&rt);
    let mut store = FolderStore::new(&rt);
    let begun = said(store.begin(alloc, 3));
    store.abandon();
    assert!(rt; begun == b'k');
    assert!(rt; fs::read(&rt, "tables/3.tmp").is_err());
    Ok(())
}

// Cuts the file of table 1 to its first four bytes.
fn cut(rt: &HostRuntime) -> io::Result<()> {
    File::options()
        .write(true)
        .open(rt, "tables/1.tbl")?
        .set_len(4)
}

// Tells the bytes of table 1 from 2 and from 1 on, and those of a table that is not there.
fn tell_ranges(
    store: &mut FolderStore<'_, HostRuntime>,
    text: &mut Vec<u8>,
) -> Result<(), AllocError> {
    tell_range(store, 1, 2, text)?;
    tell_range(store, 1, 1, text)?;
    tell_range(store, 2, 0, text)
}

#[test]
fn a_table_that_is_cut_is_a_fault(rt: HostRuntime) -> Result<(), Fail> {
    let alloc = rt.alloc();
    clear(&rt);
    let mut store = FolderStore::new(&rt);
    assert!(rt; build(&mut store, alloc, 1, [b"ab", b"cde"]) == b'k');
    assert!(rt; store.size(1).ok() == Some(5));
    let mut told = Vec::new(alloc);
    tell_range(&mut store, 1, 2, &mut told)?;
    cut(&rt)?;
    tell_ranges(&mut store, &mut told)?;
    assert!(rt; told.as_slice() == b"cde|!|bcd|!|".as_slice());
    assert!(rt; store.size(2).ok() == None && store.asks() == 4);
    Ok(())
}

// A listing of one name that is not UTF-8, which it gives once.
#[derive(Drop)]
struct OddListing {
    given: bool,
}

impl Read for OddListing {
    fn read(&mut self, buf: &mut [u8]) -> io::Result<usize> {
        let name = b"\xff.tbl\0";
        if self.given || buf.len() < name.len() {
            return Ok(0);
        }
        self.given = true;
        buf[..name.len()].copy_from_slice(name);
        Ok(name.len())
    }
}

// The host's files, but for listings, which are odd.
#[derive(Clone, Drop)]
struct OddNames(HostRuntime);

impl Files for OddNames {
    type File = File;

    type Dir = OddListing;

    fn open_file(&self, how: &OpenOptions, path: &str) -> io::Result<File> {
        self.0.open_file(how, path)
    }

    fn open_dir(&self, _path: &str) -> io::Result<OddListing> {
        Ok(OddListing { given: false })
    }

    fn metadata(&self, path: &str) -> io::Result<Metadata> {
        self.0.metadata(path)
    }

    fn symlink_metadata(&self, path: &str) -> io::Result<Metadata> {
        self.0.symlink_metadata(path)
    }

    fn copy(&self, from: &str, to: &str) -> io::Result<u64> {
        self.0.copy(from, to)
    }

    fn rename(&self, from: &str, to: &str) -> io::Result<()> {
        self.0.rename(from, to)
    }

    fn remove_file(&self, path: &str) -> io::Result<()> {
        self.0.remove_file(path)
    }

    fn create_dir(&self, path: &str) -> io::Result<()> {
        self.0.create_dir(path)
    }

    fn remove_dir(&self, path: &str) -> io::Result<()> {
        self.0.remove_dir(path)
    }

    fn remove_dir_all<B: Allocator>(&self, alloc: B, path: &str) -> io::Result<()> {
        self.0.remove_dir_all(alloc, path)
    }
}

#[test]
fn a_name_that_is_no_text_is_a_fault(rt: HostRuntime) -> Result<(), Fail> {
    let alloc = rt.alloc();
    let odd = (OddNames(rt), alloc);
    let mut store = FolderStore::new(&odd);
    assert!(rt; lists(&mut store, alloc, "!")?);
    Ok(())
}

#[test]
fn a_folder_that_is_none_is_a_fault(rt: HostRuntime) -> Result<(), Fail> {
    let alloc = rt.alloc();
    clear(&rt);
    fs::write(&rt, "tables", b"a file")?;
    let mut store = FolderStore::new(&rt);
    assert!(rt; lists(&mut store, alloc, "!")?);
    assert!(rt; build(&mut store, alloc, 2, [b"a", b"b"]) == b'!');
    Ok(())
}
