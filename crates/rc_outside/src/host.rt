// Calls on one file of the host, by what std says of readers, writers and places; and what its errors are told as.
ghost use Rattle.std.specs.Prelude.{◌≡◌, ◌↔◌, OnOk};
ghost use Rattle.std.specs.Io.KnownBytes.{Appends};
ghost use Rattle.std.specs.IoError.{error_kind};
ghost use Rattle.rc_outside.specs.Host.{StandsIn};
ghost use Rattle.rc_outside.specs.calls.Host.{made_afresh};

use super::stores::StoreErr;
use std::fs::OpenOptions;
use std::io::{self, Error, ErrorKind, Read, Seek, SeekFrom, Write};

/// Writes the whole piece behind what the file has. At an error a front of it may be written.
pub(crate) fn append_whole<F: Write>(file: &mut F, piece: &[u8]) -> io::Result<()>
    ensures { OnOk result (Appends (F.contents file.old) (F.contents file.new) piece.now) }
{
    file.write_all(piece)
}

/// Fills `into` with the bytes that stand in the file from the offset on. An error too where fewer stand there.
pub(crate) fn read_range<F: Read + Seek>(file: &mut F, off: u64, into: &mut [u8]) -> io::Result<()>
    ensures { OnOk result (StandsIn F.remaining F.stream_position F.stream_bytes file.old off into.new) }
{
    file.seek(SeekFrom::Start(off))?;
    file.read_exact(into)
}

/// How a draft is opened.
pub(crate) fn draft_options() -> OpenOptions
    ensures { result ≡ made_afresh }
{
    let mut options = OpenOptions::new();
    options.write(true).create(true).truncate(true);
    options
}

/// What the host's error is told as: want of memory where it says so, and a fault else.
pub(crate) fn told_as(error: &Error) -> StoreErr
    ensures { (result ≡ StoreErr.NoMemory) ↔ (error_kind error.now ≡ ErrorKind.OutOfMemory) }
{
    match error.kind() {
        ErrorKind::OutOfMemory => StoreErr::NoMemory,
        _ => StoreErr::Fault,
    }
}
