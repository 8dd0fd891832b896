//! What a line commands, and what it is answered.

ghost use Rattle.std.specs.Prelude.{◌≡◌, IfOk};

use rc_mutation::Write;
use rc_position::{PartKey, Slice};
use rc_query::Lines;
use rc_schema::Schema;
use std::alloc::{AllocError, Global};
use thiserror::Error;

/// What a line commands. Ids and counts are from 1 to 4294967295.
#[derive(Drop)]
pub enum Command {
    /// An empty line or a comment: nothing to do, and no reply.
    Nothing,
    /// The schema line.
    SetSchema(Schema),
    /// A write to one partition.
    Put(Write),
    /// Opens a reader of a partition under an id: it is given the rows of a slice, between two bounds of which the first is below the second.
    OpenRead { id: u32, key: PartKey, slice: Slice },
    /// Asks the reader of an id for its next lines, so many at most.
    Read { id: u32, count: u32 },
    /// Closes the reader of an id.
    Close { id: u32 },
    /// Writes the memtable as a table, and brings the cache up to it.
    Flush,
    /// Writes the memtable as a table, and leaves bringing the cache up to it to the steps that follow.
    FlushBegin,
    /// Brings the cache up to the table that was written last, at most so many units further.
    FlushStep { count: u32 },
    /// Evicts at most so many objects of the cache, the least recent first.
    Evict { count: u32 },
    /// Compacts at most so many sparse segments.
    Compact { count: u32 },
    /// Merges versions that nobody reads, in at most so many units.
    Clean { count: u32 },
    /// Asks for the figures of the cache.
    Stats,
}

/// Why a line is refused. A refused line changes nothing, but for `WriteFault`, after which the memtable is sealed and unwritten.
#[derive(Clone, Copy, Debug, PartialEq, Eq)]
pub enum Refusal {
    /// The line is not in the grammar, or is too long.
    BadLine,
    /// No schema line was taken before.
    NoSchema,
    /// A schema line with another schema than the one that was taken.
    SchemaDiffers,
    /// A count of components, an int component, or bounds of which the first is not below the second.
    WrongKey,
    /// A name is not a column of that sort.
    UnknownColumn,
    /// A partition key, a text component or a value passes its limit.
    TooLong,
    /// `read` or `close` of an id that is not open.
    NoReader,
    /// `open` of an id that is open.
    ReaderInUse,
    /// `open` of another id while 64 are open.
    TooManyReaders,
    /// `flush` or `flush begin` while a written sealed memtable has units left.
    FlushInProgress,
    /// `flush` or `flush begin` with nothing sealed and no write since.
    NothingToFlush,
    /// `flush step` with no written sealed memtable.
    NoFlush,
    /// A write for which no room could be made.
    Full,
    /// The store failed while a table was read.
    ReadFault,
    /// The store failed while a table was written.
    WriteFault,
    /// A table is not what it was when it was checked or written: its number, and where in it, in bytes.
    Damaged { file: u32, offset: u64 },
    /// A flush would write a table, and the largest table number is 4294967295.
    NoNumber,
}

/// The figures of a shard's memory and cache. The counts `hits`, `misses`, `evicted`, `moved` and `skipped` stay at 2^64 - 1.
#[derive(Clone, Copy, Debug, PartialEq, Eq)]
pub struct Figures {
    /// Segments that are not free.
    pub segments: u64,
    /// Segments that are free.
    pub free: u64,
    /// Objects of the region.
    pub objects: u64,
    /// The bytes of these objects, each rounded up.
    pub live: u64,
    /// Partitions that are found in the cache by their key.
    pub partitions: u64,
    /// Row entries over all versions of these partitions.
    pub rows: u64,
    /// Dummies over all versions of these partitions, the last ones with them.
    pub dummies: u64,
    /// `open` and `read` commands so far that were served without asking the store.
    pub hits: u64,
    /// `open` and `read` commands so far for which the store was asked.
    pub misses: u64,
    /// Evictions so far, asked for or made for room.
    pub evicted: u64,
    /// Objects moved so far.
    pub moved: u64,
    /// Fills, openings of a cache entry, update units and cleaner units so far for which no room was found.
    pub skipped: u64,
    /// How many ranges of table files were asked for since the shard was opened.
    pub asks: u64,
}

/// What a line is answered.
#[derive(Drop)]
pub enum Reply {
    /// No text.
    Nothing,
    /// The command was done.
    Fine,
    /// A reader's next lines, and whether there are more behind them.
    Given { lines: Lines, more: bool },
    /// Units of the flush are left.
    Going,
    /// No unit of the flush is left.
    Done,
    /// The figures.
    Stats(Figures),
    /// The line is refused.
    Refused(Refusal),
}

/// Why a line gives no command.
#[derive(Debug, Drop, Error)]
pub enum LineErr {
    /// The line is refused.
    #[error("the line is refused: {0:?}")]
    Refused(Refusal),
    /// Memory ran out.
    #[error("out of memory")]
    NoMemory,
}

impl Command {
    /// An equal command of its own memory. The only error is want of memory.
    pub fn copy(&self, alloc: Global) -> Result<Self, AllocError>
        ensures { IfOk result (λ command. command ≡ self.now) }
    {
        match self {
            Command::Nothing => Ok(Command::Nothing),
            Command::SetSchema(schema) => Ok(Command::SetSchema(schema.copy(alloc)?)),
            Command::Put(write) => Ok(Command::Put(write.copy(alloc)?)),
            Command::OpenRead { id, key, slice } => {
                let key = key.copy(alloc)?;
                let slice = slice.copy(alloc)?;
                Ok(Command::OpenRead {
                    id: *id,
                    key,
                    slice,
                })
            }
            Command::Read { id, count } => Ok(Command::Read {
                id: *id,
                count: *count,
            }),
            Command::Close { id } => Ok(Command::Close { id: *id }),
            Command::Flush => Ok(Command::Flush),
            Command::FlushBegin => Ok(Command::FlushBegin),
            Command::FlushStep { count } => Ok(Command::FlushStep { count: *count }),
            Command::Evict { count } => Ok(Command::Evict { count: *count }),
            Command::Compact { count } => Ok(Command::Compact { count: *count }),
            Command::Clean { count } => Ok(Command::Clean { count: *count }),
            Command::Stats => Ok(Command::Stats),
        }
    }
}
