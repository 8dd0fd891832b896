//! A snapshot that is read from a place on.
ghost use Rattle.std.specs.Prelude.{◌≡◌};
ghost use Rattle.rc_cell.specs.declared.rows.Row.{Row as Cells};
ghost use Rattle.rc_reading.specs.Reading.{IsRowGiven};

use crate::cursors::Cursor;
use rc_cell::Row;
use rc_chain::{Chains, ReadHead, Snap};
use rc_core::Part;
use rc_mutation::{Head, HeadAt};
use rc_position::Pos;
use rc_stream::Known;
use std::alloc::{AllocError, Global};

/// A snapshot of a chain with the place up to which it was read. Its calls take the chains as they are; they change none of them.
pub struct SnapshotReader {
    /// The snapshot.
    pub snap: Snap,
    /// Its place.
    pub cursor: Cursor,
}

impl SnapshotReader {
    /// A snapshot, read from a place on.
    pub fn new(snap: Snap, at: Pos) -> SnapshotReader
        ensures snap { result.snap ≡ snap }
        ensures place { result.cursor.last ≡ at }
    {
        SnapshotReader {
            snap,
            cursor: Cursor::new(at),
        }
    }

    /// The snapshot, which can be given back to its chain.
    pub fn into_snap(self) -> Snap
        ensures { result ≡ self.snap }
    {
        let SnapshotReader { snap, cursor: _ } = self;
        snap
    }
}

// What is read at a head, as the head of a partition: the empty row where nothing of the static row is seen.
fn head_at(alloc: Global, read: ReadHead) -> HeadAt
    ensures pt { result.head.pt ≡ read.pt }
    ensures known { result.known ≡ read.known }
    ensures statics { (row : Cells) → IsRowGiven read.row row → result.head.statics ≡ row }
{
    let ReadHead { pt, known, row } = read;
    let statics = match row {
        Some(row) => row,
        None => Row::empty(alloc),
    };
    HeadAt {
        head: Head { pt, statics },
        known,
    }
}

impl<const S: usize> Known<Chains<S>> for SnapshotReader {
    ghost use Rattle.rc_chain.specs.Memory.{HasPin};
    ghost use Rattle.rc_cursor.specs.Snapshots.{IsHeadSeen, IsReadable, Knows};
    ghost use Rattle.rc_cursor.specs.Readers.{IsOnlyRead};

    ghost ready = { λ r m. HasPin m r.snap.chain r.snap.pin × IsReadable m r.snap };

    ghost place = { λ r. r.cursor.last };

    ghost knows = { λ r m. Knows m r.snap };

    ghost heads = { λ r m. IsHeadSeen m r.snap };

    ghost did = { λ r m c ok t n. IsOnlyRead r m t n };

    fn head_known(&mut self, alloc: Global, home: &mut Chains<S>) -> Result<HeadAt, AllocError> {
        let read = home.head(&self.snap)?;
        Ok(head_at(alloc, read))
    }

    fn next_known(
        &mut self,
        alloc: Global,
        home: &mut Chains<S>,
        upto: &Pos,
    ) -> Result<Part, AllocError> {
        self.cursor.next_part(alloc, home, &self.snap, upto)
    }

    fn pass(&mut self, alloc: Global, _home: &mut Chains<S>, to: &Pos) -> Result<(), AllocError> {
        self.cursor.pass(alloc, to)
    }
}
