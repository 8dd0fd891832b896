//! Where a partition lies in a table file, by the file's directory.

ghost use Rattle.std.specs.Prelude.{◌≡◌, ◌≤◌, ◌+◌, ℕ, ◌∷◌, drop, IfErr, IfOk, IfSome, Some, length};
ghost use Rattle.rc_mutation.specs.declared.mutations.Partition.{Partition};
ghost use Rattle.rc_outside.specs.Files.{HoldsSameFiles, LiesInFile, AreBytesOf};
ghost use Rattle.rc_stream.specs.Causes.{Caused};
ghost use Rattle.rc_tables.specs.calls.Rebuilt.{number_at_front};
ghost use Rattle.rc_tables.specs.Located.{EndsAt, glimpse_length, IsEntryAt, MayLie, SaysSpan, WhereTold};
ghost use Rattle.rc_tables.specs.calls.Located.{IsAtSpan, IsLocated, IsStreamHostError, IsSpan};

use rc_outside::Store;
use rc_position::PartKey;
use rc_stream::StreamErr;
use rc_tfile::{PartRef, behind, read_part_key};
use std::alloc::{AllocError, Global};

/// What begins a partition in the directory.
const ENTRY: u8 = 6;

/// At least as many bytes as a partition has in the directory before its blocks.
const LONGEST: u32 = 78;

/// Bytes of a file from an offset up to another.
#[derive(Clone, Copy, Debug)]
pub(crate) struct Span {
    /// The first byte's offset.
    pub(crate) from: u64,
    /// The offset behind the last byte.
    pub(crate) to: u64,
}

/// So many bytes of file `n` from an offset on. One range is asked for.
pub(crate) fn read_range<W: Store>(
    alloc: Global,
    store: &mut W,
    n: u32,
    off: u64,
    count: usize,
) -> Result<Vec<u8>, StreamErr>
    requires { LiesInFile (W.files store.old) n off count }
    ensures bytes { IfOk result (λ piece. AreBytesOf (W.files store.old) n off piece.items) }
    ensures outside { IfErr result IsStreamHostError }
    ensures size { IfOk result (λ piece. length piece.items ≡ count) }
    ensures cause { Caused result (W.files store.old) (W.faults store.old) (W.faults store.new) }
    ensures store { HoldsSameFiles W.files W.building store.old store.new }
    ensures asks { W.asks store.new ≤ W.asks store.old + 1 }
{
    let Ok(mut piece) = zeros(alloc, count) else {
        return Err(StreamErr::NoMemory);
    };
    match store.read_at(n, off, piece.as_mut_slice()) {
        Ok(()) => Ok(piece),
        Err(_) => Err(StreamErr::Fault),
    }
}

// So many zeros. The only error is want of memory.
fn zeros(alloc: Global, count: usize) -> Result<Vec<u8>, AllocError>
    ensures { IfOk result (λ bytes. length bytes.items ≡ count) }
{
    vec![in alloc; 0u8; count]
}

/// Where the items of the first of these partitions lie in file `n`, whose directory begins at `dir`. One range is asked for:
/// what the directory says of the partition, and the first bytes of what it says of the next.
pub(crate) fn locate<W: Store>(
    alloc: Global,
    store: &mut W,
    n: u32,
    dir: u64,
    here: &PartRef,
    later: &[PartRef],
) -> Result<Span, StreamErr>
    requires { WhereTold (W.files store.old) ((p : Partition) × IsLocated (W.files store.old) n dir (here.now ∷ later.now) p) }
    ensures span { (p : Partition) → IsLocated (W.files store.old) n dir (here.now ∷ later.now) p → IfOk result (λ span. IsSpan (W.files store.old) n p span.from span.to) }
    ensures order { IfOk result (λ span. MayLie dir span.from span.to) }
    ensures said { IfOk result (λ span. SaysSpan dir here.now later.now span.from span.to) }
    ensures damaged { IfErr result (IsAtSpan n dir here.now later.now) }
    ensures cause { Caused result (W.files store.old) (W.faults store.old) (W.faults store.new) }
    ensures store { HoldsSameFiles W.files W.building store.old store.new }
    ensures asks { W.asks store.new ≤ W.asks store.old + 1 }
{
    let count = here.dir_len as usize + glimpse(later);
    let piece = read_range(alloc, store, n, here.dir_off, count)?;
    match span_of(alloc, piece.as_slice(), dir, here, later) {
        Ok(Some(span)) => Ok(span),
        Ok(None) => Err(StreamErr::Damaged {
            file: n,
            offset: here.dir_off,
        }),
        Err(_) => Err(StreamErr::NoMemory),
    }
}

// How many bytes are read of what the directory says of the first of these partitions.
fn glimpse(refs: &[PartRef]) -> usize
    ensures { result ≡ glimpse_length refs.now }
{
    match refs {
        [] => 0,
        [next, _rest @ ..] => next.dir_len.min(LONGEST) as usize,
    }
}

/// Where the items of a partition lie, by what the directory says of it and of the next; none where it does not say so, or says that they lie where
/// none can, so that no more is asked for than lies before the directory. The only error is want of memory.
pub(crate) fn span_of(
    alloc: Global,
    piece: &[u8],
    dir: u64,
    here: &PartRef,
    later: &[PartRef],
) -> Result<Option<Span>, AllocError>
    requires { here.now.dir_len ≤ length piece.now }
    ensures span { (from to : ℕ) → IsEntryAt piece.now here.now.key from → EndsAt dir (drop here.now.dir_len piece.now) later.now to → MayLie dir from to
        → IfOk result (λ found. found ≡ Some (record { from = from; to = to })) }
    ensures begins { (from : ℕ) → IsEntryAt piece.now here.now.key from → IfOk result (λ found. IfSome found (λ span. from ≡ span.from)) }
    ensures ends { (to : ℕ) → EndsAt dir (drop here.now.dir_len piece.now) later.now to → IfOk result (λ found. IfSome found (λ span. to ≡ span.to)) }
    ensures order { IfOk result (λ found. IfSome found (λ span. MayLie dir span.from span.to)) }
{
    let Some(from) = part_offset(alloc, piece, &here.key)? else {
        return Ok(None);
    };
    let Some(to) = end_of(alloc, &piece[here.dir_len as usize..], dir, later)? else {
        return Ok(None);
    };
    if to < from {
        return Ok(None);
    }
    if dir <= to {
        return Ok(None);
    }
    Ok(Some(Span { from, to }))
}

// Where the partition before these ends: where the first of them begins, or before the stop.
fn end_of(
    alloc: Global,
    bytes: &[u8],
    dir: u64,
    later: &[PartRef],
) -> Result<Option<u64>, AllocError>
    ensures { (to : ℕ) → EndsAt dir bytes.now later.now to → IfOk result (λ found. found ≡ Some to) }
{
    match later {
        [] => Ok(dir.checked_sub(1)),
        [next, _rest @ ..] => part_offset(alloc, bytes, &next.key),
    }
}

// Where the part of this key begins, of which the directory speaks in the bytes first; none where it does not.
fn part_offset(alloc: Global, bytes: &[u8], key: &PartKey) -> Result<Option<u64>, AllocError>
    ensures { (off : ℕ) → IsEntryAt bytes.now key.now off → IfOk result (λ found. found ≡ Some off) }
{
    let _limits = key.as_slice();
    let Some(rest) = behind(ENTRY, bytes) else {
        return Ok(None);
    };
    let Some((found, size)) = read_part_key(alloc, rest)? else {
        return Ok(None);
    };
    if found != *key {
        return Ok(None);
    }
    Ok(number_at(&rest[size..]))
}

// The number in the first eight bytes, if there are as many.
#[tactic(auto, unfolding(crate::specs::calls::Rebuilt::number_at_front))]
fn number_at(bytes: &[u8]) -> Option<u64>
    ensures { result ≡ number_at_front bytes.now }
{
    let (front, _rest) = bytes.split_at_checked(8)?;
    Some(u64::from_le_bytes([
        front[0], front[1], front[2], front[3], front[4], front[5], front[6], front[7],
    ]))
}
