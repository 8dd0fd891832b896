//! The yards: in each segment objects, one behind the other, each with its header and its links.
ghost use Rattle.std.specs.Prelude.{◌≡◌, ◌≢◌, ℕ, ◌+◌, ◌-◌, ◌*◌, ◌^◌, ◌<◌, ◌≤◌, [], ◌∷◌, ◌++◌, length, replicate, slice_index_or, slice_set, is_some, All, IsSome, IsSomeAnd, IfOk};
ghost use Rattle.lsa_kinds.specs.Fields.{number, spelled_number};
ghost use Rattle.lsa_kinds.specs.Kinds.{kind_code, links_of, up8};
ghost use Rattle.lsa_yard.specs.Cells.{size_of, extent, cell_at, body_at, link_in, fresh, with_link, with_bytes, gap_of, IsChangedAt};
ghost use Rattle.lsa_yard.specs.Spelled.{size_field, IsProper};
ghost use Rattle.lsa_yard.specs.calls.Spelled.{head_of};

use lsa_kinds::layout::header::Size;
use lsa_kinds::{Kind, links, round_up};
use lsa_segment::Segments;
use std::alloc::{AllocError, Global};
use std::marker::Model;

/// Segments of `S` bytes each, `S` at most 2 ^ 27, seen as the cells that stand in each: objects, and the gaps that freed ones left.
#[derive(Drop)]
pub struct Yards<const S: usize> {
    segments: Segments<S>,
}

impl<const S: usize> Model for Yards<S> {
    ghost use Rattle.std.specs.Prelude.{List, map};
    ghost use Rattle.lsa_yard.specs.Cells.{Cell};
    ghost use Rattle.lsa_yard.specs.Spelled.{cells_in, AreSpelled};

    ghost Value = { List (List Cell) };

    ghost view = { λ y. map cells_in y.segments };

    ghost invariant = { λ y. AreSpelled S y.segments };
}

impl<const S: usize> Yards<S> {
    /// So many segments, at most 4096, in which nothing stands. Their bytes are not written before they are used.
    pub fn new(alloc: Global, count: u32) -> Result<Self, AllocError>
        requires few { count ≤ 4096 }
        requires small { S ≤ 2 ^ 27 }
        ensures { IfOk result (λ y. y ≡ replicate count []) }
    {
        Ok(Yards {
            segments: Segments::new(alloc, count)?,
        })
    }

    /// Shows what all yards keep: the size of each cell fits its header, and each object has its links; what stands in a segment fits
    /// it. It does nothing.
    pub fn known(&self)
        ensures proper { (n : ℕ) → All IsProper (slice_index_or self.now n []) }
        ensures within { (n : ℕ) → extent (slice_index_or self.now n []) ≤ S }
        ensures small { S ≤ 2 ^ 27 }
    {
        let _ = &self.segments;
    }

    /// How many segments there are.
    pub fn count(&self) -> usize
        ensures { result ≡ length self.now }
    {
        self.segments.count()
    }

    /// How many bytes of segment `n` are not used.
    pub fn room(&self, n: usize) -> usize
        requires { n < length self.now }
        ensures { result + extent (slice_index_or self.now n []) ≡ S }
    {
        self.segments.room(n)
    }

    /// Puts an object of this kind with these bytes behind the last cell of segment `n`, where there is room, and gives the offset at
    /// which it begins. None of its links is set.
    pub fn push(&mut self, n: usize, kind: Kind, bytes: &[u8]) -> usize
        requires segment { n < length self.old }
        requires fits { extent (slice_index_or self.old n []) + size_of (fresh kind bytes.now) ≤ S }
        ensures offset { result ≡ extent (slice_index_or self.old n []) }
        ensures after { self.new ≡ slice_set self.old n (slice_index_or self.old n [] ++ fresh kind bytes.now ∷ []) }
    {
        let offset = begin(&mut self.segments, n, kind, bytes.len());
        self.segments.push(n, bytes);
        pad(&mut self.segments, n, 8 + 8 * links(kind) + bytes.len());
        offset
    }

    /// Puts an object with the kind and the bytes of the one that begins at the offset in segment `from` behind the last cell of another
    /// segment, where there is room, and gives the offset at which it begins. None of its links is set.
    pub fn copy(&mut self, from: usize, offset: usize, to: usize) -> usize
        requires differ { from ≢ to }
        requires segment { to < length self.old }
        requires fits { IsSomeAnd (body_at (slice_index_or self.old from []) offset) (λ b. extent (slice_index_or self.old to []) + size_of (fresh b.0 b.1) ≤ S) }
        ensures offset { result ≡ extent (slice_index_or self.old to []) }
        ensures after { IsSomeAnd (body_at (slice_index_or self.old from []) offset) (λ b. self.new ≡ slice_set self.old to (slice_index_or self.old to [] ++ fresh b.0 b.1 ∷ [])) }
    {
        let kind = self.object(from, offset);
        let head = 8 + 8 * links(kind);
        let len = self.len(from, offset) - head;
        let at = begin(&mut self.segments, to, kind, len);
        self.segments.copy_into(from, offset + head, len, to);
        pad(&mut self.segments, to, head + len);
        at
    }

    /// The kind of the object that begins at the offset in segment `n`; None for a gap.
    pub fn kind(&self, n: usize, offset: usize) -> Option<Kind>
        requires { IsSome (cell_at (slice_index_or self.now n []) offset) }
        ensures { IsSomeAnd (cell_at (slice_index_or self.now n []) offset) (λ c. c.kind ≡ result) }
    {
        Kind::from_code(self.segments.lend(n, offset, 1)[0])
    }

    /// The kind of an object.
    pub fn object(&self, n: usize, offset: usize) -> Kind
        requires { IsSome (body_at (slice_index_or self.now n []) offset) }
        ensures { IsSomeAnd (body_at (slice_index_or self.now n []) offset) (λ b. b.0 ≡ result) }
    {
        match self.kind(n, offset) {
            Some(kind) => kind,
            None => unreachable!(),
        }
    }

    /// How many bytes the cell takes that begins at the offset in segment `n`: the next one begins so many bytes behind it.
    pub fn size(&self, n: usize, offset: usize) -> usize
        requires { IsSome (cell_at (slice_index_or self.now n []) offset) }
        ensures { IsSomeAnd (cell_at (slice_index_or self.now n []) offset) (λ c. size_of c ≡ result) }
    {
        round_up(self.len(n, offset))
    }

    // How many bytes the cell has that begins at the offset, with its header, before they are rounded up.
    fn len(&self, n: usize, offset: usize) -> usize
        requires { IsSome (cell_at (slice_index_or self.now n []) offset) }
        ensures cell { IsSomeAnd (cell_at (slice_index_or self.now n []) offset) (λ c. 8 + length c.rest ≡ result) }
        ensures small { result ≤ 2 ^ 27 }
    {
        Size::get(self.segments.lend(n, offset, 8)) as usize
    }

    /// The bytes of an object that follow its links.
    pub fn bytes(&self, n: usize, offset: usize) -> &[u8]
        requires { IsSome (body_at (slice_index_or self.now n []) offset) }
        ensures { IsSomeAnd (body_at (slice_index_or self.now n []) offset) (λ b. b.1 ≡ result.now) }
    {
        let head = 8 + 8 * links(self.object(n, offset));
        self.segments
            .lend(n, offset + head, self.len(n, offset) - head)
    }

    /// Writes over bytes of an object that follow its links, from `from` on.
    pub fn write(&mut self, n: usize, offset: usize, from: usize, bytes: &[u8])
        requires { IsSomeAnd (body_at (slice_index_or self.old n []) offset) (λ b. from + length bytes.now ≤ length b.1) }
        ensures { IsChangedAt self.old self.new n offset (with_bytes from bytes.now) }
    {
        let head = 8 + 8 * links(self.object(n, offset));
        self.segments.write(n, offset + head + from, bytes);
    }

    /// The number in a link of an object.
    pub fn link(&self, n: usize, offset: usize, field: usize) -> u64
        requires { IsSomeAnd (body_at (slice_index_or self.now n []) offset) (λ b. field < links_of b.0) }
        ensures { IsSomeAnd (cell_at (slice_index_or self.now n []) offset) (λ c. link_in field c ≡ result) }
    {
        word(self.segments.lend(n, offset + 8 + 8 * field, 8))
    }

    /// Writes a number into a link of an object.
    pub fn set_link(&mut self, n: usize, offset: usize, field: usize, value: u64)
        requires { IsSomeAnd (body_at (slice_index_or self.old n []) offset) (λ b. field < links_of b.0) }
        ensures { IsChangedAt self.old self.new n offset (with_link field value) }
    {
        self.segments
            .write(n, offset + 8 + 8 * field, &word_bytes(value));
    }

    /// Lets an object be a gap. It keeps its size.
    pub fn kill(&mut self, n: usize, offset: usize)
        requires { IsSome (body_at (slice_index_or self.old n []) offset) }
        ensures { IsChangedAt self.old self.new n offset gap_of }
    {
        self.segments.write(n, offset, &[0]);
    }

    /// Whether a cell begins at the offset in segment `n`: a walk over those before it.
    pub fn has(&self, n: usize, offset: usize) -> bool
        ensures { result ≡ is_some (cell_at (slice_index_or self.now n []) offset) }
    {
        if n >= self.count() {
            return false;
        }
        let end = S - self.room(n);
        let mut at = 0;
        while at < end && at < offset {
            at += self.size(n, at);
        }
        at < end && at == offset
    }

    /// Forgets all cells of segment `n`: nothing stands there.
    pub fn clear(&mut self, n: usize)
        requires { n < length self.old }
        ensures { self.new ≡ slice_set self.old n [] }
    {
        self.segments.clear(n);
    }
}

// Appends the header and the links of an object of this kind with so many bytes of its own, and gives the offset at which they begin. No
// link is set.
fn begin<const S: usize>(segments: &mut Segments<S>, n: usize, kind: Kind, len: usize) -> usize
    requires segment { n < length segments.old }
    requires fits { length (slice_index_or segments.old n []) + (8 + 8 * links_of kind + len) ≤ S }
    requires small { S ≤ 2 ^ 27 }
    ensures offset { result ≡ length (slice_index_or segments.old n []) }
    ensures after { segments.new ≡ slice_set segments.old n (slice_index_or segments.old n [] ++ head_of kind len) }
{
    let links_size = 8 * links(kind);
    let offset = segments.push(n, &header(kind, (8 + links_size + len) as u32));
    segments.push(n, zeros(links_size));
    offset
}

// The header of an object of this kind and this size.
fn header(kind: Kind, size: u32) -> [u8; 8]
    ensures { result ≡ kind_code kind ∷ 0 ∷ 0 ∷ 0 ∷ size_field size }
{
    let size = size.to_le_bytes();
    [kind.code(), 0, 0, 0, size[0], size[1], size[2], size[3]]
}

// Appends zeros behind an object of so many bytes, up to its rounded size.
fn pad<const S: usize>(segments: &mut Segments<S>, n: usize, size: usize)
    requires segment { n < length segments.old }
    requires fits { length (slice_index_or segments.old n []) + (up8 size - size) ≤ S }
    requires small { size < 2 ^ 32 }
    ensures { segments.new ≡ slice_set segments.old n (slice_index_or segments.old n [] ++ replicate (up8 size - size) 0) }
{
    segments.push(n, zeros(round_up(size) - size));
}

// The number that 8 bytes spell.
fn word(bytes: &[u8]) -> u64
    requires { length bytes.now ≡ 8 }
    ensures { result ≡ number bytes.now }
{
    match <[u8; 8]>::try_from(bytes) {
        Ok(word) => u64::from_le_bytes(word),
        Err(_) => unreachable!(),
    }
}

// The 8 bytes that spell a number.
fn word_bytes(value: u64) -> [u8; 8]
    ensures { result ≡ spelled_number 8 value }
{
    value.to_le_bytes()
}

static ZEROS: [u8; 40] = [0; 40];

// So many zeros.
fn zeros(count: usize) -> &'static [u8]
    requires { count ≤ 40 }
    ensures { result.now ≡ replicate count 0 }
{
    &ZEROS[..count]
}
