//! The store: segments in which objects stand, and the segments' books.
ghost use Rattle.std.specs.Prelude.{◌≡◌, ◌≢◌, ℕ, ◌+◌, ◌-◌, ◌*◌, ◌/◌, ◌%◌, ◌^◌, ◌<◌, ◌≤◌, [], ◌∷◌, ◌++◌, length, replicate, slice_index_or, slice_set, Option, Some, None, IsSome, IsSomeAnd, IfOk, is_some};
ghost use Rattle.lsa_kinds.specs.Kinds.{links_of};
ghost use Rattle.lsa_pool.specs.declared.State.TheVariants.{Active, Closed};
ghost use Rattle.lsa_pool.specs.Account.{IsSound};
ghost use Rattle.lsa_pool.specs.Room.{nothing, usage_of, free_count, live_sum, active_of, active_room, spare_of};
ghost use Rattle.lsa_yard.specs.Cells.{size_of, extent, body_at, fresh, with_link, with_bytes, gap_of};
ghost use Rattle.lsa_store.specs.Objects.{cells_of, cell_in, body_in, word_in, rounded_size, object_count, IsChangedIn, IsPutIn};
ghost use Rattle.lsa_store.specs.Stock.{stock_of, sparse_of, IsTaken, IsGivenBack};
ghost use Rattle.lsa_store.specs.calls.Stock.{IsTurned, IsCredited};

use crate::place::Ref;
use lsa_kinds::{Kind, links};
use lsa_pool::Pool;
use lsa_yard::Yards;
use std::alloc::{AllocError, Global};
use std::marker::Model;

/// Segments of `S` bytes each, `S` a multiple of 64 and at most 2 ^ 27: the cells that stand in each, and the segments' books.
#[derive(Drop)]
pub struct Store<const S: usize> {
    yards: Yards<S>,
    pool: Pool<S>,
    active: u32,
    count: usize,
}

impl<const S: usize> Model for Store<S> {
    ghost use Rattle.std.specs.Prelude.{◌≡◌, Some};
    ghost use Rattle.lsa_pool.specs.Room.{active_of};
    ghost use Rattle.lsa_store.specs.Objects.{object_count};
    ghost use Rattle.lsa_store.specs.Stored.{Stored, IsStored};

    ghost Value = { Stored };

    ghost view = { λ s. record { cells = s.yards; usages = s.pool } };

    ghost invariant = { λ s. IsStored S (record { cells = s.yards; usages = s.pool }) × (active_of s.pool ≡ Some s.active) × (s.count ≡ object_count s.yards) };
}

impl<const S: usize> Store<S> {
    ghost use Rattle.lsa_store.specs.Stored.{IsStored};

    /// A store of so many segments, 4 to 4096, all taken now, in which nothing stands. Their bytes are not written before they are used.
    pub fn open(alloc: Global, segments: u32) -> Result<Self, AllocError>
        requires few { segments ≤ 4096 }
        requires some { 4 ≤ segments }
        requires small { S ≤ 2 ^ 27 }
        requires even { S % 64 ≡ 0 }
        ensures cells { IfOk result (λ s. s.cells ≡ replicate segments []) }
        ensures usages { IfOk result (λ s. s.usages ≡ record nothing { state = Active } ∷ replicate (segments - 1) nothing) }
        ensures spare { IfOk result (λ s. spare_of S s.usages ≡ (segments - 2) * (7 * S / 8) + (S - S / 8)) }
        ensures free { IfOk result (λ s. free_count s.usages + 1 ≡ segments) }
        ensures live { IfOk result (λ s. live_sum s.usages ≡ 0) }
        ensures budget { IfOk result (λ s. length s.usages ≡ segments) }
    {
        let pool = Pool::new(alloc, segments)?;
        let yards = Yards::new(alloc, segments)?;
        Ok(assemble(yards, pool))
    }

    /// Shows what every store keeps: what the books tell of each segment is what stands there, each cell has its header and its links and
    /// takes an eighth of a segment at most, and one segment is active. It does nothing.
    pub fn known(&self)
        ensures { IsStored S self.now }
    {
        let _ = &self.pool;
    }

    /// The segments' books.
    pub fn pool(&self) -> &Pool<S>
        ensures value { result.now ≡ self.now.usages }
        ensures active { IsSome (active_of self.now.usages) }
    {
        &self.pool
    }

    /// The closed segment with least live bytes, of several the one with the least number; None exactly where no closed segment
    /// is sparse.
    pub fn sparse(&self) -> Option<u32>
        ensures { result ≡ sparse_of S self.now.usages }
    {
        let _ = &self.yards;
        if self.pool.sparse() == 0 {
            return None;
        }
        match self.pool.sparsest() {
            Some(n) if self.pool.usage(n).live <= 3 * S / 4 => Some(n),
            _ => None,
        }
    }

    /// How many objects there are.
    pub fn count(&self) -> usize
        ensures { result ≡ object_count self.now.cells }
    {
        self.count
    }

    /// Whether an object begins at this place: a walk over the cells of its segment.
    pub fn has(&self, r: Ref) -> bool
        ensures { result ≡ is_some (body_in self.now.cells r) }
    {
        if !self.yards.has(r.segment as usize, r.offset as usize) {
            return false;
        }
        match self.kind_at(r) {
            Some(_) => true,
            None => false,
        }
    }

    /// How many bytes of segment `n` are used: so far its cells reach, of which the first begins at 0.
    pub fn end(&self, n: u32) -> usize
        requires { n < length self.now.usages }
        ensures { result ≡ extent (cells_of self.now.cells n) }
    {
        S - self.yards.room(n as usize)
    }

    /// The kind of the object that begins at this place; None for the gap that a freed one left.
    pub fn kind_at(&self, r: Ref) -> Option<Kind>
        requires { IsSome (cell_in self.now.cells r) }
        ensures { IsSomeAnd (cell_in self.now.cells r) (λ c. c.kind ≡ result) }
    {
        self.yards.kind(r.segment as usize, r.offset as usize)
    }

    /// How many bytes the cell takes that begins at this place: the next one begins so many bytes behind it.
    pub fn size_at(&self, r: Ref) -> usize
        requires { IsSome (cell_in self.now.cells r) }
        ensures { IsSomeAnd (cell_in self.now.cells r) (λ c. size_of c ≡ result) }
    {
        self.yards.size(r.segment as usize, r.offset as usize)
    }

    /// The kind of an object.
    pub fn kind(&self, r: Ref) -> Kind
        requires { IsSome (body_in self.now.cells r) }
        ensures { IsSomeAnd (body_in self.now.cells r) (λ b. b.0 ≡ result) }
    {
        self.yards.object(r.segment as usize, r.offset as usize)
    }

    /// The bytes of an object that follow its links.
    pub fn bytes(&self, r: Ref) -> &[u8]
        requires { IsSome (body_in self.now.cells r) }
        ensures { IsSomeAnd (body_in self.now.cells r) (λ b. b.1 ≡ result.now) }
    {
        self.yards.bytes(r.segment as usize, r.offset as usize)
    }

    /// Writes over bytes of an object that follow its links, from `from` on.
    pub fn write(&mut self, r: Ref, from: usize, bytes: &[u8])
        requires { IsSomeAnd (body_in self.old.cells r) (λ b. from + length bytes.now ≤ length b.1) }
        ensures changed { IsChangedIn self.old.cells self.new.cells r (with_bytes from bytes.now) }
        ensures usages { self.new.usages ≡ self.old.usages }
    {
        self.yards
            .write(r.segment as usize, r.offset as usize, from, bytes);
    }

    /// The number in a link of an object.
    pub fn word(&self, r: Ref, field: usize) -> u64
        requires { IsSomeAnd (body_in self.now.cells r) (λ b. field < links_of b.0) }
        ensures { result ≡ word_in self.now.cells r field }
    {
        self.yards
            .link(r.segment as usize, r.offset as usize, field)
    }

    /// Writes a number into a link of an object.
    pub fn set_word(&mut self, r: Ref, field: usize, value: u64)
        requires { IsSomeAnd (body_in self.old.cells r) (λ b. field < links_of b.0) }
        ensures changed { IsChangedIn self.old.cells self.new.cells r (with_link field value) }
        ensures usages { self.new.usages ≡ self.old.usages }
    {
        self.yards
            .set_link(r.segment as usize, r.offset as usize, field, value);
    }

    /// Makes an object of this kind with these bytes behind its links, which are all 0, and gives its place. Where the active segment
    /// has too little room, a free one is active then, perhaps that of the reserve.
    pub fn add(&mut self, kind: Kind, bytes: &[u8]) -> Ref
        requires fits { rounded_size kind (length bytes.now) ≤ S / 8 }
        requires stock { 0 < stock_of S self.old.usages }
        ensures put { IsPutIn self.old.cells self.new.cells result (fresh kind bytes.now) }
        ensures active { active_of self.new.usages ≡ Some result.segment }
        ensures taken { IsTaken S self.old.usages self.new.usages (rounded_size kind (length bytes.now)) }
    {
        let _ = &self.yards;
        let size = object_size(kind, bytes.len());
        self.make_room(size);
        self.put(kind, bytes, size)
    }

    /// Makes an object with the kind and the bytes of another one, which lies in a closed segment. Its links are all 0.
    pub fn copy(&mut self, r: Ref) -> Ref
        requires object { IsSome (body_in self.old.cells r) }
        requires closed { (usage_of self.old.usages r.segment).state ≡ Closed }
        requires stock { 0 < stock_of S self.old.usages }
        ensures put { IsSomeAnd (body_in self.old.cells r) (λ b. IsPutIn self.old.cells self.new.cells result (fresh b.0 b.1)) }
        ensures active { active_of self.new.usages ≡ Some result.segment }
        ensures taken { IsSomeAnd (body_in self.old.cells r) (λ b. IsTaken S self.old.usages self.new.usages (rounded_size b.0 (length b.1))) }
    {
        let _ = &self.yards;
        let size = self.size_at(r);
        self.make_room(size);
        self.carry(r, size)
    }

    /// Lets an object be a gap, of the same size.
    pub fn kill(&mut self, r: Ref)
        requires { IsSome (body_in self.old.cells r) }
        ensures changed { IsChangedIn self.old.cells self.new.cells r gap_of }
        ensures given { IsSomeAnd (body_in self.old.cells r) (λ b. IsGivenBack S self.old.usages self.new.usages r.segment (rounded_size b.0 (length b.1))) }
    {
        let size = self.size_at(r);
        self.yards.kill(r.segment as usize, r.offset as usize);
        self.pool.debit(r.segment, size);
        self.count -= 1;
    }

    /// Gives a closed segment back, in which nothing is live: nothing stands there, and it is free.
    pub fn release(&mut self, n: u32)
        requires closed { (usage_of self.old.usages n).state ≡ Closed }
        requires empty { (usage_of self.old.usages n).live ≡ 0 }
        ensures cells { self.new.cells ≡ slice_set self.old.cells n [] }
        ensures usages { self.new.usages ≡ slice_set self.old.usages n nothing }
        ensures free { free_count self.new.usages ≡ free_count self.old.usages + 1 }
        ensures room { active_room S self.new.usages ≡ active_room S self.old.usages }
        ensures live { live_sum self.new.usages ≡ live_sum self.old.usages }
        ensures budget { length self.new.usages ≡ length self.old.usages }
    {
        self.pool.give(n);
        self.yards.clear(n as usize);
    }

    // How many bytes of the active segment are not used.
    fn room(&self) -> usize
        ensures room { result ≡ active_room S self.now.usages }
        ensures even { S % 64 ≡ 0 }
    {
        self.yards.room(self.active as usize)
    }

    // Closes the active segment, and lets a free one be the active one.
    fn turn(&mut self)
        requires { 0 < free_count self.old.usages }
        ensures cells { self.new.cells ≡ self.old.cells }
        ensures room { active_room S self.new.usages ≡ S }
        ensures free { free_count self.new.usages + 1 ≡ free_count self.old.usages }
        ensures live { live_sum self.new.usages ≡ live_sum self.old.usages }
        ensures budget { length self.new.usages ≡ length self.old.usages }
        ensures closed { (n : ℕ) → (usage_of self.old.usages n).state ≡ Closed → usage_of self.new.usages n ≡ usage_of self.old.usages n }
    {
        self.pool.close(self.active);
        self.active = self.pool.take();
    }

    // Sees to it that the active segment has room for an object of this size, perhaps from the reserve.
    fn make_room(&mut self, size: usize)
        requires fits { size ≤ S / 8 }
        requires stock { 0 < stock_of S self.old.usages }
        ensures cells { self.new.cells ≡ self.old.cells }
        ensures room { size ≤ active_room S self.new.usages }
        ensures turned { IsTurned S self.old.usages self.new.usages size }
        ensures live { live_sum self.new.usages ≡ live_sum self.old.usages }
        ensures budget { length self.new.usages ≡ length self.old.usages }
        ensures closed { (n : ℕ) → (usage_of self.old.usages n).state ≡ Closed → usage_of self.new.usages n ≡ usage_of self.old.usages n }
    {
        if self.room() < size {
            self.turn();
        }
    }

    // Puts an object into the active segment, which has room.
    fn put(&mut self, kind: Kind, bytes: &[u8], size: usize) -> Ref
        requires size { size ≡ rounded_size kind (length bytes.now) }
        requires room { size ≤ active_room S self.old.usages }
        requires fits { size ≤ S / 8 }
        ensures put { IsPutIn self.old.cells self.new.cells result (fresh kind bytes.now) }
        ensures credited { IsCredited S self.old.usages self.new.usages result.segment size }
    {
        let segment = self.active;
        let offset = self.yards.push(segment as usize, kind, bytes);
        self.pool.credit(segment, size);
        self.count += 1;
        Ref {
            segment,
            offset: offset as u32,
        }
    }

    // Puts an object with the kind and the bytes of one of a closed segment into the active one, which has room.
    fn carry(&mut self, r: Ref, size: usize) -> Ref
        requires object { IsSomeAnd (body_in self.old.cells r) (λ b. rounded_size b.0 (length b.1) ≡ size) }
        requires closed { (usage_of self.old.usages r.segment).state ≡ Closed }
        requires room { size ≤ active_room S self.old.usages }
        ensures put { IsSomeAnd (body_in self.old.cells r) (λ b. IsPutIn self.old.cells self.new.cells result (fresh b.0 b.1)) }
        ensures credited { IsCredited S self.old.usages self.new.usages result.segment size }
    {
        let segment = self.active;
        let offset = self
            .yards
            .copy(r.segment as usize, r.offset as usize, segment as usize);
        self.pool.credit(segment, size);
        self.count += 1;
        Ref {
            segment,
            offset: offset as u32,
        }
    }
}

// How many bytes an object takes.
fn object_size(kind: Kind, len: usize) -> usize
    requires { len ≤ 2 ^ 32 }
    ensures { result ≡ rounded_size kind len }
{
    (8 + 8 * links(kind) + len + 7) / 8 * 8
}

// A store in which nothing stands, of its parts.
fn assemble<const S: usize>(yards: Yards<S>, pool: Pool<S>) -> Store<S>
    requires few { length pool ≤ 4096 }
    requires some { 4 ≤ length pool }
    requires small { S ≤ 2 ^ 27 }
    requires even { S % 64 ≡ 0 }
    requires usages { pool ≡ record nothing { state = Active } ∷ replicate (length pool - 1) nothing }
    requires active { active_of pool ≡ Some 0 }
    requires sound { IsSound S pool }
    requires yards { yards ≡ replicate (length pool) [] }
    ensures cells { result.cells ≡ yards.entry }
    ensures usages { result.usages ≡ pool.entry }
{
    Store {
        yards,
        pool,
        active: 0,
        count: 0,
    }
}
