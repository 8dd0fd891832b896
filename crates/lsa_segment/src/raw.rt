//! Raw memory: where a block of bytes begins, who owns its bytes, and who may give it back. A byte is unset until it is written.
ghost use Rattle.std.specs.Prelude.{◌≡◌, ℕ, ◌^◌, ◌<◌, List, Option, Some, None, map, length, take, drop, replicate, slice_set, IfOk};
ghost use Rattle.lsa_segment.specs.Raw.{byte_row};
ghost use base.Fml.{ftrue};
ghost use denote.RawPtr.{Ptr};
ghost use Rattle.circular_buffer.specs.Places.{IsRun};
ghost use Rattle.circular_buffer.specs.Ownership.{cells_own, cells_lent, deed_owns};

use std::alloc::{AllocError, Allocator};
use std::marker::{Model, PhantomData};
use std::slice;

/// Where a block begins. It owns nothing.
#[derive(Clone, Copy)]
pub(crate) struct Start {
    at: *mut u8,
}

/// The owner of a block's bytes. It takes no space.
pub(crate) struct Owned {
    mark: PhantomData<*const u8>,
    ghost at: { Ptr },
    ghost bytes: { List (Option ℕ) },
}

impl Model for Owned {
    ghost also_owns = { λ o. cells_own byte_row o.at o.bytes };

    ghost also_shares = { λ o _ κ. cells_lent byte_row o.at o.bytes κ };
}

/// The right to give the block of `len` bytes back to `alloc`. It takes no space.
pub(crate) struct Right<A: Allocator> {
    mark: PhantomData<*const A>,
    ghost at: { Ptr },
    ghost len: { ℕ },
    ghost alloc: { A },
}

impl<A: Allocator> Model for Right<A> {
    ghost also_owns = { λ r. deed_owns byte_row (A.dealloc_token r.alloc) r.at r.len };

    ghost also_shares = { λ _ _ _. ftrue };
}

pub(crate) fn allocate<A: Allocator>(
    alloc: &A,
    len: usize,
) -> Result<(Start, Owned, Right<A>), AllocError>
    requires { len < 2 ^ 63 }
    ensures { IfOk result (λ r. (r.1.at ≡ r.0.at) × (r.1.bytes ≡ replicate len None) × (r.2.at ≡ r.0.at) × (r.2.len ≡ len) × (r.2.alloc ≡ alloc.now)) }
{
    match alloc.allocate(len, 1) {
        Ok(at) => Ok((
            Start { at },
            Owned { mark: PhantomData },
            Right { mark: PhantomData },
        )),
        Err(error) => Err(error),
    }
}

pub(crate) fn deallocate<A: Allocator>(
    alloc: &A,
    start: Start,
    len: usize,
    owned: Owned,
    right: Right<A>,
)
    requires { (owned.at ≡ start.at) × (length owned.bytes ≡ len) × (right.at ≡ start.at) × (right.len ≡ len) × (right.alloc ≡ alloc.now) }
{
    let Owned { mark: _ } = owned;
    let Right { mark: _ } = right;
    unsafe {
        alloc.deallocate(start.at, len, 1);
    }
}

impl Owned {
    pub(crate) fn write(&mut self, start: Start, index: usize, byte: u8)
        requires { (start.at ≡ self.old.at) × (index < length self.old.bytes) }
        ensures { (self.new.at ≡ self.old.at) × (self.new.bytes ≡ slice_set self.old.bytes index (Some byte)) }
    {
        unsafe { start.at.add(index).write(byte) }
    }

    /// The `len` bytes from `from` on.
    pub(crate) fn slice(&self, start: Start, from: usize, len: usize) -> &[u8]
        requires { (start.at ≡ self.now.at) × IsRun self.now.bytes from len }
        ensures { take len (drop from self.now.bytes) ≡ map Some result.now }
    {
        unsafe { slice::from_raw_parts(start.at.add(from), len) }
    }
}
