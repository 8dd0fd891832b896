//! The usages of segments, with the sums over them that are asked often.
ghost use Rattle.std.specs.Prelude.{◌≡◌, ◌^◌, ◌<◌, ◌≤◌, length, replicate, slice_set, IfOk};
ghost use Rattle.lsa_pool.specs.Room.{nothing, usage_of, live_sum, sparse_count};
ghost use Rattle.lsa_pool.specs.calls.Account.{is_counted};

use crate::{State, Usage};
use std::alloc::{AllocError, Global};
use std::marker::Model;

/// The usages of segments of `S` bytes each, by number. How many bytes are live in all, and how many segments are sparse, is kept.
#[derive(Drop)]
pub(crate) struct Tally<const S: usize> {
    usages: Vec<Usage>,
    live: usize,
    sparse: usize,
}

impl<const S: usize> Model for Tally<S> {
    ghost use Rattle.std.specs.Prelude.{List};
    ghost use Rattle.lsa_pool.specs.declared.Usage.{Usage};
    ghost use Rattle.lsa_pool.specs.Account.{IsTallied};

    ghost Value = { List Usage };

    ghost view = { λ t. t.usages.items };

    ghost invariant = { λ t. IsTallied S t.usages.items t.live t.sparse };
}

impl<const S: usize> Tally<S> {
    /// The usages of so many segments, at most 4096, all of them free.
    pub(crate) fn new(alloc: Global, count: u32) -> Result<Self, AllocError>
        requires few { count ≤ 4096 }
        requires small { S ≤ 2 ^ 27 }
        ensures { IfOk result (λ t. t ≡ replicate count nothing) }
    {
        Ok(Tally {
            usages: Vec::from_elem(alloc, FREE, count as usize)?,
            live: 0,
            sparse: 0,
        })
    }

    /// What segment `n` holds.
    pub(crate) fn get(&self, n: u32) -> Usage
        requires { n < length self.now }
        ensures { result ≡ usage_of self.now n }
    {
        self.usages[n as usize]
    }

    /// Segment `n` holds this now.
    pub(crate) fn set(&mut self, n: u32, usage: Usage)
        requires inside { n < length self.old }
        requires small { usage.live ≤ 2 ^ 27 }
        ensures { self.new ≡ slice_set self.old n usage }
    {
        let was = self.usages[n as usize];
        self.usages[n as usize] = usage;
        self.live = self.live - was.live + usage.live;
        self.sparse = self.sparse - counted::<S>(was) + counted::<S>(usage);
    }

    /// The usages.
    pub(crate) fn as_slice(&self) -> &[Usage]
        ensures value { result.now ≡ self.now }
        ensures few { length result.now ≤ 4096 }
    {
        self.usages.as_slice()
    }

    /// How many bytes of objects are live.
    pub(crate) fn live(&self) -> usize
        ensures { result ≡ live_sum self.now }
    {
        self.live
    }

    /// How many closed segments are sparse.
    pub(crate) fn sparse(&self) -> usize
        ensures { result ≡ sparse_count S self.now }
    {
        self.sparse
    }
}

/// A free segment holds nothing.
pub(crate) const FREE: Usage = Usage {
    state: State::Free,
    used: 0,
    live: 0,
};

// 1 for a closed segment with three quarters of its bytes live at most, else 0.
fn counted<const S: usize>(usage: Usage) -> usize
    requires { S ≤ 2 ^ 27 }
    ensures { result ≡ is_counted S usage }
{
    if usage.state == State::Closed && usage.live <= 3 * S / 4 {
        1
    } else {
        0
    }
}
