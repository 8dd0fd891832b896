//! The states of the segments of one pool: which is active, which are free, how many bytes of each are used and live.
#![tactic(auto)]

ghost use Rattle.std.specs.Prelude.{◌≡◌, ◌≢◌, ℕ, ◌+◌, ◌-◌, ◌*◌, ◌/◌, ◌%◌, ◌^◌, ◌<◌, ◌≤◌, [], ◌∷◌, length, replicate, slice_index, slice_set, vec_len, Option, Some, None, IsSome, IsNone, IfOk, IfSome};
ghost use Rattle.lsa_pool.specs.Room.{nothing, usage_of, free_count, live_sum, active_of, spare_of, sparse_count, sparsest_of};
ghost use Rattle.lsa_pool.specs.Account.{IsSound};

mod tally;

use std::alloc::{AllocError, Global};
use std::marker::Model;
use tally::{FREE, Tally};

/// What a segment is used for.
#[derive(Clone, Copy, Debug, PartialEq, Eq)]
pub enum State {
    /// It holds nothing.
    Free,
    /// New objects go into it. At most one segment is active.
    Active,
    /// It is full, or was taken out of use.
    Closed,
}

/// The state of a segment, and how many of its bytes are used, and of these are live.
#[derive(Clone, Copy)]
pub struct Usage {
    /// What it is used for.
    pub state: State,
    /// The bytes from its beginning on that were given to objects.
    pub used: usize,
    /// The bytes of objects that are still there.
    pub live: usize,
}

/// The usages of the segments of `S` bytes each, by number from 0. `S` is a multiple of 64, from 4096 to 2 ^ 27.
#[derive(Drop)]
pub struct Pool<const S: usize> {
    usages: Tally<S>,
    free_list: Vec<u32>,
    free_len: usize,
    active: Option<u32>,
}

impl<const S: usize> Model for Pool<S> {
    ghost use Rattle.std.specs.Prelude.{List};
    ghost use Rattle.lsa_pool.specs.declared.Usage.{Usage};
    ghost use Rattle.lsa_pool.specs.Account.{IsKept};

    ghost Value = { List Usage };

    ghost view = { λ p. p.usages };

    ghost invariant = { λ p. IsKept S p.usages p.free_list.items p.free_len p.active };
}

impl<const S: usize> Pool<S> {
    /// A pool of so many segments, 4 to 4096. Segment 0 is active, the others are free.
    pub fn new(alloc: Global, segments: u32) -> Result<Self, AllocError>
        requires few { segments ≤ 4096 }
        requires some { 4 ≤ segments }
        requires small { S ≤ 2 ^ 27 }
        ensures after { IfOk result (λ p. p ≡ record nothing { state = State.Active } ∷ replicate (segments - 1) nothing) }
        ensures active { IfOk result (λ p. active_of p ≡ Some 0) }
        ensures free { IfOk result (λ p. free_count p + 1 ≡ segments) }
        ensures live { IfOk result (λ p. live_sum p ≡ 0) }
        ensures sound { IfOk result (IsSound S) }
    {
        let mut usages = Tally::new(alloc, segments)?;
        usages.set(0, EMPTY);
        let free_list = descending(alloc, segments)?;
        Ok(Pool {
            usages,
            free_list,
            free_len: segments as usize - 1,
            active: Some(0),
        })
    }

    /// What segment `n` holds.
    pub fn usage(&self, n: u32) -> Usage
        requires { n < length self.now }
        ensures value { result ≡ usage_of self.now n }
        ensures sound { IsSound S self.now }
    {
        self.usages.get(n)
    }

    /// How many bytes may surely still be taken, whatever the sizes of the objects.
    pub fn spare(&self) -> usize
        requires active { IsSome (active_of self.now) }
        requires free { 0 < free_count self.now }
        ensures { result ≡ spare_of S self.now }
    {
        let room = match self.active {
            Some(n) => S - self.usages.get(n).used,
            None => 0,
        };
        (self.free_len - 1) * (7 * S / 8) + room.saturating_sub(S / 8)
    }

    /// How many segments are free.
    pub fn free(&self) -> u32
        ensures { result ≡ free_count self.now }
    {
        self.free_len as u32
    }

    /// Makes a free segment the active one, and gives its number.
    pub fn take(&mut self) -> u32
        requires free { 0 < free_count self.old }
        requires none_active { active_of self.old ≡ None }
        ensures was_free { (usage_of self.old result).state ≡ State.Free }
        ensures inside { result < length self.old }
        ensures after { self.new ≡ slice_set self.old result (record nothing { state = State.Active }) }
        ensures active { active_of self.new ≡ Some result }
        ensures free_left { free_count self.new + 1 ≡ free_count self.old }
        ensures live { live_sum self.new ≡ live_sum self.old }
        ensures sound { IsSound S self.new }
    {
        self.free_len -= 1;
        let n = self.free_list[self.free_len];
        self.usages.set(n, EMPTY);
        self.active = Some(n);
        n
    }

    /// Closes the active segment `n`.
    pub fn close(&mut self, n: u32)
        requires { active_of self.old ≡ Some n }
        ensures after { self.new ≡ slice_set self.old n (record (usage_of self.old n) { state = State.Closed }) }
        ensures active { active_of self.new ≡ None }
        ensures free { free_count self.new ≡ free_count self.old }
        ensures live { live_sum self.new ≡ live_sum self.old }
        ensures sound { IsSound S self.new }
    {
        let usage = self.usages.get(n);
        let closed = Usage {
            state: State::Closed,
            used: usage.used,
            live: usage.live,
        };
        self.usages.set(n, closed);
        self.active = None;
    }

    /// Gives the closed segment `n` back, of which nothing is live: it is free.
    pub fn give(&mut self, n: u32)
        requires closed { (usage_of self.old n).state ≡ State.Closed }
        requires empty { (usage_of self.old n).live ≡ 0 }
        ensures after { self.new ≡ slice_set self.old n nothing }
        ensures active { active_of self.new ≡ active_of self.old }
        ensures free { free_count self.new ≡ free_count self.old + 1 }
        ensures live { live_sum self.new ≡ live_sum self.old }
        ensures sound { IsSound S self.new }
    {
        self.usages.set(n, FREE);
        self.free_list[self.free_len] = n;
        self.free_len += 1;
    }

    /// Adds `size` bytes to the used and live ones of the active segment `n`.
    pub fn credit(&mut self, n: u32, size: usize)
        requires active { active_of self.old ≡ Some n }
        requires fits { (usage_of self.old n).used + size ≤ S }
        ensures after { let u = usage_of self.old n in self.new ≡ slice_set self.old n (record u { used = u.used + size; live = u.live + size }) }
        ensures active { active_of self.new ≡ active_of self.old }
        ensures free { free_count self.new ≡ free_count self.old }
        ensures live { live_sum self.new ≡ live_sum self.old + size }
        ensures sound { IsSound S self.new }
    {
        let usage = self.usages.get(n);
        let more = Usage {
            state: usage.state,
            used: usage.used + size,
            live: usage.live + size,
        };
        self.usages.set(n, more);
    }

    /// Takes `size` bytes off the live ones of segment `n`, which is not free.
    pub fn debit(&mut self, n: u32, size: usize)
        requires not_free { (usage_of self.old n).state ≢ State.Free }
        requires live { size ≤ (usage_of self.old n).live }
        ensures after { let u = usage_of self.old n in self.new ≡ slice_set self.old n (record u { live = u.live - size }) }
        ensures active { active_of self.new ≡ active_of self.old }
        ensures free { free_count self.new ≡ free_count self.old }
        ensures live { live_sum self.new + size ≡ live_sum self.old }
        ensures sound { IsSound S self.new }
    {
        let usage = self.usages.get(n);
        let less = Usage {
            state: usage.state,
            used: usage.used,
            live: usage.live - size,
        };
        self.usages.set(n, less);
    }

    /// The closed segment with least live, of several the one with the least number; None exactly where none is closed.
    pub fn sparsest(&self) -> Option<u32>
        ensures { result ≡ sparsest_of self.now }
    {
        least_live(self.usages.as_slice())
    }

    /// How many bytes of objects are live in all.
    pub fn live(&self) -> usize
        ensures { result ≡ live_sum self.now }
    {
        self.usages.live()
    }

    /// How many segments are sparse: closed, with three quarters of their bytes live at most.
    pub fn sparse(&self) -> usize
        ensures { result ≡ sparse_count S self.now }
    {
        self.usages.sparse()
    }
}

// An active segment of which nothing is used.
const EMPTY: Usage = Usage {
    state: State::Active,
    used: 0,
    live: 0,
};

ghost use Rattle.lsa_pool.specs.calls.Sparsest.{IsBest};

// The closed segment with least live, the first of such.
fn least_live(usages: &[Usage]) -> Option<u32>
    requires few { length usages.now ≤ 4096 }
    ensures { result ≡ sparsest_of usages.now }
{
    let mut best = None;
    for number in 0..usages.len() {
        best = sparser(usages, number, best);
    }
    best
}

// Of the best segment below `number` and segment `number` the better one.
fn sparser(usages: &[Usage], number: usize, best: Option<u32>) -> Option<u32>
    requires inside { number < length usages.now }
    requires few { length usages.now ≤ 4096 }
    requires best { IsBest usages.now number best }
    ensures { IsBest usages.now (number + 1) result }
{
    let usage = usages[number];
    if usage.state != State::Closed {
        return best;
    }
    match best {
        Some(n) if usages[n as usize].live <= usage.live => Some(n),
        _ => Some(number as u32),
    }
}

// The numbers below `count`, the greatest first.
fn descending(alloc: Global, count: u32) -> Result<Vec<u32>, AllocError>
    ensures { IfOk result (λ v. (vec_len v ≡ count) × ((k : ℕ) → k < count → slice_index v.items k + k + 1 ≡ count)) }
{
    let mut numbers = Vec::with_capacity(alloc, count as usize)?;
    for k in 0..count {
        numbers.push(count - 1 - k)?;
    }
    Ok(numbers)
}
