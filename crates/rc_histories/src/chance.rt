//! Chance: numbers that look random, and are the same in each run.

use rand_core::Rng;
use rand_pcg::Pcg32;

/// A sequence of numbers that a seed determines.
#[derive(Drop)]
pub(crate) struct Chance {
    words: Pcg32,
}

impl Chance {
    /// The sequence of a seed.
    pub(crate) fn new(seed: u64) -> Self {
        Chance {
            words: Pcg32::new(seed, 54),
        }
    }

    /// A number below a bound; 0 where the bound is 0.
    pub(crate) fn below(&mut self, bound: u32) -> u32 {
        if bound == 0 {
            return 0;
        }
        self.words.next_u32() % bound
    }

    /// The index of one of so many; 0 where there are none.
    pub(crate) fn index(&mut self, count: usize) -> usize {
        if count == 0 {
            return 0;
        }
        self.words.next_u32() as usize % count
    }

    /// Whether something happens that does so in this many of a hundred cases.
    pub(crate) fn happens(&mut self, percent: u32) -> bool {
        self.below(100) < percent
    }
}
