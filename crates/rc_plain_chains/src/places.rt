//! The recency list as a plain list of places.

ghost use Rattle.std.specs.Prelude.{◌≡◌, ◌≢◌, [], true, false};
ghost use Rattle.rc_core.specs.Version as versions;

use rc_position::{Key, Pos, Weight};
use std::alloc::{AllocError, Global};

/// The position of the end dummy.
pub fn end_position(alloc: Global) -> Pos
    ensures { result ≡ versions.end_position }
{
    Pos {
        prefix: Key::empty(alloc),
        weight: Weight::After,
    }
}

/// Whether a position is that of the end dummy.
pub fn is_end(alloc: Global, x: &Pos) -> bool
    ensures end { result ≡ true → x.now ≡ versions.end_position }
    ensures inner { result ≡ false → x.now ≢ versions.end_position }
{
    *x == end_position(alloc)
}

/// Where an object of a chain stands: the number of the chain, that of the version, and the position of an entry, or none of the static row.
#[derive(Drop)]
pub struct Place {
    /// The number of the chain.
    pub chain: u64,
    /// That of the version, the oldest being 0.
    pub version: usize,
    /// The position; none of the static row.
    pub position: Option<Pos>,
}

impl Place {
    // Whether it is the place of an entry.
    fn is_entry(&self, chain: u64, version: usize, x: &Pos) -> bool {
        match &self.position {
            Some(y) => self.chain == chain && self.version == version && *x == *y,
            None => false,
        }
    }

    // Whether it is the place of a static row.
    fn is_static(&self, chain: u64, version: usize) -> bool {
        self.chain == chain && self.version == version && self.position.is_none()
    }

    /// Whether it is that of an object of a chain and a version: of an entry at this position, or of the static row.
    pub fn is_of(&self, chain: u64, version: u64, position: &Option<Pos>) -> bool {
        match position {
            Some(x) => self.is_entry(chain, version as usize, x),
            None => self.is_static(chain, version as usize),
        }
    }
}

/// The places of the objects in the recency list, the least recently used one first.
#[derive(Drop)]
pub struct Recency {
    /// The places.
    pub places: Vec<Place>,
}

impl Recency {
    /// No place.
    pub(crate) fn new(alloc: Global) -> Self
        ensures { result.places.items ≡ [] }
    {
        Recency {
            places: Vec::new(alloc),
        }
    }

    // The index of an entry.
    fn index_of(&self, chain: u64, version: usize, x: &Pos) -> Option<usize> {
        for (index, place) in self.places.iter().enumerate() {
            if place.is_entry(chain, version, x) {
                return Some(index);
            }
        }
        None
    }

    // The index of a static row.
    fn index_of_static(&self, chain: u64, version: usize) -> Option<usize> {
        for (index, place) in self.places.iter().enumerate() {
            if place.is_static(chain, version) {
                return Some(index);
            }
        }
        None
    }

    /// Whether an entry is in the list.
    pub(crate) fn has(&self, chain: u64, version: usize, x: &Pos) -> bool {
        self.index_of(chain, version, x).is_some()
    }

    // A place at the back.
    fn push_place(&mut self, place: Place) -> Result<(), AllocError> {
        self.places.push(place)?;
        Ok(())
    }

    /// An entry at the back.
    pub(crate) fn push(
        &mut self,
        alloc: Global,
        chain: u64,
        version: usize,
        x: &Pos,
    ) -> Result<(), AllocError> {
        self.push_place(Place {
            chain,
            version,
            position: Some(x.copy(alloc)?),
        })
    }

    /// An end dummy at the back.
    pub(crate) fn push_end(
        &mut self,
        alloc: Global,
        chain: u64,
        version: usize,
    ) -> Result<(), AllocError> {
        self.push_place(Place {
            chain,
            version,
            position: Some(end_position(alloc)),
        })
    }

    // Without the place of an index.
    fn remove(&mut self, index: usize) {
        if index < self.places.len() {
            let _taken = self.places.remove(index);
        }
    }

    // The place of an index at the back.
    fn renew_at(&mut self, index: usize) -> Result<(), AllocError> {
        if index < self.places.len() {
            let place = self.places.remove(index);
            self.places.push(place)?;
        }
        Ok(())
    }

    /// Without an entry; false where it is not in the list.
    pub(crate) fn take(&mut self, chain: u64, version: usize, x: &Pos) -> bool {
        match self.index_of(chain, version, x) {
            Some(index) => {
                self.remove(index);
                true
            }
            None => false,
        }
    }

    /// Without a static row.
    pub(crate) fn take_static(&mut self, chain: u64, version: usize) {
        if let Some(index) = self.index_of_static(chain, version) {
            self.remove(index);
        }
    }

    /// An entry at the back, in place of where it was in the list.
    pub(crate) fn renew(
        &mut self,
        alloc: Global,
        chain: u64,
        version: usize,
        x: &Pos,
    ) -> Result<(), AllocError> {
        self.take(chain, version, x);
        self.push(alloc, chain, version, x)
    }

    /// A static row at the back, in place of where it was in the list.
    pub(crate) fn renew_static(&mut self, chain: u64, version: usize) -> Result<(), AllocError> {
        self.take_static(chain, version);
        self.push_place(Place {
            chain,
            version,
            position: None,
        })
    }

    /// An entry at the back, where it is in the list; false where it is not.
    pub(crate) fn touch(
        &mut self,
        chain: u64,
        version: usize,
        x: &Pos,
    ) -> Result<bool, AllocError> {
        match self.index_of(chain, version, x) {
            Some(index) => {
                self.renew_at(index)?;
                Ok(true)
            }
            None => Ok(false),
        }
    }

    // Whether a static row is the first one.
    fn is_first(&self, chain: u64, version: usize) -> bool {
        match self.places.first() {
            Some(first) => first.is_static(chain, version),
            None => false,
        }
    }

    /// The first place goes to the back, until a static row is first: how often.
    pub(crate) fn turn_to(&mut self, chain: u64, version: usize) -> Result<u64, AllocError> {
        let mut turns: u64 = 0;
        for _ in 0..self.places.len() {
            if self.is_first(chain, version) {
                return Ok(turns);
            }
            self.renew_at(0)?;
            turns = turns.saturating_add(1);
        }
        Ok(turns)
    }

    /// Newer versions of a chain have numbers less by one, once the one of a number is gone.
    pub(crate) fn renumber(&mut self, chain: u64, version: usize) {
        for place in self.places.iter_mut() {
            if place.chain == chain && place.version > version {
                place.version -= 1;
            }
        }
    }

    /// Whether an object of a chain is in the list.
    pub(crate) fn has_any(&self, chain: u64) -> bool {
        for place in &self.places {
            if place.chain == chain {
                return true;
            }
        }
        false
    }
}
