//! Root slots by number, of which some were dropped.
ghost use Rattle.std.specs.Prelude.{◌≡◌, ◌^◌, ◌<◌, ◌≤◌, [], length, slice_index_or, slice_set, Option, Some, None, IfOk, OnErr};
ghost use Rattle.lsa_region.specs.declared.end.End.{End as Named};
ghost use Rattle.lsa_region.specs.Ends.{root_of, slots_in};
ghost use Rattle.lsa_region.specs.calls.Ends.{IsSlotMade};
ghost use Rattle.lsa_region.specs.calls.Ends.{IsSlotDropped};

use crate::end::End;
use std::alloc::{AllocError, Global};
use std::marker::Model;

/// What each root slot names: None for one that is not there. A dropped slot is made again before there is a new number.
#[derive(Drop)]
pub struct Slots {
    named: Vec<Option<Option<End>>>,
    vacant: Vec<usize>,
    vacant_len: usize,
}

impl Model for Slots {
    ghost use Rattle.std.specs.Prelude.{List, Option, length, ◌≤◌, ◌^◌};
    ghost use Rattle.lsa_region.specs.declared.end.End.{End};
    ghost use Rattle.lsa_region.specs.Layout.{IsVacancy};

    ghost Value = { List (Option (Option End)) };

    ghost view = { λ s. s.named.items };

    ghost invariant = { λ s. IsVacancy s.named.items s.vacant.items s.vacant_len × (length s.named.items ≤ 2 ^ 32) };
}

impl Slots {
    /// No slot.
    pub(crate) fn new(alloc: Global) -> Self
        ensures { result ≡ [] }
    {
        Slots {
            named: Vec::new(alloc),
            vacant: Vec::new(alloc),
            vacant_len: 0,
        }
    }

    /// Shows that each number of a slot fits 32 bits. It does nothing.
    pub(crate) fn known(&self)
        ensures { length self.now ≤ 2 ^ 32 }
    {
        let _ = &self.named;
    }

    /// What a slot names that is there.
    pub(crate) fn get(&self, number: usize) -> Option<End>
        requires { (named : Option Named) × (slice_index_or self.now number None ≡ Some named) }
        ensures { result ≡ root_of self.now number }
    {
        match self.named[number] {
            Some(named) => named,
            None => None,
        }
    }

    /// Lets a slot that is there name an end, or nothing.
    pub(crate) fn set(&mut self, number: usize, named: Option<End>)
        requires { (was : Option Named) × (slice_index_or self.old number None ≡ Some was) }
        ensures { self.new ≡ slice_set self.old number (Some named) }
    {
        self.named[number] = Some(named);
    }

    /// Makes a slot that names nothing, and gives its number: that of a dropped one, where there is one.
    pub(crate) fn make(&mut self) -> Result<usize, AllocError>
        requires { (slots_in self.old).there < 2 ^ 32 }
        ensures made { IfOk result (IsSlotMade self.old self.new) }
        ensures err { OnErr result (self.new ≡ self.old) }
    {
        if self.vacant_len > 0 {
            return Ok(self.make_again());
        }
        self.make_new()
    }

    // Makes a slot that was dropped.
    fn make_again(&mut self) -> usize
        requires { (slots_in self.old).there < (slots_in self.old).bound }
        ensures { IsSlotMade self.old self.new result }
    {
        self.vacant_len -= 1;
        let number = self.vacant[self.vacant_len];
        self.named[number] = Some(None);
        number
    }

    // Makes one more slot, where each is there. The place for its number among the vacant ones is taken too: to drop it takes no memory.
    fn make_new(&mut self) -> Result<usize, AllocError>
        requires all { (slots_in self.old).there ≡ (slots_in self.old).bound }
        requires few { (slots_in self.old).bound < 2 ^ 32 }
        ensures made { IfOk result (IsSlotMade self.old self.new) }
        ensures err { OnErr result (self.new ≡ self.old) }
    {
        self.vacant.push(0)?;
        let number = self.named.len();
        self.named.push(Some(None))?;
        Ok(number)
    }

    /// Drops a slot that is there.
    pub(crate) fn remove(&mut self, number: usize)
        requires { (was : Option Named) × (slice_index_or self.old number None ≡ Some was) }
        ensures { IsSlotDropped self.old self.new number }
    {
        self.named[number] = None;
        self.vacant[self.vacant_len] = number;
        self.vacant_len += 1;
    }
}
