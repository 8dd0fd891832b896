//! The snapshots of one chain, by number.

ghost use Rattle.std.specs.Prelude.{◌≡◌, ◌↔◌, [], IfOk, IsSome, IsTrue, OnErr, OnOk, is_none, option_map, map};
ghost use Rattle.std.specs.List.{list_all};
ghost use Rattle.rc_core.specs.Chains.{IsPinned};
ghost use Rattle.rc_core.specs.Steps.{free_number, number_after_removal, pin_at, pins_with, pins_without};
ghost use Rattle.rc_registry.specs.Registry.{AreFree};

use std::alloc::{AllocError, Global};
use std::marker::Model;

/// At the number of a snapshot that of the version which it pins, counted from the oldest; None at a number that is free.
#[derive(Drop)]
pub struct Pins {
    versions: Vec<Option<u64>>,
}

impl Model for Pins {
    ghost use Rattle.std.specs.Prelude.{List, Option, ℕ};

    ghost Value = { List (Option ℕ) };

    ghost view = { λ p. p.versions.items };
}

impl Pins {
    /// No snapshot.
    pub(crate) fn new(alloc: Global) -> Self
        ensures { result ≡ [] }
    {
        Pins {
            versions: Vec::new(alloc),
        }
    }

    /// The version that the snapshot of a number pins; None where the number is free.
    pub fn at(&self, pin: u64) -> Option<u64>
        ensures { result ≡ pin_at self.now pin }
    {
        let number = pin as usize;
        if number < self.versions.len() {
            self.versions[number]
        } else {
            None
        }
    }

    /// Whether a snapshot pins the version of a number.
    pub fn is_pinned(&self, version: u64) -> bool
        ensures { IsTrue result ↔ IsPinned self.now version }
    {
        let mut left = self.versions.as_slice();
        while let [first, rest @ ..] = left {
            if *first == Some(version) {
                return true;
            }
            left = rest;
        }
        false
    }

    /// Whether nobody pins a version.
    pub fn are_free(&self) -> bool
        ensures { IsTrue result ↔ AreFree self.now }
    {
        hold_nothing(&self.versions)
    }

    // The least number that is free.
    fn free_number(&self) -> usize
        ensures { result ≡ free_number self.now }
    {
        let mut number = 0;
        let mut left = self.versions.as_slice();
        while let [first, rest @ ..] = left {
            if first.is_none() {
                return number;
            }
            number += 1;
            left = rest;
        }
        number
    }

    /// One snapshot of a version more, at the least number that is free. The only error is want of memory, which changes nothing.
    pub(crate) fn pin(&mut self, version: u64) -> Result<u64, AllocError>
        ensures number { IfOk result (λ n. n ≡ free_number self.old) }
        ensures pinned { OnOk result (self.new ≡ pins_with version self.old) }
        ensures err { OnErr result (self.new ≡ self.old) }
    {
        let number = self.free_number();
        if number < self.versions.len() {
            self.versions[number] = Some(version);
        } else {
            self.versions.push(Some(version))?;
        }
        Ok(number as u64)
    }

    /// Takes the snapshot of a number back; the other snapshots keep theirs.
    pub(crate) fn release(&mut self, pin: u64)
        requires { IsSome (pin_at self.old pin) }
        ensures { self.new ≡ pins_without pin self.old }
    {
        self.versions[pin as usize] = None;
    }

    /// The version of a number is gone: the newer ones have numbers less by one.
    pub(crate) fn renumber(&mut self, version: u64)
        ensures { self.new ≡ map (option_map (number_after_removal version)) self.old }
    {
        renumber_each(&mut self.versions, version);
    }
}

// Whether each number is free.
fn hold_nothing(versions: &[Option<u64>]) -> bool
    ensures { result ≡ list_all is_none versions.now }
{
    versions.iter().all(|version| version.is_none())
}

// Gives each pinned version the number that it has once another one is gone.
fn renumber_each(pins: &mut [Option<u64>], version: u64)
    ensures { pins.new ≡ map (option_map (number_after_removal version)) pins.old }
{
    for pin in pins.iter_mut() {
        *pin = renumbered(version, *pin);
    }
}

// The number that a pinned version has once another one is gone.
fn renumbered(version: u64, pin: Option<u64>) -> Option<u64>
    ensures { result ≡ option_map (number_after_removal version) pin }
{
    match pin {
        Some(pinned) if pinned > version => Some(pinned - 1),
        Some(pinned) => Some(pinned),
        None => None,
    }
}
