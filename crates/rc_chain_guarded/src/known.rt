//! What is known of the chains from one call to the next: the snapshots that are held, and of two versions what they say.

ghost use Rattle.std.specs.Prelude.{◌≡◌, ◌⊎◌, ◌<◌, [], ◌∷◌, ◌++◌, false, None, Some, Contains, IfSome, OnErr, OnOk, length};
ghost use Rattle.rc_chain_guarded.specs.declared.known.Held.{Held as Snapshot};
ghost use Rattle.rc_chain_guarded.specs.declared.known.Numbered.{Numbered as Version};
ghost use Rattle.rc_chain_guarded.specs.calls.Inner.{IsKnownBeside};

use std::alloc::{AllocError, Global};

/// A snapshot that is held.
#[derive(Clone, Copy)]
pub struct Held {
    /// The number of its chain.
    pub chain: u64,
    /// Its number there.
    pub pin: u64,
    /// The phase of the version that it pins.
    pub phase: u64,
}

/// A version by the number of its chain and its own.
#[derive(Clone, Copy)]
pub struct Numbered {
    /// That of the chain.
    pub chain: u64,
    /// Its own.
    pub version: u64,
}

/// What is known.
#[derive(Drop)]
pub struct Known {
    /// The snapshots.
    pub held: Vec<Held>,
    /// A chain of which each entry of the version under update is in the recency list, but the end dummy.
    pub full: Option<u64>,
    /// A version of which its end dummy alone is there.
    pub bare: Option<Numbered>,
}

impl Known {
    /// Nothing.
    pub fn new(alloc: Global) -> Self
        ensures held { result.held.items ≡ [] }
        ensures full { result.full ≡ None }
        ensures bare { result.bare ≡ None }
    {
        Known {
            held: Vec::new(alloc),
            full: None,
            bare: None,
        }
    }

    /// A snapshot more is held. The only error is want of memory, which changes nothing.
    pub(crate) fn hold(&mut self, held: Held) -> Result<(), AllocError>
        ensures ok { OnOk result (self.new.held.items ≡ self.old.held.items ++ (held ∷ [])) }
        ensures err { OnErr result (self.new.held.items ≡ self.old.held.items) }
        ensures full { self.new.full ≡ self.old.full }
        ensures bare { self.new.bare ≡ self.old.bare }
    {
        self.held.push(held)?;
        Ok(())
    }

    /// Takes out the snapshot of an index.
    pub(crate) fn take(&mut self, index: usize) -> Held
        requires { index < length self.old.held.items }
        ensures one { Contains self.old.held.items result }
        ensures others { (other : Snapshot) → Contains self.new.held.items other → Contains self.old.held.items other }
        ensures full { self.new.full ≡ self.old.full }
        ensures bare { self.new.bare ≡ self.old.bare }
    {
        self.held.remove(index)
    }

    /// The versions are known no longer.
    pub(crate) fn forget(&mut self)
        ensures held { self.new.held ≡ self.old.held }
        ensures full { self.new.full ≡ None }
        ensures bare { self.new.bare ≡ None }
    {
        self.full = None;
        self.bare = None;
    }

    /// A version is put over those of a chain: nothing is in it that could be out of the list. It is this one that is known as bare, unless another one stays so.
    pub(crate) fn begin(&mut self, id: u64, version: u64, stays: bool)
        ensures held { self.new.held ≡ self.old.held }
        ensures full { self.new.full ≡ Some id }
        ensures bare { (b : Version) → self.new.bare ≡ Some b → (self.old.bare ≡ Some b) ⊎ ((b.chain ≡ id) × (b.version ≡ version)) }
    {
        self.full = Some(id);
        self.bare = next_bare(self.bare, Numbered { chain: id, version }, stays);
    }

    /// The version under update is known no longer.
    pub(crate) fn forget_full(&mut self)
        ensures held { self.new.held ≡ self.old.held }
        ensures full { self.new.full ≡ None }
        ensures bare { self.new.bare ≡ self.old.bare }
    {
        self.full = None;
    }

    /// It is known no longer that a version is bare.
    pub(crate) fn forget_bare(&mut self, id: u64, number: u64)
        ensures held { self.new.held ≡ self.old.held }
        ensures full { self.new.full ≡ self.old.full }
        ensures bare { IsKnownBeside id number self.old self.new }
    {
        if self.is_bare(id, number) {
            self.bare = None;
        }
    }

    // Whether a version is the one that is known as bare.
    fn is_bare(&self, id: u64, number: u64) -> bool
        ensures { result ≡ false → IsKnownBeside id number self.now self.now }
    {
        match self.bare {
            Some(bare) => bare.chain == id && bare.version == number,
            None => false,
        }
    }

    /// Of a chain it is known no longer which version is bare, nor of any which one is under update.
    pub(crate) fn forget_chain(&mut self, id: u64)
        ensures held { self.new.held ≡ self.old.held }
        ensures full { self.new.full ≡ None }
        ensures bare { IfSome self.new.bare (λ b. (self.old.bare ≡ Some b) × (b.chain ≡ id → ⊥)) }
    {
        self.full = None;
        if self.is_bare_of(id) {
            self.bare = None;
        }
    }

    // Whether a version that is known as bare is one of a chain.
    fn is_bare_of(&self, id: u64) -> bool
        ensures { result ≡ false → IfSome self.now.bare (λ b. b.chain ≡ id → ⊥) }
    {
        match self.bare {
            Some(bare) => bare.chain == id,
            None => false,
        }
    }
}

// The version that is known as bare then.
fn next_bare(old: Option<Numbered>, new: Numbered, stays: bool) -> Option<Numbered>
    ensures { (b : Version) → result ≡ Some b → (old ≡ Some b) ⊎ (b ≡ new) }
{
    if stays {
        return old;
    }
    Some(new)
}
