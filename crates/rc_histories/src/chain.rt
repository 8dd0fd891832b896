//! A chain of plain versions, with its pins and its update.

use crate::universe::end_position;
use rc_cell::Tomb;
use rc_core::{ChainKind, Entry, Flag, Mark, PlainVersion};
use rc_mutation::{Frag, FragList};
use rc_position::{Pos, Weight};
use std::alloc::{AllocError, Global};

/// The place of an update: that of its next fragment.
#[derive(Drop)]
pub(crate) enum Place {
    /// The head.
    Head,
    /// The static row.
    Static,
    /// A clustered position.
    At(Pos),
    /// The end.
    End,
}

// The place of a fragment.
fn place_of(alloc: Global, fragment: &Frag) -> Result<Place, AllocError> {
    Ok(match fragment {
        Frag::Start(_) => Place::Head,
        Frag::Static(_) => Place::Static,
        Frag::Row(key, _) => Place::At(Pos {
            prefix: key.copy(alloc)?,
            weight: Weight::At,
        }),
        Frag::Change(from, _) => Place::At(from.copy(alloc)?),
        Frag::End => Place::End,
    })
}

/// The places of fragments.
pub(crate) fn push_places(
    alloc: Global,
    fragments: &[Frag],
    places: &mut Vec<Place>,
) -> Result<(), AllocError> {
    for fragment in fragments {
        places.push(place_of(alloc, fragment)?)?;
    }
    Ok(())
}

/// An update that stands in the newest version.
#[derive(Drop)]
pub(crate) struct Update {
    /// The fragments of what it writes.
    pub(crate) fragments: FragList,
    /// Their places.
    pub(crate) places: Vec<Place>,
    /// The number of the next one.
    pub(crate) next: usize,
    /// The range tombstone in force before the next one, as the fragments have it.
    pub(crate) force: Option<Tomb>,
}

impl Update {
    /// The update's place.
    pub(crate) fn place(&self) -> Option<&Place> {
        self.places.as_slice().get(self.next)
    }
}

/// The versions of a partition over one another; none where there is no chain.
#[derive(Drop)]
pub(crate) struct Chain {
    /// What stands below the oldest version.
    pub(crate) kind: ChainKind,
    /// The versions, the oldest first.
    pub(crate) versions: Vec<PlainVersion>,
    /// Whether the chain is found by its key.
    pub(crate) attached: bool,
    /// At the number of a snapshot that of the version which it pins; none at a number that is free.
    pub(crate) pins: Vec<Option<usize>>,
    /// The update that stands in the newest version.
    pub(crate) update: Option<Update>,
}

impl Chain {
    /// No chain.
    pub(crate) fn none(alloc: Global, kind: ChainKind) -> Self {
        Chain {
            kind,
            versions: Vec::new(alloc),
            attached: false,
            pins: Vec::new(alloc),
            update: None,
        }
    }

    /// Whether an update stands in it.
    pub(crate) fn is_updating(&self) -> bool {
        self.update.is_some()
    }

    /// Whether a version is the newest.
    pub(crate) fn is_newest(&self, number: usize) -> bool {
        number < self.versions.len() && number == self.versions.len() - 1
    }

    /// Whether a snapshot pins a version.
    pub(crate) fn is_pinned(&self, number: usize) -> bool {
        self.pins.contains(&Some(number))
    }

    /// Whether no snapshot is left.
    pub(crate) fn is_unpinned(&self) -> bool {
        for pin in &self.pins {
            if pin.is_some() {
                return false;
            }
        }
        true
    }

    /// The number of the version that a snapshot pins which is taken now: the newest, or the one below it under update; none where there is none.
    pub(crate) fn snapshot_version(&self) -> Option<usize> {
        if self.is_updating() {
            self.versions.len().checked_sub(2)
        } else {
            self.versions.len().checked_sub(1)
        }
    }

    /// Whether somebody reads a version or will: it is pinned, the newest of an attached chain, or the one below the newest under update.
    pub(crate) fn is_needed(&self, number: usize) -> bool {
        if self.is_pinned(number) || self.attached && self.is_newest(number) {
            return true;
        }
        self.is_updating() && self.versions.len().checked_sub(2) == Some(number)
    }

    /// The place of the update that stands in it; none where there is none.
    pub(crate) fn place(&self) -> Option<&Place> {
        match &self.update {
            Some(update) => update.place(),
            None => None,
        }
    }

    /// The update's place, of the newest version under update; none of every other.
    pub(crate) fn reach(&self, number: usize) -> Option<&Place> {
        if self.is_newest(number) {
            return self.place();
        }
        None
    }
}

/// The entries of a version are these from now on; without memory it stays.
pub(crate) fn put_entries(
    version: &mut PlainVersion,
    made: Result<Vec<Entry>, AllocError>,
) -> Result<(), AllocError> {
    version.entries = made?;
    Ok(())
}

/// A version of its end dummy alone, whose flags are all this one.
pub(crate) fn version_of(
    alloc: Global,
    flag: Flag,
    phase: usize,
) -> Result<PlainVersion, AllocError> {
    let mark = Mark { flag, tomb: None };
    let end = Entry {
        position: end_position(alloc),
        row: None,
        at: mark,
        gap: mark,
    };
    Ok(PlainVersion {
        pt: None,
        statics: None,
        static_flag: flag,
        entries: vec![in alloc; end]?,
        phase: phase as u64,
    })
}

/// The versions up to the one of a number.
pub(crate) fn upto(versions: &[PlainVersion], number: usize) -> &[PlainVersion] {
    if number < versions.len() {
        &versions[..number + 1]
    } else {
        versions
    }
}

/// The version of a number alone.
pub(crate) fn alone(versions: &[PlainVersion], number: usize) -> &[PlainVersion] {
    if number < versions.len() {
        &versions[number..number + 1]
    } else {
        &versions[..0]
    }
}
