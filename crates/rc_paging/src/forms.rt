//! A reader of a partition in one of its two forms.
ghost use Rattle.std.specs.Prelude.{◌≡◌, ◌++◌, ⊤, List, None, IfErr, IfOk, IsSome, OnErr, OnOk, length, take, nat_lt};
ghost use Rattle.std.specs.Option.{option_map};
ghost use Rattle.rc_position.specs.declared.slices.Slice.{Slice};
ghost use Rattle.rc_mutation.specs.declared.mutations.Mutation.{Mutation as Change};
ghost use Rattle.rc_schema.specs.SchemaValue.{SchemaValue};
ghost use Rattle.rc_opened.specs.Opened.{AreChangesOf};
ghost use Rattle.rc_query.specs.declared.lines.OutLine.{OutLine};
ghost use Rattle.rc_cached.specs.Leaving.{LeavesChains};
ghost use Rattle.rc_cached.specs.Streams.{SayBelow};
ghost use Rattle.rc_paging.specs.declared.pages.PageErr.TheVariants.{Missing, NoMemory};
ghost use Rattle.rc_paging.specs.Forms.{ByForm, IsFormKept, held_by, lines_gone_past};
ghost use Rattle.rc_paging.specs.Pages.{IsPageKnown, StandFor, left_on, readings_with};
ghost use Rattle.rc_paging.specs.Remainders.{IsRemainderOf};

use crate::layers::{HeldSnaps, none_there};
use crate::pages::{OpenReader, PageErr};
use rc_chain::{Chains, Snap};
use rc_mutation::Mutation;
use rc_opened::{Leaves, OpenedBehind};
use rc_position::PartKey;
use rc_query::Lines;
use rc_snapshots::Snaps;
use rc_stream::ListFrags;
use std::alloc::{AllocError, Global};
use std::mem;

/// What is left to a reader of a partition, of which its tables say something.
pub trait LeavesOver<H> {
    ghost use Rattle.std.specs.Prelude.{List};
    ghost use Rattle.rc_mutation.specs.declared.mutations.Mutation.{Mutation as Change};
    ghost use Rattle.rc_query.specs.declared.lines.OutLine.{OutLine};

    // where the tables say this, these lines are left to it over a home
    ghost lines: { Self → H → List Change → List OutLine → Type 0 };
}

/// A reader of a slice of one partition in one of its two forms. It begins over the row cache, where its partition has an entry there or gets one, and may go on past it (`OpenReader::go_past`); else it is past it from the beginning on.
pub enum PartReader {
    /// Over the row cache: what is missed is asked for.
    Cached(OpenReader),
    /// Past it: over what was read of the tables, which it holds. It misses nothing.
    Past(OpenedBehind),
}

impl<const S: usize> LeavesOver<Chains<S>> for PartReader {
    ghost use Rattle.rc_paging.specs.Forms.{ByForm};
    ghost use Rattle.rc_paging.specs.Pages.{LinesAreLeft};

    ghost lines = { λ r m below lines. ByForm (λ o. LinesAreLeft S m o below lines) (λ o. ⟦<OpenedBehind as Leaves<Chains<S>>>⟧.lines o m lines) r };
}

impl PartReader {
    /// Gives the first lines that are left, at most `count`, and whether there are more behind them. What was read of the tables of the partition, from its beginning, may be handed in; past the cache it is let go. `PageErr::Missing` when it is needed and was not, which is only over the row cache; `PageErr::NoMemory` when memory is refused: then none is given, and the same are left. Where nothing was handed in, nothing is filled: the chains are as they were, and what a page that was given passed of the row cache was known to its snapshot.
    pub fn read<const S: usize>(
        &mut self,
        alloc: Global,
        chains: &mut Chains<S>,
        read: Option<ListFrags>,
        count: u32,
    ) -> Result<(Lines, bool), PageErr>
        requires { (below : List Change) × (lines : List OutLine) × ⟦<PartReader as LeavesOver<Chains<S>>>⟧.lines self.old chains.old below lines × SayBelow below (readings_with read) }
        ensures gives { (below : List Change) (lines : List OutLine) → ⟦<PartReader as LeavesOver<Chains<S>>>⟧.lines self.old chains.old below lines → SayBelow below (readings_with read) → IfOk result (λ gave. gave.0 ≡ take count lines) }
        ensures more { (below : List Change) (lines : List OutLine) → ⟦<PartReader as LeavesOver<Chains<S>>>⟧.lines self.old chains.old below lines → SayBelow below (readings_with read) → IfOk result (λ gave. gave.1 ≡ nat_lt count (length lines)) }
        ensures left { (below : List Change) (lines : List OutLine) → ⟦<PartReader as LeavesOver<Chains<S>>>⟧.lines self.old chains.old below lines → SayBelow below (readings_with read) → ⟦<PartReader as LeavesOver<Chains<S>>>⟧.lines self.new chains.new below (left_on result count lines) }
        ensures of { (slice : Slice) → ByForm (λ o. IsRemainderOf slice o.remainder) (λ _. ⊤) self.old → ByForm (λ o. IsRemainderOf slice o.remainder) (λ _. ⊤) self.new }
        ensures held { held_by self.new ≡ held_by self.old }
        ensures goes { IsFormKept result self.old self.new }
        ensures missing { IfErr result (λ e. e ≡ Missing → IsSome (held_by self.old).cached × (read ≡ None)) }
        ensures known { (below : List Change) (lines : List OutLine) → ⟦<PartReader as LeavesOver<Chains<S>>>⟧.lines self.old chains.old below lines → SayBelow below (readings_with read) → ByForm (λ o. IsPageKnown chains.old o count lines) (λ _. ⊤) self.old → IfErr result (λ e. e ≡ NoMemory) }
        ensures passed { (below : List Change) (lines : List OutLine) → ⟦<PartReader as LeavesOver<Chains<S>>>⟧.lines self.old chains.old below lines → SayBelow below (readings_with read) → read ≡ None → OnOk result (ByForm (λ o. IsPageKnown chains.old o count lines) (λ _. ⊤) self.old) }
        ensures unread { read ≡ None → chains.new ≡ chains.old }
        ensures chains { LeavesChains chains.old chains.new }
    {
        match self {
            PartReader::Cached(reader) => reader.read(alloc, chains, read, count),
            PartReader::Past(reader) => match reader.read(alloc, chains, count) {
                Ok(gave) => Ok(gave),
                Err(_) => Err(PageErr::NoMemory),
            },
        }
    }

    /// Goes on past the row cache, where it is over it: over what the tables of the partition of a key say now, which need not be what they said before (`OpenReader::go_past`). The snapshot of the row cache is given back. The only error is want of memory: then it is as it was.
    pub fn go_past<const S: usize>(
        &mut self,
        alloc: Global,
        chains: &mut Chains<S>,
        read: Mutation,
        key: &PartKey,
    ) -> Result<Option<Snap>, AllocError>
        requires { (below : List Change) × (lines : List OutLine) × ⟦<PartReader as LeavesOver<Chains<S>>>⟧.lines self.old chains.old below lines }
        ensures lines { (schema : SchemaValue) (below writes later : List Change) (lines : List OutLine) → AreChangesOf schema writes → AreChangesOf schema later → ByForm (λ o. StandFor S chains.old o.held below writes later) (λ _. ⊤) self.old → ⟦<PartReader as LeavesOver<Chains<S>>>⟧.lines self.old chains.old below lines →
            OnOk result (⟦<PartReader as LeavesOver<Chains<S>>>⟧.lines self.new chains.new below (lines_gone_past below read (writes ++ later) self.old lines)) }
        ensures past { OnOk result (ByForm (λ _. ⊥) (λ _. ⊤) self.new) }
        ensures snap { IfOk result (λ snap. snap ≡ (held_by self.old).cached) }
        ensures held { OnOk result (held_by self.new ≡ record { cached = None; written = (held_by self.old).written }) }
        ensures err { OnErr result (self.new ≡ self.old) }
        ensures chains { chains.new ≡ chains.old }
    {
        match self {
            PartReader::Past(_) => Ok(None),
            PartReader::Cached(reader) => match reader.go_past(alloc, chains, read, key) {
                Ok(past) => {
                    let before = mem::replace(self, PartReader::Past(past));
                    Ok(cached_of(before))
                }
                Err(error) => Err(error),
            },
        }
    }

    /// The number of the chain of the row cache that it reads over, where it does.
    pub fn cached_chain(&self) -> Option<u64>
        ensures { result ≡ option_map (λ s. s.chain) (held_by self.now).cached }
    {
        match self {
            PartReader::Cached(reader) => reader.held.cached.as_ref().map(|snap| snap.chain),
            PartReader::Past(_) => None,
        }
    }

    /// The snapshots of a reader that is done with, to be taken back.
    pub fn into_held(self) -> HeldSnaps
        ensures { result ≡ held_by self }
    {
        match self {
            PartReader::Cached(reader) => reader.into_held(),
            PartReader::Past(reader) => HeldSnaps {
                cached: None,
                written: reader.into_snaps(),
            },
        }
    }
}

// The snapshot of the row cache of a reader that holds no other.
fn cached_of(reader: PartReader) -> Option<Snap>
    requires { (held_by reader).written ≡ record { sealed = None; active = None } }
    ensures { result ≡ (held_by reader).cached }
{
    let HeldSnaps { cached, written } = reader.into_held();
    let Snaps { sealed, active } = written;
    none_there(sealed);
    none_there(active);
    cached
}
