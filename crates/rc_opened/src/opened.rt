//! Open readers.
ghost use Rattle.std.specs.Prelude.{◌≡◌, ◌++◌, ◌∷◌, [], ℕ, List, IfErr, IfOk, IfSome, OnErr, length, take, drop, nat_lt};
ghost use Rattle.rc_query.specs.declared.lines.OutLine.{OutLine as Line};
ghost use Rattle.rc_query.specs.Answer.{answer};
ghost use Rattle.rc_mutation.specs.declared.mutations.Mutation.{Mutation as Change};
ghost use Rattle.rc_mutation.specs.Fragments.{fragments};
ghost use Rattle.rc_mutation.specs.Source.{IsJoinOf, IsMutation};
ghost use Rattle.rc_schema.specs.SchemaValue.{SchemaValue};
ghost use Rattle.rc_stream.specs.Stream.{stream_of};
ghost use Rattle.rc_snapshots.specs.Seeing.{SeesAllOf};
ghost use Rattle.rc_opened.specs.Opened.{AreChangesOf, left_behind, snaps_in, snaps_of};
ghost use Rattle.rc_opened.specs.calls.Opened.{AreSources};

use crate::no_files::NoFiles;
use crate::opening::new_sources_say_what_was_written;
use crate::written::Written;
use rc_chain::Chains;
use rc_position::{PartKey, Slice};
use rc_query::Lines;
use rc_reader::Reader;
use rc_snapshots::Snaps;
use rc_stream::{Frags, ListFrags, Merge, StreamErr};
use std::alloc::{AllocError, Global};

/// What an open reader reads: what the tables said of its partition, then what is sealed of it, and what is written since.
pub type Sources = Merge<ListFrags, Merge<Written, Written>>;

/// What is left to a reader.
pub trait Leaves<H> {
    ghost use Rattle.std.specs.Prelude.{List};
    ghost use Rattle.rc_query.specs.declared.lines.OutLine.{OutLine};

    // these lines are left to it over a home
    ghost lines: { Self → H → List OutLine → Type 0 };
}

/// An open reader of a slice of one partition, whose key it keeps: what its tables said, which was read when it was opened, with snapshots of what stood in no table then. It is read over the chains of these snapshots, a page at a time.
pub struct Opened {
    pub(crate) reader: Reader<Sources>,
    pub(crate) key: PartKey,
}

impl<const S: usize> Leaves<Chains<S>> for Opened {
    ghost use Rattle.rc_opened.specs.Opened.{GivesLines};

    ghost lines = { λ o m lines. GivesLines ⟦<Sources as Frags<Chains<S>, NoFiles>>⟧.ready ⟦<Sources as Frags<Chains<S>, NoFiles>>⟧.seen m o lines };
}

impl Opened {
    /// A reader from the beginning of a slice on, of the partition of a key, of which the tables said this, which is the stream of a mutation from its beginning, with snapshots of what is sealed of it and of what is written since. The only error is want of memory: then the snapshots are given back.
    pub fn open<const S: usize>(
        alloc: Global,
        chains: &mut Chains<S>,
        snaps: Snaps,
        tables: ListFrags,
        key: &PartKey,
        slice: &Slice,
    ) -> Result<Self, (Snaps, AllocError)>
        requires sees { (writes : List Change) × (later : List Change) × SeesAllOf writes chains.old snaps.sealed × SeesAllOf later chains.old snaps.active }
        requires whole { (tabled : Change) × IsMutation tabled × (tables ≡ stream_of (fragments tabled)) }
        ensures gives { (schema : SchemaValue) (tabled : Change) (said writes later : List Change) → IsMutation tabled → tables ≡ stream_of (fragments tabled) → IsJoinOf tabled said → AreChangesOf schema writes → AreChangesOf schema later → SeesAllOf writes chains.old snaps.sealed → SeesAllOf later chains.old snaps.active →
            IfOk result (λ o. ⟦<Opened as Leaves<Chains<S>>>⟧.lines o chains.new (answer (said ++ (writes ++ later)) slice.now)) }
        ensures snaps { IfOk result (λ o. snaps_of o ≡ snaps) }
        ensures key { IfOk result (λ o. o.key ≡ key.now) }
        ensures back { IfErr result (λ e. e.0 ≡ snaps) }
        ensures chains { chains.new ≡ chains.old }
    {
        new_sources_say_what_was_written::<S>();
        let Ok(key) = key.copy(alloc) else {
            return Err((snaps, AllocError));
        };
        let stream = sources(alloc, snaps, tables);
        match Reader::open(alloc, stream, slice, chains, &mut NoFiles { begun: false }) {
            Ok(reader) => Ok(Opened { reader, key }),
            Err((stream, _)) => Err((given_back(stream), AllocError)),
        }
    }

    /// Gives the first lines that are left, at most `count`, and whether there are more behind them. The only error is want of memory: then none is given, and the same are left.
    pub fn read<const S: usize>(
        &mut self,
        alloc: Global,
        chains: &mut Chains<S>,
        count: u32,
    ) -> Result<(Lines, bool), AllocError>
        requires { (lines : List Line) × ⟦<Opened as Leaves<Chains<S>>>⟧.lines self.old chains.old lines }
        ensures gives { (lines : List Line) → ⟦<Opened as Leaves<Chains<S>>>⟧.lines self.old chains.old lines → IfOk result (λ gave. gave.0 ≡ take count lines) }
        ensures more { (lines : List Line) → ⟦<Opened as Leaves<Chains<S>>>⟧.lines self.old chains.old lines → IfOk result (λ gave. gave.1 ≡ nat_lt count (length lines)) }
        ensures left { (lines : List Line) → ⟦<Opened as Leaves<Chains<S>>>⟧.lines self.old chains.old lines → ⟦<Opened as Leaves<Chains<S>>>⟧.lines self.new chains.new (left_behind result count lines) }
        ensures snaps { snaps_of self.new ≡ snaps_of self.old }
        ensures key { self.new.key ≡ self.old.key }
        ensures chains { chains.new ≡ chains.old }
    {
        match self
            .reader
            .read(alloc, chains, &mut NoFiles { begun: false }, count)
        {
            Ok(gave) => Ok(gave),
            Err(StreamErr::NoMemory) => Err(AllocError),
            Err(StreamErr::Fault) | Err(StreamErr::Damaged { .. }) => unreachable!(),
        }
    }

    /// The key of its partition.
    pub fn key(&self) -> &PartKey
        ensures { result.now ≡ self.now.key }
    {
        &self.key
    }

    /// The snapshots of a reader that is done with, to be taken back.
    pub fn into_snaps(self) -> Snaps
        ensures { result ≡ snaps_of self }
    {
        let Opened { reader, key: _key } = self;
        given_back(reader.into_stream())
    }
}

// What a reader reads, from the beginning of its partition.
fn sources(alloc: Global, snaps: Snaps, tables: ListFrags) -> Sources
    ensures { (tabled : Change) → tables ≡ stream_of (fragments tabled) → AreSources tabled snaps result }
{
    let Snaps { sealed, active } = snaps;
    let written = Merge::new(Written::new(alloc, sealed), Written::new(alloc, active));
    Merge::new(tables, written)
}

// The snapshots of what was read.
fn given_back(sources: Sources) -> Snaps
    ensures { result ≡ snaps_in sources }
{
    let (_list, written) = sources.into_parts();
    let (sealed, active) = written.into_parts();
    Snaps {
        sealed: sealed.into_snap(),
        active: active.into_snap(),
    }
}
