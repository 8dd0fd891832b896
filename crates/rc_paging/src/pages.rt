//! Open readers over the row cache.
ghost use Rattle.std.specs.Prelude.{◌≡◌, ◌++◌, ℕ, List, None, IfErr, IfOk, IsSome, OnOk, length, take, nat_lt};
ghost use Rattle.rc_mutation.specs.declared.mutations.Mutation.{Mutation};
ghost use Rattle.rc_schema.specs.SchemaValue.{SchemaValue};
ghost use Rattle.rc_query.specs.declared.lines.OutLine.{OutLine};
ghost use Rattle.rc_query.specs.Answer.{answer};
ghost use Rattle.rc_memory.specs.Memory.{Memory};
ghost use Rattle.rc_opened.specs.Opened.{AreChangesOf};
ghost use Rattle.rc_cached.specs.Leaving.{LeavesChains};
ghost use Rattle.rc_cached.specs.Streams.{SayBelow};
ghost use Rattle.rc_paging.specs.declared.pages.PageErr.TheVariants.{Missing, NoMemory};
ghost use Rattle.rc_position.specs.declared.slices.Slice.{Slice as Part};
ghost use Rattle.rc_paging.specs.Remainders.{IsRemainderOf};
ghost use Rattle.rc_paging.specs.Pages.{IsPageKnown, LinesAreLeft, StandFor, left_on, readings_with};

use crate::layers::{HeldSnaps, put_back, take_out};
use crate::remainders::Remainder;
use crate::serving::serve;
use rc_chain::Chains;
use rc_position::Slice;
use rc_query::Lines;
use rc_stream::ListFrags;
use std::alloc::Global;

/// Why a call of an open reader was refused.
#[derive(Clone, Copy, Debug)]
pub enum PageErr {
    /// What is needed is not in memory: the partition is to be read from its tables, and handed in.
    Missing,
    /// Memory was refused.
    NoMemory,
}

/// An open reader of a slice of one partition: snapshots of what the row cache has of it and of what stands in no table, what is left of the slice, and the line that is to come next, once a page told whether there is one. It is read a page at a time over the chains of these snapshots. Between two pages it holds nothing in the chains but its snapshots, so others may fill, evict and write meanwhile.
pub struct OpenReader {
    pub(crate) held: HeldSnaps,
    pub(crate) remainder: Remainder,
    pub(crate) behind: Option<Lines>,
}

impl OpenReader {
    /// A reader from the beginning of a slice on, of the partition of which these are the snapshots. It takes no memory, and reads nothing yet.
    pub fn open(held: HeldSnaps, slice: Slice) -> Self
        ensures held { result.held ≡ held }
        ensures untold { result.behind ≡ None }
        ensures of { IsRemainderOf slice result.remainder }
        ensures lines { (S : ℕ) (m : Memory) (schema : SchemaValue) (below writes later : List Mutation) → AreChangesOf schema below → AreChangesOf schema writes → AreChangesOf schema later → StandFor S m held below writes later →
            LinesAreLeft S m result below (answer (below ++ (writes ++ later)) slice) }
    {
        OpenReader {
            held,
            remainder: Remainder {
                slice,
                static_given: false,
                row_given: false,
            },
            behind: None,
        }
    }

    /// Gives the first lines that are left, at most `count`, and whether there are more behind them. What was read of the tables of the partition, from its beginning, may be handed in. `PageErr::Missing` when it is needed and was not; `PageErr::NoMemory` when memory is refused: then none is given, and the same are left. Where nothing was handed in, nothing is filled: the chains are as they were, and what a page that was given passed of the row cache was known to its snapshot.
    pub fn read<const S: usize>(
        &mut self,
        alloc: Global,
        chains: &mut Chains<S>,
        read: Option<ListFrags>,
        count: u32,
    ) -> Result<(Lines, bool), PageErr>
        requires { (below : List Mutation) × (lines : List OutLine) × LinesAreLeft S chains.old self.old below lines × SayBelow below (readings_with read) }
        ensures gives { (below : List Mutation) (lines : List OutLine) → LinesAreLeft S chains.old self.old below lines → SayBelow below (readings_with read) → IfOk result (λ gave. gave.0 ≡ take count lines) }
        ensures more { (below : List Mutation) (lines : List OutLine) → LinesAreLeft S chains.old self.old below lines → SayBelow below (readings_with read) → IfOk result (λ gave. gave.1 ≡ nat_lt count (length lines)) }
        ensures left { (below : List Mutation) (lines : List OutLine) → LinesAreLeft S chains.old self.old below lines → SayBelow below (readings_with read) → LinesAreLeft S chains.new self.new below (left_on result count lines) }
        ensures of { (slice : Part) → IsRemainderOf slice self.old.remainder → IsRemainderOf slice self.new.remainder }
        ensures held { self.new.held ≡ self.old.held }
        ensures told { OnOk result (IsSome self.new.behind) }
        ensures err { IfErr result (λ _. self.new.behind ≡ self.old.behind) }
        ensures missing { IfErr result (λ e. e ≡ Missing → IsSome self.old.held.cached × (read ≡ None)) }
        ensures known { (below : List Mutation) (lines : List OutLine) → LinesAreLeft S chains.old self.old below lines → SayBelow below (readings_with read) → IsPageKnown chains.old self.old count lines → IfErr result (λ e. e ≡ NoMemory) }
        ensures passed { (below : List Mutation) (lines : List OutLine) → LinesAreLeft S chains.old self.old below lines → SayBelow below (readings_with read) → read ≡ None → OnOk result (IsPageKnown chains.old self.old count lines) }
        ensures unread { read ≡ None → chains.new ≡ chains.old }
        ensures chains { LeavesChains chains.old chains.new }
    {
        let held = take_out(&mut self.held);
        let (held, gave) = serve(alloc, chains, held, read, &self.remainder, count);
        put_back(&mut self.held, held);
        match gave {
            Ok((lines, more, behind)) => {
                match self.remainder.go_behind(alloc, lines.as_slice()) {
                    Ok(()) => {
                        self.behind = Some(behind);
                        Ok((lines, more))
                    }
                    Err(_) => Err(PageErr::NoMemory),
                }
            }
            Err(error) => Err(error),
        }
    }

    /// The snapshots of a reader that is done with, to be taken back.
    pub fn into_held(self) -> HeldSnaps
        ensures { result ≡ self.held }
    {
        let OpenReader {
            held,
            remainder: _remainder,
            behind: _behind,
        } = self;
        held
    }
}
