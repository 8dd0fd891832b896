// What a reader has at hand.
ghost use Rattle.std.specs.Prelude.{◌≡◌, ◌<◌, ◌++◌, false, true, List, length, take, drop, nat_lt, IfOk, IsSome, OnOk, OnErr};
ghost use Rattle.std.specs.Option.{option_to_list};
ghost use Rattle.rc_mutation.specs.declared.fragments.Frag.{Frag};
ghost use Rattle.rc_position.specs.declared.positions.Pos.{Pos};
ghost use Rattle.rc_query.specs.Compacting.{compacted_all};
ghost use Rattle.rc_reader.specs.Left.{is_short_of, lines_before, until};

use rc_mutation::{Frag, Head};
use rc_position::Pos;
use rc_query::{Compactor, Lines, OutLine};
use std::alloc::{AllocError, Global};

/// What a reader has at hand: the compactor, where its slice ends, the fragment that it took and made no line of yet, and the lines
/// that are made and not given.
#[derive(Drop)]
pub(crate) struct Work {
    pub(crate) compactor: Compactor,
    pub(crate) to: Pos,
    pub(crate) taken: Option<Frag>,
    pub(crate) lines: Vec<OutLine>,
}

impl Work {
    // The beginning, in a slice that ends at `to`: the static line is made. The only error is want of memory.
    pub(crate) fn new(alloc: Global, head: &Head, to: &Pos) -> Result<Self, AllocError>
        ensures lines { IfOk result (λ work. (x : Pos) (fs : List Frag) → lines_before x work fs ≡ compacted_all head.now (until x fs)) }
        ensures to { IfOk result (λ work. work.to ≡ to.now) }
    {
        let compactor = Compactor::new(alloc, head)?;
        let to = to.copy(alloc)?;
        let mut lines = Vec::new(alloc);
        push_line(&mut lines, compactor.first(alloc)?)?;
        Ok(Work {
            compactor,
            to,
            taken: None,
            lines,
        })
    }

    // Whether more than `count` lines are made.
    pub(crate) fn has_more_than(&self, count: u32) -> bool
        ensures { result ≡ nat_lt count (length self.now.lines.items) }
    {
        self.lines.len() > count as usize
    }

    // Makes the line of what is taken, if it has one: false where it does not stand before the end of the slice. The only error is want of
    // memory: then it is still taken.
    pub(crate) fn put(&mut self, alloc: Global) -> Result<bool, AllocError>
        ensures lines { (fs : List Frag) → lines_before self.old.to self.new fs ≡ lines_before self.old.to self.old fs }
        ensures before { (x : Pos) (fs : List Frag) → length self.old.lines.items < length (lines_before x self.old fs) → lines_before x self.new fs ≡ lines_before x self.old fs }
        ensures end { IfOk result (λ more. more ≡ false → IsSome self.old.taken → (fs : List Frag) → lines_before self.old.to self.old fs ≡ self.new.lines.items) }
        ensures to { self.new.to ≡ self.old.to }
    {
        let Some(frag) = &self.taken else {
            return Ok(false);
        };
        if !is_short_of(frag, &self.to) {
            return Ok(false);
        }
        let line = self.compactor.put(alloc, frag)?;
        push_line(&mut self.lines, line)?;
        self.taken = None;
        Ok(true)
    }
}

// Whether the fragment is a row or a change before the position.
fn is_short_of(frag: &Frag, to: &Pos) -> bool
    ensures { result ≡ is_short_of to.now frag.now }
{
    match frag {
        Frag::Row(key, _) => key.compare_with_pos(to).is_lt(),
        Frag::Change(from, _) => from.cmp(to).is_lt(),
        Frag::Start(_) | Frag::Static(_) | Frag::End => false,
    }
}

// Puts a line behind the others, if there is one. The only error is want of memory: then the others are as they were.
fn push_line(lines: &mut Vec<OutLine>, line: Option<OutLine>) -> Result<(), AllocError>
    ensures ok { OnOk result (lines.new.items ≡ lines.old.items ++ option_to_list line) }
    ensures err { OnErr result (lines.new.items ≡ lines.old.items) }
{
    match line {
        Some(line) => Ok(lines.push(line)?),
        None => Ok(()),
    }
}

// Gives the first lines that are made, at most `count`, and whether there are more behind them. The only error is want of memory: then
// none is given.
pub(crate) fn give(
    alloc: Global,
    lines: &mut Vec<OutLine>,
    count: u32,
) -> Result<(Lines, bool), AllocError>
    ensures given { IfOk result (λ gave. gave.0 ≡ take count lines.old.items) }
    ensures more { IfOk result (λ gave. gave.1 ≡ nat_lt count (length lines.old.items)) }
    ensures left { OnOk result (lines.new.items ≡ drop count lines.old.items) }
    ensures err { OnErr result (lines.new.items ≡ lines.old.items) }
{
    let made = lines.len();
    let more = (count as usize) < made;
    let giving = if more { count as usize } else { made };
    let gave = Lines::from_slice(alloc, &lines[..giving])?;
    lines.rotate_left(giving);
    lines.truncate(made - giving);
    Ok((gave, more))
}
