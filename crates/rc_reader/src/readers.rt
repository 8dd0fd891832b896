//! Readers of a slice of one partition.

ghost use Rattle.std.specs.Prelude.{◌≡◌, ◌≤◌, ◌+◌, ◌-◌, ℕ, Bool, List, None, false, true, length, take, drop, nat_lt, IfErr, IfOk, IsSome, IsTrue, MatchResult, OnErr, OnOk};
ghost use Rattle.rc_outside.specs.Files.{HoldsSameFiles};
ghost use Rattle.rc_position.specs.declared.positions.Pos.{Pos};
ghost use Rattle.rc_query.specs.declared.lines.OutLine.{OutLine};
ghost use Rattle.rc_stream.specs.Causes.{Caused};
ghost use Rattle.rc_stream.specs.Did.{InTurn, IsQuiet, ReachesEnd, Spends, has_answer, Call.OfNext};
ghost use Rattle.rc_stream.specs.Showing.{Blames};
ghost use Rattle.rc_stream.specs.Stream.{Stream};
ghost use Rattle.rc_reader.specs.Left.{AreLeft, Remains, LeavesOne, left_after, slice_lines};
ghost use Rattle.rc_reader.specs.Steps.{AreFoundBefore, GoesNoFurther, MayGive, MovedOn, OneStep, OpenCalls, stream_after, without_stream};
ghost use Rattle.rc_reader.specs.calls.Making.{AreEnough};

use crate::work::{Work, give};
use rc_outside::Store;
use rc_position::{Pos, Slice};
use rc_query::Lines;
use rc_stream::{Frags, StreamErr};
use std::alloc::{AllocError, Global};

/// A reader of a slice of one partition: it gives the lines of what its stream has there, so many at a time. Fragments are taken from
/// the stream only as lines are asked for, up to the line behind those that are given, by which it is told whether more are left.
#[derive(Drop)]
pub struct Reader<S> {
    stream: S,
    work: Work,
}

impl<S> Reader<S> {
    /// A reader from the beginning of a slice on: the head of the stream is asked for, the static line made, and the stream sought to
    /// where the slice begins. `StreamErr::Fault` when the store fails, `StreamErr::Damaged` when bytes of a file contradict it,
    /// `StreamErr::NoMemory` when memory is refused: then the stream is given back, and stands for what it did.
    pub fn open<H, W: Store>(
        alloc: Global,
        stream: S,
        slice: &Slice,
        home: &mut H,
        store: &mut W,
    ) -> Result<Self, (S, StreamErr)>
    where
        S: Frags<H, W>,
        requires ready { S.ready stream home.old store.old }
        requires ahead { S.ahead stream slice.now.from }
        ensures left { (s : Stream) → S.seen stream home.old store.old s → IfOk result (λ reader. AreLeft S.seen reader home.new store.new (slice_lines slice.now s)) }
        ensures shown { S.fresh stream → IfOk result (λ reader. LeavesOne (S.might stream) slice.now (AreLeft S.seen reader home.new store.new)) }
        ensures to { IfOk result (λ reader. reader.work.to ≡ slice.now.to) }
        ensures goes { (n : ℕ) (y : Pos) → AreFoundBefore (S.seen stream home.old store.old) slice.now n y → IfOk result (λ reader. GoesNoFurther (S.seen reader.stream home.new store.new) reader.work n y) }
        ensures may { IfOk result (λ reader. MayGive S.ready reader home.new store.new) }
        ensures back { (s : Stream) → S.seen stream home.old store.old s → IfErr result (λ e. S.seen e.0 home.new store.new s) }
        ensures ready { IfErr result (λ e. S.ready e.0 home.new store.new) }
        ensures ahead { (x : Pos) → S.ahead stream x → IfErr result (λ e. S.ahead e.0 x) }
        ensures spends { (left : S → ℕ) → Spends S.did left W.asks → MatchResult result (λ reader. W.asks store.new + left reader.stream ≤ W.asks store.old + left stream) (λ _. W.asks store.new ≤ W.asks store.old + left stream) }
        ensures quiet { (settled : S → Bool) → IsQuiet S.did settled W.asks → IfOk result (λ reader. IsTrue (settled reader.stream)) }
        ensures moves { MovedOn S.moves home.old store.old home.new store.new }
        ensures did { OpenCalls S.did slice.now.from (has_answer (without_stream result)) (stream, home.old, store.old) (stream_after result, home.new, store.new) }
        ensures damage { Blames (S.damage stream) (S.damage (stream_after result)) (without_stream result) }
        ensures cause { Caused (without_stream result) (W.files store.old) (W.faults store.old) (W.faults store.new) }
        ensures store { HoldsSameFiles W.files W.building store.old store.new }
    {
        let mut stream = stream;
        match begin(alloc, &mut stream, slice, home, store) {
            Ok(work) => Ok(Reader { stream, work }),
            Err(error) => Err((stream, error)),
        }
    }

    /// Gives the first lines that are left, at most `count`, and whether there are more behind them. `StreamErr::Fault` when the store
    /// fails, `StreamErr::Damaged` when bytes of a file contradict it, `StreamErr::NoMemory` when memory is refused: then none is given,
    /// and the same are left.
    pub fn read<H, W: Store>(
        &mut self,
        alloc: Global,
        home: &mut H,
        store: &mut W,
        count: u32,
    ) -> Result<(Lines, bool), StreamErr>
    where
        S: Frags<H, W>,
        requires { MayGive S.ready self.old home.old store.old }
        ensures gives { (lines : List OutLine) → AreLeft S.seen self.old home.old store.old lines → IfOk result (λ gave. gave.0 ≡ take count lines) }
        ensures more { (lines : List OutLine) → AreLeft S.seen self.old home.old store.old lines → IfOk result (λ gave. gave.1 ≡ nat_lt count (length lines)) }
        ensures left { (lines : List OutLine) → AreLeft S.seen self.old home.old store.old lines → AreLeft S.seen self.new home.new store.new (left_after result count lines) }
        ensures made { (lines : List OutLine) → AreLeft S.seen self.old home.old store.old lines → IfOk result (λ _. take 1 self.new.work.lines.items ≡ take 1 (drop count lines)) }
        ensures to { self.new.work.to ≡ self.old.work.to }
        ensures goes { (n : ℕ) (y : Pos) → count ≤ n → GoesNoFurther (S.seen self.old.stream home.old store.old) self.old.work n y → OnOk result (GoesNoFurther (S.seen self.new.stream home.new store.new) self.new.work (n - count) y) }
        ensures may { MayGive S.ready self.new home.new store.new }
        ensures spends { (left : S → ℕ) → Spends S.did left W.asks → MatchResult result (λ _. W.asks store.new + left self.new.stream ≤ W.asks store.old + left self.old.stream) (λ _. W.asks store.new ≤ W.asks store.old + left self.old.stream) }
        ensures quiet { (settled : S → Bool) → IsQuiet S.did settled W.asks → IsTrue (settled self.old.stream) → (W.asks store.new ≡ W.asks store.old) × IsTrue (settled self.new.stream) }
        ensures moves { MovedOn S.moves home.old store.old home.new store.new }
        ensures did { (y : Pos) → GoesNoFurther (S.seen self.old.stream home.old store.old) self.old.work count y → InTurn (OneStep S.did (OfNext y)) (has_answer result) (self.old.stream, home.old, store.old) (self.new.stream, home.new, store.new) }
        ensures damage { Blames (S.damage self.old.stream) (S.damage self.new.stream) result }
        ensures cause { Caused result (W.files store.old) (W.faults store.old) (W.faults store.new) }
        ensures store { HoldsSameFiles W.files W.building store.old store.new }
    {
        match make(alloc, &mut self.stream, &mut self.work, home, store, count) {
            Ok(()) => match give(alloc, &mut self.work.lines, count) {
                Ok(gave) => Ok(gave),
                Err(_) => Err(StreamErr::NoMemory),
            },
            Err(error) => Err(error),
        }
    }

    /// The next line that is left, where it is made: behind a read that was answered it is, if any is left. The only error is want of
    /// memory.
    pub fn next_made(&self, alloc: Global) -> Result<Lines, AllocError>
        ensures { IfOk result (λ next. next ≡ take 1 self.now.work.lines.items) }
    {
        let made = self.work.lines.as_slice();
        let next = made.len().min(1);
        Ok(Lines::from_slice(alloc, &made[..next])?)
    }

    /// The stream of a reader that is done with, as it is.
    pub fn into_stream(self) -> S
        ensures { result ≡ self.stream }
    {
        self.stream
    }
}

// Asks for the head, makes the static line, and goes on to where the slice begins.
fn begin<H, W: Store, S: Frags<H, W>>(
    alloc: Global,
    stream: &mut S,
    slice: &Slice,
    home: &mut H,
    store: &mut W,
) -> Result<Work, StreamErr>
    requires ready { S.ready stream.old home.old store.old }
    requires ahead { S.ahead stream.old slice.now.from }
    ensures left { (s : Stream) → S.seen stream.old home.old store.old s → IfOk result (λ work. Remains (S.seen stream.new home.new store.new) work (slice_lines slice.now s)) }
    ensures shown { S.fresh stream.old → IfOk result (λ work. LeavesOne (S.might stream.old) slice.now (Remains (S.seen stream.new home.new store.new) work)) }
    ensures to { IfOk result (λ work. work.to ≡ slice.now.to) }
    ensures goes { (n : ℕ) (y : Pos) → AreFoundBefore (S.seen stream.old home.old store.old) slice.now n y → IfOk result (λ work. GoesNoFurther (S.seen stream.new home.new store.new) work n y) }
    ensures back { (s : Stream) → S.seen stream.old home.old store.old s → OnErr result (S.seen stream.new home.new store.new s) }
    ensures ahead { (x : Pos) → S.ahead stream.old x → OnErr result (S.ahead stream.new x) }
    ensures ready { S.ready stream.new home.new store.new }
    ensures moves { MovedOn S.moves home.old store.old home.new store.new }
    ensures did { OpenCalls S.did slice.now.from (has_answer result) (stream.old, home.old, store.old) (stream.new, home.new, store.new) }
    ensures damage { Blames (S.damage stream.old) (S.damage stream.new) result }
    ensures cause { Caused result (W.files store.old) (W.faults store.old) (W.faults store.new) }
    ensures store { HoldsSameFiles W.files W.building store.old store.new }
{
    match stream.head(alloc, home, store) {
        Ok(head) => match Work::new(alloc, &head, &slice.to) {
            Ok(work) => match stream.seek(alloc, home, store, &slice.from) {
                Ok(()) => Ok(work),
                Err(error) => Err(error),
            },
            Err(_) => Err(StreamErr::NoMemory),
        },
        Err(error) => Err(error),
    }
}

// Takes the next of the stream, unless one is taken: false where none is left up to the end of the slice.
fn fetch<H, W: Store, S: Frags<H, W>>(
    alloc: Global,
    stream: &mut S,
    work: &mut Work,
    home: &mut H,
    store: &mut W,
) -> Result<bool, StreamErr>
    requires { S.ready stream.old home.old store.old }
    ensures left { (lines : List OutLine) → Remains (S.seen stream.old home.old store.old) work.old lines → Remains (S.seen stream.new home.new store.new) work.new lines }
    ensures taken { IfOk result (λ found. found ≡ true → IsSome work.new.taken) }
    ensures end { IfOk result (λ found. found ≡ false → (lines : List OutLine) → Remains (S.seen stream.old home.old store.old) work.old lines → lines ≡ work.new.lines.items) }
    ensures made { work.new.lines ≡ work.old.lines }
    ensures to { work.new.to ≡ work.old.to }
    ensures ready { S.ready stream.new home.new store.new }
    ensures moves { MovedOn S.moves home.old store.old home.new store.new }
    ensures goes { (y : Pos) (n : ℕ) → GoesNoFurther (S.seen stream.old home.old store.old) work.old n y → GoesNoFurther (S.seen stream.new home.new store.new) work.new n y }
    ensures did { (y : Pos) → (work.old.taken ≡ None → ReachesEnd (S.seen stream.old home.old store.old) work.old.to y) → InTurn (OneStep S.did (OfNext y)) (has_answer result) (stream.old, home.old, store.old) (stream.new, home.new, store.new) }
    ensures damage { Blames (S.damage stream.old) (S.damage stream.new) result }
    ensures cause { Caused result (W.files store.old) (W.faults store.old) (W.faults store.new) }
    ensures store { HoldsSameFiles W.files W.building store.old store.new }
{
    if work.taken.is_some() {
        return Ok(true);
    }
    match stream.next(alloc, home, store, &work.to) {
        Ok(got) => {
            work.taken = got;
            Ok(work.taken.is_some())
        }
        Err(error) => Err(error),
    }
}

// Takes the next of the stream and makes its line, if it has one: false where none is left before the end of the slice.
fn step<H, W: Store, S: Frags<H, W>>(
    alloc: Global,
    stream: &mut S,
    work: &mut Work,
    home: &mut H,
    store: &mut W,
) -> Result<bool, StreamErr>
    requires { S.ready stream.old home.old store.old }
    ensures left { (lines : List OutLine) → Remains (S.seen stream.old home.old store.old) work.old lines → Remains (S.seen stream.new home.new store.new) work.new lines }
    ensures end { IfOk result (λ more. more ≡ false → (lines : List OutLine) → Remains (S.seen stream.old home.old store.old) work.old lines → lines ≡ work.new.lines.items) }
    ensures to { work.new.to ≡ work.old.to }
    ensures ready { S.ready stream.new home.new store.new }
    ensures moves { MovedOn S.moves home.old store.old home.new store.new }
    ensures goes { (y : Pos) (n : ℕ) → length work.old.lines.items ≤ n → GoesNoFurther (S.seen stream.old home.old store.old) work.old n y → GoesNoFurther (S.seen stream.new home.new store.new) work.new n y }
    ensures did { (y : Pos) (n : ℕ) → length work.old.lines.items ≤ n → GoesNoFurther (S.seen stream.old home.old store.old) work.old n y → InTurn (OneStep S.did (OfNext y)) (has_answer result) (stream.old, home.old, store.old) (stream.new, home.new, store.new) }
    ensures damage { Blames (S.damage stream.old) (S.damage stream.new) result }
    ensures cause { Caused result (W.files store.old) (W.faults store.old) (W.faults store.new) }
    ensures store { HoldsSameFiles W.files W.building store.old store.new }
{
    match fetch(alloc, stream, work, home, store) {
        Ok(true) => match work.put(alloc) {
            Ok(more) => Ok(more),
            Err(_) => Err(StreamErr::NoMemory),
        },
        Ok(false) => Ok(false),
        Err(error) => Err(error),
    }
}

// Makes lines until there are more than `count`, or none is left to be made. Streams that never end are given up after 2 ^ 64 fragments.
fn make<H, W: Store, S: Frags<H, W>>(
    alloc: Global,
    stream: &mut S,
    work: &mut Work,
    home: &mut H,
    store: &mut W,
    count: u32,
) -> Result<(), StreamErr>
    requires { S.ready stream.old home.old store.old }
    ensures left { (lines : List OutLine) → Remains (S.seen stream.old home.old store.old) work.old lines → Remains (S.seen stream.new home.new store.new) work.new lines }
    ensures goes { (n : ℕ) (y : Pos) → count ≤ n → GoesNoFurther (S.seen stream.old home.old store.old) work.old n y → GoesNoFurther (S.seen stream.new home.new store.new) work.new n y }
    ensures enough { OnOk result (AreEnough count (Remains (S.seen stream.old home.old store.old) work.old) work.new.lines.items) }
    ensures to { work.new.to ≡ work.old.to }
    ensures ready { S.ready stream.new home.new store.new }
    ensures moves { MovedOn S.moves home.old store.old home.new store.new }
    ensures did { (y : Pos) → GoesNoFurther (S.seen stream.old home.old store.old) work.old count y → InTurn (OneStep S.did (OfNext y)) (has_answer result) (stream.old, home.old, store.old) (stream.new, home.new, store.new) }
    ensures damage { Blames (S.damage stream.old) (S.damage stream.new) result }
    ensures cause { Caused result (W.files store.old) (W.faults store.old) (W.faults store.new) }
    ensures store { HoldsSameFiles W.files W.building store.old store.new }
{
    let mut rounds = u64::MAX;
    while rounds > 0 {
        rounds -= 1;
        if work.has_more_than(count) {
            return Ok(());
        }
        match step(alloc, stream, work, home, store) {
            Ok(true) => {}
            Ok(false) => return Ok(()),
            Err(error) => return Err(error),
        }
    }
    Err(StreamErr::NoMemory)
}
