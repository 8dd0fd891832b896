//! One line after another: bytes come in pieces, each whole line is answered before the next is read.

ghost use Rattle.std.specs.Prelude.{◌≡◌, ℕ, ◌+◌, ◌<◌, ◌≤◌, List, [], ◌∷◌, ◌++◌, length, OnOk, IfErr, OnErr, MatchResult, take, Option, true, IfOk, min};
ghost use Rattle.std.specs.Io.KnownBytes.{Appends, IsAtEnd};
ghost use Rattle.rc_outside.specs.Faults.{Rose};
ghost use Rattle.rc_shell.specs.Lines.{IsLine};
ghost use Rattle.rc_shell.specs.calls.Feed.{PushedText, PushedAnswer, ServedLine, ServedLast, Serves, SoFar, TurnGave, EndedBy, kept_front};
ghost use Rattle.rc_shell.specs.Run.{piece_size, Ran};
ghost use Rattle.rc_shell.specs.calls.Status.{stop_by};
ghost use Rattle.rc_shell.specs.Step.{Moment, LineStep, EndsRun, LeavesStore};
ghost use Rattle.rc_shell.specs.declared.words.Words.TheVariants.{Run};

use crate::server::Server;
use crate::status::{Ending, Status, Stop};
use rc_lines::LONGEST_LINE;
use rc_outside::{Sink, SinkErr, Source, Store};
use std::alloc::Global;

/// The last line of a run whose input failed.
const INPUT_FAULT: &[u8] = b"! input fault\n";

/// The last line of a run that met the limit of its input.
const INPUT_LIMIT: &[u8] = b"! input limit\n";

/// A server, the front of the line that is not yet whole, and room for a reply's text.
struct Session<S> {
    server: S,
    held: Vec<u8>,
    text: Vec<u8>,
}

/// Pushes a reply's text; an empty one is no push.
fn push_text<K: Sink>(out: &mut K, text: &[u8]) -> Result<(), Stop>
    ensures { PushedText (K.written out.old) (K.written out.new) (K.faults out.old) (K.faults out.new) text.now result }
{
    if text.is_empty() {
        return Ok(());
    }
    match out.push(text) {
        Ok(()) => Ok(()),
        Err(SinkErr::Failed) => Err(Stop::OutputFault),
        Err(SinkErr::NoMemory) => Err(Stop::NoMemory),
    }
}

/// Pushes what a line is answered: its text, or the last line of a run that it ended, which stops so, unless the output or memory fails.
fn push_answer<K: Sink>(out: &mut K, text: &[u8], ending: Option<Ending>) -> Result<(), Stop>
    ensures { PushedAnswer ending (K.written out.old) (K.written out.new) (K.faults out.old) (K.faults out.new) text.now result }
{
    let pushed = push_text(out, text);
    match ending {
        None => pushed,
        Some(ending) => Err(stop_by(pushed, ending)),
    }
}

/// The stop behind a pushed last line.
fn stop_by(pushed: Result<(), Stop>, ending: Ending) -> Stop
    ensures { result ≡ stop_by pushed ending }
{
    match pushed {
        Ok(()) => Stop::Ended(ending),
        Err(stop) => stop,
    }
}

impl<S: Server> Session<S> {
    /// A session before the first byte.
    fn new(alloc: Global, server: S) -> Self
        ensures server { result.server ≡ server }
        ensures held { result.held.items ≡ [] }
    {
        Session {
            server,
            held: Vec::new(alloc),
            text: Vec::new(alloc),
        }
    }

    /// Answers the line of which the front is held, and holds nothing then.
    fn serve_held<W: Store, K: Sink>(
        &mut self,
        alloc: Global,
        store: &mut W,
        out: &mut K,
    ) -> Result<(), Stop>
        requires stands { (now : Moment) × S.stands self.old.server (W.files store.old, W.faults store.old, W.asks store.old) now }
        ensures served { (line : List ℕ) (old : Moment) → self.old.held.items ≡ kept_front line → S.stands self.old.server (W.files store.old, W.faults store.old, W.asks store.old) old →
            ServedLine LineStep EndsRun LeavesStore old line (S.stands self.new.server (W.files store.new, W.faults store.new, W.asks store.new)) (W.files store.new, W.faults store.new, W.asks store.new)
            (K.written out.old) (K.written out.new) (K.faults out.old) (K.faults out.new) result }
        ensures stands { OnOk result ((now : Moment) × S.stands self.new.server (W.files store.new, W.faults store.new, W.asks store.new) now) }
        ensures closes { S.closes self.new.server }
        ensures held { self.new.held.items ≡ [] }
    {
        self.text.clear();
        let answered = self
            .server
            .answer(alloc, store, self.held.as_slice(), &mut self.text);
        self.held.clear();
        match answered {
            Ok(ending) => push_answer(out, self.text.as_slice(), ending),
            Err(_) => Err(Stop::NoMemory),
        }
    }

    /// Keeps a byte of the unfinished line, as far as it may be a line that is not too long.
    fn hold(&mut self, byte: u8) -> Result<(), Stop>
        ensures server { self.new.server ≡ self.old.server }
        ensures held { OnOk result ((line : List ℕ) → self.old.held.items ≡ kept_front line → self.new.held.items ≡ kept_front (line ++ byte ∷ [])) }
        ensures memory { IfErr result (λ stop. stop ≡ Stop.NoMemory) }
    {
        if self.held.len() <= LONGEST_LINE {
            return match self.held.push(byte) {
                Ok(()) => Ok(()),
                Err(_) => Err(Stop::NoMemory),
            };
        }
        Ok(())
    }

    /// Serves one byte of the input.
    fn take_byte<W: Store, K: Sink>(
        &mut self,
        alloc: Global,
        byte: u8,
        store: &mut W,
        out: &mut K,
    ) -> Result<(), Stop>
        requires stands { (now : Moment) × S.stands self.old.server (W.files store.old, W.faults store.old, W.asks store.old) now }
        ensures served { (rest : List ℕ) (old : Moment) → IsLine rest → self.old.held.items ≡ kept_front rest → S.stands self.old.server (W.files store.old, W.faults store.old, W.asks store.old) old →
            Serves LineStep EndsRun LeavesStore old rest (byte ∷ []) (S.stands self.new.server (W.files store.new, W.faults store.new, W.asks store.new)) self.new.held.items (W.files store.new, W.faults store.new, W.asks store.new)
            (K.written out.old) (K.written out.new) (K.faults out.old) (K.faults out.new) result }
        ensures stands { OnOk result ((now : Moment) × S.stands self.new.server (W.files store.new, W.faults store.new, W.asks store.new) now) }
        ensures closes { S.closes self.new.server }
    {
        if byte == b'\n' {
            return self.serve_held(alloc, store, out);
        }
        self.hold(byte)
    }

    /// Serves the bytes of a piece: each whole line is answered, and the last, unfinished one is kept.
    fn feed<W: Store, K: Sink>(
        &mut self,
        alloc: Global,
        piece: &[u8],
        store: &mut W,
        out: &mut K,
    ) -> Result<(), Stop>
        requires stands { (now : Moment) × S.stands self.old.server (W.files store.old, W.faults store.old, W.asks store.old) now }
        ensures served { (rest : List ℕ) (old : Moment) → IsLine rest → self.old.held.items ≡ kept_front rest → S.stands self.old.server (W.files store.old, W.faults store.old, W.asks store.old) old →
            Serves LineStep EndsRun LeavesStore old rest piece.now (S.stands self.new.server (W.files store.new, W.faults store.new, W.asks store.new)) self.new.held.items (W.files store.new, W.faults store.new, W.asks store.new)
            (K.written out.old) (K.written out.new) (K.faults out.old) (K.faults out.new) result }
        ensures stands { OnOk result ((now : Moment) × S.stands self.new.server (W.files store.new, W.faults store.new, W.asks store.new) now) }
        ensures closes { S.closes self.new.server }
    {
        for byte in piece {
            self.take_byte(alloc, *byte, store, out)?;
        }
        Ok(())
    }

    /// The input is at its end: what is unfinished is a last line, where it is not empty.
    fn serve_last<W: Store, K: Sink>(
        &mut self,
        alloc: Global,
        store: &mut W,
        out: &mut K,
    ) -> Result<(), Stop>
        requires stands { (now : Moment) × S.stands self.old.server (W.files store.old, W.faults store.old, W.asks store.old) now }
        ensures served { (rest : List ℕ) (old : Moment) → self.old.held.items ≡ kept_front rest → S.stands self.old.server (W.files store.old, W.faults store.old, W.asks store.old) old →
            ServedLast LineStep EndsRun LeavesStore old rest (S.stands self.new.server (W.files store.new, W.faults store.new, W.asks store.new)) (W.files store.new, W.faults store.new, W.asks store.new)
            (K.written out.old) (K.written out.new) (K.faults out.old) (K.faults out.new) result }
        ensures closes { S.closes self.new.server }
    {
        if self.held.is_empty() {
            return Ok(());
        }
        self.serve_held(alloc, store, out)
    }

    /// Takes one piece of the input and serves it: how many bytes it took, or how the run ended.
    fn turn<W: Store, I: Source, K: Sink>(
        &mut self,
        alloc: Global,
        store: &mut W,
        input: &mut I,
        piece: &mut [u8],
        out: &mut K,
    ) -> Result<usize, Status>
        requires room { 0 < length piece.old }
        requires small { length piece.old ≤ piece_size }
        requires stands { (now : Moment) × S.stands self.old.server (W.files store.old, W.faults store.old, W.asks store.old) now }
        ensures within { IfOk result (λ count. (0 < count) × (count ≤ length piece.old)) }
        ensures stands { OnOk result ((now : Moment) × S.stands self.new.server (W.files store.new, W.faults store.new, W.asks store.new) now) }
        ensures closes { S.closes self.new.server }
        ensures run { (start : Moment) (limit count : ℕ) (left written : Option (List ℕ)) (faults faults2 : ℕ) → count + length piece.old ≤ limit →
            SoFar LineStep EndsRun LeavesStore start (S.stands self.old.server (W.files store.old, W.faults store.old, W.asks store.old)) self.old.held.items count left (I.left input.old) written (K.written out.old)
            faults (I.faults input.old) faults2 (K.faults out.old) →
            TurnGave LineStep EndsRun LeavesStore start limit (S.stands self.new.server (W.files store.new, W.faults store.new, W.asks store.new)) self.new.held.items count left (I.left input.new) written (K.written out.new)
            (W.files store.new, W.faults store.new, W.asks store.new) faults (I.faults input.new) faults2 (K.faults out.new) result }
    {
        match input.pull(piece) {
            Err(_) => Err(push_last(out, INPUT_FAULT, Status::InputFault)),
            Ok(0) => match self.serve_last(alloc, store, out) {
                Ok(()) => Err(Status::Done),
                Err(stop) => Err(stop.status()),
            },
            Ok(count) => match self.feed(alloc, &piece[..count], store, out) {
                Ok(()) => Ok(count),
                Err(stop) => Err(stop.status()),
            },
        }
    }

    /// Closes the server.
    fn close(self)
        requires { S.closes self.server }
    {
        let Session {
            server,
            held: _held,
            text: _text,
        } = self;
        server.close();
    }

    /// Serves the input to its end, its fault or the limit, or to a line that ends the run.
    fn serve_input<W: Store, I: Source, K: Sink>(
        &mut self,
        alloc: Global,
        store: &mut W,
        input: &mut I,
        piece: &mut [u8],
        out: &mut K,
        limit: u64,
    ) -> Status
        requires room { 0 < length piece.old }
        requires small { length piece.old ≤ piece_size }
        requires fresh { self.old.held.items ≡ [] }
        requires stands { (now : Moment) × S.stands self.old.server (W.files store.old, W.faults store.old, W.asks store.old) now }
        ensures run { (start : Moment) → S.stands self.old.server (W.files store.old, W.faults store.old, W.asks store.old) start →
            (segments : ℕ) → Ran LineStep EndsRun LeavesStore (Run segments) start limit result (I.left input.old) (I.left input.new) (K.written out.old) (K.written out.new) (W.files store.new, W.faults store.new, W.asks store.new)
            (I.faults input.old) (I.faults input.new) (K.faults out.old) (K.faults out.new) }
        ensures closes { S.closes self.new.server }
    {
        let mut taken = 0u64;
        while taken < limit {
            let room = piece_len(piece.len(), limit - taken);
            match self.turn(alloc, store, input, &mut piece[..room], out) {
                Ok(count) => taken += count as u64,
                Err(status) => return status,
            }
        }
        push_last(out, INPUT_LIMIT, Status::InputLimit)
    }
}

/// Serves the input by a session of its own with a server, which is closed at the end.
pub(crate) fn serve_by<S: Server, W: Store, I: Source, K: Sink>(
    alloc: Global,
    server: S,
    store: &mut W,
    input: &mut I,
    piece: &mut [u8],
    out: &mut K,
    limit: u64,
) -> Status
    requires room { 0 < length piece.old }
    requires small { length piece.old ≤ piece_size }
    requires stands { (now : Moment) × S.stands server (W.files store.old, W.faults store.old, W.asks store.old) now }
    ensures { (start : Moment) → S.stands server (W.files store.old, W.faults store.old, W.asks store.old) start →
        (segments : ℕ) → Ran LineStep EndsRun LeavesStore (Run segments) start limit result (I.left input.old) (I.left input.new) (K.written out.old) (K.written out.new) (W.files store.new, W.faults store.new, W.asks store.new)
        (I.faults input.old) (I.faults input.new) (K.faults out.old) (K.faults out.new) }
{
    let mut session = Session::new(alloc, server);
    let status = session.serve_input(alloc, store, input, piece, out, limit);
    session.close();
    status
}

/// How many bytes to ask for: as many as fit, and no more than are left up to the limit.
fn piece_len(room: usize, left: u64) -> usize
    ensures { result ≡ min room left }
{
    if left < room as u64 {
        left as usize
    } else {
        room
    }
}

/// Pushes the last line of a run: the status that is due, unless the output or memory fails.
pub(crate) fn push_last<K: Sink>(out: &mut K, line: &[u8], status: Status) -> Status
    ensures { EndedBy status line.now (K.written out.old) (K.written out.new) (K.faults out.old) (K.faults out.new) result }
{
    match push_text(out, line) {
        Ok(()) => status,
        Err(stop) => stop.status(),
    }
}
