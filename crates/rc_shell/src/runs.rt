//! A run of the program.

ghost use Rattle.std.specs.Prelude.{◌≡◌, ◌^◌, ℕ, List, map, string_bytes};
ghost use Rattle.rc_shell.specs.Run.{Ran};
ghost use Rattle.rc_shell.specs.Step.{LineStep, EndsRun, LeavesStore, start_moment};
ghost use Rattle.rc_shell.specs.Words.{words_of};

use crate::late::LateMachine;
use crate::session::{push_last, serve_by};
use crate::status::Status;
use crate::words::{Words, words_of};
use rc_folder::Machine;
use rc_outside::{Sink, Source, Store};
use std::alloc::Global;

/// The machine that the program runs on.
type Program = rc_shard::Shard;

/// The most input that a run takes: 2^40 bytes.
const INPUT_LIMIT: u64 = 1 << 40;

/// How many bytes of the input are asked for at once.
const PIECE: usize = 65_536;

/// The last line of a run whose words are not those of a run.
const BAD_WORDS: &[u8] = b"! bad words\n";

/// Serves the lines of the input over the store, each answered before the next is read, up to 2^40 bytes.
pub fn run<W: Store, I: Source, K: Sink>(
    alloc: Global,
    words: &[String],
    store: &mut W,
    input: &mut I,
    out: &mut K,
) -> Status
    ensures run { Ran LineStep EndsRun LeavesStore (words_of (map string_bytes words.now)) (start_moment (words_of (map string_bytes words.now)) (W.files store.old, W.faults store.old, W.asks store.old)) (2 ^ 40) result (I.left input.old) (I.left input.new) (K.written out.old) (K.written out.new)
        (W.files store.new, W.faults store.new, W.asks store.new) (I.faults input.old) (I.faults input.new) (K.faults out.old) (K.faults out.new) }
    // The store is asked for nothing where the words are refused.
    ensures refused { words_of (map string_bytes words.now) ≡ Words.Refused → store.new ≡ store.old }
{
    run_with(alloc, words, store, input, out, INPUT_LIMIT)
}

/// The same for a limit of its own: at most so many bytes of the input are taken.
pub fn run_with<W: Store, I: Source, K: Sink>(
    alloc: Global,
    words: &[String],
    store: &mut W,
    input: &mut I,
    out: &mut K,
    limit: u64,
) -> Status
    ensures run { Ran LineStep EndsRun LeavesStore (words_of (map string_bytes words.now)) (start_moment (words_of (map string_bytes words.now)) (W.files store.old, W.faults store.old, W.asks store.old)) limit result (I.left input.old) (I.left input.new) (K.written out.old) (K.written out.new)
        (W.files store.new, W.faults store.new, W.asks store.new) (I.faults input.old) (I.faults input.new) (K.faults out.old) (K.faults out.new) }
    // The store is asked for nothing where the words are refused.
    ensures refused { words_of (map string_bytes words.now) ≡ Words.Refused → store.new ≡ store.old }
{
    run_on::<Program, W, I, K>(alloc, words, store, input, out, limit)
}

/// The same over a machine of any kind, which is closed at the end.
pub fn run_on<M: Machine, W: Store, I: Source, K: Sink>(
    alloc: Global,
    words: &[String],
    store: &mut W,
    input: &mut I,
    out: &mut K,
    limit: u64,
) -> Status
    ensures run { Ran LineStep EndsRun LeavesStore (words_of (map string_bytes words.now)) (start_moment (words_of (map string_bytes words.now)) (W.files store.old, W.faults store.old, W.asks store.old)) limit result (I.left input.old) (I.left input.new) (K.written out.old) (K.written out.new)
        (W.files store.new, W.faults store.new, W.asks store.new) (I.faults input.old) (I.faults input.new) (K.faults out.old) (K.faults out.new) }
    // The store is asked for nothing where the words are refused.
    ensures refused { words_of (map string_bytes words.now) ≡ Words.Refused → store.new ≡ store.old }
{
    match words_of(words) {
        Words::Refused => push_last(out, BAD_WORDS, Status::BadWords),
        Words::Run { segments } => match vec![in alloc; 0u8; PIECE] {
            Ok(mut piece) => {
                let machine = LateMachine::<M>::new(segments);
                serve_by(alloc, machine, store, input, &mut piece, out, limit)
            }
            Err(_) => Status::NoMemory,
        },
    }
}
