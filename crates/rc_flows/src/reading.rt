//! A partition read through two lists and the tables of a set, as one stream.

ghost use Rattle.std.specs.Prelude.{◌≡◌, ◌≤◌, ◌+◌, ℕ, Bool, IfOk};
ghost use Rattle.rc_stream.specs.Did.{IsQuiet, Spends};
ghost use Rattle.rc_position.specs.declared.positions.Pos.{Pos};
ghost use Rattle.rc_stream.specs.Places.{Reaches};
ghost use Rattle.rc_tables.specs.Streams.{MayBeCalledOver, asks_left};

use rc_outside::Store;
use rc_position::Pos;
use rc_stream::laws::{a_merge_asks_for_what_its_parts_do, a_new_merge_stands_for_both};
use rc_stream::{Frags, ListFrags, Merge, StreamErr};
use rc_tables::TableFrags;
use std::alloc::Global;

/// The head of a stream, and then, from a position on, the first two up to another: how many ranges were asked for up to the head, and up
/// to the end. Each error is that of the call that was refused, which is the last. Where what is left to be asked for bounds what the
/// stream's calls do, it bounds what is asked for here; where a stream that is settled asks for nothing, nothing is asked for behind the
/// head.
pub fn read_some<W: Store, S: Frags<(), W>>(
    alloc: Global,
    stream: &mut S,
    store: &mut W,
    from: &Pos,
    upto: &Pos,
) -> Result<(u64, u64), StreamErr>
    requires ready { S.ready stream.old tt store.old }
    requires ahead { S.ahead stream.old from.now }
    ensures spends { (left : S → ℕ) → Spends S.did left W.asks → W.asks store.new ≤ W.asks store.old + left stream.old }
    ensures quiet { (settled : S → Bool) → IsQuiet S.did settled W.asks → IfOk result (λ n. n.1 ≡ n.0) }
{
    let mut home = ();
    let _head = stream.head(alloc, &mut home, store)?;
    let asked = store.asks();
    stream.seek(alloc, &mut home, store, from)?;
    let _first = stream.next(alloc, &mut home, store, upto)?;
    let _second = stream.next(alloc, &mut home, store, upto)?;
    Ok((asked, store.asks()))
}

/// The same of two lists and, behind them, the tables of a set, as one stream: nothing is asked for behind the head, and in all no more
/// than two ranges of each table that lists the key.
pub fn read_through<W: Store>(
    alloc: Global,
    store: &mut W,
    one: ListFrags,
    two: ListFrags,
    tables: TableFrags,
    from: &Pos,
    upto: &Pos,
) -> Result<(u64, u64), StreamErr>
    requires { MayBeCalledOver (W.files store.old) tables }
    ensures asks { W.asks store.new ≤ W.asks store.old + asks_left tables }
    ensures quiet { IfOk result (λ n. n.1 ≡ n.0) }
{
    a_merge_asks_for_what_its_parts_do::<(), W, ListFrags, TableFrags>();
    a_merge_asks_for_what_its_parts_do::<(), W, ListFrags, Merge<ListFrags, TableFrags>>();
    a_new_merge_stands_for_both::<(), W, ListFrags, TableFrags>();
    a_new_merge_stands_for_both::<(), W, ListFrags, Merge<ListFrags, TableFrags>>();
    let below = Merge::new(two, tables);
    let mut stream = Merge::new(one, below);
    read_some(alloc, &mut stream, store, from, upto)
}
