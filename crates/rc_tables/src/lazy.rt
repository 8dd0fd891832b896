//! A partition in all tables of a set as a stream.

ghost use Rattle.std.specs.Prelude.{◌≡◌, ◌≤◌, ◌+◌, ◌*◌, IfErr, IfOk, IfSome, IsSome, IsTrue, None, OnOk, Some};
ghost use Rattle.rc_outside.specs.Files.{HoldsSameFiles};
ghost use Rattle.rc_stream.specs.Leaving.{left_by, sought_by};
ghost use Rattle.rc_stream.specs.Causes.{Caused};
ghost use Rattle.rc_stream.specs.Stream.{Stream, first_upto, is_upto, sought_stream, took};
ghost use Rattle.rc_tables.specs.Located.{WhereTold};
ghost use Rattle.rc_stream.specs.Did.{has_answer};
ghost use Rattle.rc_tables.specs.Tables.{AreHeld, IsDamageOf, IsStreamAt, listing};
ghost use Rattle.rc_tables.specs.Streams.{DidAsk, MayBeCalledOver, IsSomeStream, MayBe, SameTables, Settled, IsLazyOf, asks_left};

use crate::reading::read_joined;
use crate::sets::TableSet;
use rc_mutation::{Frag, Head};
use rc_outside::Store;
use rc_position::{PartKey, Pos};
use rc_schema::Schema;
use rc_stream::laws::the_stream_of_a_mutation;
use rc_stream::{Frags, ListFrags, StreamErr};
use std::alloc::Global;
use std::marker::Model;
use std::rc::Rc;

/// A partition in all tables of a set as a stream, from the beginning: what the tables say of it, joined. It is read at its
/// first call that is answered, which asks for at most two ranges of each table that lists the partition's key; later calls ask for
/// none (`asks`). Whatever the files hold, what it gives is the stream of some join of changes, at most one of each such table, each
/// within the limits and of the schema (`some`). A contract sees what is known of the tables, their schema, the key, and what is left
/// once it was read.
#[derive(Drop)]
pub struct TableFrags {
    set: TableSet,
    schema: Rc<Schema>,
    key: PartKey,
    list: Option<ListFrags>,
}

impl Model for TableFrags {
    ghost use Rattle.rc_tables.specs.Streams.{Lazy};

    ghost Value = { Lazy };

    ghost view = { λ t. record { infos = t.set; schema = t.schema.value; key = t.key; read = t.list } };
}

impl TableFrags {
    /// The stream of the key's partition in the tables of the set, which are of the schema, from the beginning. Nothing is asked
    /// for.
    pub fn lazy(set: TableSet, schema: Rc<Schema>, key: PartKey) -> Self
        ensures { result ≡ record { infos = set; schema = schema.value; key = key; read = None } }
    {
        TableFrags {
            set,
            schema,
            key,
            list: None,
        }
    }

    /// The head of the partition. The stream is as before. `StreamErr::Fault` when the store fails, `StreamErr::Damaged` where a
    /// file is not the table that is known, `StreamErr::NoMemory` when memory is refused.
    pub fn head<W: Store>(&mut self, alloc: Global, store: &mut W) -> Result<Head, StreamErr>
        requires { MayBeCalledOver (W.files store.old) self.old }
        ensures ready { MayBeCalledOver (W.files store.new) self.new }
        ensures head { (s : Stream) → IsLazyOf (W.files store.old) self.old s → IfOk result (λ head. head ≡ s.head) }
        ensures some { IfOk result (λ head. (s : Stream) × Settled self.old self.new s s × (head ≡ s.head)) }
        ensures might { (s : Stream) → MayBe self.new s → MayBe self.old s }
        ensures stands { (s : Stream) → IsLazyOf (W.files store.old) self.old s → IsLazyOf (W.files store.new) self.new s }
        ensures tables { SameTables self.old self.new }
        ensures damaged { IfErr result (IsDamageOf self.old.schema self.old.key self.old.infos) }
        ensures cause { Caused result (W.files store.old) (W.faults store.old) (W.faults store.new) }
        ensures store { HoldsSameFiles W.files W.building store.old store.new }
        ensures asks { DidAsk (has_answer result) self.old (W.asks store.old) self.new (W.asks store.new) }
    {
        match self.take_read(alloc, store) {
            Ok(read) => {
                let head = copy_head(alloc, &read);
                self.list = Some(read);
                head
            }
            Err(err) => Err(err),
        }
    }

    /// Goes on to a position that is not before its place: the first is then a change there where a tombstone is in force
    /// there. `StreamErr::Fault` when the store fails, `StreamErr::Damaged` where a file is not the table that is known,
    /// `StreamErr::NoMemory` when memory is refused: then the stream is as it was.
    pub fn seek<W: Store>(
        &mut self,
        alloc: Global,
        store: &mut W,
        to: &Pos,
    ) -> Result<(), StreamErr>
        requires { MayBeCalledOver (W.files store.old) self.old }
        ensures ready { MayBeCalledOver (W.files store.new) self.new }
        ensures some { OnOk result ((s : Stream) × Settled self.old self.new s (sought_stream to.now s)) }
        ensures stands { (s : Stream) → IsLazyOf (W.files store.old) self.old s → IsLazyOf (W.files store.new) self.new (sought_by result to.now s) }
        ensures tables { SameTables self.old self.new }
        ensures damaged { IfErr result (IsDamageOf self.old.schema self.old.key self.old.infos) }
        ensures cause { Caused result (W.files store.old) (W.faults store.old) (W.faults store.new) }
        ensures store { HoldsSameFiles W.files W.building store.old store.new }
        ensures asks { DidAsk (has_answer result) self.old (W.asks store.old) self.new (W.asks store.new) }
    {
        match self.take_read(alloc, store) {
            Ok(mut list) => {
                let went = go_on(alloc, &mut list, to);
                self.list = Some(list);
                went
            }
            Err(err) => Err(err),
        }
    }

    /// Takes the first row or change that is left and gives it, if it stands at `upto` or before it; none exactly where
    /// no such stands there, and then the stream is as before. `StreamErr::Fault` when the store fails,
    /// `StreamErr::Damaged` where a file is not the table that is known, `StreamErr::NoMemory` when memory is refused: then the
    /// stream is as it was.
    pub fn next<W: Store>(
        &mut self,
        alloc: Global,
        store: &mut W,
        upto: &Pos,
    ) -> Result<Option<Frag>, StreamErr>
        requires { MayBeCalledOver (W.files store.old) self.old }
        ensures ready { MayBeCalledOver (W.files store.new) self.new }
        ensures gives { (s : Stream) → IsLazyOf (W.files store.old) self.old s → IfOk result (λ got. got ≡ first_upto upto.now s.left) }
        ensures upto { IfOk result (λ got. IfSome got (λ f. IsTrue (is_upto upto.now f))) }
        ensures some { IfOk result (λ got. (s : Stream) × Settled self.old self.new s (took got s) × (got ≡ first_upto upto.now s.left)) }
        ensures stands { (s : Stream) → IsLazyOf (W.files store.old) self.old s → IsLazyOf (W.files store.new) self.new (left_by result s) }
        ensures tables { SameTables self.old self.new }
        ensures damaged { IfErr result (IsDamageOf self.old.schema self.old.key self.old.infos) }
        ensures cause { Caused result (W.files store.old) (W.faults store.old) (W.faults store.new) }
        ensures store { HoldsSameFiles W.files W.building store.old store.new }
        ensures asks { DidAsk (has_answer result) self.old (W.asks store.old) self.new (W.asks store.new) }
    {
        match self.take_read(alloc, store) {
            Ok(mut list) => {
                let taken = take_first(alloc, &mut list, upto);
                self.list = Some(list);
                taken
            }
            Err(err) => Err(err),
        }
    }

    // Takes out what was read of the partition, and reads it where it is not read yet; where it is not there to be given, the
    // stream is as it was.
    fn take_read<W: Store>(&mut self, alloc: Global, store: &mut W) -> Result<ListFrags, StreamErr>
        requires { MayBeCalledOver (W.files store.old) self.old }
        ensures stands { (s : Stream) → IsLazyOf (W.files store.old) self.old s → IfOk result (λ list. s ≡ list) }
        ensures might { IfOk result (MayBe self.old) }
        ensures infos { self.new.infos ≡ self.old.infos }
        ensures schema { self.new.schema ≡ self.old.schema }
        ensures key { self.new.key ≡ self.old.key }
        ensures refused { IfErr result (λ _. self.new.read ≡ self.old.read) }
        ensures damaged { IfErr result (IsDamageOf self.old.schema self.old.key self.old.infos) }
        ensures cause { Caused result (W.files store.old) (W.faults store.old) (W.faults store.new) }
        ensures store { HoldsSameFiles W.files W.building store.old store.new }
        ensures asks { W.asks store.new ≤ W.asks store.old + asks_left self.old }
        ensures quiet { IsSome self.old.read → W.asks store.new ≡ W.asks store.old }
    {
        if let Some(list) = self.list.take() {
            return Ok(list);
        }
        read_list(alloc, store, &self.set, self.schema.as_ref(), &self.key)
    }
}

impl<H, W: Store> Frags<H, W> for TableFrags {
    ghost use Rattle.std.specs.Prelude.{◌≡◌, ⊤};
    ghost use Rattle.rc_tables.specs.Streams.{DidAsk, IsFresh, MayBeCalledOver, MayBe, MayBlame, IsLazyOf};

    ghost ready = { λ t _ store. MayBeCalledOver (W.files store) t };

    ghost seen = { λ t _ store s. IsLazyOf (W.files store) t s };

    ghost ahead = { λ _ _. ⊤ };

    ghost moves = { λ home store home' store'. (home ≡ home') × (W.files store' ≡ W.files store) × (W.building store' ≡ W.building store) };

    ghost did = { λ t _ store _ ok t' _ store'. DidAsk ok t (W.asks store) t' (W.asks store') };

    ghost fresh = { λ t. IsFresh t };

    ghost might = { λ t s. MayBe t s };

    ghost damage = { λ t file offset. MayBlame t file offset };

    fn head(&mut self, alloc: Global, _home: &mut H, store: &mut W) -> Result<Head, StreamErr> {
        the_stream_of_a_mutation();
        self.head(alloc, store)
    }

    fn seek(
        &mut self,
        alloc: Global,
        _home: &mut H,
        store: &mut W,
        to: &Pos,
    ) -> Result<(), StreamErr> {
        self.seek(alloc, store, to)
    }

    fn next(
        &mut self,
        alloc: Global,
        _home: &mut H,
        store: &mut W,
        upto: &Pos,
    ) -> Result<Option<Frag>, StreamErr> {
        self.next(alloc, store, upto)
    }
}

// The head of what was read. The only error is want of memory.
fn copy_head(alloc: Global, list: &ListFrags) -> Result<Head, StreamErr>
    ensures head { IfOk result (λ head. head ≡ list.now.head) }
    ensures memory { IfErr result (λ e. e ≡ StreamErr.NoMemory) }
{
    match list.copy_head(alloc) {
        Ok(head) => Ok(head),
        Err(_) => Err(StreamErr::NoMemory),
    }
}

// Goes on to the position in what was read. The only error is want of memory: then it is as it was.
fn go_on(alloc: Global, list: &mut ListFrags, to: &Pos) -> Result<(), StreamErr>
    ensures left { list.new ≡ sought_by result to.now list.old }
    ensures memory { IfErr result (λ e. e ≡ StreamErr.NoMemory) }
{
    match list.go_on(alloc, to) {
        Ok(()) => Ok(()),
        Err(_) => Err(StreamErr::NoMemory),
    }
}

// Takes the first of what was read, if it stands at the position or before it. The only error is want of memory: then it is as
// it was.
fn take_first(alloc: Global, list: &mut ListFrags, upto: &Pos) -> Result<Option<Frag>, StreamErr>
    ensures gives { IfOk result (λ got. got ≡ first_upto upto.now list.old.left) }
    ensures upto { IfOk result (λ got. IfSome got (λ f. IsTrue (is_upto upto.now f))) }
    ensures left { list.new ≡ left_by result list.old }
    ensures memory { IfErr result (λ e. e ≡ StreamErr.NoMemory) }
{
    match list.take_first(alloc, upto) {
        Ok(got) => Ok(got),
        Err(_) => Err(StreamErr::NoMemory),
    }
}

// The stream of what all tables of the set say of the key.
fn read_list<W: Store>(
    alloc: Global,
    store: &mut W,
    set: &TableSet,
    schema: &Schema,
    key: &PartKey,
) -> Result<ListFrags, StreamErr>
    requires { WhereTold (W.files store.old) (AreHeld (W.files store.old) schema.now set.now) }
    ensures stands { (s : Stream) → IsStreamAt (W.files store.old) schema.now set.now key.now s → IfOk result (λ list. s ≡ list) }
    ensures some { IfOk result (IsSomeStream schema.now set.now key.now) }
    ensures damaged { IfErr result (IsDamageOf schema.now key.now set.now) }
    ensures cause { Caused result (W.files store.old) (W.faults store.old) (W.faults store.new) }
    ensures store { HoldsSameFiles W.files W.building store.old store.new }
    ensures asks { W.asks store.new ≤ W.asks store.old + 2 * listing key.now set.now }
{
    let joined = read_joined(alloc, store, set, schema, key)?;
    match joined.fragments(alloc) {
        Ok(list) => Ok(ListFrags::new(list)),
        Err(_) => Err(StreamErr::NoMemory),
    }
}
