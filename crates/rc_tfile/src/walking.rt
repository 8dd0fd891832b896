//! A whole file checked, from its head to its end.

ghost use Rattle.std.specs.Prelude.{◌≡◌, ◌≤◌, ◌+◌, ◌<◌, ◌↔◌, ℕ, List, [], ◌∷◌, ◌++◌, map, length, true, IsTrue, IfOk, IfErr, OnOk, MatchResult};
ghost use Rattle.std.specs.List.{flat_map, AllByRecursion};
ghost use Rattle.rc_outside.specs.Files.{HoldsSameFiles, IsFile};
ghost use Rattle.rc_schema.specs.SchemaValue.{SchemaValue};
ghost use Rattle.rc_rowcode.specs.Spelling.{KeyFits};
ghost use Rattle.rc_items.specs.Items.{EntryItem, BlockItem, TailItem};
ghost use Rattle.rc_items.specs.Before.{ItemsBefore};
ghost use Rattle.rc_items.specs.Blocks.{entry_items, ending};
ghost use Rattle.rc_items.specs.Outlined.{IsListed};
ghost use Rattle.rc_outside.specs.Faults.{RisesIfFault};
ghost use Rattle.rc_tfile.specs.Checking.{IsContent, AsksFew, OnCheckFault};
ghost use Rattle.rc_tfile.specs.calls.Windows.{IsOpen, IsAheadIn, bytes_left, reads_left, largest};
ghost use Rattle.rc_tfile.specs.Walking.{ChecksTable};
ghost use Rattle.rc_tfile.specs.calls.Walking.{IsCheckRefused, StandsAhead, Stopped, Walks, Awaits, Expects, Meets, EndsFront, IsWholeTable, IsWalked};

use crate::checking::{CheckErr, head_of};
use crate::directory::{block_of, entry_of, refs_of, tail_of};
use crate::info::TableInfo;
use crate::window::Window;
use rc_items::{Block, Listed, Next, Outline, next_item};
use rc_outside::Store;
use rc_schema::Schema;
use std::alloc::Global;

// The head, which is that of the schema.
fn check_head<W: Store>(
    alloc: Global,
    store: &mut W,
    file: &mut Window,
    schema: &Schema,
) -> Result<Outline, CheckErr>
    requires open { IsOpen (W.files store.old) file.old }
    requires start { IsAheadIn (W.files store.old) [] file.old }
    ensures store { HoldsSameFiles W.files W.building store.old store.new }
    ensures faults { RisesIfFault OnCheckFault result (W.faults store.old) (W.faults store.new) }
    ensures open { OnOk result (IsOpen (W.files store.new) file.new) }
    ensures number { file.new.number ≡ file.old.number }
    ensures asks { W.asks store.new ≤ W.asks store.old + reads_left file.old }
    ensures spent { OnOk result (W.asks store.new + reads_left file.new ≤ W.asks store.old + reads_left file.old) }
    ensures stands { IfOk result (λ outline. StandsAhead (W.files store.new) schema.now outline file.new) }
    ensures refused { IfErr result (IsCheckRefused (W.files store.new) file.new.number schema.now) }
{
    let (found, size) = head_of(alloc, store, file)?;
    if !found.is_same(schema) {
        return Err(CheckErr::OtherSchema);
    }
    file.advance(size);
    Ok(Outline::new(alloc, size))
}

// The next item up to the stop, and whether it is the stop.
fn check_item<W: Store>(
    alloc: Global,
    store: &mut W,
    file: &mut Window,
    schema: &Schema,
    outline: &mut Outline,
) -> Result<bool, CheckErr>
    requires open { IsOpen (W.files store.old) file.old }
    requires stands { StandsAhead (W.files store.old) schema.now outline.old file.old }
    ensures store { HoldsSameFiles W.files W.building store.old store.new }
    ensures faults { RisesIfFault OnCheckFault result (W.faults store.old) (W.faults store.new) }
    ensures open { OnOk result (IsOpen (W.files store.new) file.new) }
    ensures number { file.new.number ≡ file.old.number }
    ensures asks { W.asks store.new ≤ W.asks store.old + reads_left file.old }
    ensures spent { OnOk result (W.asks store.new + reads_left file.new ≤ W.asks store.old + reads_left file.old) }
    ensures less { OnOk result (bytes_left file.new < bytes_left file.old) }
    ensures next { IfOk result (λ stops. Walks stops (W.files store.new) schema.now outline.new file.new) }
    ensures refused { IfErr result (IsCheckRefused (W.files store.new) file.new.number schema.now) }
{
    file.refill(alloc, store)?;
    match next_item(alloc, file.ahead(), schema, outline) {
        Ok(Next::Fits(size)) => {
            file.advance(size);
            Ok(false)
        }
        Ok(Next::Stops) => {
            file.advance(1);
            Ok(true)
        }
        Ok(Next::Unfit) => Err(CheckErr::Damaged {
            offset: file.offset(),
        }),
        Err(_) => Err(CheckErr::NoMemory),
    }
}

// The partitions, and the stop behind them.
fn check_parts<W: Store>(
    alloc: Global,
    store: &mut W,
    file: &mut Window,
    schema: &Schema,
    outline: &mut Outline,
) -> Result<(), CheckErr>
    requires open { IsOpen (W.files store.old) file.old }
    requires stands { StandsAhead (W.files store.old) schema.now outline.old file.old }
    ensures store { HoldsSameFiles W.files W.building store.old store.new }
    ensures faults { RisesIfFault OnCheckFault result (W.faults store.old) (W.faults store.new) }
    ensures open { OnOk result (IsOpen (W.files store.new) file.new) }
    ensures number { file.new.number ≡ file.old.number }
    ensures asks { W.asks store.new ≤ W.asks store.old + reads_left file.old }
    ensures spent { OnOk result (W.asks store.new + reads_left file.new ≤ W.asks store.old + reads_left file.old) }
    ensures stopped { OnOk result (Stopped (W.files store.new) schema.now outline.new file.new) }
    ensures refused { IfErr result (IsCheckRefused (W.files store.new) file.new.number schema.now) }
{
    loop {
        match check_item(alloc, store, file, schema, outline) {
            Ok(true) => return Ok(()),
            Ok(false) => {}
            Err(err) => return Err(err),
        }
    }
}

// Whether bytes begin with others.
fn begins(bytes: &[u8], code: &[u8]) -> bool
    ensures { IsTrue result ↔ ((rest : List ℕ) × (bytes.now ≡ code.now ++ rest)) }
{
    bytes.starts_with(code)
}

// The bytes of an item, which must come next.
fn expect<W: Store>(
    alloc: Global,
    store: &mut W,
    file: &mut Window,
    code: &[u8],
) -> Result<(), CheckErr>
    requires open { IsOpen (W.files store.old) file.old }
    requires short { length code.now ≤ largest }
    ensures store { HoldsSameFiles W.files W.building store.old store.new }
    ensures faults { RisesIfFault OnCheckFault result (W.faults store.old) (W.faults store.new) }
    ensures open { OnOk result (IsOpen (W.files store.new) file.new) }
    ensures number { file.new.number ≡ file.old.number }
    ensures asks { W.asks store.new ≤ W.asks store.old + reads_left file.old }
    ensures spent { OnOk result (W.asks store.new + reads_left file.new ≤ W.asks store.old + reads_left file.old) }
    ensures next { Meets (W.files store.old) (W.files store.new) code.now result file.old file.new }
{
    file.refill(alloc, store)?;
    if !begins(file.ahead(), code) {
        return Err(CheckErr::Damaged {
            offset: file.offset(),
        });
    }
    file.advance(code.len());
    Ok(())
}

// A block's item in the directory.
fn check_block<W: Store>(
    alloc: Global,
    store: &mut W,
    file: &mut Window,
    block: &Block,
) -> Result<(), CheckErr>
    requires open { IsOpen (W.files store.old) file.old }
    requires limits { KeyFits block.now.first.prefix }
    ensures store { HoldsSameFiles W.files W.building store.old store.new }
    ensures faults { RisesIfFault OnCheckFault result (W.faults store.old) (W.faults store.new) }
    ensures open { OnOk result (IsOpen (W.files store.new) file.new) }
    ensures number { file.new.number ≡ file.old.number }
    ensures asks { W.asks store.new ≤ W.asks store.old + reads_left file.old }
    ensures spent { OnOk result (W.asks store.new + reads_left file.new ≤ W.asks store.old + reads_left file.old) }
    ensures next { Expects (W.files store.old) (W.files store.new) (BlockItem block.now ∷ []) result file.old file.new }
{
    match block_of(alloc, block) {
        Ok(code) => expect(alloc, store, file, code.as_slice()),
        Err(_) => Err(CheckErr::NoMemory),
    }
}

// Blocks of the directory, one behind another.
fn check_blocks<W: Store>(
    alloc: Global,
    store: &mut W,
    file: &mut Window,
    blocks: &[Block],
) -> Result<(), CheckErr>
    requires open { IsOpen (W.files store.old) file.old }
    requires limits { AllByRecursion (λ b. KeyFits b.first.prefix) blocks.now }
    ensures store { HoldsSameFiles W.files W.building store.old store.new }
    ensures faults { RisesIfFault OnCheckFault result (W.faults store.old) (W.faults store.new) }
    ensures open { OnOk result (IsOpen (W.files store.new) file.new) }
    ensures number { file.new.number ≡ file.old.number }
    ensures asks { W.asks store.new ≤ W.asks store.old + reads_left file.old }
    ensures spent { OnOk result (W.asks store.new + reads_left file.new ≤ W.asks store.old + reads_left file.old) }
    ensures next { Expects (W.files store.old) (W.files store.new) (map BlockItem blocks.now) result file.old file.new }
{
    let mut left = blocks;
    while let [block, rest @ ..] = left {
        check_block(alloc, store, file, block)?;
        left = rest;
    }
    Ok(())
}

// A partition's item in the directory.
fn check_entry<W: Store>(
    alloc: Global,
    store: &mut W,
    file: &mut Window,
    listed: &Listed,
) -> Result<(), CheckErr>
    requires open { IsOpen (W.files store.old) file.old }
    ensures store { HoldsSameFiles W.files W.building store.old store.new }
    ensures faults { RisesIfFault OnCheckFault result (W.faults store.old) (W.faults store.new) }
    ensures open { OnOk result (IsOpen (W.files store.new) file.new) }
    ensures number { file.new.number ≡ file.old.number }
    ensures asks { W.asks store.new ≤ W.asks store.old + reads_left file.old }
    ensures spent { OnOk result (W.asks store.new + reads_left file.new ≤ W.asks store.old + reads_left file.old) }
    ensures next { Expects (W.files store.old) (W.files store.new) (EntryItem listed.now.key listed.now.off (length listed.now.blocks) ∷ []) result file.old file.new }
{
    match entry_of(alloc, listed) {
        Ok(code) => expect(alloc, store, file, code.as_slice()),
        Err(_) => Err(CheckErr::NoMemory),
    }
}

// A partition in the directory, followed by its blocks.
fn check_listed<W: Store>(
    alloc: Global,
    store: &mut W,
    file: &mut Window,
    listed: &Listed,
) -> Result<(), CheckErr>
    requires open { IsOpen (W.files store.old) file.old }
    ensures store { HoldsSameFiles W.files W.building store.old store.new }
    ensures faults { RisesIfFault OnCheckFault result (W.faults store.old) (W.faults store.new) }
    ensures open { OnOk result (IsOpen (W.files store.new) file.new) }
    ensures number { file.new.number ≡ file.old.number }
    ensures asks { W.asks store.new ≤ W.asks store.old + reads_left file.old }
    ensures spent { OnOk result (W.asks store.new + reads_left file.new ≤ W.asks store.old + reads_left file.old) }
    ensures next { Expects (W.files store.old) (W.files store.new) (entry_items listed.now) result file.old file.new }
{
    check_entry(alloc, store, file, listed)?;
    check_blocks(alloc, store, file, listed.blocks())
}

// The directory of these partitions.
fn check_directory<W: Store>(
    alloc: Global,
    store: &mut W,
    file: &mut Window,
    entries: &[Listed],
) -> Result<(), CheckErr>
    requires open { IsOpen (W.files store.old) file.old }
    ensures store { HoldsSameFiles W.files W.building store.old store.new }
    ensures faults { RisesIfFault OnCheckFault result (W.faults store.old) (W.faults store.new) }
    ensures open { OnOk result (IsOpen (W.files store.new) file.new) }
    ensures number { file.new.number ≡ file.old.number }
    ensures asks { W.asks store.new ≤ W.asks store.old + reads_left file.old }
    ensures spent { OnOk result (W.asks store.new + reads_left file.new ≤ W.asks store.old + reads_left file.old) }
    ensures next { Expects (W.files store.old) (W.files store.new) (flat_map entry_items entries.now) result file.old file.new }
{
    let mut left = entries;
    while let [listed, rest @ ..] = left {
        check_listed(alloc, store, file, listed)?;
        left = rest;
    }
    Ok(())
}

// The tail of a table: the offset of its directory, and how many partitions there are.
fn check_tail<W: Store>(
    alloc: Global,
    store: &mut W,
    file: &mut Window,
    off: u64,
    parts: usize,
) -> Result<(), CheckErr>
    requires open { IsOpen (W.files store.old) file.old }
    ensures store { HoldsSameFiles W.files W.building store.old store.new }
    ensures faults { RisesIfFault OnCheckFault result (W.faults store.old) (W.faults store.new) }
    ensures open { OnOk result (IsOpen (W.files store.new) file.new) }
    ensures number { file.new.number ≡ file.old.number }
    ensures asks { W.asks store.new ≤ W.asks store.old + reads_left file.old }
    ensures spent { OnOk result (W.asks store.new + reads_left file.new ≤ W.asks store.old + reads_left file.old) }
    ensures next { Expects (W.files store.old) (W.files store.new) (TailItem off parts ∷ []) result file.old file.new }
{
    match tail_of(alloc, off, parts) {
        Ok(code) => expect(alloc, store, file, code.as_slice()),
        Err(_) => Err(CheckErr::NoMemory),
    }
}

// Nothing may follow.
fn check_end<W: Store>(alloc: Global, store: &mut W, file: &mut Window) -> Result<(), CheckErr>
    requires open { IsOpen (W.files store.old) file.old }
    ensures store { HoldsSameFiles W.files W.building store.old store.new }
    ensures faults { RisesIfFault OnCheckFault result (W.faults store.old) (W.faults store.new) }
    ensures number { file.new.number ≡ file.old.number }
    ensures asks { W.asks store.new ≤ W.asks store.old + reads_left file.old }
    ensures end { EndsFront (W.files store.old) (W.files store.new) result file.old file.new }
{
    file.refill(alloc, store)?;
    if file.ahead().is_empty() {
        return Ok(());
    }
    Err(CheckErr::Damaged {
        offset: file.offset(),
    })
}

// What must stand behind the partitions and the stop, and nothing else: the directory and the tail.
fn check_ending<W: Store>(
    alloc: Global,
    store: &mut W,
    file: &mut Window,
    outline: &Outline,
) -> Result<(), CheckErr>
    requires open { IsOpen (W.files store.old) file.old }
    ensures store { HoldsSameFiles W.files W.building store.old store.new }
    ensures faults { RisesIfFault OnCheckFault result (W.faults store.old) (W.faults store.new) }
    ensures number { file.new.number ≡ file.old.number }
    ensures asks { W.asks store.new ≤ W.asks store.old + reads_left file.old }
    ensures whole { (schema : SchemaValue) (start : ItemsBefore) → IsListed start outline.now → Awaits (W.files store.old) schema start (ending start) file.old →
        MatchResult result (λ _. IsWholeTable (W.files store.new) file.new.number schema start) (IsCheckRefused (W.files store.new) file.new.number schema) }
{
    check_directory(alloc, store, file, outline.listed.as_slice())?;
    check_tail(alloc, store, file, outline.off, outline.listed.len())?;
    check_end(alloc, store, file)
}

// All items of a file that is opened, and what they determine.
fn check_items<W: Store>(
    alloc: Global,
    store: &mut W,
    file: &mut Window,
    schema: &Schema,
) -> Result<Outline, CheckErr>
    requires open { IsOpen (W.files store.old) file.old }
    requires start { IsAheadIn (W.files store.old) [] file.old }
    ensures store { HoldsSameFiles W.files W.building store.old store.new }
    ensures faults { RisesIfFault OnCheckFault result (W.faults store.old) (W.faults store.new) }
    ensures number { file.new.number ≡ file.old.number }
    ensures asks { W.asks store.new ≤ W.asks store.old + reads_left file.old }
    ensures whole { IfOk result (λ outline. IsWalked (W.files store.new) file.new.number schema.now outline) }
    ensures refused { IfErr result (IsCheckRefused (W.files store.new) file.new.number schema.now) }
{
    let mut outline = check_head(alloc, store, file, schema)?;
    check_parts(alloc, store, file, schema, &mut outline)?;
    check_ending(alloc, store, file, &outline)?;
    Ok(outline)
}

/// Whether file `n`, which is there, is a table of the schema, and where its directory lists each partition. Ok exactly
/// where it is the text of partitions; `CheckErr::Damaged` with the offset at which the first item begins that does not
/// fit or is not whole; `CheckErr::OtherSchema` exactly where the file begins with a well-formed head of another schema;
/// `CheckErr::Fault` when the store fails, and only then. `CheckErr::NoMemory` when memory is refused, and where a number
/// passes its width in the format.
pub fn check_table<W: Store>(
    alloc: Global,
    store: &mut W,
    n: u32,
    schema: &Schema,
) -> Result<TableInfo, CheckErr>
    requires { IsFile (W.files store.old) n }
    ensures table { (bytes : List ℕ) → IsContent (W.files store.old) n bytes → ChecksTable bytes n schema.now result }
    ensures store { HoldsSameFiles W.files W.building store.old store.new }
    ensures faults { RisesIfFault OnCheckFault result (W.faults store.old) (W.faults store.new) }
    ensures asks { (bytes : List ℕ) → IsContent (W.files store.old) n bytes → AsksFew (W.asks store.old) (W.asks store.new) bytes }
{
    let mut file = Window::open(alloc, store, n)?;
    let outline = check_items(alloc, store, &mut file, schema)?;
    match refs_of(alloc, outline.off, outline.listed.as_slice()) {
        Ok(parts) => Ok(TableInfo { number: n, parts }),
        Err(_) => Err(CheckErr::NoMemory),
    }
}
