//! The text of a reply.

ghost use Rattle.std.specs.Prelude.{◌≡◌, ◌++◌, ◌∷◌, decimal, flat_map, OnOk, OnErr};
ghost use Rattle.rc_spelling.specs.Printed.{printed_bytes};
ghost use Rattle.rc_lines.specs.Lines.{column_name};
ghost use Rattle.rc_lines.specs.Texts.{values_text, line_text, refusal_text, figures_text, reply_text};
ghost use Rattle.rc_lines.specs.calls.TextParts.{given_text, fixed_text, named_figure};
ghost use Rattle.rc_lines.specs.declared.commands.Refusal.TheVariants.{Damaged};

use crate::commands::{Figures, Refusal, Reply};
use itoa::Buffer;
use rc_cell::Value;
use rc_position::Text;
use rc_query::OutLine;
use rc_schema::Schema;
use rc_spelling::{print_bytes, print_key};
use std::alloc::{AllocError, Global};

/// The name of a column by its number, nothing where the number is no column's.
fn column_name(names: &[Text], column: u8) -> &[u8]
    ensures { result.now ≡ column_name names.now column }
{
    match names.get(usize::from(column)) {
        Some(name) => name.as_slice(),
        None => b"",
    }
}

/// Appends ` NAME=VALUE`.
fn print_value(name: &[u8], value: &Value, text: &mut Vec<u8>) -> Result<(), AllocError>
    ensures { OnOk result (text.new.items ≡ text.old.items ++ 32 ∷ (name.now ++ 61 ∷ printed_bytes value.now)) }
{
    text.push(b' ')?;
    text.extend_from_slice(name)?;
    text.push(b'=')?;
    print_bytes(value.as_slice(), text)
}

/// Appends ` NAME=VALUE` for each value.
fn print_values(names: &[Text], shown: &[(u8, Value)], text: &mut Vec<u8>) -> Result<(), AllocError>
    ensures { OnOk result (text.new.items ≡ text.old.items ++ values_text names.now shown.now) }
{
    for (column, value) in shown {
        print_value(column_name(names, *column), value, text)?;
    }
    Ok(())
}

/// Appends a line that a reader is given.
fn print_line(schema: &Schema, line: &OutLine, text: &mut Vec<u8>) -> Result<(), AllocError>
    ensures { OnOk result (text.new.items ≡ text.old.items ++ line_text schema.now line.now) }
{
    match line {
        OutLine::Static(shown) => {
            text.extend_from_slice(b"static")?;
            print_values(schema.statics(), shown.as_slice(), text)?;
            text.extend_from_slice(b"\n")
        }
        OutLine::Row(key, shown) => {
            text.extend_from_slice(b"row ")?;
            print_key(key.as_slice(), text)?;
            print_values(schema.cols(), shown.as_slice(), text)?;
            text.extend_from_slice(b"\n")
        }
    }
}

/// Appends the lines that a reader is given.
fn print_lines(schema: &Schema, lines: &[OutLine], text: &mut Vec<u8>) -> Result<(), AllocError>
    ensures { OnOk result (text.new.items ≡ text.old.items ++ flat_map (line_text schema.now) lines.now) }
{
    for line in lines {
        print_line(schema, line, text)?;
    }
    Ok(())
}

/// Appends the lines that a reader is given, and whether there are more.
fn print_given(
    schema: &Schema,
    lines: &[OutLine],
    more: bool,
    text: &mut Vec<u8>,
) -> Result<(), AllocError>
    ensures { OnOk result (text.new.items ≡ text.old.items ++ given_text schema.now lines.now more) }
{
    print_lines(schema, lines, text)?;
    if more {
        return text.extend_from_slice(b"more\n");
    }
    text.extend_from_slice(b"end\n")
}

/// Appends a decimal number.
fn print_number(number: u64, text: &mut Vec<u8>) -> Result<(), AllocError>
    ensures { OnOk result (text.new.items ≡ text.old.items ++ decimal number) }
{
    let mut buffer = Buffer::new();
    text.extend_from_slice(buffer.format(number).as_bytes())
}

/// Appends the text of a damaged table.
fn print_damage(file: u32, offset: u64, text: &mut Vec<u8>) -> Result<(), AllocError>
    ensures { OnOk result (text.new.items ≡ text.old.items ++ refusal_text (Damaged file offset)) }
{
    text.extend_from_slice(b"? damaged ")?;
    print_number(u64::from(file), text)?;
    text.extend_from_slice(b" at ")?;
    print_number(offset, text)?;
    text.extend_from_slice(b"\n")
}

/// The text of a refusal that has no number in it.
fn fixed_text(refusal: Refusal) -> &'static [u8]
    ensures { result.now ≡ fixed_text refusal }
{
    match refusal {
        Refusal::BadLine => b"? bad line\n",
        Refusal::NoSchema => b"? no schema\n",
        Refusal::SchemaDiffers => b"? schema differs\n",
        Refusal::WrongKey => b"? wrong key\n",
        Refusal::UnknownColumn => b"? unknown column\n",
        Refusal::TooLong => b"? too long\n",
        Refusal::NoReader => b"? no reader\n",
        Refusal::ReaderInUse => b"? reader in use\n",
        Refusal::TooManyReaders => b"? too many readers\n",
        Refusal::FlushInProgress => b"? flush in progress\n",
        Refusal::NothingToFlush => b"? nothing to flush\n",
        Refusal::NoFlush => b"? no flush\n",
        Refusal::Full => b"? full\n",
        Refusal::ReadFault => b"? read fault\n",
        Refusal::WriteFault => b"? write fault\n",
        Refusal::Damaged { file: _, offset: _ } => b"",
        Refusal::NoNumber => b"? no number\n",
    }
}

/// Appends the text of a refusal, or a part of it.
fn print_refused(refusal: Refusal, text: &mut Vec<u8>) -> Result<(), AllocError>
    ensures { OnOk result (text.new.items ≡ text.old.items ++ refusal_text refusal) }
{
    match refusal {
        Refusal::Damaged { file, offset } => print_damage(file, offset, text),
        other => text.extend_from_slice(fixed_text(other)),
    }
}

/// Appends a name and a figure.
#[tactic(auto, unfolding(crate::specs::calls::TextParts::named_figure))]
fn print_figure(name: &[u8], value: u64, text: &mut Vec<u8>) -> Result<(), AllocError>
    ensures { OnOk result (text.new.items ≡ text.old.items ++ named_figure (name.now, value)) }
{
    text.extend_from_slice(name)?;
    print_number(value, text)
}

/// Appends each name and its figure.
fn print_named(figures: &[(&[u8], u64)], text: &mut Vec<u8>) -> Result<(), AllocError>
    ensures { OnOk result (text.new.items ≡ text.old.items ++ flat_map (λ e. named_figure (e.0.now, e.1)) figures.now) }
{
    for (name, value) in figures {
        print_figure(name, *value, text)?;
    }
    Ok(())
}

/// Appends the line of the figures.
fn print_figures(figures: &Figures, text: &mut Vec<u8>) -> Result<(), AllocError>
    ensures { OnOk result (text.new.items ≡ text.old.items ++ figures_text figures.now) }
{
    text.extend_from_slice(b"stats")?;
    print_named(
        &[
            (b" segments=", figures.segments),
            (b" free=", figures.free),
            (b" objects=", figures.objects),
            (b" live=", figures.live),
            (b" partitions=", figures.partitions),
            (b" rows=", figures.rows),
            (b" dummies=", figures.dummies),
            (b" hits=", figures.hits),
            (b" misses=", figures.misses),
            (b" evicted=", figures.evicted),
            (b" moved=", figures.moved),
            (b" skipped=", figures.skipped),
            (b" asks=", figures.asks),
        ],
        text,
    )?;
    text.extend_from_slice(b"\n")
}

/// Appends the text of a reply, or a part of it.
#[tactic(auto, unfolding(crate::specs::Texts::reply_text))]
fn print_all(schema: &Schema, reply: &Reply, text: &mut Vec<u8>) -> Result<(), AllocError>
    ensures { OnOk result (text.new.items ≡ text.old.items ++ reply_text schema.now reply.now) }
{
    match reply {
        Reply::Nothing => Ok(()),
        Reply::Fine => text.extend_from_slice(b"ok\n"),
        Reply::Given { lines, more } => print_given(schema, lines.as_slice(), *more, text),
        Reply::Going => text.extend_from_slice(b"going\n"),
        Reply::Done => text.extend_from_slice(b"done\n"),
        Reply::Stats(figures) => print_figures(figures, text),
        Reply::Refused(refusal) => print_refused(*refusal, text),
    }
}

/// Appends the text of a reply under the schema whose columns its lines name: its lines, each with its newline. The only
/// error is want of memory, and then nothing was appended.
pub fn print_reply(
    alloc: Global,
    schema: &Schema,
    reply: &Reply,
    out: &mut Vec<u8>,
) -> Result<(), AllocError>
    ensures ok { OnOk result (out.new.items ≡ out.old.items ++ reply_text schema.now reply.now) }
    ensures err { OnErr result (out.new.items ≡ out.old.items) }
{
    let mut text = Vec::new(alloc);
    print_all(schema, reply, &mut text)?;
    out.extend_from_slice(text.as_slice())
}

/// Appends the text of a refusal, with its newline, for replies before a schema was taken. The only error is want of memory,
/// and then nothing was appended.
pub fn print_refusal(alloc: Global, refusal: Refusal, out: &mut Vec<u8>) -> Result<(), AllocError>
    ensures ok { OnOk result (out.new.items ≡ out.old.items ++ refusal_text refusal) }
    ensures err { OnErr result (out.new.items ≡ out.old.items) }
{
    let mut text = Vec::new(alloc);
    print_refused(refusal, &mut text)?;
    out.extend_from_slice(text.as_slice())
}
