//! What a line commands.

ghost use Rattle.std.specs.Prelude.{◌≡◌, IfOk, Some};
ghost use Rattle.std.specs.Option.{option_copied};
ghost use Rattle.rc_lines.specs.Grammar.{is_comment, schema_said, parse, ReadsLine};
ghost use Rattle.rc_lines.specs.calls.ByShape.{shape_meaning, line_meaning, parse_by_shape};
ghost use Rattle.rc_lines.specs.calls.Shapes.{shape_of};
ghost use Rattle.rc_spelling.specs.Words.{words};

use crate::commands::{Command, LineErr, Refusal};
use crate::grammar::shape;
use crate::meaning::meaning;
use crate::parts::behind;
use crate::shapes::Shape;
use rc_schema::{Schema, SchemaTextErr};
use rc_spelling::words;
use std::alloc::{AllocError, Global};

/// The longest line, in bytes, without its newline.
pub const LONGEST_LINE: usize = 65_536;

/// Whether the line is empty or a comment.
fn is_comment(line: &[u8]) -> bool
    ensures { result ≡ is_comment line.now }
{
    match line {
        [] => true,
        [first, _rest @ ..] => *first == b'#',
    }
}

/// The schema of a schema line.
#[tactic(auto, unfolding(crate::specs::Grammar::schema_said))]
fn schema_said(alloc: Global, line: &[u8]) -> Result<Option<Schema>, AllocError>
    ensures { IfOk result (λ found. found ≡ schema_said line.now) }
{
    let Some(text) = behind(b"schema ", line) else {
        return Ok(None);
    };
    match Schema::read(alloc, text) {
        Ok(schema) => Ok(Some(schema)),
        Err(SchemaTextErr::Malformed) => Ok(None),
        Err(SchemaTextErr::NoMemory) => Err(AllocError),
    }
}

/// What a line of a shape commands.
fn shape_meaning(
    alloc: Global,
    taken: Option<&Schema>,
    shape: &Shape,
) -> Result<Result<Command, Refusal>, AllocError>
    ensures { IfOk result (λ m. m ≡ shape_meaning (option_copied taken.entry) (Some shape.now)) }
{
    match taken {
        Some(schema) => meaning(alloc, schema, shape),
        None => Ok(Err(Refusal::NoSchema)),
    }
}

/// What the words of a line say before a schema is known.
fn shape_of(alloc: Global, line: &[u8]) -> Result<Option<Shape>, AllocError>
    ensures { IfOk result (λ found. found ≡ shape_of (words line.now)) }
{
    let found = words(alloc, line)?;
    shape(alloc, found.as_slice())
}

/// What a line commands that is neither too long nor a comment.
fn said(
    alloc: Global,
    taken: Option<&Schema>,
    line: &[u8],
) -> Result<Result<Command, Refusal>, AllocError>
    ensures { IfOk result (λ m. m ≡ line_meaning (option_copied taken.entry) line.now (schema_said line.now)) }
{
    if let Some(schema) = schema_said(alloc, line)? {
        return Ok(Ok(Command::SetSchema(schema)));
    }
    match shape_of(alloc, line)? {
        Some(shape) => shape_meaning(alloc, taken, &shape),
        None => Ok(Err(Refusal::BadLine)),
    }
}

/// What a line commands, by the shape of its words.
#[tactic(auto, unfolding(crate::specs::calls::ByShape::parse_by_shape))]
fn read_by_shape(alloc: Global, schema: Option<&Schema>, line: &[u8]) -> Result<Command, LineErr>
    ensures { ReadsLine result (parse_by_shape (option_copied schema.entry) line.now) }
{
    if line.len() > LONGEST_LINE {
        return Err(LineErr::Refused(Refusal::BadLine));
    }
    if is_comment(line) {
        return Ok(Command::Nothing);
    }
    match said(alloc, schema, line) {
        Ok(Ok(command)) => Ok(command),
        Ok(Err(refusal)) => Err(LineErr::Refused(refusal)),
        Err(_) => Err(LineErr::NoMemory),
    }
}

/// What a line without its newline commands, under the schema that a schema line before it gave, or under none. The line is
/// refused as a bad line exactly where it is not in the grammar or has more than 65,536 bytes; else, where no schema was
/// taken, as wanting one; else, tried over the whole line in this order, for a wrong key, an unknown column, or a length past
/// its limit. A schema line, an empty line and a comment need no schema. The only other error is want of memory.
pub fn read_line(alloc: Global, schema: Option<&Schema>, line: &[u8]) -> Result<Command, LineErr>
    ensures { ReadsLine result (parse (option_copied schema.entry) line.now) }
{
    read_by_shape(alloc, schema, line)
}
