//! Each call once, with answers worked out by hand from the grammar. The tables of cases are read by a program.

use rc_lines::{Command, LineErr, Refusal, Reply, print_refusal, print_reply, read_line};
use rc_query::Lines;
use rc_schema::Schema;
use std::alloc::{AllocError, Global};
use std::test::Fail;

// The schema of the lines.
fn schema_of(alloc: Global) -> Option<Schema> {
    match Schema::read(alloc, b"ck=int static=s cols=a,b") {
        Ok(schema) => Some(schema),
        Err(_) => None,
    }
}

// How many rows a command writes.
fn rows_in(command: &Command) -> usize {
    match command {
        Command::Put(write) => write.change.rows.as_slice().len(),
        _ => 0,
    }
}

// How many rows the copy of a command writes.
fn rows_in_copy(alloc: Global, command: &Command) -> Result<usize, AllocError> {
    let copy = command.copy(alloc)?;
    Ok(rows_in(&copy))
}

// How many rows the copy of the command of a line writes; none where it is refused.
fn rows_read(alloc: Global, schema: Option<&Schema>, line: &[u8]) -> Result<usize, AllocError> {
    match read_line(alloc, schema, line) {
        Ok(command) => rows_in_copy(alloc, &command),
        Err(LineErr::Refused(_)) => Ok(0),
        Err(LineErr::NoMemory) => Err(AllocError),
    }
}

#[test]
fn reads_a_command(rt: HostRuntime) -> Result<(), Fail> {
    let schema = schema_of(rt.alloc());
    let rows = rows_read(rt.alloc(), schema.as_ref(), b"insert p 1 ts=2 b=x a=5")?;
    assert!(rt; rows == 1);
    Ok(())
}

// Appends the reply of no lines, and then a refusal.
fn print_both(alloc: Global, schema: &Schema, text: &mut Vec<u8>) -> Result<(), AllocError> {
    let lines = Lines::empty(alloc);
    let none = Reply::Given { lines, more: true };
    print_reply(alloc, schema, &none, text)?;
    print_refusal(alloc, Refusal::NoReader, text)
}

// Appends both under a schema, and nothing under none.
fn print_under(
    alloc: Global,
    schema: Option<&Schema>,
    text: &mut Vec<u8>,
) -> Result<(), AllocError> {
    match schema {
        Some(schema) => print_both(alloc, schema, text),
        None => Ok(()),
    }
}

#[test]
fn prints_replies(rt: HostRuntime) -> Result<(), Fail> {
    let schema = schema_of(rt.alloc());
    let mut text = Vec::from_slice(rt.alloc(), b"> ")?;
    print_under(rt.alloc(), schema.as_ref(), &mut text)?;
    assert!(rt; text.as_slice() == b"> more\n? no reader\n".as_slice());
    Ok(())
}
