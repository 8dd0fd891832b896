//! A stream told call by call.

ghost use Rattle.rc_position.specs.declared.positions.Pos.{Pos};

use crate::telling::{tell_frag, tell_head, tell_refusal};
use rc_outside::Store;
use rc_position::Pos;
use rc_stream::Frags;
use std::alloc::{AllocError, Global};

// The most fragments that are taken.
const MOST: u32 = 1_000;

/// Tells the head of a stream, or why it was refused; whether it was answered.
pub(crate) fn read_head<W: Store, S: Frags<(), W>>(
    alloc: Global,
    stream: &mut S,
    store: &mut W,
    text: &mut String,
) -> Result<bool, AllocError>
    requires { S.ready stream.old tt store.old }
    ensures ready { S.ready stream.new tt store.new }
    ensures ahead { (x : Pos) → S.ahead stream.old x → S.ahead stream.new x }
{
    let mut home = ();
    match stream.head(alloc, &mut home, store) {
        Ok(head) => {
            tell_head(&head, text)?;
            Ok(true)
        }
        Err(error) => {
            tell_refusal(&error, text)?;
            Ok(false)
        }
    }
}

// Tells the first up to a position that is left, that none is, or why it was refused; whether there was one.
fn read_first<W: Store, S: Frags<(), W>>(
    alloc: Global,
    stream: &mut S,
    store: &mut W,
    upto: &Pos,
    text: &mut String,
) -> Result<bool, AllocError>
    requires { S.ready stream.old tt store.old }
    ensures { S.ready stream.new tt store.new }
{
    let mut home = ();
    match stream.next(alloc, &mut home, store, upto) {
        Ok(Some(frag)) => {
            tell_frag(&frag, text)?;
            Ok(true)
        }
        Ok(None) => {
            text.push_str("end\n")?;
            Ok(false)
        }
        Err(error) => {
            tell_refusal(&error, text)?;
            Ok(false)
        }
    }
}

/// Tells what a stream gives from a position on up to another.
pub(crate) fn read_rest<W: Store, S: Frags<(), W>>(
    alloc: Global,
    stream: &mut S,
    store: &mut W,
    from: &Pos,
    upto: &Pos,
    text: &mut String,
) -> Result<(), AllocError>
    requires ready { S.ready stream.old tt store.old }
    requires ahead { S.ahead stream.old from.now }
{
    let mut home = ();
    if let Err(error) = stream.seek(alloc, &mut home, store, from) {
        return tell_refusal(&error, text);
    }
    for _ in 0..MOST {
        if !read_first(alloc, stream, store, upto, text)? {
            break;
        }
    }
    Ok(())
}
