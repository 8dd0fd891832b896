//! Codes that are put into scratch space, and the laws. The other calls are cases that a program reads.

ghost use Rattle.std.specs.Prelude.{IfOk, IfSome};
ghost use Rattle.rc_rowcode.specs.Spelling.{row_code, IsCode, IsCodedRow};

use rc_rowcode::{Scratch, join_codes, join_size, laws, read_row, row_size};
use std::alloc::{AllocError, Global};
use std::test::Fail;

const INSERTED: [u8; 11] = [1, 10, 0, 0, 0, 0, 0, 0, 0, 0, 0];

// No marker and no tombstone, a dead cell (4, 5) in column 31.
const DEAD: [u8; 17] = [0, 0, 1, 31, 1, 4, 0, 0, 0, 0, 0, 0, 0, 5, 0, 0, 0];

// The code of a row, put into scratch space; none where the bytes are no row's code.
fn put(alloc: Global, code: &[u8]) -> Result<Option<Scratch>, AllocError>
    ensures { IfOk result (λ found. IfSome found (λ scratch. IsCode row_code IsCodedRow scratch.bytes)) }
{
    let Some((row, _)) = read_row(alloc, code)? else {
        return Ok(None);
    };
    if row_size(&row) > 9000 {
        return Ok(None);
    }
    let mut scratch = Scratch::new(alloc, 9000)?;
    scratch.put_row(&row);
    Ok(Some(scratch))
}

// How long two codes of rows joined are to be, and are.
fn joined(alloc: Global, a: &[u8], b: &[u8]) -> Result<(usize, usize), AllocError>
    requires ours { IsCode row_code IsCodedRow a.now }
    requires theirs { IsCode row_code IsCodedRow b.now }
{
    let mut out = Scratch::new(alloc, 9000)?;
    let size = join_size(a, b);
    join_codes(a, b, &mut out);
    Ok((size, out.bytes().len()))
}

// The same of a code that was put and that of another row, which is put, too.
fn joined_with(alloc: Global, a: &[u8], code: &[u8]) -> Result<(usize, usize), AllocError>
    requires { IsCode row_code IsCodedRow a.now }
{
    match put(alloc, code)? {
        Some(b) => joined(alloc, a, b.bytes()),
        None => Ok((0, 0)),
    }
}

// Codes that were put can be joined.
#[test]
fn codes_that_were_put_join(rt: HostRuntime) -> Result<(), Fail> {
    let a = put(rt.alloc(), &INSERTED)?.ok_or("a row's code")?;
    assert!(rt; joined_with(rt.alloc(), a.bytes(), &DEAD)? == (25, 25));
    Ok(())
}

#[test]
fn the_laws() {
    laws::one_code_of_a_tomb();
    laws::one_code_of_a_key();
    laws::one_code_of_a_position();
    laws::one_code_of_a_row();
    laws::joined_row_has_a_code();
    laws::codes_are_short();
    laws::joined_code_is_no_longer();
}
