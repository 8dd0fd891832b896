//! What is printed of an answer.

use rc_schema::Schema;
use rc_tfile::{CheckErr, TableInfo};
use std::alloc::{AllocError, Global};
use std::fmt::Write;

/// Where a table's directory lists each of its partitions.
pub(crate) fn tell_info(info: &TableInfo, text: &mut String) -> Result<(), AllocError> {
    text.push_str("a table, listed at")?;
    for part in info.parts.as_slice() {
        let (off, len) = (part.dir_off, part.dir_len);
        write!(text, " {off}+{len}")?;
    }
    Ok(())
}

/// The text of a schema.
pub(crate) fn tell_schema(
    alloc: Global,
    schema: &Schema,
    text: &mut String,
) -> Result<(), AllocError> {
    let spelled = schema.text(alloc)?;
    for byte in spelled.as_slice() {
        text.push(char::from(*byte))?;
    }
    Ok(())
}

/// For how many ranges was asked, at the end of a line.
pub(crate) fn tell_asked(asked: u64, text: &mut String) -> Result<(), AllocError> {
    write!(text, ", asked {asked}\n")
}

/// Why bytes are no table of the schema.
pub(crate) fn tell_refusal(refusal: &CheckErr, text: &mut String) -> Result<(), AllocError> {
    match refusal {
        CheckErr::Damaged { offset } => write!(text, "damaged at {offset}\n"),
        CheckErr::OtherSchema => text.push_str("of another schema\n"),
        CheckErr::Fault => text.push_str("the store failed\n"),
        CheckErr::NoMemory => text.push_str("out of memory\n"),
    }
}

/// Bytes in hexadecimal.
pub(crate) fn tell_bytes(alloc: Global, bytes: &[u8], text: &mut String) -> Result<(), AllocError> {
    let spelled = hex::encode(alloc, bytes)?;
    text.push_str(spelled.as_str())?;
    text.push_str("\n")
}
