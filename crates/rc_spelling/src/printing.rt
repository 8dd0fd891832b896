//! How bytes and the components of a key are printed.

ghost use Rattle.std.specs.Prelude.{◌≡◌, ◌<◌, ◌∷◌, ◌++◌, flat_map, OnOk};
ghost use Rattle.rc_spelling.specs.Printed.{stands_for_itself, hexadecimal, printed_bytes, component_text, key_text, spelled_byte};
ghost use Rattle.rc_spelling.specs.calls.Joining.{other_component};
ghost use Rattle.rc_position.specs.declared.comps.Comp.TheVariants.{Text};

use itoa::Buffer;
use rc_position::Comp;
use std::alloc::AllocError;

/// Whether a byte is printed as itself.
fn stands_for_itself(byte: u8) -> bool
    ensures { result ≡ stands_for_itself byte }
{
    byte.is_ascii_alphanumeric() || byte == b'_' || byte == b'.' || byte == b'-'
}

/// The hexadecimal digit of a number below 16.
fn hexadecimal(n: u8) -> u8
    requires { n < 16 }
    ensures { result ≡ hexadecimal n }
{
    if n < 10 { b'0' + n } else { b'A' - 10 + n }
}

/// Appends a byte as it is printed.
fn print_byte(byte: u8, text: &mut Vec<u8>) -> Result<(), AllocError>
    ensures { OnOk result (text.new.items ≡ text.old.items ++ spelled_byte byte) }
{
    if stands_for_itself(byte) {
        text.push(byte)?;
        return Ok(());
    }
    text.extend_from_slice(&[b'%', hexadecimal(byte / 16), hexadecimal(byte % 16)])
}

/// Appends bytes as they are printed. The only error is want of memory, and then a part of them may be appended.
pub fn print_bytes(bytes: &[u8], text: &mut Vec<u8>) -> Result<(), AllocError>
    ensures { OnOk result (text.new.items ≡ text.old.items ++ printed_bytes bytes.now) }
{
    for byte in bytes {
        print_byte(*byte, text)?;
    }
    Ok(())
}

/// Appends a text component.
fn print_text(bytes: &[u8], text: &mut Vec<u8>) -> Result<(), AllocError>
    ensures { OnOk result (text.new.items ≡ text.old.items ++ component_text (Text bytes.now)) }
{
    match bytes {
        [] => text.extend_from_slice(b"''"),
        [_first, _rest @ ..] => print_bytes(bytes, text),
    }
}

/// Appends a component.
fn print_component(component: &Comp, text: &mut Vec<u8>) -> Result<(), AllocError>
    ensures { OnOk result (text.new.items ≡ text.old.items ++ component_text component.now) }
{
    match component {
        Comp::Int(number) => {
            let mut buffer = Buffer::new();
            text.extend_from_slice(buffer.format(*number).as_bytes())
        }
        Comp::Text(bytes) => print_text(bytes.as_slice(), text),
    }
}

/// Appends a comma and a component, for each component.
fn print_others(components: &[Comp], text: &mut Vec<u8>) -> Result<(), AllocError>
    ensures { OnOk result (text.new.items ≡ text.old.items ++ flat_map other_component components.now) }
{
    for component in components {
        text.push(b',')?;
        print_component(component, text)?;
    }
    Ok(())
}

/// Appends a component and more, with commas between them.
#[tactic(auto, using(crate::proofs::Joined::others_behind))]
fn print_joined(first: &Comp, rest: &[Comp], text: &mut Vec<u8>) -> Result<(), AllocError>
    ensures { OnOk result (text.new.items ≡ text.old.items ++ key_text (first.now ∷ rest.now)) }
{
    print_component(first, text)?;
    print_others(rest, text)?;
    Ok(())
}

/// Appends the components of a key, with commas between them. The only error is want of memory, and then a part of
/// them may be appended.
pub fn print_key(components: &[Comp], text: &mut Vec<u8>) -> Result<(), AllocError>
    ensures { OnOk result (text.new.items ≡ text.old.items ++ key_text components.now) }
{
    match components {
        [] => Ok(()),
        [first, rest @ ..] => print_joined(first, rest, text),
    }
}
