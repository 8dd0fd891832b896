//! The text of a schema.

ghost use Rattle.std.specs.Prelude.{◌≡◌, ◌∷◌, ◌++◌, OnOk, flat_map, length, map, codes};
ghost use Rattle.std.specs.List.{join_with_byte};
ghost use Rattle.rc_schema.specs.SchemaText.{kind_text, names_text};

use crate::kinds::CkKind;
use rc_position::Text;
use std::alloc::AllocError;

/// The word of a kind.
fn kind_text(kind: CkKind) -> &'static [u8]
    ensures { result.now ≡ kind_text kind }
{
    match kind {
        CkKind::Int => b"int",
        CkKind::Text => b"text",
    }
}

/// Appends a comma and a kind, for each kind.
fn print_more_kinds(kinds: &[CkKind], text: &mut Vec<u8>) -> Result<(), AllocError>
    ensures { OnOk result (text.new.items ≡ text.old.items ++ flat_map (λ kind. 44 ∷ kind_text kind) kinds.now) }
{
    for kind in kinds {
        text.push(b',')?;
        text.extend_from_slice(kind_text(*kind))?;
    }
    Ok(())
}

/// Appends a kind and more, with commas between them.
#[tactic(auto, using(crate::proofs::Joined::kinds_behind))]
fn print_joined_kinds(first: CkKind, rest: &[CkKind], text: &mut Vec<u8>) -> Result<(), AllocError>
    ensures { OnOk result (text.new.items ≡ text.old.items ++ join_with_byte 44 (map kind_text (first ∷ rest.now))) }
{
    text.extend_from_slice(kind_text(first))?;
    print_more_kinds(rest, text)?;
    Ok(())
}

/// Appends the kinds, with commas between them.
pub(crate) fn print_kinds(kinds: &[CkKind], text: &mut Vec<u8>) -> Result<(), AllocError>
    ensures { OnOk result (text.new.items ≡ text.old.items ++ join_with_byte 44 (map kind_text kinds.now)) }
{
    match kinds {
        [] => Ok(()),
        [first, rest @ ..] => print_joined_kinds(*first, rest, text),
    }
}

/// Appends a comma and a name, for each name.
fn print_more_names(names: &[Text], text: &mut Vec<u8>) -> Result<(), AllocError>
    ensures { OnOk result (text.new.items ≡ text.old.items ++ flat_map (λ name. 44 ∷ name) names.now) }
{
    for name in names {
        text.push(b',')?;
        text.extend_from_slice(name.as_slice())?;
    }
    Ok(())
}

/// Appends a name and more, with commas between them.
#[tactic(auto, using(crate::proofs::Joined::names_behind))]
fn print_joined_names(first: &[u8], rest: &[Text], text: &mut Vec<u8>) -> Result<(), AllocError>
    ensures { OnOk result (text.new.items ≡ text.old.items ++ names_text (first.now ∷ rest.now)) }
{
    text.extend_from_slice(first)?;
    print_more_names(rest, text)?;
    Ok(())
}

/// Appends the names, with commas between them, or `-` where there are none.
pub(crate) fn print_names(names: &[Text], text: &mut Vec<u8>) -> Result<(), AllocError>
    ensures { OnOk result (text.new.items ≡ text.old.items ++ names_text names.now) }
{
    match names {
        [] => text.extend_from_slice(b"-"),
        [first, rest @ ..] => print_joined_names(first.as_slice(), rest, text),
    }
}
