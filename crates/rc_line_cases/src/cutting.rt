//! A case in two parts.

/// What stands before the first such byte and behind it; all of it and nothing where there is none.
pub(crate) fn cut_at(text: &[u8], mark: u8) -> (&[u8], &[u8]) {
    let Some(place) = text.iter().position(|byte| *byte == mark) else {
        return (text, &[]);
    };
    if text.len() <= place {
        return (text, &[]);
    }
    let (before, rest) = text.split_at(place);
    match rest {
        [_mark, behind @ ..] => (before, behind),
        [] => (before, rest),
    }
}

/// The first word, and the text behind the space that ends it.
pub(crate) fn first_word(text: &[u8]) -> (&[u8], &[u8]) {
    cut_at(text, b' ')
}

/// Whether a word is this one.
pub(crate) fn says(word: &[u8], text: &str) -> bool {
    word == text.as_bytes()
}
