//! A step that was taken, and what it may do to what is seen.

/// What a step may do to what is seen.
#[derive(Clone, Copy)]
pub(crate) enum Effect {
    /// Nothing changes in any version.
    Nothing,
    /// What is known was known before, and is the same.
    Less,
    /// From one stop of the universe on and before another everything is known, in the newest version; else nothing changes.
    Between(usize, usize),
    /// The row of a number is known, in the newest version; else nothing changes.
    Row(i64),
    /// The static row of the newest version is known; else nothing changes.
    Statics,
    /// Other versions are needed than before, or the newest has gone on.
    Open,
}

/// A step that was taken.
#[derive(Clone, Copy)]
pub(crate) struct Step {
    /// Its kind.
    pub(crate) kind: &'static str,
    /// What it may do to what is seen.
    pub(crate) effect: Effect,
    /// Whether what is carried before it is carried behind it.
    pub(crate) carries: bool,
    /// Whether a version was dropped.
    pub(crate) dropped: bool,
}

impl Step {
    /// A step which drops no version.
    pub(crate) fn new(kind: &'static str, effect: Effect) -> Self {
        Step {
            kind,
            effect,
            carries: false,
            dropped: false,
        }
    }

    /// A step which drops no version, and keeps what is carried.
    pub(crate) fn carrying(kind: &'static str, effect: Effect) -> Self {
        Step {
            kind,
            effect,
            carries: true,
            dropped: false,
        }
    }
}
