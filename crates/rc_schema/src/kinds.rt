//! The kinds of clustering components.

/// What the components of a clustering column are.
#[derive(Clone, Copy, Debug, PartialEq, Eq)]
pub enum CkKind {
    /// Signed numbers of 64 bits.
    Int,
    /// Texts of 0 to 64 bytes.
    Text,
}
