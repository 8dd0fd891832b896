//! Where an object lies.

/// The segment in which an object lies, and the offset at which it begins there. It names the object until that is moved or freed.
#[derive(Clone, Copy, Debug, PartialEq, Eq)]
pub struct Ref {
    /// The segment's number.
    pub segment: u32,
    /// Where the object begins in it.
    pub offset: u32,
}
