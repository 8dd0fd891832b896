//! Where the fields of each kind of object lie. Every object begins with the fields of `header`, and its links follow. The offsets of a
//! kind's own fields count from behind the links, as those of a region's `bytes` and `write` do.
ghost use Rattle.std.specs.Prelude.{◌≡◌, slice_get};
ghost use Rattle.lsa_kinds.specs.declared.kind.Kind.TheVariants.{Version};
ghost use Rattle.lsa_kinds.specs.Kinds.{fields_of, entry_fields};

use crate::kind::Kind;

/// The first 8 bytes of every object: these offsets count from its beginning.
pub mod header {
    use crate::field::Field;

    /// The number of the object's kind.
    pub type KindCode = Field<0, 1>;
    /// The object's size in bytes, with its header and links, before it is rounded up.
    pub type Size = Field<4, 4>;
}

/// A version of a partition.
pub mod version {
    use crate::field::Field;

    /// Bit 0 says that there is a partition tombstone; bits 1 and 2 are the static row's flag.
    pub type Flags = Field<0, 1>;
    /// The partition tombstone's deletion time, in seconds.
    pub type TombstoneDeletionTime = Field<4, 4>;
    /// The partition tombstone's timestamp, in two's complement.
    pub type TombstoneTimestamp = Field<8, 8>;
    /// The phase of the version.
    pub type Phase = Field<16, 8>;
}

/// An entry of a version: a row entry or a dummy.
pub mod entry {
    use crate::field::Field;

    /// Bits 0 and 1 are the flag at the entry's position, 2 and 3 that of the gap before it; bit 4 says that there is a
    /// tombstone at the position, bit 5 that there is one over the gap.
    pub type Flags = Field<0, 1>;
    /// The balance of the tree at this entry.
    pub type Balance = Field<1, 1>;
    /// The deletion time of the tombstone at the position.
    pub type TombstoneAtDeletionTime = Field<4, 4>;
    /// The timestamp of the tombstone at the position, in two's complement.
    pub type TombstoneAtTimestamp = Field<8, 8>;
    /// The timestamp of the tombstone over the gap, in two's complement.
    pub type TombstoneGapTimestamp = Field<16, 8>;
    /// The deletion time of the tombstone over the gap.
    pub type TombstoneGapDeletionTime = Field<24, 4>;
    /// How many bytes the position takes. The position begins at byte 32, and the row follows it.
    pub type PositionSize = Field<28, 4>;
}

/// Where a kind's own field of this number begins behind the links, and how many bytes it takes; None past its last one.
pub fn field_of(kind: Kind, number: usize) -> Option<(usize, usize)>
    ensures { result ≡ slice_get (fields_of kind) number }
{
    match kind {
        Kind::Version => version_field(number),
        Kind::RowEntry | Kind::Dummy => entry_field(number),
        Kind::Static => None,
    }
}

fn version_field(number: usize) -> Option<(usize, usize)>
    ensures { result ≡ slice_get (fields_of Version) number }
{
    match number {
        0 => Some(version::Flags::place()),
        1 => Some(version::TombstoneDeletionTime::place()),
        2 => Some(version::TombstoneTimestamp::place()),
        3 => Some(version::Phase::place()),
        _ => None,
    }
}

fn entry_field(number: usize) -> Option<(usize, usize)>
    ensures { result ≡ slice_get entry_fields number }
{
    match number {
        0 => Some(entry::Flags::place()),
        1 => Some(entry::Balance::place()),
        2 => Some(entry::TombstoneAtDeletionTime::place()),
        3 => Some(entry::TombstoneAtTimestamp::place()),
        4 => Some(entry::TombstoneGapTimestamp::place()),
        5 => Some(entry::TombstoneGapDeletionTime::place()),
        6 => Some(entry::PositionSize::place()),
        _ => None,
    }
}
