//! The kinds of objects: how many links each has, where they lie, and how long an object is at least.
ghost use Rattle.std.specs.Prelude.{◌≡◌, ◌+◌, ◌*◌, ◌^◌, ◌<◌, ◌≤◌, length, MatchOption};
ghost use Rattle.lsa_kinds.specs.Fields.{number_at, IsPut};
ghost use Rattle.lsa_kinds.specs.Kinds.{up8, kind_code, links_of, fixed_size_of, link_offset};

use crate::field::Field;

/// A number of bytes, rounded up to a multiple of 8.
pub fn round_up(bytes: usize) -> usize
    requires { bytes < 2 ^ 32 }
    ensures { result ≡ up8 bytes }
{
    (bytes + 7) / 8 * 8
}

/// What an object is.
#[derive(Clone, Copy, Debug, PartialEq, Eq)]
pub enum Kind {
    /// One version of a partition. Links: 0 to the older version, 1 to the newer one, 2 to the tree of entries, 3 to the
    /// static row.
    Version = 1,
    /// An entry with a row. Links: 0 to the less recently used object, 1 to the more recently used one, 2 to the parent, 3
    /// to the left, 4 to the right.
    RowEntry = 2,
    /// An entry that marks a position and has no row. Links as `RowEntry`.
    Dummy = 3,
    /// A static row. Links: 0 to the less recently used object, 1 to the more recently used one, 2 to the version.
    Static = 4,
}

impl Kind {
    /// The kind's number in an object's first byte, 1 to 4.
    pub fn code(self) -> u8
        ensures { result ≡ kind_code self }
    {
        self as u8
    }

    /// The kind of this number; None exactly where no kind has it.
    pub fn from_code(code: u8) -> Option<Kind>
        ensures { MatchOption result ((kind : Kind) → ¬ (kind_code kind ≡ code)) (λ kind. kind_code kind ≡ code) }
    {
        match code {
            1 => Some(Kind::Version),
            2 => Some(Kind::RowEntry),
            3 => Some(Kind::Dummy),
            4 => Some(Kind::Static),
            _ => None,
        }
    }
}

// The one table of kinds. It hands the fixed size of the kind, and where each of its links lies, to a macro that makes the
// arm's value of them. A kind that is added here has its arms everywhere.
macro_rules! by_kind {
    ($kind:expr, $arm:ident $(, $argument:expr)*) => {
        match $kind {
            Kind::Version => $arm!(64, [0 => 8, 1 => 16, 2 => 24, 3 => 32] $(, $argument)*),
            Kind::RowEntry => $arm!(80, [0 => 8, 1 => 16, 2 => 24, 3 => 32, 4 => 40] $(, $argument)*),
            Kind::Dummy => $arm!(80, [0 => 8, 1 => 16, 2 => 24, 3 => 32, 4 => 40] $(, $argument)*),
            Kind::Static => $arm!(32, [0 => 8, 1 => 16, 2 => 24] $(, $argument)*),
        }
    };
}

macro_rules! size_of_kind {
    ($size:literal, [$($field:literal => $offset:literal),*]) => {
        $size
    };
}

macro_rules! count_links {
    ($size:literal, []) => {
        0
    };
    ($size:literal, [$first:literal => $offset:literal $(, $field:literal => $other:literal)*]) => {
        1 + count_links!($size, [$($field => $other),*])
    };
}

macro_rules! read_link {
    ($size:literal, [$($field:literal => $offset:literal),*], $wanted:expr, $bytes:expr) => {
        match $wanted {
            $($field => Field::<$offset, 8>::get($bytes),)*
            _ => unreachable!(),
        }
    };
}

macro_rules! write_link {
    ($size:literal, [$($field:literal => $offset:literal),*], $wanted:expr, $bytes:expr, $value:expr) => {
        match $wanted {
            $($field => Field::<$offset, 8>::put($bytes, $value),)*
            _ => unreachable!(),
        }
    };
}

/// How many links an object of this kind has. They are numbered from 0.
pub fn links(kind: Kind) -> usize
    ensures { result ≡ links_of kind }
{
    by_kind!(kind, count_links)
}

/// How many bytes an object of this kind has at least: its header, links and fixed fields.
pub fn fixed_size(kind: Kind) -> usize
    ensures { result ≡ fixed_size_of kind }
{
    by_kind!(kind, size_of_kind)
}

/// The number in a link of an object of this kind, of which these bytes have the header and the links at least.
pub fn link_get(kind: Kind, field: usize, bytes: &[u8]) -> u64
    requires known { field < links_of kind }
    requires inside { 8 + 8 * links_of kind ≤ length bytes.now }
    ensures { result ≡ number_at (link_offset field) 8 bytes.now }
{
    by_kind!(kind, read_link, field, bytes)
}

/// Writes a number into a link of an object of this kind, of which these bytes have the header and the links at least. Every other byte stays, and so every other link.
pub fn link_put(kind: Kind, field: usize, bytes: &mut [u8], value: u64)
    requires known { field < links_of kind }
    requires inside { 8 + 8 * links_of kind ≤ length bytes.old }
    ensures { IsPut bytes.old bytes.new (link_offset field) 8 value }
{
    by_kind!(kind, write_link, field, bytes, value)
}
