//! A field: a number in some of the bytes of an object.
ghost use Rattle.std.specs.Prelude.{◌≡◌, ◌+◌, ◌^◌, ◌<◌, ◌≤◌, length, take, drop};
ghost use Rattle.lsa_kinds.specs.Fields.{number_at, spelled_number, IsPut};

/// The field of `WIDTH` bytes, 1 to 8, at `OFFSET` in some bytes. It holds a number below 256 ^ `WIDTH`, the least
/// significant byte first.
pub struct Field<const OFFSET: usize, const WIDTH: usize>;

impl<const OFFSET: usize, const WIDTH: usize> Field<OFFSET, WIDTH> {
    /// Where the field begins, and how many bytes it takes.
    pub fn place() -> (usize, usize)
        ensures { result ≡ (OFFSET, WIDTH) }
    {
        (OFFSET, WIDTH)
    }

    /// The number that the field holds in these bytes.
    pub fn get(bytes: &[u8]) -> u64
        requires inside { OFFSET + WIDTH ≤ length bytes.now }
        requires width { WIDTH ≤ 8 }
        ensures { result ≡ number_at OFFSET WIDTH bytes.now }
    {
        let mut value = 0;
        for index in (0..WIDTH).rev() {
            value = value * 256 + u64::from(bytes[OFFSET + index]);
        }
        value
    }

    /// Writes a number into the field. It reads back, and every other byte stays.
    pub fn put(bytes: &mut [u8], value: u64)
        requires inside { OFFSET + WIDTH ≤ length bytes.old }
        requires width { WIDTH ≤ 8 }
        requires fits { value < 256 ^ WIDTH }
        ensures bytes { take WIDTH (drop OFFSET bytes.new) ≡ spelled_number WIDTH value }
        ensures put { IsPut bytes.old bytes.new OFFSET WIDTH value }
    {
        let mut rest = value;
        for index in 0..WIDTH {
            bytes[OFFSET + index] = (rest % 256) as u8;
            rest /= 256;
        }
    }
}

/// The bytes of a number, the least significant one first.
pub fn spell(value: u64) -> [u8; 8]
    ensures { result ≡ spelled_number 8 value }
{
    let mut bytes = [0; 8];
    Field::<0, 8>::put(&mut bytes, value);
    bytes
}
