// Fields of several bytes, the most significant byte first.
ghost use Rattle.std.specs.Prelude.{◌≡◌, ◌%◌, min, length};
ghost use Rattle.formats.specs.Part.{part};
ghost use Rattle.formats.specs.Field.{number, bytes_of};

use crate::table;

pub fn low_byte(x: u64) -> u8
    ensures { result ≡ x % 256 }
{
    // `as` stays, here and in the other crates, where bits are cut off, where a number of 64 bits or of 32 becomes an index or an index a
    // number, and where it is known to fit: the library has a TryFrom for that, whose error could not occur.
    (x & 0xff) as u8
}

// The number that a field holds. A field has at most 8 bytes: of a longer one the first 8 count. A shorter one is read byte by
// byte: copied behind zeros, it takes a call where its length is not known.
pub fn read(field: &[u8]) -> u64
    ensures { result ≡ number (part field.now 0 8) }
{
    if let Some(bytes) = field.first_chunk::<8>() {
        return u64::from_be_bytes(*bytes);
    }
    let mut value: u64 = 0;
    for byte in field {
        value = (value << 8) | u64::from(*byte);
    }
    value
}

// The number in the field of `width` bytes that starts at place `start` of `s`. It ends where `s` ends.
pub fn read_at(s: &[u8], start: usize, width: usize) -> u64
    ensures { result ≡ number (part s.now start (min width 8)) }
{
    read(table::part(s, start, width))
}

// Fills a field with the low bytes of `x`, and with zeros before them where it is longer than 8 bytes.
pub fn write(field: &mut [u8], x: u64)
    ensures { field.new ≡ bytes_of (length field.old) x }
{
    let bytes = x.to_be_bytes();
    let size = field.len();
    if size <= 8 {
        field.copy_from_slice(&bytes[8 - size..]);
    } else {
        field[..size - 8].fill(0);
        field[size - 8..].copy_from_slice(&bytes);
    }
}
