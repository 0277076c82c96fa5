// What the title half and the rule half of an entry have in common, in their first 16 bytes. A part that is shorter is left as
// it is.
ghost use Rattle.std.specs.Prelude.{◌≡◌, ◌+◌, ◌*◌, ◌%◌, leb};
ghost use Rattle.formats.specs.Part.{put};
ghost use Rattle.formats.specs.Half.{key_of, flag_of, id_of, usable_of, usable_id, flagged_with, names_spent, half_bytes, wiped, changed_half};

use crate::facts::ContentId;
use crate::{facts, field, table};

// Bytes 0 to 7 as one field have the key at the bottom; bytes 8 to 15 have the flag at the top and the content ID at the bottom.
const KEY_BITS: u64 = 0xff_ffff_ffff_ffff;

const FLAG: u64 = 0x8000_0000_0000_0000;

const ID_BITS: u64 = 0x3ff;

// Flag and content ID in the order of their bytes.
const SWAPPED_MARKS: u64 = 0xff03_0000_0000_0080;

fn top_bit(x: u8) -> bool
    ensures { result ≡ leb 128 x }
{
    x & 0x80 != 0
}

// The low two bits of `high` above the eight of `low`.
fn ten_bits(high: u8, low: u8) -> u64
    ensures { result ≡ high % 4 * 256 + low }
{
    ((u64::from(high) & 3) << 8) | u64::from(low)
}

pub fn key(half: &[u8]) -> u64
    ensures { result ≡ key_of half.now }
{
    if half.len() < 8 {
        return field::read_at(half, 1, 7);
    }
    field::read_at(half, 0, 8) & KEY_BITS
}

pub fn flag(half: &[u8]) -> bool
    ensures { result ≡ flag_of half.now }
{
    top_bit(table::byte(half, 8))
}

pub fn content_id(half: &[u8]) -> ContentId
    ensures { result.0 ≡ id_of half.now }
{
    if half.len() < 16 {
        return ContentId(ten_bits(table::byte(half, 14), table::byte(half, 15)));
    }
    ContentId(field::read_at(half, 8, 8) & ID_BITS)
}

// Of a usable half flag and ID together are above the flag alone. Apart from `usable_id`, with which a tally takes a fifth longer.
pub fn usable(half: &[u8]) -> bool
    ensures { result ≡ usable_of half.now }
{
    if half.len() < 16 {
        return false;
    }
    FLAG < field::read_at(half, 8, 8) & (FLAG | ID_BITS)
}

// The content ID of a usable half: where the flag is set and the ID is not 0. One number until the end, so that a limit of the ID
// is tested with it.
pub fn usable_id(half: &[u8]) -> Option<ContentId>
    ensures { result ≡ usable_id half.now }
{
    if half.len() < 16 {
        return None;
    }
    let tail = field::read_at(half, 8, 8);
    let id = if tail & FLAG == 0 { 0 } else { tail & ID_BITS };
    if id == 0 { None } else { Some(ContentId(id)) }
}

// Whether a half has flag 0 and an ID from 1 to 999. Flag and ID as one number, which with the flag set is above any ID.
pub fn names_spent(half: &[u8]) -> bool
    ensures { result ≡ names_spent half.now }
{
    if half.len() < 16 {
        return false;
    }
    facts::is_numbered(field::read_at(half, 8, 8) & (FLAG | ID_BITS))
}

// Whether a half has flag 1 and this content ID, from 1 to 999. Flag and ID are compared at once, in the order of their bytes.
pub fn is_flagged(half: &[u8], content: ContentId) -> bool
    ensures { result ≡ flagged_with content.0 half.now }
{
    let id = content.0;
    if half.len() < 16 {
        return false;
    }
    if !facts::is_numbered(id) {
        return false;
    }
    let tail = field::read_at(half, 8, 8).swap_bytes();
    tail & SWAPPED_MARKS == (FLAG | id).swap_bytes()
}

// Writes the first 16 bytes of a half: `first`, the key, flag 1, the content ID, and 0 in every reserved bit. Bytes 0 to 7 are
// one field, and so are 8 to 15, with the flag at its top and the content ID at its bottom.
pub fn write(half: &mut [u8], first: u8, key: u64, content: ContentId)
    ensures { half.new
        ≡ changed_half (put half.old 0 (half_bytes first key content.0)) half.old }
{
    if half.len() < 16 {
        return;
    }
    let id = content.0;
    field::write(&mut half[0..8], (u64::from(first) << 56) | (key & KEY_BITS));
    field::write(&mut half[8..16], FLAG | (id & ID_BITS));
}

// Writes the filler over bytes 0 to 7 and clears the flag. Every other bit stays.
pub fn wipe(half: &mut [u8], filler: u64)
    ensures { half.new ≡ changed_half (wiped half.old filler) half.old }
{
    if half.len() < 16 {
        return;
    }
    half[8] = half[8] & 0x7f;
    field::write(&mut half[0..8], filler);
}
