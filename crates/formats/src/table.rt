// Reading bytes by their place, also where a buffer has too few of them: a byte past the end reads as 0, and a part ends
// where its buffer ends.
ghost use Rattle.std.specs.Prelude.{◌≡◌, ◌*◌, get_or};
ghost use Rattle.formats.specs.Part.{part};

// A place may lie past the end, so it is beside the buffer and no part of it.
pub fn byte(s: &[u8], at: usize) -> u8
    ensures { result ≡ get_or s.now at 0 }
{
    s.get(at).copied().unwrap_or(0)
}

// The part of `length` bytes from place `start` on.
pub fn part(s: &[u8], start: usize, length: usize) -> &[u8]
    ensures { result.now ≡ part s.now start length }
{
    let rest = s.get(start..).unwrap_or(&s[s.len()..]);
    rest.get(..length).unwrap_or(rest)
}

// Slot `i` of a table of slots of one width. A table that ends before it has nothing there.
pub fn slot<const WIDTH: usize>(table: &[u8], i: u64) -> &[u8]
    ensures { result.now ≡ part table.now (WIDTH * i) WIDTH }
{
    match (i as usize).checked_mul(WIDTH) {
        Some(start) => part(table, start, WIDTH),
        None => &table[table.len()..],
    }
}
