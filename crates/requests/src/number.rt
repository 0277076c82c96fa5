// Numbers in groups of seven bits, the low group first.
ghost use Rattle.std.specs.Prelude.{◌≡◌, ◌+◌, ◌≤◌, length};
ghost use Rattle.formats.specs.Part.{put};
ghost use Rattle.formats.specs.Refusal.{answer_of};
ghost use Rattle.requests.specs.Number.{groups, read_number, number_values, number_answer, count_values, written_answer, writing, written_to};

use crate::read::Read;
use formats::refusal::Refusal;

// The number at the front of `s`. One below 128 is its only byte, and taken at once. Put into its callers, this and the next cost no call
// for each number, and their answer does not go through memory.
#[inline(always)]
pub fn read(s: &[u8]) -> Result<Read<u64>, Refusal>
    ensures { answer_of number_values result ≡ number_answer (read_number s.now) }
{
    match s.first() {
        Some(byte) if *byte < 128 => Ok(Read {
            value: u64::from(*byte),
            len: 1,
        }),
        _ => read_groups(s),
    }
}

// The same, group by group. A group is added before the test whether it is the last one, so that no product is left for the return.
#[inline(always)]
fn read_groups(s: &[u8]) -> Result<Read<u64>, Refusal>
    ensures { answer_of number_values result ≡ number_answer (read_number s.now) }
{
    let mut value: u64 = 0;
    let mut place: u64 = 1;
    for (i, byte) in s.iter().enumerate() {
        let b = u64::from(*byte);
        if i == 9 {
            if b == 1 {
                return Ok(Read {
                    value: value + place,
                    len: 10,
                });
            }
            return Err(Refusal::Number);
        }
        value += place * (b % 128);
        if b < 128 {
            let is_longer = 0 < i;
            if b == 0 && is_longer {
                return Err(Refusal::Number);
            }
            return Ok(Read { value, len: i + 1 });
        }
        place *= 128;
    }
    Err(Refusal::TooShort)
}

// The length of a number's written form, by the count of its leading zeros. Seven places of the highest bit make a group, so each length
// but 10 stands seven times: a row for each, by hand and not by the formatter, so that it can be checked by eye. 10 is a number of all 64
// bits; the last entry is 0, which has no bit and is one group all the same.
#[rattlefmt::skip]
static LENGTHS: [u8; 65] = [
    10,
    9, 9, 9, 9, 9, 9, 9,
    8, 8, 8, 8, 8, 8, 8,
    7, 7, 7, 7, 7, 7, 7,
    6, 6, 6, 6, 6, 6, 6,
    5, 5, 5, 5, 5, 5, 5,
    4, 4, 4, 4, 4, 4, 4,
    3, 3, 3, 3, 3, 3, 3,
    2, 2, 2, 2, 2, 2, 2,
    1, 1, 1, 1, 1, 1, 1,
    1,
];

// How many bytes `x` is written in.
pub fn len(x: u64) -> usize
    ensures count { result ≡ length (groups x) }
    ensures at_most_ten { result ≤ 10 }
{
    usize::from(LENGTHS[x.leading_zeros() as usize])
}

// Writes `x` from place `at` of `out` on, where there is room for it, and answers the place after it. One group or two, as content IDs and
// entry numbers have, take no loop.
pub(crate) fn store(x: u64, out: &mut [u8], at: usize) -> usize
    requires { at + length (groups x) ≤ length out.old }
    ensures place { result ≡ at + length (groups x) }
    ensures bytes { out.new ≡ put out.old at (groups x) }
{
    let groups = len(x);
    if groups == 1 {
        out[at] = x as u8;
        return at + 1;
    }
    if groups == 2 {
        out[at] = (128 + x % 128) as u8;
        out[at + 1] = (x >> 7) as u8;
        return at + 2;
    }
    let last = at + groups - 1;
    let mut left = x;
    for i in at..last {
        out[i] = (128 + left % 128) as u8;
        left >>= 7;
    }
    out[last] = left as u8;
    last + 1
}

// Writes `x` at the front of `out`; where it does not fit, changes nothing and refuses. Answers the count of bytes written.
pub fn write(x: u64, out: &mut [u8]) -> Result<usize, Refusal>
    ensures answer { answer_of count_values result ≡ written_answer (writing (groups x) out.old) }
    ensures bytes { out.new ≡ written_to (groups x) out.old }
{
    if out.len() < len(x) {
        return Err(Refusal::TooShort);
    }
    Ok(store(x, out, 0))
}
