// A row of the ledger: the 24 bytes of it that a title has. A part of another length is left as it is.
ghost use Rattle.std.specs.Prelude.{◌≡◌, ◌+◌, ◌*◌, ◌%◌, ◌^◌, length};
ghost use Rattle.formats.specs.Part.{replaced};
ghost use Rattle.formats.specs.Row.{facts_of, state_of, here_row, plain_row, with_permits};

use crate::facts::Facts;
use crate::{facts, field};

#[derive(Clone, Copy, PartialEq, Eq)]
pub enum RowState {
    Empty,
    // The title lives in the ledger, with these facts.
    Here(Facts),
    // It lives on the card.
    Away,
    // It was deleted, and its row is not used again.
    Gone,
    // Bytes that are no state.
    NoState,
}

// The states' numbers in byte 0. They stay numbers: `write_plain` takes any byte, and an enum would ask more of its callers.
pub const EMPTY: u8 = 0;

pub const HERE: u8 = 1;

pub const AWAY: u8 = 2;

pub const GONE: u8 = 3;

fn facts(row: &[u8]) -> Facts
    requires { length row.now ≡ 24 }
    ensures { result ≡ facts_of row.now }
{
    Facts {
        cci: u64::from(row[1]),
        trigger: u64::from(row[2]),
        rights: u64::from(row[3]),
        permits: u64::from(row[4]),
        title_key: field::read_at(row, 8, 8) >> 8,
        sti_key: field::read_at(row, 16, 8) >> 8,
    }
}

#[tactic(auto, unfolding(crate::specs::Row::state_of))]
// Left as a call, it makes each call on a row take longer.
#[inline]
pub fn state(row: &[u8]) -> RowState
    ensures { result ≡ state_of row.now }
{
    if row.len() != 24 {
        return RowState::NoState;
    }
    match row[0] {
        EMPTY => RowState::Empty,
        HERE => {
            let facts = facts(row);
            if facts::in_range(facts) {
                RowState::Here(facts)
            } else {
                RowState::NoState
            }
        }
        AWAY => RowState::Away,
        GONE => RowState::Gone,
        _ => RowState::NoState,
    }
}

// Bytes 0 to 7 of a row that is here, as one field.
fn here(facts: Facts) -> u64
    ensures { result ≡ 2 ^ 56 + facts.cci % 256 * 2 ^ 48 + facts.trigger % 256 * 2 ^ 40
        + facts.rights % 256 * 2 ^ 32 + facts.permits % 256 * 2 ^ 24 }
{
    0x100_0000_0000_0000
        | ((facts.cci & 0xff) << 48)
        | ((facts.trigger & 0xff) << 40)
        | ((facts.rights & 0xff) << 32)
        | ((facts.permits & 0xff) << 24)
}

// Writes all 24 bytes of a row that is here.
pub fn write_here(row: &mut [u8], facts: Facts)
    ensures { row.new ≡ replaced 24 (here_row facts) row.old }
{
    if row.len() != 24 {
        return;
    }
    field::write(&mut row[0..8], here(facts));
    field::write(&mut row[8..16], facts.title_key << 8);
    field::write(&mut row[16..24], facts.sti_key << 8);
}

// Writes all 24 bytes of a row in another state: its number, and zeros.
pub fn write_plain(row: &mut [u8], state: u8)
    ensures { row.new ≡ replaced 24 (plain_row state) row.old }
{
    if row.len() != 24 {
        return;
    }
    field::write(&mut row[0..8], u64::from(state) << 56);
    field::write(&mut row[8..16], 0);
    field::write(&mut row[16..24], 0);
}

// Writes byte 4 and no other.
pub fn write_permits(row: &mut [u8], permits: u64)
    ensures { row.new ≡ replaced 24 (with_permits row.old permits) row.old }
{
    if row.len() != 24 {
        return;
    }
    row[4] = field::low_byte(permits);
}
