// What a case writes to.
ghost use Rattle.std.specs.Prelude.{◌≡◌};
ghost use Rattle.edges.specs.Cases.{NumbersOf, leaves, facts_from};

use crate::print;
use formats::facts::{ContentId, Facts, Fillers};
use formats::refusal::Refusal;
use formats::{field, half, row, rule, title};
use requests::number;

// The numbers of a case. Those that it does not have are bytes of its part.
pub type Numbers = [u64; 8];

// What is called, and with which numbers.
#[derive(Clone, Copy)]
pub struct Call {
    pub code: u8,
    pub numbers: Numbers,
}

pub fn numbers_of(case: &[u8]) -> Numbers
    ensures { NumbersOf case.now result }
{
    // Of `array::from_fn` nothing about the numbers could be proved.
    let mut numbers = [0; 8];
    for (i, number) in numbers.iter_mut().enumerate() {
        *number = field::read_at(case, 8 * i + 1, 8);
    }
    numbers
}

// As `requests` puts them together out of nine values, from a place further on: one function for both would want the length as a parameter
// and the place as a condition, for six lines.
fn facts(v: Numbers) -> Facts
    ensures { result ≡ facts_from v }
{
    Facts {
        cci: v[0],
        trigger: v[1],
        rights: v[2],
        permits: v[3],
        title_key: v[4],
        sti_key: v[5],
    }
}

// Writes to the part; a case that only reads leaves it as it is. The codes stay numbers: they are the program's input, and `leaves`
// says of each what it does.
#[tactic(auto, unfolding(crate::specs::Cases::leaves))]
pub fn write(call: Call, part: &mut [u8])
    ensures { part.new ≡ leaves call.code call.numbers part.old }
{
    let v = call.numbers;
    match call.code {
        0x18 => title::wipe(part, v[0]),
        0x19 => half::wipe(part, v[0]),
        0x1a => row::write_plain(part, field::low_byte(v[0])),
        0x1b => row::write_permits(part, v[0]),
        0x1c => field::write(part, v[0]),
        0x1d => written(number::write(v[0], part)),
        0x38 => title::write(part, v[0], v[1], ContentId(v[2])),
        0x39 => half::write(part, field::low_byte(v[0]), v[1], ContentId(v[2])),
        0x48 => rule::wipe(
            part,
            Fillers {
                f1: v[0],
                f2: v[1],
                f3: v[2],
                f4: v[3],
            },
        ),
        0x68 => row::write_here(part, facts(v)),
        0x88 => rule::write(part, facts(v), v[6], ContentId(v[7])),
        _ => {}
    }
}

// 0 and the count of bytes, or what it is refused with.
pub fn written(answer: Result<usize, Refusal>) {
    print::answer(answer.map(|_| ()));
    if let Ok(n) = answer {
        print::number(n as u64);
    }
}
