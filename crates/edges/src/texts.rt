// What a case writes in a text.
ghost use Rattle.std.specs.Prelude.{◌≡◌};
ghost use Rattle.text.specs.Text.{field, placed};
ghost use Rattle.closing_sheet.specs.Sheet.{total_word};
ghost use Rattle.edges.specs.Cases.{leaves_in_text};

use crate::print;
use crate::writers::Call;
use formats::field;
use text::Text;

// Writes in the part and shows the place behind it; any other case leaves the part as it is.
#[tactic(auto, unfolding(crate::specs::Cases::leaves_in_text))]
pub fn write(call: Call, part: &mut [u8])
    ensures { part.new ≡ leaves_in_text call.code call.numbers part.old }
{
    let v = call.numbers;
    match call.code {
        0x1e => word(part, v[0] as usize),
        0x3a => number(v[0], field::low_byte(v[1]), part, v[2] as usize),
        _ => {}
    }
}

fn word(part: &mut [u8], at: usize)
    ensures { part.new ≡ placed part.old at total_word }
{
    let mut text = Text { out: part, at };
    text.word(b"total ");
    print::number(text.at as u64);
}

fn number(n: u64, end: u8, part: &mut [u8], at: usize)
    ensures { part.new ≡ placed part.old at (field n end) }
{
    let mut text = Text { out: part, at };
    text.number(n, end);
    print::number(text.at as u64);
}
