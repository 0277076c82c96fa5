// Formats a ledger of 64 rows and an audio card, carries out the requests of standard input, at most 4,096 bytes of them, up to the
// end or the first fault, and prints the closing sheet of that ledger and card.
#![tactic(auto)]

ghost use Rattle.std.specs.Prelude.{◌≡◌, length, take};
ghost use Rattle.io.specs.Counts.{IsPrefixLen};
ghost use Rattle.formats.specs.Part.{put};
ghost use Rattle.sheet.specs.Printed.{sheet_printed};

use closing_sheet::sheet;
use formats::head::Pair;
use music_counter::serve;
use tables::shop::Shop;

// What is printed, at the front of a text; answers how many bytes it has. No request is noted.
fn printed(input: &[u8], text: &mut [u8; 18432]) -> usize
    ensures size { result ≡ length (sheet_printed input.now) }
    ensures within { IsPrefixLen result text.new }
    ensures front { take result text.new ≡ sheet_printed input.now }
    ensures bytes { text.new ≡ put text.old 0 (sheet_printed input.now) }
{
    let mut ledger = [0u8; 1560];
    let mut titles = [0u8; 16000];
    let mut rules = [0u8; 32000];
    let _ = serve::from_fresh(&mut ledger, &mut titles, &mut rules, input, &mut []);
    let shop = Shop::new(&ledger, &titles, &rules);
    sheet::write(Pair::Audio, shop, text).unwrap_or(0)
}

// Prints the text of what was read, and only that.
fn print(input: &[u8], text: &[u8])
    requires { text.now ≡ sheet_printed input.now }
{
    io::write_all(1, text);
}

fn main() {
    let mut input = [0u8; 4096];
    let n = io::read_full(0, &mut input);
    let mut text = [0u8; 18432];
    let used = printed(&input[..n], &mut text);
    print(&input[..n], &text[..used]);
}
