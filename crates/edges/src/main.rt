// Runs the cases of standard input, one a line, on functions of the layers below that no C function hands on as they are, and
// on a move in, and prints each line with ` ->` and what the function answers. A line that is no case is answered `?`.
//
// A case is spelled in the digits 0 to 9 and A to F, two a byte; all else in its line is for the reader, as the names of what
// is answered. Its first byte says what is called, and the high digit of that byte how many numbers follow, of 8 bytes each
// with the most significant first. The rest is a part of bytes, of any length: what a function reads, or is lent to write to.
//
//   01  a half: its fields, as a title half and as a rule half
//   02  a row: its state, and its facts where it is here
//   03  a number in groups of seven bits: 0, the number and its length, or what it is refused with
//   04  a request: the bytes after it
//   05  requests, served on a fresh ledger of 4 rows and a fresh card: the number that stopped, the count, four places for
//       kinds and four for answers (99 stood there), rows and entries 1 to 4
//   06  a field
//   07  requests, as 05, on a card of pictures
//   11  the length of a number in groups
//   12  a half: whether it has flag 1 and this content ID
//   13  the length of a number in decimal digits
//   18  wipe a title half: f1
//   19  wipe what both halves have in common: filler
//   1A  write a row that is not here: state
//   1B  write the permits of a row: permits
//   1C  write a field: value
//   1D  write a number in groups: value; 0 and its length, or what it is refused with
//   1E  write the word `total` and a space at a place of a text: place; the place behind it
//   21  a table, of which the part is the front, and zeros: application number, length; every head's tests and fields, those
//       of card tables for audio and then for pictures
//   22  an entry: lengths of its title half, for which 16 bytes are there, and of its rule half behind them
//   23  a title table and a rule table, the front of each: content ID, length of the first; whether there is a copy of that title,
//       and how many entries a search for it reads
//   31  a ledger, a title table and a rule table, the front of each: row, lengths of the first two; the five numbers of that
//       row's line, and the totals: permits, copies, spent entries, and the length of the sheet
//   32  requests, served as 05, and then a move in: content ID, entry number, which tables it is lent but for their last byte (1 the
//       ledger, 2 the titles, 4 the rules, added up); its answer, and how many entries its check for copies read
//   33  the same, on a card of pictures
//   34  requests, served as 05, and then a preview: how many bytes of the part these requests are, count, which buffers are lent but for
//       their last byte (1, 2, 4 the scratch ledger, titles and rules, 8, 16, 32 the originals, added up). The bytes behind the requests
//       are the basket, with title 4 registered in each place for which no request is left. Its answer, the places for answers (99
//       stood there), rows and entries 1 to 4 of the scratch, how many of its bytes are EE, as all were before, and rows and entries
//       of the originals; and then the answers of the basket up to the count, committed, and rows and entries
//   35  the same, on a card of pictures
//   38  write a title half: CCI, key, content ID
//   39  write what both halves have in common: byte 0, key, content ID
//   3A  write a number in decimal digits at a place of a text: value, the byte that ends it, place; the place behind it
//   48  wipe a rule half: f1, f2, f3, f4
//   68  write a row that is here: CCI, trigger, rights, permits, title key, STI key
//   88  write a rule half: the same, C_HASH, content ID
//
// A writer's answer ends with its part afterwards, in brackets.
#![tactic(auto)]

mod baskets;
mod print;
mod readers;
mod texts;
mod writers;

ghost use Rattle.std.specs.Prelude.{◌≡◌, ◌≤◌, IfSome};
ghost use Rattle.edges.specs.Cases.{digit_of, leaves};

use crate::writers::Call;
use formats::table;

fn main() {
    let mut text = [0u8; 393216];
    let n = io::read_full(0, &mut text);
    cases(&text[..n]);
}

// The value of a digit.
fn digit(x: u8) -> Option<u8>
    ensures value { result ≡ digit_of x }
    ensures at_most_15 { IfSome result (λ value. value ≤ 15) }
{
    match x {
        b'0'..=b'9' => Some(x - b'0'),
        b'A'..=b'F' => Some(x - b'A' + 10),
        _ => None,
    }
}

// Each line is a case, but for what follows the last line end.
fn cases(text: &[u8]) {
    let Some(end) = text.iter().rposition(|x| *x == b'\n') else {
        return;
    };
    for line in text[..end].split(|x| *x == b'\n') {
        print::line(line);
        case(line);
        print::end();
    }
}

// Each digit goes into the bytes of the case that its line spells, two a byte. A case has room for the longest table that is tried, 32,001
// bytes, and for what stands before it; digits past that are left out.
fn case(line: &[u8]) {
    let mut case = [0u8; 32100];
    let mut bytes: usize = 0;
    for (i, value) in line
        .iter()
        .filter_map(|x| digit(*x))
        .take(64200)
        .enumerate()
    {
        case[i / 2] = case[i / 2] % 16 * 16 + value;
        bytes = (i + 1) / 2;
    }
    answer(&case, bytes);
}

// Of a case that has n bytes, behind which it is read on as zeros: a table may be longer than its front.
fn answer(case: &[u8; 32100], n: usize)
    requires { n ≤ 32100 }
{
    let code = table::byte(case, 0);
    let start = 1 + 8 * usize::from(code / 16);
    if n < start {
        print::unknown();
    } else {
        let call = Call {
            code,
            numbers: writers::numbers_of(case),
        };
        let mut part = *case;
        texts::write(call, &mut part[start..n]);
        run(call, case, &mut part[start..n]);
    }
}

fn run(call: Call, case: &[u8], part: &mut [u8])
    ensures { part.new ≡ leaves call.code call.numbers part.old }
{
    writers::write(call, &mut *part);
    readers::show(call, case, &*part);
}
