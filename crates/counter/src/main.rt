// Formats a ledger of 64 rows and an audio card, and serves the requests of standard input, at most 4,096 bytes of them. It prints
// a line for each request, its kind and its answer, and then `end` and the number that stopped reading, 0 at the end.
#![tactic(auto)]

ghost use Rattle.std.specs.Prelude.{◌≡◌, ◌+◌, ◌≤◌, length, take};
ghost use Rattle.io.specs.Counts.{IsPrefixLen};
ghost use Rattle.formats.specs.Part.{put};
ghost use Rattle.formats.specs.Refusal.{answer_number};
ghost use Rattle.counter.specs.Printed.{lines_noted, end_line, counter_printed};

use formats::refusal;
use formats::refusal::Refusal;
use music_counter::serve;
use music_counter::serve::Note;
use text::Text;

// Writes the lines of requests, from the notes of them. No `Display`, as `Text` says; nor for the last line.
fn write_lines(notes: &[Note], text: &mut Text)
    requires room { text.old.at + length (lines_noted notes.now) ≤ length text.old.out.now }
    ensures place { text.new.at ≡ text.old.at + length (lines_noted notes.now) }
    ensures written { text.new.out.now ≡ put text.old.out.now text.old.at (lines_noted notes.now) }
    ensures name { text.new.out.ghost_name ≡ text.old.out.ghost_name }
{
    for note in notes {
        text.number(note.kind, b' ');
        text.number(note.answer, b'\n');
    }
}

// Writes the last line.
fn write_end(stop: Result<(), Refusal>, text: &mut Text)
    requires room { text.old.at + length (end_line (answer_number stop)) ≤ length text.old.out.now }
    ensures place { text.new.at ≡ text.old.at + length (end_line (answer_number stop)) }
    ensures written { text.new.out.now
        ≡ put text.old.out.now text.old.at (end_line (answer_number stop)) }
    ensures name { text.new.out.ghost_name ≡ text.old.out.ghost_name }
{
    text.word(b"end ");
    text.number(refusal::number(stop), b'\n');
}

// What is printed, at the front of a text; answers how many bytes it has. A request has a byte or more, so that 4,096 places are
// enough; its line has at most 5 bytes, and the last line at most 7.
fn printed(input: &[u8], text: &mut [u8; 20512]) -> usize
    requires { length input.now ≤ 4096 }
    ensures size { result ≡ length (counter_printed input.now) }
    ensures within { IsPrefixLen result text.new }
    ensures front { take result text.new ≡ counter_printed input.now }
    ensures bytes { text.new ≡ put text.old 0 (counter_printed input.now) }
{
    let mut ledger = [0u8; 1560];
    let mut titles = [0u8; 16000];
    let mut rules = [0u8; 32000];
    let mut notes = [Note { kind: 0, answer: 0 }; 4096];
    let served = serve::from_fresh(&mut ledger, &mut titles, &mut rules, input, &mut notes);
    let mut text = Text { out: text, at: 0 };
    write_lines(&notes[..served.count], &mut text);
    write_end(served.stop, &mut text);
    text.at
}

// Prints the text of what was read, and only that. The program `sheet` has this and `main` too, for its own text: they have no library to
// share, and what is printed is named in the clause.
fn print(input: &[u8], text: &[u8])
    requires { text.now ≡ counter_printed input.now }
{
    io::write_all(1, text);
}

fn main() {
    let mut input = [0u8; 4096];
    let n = io::read_full(0, &mut input);
    let mut text = [0u8; 20512];
    let used = printed(&input[..n], &mut text);
    print(&input[..n], &text[..used]);
}
