// Serving requests from their bytes.
ghost use Rattle.std.specs.Prelude.{◌≡◌, length, set};
ghost use Rattle.formats.specs.Refusal.{answer_number};
ghost use Rattle.formats.specs.declared.head.Pair.TheVariants.{Audio};
ghost use Rattle.calls.specs.Buffers.{buffers_of, fresh};
ghost use Rattle.music_counter.specs.Answer.{Answers};
ghost use Rattle.music_counter.specs.Serve.{Serves};

use crate::{check_in, check_out, delete, move_in, move_out, record, register};
use formats::head::Pair;
use formats::refusal;
use formats::refusal::Refusal;
use requests::request;
use requests::request::Request;
use tables::format;

// Carries out a request that has been read, on a card of the pair.
pub fn perform(
    pair: Pair,
    ledger: &mut [u8],
    titles: &mut [u8],
    rules: &mut [u8],
    request: Request,
) -> Result<(), Refusal>
    ensures { Answers pair request
        (buffers_of ledger.old titles.old rules.old) (answer_number result)
        (buffers_of ledger.new titles.new rules.new) }
{
    match request {
        Request::Register { content, facts } => register::register(ledger, content, facts),
        Request::Record {
            content,
            entry,
            facts,
            hash,
        } => { record::record(pair, ledger, titles, rules, content, entry, facts, hash) }
        Request::CheckOut { content, entry } => {
            check_out::check_out(pair, ledger, titles, rules, content, entry)
        }
        Request::CheckIn { entry, f1 } => {
            check_in::check_in(pair, ledger, titles, rules, entry, f1)
        }
        Request::MoveOut {
            entry,
            hash,
            fillers,
        } => { move_out::move_out(pair, ledger, titles, rules, entry, hash, fillers) }
        Request::MoveIn {
            content,
            entry,
            hash,
        } => { move_in::move_in(pair, ledger, titles, rules, content, entry, hash).answer }
        Request::Delete { entry, fillers } => {
            delete::delete(pair, ledger, titles, rules, entry, fillers)
        }
    }
}

// How serving a stream ended: done where no byte is left, or what stopped reading; and how many requests were served, in either case.
#[derive(Clone, Copy)]
pub struct Served {
    pub stop: Result<(), Refusal>,
    pub count: usize,
}

// What is noted of a request that was served: its kind, and the number that it was answered. Both are numbers, as the programs print
// them and as the log of the theorems has them.
#[derive(Clone, Copy, Debug, PartialEq, Eq)]
pub struct Note {
    pub kind: u64,
    pub answer: u64,
}

// Writes a note to place i, where there is one. `get_mut` would be no plainer: this the check proves alone, that would want two answers.
fn put_note(notes: &mut [Note], i: usize, note: Note)
    ensures { notes.new ≡ set notes.old i note }
{
    if i < notes.len() {
        notes[i] = note;
    }
}

// Serves a whole stream, as calls of one pair, to its end or to the first request that cannot be read; everything before it is
// carried out. `notes` gets a note of each request, as many as it has places. The count is what is answered, so it stays beside the loop; an
// iterator over the requests would have to say how it ended.
pub fn all(
    pair: Pair,
    ledger: &mut [u8],
    titles: &mut [u8],
    rules: &mut [u8],
    s: &[u8],
    notes: &mut [Note],
) -> Served
    ensures { Serves pair s.now (buffers_of ledger.old titles.old rules.old) result
        (buffers_of ledger.new titles.new rules.new) notes.old notes.new }
{
    let mut rest = s;
    let mut count: usize = 0;
    while !rest.is_empty() {
        let found = request::read(rest);
        let Ok(read) = found else {
            return Served {
                stop: found.map(|_| ()),
                count,
            };
        };
        let answer = refusal::number(perform(pair, ledger, titles, rules, read.value));
        let kind = request::kind(read.value);
        put_note(notes, count, Note { kind, answer });
        count += 1;
        rest = request::remainder(rest, found);
    }
    Served {
        stop: Ok(()),
        count,
    }
}

// Formats a ledger of 64 rows and an audio card, application number 0, whatever stood in the buffers, and serves a stream on them: what
// the programs do with the bytes of standard input.
pub fn from_fresh(
    ledger: &mut [u8; 1560],
    titles: &mut [u8; 16000],
    rules: &mut [u8; 32000],
    s: &[u8],
    notes: &mut [Note],
) -> Served
    ensures serves { Serves Audio s.now (fresh Audio 64 0 0) result
        (buffers_of ledger.new titles.new rules.new) notes.old notes.new }
    ensures ledger_length { 1560 ≡ length ledger.new }
    ensures titles_length { 16000 ≡ length titles.new }
    ensures rules_length { 32000 ≡ length rules.new }
{
    let _ = format::format_ledger(ledger, 64, 0);
    let _ = format::format_card(Pair::Audio, titles, rules, 0);
    all(Pair::Audio, ledger, titles, rules, s, notes)
}
