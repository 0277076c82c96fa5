// What a case shows.
ghost use Rattle.calls.specs.Buffers.{buffers_of, fresh};
ghost use Rattle.music_counter.specs.Serve.{Serves};

use crate::writers::{Call, Numbers};
use crate::{baskets, print, writers};
use closing_sheet::sheet;
use formats::entry::{Entry, EntryKind};
use formats::facts::{ContentId, EntryNumber, Facts};
use formats::head::Pair;
use formats::refusal::Refusal;
use formats::row::RowState;
use formats::{field, half, head, row, rule, table, title};
use music_counter::serve::{Note, Served};
use music_counter::{move_in, serve};
use requests::read::Read;
use requests::request::Request;
use requests::{number, request};
use tables::card::Card;
use tables::shop::Shop;
use tables::{copies, format};

// What the part has that a case reads, or holds after a case that writes.
pub fn show(call: Call, case: &[u8], part: &[u8]) {
    let v = call.numbers;
    match call.code {
        0x01 => fields(part),
        0x02 => state(row::state(part)),
        0x03 => read(number::read(part)),
        0x04 => print::bytes(request::remainder(part, request::read(part))),
        0x05 => stream(Pair::Audio, part),
        0x06 => print::number(field::read(part)),
        0x07 => stream(Pair::Picture, part),
        0x08 => written_again(request::read(part)),
        0x11 => print::number(number::len(v[0]) as u64),
        0x12 => print::number(u64::from(half::is_flagged(part, ContentId(v[0])))),
        0x13 => print::number(text::len(v[0]) as u64),
        0x21 => heads(v[0], table::part(case, 17, v[1] as usize)),
        0x22 => entry(Entry {
            title: table::part(part, 0, v[0] as usize),
            rule: table::part(part, 16, v[1] as usize),
        }),
        0x23 => search(v[0], v[1] as usize, part),
        0x31 => closing(v[0], v[1] as usize, v[2] as usize, part),
        0x32 => moved_in(Pair::Audio, v, part),
        0x33 => moved_in(Pair::Picture, v, part),
        0x34 => baskets::previewed(Pair::Audio, v, part),
        0x35 => baskets::previewed(Pair::Picture, v, part),
        code => written(code, part),
    }
}

fn written(code: u8, part: &[u8]) {
    match code {
        0x18 | 0x19 | 0x1a | 0x1b | 0x1c | 0x1d | 0x1e | 0x38 | 0x39 | 0x3a | 0x48 | 0x68 | 0x88 =>
            { print::bytes(part) }
        _ => print::unknown(),
    }
}

fn fields(part: &[u8]) {
    print::number(half::key(part));
    print::number(u64::from(half::flag(part)));
    print::number(half::content_id(part).0);
    print::number(u64::from(half::usable(part)));
    print::number(half::usable_id(part).map_or(0, |id| id.0));
    print::number(title::cci(part));
    print::number(rule::trigger(part));
    print::number(rule::rights(part));
    print::number(rule::permits(part));
    print::number(rule::hash(part));
}

fn facts(f: Facts) {
    print::number(f.cci);
    print::number(f.trigger);
    print::number(f.rights);
    print::number(f.permits);
    print::number(f.title_key);
    print::number(f.sti_key);
}

// The state by its number in byte 0, 4 for none.
fn state(found: RowState) {
    match found {
        RowState::Empty => print::byte(row::EMPTY),
        RowState::Here(f) => {
            print::byte(row::HERE);
            facts(f);
        }
        RowState::Away => print::byte(row::AWAY),
        RowState::Gone => print::byte(row::GONE),
        RowState::NoState => print::number(4),
    }
}

// The kind by its number, 0 free, 1 copy, 2 full, 3 torn, 4 spent, and the facts.
fn entry(found: Entry) {
    match found.kind() {
        EntryKind::Free => print::number(0),
        EntryKind::Copy => print::number(1),
        EntryKind::Full => print::number(2),
        EntryKind::Torn => print::number(3),
        EntryKind::Spent => print::number(4),
    }
    facts(found.facts());
}

// 0, the number and its length; or what it is refused with.
fn read(found: Result<Read<u64>, Refusal>) {
    print::answer(found.map(|_| ()));
    if let Ok(read) = found {
        print::number(read.value);
        print::number(read.len as u64);
    }
}

// The request that was read, written into room for any and into four bytes, and those bytes.
fn written_again(found: Result<Read<Request>, Refusal>) {
    let Ok(read) = found else {
        return print::answer(found.map(|_| ()));
    };
    let mut long = [0xee; 60];
    let mut short = [0xee; 4];
    writers::written(request::write(read.value, &mut long));
    print::bytes(&long);
    writers::written(request::write(read.value, &mut short));
    print::bytes(&short);
}

// The tests and fields of a ledger's head, and those of the card's, as tables of either pair.
fn heads(application: u64, table: &[u8]) {
    print::answer(head::check_ledger(table));
    print::number(head::ledger_application(table));
    print::number(head::rows(table));
    print::number(head::rules_application(table));
    for pair in [Pair::Audio, Pair::Picture] {
        print::answer(head::check_titles(pair, table));
        print::answer(head::check_rules(pair, table));
        print::answer(head::check_rules_for(pair, table, application));
    }
}

// Row c's line, and the totals, of a ledger and the two tables behind it.
fn closing(c: u64, ledger_len: usize, titles_len: usize, part: &[u8]) {
    let ledger = table::part(part, 0, ledger_len);
    let card = table::part(part, ledger_len, part.len());
    let titles = table::part(card, 0, titles_len);
    let rules = table::part(card, titles_len, card.len());
    let shop = Shop::new(ledger, titles, rules);
    let line = sheet::row_line(shop, ContentId(c));
    print::number(line.row);
    print::number(line.state);
    print::number(line.permits);
    print::number(line.rights);
    print::number(line.copies);
    let totals = sheet::totals(shop);
    print::number(totals.sums.permits);
    print::number(totals.sums.copies);
    print::number(totals.sums.spent);
    print::number(totals.len as u64);
}

// Whether there is a copy of a title in a title table and the rule table behind it, and what the search for it reads.
fn search(c: u64, titles_len: usize, part: &[u8]) {
    let titles = table::part(part, 0, titles_len);
    let rules = table::part(part, titles_len, part.len());
    let search = copies::find(Card { titles, rules }, ContentId(c));
    print::number(u64::from(search.found));
    print::number(search.read);
}

// Serves requests on a ledger of 4 rows and a card that are formatted for them.
pub fn served(
    pair: Pair,
    ledger: &mut [u8; 120],
    titles: &mut [u8; 16000],
    rules: &mut [u8; 32000],
    requests: &[u8],
    notes: &mut [Note],
) -> Served
    ensures { Serves pair requests.now (fresh pair 4 0 0) result
        (buffers_of ledger.new titles.new rules.new) notes.old notes.new }
{
    let _ = format::format_ledger(ledger, 4, 0);
    let _ = format::format_card(pair, titles, rules, 0);
    serve::all(pair, ledger, titles, rules, requests, notes)
}

// What a move in answers and reports after these requests, lent each table whole or but for its last byte.
fn moved_in(pair: Pair, v: Numbers, requests: &[u8]) {
    let mut ledger = [0u8; 120];
    let mut titles = [0u8; 16000];
    let mut rules = [0u8; 32000];
    let _ = served(
        pair,
        &mut ledger,
        &mut titles,
        &mut rules,
        requests,
        &mut [],
    );
    let reported = move_in::move_in(
        pair,
        &mut ledger[..120 - (v[2] % 2) as usize],
        &mut titles[..16000 - (v[2] / 2 % 2) as usize],
        &mut rules[..32000 - (v[2] / 4 % 2) as usize],
        ContentId(v[0]),
        EntryNumber(v[1]),
        9,
    );
    print::answer(reported.answer);
    print::number(reported.entries_read);
}

// What serving answers, with four places for notes, their kinds and then their answers, and rows and entries 1 to 4 after it.
fn stream(pair: Pair, requests: &[u8]) {
    let mut ledger = [0u8; 120];
    let mut titles = [0u8; 16000];
    let mut rules = [0u8; 32000];
    let mut notes = [Note {
        kind: 99,
        answer: 99,
    }; 4];
    let served = served(
        pair,
        &mut ledger,
        &mut titles,
        &mut rules,
        requests,
        &mut notes,
    );
    print::answer(served.stop);
    print::number(served.count as u64);
    let kinds = notes.iter().map(|note| note.kind);
    for number in kinds.chain(notes.iter().map(|note| note.answer)) {
        print::number(number);
    }
    print::shop(Shop::new(&ledger, &titles, &rules));
}
