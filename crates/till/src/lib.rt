// What a till written in C calls: formatting, the seven calls, the tally, inspection, the closing sheet, and reading, writing, performing
// and previewing requests, over its own buffers, plain numbers and a bool for the pair. Formatting, the calls and preview hand on what
// they are given, as the types that those below take. Performing a request goes to the C function of its kind. Move in, tally, inspection,
// sheet, reading and writing also put numbers into the places that they are lent. A request is given as a kind and arguments, and a kind
// is any number in C. What travels together below stands in parameters of its own here, and answers are numbers, since C has them so.
// include/music_counter.h has the same nineteen in C.
#![tactic(auto)]

pub mod given;

ghost use Rattle.std.specs.Prelude.{◌≡◌, [], ◌∷◌, map};
ghost use Rattle.std.specs.Result.{result_unwrap_or};
ghost use Rattle.formats.specs.Refusal.{answer_number};
ghost use Rattle.requests.specs.declared.request.Request.TheVariants.{Register, Record, CheckOut, CheckIn, MoveOut, MoveIn, Delete};
ghost use Rattle.calls.specs.Buffers.{buffers_of};
ghost use Rattle.calls.specs.Report.{move_in_report};
ghost use Rattle.tables.specs.Format.{ledger_formatting, formatted_ledger, card_formatting, formatted_titles, formatted_rules};
ghost use Rattle.tables.specs.Tally.{tallied};
ghost use Rattle.formats.specs.Facts.{fact_values};
ghost use Rattle.inspection.specs.Inspect.{entry_values, state_told, title_values, entry_inspected, row_inspected, title_inspected, first_vacant_told};
ghost use Rattle.closing_sheet.specs.Sheet.{sheet_writing, sheet_written_to};
ghost use Rattle.music_counter.specs.Answer.{Answers, AnswersByLedger};
ghost use Rattle.music_counter.specs.Preview.{AnswersGiven, AnswersPreview};
ghost use Rattle.till.specs.Given.{pair_of, request_given, title, place, facts, fillers};
ghost use Rattle.till.specs.Told.{value_after, facts_after};
ghost use Rattle.requests.specs.Number.{written_answer};
ghost use Rattle.requests.specs.Request.{read_request, request_answer};
ghost use Rattle.till.specs.Demands.{Demands};
ghost use Rattle.requests.specs.Values.{kind_after, values_after, writing_numbers, numbers_written_to};

use crate::given::CounterRequest;
use closing_sheet::sheet;
use formats::facts::{ContentId, EntryNumber, Facts, Fillers};
use formats::head::Pair;
use formats::refusal;
use formats::refusal::Refusal;
use formats::row::RowState;
use inspection::{EntryContents, TitleCounts};
use music_counter::preview::Given;
use music_counter::{check_in, check_out, delete, move_in, move_out, preview, record, register};
use requests::request;
use tables::card::Card;
use tables::shop::Shop;
use tables::{format, tally};

// The three demands on the definitions that the contracts below name. There is nothing to run: this says to whoever checks the library
// that they are proved.
pub fn three_demands()
    ensures { Demands }
{}

// A till's pair: false is audio, true picture. There is no third value to refuse. This is no `From<bool>` of the pair, since only the C
// interface has a bool for it.
fn pair_of(pair: bool) -> Pair
    ensures { result ≡ pair_of pair }
{
    if pair { Pair::Picture } else { Pair::Audio }
}

// Puts what was found into the place that is lent for it, and answers 0; a refusal leaves the place as it was and answers its number.
fn tell<T: Copy + Drop>(found: Result<T, Refusal>, place: &mut T) -> u64
    ensures answer { result ≡ answer_number found }
    ensures told { place.new ≡ result_unwrap_or found place.old }
{
    match found {
        Ok(value) => {
            *place = value;
            0
        }
        Err(refusal) => u64::from(refusal),
    }
}

// The six facts as numbers, in their order.
fn fact_values(facts: Facts) -> [u64; 6]
    ensures { result ≡ fact_values facts }
{
    [
        facts.cci,
        facts.trigger,
        facts.rights,
        facts.permits,
        facts.title_key,
        facts.sti_key,
    ]
}

// Puts an entry's kind, its content ID and its facts into the places that are lent for them, each case by itself: with one store for all
// of them the compiler carries eight numbers to it, and the call takes an eighth longer.
fn tell_entry(found: EntryContents, kind: &mut u64, content: &mut u64, facts: &mut [u64; 6])
    ensures { kind.new ∷ content.new ∷ facts.new ≡ entry_values found }
{
    match found {
        EntryContents::Free => (*kind, *content, *facts) = (0, 0, [0; 6]),
        EntryContents::Copy {
            content: id,
            cci,
            title_key,
        } => (*kind, *content, *facts) = (1, id.0, [cci, 0, 0, 0, title_key, 0]),
        EntryContents::Full {
            content: id,
            facts: found,
        } => (*kind, *content, *facts) = (2, id.0, fact_values(found)),
        EntryContents::Torn => (*kind, *content, *facts) = (3, 0, [0; 6]),
        EntryContents::Spent { content: id } => (*kind, *content, *facts) = (4, id.0, [0; 6]),
    }
}

// The same of a row, its state and its facts.
fn tell_row(found: RowState, state: &mut u64, facts: &mut [u64; 6])
    ensures { state.new ∷ facts.new ≡ state_told found }
{
    match found {
        RowState::Empty => (*state, *facts) = (0, [0; 6]),
        RowState::Here(found) => (*state, *facts) = (1, fact_values(found)),
        RowState::Away => (*state, *facts) = (2, [0; 6]),
        RowState::Gone => (*state, *facts) = (3, [0; 6]),
        RowState::NoState => (*state, *facts) = (4, [0; 6]),
    }
}

// And of a title, its holders and its copies.
fn tell_title(found: TitleCounts, holders: &mut u64, copies: &mut u64)
    ensures { holders.new ∷ copies.new ∷ [] ≡ title_values found }
{
    (*holders, *copies) = (found.holders, found.copies);
}

// Answers 0, or 4 or 7 with nothing changed.
#[unsafe(no_mangle)]
pub extern "C" fn counter_format_ledger(ledger: &mut [u8], rows: u64, application: u16) -> u64
    ensures answer { result ≡ ledger_formatting ledger.old rows }
    ensures ledger_formatted { ledger.new ≡ formatted_ledger ledger.old rows application }
{
    refusal::number(format::format_ledger(ledger, rows, application))
}

// Answers 0, or 8 or 9 with nothing changed in either table.
#[unsafe(no_mangle)]
pub extern "C" fn counter_format_card(
    pair: bool,
    titles: &mut [u8],
    rules: &mut [u8],
    application: u16,
) -> u64
    ensures answer { result ≡ card_formatting titles.old rules.old }
    ensures titles_formatted { titles.new ≡ formatted_titles (pair_of pair) titles.old rules.old }
    ensures rules_formatted { rules.new ≡ formatted_rules (pair_of pair) titles.old rules.old application }
{
    refusal::number(format::format_card(pair_of(pair), titles, rules, application))
}

// Answers 0, or 4, 6, 7 or 11 with nothing changed.
#[unsafe(no_mangle)]
pub extern "C" fn counter_register(
    ledger: &mut [u8],
    content: u64,
    cci: u64,
    trigger: u64,
    rights: u64,
    permits: u64,
    title_key: u64,
    sti_key: u64,
) -> u64
    ensures { AnswersByLedger
        (Register (title content) (facts cci trigger rights permits title_key sti_key))
        ledger.old result ledger.new }
{
    let facts = Facts {
        cci,
        trigger,
        rights,
        permits,
        title_key,
        sti_key,
    };
    refusal::number(register::register(ledger, ContentId(content), facts))
}

// Answers 0, or 4, 5, 6, 7, 8, 9, 10 or 11 with nothing changed.
#[unsafe(no_mangle)]
pub extern "C" fn counter_record(
    pair: bool,
    ledger: &mut [u8],
    titles: &mut [u8],
    rules: &mut [u8],
    content: u64,
    entry: u64,
    cci: u64,
    trigger: u64,
    rights: u64,
    permits: u64,
    title_key: u64,
    sti_key: u64,
    hash: u64,
) -> u64
    ensures { Answers (pair_of pair)
        (Record (title content) (place entry) (facts cci trigger rights permits title_key sti_key) hash)
        (buffers_of ledger.old titles.old rules.old) result
        (buffers_of ledger.new titles.new rules.new) }
{
    let facts = Facts {
        cci,
        trigger,
        rights,
        permits,
        title_key,
        sti_key,
    };
    let answer = record::record(
        pair_of(pair),
        ledger,
        titles,
        rules,
        ContentId(content),
        EntryNumber(entry),
        facts,
        hash,
    );
    refusal::number(answer)
}

// Answers 0, or 4, 5, 7, 8, 9, 10, 11 or 12 with nothing changed.
#[unsafe(no_mangle)]
pub extern "C" fn counter_check_out(
    pair: bool,
    ledger: &mut [u8],
    titles: &mut [u8],
    rules: &[u8],
    content: u64,
    entry: u64,
) -> u64
    ensures { Answers (pair_of pair) (CheckOut (title content) (place entry))
        (buffers_of ledger.old titles.old rules.now) result
        (buffers_of ledger.new titles.new rules.now) }
{
    let answer = check_out::check_out(
        pair_of(pair),
        ledger,
        titles,
        rules,
        ContentId(content),
        EntryNumber(entry),
    );
    refusal::number(answer)
}

// Answers 0, or 5, 7, 8, 9, 10, 11, 15 or 16 with nothing changed.
#[unsafe(no_mangle)]
pub extern "C" fn counter_check_in(
    pair: bool,
    ledger: &mut [u8],
    titles: &mut [u8],
    rules: &[u8],
    entry: u64,
    f1: u64,
) -> u64
    ensures { Answers (pair_of pair) (CheckIn (place entry) f1)
        (buffers_of ledger.old titles.old rules.now) result
        (buffers_of ledger.new titles.new rules.now) }
{
    let answer = check_in::check_in(pair_of(pair), ledger, titles, rules, EntryNumber(entry), f1);
    refusal::number(answer)
}

// Answers 0, or 5, 7, 8, 9, 10, 11, 12, 13 or 16 with nothing changed.
#[unsafe(no_mangle)]
pub extern "C" fn counter_move_out(
    pair: bool,
    ledger: &mut [u8],
    titles: &mut [u8],
    rules: &mut [u8],
    entry: u64,
    hash: u64,
    f1: u64,
    f2: u64,
    f3: u64,
    f4: u64,
) -> u64
    ensures { Answers (pair_of pair) (MoveOut (place entry) hash (fillers f1 f2 f3 f4))
        (buffers_of ledger.old titles.old rules.old) result
        (buffers_of ledger.new titles.new rules.new) }
{
    let fillers = Fillers { f1, f2, f3, f4 };
    let answer = move_out::move_out(
        pair_of(pair),
        ledger,
        titles,
        rules,
        EntryNumber(entry),
        hash,
        fillers,
    );
    refusal::number(answer)
}

// Answers 0, or 4, 5, 7, 8, 9, 10, 11, 12 or 14 with no buffer changed. `entries_read` is told how many entries the check for copies
// read, whatever the answer.
#[unsafe(no_mangle)]
pub extern "C" fn counter_move_in(
    pair: bool,
    ledger: &mut [u8],
    titles: &mut [u8],
    rules: &mut [u8],
    content: u64,
    entry: u64,
    hash: u64,
    entries_read: &mut u64,
) -> u64
    ensures answers { Answers (pair_of pair) (MoveIn (title content) (place entry) hash)
        (buffers_of ledger.old titles.old rules.old) result
        (buffers_of ledger.new titles.new rules.new) }
    ensures report_told { entries_read.new ≡ move_in_report (pair_of pair) (title content) (place entry) hash
        (buffers_of ledger.old titles.old rules.old) }
{
    let reported = move_in::move_in(
        pair_of(pair),
        ledger,
        titles,
        rules,
        ContentId(content),
        EntryNumber(entry),
        hash,
    );
    *entries_read = reported.entries_read;
    refusal::number(reported.answer)
}

// Answers 0, or 5, 7, 8, 9, 10, 11 or 16 with nothing changed.
#[unsafe(no_mangle)]
pub extern "C" fn counter_delete(
    pair: bool,
    ledger: &mut [u8],
    titles: &mut [u8],
    rules: &mut [u8],
    entry: u64,
    f1: u64,
    f2: u64,
    f3: u64,
    f4: u64,
) -> u64
    ensures { Answers (pair_of pair) (Delete (place entry) (fillers f1 f2 f3 f4))
        (buffers_of ledger.old titles.old rules.old) result
        (buffers_of ledger.new titles.new rules.new) }
{
    let fillers = Fillers { f1, f2, f3, f4 };
    let answer = delete::delete(
        pair_of(pair),
        ledger,
        titles,
        rules,
        EntryNumber(entry),
        fillers,
    );
    refusal::number(answer)
}

// Answers 0, or 4, 8 or 9 with `copies` as it was.
#[unsafe(no_mangle)]
pub extern "C" fn counter_tally(
    pair: bool,
    titles: &[u8],
    rules: &[u8],
    content: u64,
    copies: &mut u64,
) -> u64
    ensures answer { result ≡ (tallied (pair_of pair) titles.now rules.now content).number }
    ensures copies_told { copies.new
        ≡ value_after 0 (tallied (pair_of pair) titles.now rules.now content) copies.old }
{
    let found = tally::tally(pair_of(pair), Card { titles, rules }, ContentId(content));
    tell(found, copies)
}

// Answers 0, or 5, 8 or 9 with `kind`, `content` and `facts` as they were.
#[unsafe(no_mangle)]
pub extern "C" fn counter_inspect_entry(
    pair: bool,
    titles: &[u8],
    rules: &[u8],
    entry: u64,
    kind: &mut u64,
    content: &mut u64,
    facts: &mut [u64; 6],
) -> u64
    ensures answer { result ≡ (entry_inspected (pair_of pair) titles.now rules.now entry).number }
    ensures kind_told { kind.new
        ≡ value_after 0 (entry_inspected (pair_of pair) titles.now rules.now entry) kind.old }
    ensures content_told { content.new
        ≡ value_after 1 (entry_inspected (pair_of pair) titles.now rules.now entry) content.old }
    ensures facts_told { facts.new
        ≡ facts_after 2 (entry_inspected (pair_of pair) titles.now rules.now entry) facts.old }
{
    match inspection::entry(pair_of(pair), Card { titles, rules }, EntryNumber(entry)) {
        Ok(found) => {
            tell_entry(found, kind, content, facts);
            0
        }
        Err(refusal) => u64::from(refusal),
    }
}

// Answers 0, or 4, 7 or 11 with `state` and `facts` as they were.
#[unsafe(no_mangle)]
pub extern "C" fn counter_inspect_row(
    ledger: &[u8],
    content: u64,
    state: &mut u64,
    facts: &mut [u64; 6],
) -> u64
    ensures answer { result ≡ (row_inspected ledger.now content).number }
    ensures state_told { state.new ≡ value_after 0 (row_inspected ledger.now content) state.old }
    ensures facts_told { facts.new ≡ facts_after 1 (row_inspected ledger.now content) facts.old }
{
    match inspection::row(ledger, ContentId(content)) {
        Ok(found) => {
            tell_row(found, state, facts);
            0
        }
        Err(refusal) => u64::from(refusal),
    }
}

// Answers 0, or 4, 7, 8, 9 or 11 with `holders` and `copies` as they were.
#[unsafe(no_mangle)]
pub extern "C" fn counter_inspect_title(
    pair: bool,
    ledger: &[u8],
    titles: &[u8],
    rules: &[u8],
    content: u64,
    holders: &mut u64,
    copies: &mut u64,
) -> u64
    ensures answer { result
        ≡ (title_inspected (pair_of pair) (buffers_of ledger.now titles.now rules.now) content).number }
    ensures holders_told { holders.new
        ≡ value_after 0 (title_inspected (pair_of pair) (buffers_of ledger.now titles.now rules.now) content) holders.old }
    ensures copies_told { copies.new
        ≡ value_after 1 (title_inspected (pair_of pair) (buffers_of ledger.now titles.now rules.now) content) copies.old }
{
    let shop = Shop::new(ledger, titles, rules);
    match inspection::title(pair_of(pair), shop, ContentId(content)) {
        Ok(found) => {
            tell_title(found, holders, copies);
            0
        }
        Err(refusal) => u64::from(refusal),
    }
}

// Answers 0, or 5, 8 or 9 with `entry` as it was.
#[unsafe(no_mangle)]
pub extern "C" fn counter_first_vacant(
    pair: bool,
    titles: &[u8],
    rules: &[u8],
    from: u64,
    entry: &mut u64,
) -> u64
    ensures answer { result ≡ (first_vacant_told (pair_of pair) titles.now rules.now from).number }
    ensures entry_told { entry.new
        ≡ value_after 0 (first_vacant_told (pair_of pair) titles.now rules.now from) entry.old }
{
    let found = inspection::first_vacant(pair_of(pair), Card { titles, rules }, EntryNumber(from));
    tell(found, entry)
}

// Answers 0, or 7, 8, 9 or 1 with nothing changed.
#[unsafe(no_mangle)]
pub extern "C" fn counter_sheet(
    pair: bool,
    ledger: &[u8],
    titles: &[u8],
    rules: &[u8],
    text: &mut [u8],
    used: &mut usize,
) -> u64
    ensures answer { result ≡ (written_answer (sheet_writing (pair_of pair)
        (buffers_of ledger.now titles.now rules.now) text.old)).number }
    ensures written { text.new ≡ sheet_written_to (pair_of pair)
        (buffers_of ledger.now titles.now rules.now) text.old }
    ensures used_told { used.new ≡ value_after 0 (written_answer (sheet_writing (pair_of pair)
        (buffers_of ledger.now titles.now rules.now) text.old)) used.old }
{
    let shop = Shop::new(ledger, titles, rules);
    tell(sheet::write(pair_of(pair), shop, text), used)
}

// Answers 0, or 1 to 6 with nothing changed.
#[unsafe(no_mangle)]
pub extern "C" fn counter_read_request(
    bytes: &[u8],
    kind: &mut u64,
    arguments: &mut [u64; 9],
    used: &mut usize,
) -> u64
    ensures answer { result ≡ (request_answer (read_request bytes.now)).number }
    ensures kind_told { kind.new ≡ kind_after (read_request bytes.now) kind.old }
    ensures arguments_told { arguments.new ≡ values_after (read_request bytes.now) arguments.old }
    ensures used_told { used.new ≡ value_after 0 (request_answer (read_request bytes.now)) used.old }
{
    tell(request::read_numbers(bytes, kind, arguments), used)
}

// Answers 0, or 3, 4, 5, 6 or 1 with nothing changed.
#[unsafe(no_mangle)]
pub extern "C" fn counter_write_request(
    bytes: &mut [u8],
    kind: u64,
    arguments: &[u64; 9],
    used: &mut usize,
) -> u64
    ensures answer { result ≡ (written_answer (writing_numbers kind arguments.now bytes.old)).number }
    ensures written { bytes.new ≡ numbers_written_to kind arguments.now bytes.old }
    ensures used_told { used.new
        ≡ value_after 0 (written_answer (writing_numbers kind arguments.now bytes.old)) used.old }
{
    tell(request::write_numbers(kind, arguments, bytes), used)
}

// Answers 3 with nothing changed where the kind is none, else what the call answers.
#[unsafe(no_mangle)]
pub extern "C" fn counter_perform(
    pair: bool,
    ledger: &mut [u8],
    titles: &mut [u8],
    rules: &mut [u8],
    request: &CounterRequest,
) -> u64
    ensures { AnswersGiven (pair_of pair) (request_given request.now)
        (buffers_of ledger.old titles.old rules.old) result
        (buffers_of ledger.new titles.new rules.new) }
{
    request.perform(pair_of(pair), ledger, titles, rules)
}

// Answers 0, or 17 or 18 with nothing changed.
#[unsafe(no_mangle)]
pub extern "C" fn counter_preview(
    pair: bool,
    ledger: &[u8],
    titles: &[u8],
    rules: &[u8],
    scratch_ledger: &mut [u8],
    scratch_titles: &mut [u8],
    scratch_rules: &mut [u8],
    basket: &[CounterRequest; 16],
    count: u64,
    answers: &mut [u64; 16],
) -> u64
    ensures { AnswersPreview (pair_of pair) (map request_given basket.now) count (buffers_of ledger.now titles.now rules.now)
        (buffers_of scratch_ledger.old scratch_titles.old scratch_rules.old) answers.old result
        (buffers_of scratch_ledger.new scratch_titles.new scratch_rules.new) answers.new }
{
    let answer = preview::preview(
        pair_of(pair),
        Shop::new(ledger, titles, rules),
        scratch_ledger,
        scratch_titles,
        scratch_rules,
        basket,
        count,
        answers,
    );
    refusal::number(answer)
}
