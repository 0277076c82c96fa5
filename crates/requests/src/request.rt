// Requests: a kind and its arguments, each a number in groups of seven bits.
ghost use Rattle.std.specs.Prelude.{◌≡◌, ◌≤◌, [], ◌∷◌, ◌++◌, length, take, leb};
ghost use Rattle.formats.specs.Facts.{fact_values};
ghost use Rattle.formats.specs.Part.{put};
ghost use Rattle.formats.specs.Refusal.{answer_number, answer_of};
ghost use Rattle.requests.specs.Number.{count_values, written_answer};
ghost use Rattle.requests.specs.Request.{limit, kind_limit, kind_of, schema, facts_from, fillers_from, request_of, first_limit};
ghost use Rattle.requests.specs.Request.{written, limit_of, read_request, request_values, request_answer, reading_of};
ghost use Rattle.requests.specs.Request.{remainder_of, writing_request, request_written_to};
ghost use Rattle.requests.specs.Values.{Holds, length_answer, kind_after, values_after};
ghost use Rattle.requests.specs.Values.{written_numbers, writing_numbers, numbers_written_to};

use crate::number;
use crate::read::Read;
use Argument::{Any, Cci, Content, Entry, Key, Permits, Rights, Trigger};
use formats::facts::{
    ContentId, EntryNumber, Facts, Fillers, LAST_NUMBER, MOST_CCI, MOST_COUNT, MOST_KEY,
    MOST_TRIGGER,
};
use formats::refusal::Refusal;

// The seven calls, with their arguments.
#[derive(Clone, Copy)]
pub enum Request {
    Register {
        content: ContentId,
        facts: Facts,
    },
    Record {
        content: ContentId,
        entry: EntryNumber,
        facts: Facts,
        hash: u64,
    },
    CheckOut {
        content: ContentId,
        entry: EntryNumber,
    },
    CheckIn {
        entry: EntryNumber,
        f1: u64,
    },
    MoveOut {
        entry: EntryNumber,
        hash: u64,
        fillers: Fillers,
    },
    MoveIn {
        content: ContentId,
        entry: EntryNumber,
        hash: u64,
    },
    Delete {
        entry: EntryNumber,
        fillers: Fillers,
    },
}

// What an argument is, which decides its limit.
#[derive(Clone, Copy, Debug, PartialEq, Eq)]
pub enum Argument {
    Content,
    Entry,
    Cci,
    Trigger,
    Rights,
    Permits,
    Key,
    Any,
}

// The range of each argument, in the order of the enum: its least value, and how far above it the greatest lies.
#[rattlefmt::skip]
static RANGES: [(u64, u64); 8] = [
    (1, LAST_NUMBER - 1), // a content ID
    (1, LAST_NUMBER - 1), // an entry number
    (2, MOST_CCI - 2),    // a CCI, which may also be 0
    (0, MOST_TRIGGER),    // a trigger
    (0, MOST_COUNT),      // move rights
    (0, MOST_COUNT),      // permits
    (0, MOST_KEY),        // a key
    (0, u64::MAX),        // any number, which no value is past
];

impl Argument {
    // Refuses a value past this argument's limit. What lies below its range wraps to the top. The ranges are a table, since of an arm for
    // each argument the compiler makes a jump for each value.
    #[inline(always)]
    fn limit(self, value: u64) -> Result<(), Refusal>
        ensures { answer_number result ≡ limit self value }
    {
        let (least, span) = RANGES[self as usize];
        if value.wrapping_sub(least) <= span {
            return Ok(());
        }
        match self {
            Content => Err(Refusal::ContentId),
            Entry => Err(Refusal::EntryNumber),
            Cci if value == 0 => Ok(()),
            _ => Err(Refusal::Facts),
        }
    }
}

// A request's kind, and the values of its arguments in their order with zeros after them. The kind is its number, which
// is what is written and read and what C has; the functions that take one take any number, and an enum of seven would ask more.
#[derive(Clone, Copy)]
pub struct Numbers {
    pub kind: u64,
    pub values: [u64; 9],
}

// No request is longer than a move out of an entry number of two bytes and five numbers of ten.
const LONGEST: usize = 53;

// The arguments of each kind, from kind 0 on, which has none.
static SCHEMAS: [&[Argument]; 8] = [
    &[],
    &[Content, Cci, Trigger, Rights, Permits, Key, Key],
    &[Content, Entry, Cci, Trigger, Rights, Permits, Key, Key, Any],
    &[Content, Entry],
    &[Entry, Any],
    &[Entry, Any, Any, Any, Any, Any],
    &[Content, Entry, Any],
    &[Entry, Any, Any, Any, Any],
];

// The arguments of a kind. They are taken from a table, since of an arm for each kind the compiler makes a jump, and seven copies of each
// loop over the arguments.
#[tactic(auto, unfolding(crate::specs::Request::schema))]
fn schema(kind: u64) -> &'static [Argument]
    ensures { result.now ≡ schema kind }
{
    match kind {
        1..=7 => SCHEMAS[kind as usize],
        _ => &[],
    }
}

// Refuses a kind that is not 1 to 7.
pub fn kind_limit(kind: u64) -> Result<(), Refusal>
    ensures { answer_number result ≡ kind_limit kind }
{
    if (1..=7).contains(&kind) {
        Ok(())
    } else {
        Err(Refusal::Kind)
    }
}

// The values of register, with zeros after them.
fn register_values(content: ContentId, facts: Facts) -> [u64; 9]
    ensures { result ≡ content.0 ∷ (fact_values facts ++ (0 ∷ 0 ∷ [])) }
{
    [
        content.0,
        facts.cci,
        facts.trigger,
        facts.rights,
        facts.permits,
        facts.title_key,
        facts.sti_key,
        0,
        0,
    ]
}

// The values of record, which are nine.
fn record_values(content: ContentId, entry: EntryNumber, facts: Facts, hash: u64) -> [u64; 9]
    ensures { result ≡ content.0 ∷ entry.0 ∷ (fact_values facts ++ (hash ∷ [])) }
{
    [
        content.0,
        entry.0,
        facts.cci,
        facts.trigger,
        facts.rights,
        facts.permits,
        facts.title_key,
        facts.sti_key,
        hash,
    ]
}

// A request as numbers.
#[tactic(auto, unfolding(crate::specs::Values::filled))]
pub fn numbers_of(request: Request) -> Numbers
    ensures { Holds request result.kind result.values }
{
    let (kind, values) = match request {
        Request::Register { content, facts } => (1, register_values(content, facts)),
        Request::Record {
            content,
            entry,
            facts,
            hash,
        } => (2, record_values(content, entry, facts, hash)),
        Request::CheckOut { content, entry } => (3, [content.0, entry.0, 0, 0, 0, 0, 0, 0, 0]),
        Request::CheckIn { entry, f1 } => (4, [entry.0, f1, 0, 0, 0, 0, 0, 0, 0]),
        Request::MoveOut {
            entry,
            hash,
            fillers: f,
        } => (5, [entry.0, hash, f.f1, f.f2, f.f3, f.f4, 0, 0, 0]),
        Request::MoveIn {
            content,
            entry,
            hash,
        } => (6, [content.0, entry.0, hash, 0, 0, 0, 0, 0, 0]),
        Request::Delete { entry, fillers: f } => (7, [entry.0, f.f1, f.f2, f.f3, f.f4, 0, 0, 0, 0]),
    };
    Numbers { kind, values }
}

// The facts that stand in values from place `i` on. A pattern that takes part of an array, `[content, facts @ .., hash]`, gets no
// proof, so the places are counted here.
fn facts_from(v: [u64; 9], i: usize) -> Facts
    requires { i ≤ 3 }
    ensures { result ≡ facts_from v i }
{
    Facts {
        cci: v[i],
        trigger: v[i + 1],
        rights: v[i + 2],
        permits: v[i + 3],
        title_key: v[i + 4],
        sti_key: v[i + 5],
    }
}

fn fillers_from(v: [u64; 9], i: usize) -> Fillers
    requires { i ≤ 5 }
    ensures { result ≡ fillers_from v i }
{
    Fillers {
        f1: v[i],
        f2: v[i + 1],
        f3: v[i + 2],
        f4: v[i + 3],
    }
}

// The request of a kind from 1 to 7 with these values, of which it takes as many as the kind has arguments. Their limits are
// not tested here.
#[tactic(auto, unfolding(crate::specs::Request::request_of))]
pub fn request_of(kind: u64, v: [u64; 9]) -> Request
    ensures { result ≡ request_of kind v }
{
    match kind {
        1 => Request::Register {
            content: ContentId(v[0]),
            facts: facts_from(v, 1),
        },
        2 => Request::Record {
            content: ContentId(v[0]),
            entry: EntryNumber(v[1]),
            facts: facts_from(v, 2),
            hash: v[8],
        },
        3 => Request::CheckOut {
            content: ContentId(v[0]),
            entry: EntryNumber(v[1]),
        },
        4 => Request::CheckIn {
            entry: EntryNumber(v[0]),
            f1: v[1],
        },
        5 => Request::MoveOut {
            entry: EntryNumber(v[0]),
            hash: v[1],
            fillers: fillers_from(v, 2),
        },
        6 => Request::MoveIn {
            content: ContentId(v[0]),
            entry: EntryNumber(v[1]),
            hash: v[2],
        },
        _ => Request::Delete {
            entry: EntryNumber(v[0]),
            fillers: fillers_from(v, 1),
        },
    }
}

// The number of a request's kind, of which a stream is noted. `numbers_of` has it too: a conversion of both would be the same seven arms.
pub fn kind(request: Request) -> u64
    ensures { result ≡ kind_of request }
{
    match request {
        Request::Register { .. } => 1,
        Request::Record { .. } => 2,
        Request::CheckOut { .. } => 3,
        Request::CheckIn { .. } => 4,
        Request::MoveOut { .. } => 5,
        Request::MoveIn { .. } => 6,
        Request::Delete { .. } => 7,
    }
}

// Reads the request at the front of `s` into the places for its kind and its values, and answers the count of its bytes. Each number is
// tested for its own limit before the next is read, and a refusal leaves the places as they were.
pub fn read_numbers(s: &[u8], kind: &mut u64, values: &mut [u64; 9]) -> Result<usize, Refusal>
    ensures answer { answer_of count_values result ≡ length_answer (read_request s.now) }
    ensures kind_told { kind.new ≡ kind_after (read_request s.now) kind.old }
    ensures values_told { values.new ≡ values_after (read_request s.now) values.old }
{
    let first = number::read(s)?;
    kind_limit(first.value)?;
    let mut found = [0; 9];
    let mut used = first.len;
    for (i, argument) in schema(first.value).iter().enumerate() {
        let next = number::read(&s[used..])?;
        argument.limit(next.value)?;
        found[i] = next.value;
        used += next.len;
    }
    *kind = first.value;
    *values = found;
    Ok(used)
}

// The request at the front of `s`.
pub fn read(s: &[u8]) -> Result<Read<Request>, Refusal>
    ensures { answer_of request_values result ≡ request_answer (read_request s.now) }
{
    let mut kind = 0;
    let mut values = [0; 9];
    let n = read_numbers(s, &mut kind, &mut values)?;
    Ok(Read {
        value: request_of(kind, values),
        len: n,
    })
}

// The unread remainder of `s` after what was read at its front, as part of the caller's own bytes: all of `s` on a refusal.
pub fn remainder(s: &[u8], found: Result<Read<Request>, Refusal>) -> &[u8]
    ensures { result.now ≡ remainder_of s.now (reading_of found) }
{
    match found {
        Ok(read) => s.get(read.len..).unwrap_or(&s[s.len()..]),
        Err(_) => s,
    }
}

// Refuses values of which one is past its argument's limit, with the number of the first: 4 to 6.
fn first_limit(kind: u64, values: &[u64; 9]) -> Result<(), Refusal>
    ensures { answer_number result ≡ first_limit (schema kind) values.now }
{
    for (argument, value) in schema(kind).iter().zip(values) {
        argument.limit(*value)?;
    }
    Ok(())
}

// The values of a kind's arguments, without those behind them.
fn arguments(kind: u64, values: &[u64; 9]) -> &[u64]
    ensures { result.now ≡ take (length (schema kind)) values.now }
{
    &values[..schema(kind).len()]
}

// How many bytes a kind and its values are written in.
fn written_len(kind: u64, values: &[u64; 9]) -> usize
    ensures { result ≡ length (written_numbers kind values.now) }
{
    let mut n = number::len(kind);
    for value in arguments(kind, values) {
        n += number::len(*value);
    }
    n
}

// Whether a kind and its values, which are within their limits, fit into so many bytes. Their lengths are summed only where there is less
// room than the longest request takes.
fn fits(kind: u64, values: &[u64; 9], room: usize) -> bool
    requires kind_passes { kind_limit kind ≡ 0 }
    requires values_pass { first_limit (schema kind) values.now ≡ 0 }
    ensures { result ≡ leb (length (written_numbers kind values.now)) room }
{
    LONGEST <= room || written_len(kind, values) <= room
}

// Writes a kind and its values at the front of `out`, where there is room for them, and answers the count of their bytes.
fn store(kind: u64, values: &[u64; 9], out: &mut [u8]) -> usize
    requires { length (written_numbers kind values.now) ≤ length out.old }
    ensures count { result ≡ length (written_numbers kind values.now) }
    ensures bytes { out.new ≡ put out.old 0 (written_numbers kind values.now) }
{
    let mut at = number::store(kind, out, 0);
    for value in arguments(kind, values) {
        at = number::store(*value, out, at);
    }
    at
}

// Writes the request of a kind and its values at the front of `out`; where the kind is not 1 to 7, an argument is past its limit or it
// does not fit, changes nothing and refuses. Answers the count of bytes written.
pub fn write_numbers(kind: u64, values: &[u64; 9], out: &mut [u8]) -> Result<usize, Refusal>
    ensures answer { answer_of count_values result ≡ written_answer (writing_numbers kind values.now out.old) }
    ensures bytes { out.new ≡ numbers_written_to kind values.now out.old }
{
    kind_limit(kind)?;
    first_limit(kind, values)?;
    if !fits(kind, values, out.len()) {
        return Err(Refusal::TooShort);
    }
    Ok(store(kind, values, out))
}

// Refuses a request of which an argument is past its limit, with the number of the first: 4 to 6. Its kind is one of the seven.
pub fn limit(request: Request) -> Result<(), Refusal>
    ensures { answer_number result ≡ limit_of request }
{
    let numbers = numbers_of(request);
    first_limit(numbers.kind, &numbers.values)
}

// How many bytes a request is written in.
pub fn len(request: Request) -> usize
    ensures { result ≡ length (written request) }
{
    let numbers = numbers_of(request);
    written_len(numbers.kind, &numbers.values)
}

// Writes a request at the front of `out`; where an argument is past its limit or it does not fit, changes nothing and refuses.
// Answers the count of bytes written.
pub fn write(request: Request, out: &mut [u8]) -> Result<usize, Refusal>
    ensures answer { answer_of count_values result ≡ written_answer (writing_request request out.old) }
    ensures bytes { out.new ≡ request_written_to request out.old }
{
    let numbers = numbers_of(request);
    write_numbers(numbers.kind, &numbers.values, out)
}
