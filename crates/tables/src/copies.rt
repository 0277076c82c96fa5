// The copies of a title on a card, and the full entries with it.
ghost use Rattle.std.specs.Prelude.{◌≡◌, not, ◌+◌, ◌*◌, ◌≤◌, eqb, length};
ghost use Rattle.formats.specs.Half.{flagged_with};
ghost use Rattle.calls.specs.Buffers.{title_at, copy_of, full_with, copies, full_entries, one, entries_searched};
ghost use Rattle.tables.specs.Copies.{copy_at, full_at, may_hold, in_three, first_of_three};

use crate::card::Card;
use formats::entry::Entry;
use formats::facts::{ContentId, EntryNumber};
use formats::{half, title};

// Whether an entry is a copy of a title. Flag and ID are tested first, since few entries of a card have them.
pub fn is_copy_of(entry: Entry, content: ContentId) -> bool
    ensures { result ≡ copy_of content.0 entry.entry.title.now entry.entry.rule.now }
{
    half::is_flagged(entry.title, content)
        && title::cci(entry.title) != 1
        && !half::usable(entry.rule)
}

fn is_copy_at(card: Card, entry: EntryNumber, content: ContentId) -> bool
    ensures { result ≡ copy_at content.0 card.entry.titles.now card.entry.rules.now entry.0 }
{
    is_copy_of(card.entry(entry), content)
}

fn is_flagged_at(titles: &[u8], j: u64, content: ContentId) -> bool
    requires { 16 * j + 16 ≤ length titles.now }
    ensures { result ≡ flagged_with content.0 (title_at titles.now j) }
{
    let a = 16 * (j as usize);
    half::is_flagged(&titles[a..a + 16], content)
}

// Whether any of three entries from entry j on may be a copy of a title or full with it: in a table of the right length, by flag and ID.
#[tactic(auto, unfolding(crate::specs::Copies::may_hold))]
fn may_hold(titles: &[u8], j: u64, content: ContentId) -> bool
    requires { j ≤ 997 }
    ensures { result ≡ may_hold content.0 titles.now j }
{
    titles.len() != 16000
        || is_flagged_at(titles, j, content)
        || is_flagged_at(titles, j + 1, content)
        || is_flagged_at(titles, j + 2, content)
}

// How many of three entries from entry j on are copies of a title.
#[tactic(auto, unfolding(crate::specs::Copies::in_three))]
fn in_three(card: Card, j: u64, content: ContentId) -> u64
    requires { j ≤ 997 }
    ensures { result ≡ in_three (copy_at content.0 card.entry.titles.now card.entry.rules.now) j }
{
    one(is_copy_at(card, EntryNumber(j), content))
        + one(is_copy_at(card, EntryNumber(j + 1), content))
        + one(is_copy_at(card, EntryNumber(j + 2), content))
}

// How many entries are copies of a title. Three are looked at together.
pub fn count(card: Card, content: ContentId) -> u64
    ensures { result ≡ copies content.0 card.entry.titles.now card.entry.rules.now }
{
    let mut n: u64 = 0;
    for k in 0..333 {
        let j = 3 * k + 1;
        if may_hold(card.titles, j, content) {
            n += in_three(card, j, content);
        }
    }
    n
}

// What a card has of a title: how many entries are full with it, and how many are copies of it.
#[derive(Clone, Copy)]
pub struct WithTitle {
    pub full: u64,
    pub copies: u64,
}

fn one(holds: bool) -> u64
    ensures { result ≡ one holds }
{
    u64::from(holds)
}

// What an entry has of a title: with flag and ID in its title half, and a CCI that is not reserved, it goes by the rule half.
fn title_in(entry: Entry, content: ContentId) -> WithTitle
    ensures full { result.full ≡ one (full_with content.0 entry.entry.title.now entry.entry.rule.now) }
    ensures copies { result.copies ≡ one (copy_of content.0 entry.entry.title.now entry.entry.rule.now) }
{
    if !half::is_flagged(entry.title, content) || title::cci(entry.title) == 1 {
        return WithTitle { full: 0, copies: 0 };
    }
    WithTitle {
        full: one(half::is_flagged(entry.rule, content)),
        copies: one(!half::usable(entry.rule)),
    }
}

fn title_at(card: Card, j: u64, content: ContentId) -> WithTitle
    ensures full { result.full ≡ one (full_at content.0 card.entry.titles.now card.entry.rules.now j) }
    ensures copies { result.copies ≡ one (copy_at content.0 card.entry.titles.now card.entry.rules.now j) }
{
    title_in(card.entry(EntryNumber(j)), content)
}

// What three entries from entry j on have of a title.
#[tactic(auto, unfolding(crate::specs::Copies::in_three))]
fn with_title_in_three(card: Card, j: u64, content: ContentId) -> WithTitle
    requires { j ≤ 997 }
    ensures full { result.full ≡ in_three (full_at content.0 card.entry.titles.now card.entry.rules.now) j }
    ensures copies { result.copies ≡ in_three (copy_at content.0 card.entry.titles.now card.entry.rules.now) j }
{
    let first = title_at(card, j, content);
    let second = title_at(card, j + 1, content);
    let third = title_at(card, j + 2, content);
    WithTitle {
        full: first.full + second.full + third.full,
        copies: first.copies + second.copies + third.copies,
    }
}

// What the whole card has of a title, in one pass like that of `count`.
pub fn with_title(card: Card, content: ContentId) -> WithTitle
    ensures full { result.full ≡ full_entries content.0 card.entry.titles.now card.entry.rules.now }
    ensures copies { result.copies ≡ copies content.0 card.entry.titles.now card.entry.rules.now }
{
    let mut found = WithTitle { full: 0, copies: 0 };
    for k in 0..333 {
        let j = 3 * k + 1;
        if may_hold(card.titles, j, content) {
            let three = with_title_in_three(card, j, content);
            found.full += three.full;
            found.copies += three.copies;
        }
    }
    found
}

// How many bytes the title halves of the three entries behind entry n have up to the end of the first that is a copy's; 0 where none is.
// It has no part of `in_three`, so that the compiler puts each into its one caller: with `in_three` for both, put into both, a move in
// takes 565 ns where it takes 325.
fn bytes_to_copy(card: Card, n: u64, content: ContentId) -> u64
    requires { n ≤ 996 }
    ensures { result ≡ 16 * first_of_three content.0 card.entry.titles.now card.entry.rules.now n }
{
    if is_copy_at(card, EntryNumber(n + 1), content) {
        16
    } else if is_copy_at(card, EntryNumber(n + 2), content) {
        32
    } else if is_copy_at(card, EntryNumber(n + 3), content) {
        48
    } else {
        0
    }
}

// What a search for a copy of a title came to: whether there is one, and how many entries it read.
#[derive(Clone, Copy)]
pub struct Search {
    pub found: bool,
    pub read: u64,
}

// Searches a card, from entry 1 on, for a copy of a title. It stops at the first. What it read is found from the bytes that it read,
// since by these the loop counts: with a count of entries beside them a move in takes 353 ns where it takes 326.
pub fn find(card: Card, content: ContentId) -> Search
    ensures found { result.found ≡ not (eqb (copies content.0 card.entry.titles.now card.entry.rules.now) 0) }
    ensures read { result.read ≡ entries_searched content.0 card.entry.titles.now card.entry.rules.now }
    ensures at_most_999 { result.read ≤ 999 }
{
    for k in 0..333 {
        if may_hold(card.titles, 3 * k + 1, content) {
            let bytes = bytes_to_copy(card, 3 * k, content);
            if bytes != 0 {
                return Search {
                    found: true,
                    read: (48 * k + bytes) / 16,
                };
            }
        }
    }
    Search {
        found: false,
        read: 999,
    }
}
