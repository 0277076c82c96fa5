// Inspection: what stands on a card and in a ledger, told and not changed. Each function checks as a call does, in the order of the
// numbers, and then tells.
#![tactic(auto)]

ghost use Rattle.std.specs.Prelude.{◌≡◌, ◌≤◌, [], ◌∷◌};
ghost use Rattle.formats.specs.Refusal.{answer_number, answer_of};
ghost use Rattle.calls.specs.Buffers.{state_in, is_here, one};
ghost use Rattle.calls.specs.Refusal.{first};
ghost use Rattle.tables.specs.Shop.{lent};
ghost use Rattle.inspection.specs.Inspect.{entry_told, entry_values, state_told, title_told, title_values, row_condition, entry_conditions, row_conditions, title_conditions, entry_inspected, row_inspected, title_inspected, first_vacant, first_vacant_told};

use formats::entry::{Entry, EntryKind};
use formats::facts::{ContentId, EntryNumber, Facts};
use formats::head::Pair;
use formats::refusal::Refusal;
use formats::row::RowState;
use formats::{facts, half, head, title};
use tables::card::Card;
use tables::shop::Shop;
use tables::{copies, ledger};

// What an entry is, and what it holds.
#[derive(Clone, Copy)]
pub enum EntryContents {
    Free,
    // A copy's permits and rights are its row's, and its rule half is not usable.
    Copy {
        content: ContentId,
        cci: u64,
        title_key: u64,
    },
    Full {
        content: ContentId,
        facts: Facts,
    },
    // Whichever ID was told would be a guess.
    Torn,
    // The title that was there.
    Spent {
        content: ContentId,
    },
}

// How many holders a title has, over its row and the card, and how many copies.
#[derive(Clone, Copy)]
pub struct TitleCounts {
    pub holders: u64,
    pub copies: u64,
}

// AN ENTRY

#[tactic(auto, unfolding(calls::specs::Refusal::first))]
fn check_entry(pair: Pair, card: Card, entry: EntryNumber) -> Result<(), Refusal>
    ensures { answer_number result ≡ first (entry_conditions pair card.entry.titles.now card.entry.rules.now entry.0) }
{
    if !facts::is_numbered(entry.0) {
        return Err(Refusal::EntryNumber);
    }
    card.check_heads(pair)
}

#[tactic(auto, unfolding(crate::specs::Inspect::entry_told, formats::specs::Entry::entry_facts))]
fn contents(entry: Entry) -> EntryContents
    ensures { entry_values result ≡ entry_told entry.entry.title.now entry.entry.rule.now }
{
    match entry.kind_in_turn() {
        EntryKind::Free => EntryContents::Free,
        EntryKind::Copy => EntryContents::Copy {
            content: half::content_id(entry.title),
            cci: title::cci(entry.title),
            title_key: half::key(entry.title),
        },
        EntryKind::Full => EntryContents::Full {
            content: half::content_id(entry.title),
            facts: entry.facts(),
        },
        EntryKind::Torn => EntryContents::Torn,
        EntryKind::Spent => EntryContents::Spent {
            content: half::content_id(entry.title),
        },
    }
}

// What an entry is and holds, or the refusal, 5, 8 or 9.
pub fn entry(pair: Pair, card: Card, entry: EntryNumber) -> Result<EntryContents, Refusal>
    ensures { answer_of entry_values result ≡ entry_inspected pair card.entry.titles.now card.entry.rules.now entry.0 }
{
    check_entry(pair, card, entry)?;
    Ok(contents(card.entry(entry)))
}

// A ROW

#[tactic(auto, unfolding(calls::specs::Refusal::first))]
fn check_has_row(ledger: &[u8], content: ContentId) -> Result<(), Refusal>
    ensures { answer_number result ≡ first (row_condition ledger.now content.0 ∷ []) }
{
    if head::rows(ledger) < content.0 {
        Err(Refusal::StateOfRow)
    } else {
        Ok(())
    }
}

#[tactic(auto, unfolding(calls::specs::Refusal::first))]
fn check_row(ledger: &[u8], content: ContentId) -> Result<(), Refusal>
    ensures { answer_number result ≡ first (row_conditions ledger.now content.0) }
{
    if !facts::is_numbered(content.0) {
        return Err(Refusal::ContentId);
    }
    head::check_ledger(ledger)?;
    check_has_row(ledger, content)
}

// The state of a row, with the facts of one that is here, or the refusal, 4, 7 or 11.
pub fn row(ledger: &[u8], content: ContentId) -> Result<RowState, Refusal>
    ensures { answer_of state_told result ≡ row_inspected ledger.now content.0 }
{
    check_row(ledger, content)?;
    Ok(ledger::state(ledger, content))
}

// A TITLE

#[tactic(auto, unfolding(calls::specs::Refusal::first))]
fn check_title(pair: Pair, shop: Shop, content: ContentId) -> Result<(), Refusal>
    ensures { answer_number result ≡ first (title_conditions pair (lent shop.entry) content.0) }
{
    if !facts::is_numbered(content.0) {
        return Err(Refusal::ContentId);
    }
    shop.check_heads(pair)?;
    check_has_row(shop.ledger, content)
}

// 1 where the row is a holder, else 0.
fn holders_in_row(ledger: &[u8], content: ContentId) -> u64
    ensures { result ≡ one (is_here (state_in ledger.now content.0)) }
{
    let here = matches!(ledger::state(ledger, content), RowState::Here(_));
    u64::from(here)
}

fn counts(shop: Shop, content: ContentId) -> TitleCounts
    ensures { title_values result ≡ title_told (lent shop.entry) content.0 }
{
    let found = copies::with_title(shop.card, content);
    TitleCounts {
        holders: holders_in_row(shop.ledger, content) + found.full,
        copies: found.copies,
    }
}

// How many holders and copies a title has, or the refusal, 4, 7, 8, 9 or 11.
pub fn title(pair: Pair, shop: Shop, content: ContentId) -> Result<TitleCounts, Refusal>
    ensures { answer_of title_values result ≡ title_inspected pair (lent shop.entry) content.0 }
{
    check_title(pair, shop, content)?;
    Ok(counts(shop, content))
}

// THE FIRST VACANT ENTRY

// The number of the first entry from this one on that is free or spent; 0 where there is none.
fn search_vacant(card: Card, from: EntryNumber) -> u64
    requires { 1 ≤ from.0 }
    ensures { result ≡ first_vacant from.0 card.entry.titles.now card.entry.rules.now }
{
    for j in from.0..=facts::LAST_NUMBER {
        if card.entry(EntryNumber(j)).is_vacant_in_turn() {
            return j;
        }
    }
    0
}

// The same, or the refusal, 5, 8 or 9.
pub fn first_vacant(pair: Pair, card: Card, from: EntryNumber) -> Result<u64, Refusal>
    ensures { answer_of (λ j. j ∷ []) result ≡ first_vacant_told pair card.entry.titles.now card.entry.rules.now from.0 }
{
    check_entry(pair, card, from)?;
    Ok(search_vacant(card, from))
}
