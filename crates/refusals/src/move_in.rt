// The refusals of move in: 4, 5, 7 to 12, and 14. Trigger and rights are those of the row; the hash is not tested. Beside its answer a
// move in reports how many entries the check for copies read.
ghost use Rattle.std.specs.Prelude.{◌≡◌, ℕ};
ghost use Rattle.formats.specs.Refusal.{answer_number};
ghost use Rattle.formats.specs.declared.head.Pair.{Pair};
ghost use Rattle.requests.specs.declared.request.Request.TheVariants.{MoveIn};
ghost use Rattle.calls.specs.Refusal.{first, tested_before};
ghost use Rattle.calls.specs.Conditions.{state_conditions, conditions};
ghost use Rattle.calls.specs.Perform.{refusal};
ghost use Rattle.calls.specs.Report.{move_in_report};
ghost use Rattle.tables.specs.Shop.{lent};

use calls::count;
use formats::facts::{ContentId, EntryNumber};
use formats::head::Pair;
use formats::refusal::Refusal;
use formats::row::RowState;
use tables::shop::Shop;
use tables::{copies, ledger};

// What a move in answers, and how many entries its check for copies read: 0 where an earlier check refuses.
#[derive(Clone, Copy)]
pub struct Reported {
    pub answer: Result<(), Refusal>,
    pub entries_read: u64,
}

// 10, 11 and 12.
#[tactic(auto, unfolding(calls::specs::Refusal::first))]
fn state(shop: Shop, content: ContentId, entry: EntryNumber) -> Result<(), Refusal>
    ensures { (pair : Pair) (hash : ℕ) → answer_number result
        ≡ first (tested_before 14 (state_conditions pair (MoveIn content entry hash) (lent shop.entry))) }
{
    if !shop.card.is_vacant(entry) {
        return Err(Refusal::KindOfEntry);
    }
    let RowState::Here(facts) = ledger::state(shop.ledger, content) else {
        return Err(Refusal::StateOfRow);
    };
    if count::may_not_move(facts.trigger, facts.rights) {
        return Err(Refusal::NothingLeft);
    }
    Ok(())
}

// What is tested before the card is searched for a copy.
fn before_search(
    pair: Pair,
    shop: Shop,
    content: ContentId,
    entry: EntryNumber,
) -> Result<(), Refusal>
    ensures { (hash : ℕ) → answer_number result
        ≡ first (tested_before 14 (conditions pair (MoveIn content entry hash) (lent shop.entry))) }
{
    crate::before_both(pair, shop, content, entry)?;
    state(shop, content, entry)
}

// The card is searched last, where nothing else refuses.
pub fn refusal(pair: Pair, shop: Shop, content: ContentId, entry: EntryNumber) -> Reported
    ensures answer { (hash : ℕ) → answer_number result.answer
        ≡ refusal pair (MoveIn content entry hash) (lent shop.entry) }
    ensures report { (hash : ℕ) → result.entries_read
        ≡ move_in_report pair content entry hash (lent shop.entry) }
{
    if let Err(earlier) = before_search(pair, shop, content, entry) {
        return Reported {
            answer: Err(earlier),
            entries_read: 0,
        };
    }
    let search = copies::find(shop.card, content);
    let answer = if search.found {
        Err(Refusal::CopyOut)
    } else {
        Ok(())
    };
    Reported {
        answer,
        entries_read: search.read,
    }
}
