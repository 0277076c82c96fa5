// The refusals of move out: 5, 7 to 13, and 16. Trigger, rights and hash are those of the entry.
ghost use Rattle.std.specs.Prelude.{◌≡◌};
ghost use Rattle.formats.specs.Refusal.{answer_number};
ghost use Rattle.requests.specs.declared.request.Request.TheVariants.{MoveOut};
ghost use Rattle.calls.specs.Refusal.{first};
ghost use Rattle.calls.specs.Conditions.{state_conditions};
ghost use Rattle.calls.specs.Perform.{refusal};
ghost use Rattle.tables.specs.Shop.{lent};

use formats::entry::EntryKind;
use formats::facts::{EntryNumber, Fillers};
use formats::head::Pair;
use formats::refusal::Refusal;
use formats::row::RowState;
use tables::ledger;
use tables::shop::Shop;

// Both halves are looked at before either test for 16: one after the other, the compiler carries the answer as a flag and a number.
#[tactic(auto, unfolding(calls::specs::Refusal::first, formats::specs::Entry::entry_facts))]
fn state(
    pair: Pair,
    shop: Shop,
    entry: EntryNumber,
    hash: u64,
    fillers: Fillers,
) -> Result<(), Refusal>
    ensures { answer_number result ≡ first (state_conditions pair (MoveOut entry hash fillers) (lent shop.entry)) }
{
    match shop.card.kind(entry) {
        EntryKind::Full => {}
        EntryKind::Free | EntryKind::Copy | EntryKind::Torn | EntryKind::Spent => {
            return Err(Refusal::KindOfEntry);
        }
    }
    let RowState::Away = ledger::state(shop.ledger, shop.card.content(entry)) else {
        return Err(Refusal::StateOfRow);
    };
    if shop.card.may_not_move(entry) {
        return Err(Refusal::NothingLeft);
    }
    if hash != shop.card.hash(entry) {
        return Err(Refusal::Hash);
    }
    let leaves_rule_key = shop.card.refuses_f2(pair, entry, fillers.f2);
    if shop.card.leaves_title_key(entry, fillers.f1) || leaves_rule_key {
        return Err(Refusal::Filler);
    }
    Ok(())
}

pub fn refusal(
    pair: Pair,
    shop: Shop,
    entry: EntryNumber,
    hash: u64,
    fillers: Fillers,
) -> Result<(), Refusal>
    ensures { answer_number result ≡ refusal pair (MoveOut entry hash fillers) (lent shop.entry) }
{
    crate::before_entry(pair, shop, entry)?;
    state(pair, shop, entry, hash, fillers)
}
