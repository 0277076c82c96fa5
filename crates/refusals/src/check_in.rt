// The refusals of check-in: 5, 7 to 11, 15 and 16.
ghost use Rattle.std.specs.Prelude.{◌≡◌};
ghost use Rattle.formats.specs.Refusal.{answer_number};
ghost use Rattle.formats.specs.declared.head.Pair.{Pair};
ghost use Rattle.requests.specs.declared.request.Request.TheVariants.{CheckIn};
ghost use Rattle.calls.specs.Refusal.{first};
ghost use Rattle.calls.specs.Conditions.{state_conditions};
ghost use Rattle.calls.specs.Perform.{refusal};
ghost use Rattle.tables.specs.Shop.{lent};

use formats::entry::EntryKind;
use formats::facts::EntryNumber;
use formats::head::Pair;
use formats::refusal::Refusal;
use formats::row::RowState;
use tables::ledger;
use tables::shop::Shop;

#[tactic(auto, unfolding(calls::specs::Refusal::first))]
fn state(shop: Shop, entry: EntryNumber, f1: u64) -> Result<(), Refusal>
    ensures { (pair : Pair) → answer_number result ≡ first (state_conditions pair (CheckIn entry f1) (lent shop.entry)) }
{
    match shop.card.kind(entry) {
        EntryKind::Copy => {}
        EntryKind::Free | EntryKind::Full | EntryKind::Torn | EntryKind::Spent => {
            return Err(Refusal::KindOfEntry);
        }
    }
    let RowState::Here(facts) = ledger::state(shop.ledger, shop.card.content(entry)) else {
        return Err(Refusal::StateOfRow);
    };
    // One more would be 15, which means unlimited.
    if facts.permits == 14 {
        return Err(Refusal::PermitsFull);
    }
    if shop.card.leaves_title_key(entry, f1) {
        return Err(Refusal::Filler);
    }
    Ok(())
}

pub fn refusal(pair: Pair, shop: Shop, entry: EntryNumber, f1: u64) -> Result<(), Refusal>
    ensures { answer_number result ≡ refusal pair (CheckIn entry f1) (lent shop.entry) }
{
    crate::before_entry(pair, shop, entry)?;
    state(shop, entry, f1)
}
