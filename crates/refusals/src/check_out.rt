// The refusals of check-out: 4, 5, 7 to 12.
ghost use Rattle.std.specs.Prelude.{◌≡◌};
ghost use Rattle.formats.specs.Refusal.{answer_number};
ghost use Rattle.formats.specs.declared.head.Pair.{Pair};
ghost use Rattle.requests.specs.declared.request.Request.TheVariants.{CheckOut};
ghost use Rattle.calls.specs.Refusal.{first};
ghost use Rattle.calls.specs.Conditions.{state_conditions};
ghost use Rattle.calls.specs.Perform.{refusal};
ghost use Rattle.tables.specs.Shop.{lent};

use formats::facts::{ContentId, EntryNumber};
use formats::head::Pair;
use formats::refusal::Refusal;
use formats::row::RowState;
use tables::ledger;
use tables::shop::Shop;

#[tactic(auto, unfolding(calls::specs::Refusal::first))]
fn state(shop: Shop, content: ContentId, entry: EntryNumber) -> Result<(), Refusal>
    ensures { (pair : Pair) → answer_number result ≡ first (state_conditions pair (CheckOut content entry) (lent shop.entry)) }
{
    if !shop.card.is_vacant(entry) {
        return Err(Refusal::KindOfEntry);
    }
    let RowState::Here(facts) = ledger::state(shop.ledger, content) else {
        return Err(Refusal::StateOfRow);
    };
    if facts.permits == 0 {
        return Err(Refusal::NothingLeft);
    }
    Ok(())
}

pub fn refusal(
    pair: Pair,
    shop: Shop,
    content: ContentId,
    entry: EntryNumber,
) -> Result<(), Refusal>
    ensures { answer_number result ≡ refusal pair (CheckOut content entry) (lent shop.entry) }
{
    crate::before_both(pair, shop, content, entry)?;
    state(shop, content, entry)
}
