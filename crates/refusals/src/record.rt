// The refusals of record: 4 to 11. The hash is not tested.
ghost use Rattle.std.specs.Prelude.{◌≡◌, ℕ};
ghost use Rattle.formats.specs.Refusal.{answer_number};
ghost use Rattle.formats.specs.declared.facts.Facts.{Facts};
ghost use Rattle.formats.specs.declared.head.Pair.{Pair};
ghost use Rattle.requests.specs.declared.request.Request.TheVariants.{Record};
ghost use Rattle.calls.specs.Refusal.{first};
ghost use Rattle.calls.specs.Conditions.{argument_conditions, state_conditions};
ghost use Rattle.calls.specs.Perform.{refusal};
ghost use Rattle.tables.specs.Shop.{lent};

use formats::facts;
use formats::facts::{ContentId, EntryNumber, Facts};
use formats::head::Pair;
use formats::refusal::Refusal;
use formats::row::RowState;
use tables::ledger;
use tables::shop::Shop;

// Register tests two of these three, for conditions of its own: one list of conditions for each call, and one function.
#[tactic(auto, unfolding(calls::specs::Refusal::first))]
fn arguments(content: ContentId, entry: EntryNumber, facts: Facts) -> Result<(), Refusal>
    ensures { (hash : ℕ) → answer_number result ≡ first (argument_conditions (Record content entry facts hash)) }
{
    if !facts::is_numbered(content.0) {
        return Err(Refusal::ContentId);
    }
    if !facts::is_numbered(entry.0) {
        return Err(Refusal::EntryNumber);
    }
    if !facts::are_facts(facts) {
        return Err(Refusal::Facts);
    }
    Ok(())
}

#[tactic(auto, unfolding(calls::specs::Refusal::first))]
fn state(shop: Shop, content: ContentId, entry: EntryNumber) -> Result<(), Refusal>
    ensures { (pair : Pair) (facts : Facts) (hash : ℕ) → answer_number result
        ≡ first (state_conditions pair (Record content entry facts hash) (lent shop.entry)) }
{
    if !shop.card.is_vacant(entry) {
        return Err(Refusal::KindOfEntry);
    }
    let RowState::Empty = ledger::state(shop.ledger, content) else {
        return Err(Refusal::StateOfRow);
    };
    Ok(())
}

pub fn refusal(
    pair: Pair,
    shop: Shop,
    content: ContentId,
    entry: EntryNumber,
    facts: Facts,
) -> Result<(), Refusal>
    ensures { (hash : ℕ) → answer_number result ≡ refusal pair (Record content entry facts hash) (lent shop.entry) }
{
    arguments(content, entry, facts)?;
    shop.check_heads(pair)?;
    state(shop, content, entry)
}
