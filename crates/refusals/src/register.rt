// The refusals of register: 4, 6, 7 and 11. It is lent the ledger only.
ghost use Rattle.std.specs.Prelude.{◌≡◌};
ghost use Rattle.formats.specs.Refusal.{answer_number};
ghost use Rattle.requests.specs.declared.request.Request.TheVariants.{Register};
ghost use Rattle.calls.specs.Refusal.{first};
ghost use Rattle.calls.specs.Conditions.{argument_conditions};
ghost use Rattle.refusals.specs.Ledger.{RefusedByLedger};

use formats::facts::{ContentId, Facts};
use formats::refusal::Refusal;
use formats::row::RowState;
use formats::{facts, head};
use tables::ledger;

#[tactic(auto, unfolding(calls::specs::Refusal::first))]
fn arguments(content: ContentId, facts: Facts) -> Result<(), Refusal>
    ensures { answer_number result ≡ first (argument_conditions (Register content facts)) }
{
    if !facts::is_numbered(content.0) {
        return Err(Refusal::ContentId);
    }
    if !facts::are_facts(facts) {
        return Err(Refusal::Facts);
    }
    Ok(())
}

pub fn refusal(ledger: &[u8], content: ContentId, facts: Facts) -> Result<(), Refusal>
    ensures { RefusedByLedger (Register content facts) ledger.now (answer_number result) }
{
    arguments(content, facts)?;
    head::check_ledger(ledger)?;
    let RowState::Empty = ledger::state(ledger, content) else {
        return Err(Refusal::StateOfRow);
    };
    Ok(())
}
