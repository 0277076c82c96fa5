// 1 register: an empty row becomes here with the facts.
ghost use Rattle.formats.specs.Refusal.{answer_number};
ghost use Rattle.requests.specs.declared.request.Request.TheVariants.{Register};
ghost use Rattle.music_counter.specs.Answer.{AnswersByLedger};

use formats::facts::{ContentId, Facts};
use formats::refusal::Refusal;

// Done, or refused with 4, 6, 7 or 11 and nothing changed.
pub fn register(ledger: &mut [u8], content: ContentId, facts: Facts) -> Result<(), Refusal>
    ensures { AnswersByLedger (Register content facts) ledger.old (answer_number result) ledger.new }
{
    refusals::register::refusal(ledger, content, facts)?;
    crate::set_here(ledger, content, facts);
    Ok(())
}
