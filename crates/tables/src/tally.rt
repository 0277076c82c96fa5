// The tally: how many copies of a title are on a card.
ghost use Rattle.std.specs.Prelude.{◌≡◌, [], ◌∷◌};
ghost use Rattle.formats.specs.Refusal.{answer_number, answer_of};
ghost use Rattle.calls.specs.Refusal.{first};
ghost use Rattle.tables.specs.Tally.{tally_conditions, tallied};

use crate::card::Card;
use crate::copies;
use formats::facts;
use formats::facts::ContentId;
use formats::head::Pair;
use formats::refusal::Refusal;

#[tactic(auto, unfolding(calls::specs::Refusal::first))]
fn check(pair: Pair, card: Card, content: ContentId) -> Result<(), Refusal>
    ensures { answer_number result ≡ first (tally_conditions pair card.entry.titles.now card.entry.rules.now content.0) }
{
    if !facts::is_numbered(content.0) {
        return Err(Refusal::ContentId);
    }
    card.check_heads(pair)
}

// The number of copies, or the refusal, 4, 8 or 9.
pub fn tally(pair: Pair, card: Card, content: ContentId) -> Result<u64, Refusal>
    ensures { answer_of (λ n. n ∷ []) result ≡ tallied pair card.entry.titles.now card.entry.rules.now content.0 }
{
    check(pair, card, content)?;
    Ok(copies::count(card, content))
}
