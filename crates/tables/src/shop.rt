// What a call reads: a shop's ledger, and a card.
ghost use Rattle.std.specs.Prelude.{◌≡◌};
ghost use Rattle.formats.specs.Refusal.{answer_number};
ghost use Rattle.calls.specs.Buffers.{buffers_of};
ghost use Rattle.calls.specs.Refusal.{first};
ghost use Rattle.calls.specs.Conditions.{all_head_conditions};
ghost use Rattle.tables.specs.Shop.{lent};

use crate::card::Card;
use formats::head;
use formats::head::Pair;
use formats::refusal::Refusal;

#[derive(Clone, Copy)]
pub struct Shop<'a> {
    pub ledger: &'a [u8],
    pub card: Card<'a>,
}

impl<'a> Shop<'a> {
    pub fn new(ledger: &'a [u8], titles: &'a [u8], rules: &'a [u8]) -> Shop<'a>
        ensures { lent result ≡ buffers_of ledger.now titles.now rules.now }
    {
        Shop {
            ledger,
            card: Card { titles, rules },
        }
    }

    // Done where the heads of all three buffers are right, which every call but register tests before it looks further.
    pub fn check_heads(self, pair: Pair) -> Result<(), Refusal>
        ensures { answer_number result ≡ first (all_head_conditions pair (lent self.entry)) }
    {
        head::check_ledger(self.ledger)?;
        head::check_titles(pair, self.card.titles)?;
        head::check_rules_for(pair, self.card.rules, head::ledger_application(self.ledger))
    }
}
