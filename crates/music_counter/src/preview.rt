// Preview: what the requests of a basket would be answered if they were committed now. They are carried out on a copy.
ghost use Rattle.std.specs.Prelude.{◌≡◌, Option, Some, map, length};
ghost use Rattle.formats.specs.Refusal.{answer_number};
ghost use Rattle.requests.specs.declared.request.Request.{Request};
ghost use Rattle.calls.specs.Buffers.{buffers_of};
ghost use Rattle.calls.specs.Preview.{as_long};
ghost use Rattle.tables.specs.Shop.{lent};
ghost use Rattle.music_counter.specs.Preview.{AnswersGiven, AnswersPreview};

use crate::serve;
use formats::head::Pair;
use formats::refusal;
use formats::refusal::Refusal;
use requests::request::Request;
use tables::shop::Shop;

// What a basket holds: something that is given as a request, and is carried out as such. It may turn out to be none.
pub trait Given: Copy {
    ghost given: { Self → Option Request };

    // Carries it out on a card of the pair, and answers the number.
    fn perform(&self, pair: Pair, ledger: &mut [u8], titles: &mut [u8], rules: &mut [u8]) -> u64
        ensures { AnswersGiven pair (given self.now)
            (buffers_of ledger.old titles.old rules.old) result
            (buffers_of ledger.new titles.new rules.new) };
}

impl Given for Request {
    ghost given = { λ request. Some request };

    fn perform(&self, pair: Pair, ledger: &mut [u8], titles: &mut [u8], rules: &mut [u8]) -> u64
        ensures { AnswersGiven pair (Some self.now)
            (buffers_of ledger.old titles.old rules.old) result
            (buffers_of ledger.new titles.new rules.new) }
    {
        refusal::number(serve::perform(pair, ledger, titles, rules, *self))
    }
}

// Whether the scratch buffers are as long as their originals.
fn as_long(shop: Shop, scratch: Shop) -> bool
    ensures { result ≡ as_long (lent shop.entry) (lent scratch.entry) }
{
    scratch.ledger.len() == shop.ledger.len()
        && scratch.card.titles.len() == shop.card.titles.len()
        && scratch.card.rules.len() == shop.card.rules.len()
}

// Writes one buffer over another that is as long. By a loop, of which the compiler makes moves of sixteen bytes: for `copy_from_slice` it
// calls `memmove`, which the archive for C would then need from outside.
fn copy(from: &[u8], to: &mut [u8])
    requires { length to.old ≡ length from.now }
    ensures { to.new ≡ from.now }
{
    for i in 0..to.len() {
        to[i] = from[i];
    }
}

// Done, or refused with 17 or 18 and nothing changed. The buffers that are lent to be written are scratch: their bytes before count for
// nothing. Of the basket, the places from `count` on are not looked at.
pub fn preview<G: Given>(
    pair: Pair,
    shop: Shop,
    ledger: &mut [u8],
    titles: &mut [u8],
    rules: &mut [u8],
    basket: &[G; 16],
    count: u64,
    answers: &mut [u64; 16],
) -> Result<(), Refusal>
    ensures { AnswersPreview pair (map G.given basket.now) count (lent shop.entry)
        (buffers_of ledger.old titles.old rules.old) answers.old
        (answer_number result) (buffers_of ledger.new titles.new rules.new) answers.new }
{
    if count > 16 {
        return Err(Refusal::Basket);
    }
    if !as_long(shop, Shop::new(ledger, titles, rules)) {
        return Err(Refusal::Scratch);
    }
    copy(shop.ledger, ledger);
    copy(shop.card.titles, titles);
    copy(shop.card.rules, rules);
    *answers = [0; 16];
    for i in 0..count as usize {
        answers[i] = basket[i].perform(pair, ledger, titles, rules);
    }
    Ok(())
}
