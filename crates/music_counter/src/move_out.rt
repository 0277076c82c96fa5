// 5 move out: a title goes from its full entry back to the ledger, with one move right less; the entry is wiped.
ghost use Rattle.std.specs.Prelude.{◌≡◌, ℕ};
ghost use Rattle.formats.specs.Refusal.{answer_number};
ghost use Rattle.requests.specs.declared.request.Request.TheVariants.{MoveOut};
ghost use Rattle.calls.specs.Buffers.{buffers_of};
ghost use Rattle.calls.specs.Effect.{effect};
ghost use Rattle.music_counter.specs.Answer.{Answers, Inside};

use calls::count;
use formats::facts::{EntryNumber, Fillers};
use formats::head::Pair;
use formats::refusal::Refusal;
use tables::card::Card;
use tables::shop::Shop;

fn apply(
    ledger: &mut [u8],
    titles: &mut [u8],
    rules: &mut [u8],
    entry: EntryNumber,
    fillers: Fillers,
)
    requires { Inside (MoveOut entry 0 fillers) (buffers_of ledger.old titles.old rules.old) }
    ensures { (hash : ℕ) → buffers_of ledger.new titles.new rules.new
        ≡ effect (MoveOut entry hash fillers) (buffers_of ledger.old titles.old rules.old) }
{
    let card = Card { titles, rules };
    let content = card.content(entry);
    let facts = count::after_move(card.facts(entry));
    crate::set_here(ledger, content, facts);
    crate::wipe_title(titles, entry, fillers.f1);
    crate::wipe_rule(rules, entry, fillers);
}

// Done, or refused with 5, 7, 8, 9, 10, 11, 12, 13 or 16 and nothing changed.
pub fn move_out(
    pair: Pair,
    ledger: &mut [u8],
    titles: &mut [u8],
    rules: &mut [u8],
    entry: EntryNumber,
    hash: u64,
    fillers: Fillers,
) -> Result<(), Refusal>
    ensures { Answers pair (MoveOut entry hash fillers)
        (buffers_of ledger.old titles.old rules.old) (answer_number result)
        (buffers_of ledger.new titles.new rules.new) }
{
    let shop = Shop::new(ledger, titles, rules);
    refusals::move_out::refusal(pair, shop, entry, hash, fillers)?;
    apply(ledger, titles, rules, entry, fillers);
    Ok(())
}
