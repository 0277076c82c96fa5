// 4 check-in: a loan copy is wiped, and its title has its permit back.
ghost use Rattle.std.specs.Prelude.{◌≡◌, List, [], ℕ};
ghost use Rattle.formats.specs.Refusal.{answer_number};
ghost use Rattle.requests.specs.declared.request.Request.TheVariants.{CheckIn};
ghost use Rattle.calls.specs.Buffers.{buffers_of};
ghost use Rattle.calls.specs.Effect.{effect};
ghost use Rattle.music_counter.specs.Answer.{Answers, Inside};

use calls::count;
use formats::facts::EntryNumber;
use formats::head::Pair;
use formats::refusal::Refusal;
use formats::{half, refusal, table};
use tables::ledger;
use tables::shop::Shop;

fn apply(ledger: &mut [u8], titles: &mut [u8], entry: EntryNumber, f1: u64)
    requires { Inside (CheckIn entry f1) (buffers_of ledger.old titles.old []) }
    ensures { (rules : List ℕ) → buffers_of ledger.new titles.new rules
        ≡ effect (CheckIn entry f1) (buffers_of ledger.old titles.old rules) }
{
    let content = half::content_id(table::slot::<16>(titles, entry.0));
    let facts = ledger::facts_here(ledger, content);
    crate::set_permits(ledger, content, count::one_more(facts.permits));
    crate::wipe_title(titles, entry, f1);
}

// Done, or refused with 5, 7, 8, 9, 10, 11, 15 or 16 and nothing changed.
pub fn check_in(
    pair: Pair,
    ledger: &mut [u8],
    titles: &mut [u8],
    rules: &[u8],
    entry: EntryNumber,
    f1: u64,
) -> Result<(), Refusal>
    ensures { Answers pair (CheckIn entry f1)
        (buffers_of ledger.old titles.old rules.now) (answer_number result)
        (buffers_of ledger.new titles.new rules.now) }
{
    let shop = Shop::new(ledger, titles, rules);
    let found = refusals::check_in::refusal(pair, shop, entry, f1);
    // A test with a name, and no `?`: so an edit can turn it round, and is refused by the contract.
    let is_refused = refusal::number(found) != 0;
    if is_refused {
        return found;
    }
    apply(ledger, titles, entry, f1);
    Ok(())
}
