// 3 check-out: a loan copy of a title that is in the ledger is written to a free or spent entry, and takes one of its permits.
ghost use Rattle.std.specs.Prelude.{◌≡◌, List, [], ℕ};
ghost use Rattle.formats.specs.Refusal.{answer_number};
ghost use Rattle.requests.specs.declared.request.Request.TheVariants.{CheckOut};
ghost use Rattle.calls.specs.Buffers.{buffers_of};
ghost use Rattle.calls.specs.Effect.{effect};
ghost use Rattle.music_counter.specs.Answer.{Answers, Inside};

use calls::count;
use formats::facts::{ContentId, EntryNumber};
use formats::head::Pair;
use formats::refusal::Refusal;
use tables::ledger;
use tables::shop::Shop;

fn apply(ledger: &mut [u8], titles: &mut [u8], content: ContentId, entry: EntryNumber)
    requires { Inside (CheckOut content entry) (buffers_of ledger.old titles.old []) }
    ensures { (rules : List ℕ) → buffers_of ledger.new titles.new rules
        ≡ effect (CheckOut content entry) (buffers_of ledger.old titles.old rules) }
{
    let facts = ledger::facts_here(ledger, content);
    // The entry before the row: the other way round a call takes half a nanosecond longer.
    let cci = count::copy_cci(facts.cci);
    crate::write_title(titles, entry, cci, facts.title_key, content);
    crate::set_permits(ledger, content, count::one_less(facts.permits));
}

// Done, or refused with 4, 5, 7, 8, 9, 10, 11 or 12 and nothing changed.
pub fn check_out(
    pair: Pair,
    ledger: &mut [u8],
    titles: &mut [u8],
    rules: &[u8],
    content: ContentId,
    entry: EntryNumber,
) -> Result<(), Refusal>
    ensures { Answers pair (CheckOut content entry)
        (buffers_of ledger.old titles.old rules.now) (answer_number result)
        (buffers_of ledger.new titles.new rules.now) }
{
    let shop = Shop::new(ledger, titles, rules);
    let found = refusals::check_out::refusal(pair, shop, content, entry);
    // No `?`: an edit of it would change the name of its goal, and be refused for that.
    if found.is_err() {
        return found;
    }
    apply(ledger, titles, content, entry);
    Ok(())
}
