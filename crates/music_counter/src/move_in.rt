// 6 move in: a title goes from the ledger to a free or spent entry, with one move right less. No copy of it may be out.
ghost use Rattle.std.specs.Prelude.{◌≡◌};
ghost use Rattle.formats.specs.Refusal.{answer_number};
ghost use Rattle.requests.specs.declared.request.Request.TheVariants.{MoveIn};
ghost use Rattle.calls.specs.Buffers.{buffers_of};
ghost use Rattle.calls.specs.Effect.{effect};
ghost use Rattle.calls.specs.Report.{move_in_report};
ghost use Rattle.music_counter.specs.Answer.{Answers, Inside};

use calls::count;
use formats::facts::{ContentId, EntryNumber};
use formats::head::Pair;
use refusals::move_in::Reported;
use tables::ledger;
use tables::shop::Shop;

fn apply(
    ledger: &mut [u8],
    titles: &mut [u8],
    rules: &mut [u8],
    content: ContentId,
    entry: EntryNumber,
    hash: u64,
)
    requires { Inside (MoveIn content entry hash) (buffers_of ledger.old titles.old rules.old) }
    ensures { buffers_of ledger.new titles.new rules.new
        ≡ effect (MoveIn content entry hash) (buffers_of ledger.old titles.old rules.old) }
{
    let facts = count::after_move(ledger::facts_here(ledger, content));
    crate::put_on_card(ledger, titles, rules, content, entry, facts, hash);
}

// Done, or refused with 4, 5, 7, 8, 9, 10, 11, 12 or 14 and nothing changed. It reports how many entries its check for copies read.
pub fn move_in(
    pair: Pair,
    ledger: &mut [u8],
    titles: &mut [u8],
    rules: &mut [u8],
    content: ContentId,
    entry: EntryNumber,
    hash: u64,
) -> Reported
    ensures answers { Answers pair (MoveIn content entry hash)
        (buffers_of ledger.old titles.old rules.old) (answer_number result.answer)
        (buffers_of ledger.new titles.new rules.new) }
    ensures report { result.entries_read ≡ move_in_report pair content entry hash
        (buffers_of ledger.old titles.old rules.old) }
{
    let shop = Shop::new(ledger, titles, rules);
    let reported = refusals::move_in::refusal(pair, shop, content, entry);
    if reported.answer.is_ok() {
        apply(ledger, titles, rules, content, entry, hash);
    }
    reported
}
