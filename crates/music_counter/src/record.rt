// 2 record: a title goes to a free or spent entry at once, full with the facts; its row, empty until then, is away.
ghost use Rattle.formats.specs.Refusal.{answer_number};
ghost use Rattle.requests.specs.declared.request.Request.TheVariants.{Record};
ghost use Rattle.calls.specs.Buffers.{buffers_of};
ghost use Rattle.music_counter.specs.Answer.{Answers};

use formats::facts::{ContentId, EntryNumber, Facts};
use formats::head::Pair;
use formats::refusal::Refusal;
use tables::shop::Shop;

// Done, or refused with 4, 5, 6, 7, 8, 9, 10 or 11 and nothing changed.
pub fn record(
    pair: Pair,
    ledger: &mut [u8],
    titles: &mut [u8],
    rules: &mut [u8],
    content: ContentId,
    entry: EntryNumber,
    facts: Facts,
    hash: u64,
) -> Result<(), Refusal>
    ensures { Answers pair (Record content entry facts hash)
        (buffers_of ledger.old titles.old rules.old) (answer_number result)
        (buffers_of ledger.new titles.new rules.new) }
{
    let shop = Shop::new(ledger, titles, rules);
    refusals::record::refusal(pair, shop, content, entry, facts)?;
    crate::put_on_card(ledger, titles, rules, content, entry, facts, hash);
    Ok(())
}
