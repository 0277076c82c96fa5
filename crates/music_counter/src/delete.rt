// 7 delete: a copy is wiped, whatever its row; a full entry is wiped, and its row, away until then, is gone.
ghost use Rattle.std.specs.Prelude.{◌≡◌};
ghost use Rattle.formats.specs.Entry.{is_full};
ghost use Rattle.formats.specs.Refusal.{answer_number};
ghost use Rattle.requests.specs.declared.request.Request.TheVariants.{Delete};
ghost use Rattle.calls.specs.Buffers.{buffers_of, kind_at};
ghost use Rattle.calls.specs.Effect.{effect};
ghost use Rattle.music_counter.specs.Answer.{Answers, Inside};

use formats::facts::{EntryNumber, Fillers};
use formats::head::Pair;
use formats::refusal::Refusal;
use formats::row;
use tables::card::Card;
use tables::shop::Shop;

// `full` is whether the entry is full, as the refusals found it. It is not asked again, since the compiler does not always see that the
// answer is the same.
fn apply(
    ledger: &mut [u8],
    titles: &mut [u8],
    rules: &mut [u8],
    entry: EntryNumber,
    fillers: Fillers,
    full: bool,
)
    requires inside { Inside (Delete entry fillers) (buffers_of ledger.old titles.old rules.old) }
    requires full { full ≡ is_full (kind_at (buffers_of ledger.old titles.old rules.old) entry.0) }
    ensures { buffers_of ledger.new titles.new rules.new
        ≡ effect (Delete entry fillers) (buffers_of ledger.old titles.old rules.old) }
{
    if full {
        let content = Card { titles, rules }.content(entry);
        crate::set_plain(ledger, content, row::GONE);
        crate::wipe_rule(rules, entry, fillers);
    }
    crate::wipe_title(titles, entry, fillers.f1);
}

// Done, or refused with 5, 7, 8, 9, 10, 11 or 16 and nothing changed.
pub fn delete(
    pair: Pair,
    ledger: &mut [u8],
    titles: &mut [u8],
    rules: &mut [u8],
    entry: EntryNumber,
    fillers: Fillers,
) -> Result<(), Refusal>
    ensures { Answers pair (Delete entry fillers)
        (buffers_of ledger.old titles.old rules.old) (answer_number result)
        (buffers_of ledger.new titles.new rules.new) }
{
    let shop = Shop::new(ledger, titles, rules);
    let full = refusals::delete::refusal(pair, shop, entry, fillers)?;
    apply(ledger, titles, rules, entry, fillers, full);
    Ok(())
}
