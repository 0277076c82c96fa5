// The refusals of delete: 5, 7 to 11, and 16.
ghost use Rattle.std.specs.Prelude.{◌≡◌, Bool, Ok};
ghost use Rattle.formats.specs.Entry.{is_full};
ghost use Rattle.formats.specs.Refusal.{answer_number};
ghost use Rattle.requests.specs.declared.request.Request.TheVariants.{Delete};
ghost use Rattle.calls.specs.Buffers.{kind_at};
ghost use Rattle.calls.specs.Refusal.{first};
ghost use Rattle.calls.specs.Conditions.{state_conditions};
ghost use Rattle.calls.specs.Perform.{refusal};
ghost use Rattle.tables.specs.Shop.{lent};

use formats::entry::EntryKind;
use formats::facts::{EntryNumber, Fillers};
use formats::head::Pair;
use formats::refusal::Refusal;
use formats::row::RowState;
use tables::ledger;
use tables::shop::Shop;

// Of a copy the row is not looked at, and only the title half is to be wiped. One test for 16 at the end: with one in each arm the
// compiler carries the answer as a flag and a number.
#[tactic(auto, unfolding(calls::specs::Refusal::first))]
fn state(pair: Pair, shop: Shop, entry: EntryNumber, fillers: Fillers) -> Result<bool, Refusal>
    ensures answer { answer_number result ≡ first (state_conditions pair (Delete entry fillers) (lent shop.entry)) }
    ensures full { (full : Bool) → result ≡ Ok full → full ≡ is_full (kind_at (lent shop.entry) entry.0) }
{
    let (full, leaves_key) = match shop.card.entry(entry).kind_in_turn() {
        EntryKind::Copy => (false, shop.card.leaves_title_key(entry, fillers.f1)),
        EntryKind::Full => {
            let RowState::Away = ledger::state(shop.ledger, shop.card.content(entry)) else {
                return Err(Refusal::StateOfRow);
            };
            let leaves_key = shop.card.leaves_title_key(entry, fillers.f1)
                || shop.card.refuses_f2(pair, entry, fillers.f2);
            (true, leaves_key)
        }
        EntryKind::Free | EntryKind::Torn | EntryKind::Spent => {
            return Err(Refusal::KindOfEntry);
        }
    };
    if leaves_key {
        Err(Refusal::Filler)
    } else {
        Ok(full)
    }
}

// Of a delete that is not refused, whether the entry is full, and no copy.
pub fn refusal(
    pair: Pair,
    shop: Shop,
    entry: EntryNumber,
    fillers: Fillers,
) -> Result<bool, Refusal>
    ensures answer { answer_number result ≡ refusal pair (Delete entry fillers) (lent shop.entry) }
    ensures full { (full : Bool) → result ≡ Ok full → full ≡ is_full (kind_at (lent shop.entry) entry.0) }
{
    crate::before_entry(pair, shop, entry)?;
    state(pair, shop, entry, fillers)
}
