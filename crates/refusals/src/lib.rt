// What each of the seven calls is refused with: its refusal conditions, tested in stages and in the paper's order. Arguments
// first, then the heads, then the state. Nothing is written here.
#![tactic(auto)]

ghost use Rattle.std.specs.Prelude.{◌≡◌};
ghost use Rattle.formats.specs.Refusal.{answer_number};
ghost use Rattle.calls.specs.Refusal.{first};
ghost use Rattle.tables.specs.Shop.{lent};
ghost use Rattle.refusals.specs.Before.{before_entry_conditions, before_both_conditions};

use formats::facts;
use formats::facts::{ContentId, EntryNumber};
use formats::head::Pair;
use formats::refusal::Refusal;
use tables::shop::Shop;

pub mod check_in;
pub mod check_out;
pub mod delete;
pub mod move_in;
pub mod move_out;
pub mod record;
pub mod register;

// What a call that names an entry tests before it looks there: 5, then 7, 8 and 9. Inline, as the next: behind a call the compiler
// does not know the lengths that the heads fix.
#[tactic(auto, unfolding(calls::specs::Refusal::first))]
#[inline]
fn before_entry(pair: Pair, shop: Shop, entry: EntryNumber) -> Result<(), Refusal>
    ensures { answer_number result ≡ first (before_entry_conditions pair entry.0 (lent shop.entry)) }
{
    if !facts::is_numbered(entry.0) {
        return Err(Refusal::EntryNumber);
    }
    shop.check_heads(pair)
}

// And one that names a title too: 4, and then the same.
#[tactic(auto, unfolding(calls::specs::Refusal::first))]
#[inline]
fn before_both(
    pair: Pair,
    shop: Shop,
    content: ContentId,
    entry: EntryNumber,
) -> Result<(), Refusal>
    ensures { answer_number result ≡ first (before_both_conditions pair content.0 entry.0 (lent shop.entry)) }
{
    if !facts::is_numbered(content.0) {
        return Err(Refusal::ContentId);
    }
    before_entry(pair, shop, entry)
}
