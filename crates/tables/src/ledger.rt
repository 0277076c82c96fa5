// The rows of a ledger, by their content ID.
ghost use Rattle.std.specs.Prelude.{◌≡◌};
ghost use Rattle.calls.specs.Buffers.{state_in, here_facts};

use formats::facts::{ContentId, Facts};
use formats::row::RowState;
use formats::{head, row, table};

// The state of a row, read from the part of the ledger that it occupies. Row 0 and rows above R are in none. Inline, as what follows:
// a caller that has tested the heads need not test the row's place again.
#[tactic(auto, unfolding(calls::specs::Buffers::state_in))]
#[inline]
pub fn state(ledger: &[u8], content: ContentId) -> RowState
    ensures { result ≡ state_in ledger.now content.0 }
{
    let id = content.0;
    if id < 1 || head::rows(ledger) < id {
        return RowState::NoState;
    }
    row::state(table::slot::<24>(ledger, id))
}

// The facts of a row that is here; zeros of any other.
#[inline]
pub fn here_facts(state: RowState) -> Facts
    ensures { result ≡ here_facts state }
{
    match state {
        RowState::Here(facts) => facts,
        _ => Facts::default(),
    }
}

// The same, of the row of a title.
#[inline]
pub fn facts_here(ledger: &[u8], content: ContentId) -> Facts
    ensures { result ≡ here_facts (state_in ledger.now content.0) }
{
    here_facts(state(ledger, content))
}
