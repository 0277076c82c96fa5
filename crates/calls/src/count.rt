// Counts of which 15 means unlimited, permits and move rights, and what else a call makes of a title's facts.
ghost use Rattle.std.specs.Prelude.{◌≡◌};
ghost use Rattle.calls.specs.Count.{one_less, one_more};
ghost use Rattle.calls.specs.Conditions.{may_not_move};
ghost use Rattle.calls.specs.Effect.{copy_cci, after_move};

use formats::facts::Facts;

pub const UNLIMITED: u64 = 15;

// One less; an unlimited count stays as it is, and so does 0.
#[tactic(auto, unfolding(crate::specs::Count::one_less))]
pub fn one_less(n: u64) -> u64
    ensures { result ≡ one_less n }
{
    if n >= UNLIMITED {
        n
    } else {
        n.saturating_sub(1)
    }
}

// One more; an unlimited count stays as it is.
#[tactic(auto, unfolding(crate::specs::Count::one_more))]
pub fn one_more(n: u64) -> u64
    ensures { result ≡ one_more n }
{
    if UNLIMITED <= n { n } else { n + 1 }
}

// The CCI of a copy: one generation is used up by the loan, and free or no more stays what it is.
#[tactic(auto, unfolding(crate::specs::Effect::copy_cci))]
pub fn copy_cci(cci: u64) -> u64
    ensures { result ≡ copy_cci cci }
{
    if cci == 2 { 3 } else { cci }
}

// The facts of a title after a move: one move right less.
pub fn after_move(facts: Facts) -> Facts
    ensures { result ≡ after_move facts }
{
    Facts {
        rights: one_less(facts.rights),
        ..facts
    }
}

// Whether a title may not move: its trigger is 1, or no move right is left.
pub fn may_not_move(trigger: u64, rights: u64) -> bool
    ensures { result ≡ may_not_move trigger rights }
{
    trigger == 1 || rights == 0
}
