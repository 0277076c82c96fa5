// A card, to be read: its title table and its rule table. An entry is its two halves, the parts of the tables that they occupy.
ghost use Rattle.std.specs.Prelude.{◌≡◌, ◌&&◌};
ghost use Rattle.formats.specs.Refusal.{answer_number};
ghost use Rattle.formats.specs.Half.{id_of};
ghost use Rattle.formats.specs.Rule.{trigger_of, rights_of, hash_of};
ghost use Rattle.formats.specs.Entry.{kind_of, is_vacant, entry_facts};
ghost use Rattle.calls.specs.Buffers.{title_at, rule_at};
ghost use Rattle.calls.specs.Conditions.{leaves_key, looks_at_f2, may_not_move};
ghost use Rattle.calls.specs.Refusal.{first};
ghost use Rattle.tables.specs.Told.{card_head_conditions};

use calls::count;
use formats::entry::{Entry, EntryKind};
use formats::facts::{ContentId, EntryNumber, Facts};
use formats::head::Pair;
use formats::refusal::Refusal;
use formats::{half, head, rule, table};

#[derive(Clone, Copy)]
pub struct Card<'a> {
    pub titles: &'a [u8],
    pub rules: &'a [u8],
}

impl<'a> Card<'a> {
    // Done where the heads of both tables are right, which a call without a ledger tests before it looks at an entry.
    #[tactic(auto, unfolding(calls::specs::Refusal::first))]
    pub fn check_heads(self, pair: Pair) -> Result<(), Refusal>
        ensures { answer_number result ≡ first (card_head_conditions pair self.entry.titles.now self.entry.rules.now) }
    {
        head::check_titles(pair, self.titles)?;
        head::check_rules(pair, self.rules)
    }

    pub fn title_half(self, entry: EntryNumber) -> &'a [u8]
        ensures { result.now ≡ title_at self.entry.titles.now entry.0 }
    {
        table::slot::<16>(self.titles, entry.0)
    }

    pub fn rule_half(self, entry: EntryNumber) -> &'a [u8]
        ensures { result.now ≡ rule_at self.entry.rules.now entry.0 }
    {
        table::slot::<32>(self.rules, entry.0)
    }

    // Both halves of an entry.
    pub fn entry(self, entry: EntryNumber) -> Entry<'a>
        ensures title { result.title.now ≡ title_at self.entry.titles.now entry.0 }
        ensures rule { result.rule.now ≡ rule_at self.entry.rules.now entry.0 }
    {
        Entry {
            title: self.title_half(entry),
            rule: self.rule_half(entry),
        }
    }

    // What an entry is.
    #[inline]
    pub fn kind(self, entry: EntryNumber) -> EntryKind
        ensures { result ≡ kind_of (title_at self.entry.titles.now entry.0) (rule_at self.entry.rules.now entry.0) }
    {
        self.entry(entry).kind()
    }

    // Whether a title may be put in an entry: it is free or spent.
    pub fn is_vacant(self, entry: EntryNumber) -> bool
        ensures { result ≡ is_vacant (kind_of (title_at self.entry.titles.now entry.0) (rule_at self.entry.rules.now entry.0)) }
    {
        self.entry(entry).is_vacant()
    }

    // The content ID in an entry's title half.
    pub fn content(self, entry: EntryNumber) -> ContentId
        ensures { result.0 ≡ id_of (title_at self.entry.titles.now entry.0) }
    {
        half::content_id(self.title_half(entry))
    }

    // The facts of an entry, which mean something where it is full.
    pub fn facts(self, entry: EntryNumber) -> Facts
        ensures { result
            ≡ entry_facts (title_at self.entry.titles.now entry.0) (rule_at self.entry.rules.now entry.0) }
    {
        self.entry(entry).facts()
    }

    // Whether a full entry may not move: its trigger is 1, or no move right is left. Both stand in its rule half.
    pub fn may_not_move(self, entry: EntryNumber) -> bool
        ensures { result ≡ may_not_move (trigger_of (rule_at self.entry.rules.now entry.0))
            (rights_of (rule_at self.entry.rules.now entry.0)) }
    {
        let rule = self.rule_half(entry);
        count::may_not_move(rule::trigger(rule), rule::rights(rule))
    }

    // The C_HASH in an entry's rule half.
    pub fn hash(self, entry: EntryNumber) -> u64
        ensures { result ≡ hash_of (rule_at self.entry.rules.now entry.0) }
    {
        rule::hash(self.rule_half(entry))
    }

    // Whether a filler would leave an entry's title key.
    pub fn leaves_title_key(self, entry: EntryNumber, filler: u64) -> bool
        ensures { result ≡ leaves_key filler (title_at self.entry.titles.now entry.0) }
    {
        leaves_key(filler, self.title_half(entry))
    }

    // Whether a call of this pair refuses f2: an audio call does where f2 would leave an entry's STI key, a picture call never.
    pub fn refuses_f2(self, pair: Pair, entry: EntryNumber, f2: u64) -> bool
        ensures { result ≡ (looks_at_f2 pair && leaves_key f2 (rule_at self.entry.rules.now entry.0)) }
    {
        match pair {
            Pair::Audio => leaves_key(f2, self.rule_half(entry)),
            Pair::Picture => false,
        }
    }
}

// Whether a filler would leave the key of this half as it is.
fn leaves_key(filler: u64, half: &[u8]) -> bool
    ensures { result ≡ leaves_key filler half.now }
{
    filler % 0x100_0000_0000_0000 == half::key(half)
}
