// An entry of a card, and what its two halves are together.
ghost use Rattle.std.specs.Prelude.{◌≡◌};
ghost use Rattle.formats.specs.Entry.{kind_of, is_vacant, entry_facts};

use crate::facts::Facts;
use crate::{facts, half, rule, title};

// Whoever asks for it has a `match` that names all five: two kinds cannot be compared.
#[derive(Clone, Copy, Debug)]
pub enum EntryKind {
    // No half is usable, and the entry is not spent.
    Free,
    // Only the title half is usable: a loan copy.
    Copy,
    // Both halves are usable, with equal IDs: the title lives here.
    Full,
    // Anything else. No call takes it: it is neither free nor spent.
    Torn,
    // No half is usable, and the title half has flag 0 and an ID from 1 to 999: a wipe leaves that of the title that was here.
    Spent,
}

// An entry: its title half and its rule half.
#[derive(Clone, Copy)]
pub struct Entry<'a> {
    pub title: &'a [u8],
    pub rule: &'a [u8],
}

impl Entry<'_> {
    // What the two halves are together.
    pub fn kind(self) -> EntryKind
        ensures { result ≡ kind_of self.entry.title.now self.entry.rule.now }
    {
        match (half::usable_id(self.title), half::usable_id(self.rule)) {
            (Some(id), _) if id.0 > facts::LAST_NUMBER => EntryKind::Torn,
            (Some(_), _) if title::cci(self.title) == 1 => EntryKind::Torn,
            (Some(_), None) => EntryKind::Copy,
            (Some(id), Some(rule_id)) if id == rule_id => EntryKind::Full,
            (Some(_), Some(_)) => EntryKind::Torn,
            (None, Some(_)) => EntryKind::Torn,
            (None, None) if half::names_spent(self.title) => EntryKind::Spent,
            (None, None) => EntryKind::Free,
        }
    }

    // The same, and the rule half is asked after the title half, not with it. For a delete, which takes two kinds of five, and for inspection:
    // with `kind` a delete of a copy takes a ninth longer. With this in its place a sheet takes up to a fifth longer.
    pub fn kind_in_turn(self) -> EntryKind
        ensures { result ≡ kind_of self.entry.title.now self.entry.rule.now }
    {
        match half::usable_id(self.title) {
            Some(id) if id.0 > facts::LAST_NUMBER => EntryKind::Torn,
            Some(_) if title::cci(self.title) == 1 => EntryKind::Torn,
            Some(id) => match half::usable_id(self.rule) {
                None => EntryKind::Copy,
                Some(rule_id) if id == rule_id => EntryKind::Full,
                Some(_) => EntryKind::Torn,
            },
            None if half::usable(self.rule) => EntryKind::Torn,
            None if half::names_spent(self.title) => EntryKind::Spent,
            None => EntryKind::Free,
        }
    }

    // Whether a title may be put in the entry: it is free or spent, which is that neither half is usable. Not by its kind, of which the
    // compiler then works out what is not asked.
    pub fn is_vacant(self) -> bool
        ensures { result ≡ is_vacant (kind_of self.entry.title.now self.entry.rule.now) }
    {
        matches!(
            (half::usable_id(self.title), half::usable_id(self.rule)),
            (None, None)
        )
    }

    // The same, and of an entry whose title half is usable the rule half is not asked. For a search over a card in use, which with `is_vacant`
    // takes half as long again.
    pub fn is_vacant_in_turn(self) -> bool
        ensures { result ≡ is_vacant (kind_of self.entry.title.now self.entry.rule.now) }
    {
        !half::usable(self.title) && !half::usable(self.rule)
    }

    // The facts that a full entry holds.
    #[tactic(auto, unfolding(crate::specs::Entry::entry_facts))]
    pub fn facts(self) -> Facts
        ensures { result ≡ entry_facts self.entry.title.now self.entry.rule.now }
    {
        Facts {
            cci: title::cci(self.title),
            trigger: rule::trigger(self.rule),
            rights: rule::rights(self.rule),
            permits: rule::permits(self.rule),
            title_key: half::key(self.title),
            sti_key: half::key(self.rule),
        }
    }
}
