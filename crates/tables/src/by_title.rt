// What a card has of each title, and how many spent entries, found in one pass over its entries.
ghost use Rattle.std.specs.Prelude.{◌≡◌};
ghost use Rattle.tables.specs.ByTitle.{ForEach, spent_entries};

use crate::card::Card;
use formats::entry::EntryKind;
use formats::facts::EntryNumber;
use formats::half;

// What a card has of one title: how many copies, and its first full entry; 0, which is no entry's number, where it has none. An `Option`
// there would be turned back to 0 for `first_of`, which the statements on the sheet rest on, and make the places larger.
#[derive(Clone, Copy, Debug, Default, PartialEq, Eq)]
pub struct OnCard {
    pub copies: u16,
    pub first_full: u16,
}

// What a card has: of each title, in that title's place, and how many spent entries.
#[derive(Clone, Copy)]
pub struct CardContents {
    pub places: [OnCard; 1000],
    pub spent: u64,
}

// What a card has, in one pass over its entries. Most entries of most cards have ID 0 in their title half, with which they are nothing
// that counts here: so that is asked first, and of them no more.
#[tactic(auto, using(crate::proofs::PerTitle::copy_within, crate::proofs::PerTitle::full_within))]
pub fn contents(card: Card) -> CardContents
    ensures places { ForEach card.entry.titles.now card.entry.rules.now result.places }
    ensures spent { result.spent ≡ spent_entries card.entry.titles.now card.entry.rules.now }
{
    let mut found = CardContents {
        places: [OnCard::default(); 1000],
        spent: 0,
    };
    for k in 0..999 {
        let entry = card.entry(EntryNumber(k + 1));
        let id = half::content_id(entry.title).0;
        if id == 0 {
            continue;
        }
        let content = id as usize;
        match entry.kind() {
            EntryKind::Copy => found.places[content].copies += 1,
            EntryKind::Full => {
                if found.places[content].first_full == 0 {
                    found.places[content].first_full = (k + 1) as u16;
                }
            }
            EntryKind::Spent => found.spent += 1,
            EntryKind::Free | EntryKind::Torn => {}
        }
    }
    found
}
