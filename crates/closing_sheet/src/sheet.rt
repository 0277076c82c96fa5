// The sheet as text, in a buffer that the caller lends.
ghost use Rattle.std.specs.Prelude.{◌≡◌, ◌+◌, ◌*◌, ◌^◌, ◌<◌, ◌≤◌, length, leb, get_or};
ghost use Rattle.formats.specs.Part.{put};
ghost use Rattle.formats.specs.Head.{LedgerHead, rows_of};
ghost use Rattle.formats.specs.Refusal.{answer_of};
ghost use Rattle.requests.specs.Number.{count_values, written_answer};
ghost use Rattle.calls.specs.Buffers.{buffers_of, state_in, copies};
ghost use Rattle.calls.specs.Perform.{AreBytes};
ghost use Rattle.tables.specs.ByTitle.{first_full, spent_entries, ForEach};
ghost use Rattle.tables.specs.Shop.{lent};
ghost use Rattle.closing_sheet.specs.Sheet.{permits_on_card, rights_on_card, line_of, printed, rows_text, other_than_15, permits_total, copies_total, last_lines, sheet_text, sheet_writing, sheet_written_to};

use crate::line::Line;
use formats::facts::{ContentId, EntryNumber};
use formats::head::Pair;
use formats::refusal::Refusal;
use formats::row::RowState;
use formats::{head, row, rule, table};
use tables::by_title::{CardContents, OnCard};
use tables::shop::Shop;
use tables::{by_title, ledger};
use text::Text;

// Room for any sheet.
const SHEET_SIZE: usize = 18432;

// The permits that a line adds to the sum: unlimited ones, 15, are no number of permits.
fn other_than_15(permits: u64) -> u64
    ensures { result ≡ other_than_15 permits }
{
    if permits == 15 { 0 } else { permits }
}

// The numbers of the last two lines: the sums, and how many entries are spent.
#[derive(Clone, Copy, Debug, PartialEq, Eq)]
pub struct LastLines {
    pub permits: u64,
    pub copies: u64,
    pub spent: u64,
}

impl LastLines {
    // Adds what a line adds.
    fn add(&mut self, line: Line)
        requires permits { self.old.permits + other_than_15 line.permits < 2 ^ 64 }
        requires copies { self.old.copies + line.copies < 2 ^ 64 }
        ensures permits { self.new.permits ≡ self.old.permits + other_than_15 line.permits }
        ensures copies { self.new.copies ≡ self.old.copies + line.copies }
        ensures spent { self.new.spent ≡ self.old.spent }
    {
        self.permits += other_than_15(line.permits);
        self.copies += line.copies;
    }

    // How many bytes the last two lines have.
    fn len(self) -> usize
        ensures text_length { result ≡ length (last_lines self.permits self.copies self.spent) }
        ensures at_most_75 { result ≤ 75 }
    {
        text::len(self.permits) + text::len(self.copies) + text::len(self.spent) + 15
    }

    // Writes the last two lines, for which there is room. No `Display`, as `Text` says.
    fn write(self, text: &mut Text)
        requires { text.old.at + length (last_lines self.permits self.copies self.spent) ≤ length text.old.out.now }
        ensures place { text.new.at ≡ text.old.at + length (last_lines self.permits self.copies self.spent) }
        ensures written { text.new.out.now ≡ put text.old.out.now text.old.at (last_lines self.permits self.copies self.spent) }
        ensures name { text.new.out.ghost_name ≡ text.old.out.ghost_name }
    {
        text.word(b"total ");
        text.number(self.permits, b' ');
        text.number(self.copies, b'\n');
        text.word(b"spent ");
        text.number(self.spent, b'\n');
    }
}

// The numbers of a sheet's last two lines, and how many bytes it has as text.
#[derive(Clone, Copy, Debug, PartialEq, Eq)]
pub struct Summary {
    pub sums: LastLines,
    pub len: usize,
}

// The permits and rights that a line shows.
#[derive(Clone, Copy, Default)]
struct Counts {
    permits: u64,
    rights: u64,
}

// Byte 0 of a row; a row past the end has none.
fn first_byte(ledger: &[u8], content: ContentId) -> u8
    ensures { result ≡ get_or ledger.now (24 * content.0) 0 }
{
    table::byte(table::slot::<24>(ledger, content.0), 0)
}

// A shop, with what its card has.
#[derive(Drop)]
struct Sheet<'a> {
    shop: Shop<'a>,
    contents: CardContents,
    ghost known: { ForEach shop.card.titles.now shop.card.rules.now contents.places },
    ghost spent: { contents.spent ≡ spent_entries shop.card.titles.now shop.card.rules.now },
    ghost bytes: { AreBytes (lent shop) },
}

impl<'a> Sheet<'a> {
    // The buffers come one by one: of slices inside a struct the check does not know that they are bytes.
    fn of(ledger: &'a [u8], titles: &'a [u8], rules: &'a [u8]) -> Self
        ensures { lent result.shop ≡ buffers_of ledger.now titles.now rules.now }
    {
        let shop = Shop::new(ledger, titles, rules);
        Sheet {
            shop,
            contents: by_title::contents(shop.card),
        }
    }
}

impl Sheet<'_> {
    // The number of copies of a title.
    fn copies(&self, content: ContentId) -> u64
        ensures { result ≡ copies content.0 self.now.shop.card.titles.now self.now.shop.card.rules.now }
    {
        self.contents
            .places
            .get(content.0 as usize)
            .map_or(0, |place| u64::from(place.copies))
    }

    // The permits and rights in the first full entry of a title; none where it has none.
    fn on_card(&self, content: ContentId) -> Counts
        ensures permits_on_card { result.permits
            ≡ permits_on_card self.now.shop.card.rules.now
            (first_full content.0 self.now.shop.card.titles.now self.now.shop.card.rules.now) }
        ensures rights_on_card { result.rights
            ≡ rights_on_card self.now.shop.card.rules.now
            (first_full content.0 self.now.shop.card.titles.now self.now.shop.card.rules.now) }
    {
        match self.contents.places.get(content.0 as usize) {
            None | Some(OnCard { first_full: 0, .. }) => Counts::default(),
            Some(place) => {
                let entry = EntryNumber(u64::from(place.first_full));
                let half = self.shop.card.rule_half(entry);
                Counts {
                    permits: rule::permits(half),
                    rights: rule::rights(half),
                }
            }
        }
    }

    // The line of a row in this state, empty or not.
    fn line(&self, content: ContentId, state: RowState) -> Line
        requires { state ≡ state_in self.now.shop.ledger.now content.0 }
        ensures { result ≡ line_of (lent self.now.shop) content.0 }
    {
        let (state, shown) = match state {
            RowState::Empty => (row::EMPTY, Counts::default()),
            RowState::Here(facts) => (
                row::HERE,
                Counts {
                    permits: facts.permits,
                    rights: facts.rights,
                },
            ),
            RowState::Away => (row::AWAY, self.on_card(content)),
            RowState::Gone => (row::GONE, Counts::default()),
            RowState::NoState => (first_byte(self.shop.ledger, content), Counts::default()),
        };
        Line {
            row: content.0,
            state: u64::from(state),
            permits: shown.permits,
            rights: shown.rights,
            copies: self.copies(content),
        }
    }

    // The line of a row that is not empty. Inline: behind a call it takes twice its time, away from what is known of the heads.
    #[inline(always)]
    fn printed(&self, content: ContentId) -> Option<Line>
        ensures { result ≡ printed (lent self.now.shop) content.0 }
    {
        match ledger::state(self.shop.ledger, content) {
            RowState::Empty => None,
            state => Some(self.line(content, state)),
        }
    }

    // They as they are before any line is added.
    fn before_lines(&self) -> LastLines
        ensures permits { result.permits ≡ 0 }
        ensures copies { result.copies ≡ 0 }
        ensures spent { result.spent ≡ spent_entries self.now.shop.card.titles.now self.now.shop.card.rules.now }
    {
        LastLines {
            permits: 0,
            copies: 0,
            spent: self.contents.spent,
        }
    }

    fn summary(&self) -> Summary
        ensures permits_total { result.sums.permits ≡ permits_total (lent self.now.shop) }
        ensures copies_total { result.sums.copies ≡ copies_total (lent self.now.shop) }
        ensures spent { result.sums.spent ≡ spent_entries self.now.shop.card.titles.now self.now.shop.card.rules.now }
        ensures text_length { result.len ≡ length (sheet_text (lent self.now.shop)) }
    {
        let mut sums = self.before_lines();
        let mut len = 0;
        for k in 0..head::rows(self.shop.ledger) {
            if let Some(line) = self.printed(ContentId(k + 1)) {
                sums.add(line);
                len += line.len();
            }
        }
        Summary {
            sums,
            len: len + sums.len(),
        }
    }

    // Whether the sheet of a ledger with a right head has room. Of a text with room for any sheet, its length need not be found.
    fn has_room(&self, size: usize) -> bool
        requires { LedgerHead self.now.shop.ledger.now }
        ensures { result ≡ leb (length (sheet_text (lent self.now.shop))) size }
    {
        SHEET_SIZE <= size || self.summary().len <= size
    }

    // Writes the lines of all rows, lowest first, for which there is room; answers the sums.
    fn write_rows(&self, text: &mut Text) -> LastLines
        requires front { text.old.at ≡ 0 }
        requires room { length (rows_text (rows_of self.now.shop.ledger.now) (lent self.now.shop)) ≤ length text.old.out.now }
        ensures permits_total { result.permits ≡ permits_total (lent self.now.shop) }
        ensures copies_total { result.copies ≡ copies_total (lent self.now.shop) }
        ensures spent { result.spent ≡ spent_entries self.now.shop.card.titles.now self.now.shop.card.rules.now }
        ensures place { text.new.at ≡ length (rows_text (rows_of self.now.shop.ledger.now) (lent self.now.shop)) }
        ensures written { text.new.out.now
            ≡ put text.old.out.now 0 (rows_text (rows_of self.now.shop.ledger.now) (lent self.now.shop)) }
        ensures name { text.new.out.ghost_name ≡ text.old.out.ghost_name }
    {
        let mut sums = self.before_lines();
        for k in 0..head::rows(self.shop.ledger) {
            if let Some(line) = self.printed(ContentId(k + 1)) {
                sums.add(line);
                line.write(text);
            }
        }
        sums
    }
}

// The line of a row, empty or not.
pub fn row_line(shop: Shop, content: ContentId) -> Line
    ensures { result ≡ line_of (lent shop.entry) content.0 }
{
    Sheet::of(shop.ledger, shop.card.titles, shop.card.rules).line(
        content,
        ledger::state(shop.ledger, content),
    )
}

// The numbers of the last two lines of a ledger and a card, and the length of their sheet.
pub fn totals(shop: Shop) -> Summary
    ensures permits_total { result.sums.permits ≡ permits_total (lent shop.entry) }
    ensures copies_total { result.sums.copies ≡ copies_total (lent shop.entry) }
    ensures spent { result.sums.spent ≡ spent_entries shop.entry.card.titles.now shop.entry.card.rules.now }
    ensures text_length { result.len ≡ length (sheet_text (lent shop.entry)) }
{
    Sheet::of(shop.ledger, shop.card.titles, shop.card.rules).summary()
}

// Writes the sheet of a ledger and a card at the front of a text, and answers how many bytes it has; refused, with 7, 8, 9 or, where
// there is no room for it, 1, it changes nothing.
pub fn write(pair: Pair, shop: Shop, text: &mut [u8]) -> Result<usize, Refusal>
    ensures answer { answer_of count_values result
        ≡ written_answer (sheet_writing pair (lent shop.entry) text.old) }
    ensures written { text.new ≡ sheet_written_to pair (lent shop.entry) text.old }
{
    shop.check_heads(pair)?;
    let sheet = Sheet::of(shop.ledger, shop.card.titles, shop.card.rules);
    if !sheet.has_room(text.len()) {
        return Err(Refusal::TooShort);
    }
    let mut text = Text { out: text, at: 0 };
    let sums = sheet.write_rows(&mut text);
    sums.write(&mut text);
    Ok(text.at)
}
