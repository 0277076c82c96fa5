// Formatting writes a fresh ledger or card over whatever stood in the buffers. It tests R and the lengths, and looks at no
// bytes.
ghost use Rattle.std.specs.Prelude.{◌≡◌, ◌++◌, ◌-◌, ◌≤◌, length, replicate};
ghost use Rattle.formats.specs.Refusal.{answer_number};
ghost use Rattle.formats.specs.Head.{table_head};
ghost use Rattle.tables.specs.Format.{ledger_formatting, formatted_ledger, card_formatting, formatted_titles, formatted_rules};

use formats::head::Pair;
use formats::refusal::Refusal;
use formats::{facts, field, head};

// A fresh card table: its head up to byte 13, and zeros.
fn fresh_table(
    table: &mut [u8],
    identifier: u64,
    version: u8,
    application: u64,
    width: u8,
    mark: u8,
)
    requires { 14 ≤ length table.old }
    ensures { table.new
        ≡ table_head identifier version (length table.old) application width mark
        ++ replicate (length table.old - 14) 0 }
{
    let size = table.len() as u64;
    field::write(&mut table[0..2], identifier);
    table[2] = 0;
    table[3] = version;
    field::write(&mut table[4..8], size);
    field::write(&mut table[8..10], application);
    field::write(&mut table[10..12], 999);
    table[12] = width;
    table[13] = mark;
    table[14..].fill(0);
}

// Done, or refused with 4 or 7 and nothing changed.
#[tactic(auto, unfolding(crate::specs::Format::ledger_formatting, crate::specs::Format::formatted_ledger, calls::specs::Refusal::first))]
pub fn format_ledger(ledger: &mut [u8], rows: u64, application: u16) -> Result<(), Refusal>
    ensures answer { answer_number result ≡ ledger_formatting ledger.old rows }
    ensures ledger_formatted { ledger.new ≡ formatted_ledger ledger.old rows application }
{
    if !facts::is_numbered(rows) {
        return Err(Refusal::ContentId);
    }
    if ledger.len() as u64 != 24 * (rows + 1) {
        return Err(Refusal::Ledger);
    }
    field::write(&mut ledger[0..2], u64::from(application));
    field::write(&mut ledger[2..4], rows);
    ledger[4..].fill(0);
    Ok(())
}

// Done, or refused with 8 or 9 and nothing changed in either table.
#[tactic(auto, unfolding(crate::specs::Format::card_formatting, crate::specs::Format::formatted_titles, crate::specs::Format::formatted_rules, calls::specs::Refusal::first))]
pub fn format_card(
    pair: Pair,
    titles: &mut [u8],
    rules: &mut [u8],
    application: u16,
) -> Result<(), Refusal>
    ensures answer { answer_number result ≡ card_formatting titles.old rules.old }
    ensures titles_formatted { titles.new ≡ formatted_titles pair titles.old rules.old }
    ensures rules_formatted { rules.new ≡ formatted_rules pair titles.old rules.old application }
{
    if titles.len() != 16000 {
        return Err(Refusal::Titles);
    }
    if rules.len() != 32000 {
        return Err(Refusal::Rules);
    }
    fresh_table(titles, head::titles_identifier(pair), 0x10, 0, 16, 0x01);
    fresh_table(
        rules,
        head::rules_identifier(pair),
        0x11,
        u64::from(application),
        32,
        0x02,
    );
    Ok(())
}
