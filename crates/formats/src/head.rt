// The heads of the ledger and of the two card tables. A buffer that is too short for its head is refused and not read.
ghost use Rattle.std.specs.Prelude.{◌≡◌, ◌+◌, ◌*◌, ◌^◌};
ghost use Rattle.formats.specs.Refusal.{answer_number};
ghost use Rattle.formats.specs.Head.{titles_identifier, rules_identifier, ledger_application, rows_of, ledger_answer, titles_answer, rules_application, rules_answer, rules_answer_for};

use crate::refusal::Refusal;
use crate::{facts, field};

// A card's title table and rule table make a pair: of audio titles or of picture titles. The identifiers in their heads differ.
#[derive(Clone, Copy, Debug, PartialEq, Eq)]
pub enum Pair {
    Audio,
    Picture,
}

// The first eight bytes of a right title table: "A1" or "P1", byte 2 as 0, version 10h, the size. A word for each pair: put together
// from the identifier, it takes longer to compare. Titles and rules have functions of their own, here and below, as they have
// definitions: with the table as a parameter each use would say no more in fewer words.
#[tactic(auto, unfolding(crate::specs::Head::titles_identifier))]
fn titles_front(pair: Pair) -> u64
    ensures { result ≡ titles_identifier pair * 2 ^ 48 + 0x1000003e80 }
{
    match pair {
        Pair::Audio => 0x4131_0010_0000_3e80,
        Pair::Picture => 0x5031_0010_0000_3e80,
    }
}

// Of a rule table: "M1" or "P1", byte 2 and the version as 0, the size.
#[tactic(auto, unfolding(crate::specs::Head::rules_identifier))]
fn rules_front(pair: Pair) -> u64
    ensures { result ≡ rules_identifier pair * 2 ^ 48 + 0x7d00 }
{
    match pair {
        Pair::Audio => 0x4d31_0000_0000_7d00,
        Pair::Picture => 0x5031_0000_0000_7d00,
    }
}

// The identifier of a title table: the front of its first word.
pub fn titles_identifier(pair: Pair) -> u64
    ensures { result ≡ titles_identifier pair }
{
    titles_front(pair) >> 48
}

// The identifier of a rule table.
pub fn rules_identifier(pair: Pair) -> u64
    ensures { result ≡ rules_identifier pair }
{
    rules_front(pair) >> 48
}

// The ledger's application number.
pub fn ledger_application(ledger: &[u8]) -> u64
    ensures { result ≡ ledger_application ledger.now }
{
    field::read_at(ledger, 0, 2)
}

// R, the number of rows after the head.
pub fn rows(ledger: &[u8]) -> u64
    ensures { result ≡ rows_of ledger.now }
{
    field::read_at(ledger, 2, 2)
}

// Done where the ledger's length and head are right, else 7.
pub fn check_ledger(ledger: &[u8]) -> Result<(), Refusal>
    ensures { answer_number result ≡ ledger_answer ledger.now }
{
    if ledger.len() < 24 {
        return Err(Refusal::Ledger);
    }
    let rows = rows(ledger);
    if !facts::is_numbered(rows) {
        return Err(Refusal::Ledger);
    }
    if ledger.len() as u64 != 24 * (rows + 1) {
        return Err(Refusal::Ledger);
    }
    Ok(())
}

// Done where the title table's length and head are right, else 8. The head is compared eight bytes at a time.
pub fn check_titles(pair: Pair, titles: &[u8]) -> Result<(), Refusal>
    ensures { answer_number result ≡ titles_answer pair titles.now }
{
    if titles.len() != 16000 {
        return Err(Refusal::Titles);
    }
    // byte 2 is ignored, and the version is 10h or 09h, which is 7 less in its byte
    let front = field::read_at(titles, 0, 8) & 0xffff_00ff_ffff_ffff;
    let right = titles_front(pair);
    if front != right {
        if front != right - 0x0007_0000_0000 {
            return Err(Refusal::Titles);
        }
    }
    // zero, the count, 16, 01h
    if field::read_at(titles, 8, 8) >> 16 != 0x03e7_1001 {
        return Err(Refusal::Titles);
    }
    Ok(())
}

// The rule table's application number.
pub fn rules_application(rules: &[u8]) -> u64
    ensures { result ≡ rules_application rules.now }
{
    field::read_at(rules, 8, 2)
}

// Done where the rule table's length and head are right, whatever its application number, else 9. A version above 11h is
// no error.
pub fn check_rules(pair: Pair, rules: &[u8]) -> Result<(), Refusal>
    ensures { answer_number result ≡ rules_answer pair rules.now }
{
    if rules.len() != 32000 {
        return Err(Refusal::Rules);
    }
    let too_old = rules[3] < 0x11;
    if too_old {
        return Err(Refusal::Rules);
    }
    // byte 2 is ignored, and the version was tested above
    if field::read_at(rules, 0, 8) & 0xffff_0000_ffff_ffff != rules_front(pair) {
        return Err(Refusal::Rules);
    }
    // the count, 32, 02h, after the application number
    if (field::read_at(rules, 8, 8) >> 16) & 0xffff_ffff != 0x03e7_2002 {
        return Err(Refusal::Rules);
    }
    Ok(())
}

// The same, where the application number is to be the one given.
pub fn check_rules_for(pair: Pair, rules: &[u8], application: u64) -> Result<(), Refusal>
    ensures { answer_number result ≡ rules_answer_for pair application rules.now }
{
    check_rules(pair, rules)?;
    if rules_application(rules) != application {
        return Err(Refusal::Rules);
    }
    Ok(())
}
