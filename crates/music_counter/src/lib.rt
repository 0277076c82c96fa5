// The music counter: the seven calls over a ledger and a card, and serving them from request bytes. Here are the writers that
// the calls share; each writes places that its caller has found to be in their tables.
#![tactic(auto)]

ghost use Rattle.std.specs.Prelude.{◌≡◌, ◌+◌, ◌*◌, ◌≤◌, length};
ghost use Rattle.requests.specs.declared.request.Request.TheVariants.{Record};
ghost use Rattle.formats.specs.Part.{put};
ghost use Rattle.formats.specs.Half.{wiped};
ghost use Rattle.formats.specs.Title.{title_half};
ghost use Rattle.formats.specs.Rule.{rule_half, wiped_rule};
ghost use Rattle.formats.specs.Row.{here_row, plain_row, with_permits};
ghost use Rattle.calls.specs.Buffers.{buffers_of, row_at, title_at, rule_at};
ghost use Rattle.calls.specs.Effect.{effect};
ghost use Rattle.music_counter.specs.Answer.{Inside};

use formats::facts::{ContentId, EntryNumber, Facts, Fillers};
use formats::{row, rule, title};

pub mod check_in;
pub mod check_out;
pub mod delete;
pub mod move_in;
pub mod move_out;
pub mod preview;
pub mod record;
pub mod register;
pub mod serve;

// The pair, ledger, titles and rules stay parameters of what writes them. C lends the rule table read-only to check-out and check-in and
// no card to register, so that `serve::perform` would take a struct of them apart for three of seven calls; and of a struct with three
// `&mut` in it each contract would also say that the slices are still the caller's, as those of `text::Text` do.

// The seven writers stay apart, where one that takes the writer of the slot as a closure was proved too: each call would have to turn
// its closure's clause into the equation that stands here once. What a function that hands out a slot as `&mut` promises of the table is
// no equation either, but a clause of the logic below. That a slot lies in its table is asked by each, of its own width and place.

// A row is here with these facts.
fn set_here(ledger: &mut [u8], content: ContentId, facts: Facts)
    requires { 24 * content.0 + 24 ≤ length ledger.old }
    ensures { ledger.new ≡ put ledger.old (24 * content.0) (here_row facts) }
{
    let a = 24 * (content.0 as usize);
    row::write_here(&mut ledger[a..a + 24], facts);
}

// A row is in another state.
fn set_plain(ledger: &mut [u8], content: ContentId, state: u8)
    requires { 24 * content.0 + 24 ≤ length ledger.old }
    ensures { ledger.new ≡ put ledger.old (24 * content.0) (plain_row state) }
{
    let a = 24 * (content.0 as usize);
    row::write_plain(&mut ledger[a..a + 24], state);
}

// A row has other permits; no other byte of it changes.
fn set_permits(ledger: &mut [u8], content: ContentId, permits: u64)
    requires { 24 * content.0 + 24 ≤ length ledger.old }
    ensures { ledger.new ≡ put ledger.old (24 * content.0)
        (with_permits (row_at ledger.old content.0) permits) }
{
    let a = 24 * (content.0 as usize);
    row::write_permits(&mut ledger[a..a + 24], permits);
}

fn write_title(titles: &mut [u8], entry: EntryNumber, cci: u64, key: u64, content: ContentId)
    requires { 16 * entry.0 + 16 ≤ length titles.old }
    ensures { titles.new ≡ put titles.old (16 * entry.0) (title_half cci key content.0) }
{
    let a = 16 * (entry.0 as usize);
    title::write(&mut titles[a..a + 16], cci, key, content);
}

fn write_rule(rules: &mut [u8], entry: EntryNumber, facts: Facts, hash: u64, content: ContentId)
    requires { 32 * entry.0 + 32 ≤ length rules.old }
    ensures { rules.new ≡ put rules.old (32 * entry.0) (rule_half facts hash content.0) }
{
    let a = 32 * (entry.0 as usize);
    rule::write(&mut rules[a..a + 32], facts, hash, content);
}

fn wipe_title(titles: &mut [u8], entry: EntryNumber, f1: u64)
    requires { 16 * entry.0 + 16 ≤ length titles.old }
    ensures { titles.new ≡ put titles.old (16 * entry.0)
        (wiped (title_at titles.old entry.0) f1) }
{
    let a = 16 * (entry.0 as usize);
    title::wipe(&mut titles[a..a + 16], f1);
}

fn wipe_rule(rules: &mut [u8], entry: EntryNumber, fillers: Fillers)
    requires { 32 * entry.0 + 32 ≤ length rules.old }
    ensures { rules.new ≡ put rules.old (32 * entry.0)
        (wiped_rule (rule_at rules.old entry.0) fillers) }
{
    let a = 32 * (entry.0 as usize);
    rule::wipe(&mut rules[a..a + 32], fillers);
}

// A title leaves the ledger for an entry: its row is away, and the entry is full.
fn put_on_card(
    ledger: &mut [u8],
    titles: &mut [u8],
    rules: &mut [u8],
    content: ContentId,
    entry: EntryNumber,
    facts: Facts,
    hash: u64,
)
    requires { Inside (Record content entry facts hash) (buffers_of ledger.old titles.old rules.old) }
    ensures { buffers_of ledger.new titles.new rules.new
        ≡ effect (Record content entry facts hash) (buffers_of ledger.old titles.old rules.old) }
{
    set_plain(ledger, content, row::AWAY);
    write_title(titles, entry, facts.cci, facts.title_key, content);
    write_rule(rules, entry, facts, hash, content);
}
