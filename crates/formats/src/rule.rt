// The rule half of an entry: the 32 bytes of the rule table that it occupies. A part of another length is left as it is.
ghost use Rattle.std.specs.Prelude.{◌≡◌, ◌+◌, ◌*◌, ◌%◌, ◌^◌};
ghost use Rattle.formats.specs.Part.{replaced};
ghost use Rattle.formats.specs.Rule.{trigger_of, rights_of, permits_of, hash_of, rule_half, wiped_rule};

use crate::facts::{ContentId, Facts, Fillers};
use crate::{field, half, table};

pub fn trigger(rule: &[u8]) -> u64
    ensures { result ≡ trigger_of rule.now }
{
    u64::from(table::byte(rule, 16) >> 7)
}

pub fn rights(rule: &[u8]) -> u64
    ensures { result ≡ rights_of rule.now }
{
    u64::from(table::byte(rule, 17) >> 4)
}

pub fn permits(rule: &[u8]) -> u64
    ensures { result ≡ permits_of rule.now }
{
    u64::from(table::byte(rule, 17) & 0x0f)
}

// C_HASH, in bytes 18 to 25.
pub fn hash(rule: &[u8]) -> u64
    ensures { result ≡ hash_of rule.now }
{
    field::read_at(rule, 18, 8)
}

// Trigger, move rights and permits in bytes 16 and 17, the top of a field of eight bytes.
fn counts(facts: Facts) -> u64
    ensures { result ≡ (facts.trigger % 2 * 32768 + facts.rights % 16 * 16 + facts.permits % 16) * 2 ^ 48 }
{
    ((facts.trigger & 1) << 63) | ((facts.rights & 0x0f) << 52) | ((facts.permits & 0x0f) << 48)
}

// Writes a rule half, usable from then on.
pub fn write(rule: &mut [u8], facts: Facts, hash: u64, content: ContentId)
    ensures { rule.new ≡ replaced 32 (rule_half facts hash content.0) rule.old }
{
    if rule.len() != 32 {
        return;
    }
    half::write(&mut *rule, 0, facts.sti_key, content);
    field::write(&mut rule[16..24], counts(facts) | (hash >> 16));
    field::write(&mut rule[24..32], hash << 48);
}

// Writes f2 over bytes 0 to 7 and f3 and f4 over bytes 16 to 31, and clears the flag. Every other bit stays.
pub fn wipe(rule: &mut [u8], fillers: Fillers)
    ensures { rule.new ≡ replaced 32 (wiped_rule rule.old fillers) rule.old }
{
    if rule.len() != 32 {
        return;
    }
    half::wipe(&mut *rule, fillers.f2);
    field::write(&mut rule[16..24], fillers.f3);
    field::write(&mut rule[24..32], fillers.f4);
}
