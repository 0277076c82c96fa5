// What names a title and an entry, and what a title is granted and wiped with. The numbers are any u64: their ranges are
// tested where they are used, by the functions here.
ghost use Rattle.std.specs.Prelude.{◌≡◌};
ghost use Rattle.formats.specs.Facts.{numbered, cci_passes, trigger_passes, count_passes, key_passes, in_range, facts_pass};

// A title's content ID, which is also its row in the ledger.
#[derive(Clone, Copy, Debug, PartialEq, Eq)]
pub struct ContentId(pub u64);

// The number of an entry on the card. It never serves as a content ID.
#[derive(Clone, Copy, Debug, PartialEq, Eq)]
pub struct EntryNumber(pub u64);

#[derive(Clone, Copy, Default, PartialEq, Eq)]
pub struct Facts {
    pub cci: u64,
    pub trigger: u64,
    pub rights: u64,
    pub permits: u64,
    pub title_key: u64,
    pub sti_key: u64,
}

// What a wipe writes over keys and rules.
#[derive(Clone, Copy)]
pub struct Fillers {
    pub f1: u64,
    pub f2: u64,
    pub f3: u64,
    pub f4: u64,
}

// Content IDs, entry numbers and the count of a ledger's rows are from 1 to this.
pub const LAST_NUMBER: u64 = 999;

pub const MOST_CCI: u64 = 3;

pub const MOST_TRIGGER: u64 = 1;

// Of move rights and permits.
pub const MOST_COUNT: u64 = 15;

pub const MOST_KEY: u64 = 0xff_ffff_ffff_ffff;

pub fn is_numbered(v: u64) -> bool
    ensures { result ≡ numbered v }
{
    (1..=LAST_NUMBER).contains(&v)
}

// Whether a CCI is 0, 2 or 3. Of these two tests the compiler makes no jumps, as it does of a pattern.
pub fn is_cci(v: u64) -> bool
    ensures { result ≡ cci_passes v }
{
    v <= MOST_CCI && v != 1
}

// This range and the next two differ in their last number, and each has a name and a definition: one function over that number would be
// no plainer where it is used.
pub fn is_trigger(v: u64) -> bool
    ensures { result ≡ trigger_passes v }
{
    v <= MOST_TRIGGER
}

// Whether move rights or permits are in their range.
pub fn is_count(v: u64) -> bool
    ensures { result ≡ count_passes v }
{
    v <= MOST_COUNT
}

pub fn is_key(v: u64) -> bool
    ensures { result ≡ key_passes v }
{
    v <= MOST_KEY
}

// Whether CCI, trigger, rights and permits are in their ranges.
#[tactic(auto, unfolding(crate::specs::Facts::in_range))]
pub fn in_range(facts: Facts) -> bool
    ensures { result ≡ in_range facts }
{
    is_cci(facts.cci)
        && is_trigger(facts.trigger)
        && is_count(facts.rights)
        && is_count(facts.permits)
}

// Whether the keys are too.
pub fn are_facts(facts: Facts) -> bool
    ensures { result ≡ facts_pass facts }
{
    in_range(facts) && is_key(facts.title_key) && is_key(facts.sti_key)
}
