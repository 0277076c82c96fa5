// Why a call, a reader or a writer refuses, by the paper's numbers.
ghost use Rattle.std.specs.Prelude.{◌≡◌};
ghost use Rattle.formats.specs.Refusal.{number_of, answer_number};

#[derive(Clone, Copy, Debug, PartialEq, Eq)]
pub enum Refusal {
    // Request bytes end too early, or too little room for them.
    TooShort = 1,
    // A number that is not in its shortest form or too large.
    Number = 2,
    // No such kind of request.
    Kind = 3,
    // Content ID (in formatting: rows) not 1 to 999.
    ContentId = 4,
    // Entry number not 1 to 999.
    EntryNumber = 5,
    // A fact out of range.
    Facts = 6,
    // Ledger length or head wrong.
    Ledger = 7,
    // Title table length or head wrong.
    Titles = 8,
    // Rule table length, head or application number wrong.
    Rules = 9,
    // Entry not of the kind needed.
    KindOfEntry = 10,
    // Row above R or not in the state needed.
    StateOfRow = 11,
    // No permit left, no move right left, or the trigger is set.
    NothingLeft = 12,
    // Hash differs from the stored one.
    Hash = 13,
    // A copy of the title is on the card.
    CopyOut = 14,
    // Permits are 14 already.
    PermitsFull = 15,
    // A filler would leave a key in place.
    Filler = 16,
    // More than 16 requests in a basket.
    Basket = 17,
    // A scratch buffer whose length is not its original's.
    Scratch = 18,
}

impl From<Refusal> for u64 {
    ghost from_gives = { λ refusal n. n ≡ number_of refusal };

    fn from(refusal: Refusal) -> u64 {
        refusal as u64
    }
}

// 0 where it is done, else the refusal's number.
pub fn number<T: Drop>(answer: Result<T, Refusal>) -> u64
    ensures { result ≡ answer_number answer }
{
    match answer {
        Ok(_) => 0,
        Err(refusal) => u64::from(refusal),
    }
}
