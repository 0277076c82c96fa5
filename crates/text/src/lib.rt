// Text in a lent buffer: decimal numbers and words. Each writer starts at the text's place and moves it behind what it wrote; where there
// is no room for all of it, it writes nothing.
#![tactic(auto)]

ghost use Rattle.std.specs.Prelude.{◌≡◌, ◌+◌, ◌≤◌, ◌↔◌, length, IsTrue};
ghost use Rattle.text.specs.Text.{decimal, field, placed, place_after};

// How many digits a number has. The loop stays: `checked_ilog10` takes twice its time for the short numbers that a sheet has.
#[tactic(auto, using(crate::proofs::Decimal::length_last, crate::proofs::Decimal::length_more, crate::proofs::Decimal::length_word))]
pub fn len(n: u64) -> usize
    ensures digits { result ≡ length (decimal n) }
    ensures at_most_20 { result ≤ 20 }
{
    let mut count: usize = 1;
    let mut left = n;
    while 10 <= left {
        left /= 10;
        count += 1;
    }
    count
}

// A buffer and the place in it where the next text goes. What writes into it are methods and functions that take it, and no `Display`: what
// `write!` leaves is known of a `String` alone, and that is on the heap. Each says too that the slice is still the one that was lent
// (`name`), and asks for room for what it writes: an invariant is of one moment, and knows neither.
#[derive(Drop)]
pub struct Text<'a> {
    pub out: &'a mut [u8],
    pub at: usize,
}

impl<'a> Text<'a> {
    // Whether there is room for so many bytes.
    fn has_room(&self, count: usize) -> bool
        ensures { IsTrue result ↔ (self.now.at + count ≤ length self.now.out.now) }
    {
        self.at <= self.out.len() && count <= self.out.len() - self.at
    }

    // Writes a number, and behind it the byte that ends it, a space or a line end.
    #[tactic(auto, using(crate::proofs::Decimal::printed_length, crate::proofs::Decimal::ended), unfolding(crate::specs::Text::field, crate::specs::Text::placed, crate::specs::Text::place_after))]
    #[inline]
    pub fn number(&mut self, n: u64, end: u8)
        ensures place { self.new.at ≡ place_after self.old.out.now self.old.at (field n end) }
        ensures written { self.new.out.now ≡ placed self.old.out.now self.old.at (field n end) }
        ensures name { self.new.out.ghost_name ≡ self.old.out.ghost_name }
    {
        let digits = len(n);
        if self.has_room(digits + 1) {
            let behind = self.at + digits;
            itoa::write_digits(n, self.out, behind);
            self.out[behind] = end;
            self.at = behind + 1;
        }
    }

    // Writes a word, which stands in the buffer as it is.
    #[tactic(auto, using(crate::proofs::Placed::copied), unfolding(crate::specs::Text::placed, crate::specs::Text::place_after))]
    #[inline]
    pub fn word(&mut self, word: &[u8])
        ensures place { self.new.at ≡ place_after self.old.out.now self.old.at word.now }
        ensures written { self.new.out.now ≡ placed self.old.out.now self.old.at word.now }
        ensures name { self.new.out.ghost_name ≡ self.old.out.ghost_name }
    {
        if self.has_room(word.len()) {
            let behind = self.at + word.len();
            self.out[self.at..behind].copy_from_slice(word);
            self.at = behind;
        }
    }
}
