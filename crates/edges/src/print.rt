// The line of a case, and the parts of its answer.
use formats::refusal::Refusal;
use formats::{refusal, table};
use tables::shop::Shop;

pub fn line(s: &[u8]) {
    io::write_all(1, s);
    io::write_all(1, b" ->");
}

pub fn end() {
    io::write_all(1, b"\n");
}

// The answer to a line that is no case.
pub fn unknown() {
    io::write_all(1, b" ?");
}

pub fn number(x: u64) {
    io::write_all(1, b" ");
    io::print_decimal(1, x);
}

pub fn byte(x: u8) {
    number(u64::from(x));
}

// 0 where it is done, else the number of what it is refused with.
pub fn answer(found: Result<(), Refusal>) {
    number(refusal::number(found));
}

pub fn bytes(s: &[u8]) {
    io::write_all(1, b" [");
    for x in s {
        io::print_hex(1, u64::from(*x), 2);
    }
    io::write_all(1, b"]");
}

// Rows and entries 1 to 4.
pub fn shop(shop: Shop) {
    bytes(table::part(shop.ledger, 24, 96));
    bytes(table::part(shop.card.titles, 16, 64));
    bytes(table::part(shop.card.rules, 32, 128));
}
