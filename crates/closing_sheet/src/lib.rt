// The closing sheet: what a shop's ledger and card show of each title, as text.
#![tactic(auto)]

pub mod line;
pub mod sheet;
