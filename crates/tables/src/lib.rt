// Ledger and card as tables: formatting, reading and counting what stands in them.
#![tactic(auto)]

pub mod by_title;
pub mod card;
pub mod copies;
pub mod format;
pub mod ledger;
pub mod shop;
pub mod tally;
