// The byte formats of the music counter: the halves of entries, table heads and ledger rows.
// Each function's meaning is a definition of specs/, in the file of its module's name.
#![tactic(auto)]

pub mod entry;
pub mod facts;
pub mod field;
pub mod half;
pub mod head;
pub mod refusal;
pub mod row;
pub mod rule;
pub mod table;
pub mod title;
