// Numbers in groups of seven bits, and the seven calls as requests made of them.
// Each function's meaning is a definition of specs/, in the file of its module's name.
#![tactic(auto)]

pub mod number;
pub mod read;
pub mod request;
