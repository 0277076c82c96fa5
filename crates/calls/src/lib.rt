// What the seven calls mean. Their definitions and the history theorem are in specs/ and proofs/; the code here is what the
// calls share.
#![tactic(auto)]

pub mod count;
