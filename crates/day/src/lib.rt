// A day's lines carried through a ledger, and the sheet of a book.
#![tactic(auto)]

pub mod carrying;
pub mod cuts;
pub mod sheets;
pub mod stacks;
