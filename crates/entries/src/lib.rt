// The entry book: one record for each held cell.
#![tactic(auto)]

pub mod book;
