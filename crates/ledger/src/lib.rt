// Positions in the options of one class, cell by cell: instructions, quotes, refusals, and the interface that every
// book and layer carries.
#![tactic(auto)]

pub mod actions;
pub mod books;
pub mod cells;
pub mod checks;
pub mod faults;
pub mod layering;
pub mod ledgers;
