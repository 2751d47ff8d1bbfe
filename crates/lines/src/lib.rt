// The text of lines: instructions in, answers and sheets out.
#![tactic(auto)]

mod fields;
pub mod reading;
#[cfg(test)]
mod tests;
pub mod writing;
