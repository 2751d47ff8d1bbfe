// Limits on what each party might take or hand over at expiry, over any ledger.
#![tactic(auto)]

mod asking;
mod calling;
mod change;
mod checking;
mod phase;
mod range;
mod running;
mod summing;

use ledger::ledgers::Ledger;
use parties::{Directory, Limits};
use phase::Phase;
use strikes::Class;

// Owns the ledger: from its making on, only its calls change the ledger.
#[derive(Drop)]
pub(crate) struct Limiter<L: Ledger> {
    phase: Phase,
    class: Class,
    directory: Directory,
    limits: Limits,
    ledger: L,
}
