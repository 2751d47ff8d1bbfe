// What every book and every layer promises.
ghost use Rattle.std.specs.Prelude.{◌≡◌, ℕ, Decides};
ghost use Rattle.ledger.specs.Meanings.{Meaning, Lawful, Instructed};

use crate::cells::{Cell, Instruction, Quote};
use crate::faults::Fault;

pub trait Ledger {
    // The six numbers of every cell, the accounts taken, every instruction's quote, and whether it says unused.
    ghost meaning: { Self → Meaning };

    // What an instruction keeps besides, from the value before to the value after. Nothing is asked for here.
    ghost keeps: { Self → Self → Type 0 } = { λ _ _. Unit {0} };

    // How many accounts it takes, numbered from 0.
    fn accounts(&self) -> usize
        ensures { result ≡ (meaning self.now).taken };

    // Whether nothing is held, rests or is covered anywhere in it.
    fn unused(&self) -> bool
        ensures { Decides result (meaning self.now).unused };

    // The six numbers of a cell. Account and series are two numbers here and wherever a cell is named, since this is what every
    // maker of a ledger writes.
    fn cell(&self, account: usize, series: usize) -> Cell
        ensures { result ≡ (meaning self.now).cell account series };

    // What the instruction would come to, or its refusal.
    fn quote(&self, i: Instruction) -> Result<Quote, Fault>
        ensures { result ≡ (meaning self.now).quoted i };

    // Answers the quote. Obeyed, the instruction's cell is as quoted; refused, nothing has changed.
    fn instruct(&mut self, i: Instruction) -> Result<Quote, Fault>
        ensures carried { Instructed meaning self.old self.new i result }
        ensures kept { keeps self.old self.new };

    // The laws of every ledger, in every value.
    ghost lawful: { (x : Self) → Lawful (meaning x) };

    // An instruction that changes nothing keeps everything.
    ghost still: { (x : Self) → keeps x x };

    // What each instruction of a run keeps, the run keeps.
    ghost onward: { (x y z : Self) → keeps x y → keeps y z → keeps x z };
}
