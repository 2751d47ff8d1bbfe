// The strikes of a class of options, and the prices that they list.
#![tactic(auto)]

ghost use Rattle.strikes.specs.Strikes.{Lawful};

mod adding;
mod reading;
pub mod strike;

use arrayvec::ArrayVec;
use strike::Strike;

// How many strikes a class has room for.
const ROOM: usize = 32;

// The strikes of one class, in rising order of price. Strike i has the call series 2i and the put series 2i + 1.
#[derive(Drop)]
pub struct Class {
    strikes: ArrayVec<Strike, ROOM>,
    ghost lawful: { Lawful strikes.items },
}
