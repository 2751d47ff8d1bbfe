// A class is made empty, and extended by one strike at a time.
ghost use Rattle.std.specs.Prelude.{◌≡◌, ℕ, []};
ghost use Rattle.strikes.specs.Classes.{strikes_of, highest, comes_next, extended, Extended};

use crate::Class;
use crate::strike::Strike;
use arrayvec::ArrayVec;
use ledger::faults::{Fault, Reason};

const HIGHEST_PRICE: u64 = 10_000_000;

const LARGEST_SIZE: u64 = 10_000;

impl Class {
    // A class with no strike.
    pub fn new() -> Class
        ensures { strikes_of result ≡ [] }
    {
        Class {
            strikes: ArrayVec::new(),
        }
    }

    // The highest price so far, 0 where there is none.
    fn highest(&self) -> u64
        ensures { result ≡ highest (strikes_of self.now) }
    {
        self.strikes.last().map_or(0, |strike| strike.price)
    }

    // Whether a strike may come next.
    fn takes(&self, price: u64, size: u64) -> bool
        ensures { result ≡ comes_next (strikes_of self.now) price size }
    {
        1 <= price
            && price <= HIGHEST_PRICE
            && 1 <= size
            && size <= LARGEST_SIZE
            && self.highest() < price
    }

    // Adds a strike above the last.
    pub fn add(&mut self, price: u64, size: u64) -> Result<(), Fault>
        ensures answer { result ≡ extended (strikes_of self.old) price size }
        ensures left { Extended self.old self.new price size result }
    {
        if self.strikes.is_full() {
            return Err(Fault::found(Reason::ClassFull));
        }
        if !self.takes(price, size) {
            return Err(Fault::found(Reason::Strike));
        }
        self.strikes.push(Strike { price, size });
        Ok(())
    }
}
