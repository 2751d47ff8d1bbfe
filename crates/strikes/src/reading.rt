// What a class is read for: its strikes and its listed prices.
ghost use Rattle.std.specs.Prelude.{◌≡◌, length};
ghost use Rattle.strikes.specs.Strikes.{Lawful, prices};
ghost use Rattle.strikes.specs.Listed.{listed, At};
ghost use Rattle.strikes.specs.Classes.{strikes_of};

use crate::Class;
use crate::strike::Strike;

impl Class {
    pub fn count(&self) -> usize
        ensures { result ≡ length (strikes_of self.now) }
    {
        self.strikes.len()
    }

    pub fn strikes(&self) -> &[Strike]
        ensures value { result.now ≡ strikes_of self.now }
        ensures lawful { Lawful result.now }
    {
        &self.strikes
    }

    // The listed price at a place, doubled. There are 2n + 1 places for n strikes.
    pub fn listed_price(&self, place: usize) -> Option<u64>
        ensures { At (listed (prices (strikes_of self.now))) place result }
    {
        // Strike i's own price stands at 2i + 1, and the one between it and the next at 2i + 2.
        let Some(after) = place.checked_sub(1) else {
            return Some(0);
        };
        let price = self.strikes.get(after / 2)?.price;
        if after % 2 == 0 {
            return Some(2 * price);
        }
        match self.strikes.get(after / 2 + 1) {
            Some(next) => Some(price + next.price),
            None => Some(2 * price + 2),
        }
    }
}
