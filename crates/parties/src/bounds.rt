// The limits of the parties, side by side.
ghost use Rattle.std.specs.Prelude.{◌≡◌, ℕ, true};
ghost use Rattle.parties.specs.Tables.{limiting, proper};
ghost use Rattle.parties.specs.Limits.{limits_of, none_set, settable, Set};

use crate::Limits;
use crate::level::Level;
use crate::record::LimitRecord;
use expiry::side::Side;
use ledger::checks::WIDTH;
use ledger::faults::{Fault, Reason};

// No quantity of 64 accounts in 32 strikes comes near it, so a limit of this size never binds.
const HIGHEST: i64 = 100_000_000_000_000_000;

// Whether a limit is in its range.
pub fn is_limit(limit: i64) -> bool
    ensures { result ≡ limiting limit }
{
    0 <= limit && limit <= HIGHEST
}

impl Limits {
    // Every limit is missing.
    pub fn new() -> Limits
        ensures { limits_of result ≡ none_set }
    {
        let none = LimitRecord {
            long: None,
            short: None,
        };
        Limits {
            records: [[none; WIDTH]; 4],
        }
    }

    // The limit of a party on a side; a party above 63 has none.
    pub fn get(&self, level: Level, party: usize, side: Side) -> Option<i64>
        ensures value { result ≡ limits_of self.now level party side }
        ensures proper { proper result ≡ true }
    {
        if party >= WIDTH {
            return None;
        }
        self.records[usize::from(level)][party].on(side)
    }

    // Sets a limit: the one side of the one party.
    pub fn set(&mut self, level: Level, party: usize, side: Side, limit: i64) -> Result<(), Fault>
        ensures answer { result ≡ settable party limit }
        ensures left { Set self.old self.new level party side limit result }
    {
        if party >= WIDTH {
            return Err(Fault::found(Reason::Unknown));
        }
        if !is_limit(limit) {
            return Err(Fault::found(Reason::Amount));
        }
        let row = &mut self.records[usize::from(level)];
        *row[party].on_mut(side) = Some(limit);
        Ok(())
    }
}
