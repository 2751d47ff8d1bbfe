// The four levels of parties.
ghost use Rattle.std.specs.Prelude.{◌≡◌};
ghost use Rattle.ledger.specs.Faults.{Numbered};
ghost use Rattle.parties.specs.Levels.{level_number};

use ledger::faults::{Fault, Reason};

// Each level with its published number.
#[derive(Clone, Copy, PartialEq, Eq, Debug)]
pub enum Level {
    Account = 0,
    Holder = 1,
    Group = 2,
    Participant = 3,
}

impl Level {
    // In the order of their numbers.
    pub const ALL: [Level; 4] = [
        Level::Account,
        Level::Holder,
        Level::Group,
        Level::Participant,
    ];
}

impl From<Level> for usize {
    ghost from_gives = { λ level n. n ≡ level_number level };

    fn from(level: Level) -> usize {
        level as usize
    }
}

// The level of a number, if there is one. Each enum has a match of its own over the one law: a search among all levels
// would be no plainer.
impl TryFrom<usize> for Level {
    type Error = Fault;

    ghost try_from_gives = { Numbered level_number };

    fn try_from(number: usize) -> Result<Level, Fault> {
        match number {
            0 => Ok(Level::Account),
            1 => Ok(Level::Holder),
            2 => Ok(Level::Group),
            3 => Ok(Level::Participant),
            _ => Err(Fault::found(Reason::Unknown)),
        }
    }
}
