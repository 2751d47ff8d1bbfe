// A cell is one account in one series: its six numbers, an instruction to it, and what is quoted for it.
ghost use Rattle.std.specs.Prelude.{◌≡◌};
ghost use Rattle.ledger.specs.Books.{book_cell, flat};
ghost use Rattle.ledger.specs.Cells.{standing};

use crate::actions::Action;

// The six numbers of a cell. The count at expiry may be any whole number from low to high.
#[derive(Clone, Copy, PartialEq, Eq, Debug)]
pub struct Cell {
    pub held: i64,
    pub low: i64,
    pub high: i64,
    pub buys: i64,
    pub sells: i64,
    pub cover: i64,
}

#[derive(Clone, Copy, PartialEq, Eq, Debug)]
pub struct Instruction {
    pub action: Action,
    pub account: usize,
    pub series: usize,
    pub amount: i64,
}

// Held, low and high after an instruction. Anyone may make a quote of any numbers: that those of a ledger are in range is
// said by clauses.
#[derive(Clone, Copy, PartialEq, Eq, Debug)]
pub struct Quote {
    pub held: i64,
    pub low: i64,
    pub high: i64,
}

impl Cell {
    // A cell of which no more is known than the count that is held.
    pub fn of_count(held: i64) -> Cell
        ensures { result ≡ book_cell held }
    {
        Cell {
            held,
            low: held,
            high: held,
            buys: 0,
            sells: 0,
            cover: 0,
        }
    }
}

impl Quote {
    // The count alone, with no range around it.
    pub fn of_count(held: i64) -> Quote
        ensures { result ≡ flat held }
    {
        Quote::from(Cell::of_count(held))
    }
}

// The cell as it stands.
impl From<Cell> for Quote {
    ghost from_gives = { λ cell quote. quote ≡ standing cell };

    fn from(cell: Cell) -> Quote {
        Quote {
            held: cell.held,
            low: cell.low,
            high: cell.high,
        }
    }
}
