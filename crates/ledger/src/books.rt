// Books: ledgers that hold the counts themselves, and list the cells that they hold.
ghost use Rattle.std.specs.Prelude.{◌≡◌, ℕ, Option};
ghost use Rattle.ledger.specs.Books.{filled, BookLaws};
ghost use Rattle.ledger.specs.Listing.{FirstHeld};

use crate::cells::{Instruction, Quote};
use crate::checks::{check, is_fill, is_within};
use crate::faults::{Fault, Reason};
use crate::ledgers::Ledger;

// A held cell.
#[derive(Clone, Copy, PartialEq, Eq, Debug)]
pub struct Holding {
    pub account: usize,
    pub series: usize,
    pub held: i64,
}

pub trait Book: Ledger {
    // How many cells it can hold.
    ghost capacity: { Self → ℕ };

    // The first held cell from a place on, where a cell's place is 64 × account + series.
    fn next_held(&self, from: usize) -> Option<Holding>
        ensures { FirstHeld (Self.Ledger.meaning self.now).cell from result };

    // The laws of every book.
    ghost book: { (x : Self) → BookLaws (Self.Ledger.meaning x) (capacity x) };

    // No instruction changes the capacity.
    ghost fixed: { (x y : Self) → Self.Ledger.keeps x y → capacity y ≡ capacity x };
}

// What a book that takes so many accounts answers, where the cell holds `before`: it only fills, within reach, and not
// where it is full.
pub fn fill_quote(accounts: usize, before: i64, full: bool, i: Instruction) -> Result<Quote, Fault>
    ensures { result ≡ filled accounts before full i }
{
    check(accounts, i)?;
    if !is_fill(i.action) {
        return Err(Fault::found(Reason::NoTaker));
    }
    let held = before.saturating_add(i.amount);
    if !is_within(held) {
        return Err(Fault::found(Reason::Reach));
    }
    if full {
        return Err(Fault::found(Reason::Full));
    }
    Ok(Quote::of_count(held))
}
