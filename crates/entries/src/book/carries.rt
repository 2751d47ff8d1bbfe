// How an entry book carries instructions, and lists what it holds.
ghost use Rattle.std.specs.Prelude.{◌≡◌, ℕ};
ghost use Rattle.ledger.specs.Books.{book_meaning};
ghost use Rattle.entries.specs.Books.{held_at, capacity_of, Keeps};
ghost use Rattle.entries.specs.Laws.{entry_lawful, entry_laws, keeps_capacity, keeps_still, keeps_onward};

use super::EntryBook;
use ledger::books::{Book, Holding, fill_quote};
use ledger::cells::{Cell, Instruction, Quote};
use ledger::checks::{WIDTH, check, is_fill};
use ledger::faults::{Fault, Reason};
use ledger::ledgers::Ledger;

impl Ledger for EntryBook {
    ghost meaning = { λ x. book_meaning 64 (capacity_of x) (held_at x) };

    ghost keeps = { λ x y. Keeps x y };

    ghost lawful = { entry_lawful };

    ghost still = { keeps_still };

    ghost onward = { keeps_onward };

    fn accounts(&self) -> usize {
        WIDTH
    }

    fn unused(&self) -> bool {
        self.live == 0
    }

    fn cell(&self, account: usize, series: usize) -> Cell {
        Cell::of_count(self.count(account, series))
    }

    // What it refuses whatever it holds, it refuses before it looks a cell up.
    fn quote(&self, i: Instruction) -> Result<Quote, Fault> {
        check(WIDTH, i)?;
        if !is_fill(i.action) {
            return Err(Fault::found(Reason::NoTaker));
        }
        let before = self.count(i.account, i.series);
        fill_quote(WIDTH, before, self.is_full(before), i)
    }

    fn instruct(&mut self, i: Instruction) -> Result<Quote, Fault> {
        let quote = self.quote(i)?;
        self.write(Holding {
            account: i.account,
            series: i.series,
            held: quote.held,
        });
        Ok(quote)
    }
}

impl Book for EntryBook {
    ghost capacity = { λ x. capacity_of x };

    ghost book = { entry_laws };

    ghost fixed = { keeps_capacity };

    fn next_held(&self, from: usize) -> Option<Holding> {
        let (Ok(k) | Err(k)) = self.find(from / WIDTH, from % WIDTH);
        self.held().get(k).copied()
    }
}
