// The grid book: one number for every cell.
#![tactic(auto)]

ghost use Rattle.std.specs.Prelude.{◌≡◌, ℕ, ◌*◌, ◌<◌, pos, slice_index_or};
ghost use Rattle.ledger.specs.Actions.{Within};
ghost use Rattle.ledger.specs.Listing.{place};
ghost use Rattle.tables.specs.Tables.{at, items, rows_of, Cleared, Untouched};
ghost use Rattle.grid.specs.Grids.{grid_meaning, grid_capacity, holding_at};
ghost use Rattle.grid.specs.GridsLemmas.{grid_lawful, grid_laws};
ghost use Rattle.tables.proofs.Writes.{untouched_still, untouched_onward};
ghost use Rattle.std.proofs.Common.{ap};

use ledger::books::{Book, Holding, fill_quote};
use ledger::cells::{Cell, Instruction, Quote};
use ledger::checks::WIDTH;
use ledger::faults::Fault;
use ledger::ledgers::Ledger;
use tables::Table;

// Takes an account for each whole row of 64 numbers in its memory, at most 64, and can hold every cell of them.
#[derive(Drop)]
pub struct GridBook {
    held: Table,
    ghost near: { (a s : ℕ) → Within (at held a s) },
}

impl GridBook {
    // Nothing is held. The memory past the whole rows stays as it is, then and later.
    pub fn new(memory: Vec<i64>) -> GridBook
        ensures { Cleared memory.items result.held }
    {
        let held = Table::over(memory);
        GridBook { held }
    }

    // The memory had back: the count of every cell at its place, and past them what was there.
    pub fn into_memory(self) -> Vec<i64>
        ensures whole { result.items ≡ items self.held }
        ensures counts { (a s : ℕ) → a < rows_of self.held → s < 64 → slice_index_or result.items (place a s) (pos 0) ≡ at self.held a s }
    {
        let GridBook { held } = self;
        held.into_memory()
    }

    // What is held at a place.
    fn holding(&self, place: usize) -> Holding
        ensures { result ≡ holding_at self.now.held place }
    {
        let account = place / WIDTH;
        let series = place % WIDTH;
        Holding {
            account,
            series,
            held: self.held.at(account, series),
        }
    }
}

impl Ledger for GridBook {
    ghost meaning = { λ x. grid_meaning x.held };

    ghost keeps = { λ x y. Untouched x.held y.held };

    ghost lawful = { λ x. grid_lawful x.held x.near };

    ghost still = { λ x. untouched_still x.held };

    ghost onward = { λ x y z. untouched_onward x.held y.held z.held };

    fn accounts(&self) -> usize {
        self.held.rows()
    }

    fn unused(&self) -> bool {
        self.held.is_zero()
    }

    fn cell(&self, account: usize, series: usize) -> Cell {
        Cell::of_count(self.held.at(account, series))
    }

    // It is never full.
    fn quote(&self, i: Instruction) -> Result<Quote, Fault> {
        let held = self.held.at(i.account, i.series);
        fill_quote(self.held.rows(), held, false, i)
    }

    fn instruct(&mut self, i: Instruction) -> Result<Quote, Fault> {
        let quote = self.quote(i)?;
        self.held.put(i.account, i.series, quote.held);
        Ok(quote)
    }
}

impl Book for GridBook {
    ghost capacity = { λ x. grid_capacity x.held };

    ghost book = { λ x. grid_laws x.held };

    ghost fixed = { λ x y k. ap (λ n. 64 * n) k.rows };

    fn next_held(&self, from: usize) -> Option<Holding> {
        let end = self.held.rows() * WIDTH;
        (from..end).map(|p| self.holding(p)).find(|h| h.held != 0)
    }
}
