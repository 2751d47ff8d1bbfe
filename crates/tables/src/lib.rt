// Signed numbers by account and series.
#![tactic(auto)]

ghost use Rattle.std.specs.Prelude.{◌≡◌, ℕ, ◌+◌, ◌*◌, ◌<◌, ◌≤◌, ◌⊎◌, IfOk, IfNone, IfSome, Decides};
ghost use Rattle.tables.specs.Tables.{at, rows_of, items, AllZero, Cleared, Wrote};

use std::alloc::{AllocError, Global};

// The widths are its own: this crate stands on no other.
const SERIES: usize = 64;

const MOST_ROWS: usize = 64;

const CELLS: usize = SERIES * MOST_ROWS;

// One number for each cell of whole rows of 64, at most 64 rows. What the memory has past them is never touched.
#[derive(Drop)]
pub struct Table {
    numbers: Vec<i64>,
}

impl Table {
    // All 0, with 64 rows.
    pub fn new(heap: Global) -> Result<Table, AllocError>
        ensures { IfOk result (λ t. (rows_of t ≡ 64) × AllZero t) }
    {
        let numbers = vec![in heap; 0; CELLS]?;
        Ok(Table { numbers })
    }

    // The whole rows of the memory, set to 0.
    pub fn over(memory: Vec<i64>) -> Table
        ensures { Cleared memory.items result }
    {
        let mut table = Table { numbers: memory };
        let end = table.rows() * SERIES;
        let (cells, _) = table.numbers.split_at_mut(end);
        cells.fill(0);
        table
    }

    pub fn into_memory(self) -> Vec<i64>
        ensures { result.items ≡ items self }
    {
        let Table { numbers } = self;
        numbers
    }

    pub fn rows(&self) -> usize
        ensures { result ≡ rows_of self.now }
    {
        (self.numbers.len() / SERIES).min(MOST_ROWS)
    }

    // Where the number of a cell stands, if there is such a cell.
    fn index(&self, account: usize, series: usize) -> Option<usize>
        ensures there { IfSome result (λ k. (series < 64) × (account < rows_of self.now) × (k ≡ 64 * account + series)) }
        ensures none { IfNone result ((64 ≤ series) ⊎ (rows_of self.now ≤ account)) }
    {
        if series < SERIES && account < self.rows() {
            Some(SERIES * account + series)
        } else {
            None
        }
    }

    // The number of a cell, and 0 where there is none.
    #[tactic(auto, using(crate::proofs::Rows::number_out, crate::proofs::Rows::number_in, std::proofs::lemmas::List::get_or_read))]
    pub fn at(&self, account: usize, series: usize) -> i64
        ensures { result ≡ at self.now account series }
    {
        let Some(k) = self.index(account, series) else {
            return 0;
        };
        self.numbers[k]
    }

    // Sets the number of a cell. Where there is none, nothing changes.
    pub fn put(&mut self, account: usize, series: usize, n: i64)
        ensures { Wrote self.old self.new account series n }
    {
        if let Some(k) = self.index(account, series) {
            self.numbers[k] = n;
        }
    }

    pub fn is_zero(&self) -> bool
        ensures { Decides result (AllZero self.now) }
    {
        let end = self.rows() * SERIES;
        // No `all`, which takes half as long again.
        for n in &self.numbers[..end] {
            if *n != 0 {
                return false;
            }
        }
        true
    }
}
