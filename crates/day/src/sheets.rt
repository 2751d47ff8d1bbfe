// The held cells of a book.
ghost use Rattle.std.specs.Prelude.{IfOk};
ghost use Rattle.day.specs.Sheets.{Listing, AddsSheet};

use ledger::books::{Book, Holding};
use ledger::checks::WIDTH;
use lines::writing::{OutputLine, sheet_line};
use std::alloc::{AllocError, Global};

// The held cells of a book from a place on, in the order of places.
#[derive(Drop)]
struct HeldCells<'a, B> {
    book: &'a B,
    from: usize,
}

impl<'a, B: Book> Iterator for HeldCells<'a, B> {
    type Item = Holding;

    ghost use Rattle.std.specs.Prelude.{◌-◌};
    ghost use Rattle.std.specs.Iterator.{at_most};
    ghost use Rattle.day.specs.Sheets.{GivesNext};

    ghost next_gives = { GivesNext B.Ledger.meaning };

    ghost remaining = { λ s. at_most (4096 - s.from) };

    fn next(&mut self) -> Option<Holding> {
        let h = self.book.next_held(self.from)?;
        // The place behind its own. Computed here: a method of every `Holding` would have to answer accounts of any size.
        self.from = WIDTH * h.account + h.series + 1;
        Some(h)
    }
}

// Every held cell, once, in the order of places.
pub fn holdings<B: Book>(heap: Global, book: &B) -> Result<Vec<Holding>, AllocError>
    ensures { IfOk result (λ v. Listing (B.Ledger.meaning book.now).cell v.items) }
{
    HeldCells { book, from: 0 }.collect(heap)
}

// The sheet of a book, behind the lines that are there: a line for each held cell.
pub fn add_sheet<B: Book>(
    heap: Global,
    mut lines: Vec<OutputLine>,
    book: &B,
) -> Result<Vec<OutputLine>, AllocError>
    ensures { IfOk result (λ v. AddsSheet (B.Ledger.meaning book.now).cell lines.items v.items) }
{
    for h in &holdings(heap, book)? {
        lines.push(sheet_line(*h))?;
    }
    Ok(lines)
}
