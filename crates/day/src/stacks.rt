// A day over cover above orders above a grid book of 64 accounts.
ghost use Rattle.std.specs.Prelude.{◌≡◌, ℕ, map, IfOk};
ghost use Rattle.day.specs.Days.{buffer};
ghost use Rattle.day.specs.Stacks.{Fresh, Day};

use crate::carrying::carry_lines;
use crate::cuts::cut_lines;
use crate::sheets::add_sheet;
use cover::CoverLayer;
use grid::GridBook;
use ledger::checks::WIDTH;
use lines::writing::OutputLine;
use orders::OrderLayer;
use std::alloc::{AllocError, Global};

// A number for each cell of 64 accounts.
const CELLS: usize = WIDTH * WIDTH;

// Nothing is held, rests or is covered.
fn new_stack(heap: Global) -> Result<CoverLayer<OrderLayer<GridBook>>, AllocError>
    ensures { IfOk result (λ x. Fresh x) }
{
    let memory = vec![in heap; 0; CELLS]?;
    let orders = OrderLayer::new(GridBook::new(memory), heap)?;
    Ok(CoverLayer::new(orders, heap)?)
}

// The answers to the lines of the input, in order, and then the sheet of the book.
pub fn run_day(heap: Global, input: &[u8]) -> Result<Vec<OutputLine>, AllocError>
    ensures { IfOk result (λ v. Day input.now (map buffer v.items)) }
{
    let mut stack = new_stack(heap)?;
    let lines = cut_lines(heap, input)?;
    let answers = carry_lines(heap, &mut stack, lines.as_slice())?;
    add_sheet(heap, answers, stack.below().below())
}
