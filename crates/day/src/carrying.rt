// Lines carried through any ledger.
ghost use Rattle.std.specs.Prelude.{◌≡◌, ℕ, map, IfOk, OnErr};
ghost use Rattle.day.specs.Days.{buffer, Carries, Serves};
ghost use Rattle.day.specs.Runs.{Run};

use ledger::cells::Quote;
use ledger::faults::Fault;
use ledger::ledgers::Ledger;
use lines::reading::read_line;
use lines::writing::{OutputLine, answer_line};
use std::alloc::{AllocError, Global};

// One line, if it is an instruction's.
fn carry_line<L: Ledger>(ledger: &mut L, line: &[u8]) -> Result<Quote, Fault>
    ensures { Carries L.meaning L.keeps ledger.old line.now result ledger.new }
{
    let i = read_line(line)?;
    ledger.instruct(i)
}

fn serve_line<L: Ledger>(ledger: &mut L, line: &[u8]) -> OutputLine
    ensures { Serves L.meaning L.keeps ledger.old line.now (buffer result) ledger.new }
{
    answer_line(carry_line(ledger, line))
}

// One answer a line, in order. The memory for the answers is had first: without it nothing has changed.
pub fn carry_lines<L: Ledger>(
    heap: Global,
    ledger: &mut L,
    lines: &[&[u8]],
) -> Result<Vec<OutputLine>, AllocError>
    ensures made { IfOk result (λ v. Run (Serves L.meaning L.keeps) ledger.old (map (λ x. x.now) lines.now) (map buffer v.items) ledger.new) }
    ensures refused { OnErr result (ledger.new ≡ ledger.old) }
{
    let mut answers = Vec::with_capacity(heap, lines.len())?;
    for line in lines {
        answers.push_reserved(serve_line(ledger, line));
    }
    Ok(answers)
}
