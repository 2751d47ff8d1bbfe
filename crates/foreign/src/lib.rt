// A layer of another maker, for tests alone: it counts a position's close-out as possible, so its range always has 0
// in it. It knows no more of the ledger below than the interface says.
#![tactic(auto)]

ghost use Rattle.std.specs.Prelude.{◌≡◌, ℕ};
ghost use Rattle.foreign.specs.Spans.{spanned, span_meaning};
ghost use Rattle.foreign.specs.SpansLemmas.{span_lawful};

use ledger::cells::{Cell, Instruction, Quote};
use ledger::checks::check;
use ledger::faults::Fault;
use ledger::layering::ask_below;
use ledger::ledgers::Ledger;

#[derive(Drop)]
pub struct SpanLayer<L: Ledger> {
    below: L,
}

// The range widened to have 0 in it.
fn spanned_quote(q: Quote) -> Quote
    ensures { result ≡ spanned q }
{
    Quote {
        low: q.low.min(0),
        high: q.high.max(0),
        ..q
    }
}

impl<L: Ledger> SpanLayer<L> {
    pub fn new(below: L) -> SpanLayer<L>
        ensures { result.below ≡ below }
    {
        SpanLayer { below }
    }
}

impl<L: Ledger> Ledger for SpanLayer<L> {
    ghost meaning = { λ x. span_meaning (L.Ledger.meaning x.below) };

    ghost lawful = { λ x. span_lawful (L.Ledger.meaning x.below) (L.Ledger.lawful x.below) };

    ghost still = { λ _. tt };

    ghost onward = { λ _ _ _ _ _. tt };

    fn accounts(&self) -> usize {
        self.below.accounts()
    }

    fn unused(&self) -> bool {
        self.below.unused()
    }

    fn cell(&self, account: usize, series: usize) -> Cell {
        let below = self.below.cell(account, series);
        let Quote { low, high, .. } = spanned_quote(Quote::from(below));
        Cell { low, high, ..below }
    }

    fn quote(&self, i: Instruction) -> Result<Quote, Fault> {
        check(self.below.accounts(), i)?;
        let below = ask_below(&self.below, i.account, i.series, Some(i))?;
        Ok(spanned_quote(below))
    }

    fn instruct(&mut self, i: Instruction) -> Result<Quote, Fault> {
        let quote = self.quote(i)?;
        // It cannot refuse: it was quoted just before.
        let _ = self.below.instruct(i);
        Ok(quote)
    }
}
