// A change to one cell, which the ledger has quoted and not yet made.
ghost use Rattle.std.specs.Prelude.{◌≡◌};

use ledger::cells::{Instruction, Quote};
use std::marker::Model;

// A cell, and what is quoted for it. Its range is an invariant of the Model and no ghost field, so that specs can write a
// change without a proof.
#[derive(Drop)]
pub(crate) struct Change {
    account: usize,
    series: usize,
    quote: Quote,
}

impl Model for Change {
    ghost use Rattle.ledger.specs.Cells.{Ranged};
    ghost use Rattle.limiter.specs.Changes.{Change as Quoted};

    ghost Value = { Quoted };

    ghost view = { λ k. record { account = k.account; series = k.series; quote = k.quote } };

    ghost invariant = { λ k. Ranged k.quote };
}

impl Change {
    ghost use Rattle.std.specs.Prelude.{if◌then◌else◌, Some, None, IfSome};
    ghost use Rattle.ledger.specs.Cells.{Ranged};
    ghost use Rattle.limiter.specs.Changes.{change, at_cell};

    // The change that an instruction with that quote makes.
    pub(crate) fn new(i: Instruction, quote: Quote) -> Change
        requires { Ranged quote }
        ensures { result ≡ change i quote }
    {
        Change {
            account: i.account,
            series: i.series,
            quote,
        }
    }

    // What is quoted for a cell, where the change is to it.
    pub(crate) fn at(&self, account: usize, series: usize) -> Option<Quote>
        ensures value { result ≡ (if at_cell self.now account series then Some self.now.quote else None) }
        ensures ranged { IfSome result Ranged }
    {
        if account == self.account && series == self.series {
            Some(self.quote)
        } else {
            None
        }
    }
}
