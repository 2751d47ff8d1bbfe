// The order layer: buys and sells that rest above any ledger.
#![tactic(auto)]

ghost use Rattle.std.specs.Prelude.{◌≡◌, IfOk, IfErr};
ghost use Rattle.tables.specs.Tables.{AllZero};
ghost use Rattle.orders.specs.Resting.{order_meaning, Plain, Resting};

use ledger::ledgers::Ledger;
use std::alloc::{AllocFailed, Global};
use tables::Table;

pub mod carrying;

// What rests above each cell of the ledger below.
// Not one type with the cover layer: their rules differ, and what is the same is five short functions; a trait of the rules,
// with its laws, would be longer.
// Buys and sells are two tables, each of plain numbers as a book's counts and the cover are: one table of pairs would be
// a second kind of table.
#[derive(Drop)]
pub struct OrderLayer<L: Ledger> {
    below: L,
    buys: Table,
    sells: Table,
    ghost buys_rest: { Resting buys },
    ghost sells_rest: { Resting sells },
}

impl<L: Ledger> OrderLayer<L> {
    // Nothing rests, and the ledger below is as it was. For want of memory, hands it back.
    pub fn new(below: L, heap: Global) -> Result<OrderLayer<L>, AllocFailed<L>>
        ensures empty { IfOk result (λ x. (x.below ≡ below) × AllZero x.buys × AllZero x.sells) }
        ensures plain { IfOk result (λ x. Plain (L.Ledger.meaning x.below) (order_meaning (L.Ledger.meaning x.below) x.buys x.sells)) }
        ensures refused { IfErr result (λ y. y.value ≡ below) }
    {
        let Ok(buys) = Table::new(heap) else {
            return Err(AllocFailed { value: below });
        };
        let Ok(sells) = Table::new(heap) else {
            return Err(AllocFailed { value: below });
        };
        Ok(OrderLayer { below, buys, sells })
    }

    // Lends the ledger below for reading.
    pub fn below(&self) -> &L
        ensures { result.now ≡ self.now.below }
    {
        &self.below
    }

    // Gives the ledger below back.
    pub fn into_below(self) -> L
        ensures { result ≡ self.below }
    {
        let OrderLayer { below, .. } = self;
        below
    }
}
