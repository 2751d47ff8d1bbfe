// The cover layer: assets set aside for the delivery of calls, above any ledger.
#![tactic(auto)]

ghost use Rattle.std.specs.Prelude.{◌≡◌, IfOk, IfErr};
ghost use Rattle.tables.specs.Tables.{AllZero};
ghost use Rattle.cover.specs.Covering.{Covered};

use ledger::ledgers::Ledger;
use std::alloc::{AllocFailed, Global};
use tables::Table;

pub mod carrying;

// How much of each cell of the ledger below is covered.
// Not one type with the order layer: their rules differ, and what is the same is five short functions; a trait of the rules,
// with its laws, would be longer.
#[derive(Drop)]
pub struct CoverLayer<L: Ledger> {
    below: L,
    cover: Table,
    ghost cover_kept: { Covered cover },
}

impl<L: Ledger> CoverLayer<L> {
    // Nothing is covered, and the ledger below is as it was. For want of memory, hands it back.
    pub fn new(below: L, heap: Global) -> Result<CoverLayer<L>, AllocFailed<L>>
        ensures empty { IfOk result (λ x. (x.below ≡ below) × AllZero x.cover) }
        ensures refused { IfErr result (λ y. y.value ≡ below) }
    {
        let Ok(cover) = Table::new(heap) else {
            return Err(AllocFailed { value: below });
        };
        Ok(CoverLayer { below, cover })
    }

    // Lends the ledger below for reading.
    pub fn below(&self) -> &L
        ensures { result.now ≡ self.now.below }
    {
        &self.below
    }

    // Gives the ledger below back.
    pub fn into_below(self) -> L
        ensures { result ≡ self.below }
    {
        let CoverLayer { below, .. } = self;
        below
    }
}
