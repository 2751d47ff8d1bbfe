// A party's ranges summed over its accounts, and the quantities that they come to.
ghost use Rattle.std.specs.Prelude.{◌≡◌, ℕ};
ghost use Rattle.ledger.specs.Cells.{Ranged};
ghost use Rattle.expiry.specs.declared.side.Side.{Side};
ghost use Rattle.expiry.specs.Sides.{on_side};
ghost use Rattle.expiry.specs.Near.{Near};
ghost use Rattle.std.specs.Option.{option_copied};
ghost use Rattle.limiter.specs.States.{state_of};
ghost use Rattle.limiter.specs.Positions.{quotes, positions, Told};
ghost use Rattle.limiter.specs.Sums.{Adds};

use crate::Limiter;
use crate::change::Change;
use crate::range::Range;
use expiry::quantities;
use expiry::quantity::Quantities;
use expiry::sum::Sum;
use ledger::cells::Quote;
use ledger::checks::WIDTH;
use ledger::layering::read_below;
use ledger::ledgers::Ledger;
use parties::level::Level;
use std::array;

impl<L: Ledger> Limiter<L> {
    // The quote of a cell, as it stands or after a change.
    fn quote(&self, change: Option<&Change>, account: usize, series: usize) -> Quote
        ensures value { result ≡ quotes (L.Ledger.meaning self.now.ledger) (option_copied change.entry) account series }
        ensures ranged { Ranged result }
    {
        change
            .and_then(|change| change.at(account, series))
            .unwrap_or_else(|| Quote::from(read_below(&self.ledger, account, series)))
    }

    // A party's range in a series; 0 in a series of no strike.
    fn series_range(
        &self,
        level: Level,
        party: usize,
        change: Option<&Change>,
        series: usize,
    ) -> Range
        ensures { Adds (positions L.Ledger.meaning (state_of self.now) (option_copied change.entry)) level party series result }
    {
        let mut low = 0;
        let mut high = 0;
        if series < 2 * self.class.count() {
            // By number, as the directory and the ledger know an account; no chain, since each partial sum has to be shown to
            // fit.
            for account in 0..self.directory.count() {
                if self.directory.belongs(level, party, account) {
                    let quote = self.quote(change, account, series);
                    low += quote.low;
                    high += quote.high;
                }
            }
        }
        Range {
            low: Sum::new(low).unwrap(),
            high: Sum::new(high).unwrap(),
        }
    }

    // A party's quantities, as they stand or after a change.
    pub(crate) fn party_quantities(
        &self,
        level: Level,
        party: usize,
        change: Option<&Change>,
    ) -> Quantities
        ensures told { (side : Side) → Told (positions L.Ledger.meaning (state_of self.now) (option_copied change.entry)) level party side (on_side result side) }
        ensures near { Near 20480000000000000 result.long.value × Near 20480000000000000 result.short.value }
    {
        let ranges: [Range; WIDTH] = array::from_fn(|series| self.series_range(
            level, party, change, series,
        ));
        quantities(
            &self.class,
            ranges.map(|range| range.low),
            ranges.map(|range| range.high),
        )
    }
}
