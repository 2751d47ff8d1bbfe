// How many units of the underlying a party might take or hand over at expiry.
#![tactic(auto)]

ghost use Rattle.std.specs.Prelude.{◌≡◌};
ghost use Rattle.strikes.specs.Classes.{strikes_of};
ghost use Rattle.expiry.specs.declared.side.Side.TheVariants.{Long, Short};
ghost use Rattle.expiry.specs.Near.{Near};
ghost use Rattle.expiry.specs.Quantities.{at, extreme, flows, quantity, Greatest, EveryPriceListed};
ghost use Rattle.expiry.specs.Parties.{ExactForAll, Monotone};

mod flows;
pub mod quantity;
pub mod side;
pub mod sum;

use flows::Counts;
use ledger::checks::WIDTH;
use quantity::Quantities;
use side::{BySide, Side};
use strikes::Class;
use sum::Sum;

// The quantities of a party, from the sums of its lows and of its highs in each series: two arrays by value, the published
// form of this call.
pub fn quantities(class: &Class, low: [Sum; WIDTH], high: [Sum; WIDTH]) -> Quantities
    ensures long { Greatest (flows Long (strikes_of class.now) (extreme Long (at low) (at high))) result.long.value result.long.place }
    ensures short { Greatest (flows Short (strikes_of class.now) (extreme Short (at low) (at high))) result.short.value result.short.place }
    ensures value { (result.long.value ≡ quantity Long (strikes_of class.now) (at low) (at high)) × (result.short.value ≡ quantity Short (strikes_of class.now) (at low) (at high)) }
    ensures listed { EveryPriceListed (strikes_of class.now) }
    ensures exact { ExactForAll (strikes_of class.now) (at low) (at high) result }
    ensures near { (Near 20480000000000000 result.long.value) × (Near 20480000000000000 result.short.value) }
    ensures monotone { Monotone (strikes_of class.now) (at low) (at high) result }
{
    let strikes = class.strikes();
    let taken = Counts {
        strikes,
        calls: &high,
        puts: &low,
    };
    let handed_over = Counts {
        strikes,
        calls: &low,
        puts: &high,
    };
    let long = taken.greatest_flow(Side::Long);
    let short = handed_over.greatest_flow(Side::Short);
    BySide { long, short }
}

#[cfg(test)]
mod tests;
