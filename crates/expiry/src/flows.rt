// The flows of a party at the listed prices, and the greatest of them.
ghost use Rattle.std.specs.Prelude.{◌≡◌, ◌-◌, ◌*◌, ◌≤◌, length, pos, ◌*ℤ◌};
ghost use Rattle.strikes.specs.Strikes.{Lawful};
ghost use Rattle.expiry.specs.Near.{Near};
ghost use Rattle.expiry.specs.Quantities.{flow, flows, Greatest};

use crate::quantity::Quantity;
use crate::side::Side;
use crate::sum::Sum;
use arrayvec::ArrayVec;
use greatest::first_greatest;
use ledger::checks::WIDTH;
use strikes::strike::Strike;

// A class of 32 strikes lists so many prices.
const PLACES: usize = 65;

// The units of a count.
fn units(count: Sum, size: u64) -> i64
    requires { size ≤ 10000 }
    ensures value { result ≡ (count.value *ℤ pos size) }
    ensures bound { Near 640000000000000 result }
{
    count.value() * (size as i64)
}

impl Side {
    // A receipt as the side counts it.
    fn flow(self, received: i64) -> i64
        requires { Near 20480000000000000 received }
        ensures { result ≡ flow self received }
    {
        match self {
            Side::Long => received,
            Side::Short => -received,
        }
    }
}

// The counts of a party in the series of a class: its calls as in one array, its puts as in another.
#[derive(Drop)]
pub(crate) struct Counts<'a> {
    pub(crate) strikes: &'a [Strike],
    pub(crate) calls: &'a [Sum; WIDTH],
    pub(crate) puts: &'a [Sum; WIDTH],
    ghost lawful: { Lawful strikes.now },
}

impl Counts<'_> {
    ghost use Rattle.expiry.specs.Counts.{counts_of, receipt_at};

    // The receipt at price 0: every put is exercised and no call.
    fn receipt_at_zero(&self) -> i64
        ensures { result ≡ receipt_at self.now 0 }
    {
        let &Counts { strikes, puts, .. } = self;
        let mut receipt = 0;
        for (i, strike) in strikes.iter().enumerate() {
            receipt -= units(puts[2 * i + 1], strike.size);
        }
        receipt
    }

    // The receipt at a place, from the one at the place before: at an odd place the put of a strike drops out, at the
    // next the call of that strike comes in.
    fn next_receipt(&self, place: usize, before: i64) -> i64
        requires within { place ≤ 2 * length self.now.strikes.now }
        requires before { before ≡ receipt_at self.now (place - 1) }
        ensures value { result ≡ receipt_at self.now place }
        ensures bound { Near 20480000000000000 result }
    {
        if place == 0 {
            return before;
        }
        let &Counts {
            strikes,
            calls,
            puts,
        } = self;
        let i = (place - 1) / 2;
        if place % 2 == 1 {
            before + units(puts[2 * i + 1], strikes[i].size)
        } else {
            before + units(calls[2 * i], strikes[i].size)
        }
    }

    // The flows at the listed prices.
    fn flows(&self, side: Side) -> ArrayVec<i64, PLACES>
        ensures { result.items ≡ flows side self.now.strikes.now (counts_of self.now) }
    {
        let mut flows = ArrayVec::new();
        let mut receipt = self.receipt_at_zero();
        // By place, since the place says which series drops out or comes in.
        for place in 0..2 * self.strikes.len() + 1 {
            receipt = self.next_receipt(place, receipt);
            flows.push(side.flow(receipt));
        }
        flows
    }

    // The greatest of 0 and the flows.
    pub(crate) fn greatest_flow(&self, side: Side) -> Quantity
        ensures { Greatest (flows side self.now.strikes.now (counts_of self.now)) result.value result.place }
    {
        greatest_of(&self.flows(side))
    }
}

// The greatest of 0 and a list of flows.
fn greatest_of(flows: &[i64]) -> Quantity
    ensures { Greatest flows.now result.value result.place }
{
    match first_greatest(flows) {
        Some(peak) if flows[peak.first] > 0 => Quantity {
            value: flows[peak.first],
            place: Some(peak.first),
        },
        _ => Quantity::default(),
    }
}
