// The two questions: a party's quantities, and the least headroom on an account's path.
ghost use Rattle.std.specs.Prelude.{◌≡◌, true};
ghost use Rattle.expiry.specs.declared.side.Side.{Side};
ghost use Rattle.expiry.specs.Sides.{on_side};
ghost use Rattle.expiry.specs.Near.{Near};
ghost use Rattle.parties.specs.Tables.{proper};
ghost use Rattle.limiter.specs.States.{state_of};
ghost use Rattle.limiter.specs.Verdicts.{quantities_verdict, tightest_verdict};
ghost use Rattle.limiter.specs.Steps.{headroom, headroom_of, Least, Follows};

use crate::Limiter;
use calls::{Call, PartyNumber, Reply, Tightest};
use expiry::quantity::Quantity;
use expiry::side::{BySide, Side};
use greatest::headrooms::Headroom;
use greatest::least_headroom;
use ledger::checks::WIDTH;
use ledger::faults::{Fault, Reason};
use ledger::ledgers::Ledger;
use parties::level::Level;
use parties::path::Path;
use std::cmp::Reverse;

// The checks along a path, in their order: a table, since a place in a list of headrooms is read back from it.
const CHECKS: [(Level, Side); 8] = [
    (Level::Account, Side::Long),
    (Level::Account, Side::Short),
    (Level::Holder, Side::Long),
    (Level::Holder, Side::Short),
    (Level::Group, Side::Long),
    (Level::Group, Side::Short),
    (Level::Participant, Side::Long),
    (Level::Participant, Side::Short),
];

// What a limit leaves above a quantity.
fn headroom(limit: Option<i64>, quantity: Quantity) -> Headroom
    requires limit { proper limit ≡ true }
    requires quantity { Near 20480000000000000 quantity.value }
    ensures { result ≡ headroom limit quantity.value }
{
    limit.map(|most| most - quantity.value)
}

impl<L: Ledger> Limiter<L> {
    pub(crate) fn quantities(&self, n: PartyNumber) -> Result<Reply, Fault>
        ensures { Follows L.Ledger.meaning (state_of self.now) (Call.Quantities n) (quantities_verdict n) result (state_of self.now) }
    {
        let level = Level::try_from(n.level)?;
        if n.party >= WIDTH {
            return Err(Fault::found(Reason::Unknown));
        }
        Ok(Reply::Quantities(self.party_quantities(level, n.party, None)))
    }

    // What the limits of a party leave.
    fn headrooms(&self, level: Level, party: usize) -> BySide<Headroom>
        ensures { (side : Side) → on_side result side ≡ headroom_of L.Ledger.meaning (state_of self.now) level party side }
    {
        let quantities = self.party_quantities(level, party, None);
        BySide {
            long: headroom(self.limits.get(level, party, Side::Long), quantities.long),
            short: headroom(self.limits.get(level, party, Side::Short), quantities.short),
        }
    }

    // The first least headroom on a path.
    fn least(&self, path: Path) -> Tightest
        ensures { Least L.Ledger.meaning (state_of self.now) path result }
    {
        let headrooms = Level::ALL.map(|level| self.headrooms(level, path.party(level)));
        let list = CHECKS.map(|(level, side)| Reverse(headrooms[usize::from(level)].on(side)));
        let first = least_headroom(&list).unwrap().first;
        let (level, side) = CHECKS[first];
        Tightest {
            level,
            side,
            headroom: list[first].0,
        }
    }

    pub(crate) fn tightest(&self, account: usize) -> Result<Reply, Fault>
        ensures { Follows L.Ledger.meaning (state_of self.now) (Call.Tightest account) (tightest_verdict (state_of self.now) account) result (state_of self.now) }
    {
        let path = self
            .directory
            .path(account)
            .ok_or(Fault::found(Reason::Unknown))?;
        Ok(Reply::Tightest(self.least(path)))
    }
}
