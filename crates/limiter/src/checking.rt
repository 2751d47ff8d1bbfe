// The checks along an account's path.
ghost use Rattle.std.specs.Prelude.{◌≡◌, Ok, Err, MatchResult, int_le};
ghost use Rattle.parties.specs.Directories.{entries_of, path_of};
ghost use Rattle.std.specs.Option.{option_copied};
ghost use Rattle.limiter.specs.States.{state_of};
ghost use Rattle.limiter.specs.Verdicts.{require, found_at, allowed, party_verdict, path_verdict, own_verdict, instruct_verdict};

use crate::Limiter;
use crate::change::Change;
use expiry::quantity::Quantity;
use expiry::side::Side;
use ledger::cells::Instruction;
use ledger::checks::check;
use ledger::faults::{Fault, Reason};
use ledger::layering::ask_below;
use ledger::ledgers::Ledger;
use parties::level::Level;
use parties::path::Path;

// A refusal found at a side of a level.
fn fault_at(reason: Reason, level: Level, side: Side) -> Fault
    ensures { result ≡ found_at reason level side }
{
    Fault {
        spot: 2 * usize::from(level) + usize::from(side),
        ..Fault::found(reason)
    }
}

// The quantity does not exceed the most that it may be.
pub(crate) fn check_most(
    quantity: Quantity,
    most: i64,
    reason: Reason,
    level: Level,
    side: Side,
) -> Result<(), Fault>
    ensures { result ≡ require (int_le quantity.value most) (found_at reason level side) }
{
    if quantity.value > most {
        return Err(fault_at(reason, level, side));
    }
    Ok(())
}

// One check: the limit is there, and the quantity does not exceed it.
fn check_side(limit: Option<i64>, quantity: Quantity, level: Level, side: Side) -> Result<(), Fault>
    ensures { result ≡ allowed limit quantity.value level side }
{
    let most = limit.ok_or(fault_at(Reason::NoLimit, level, side))?;
    check_most(quantity, most, Reason::Limit, level, side)
}

impl<L: Ledger> Limiter<L> {
    // Both sides of a party.
    fn check_party(&self, level: Level, party: usize, change: Option<&Change>) -> Result<(), Fault>
        ensures { result ≡ party_verdict L.Ledger.meaning (state_of self.now) (option_copied change.entry) level party }
    {
        let quantities = self.party_quantities(level, party, change);
        for side in [Side::Long, Side::Short] {
            let limit = self.limits.get(level, party, side);
            check_side(limit, quantities.on(side), level, side)?;
        }
        Ok(())
    }

    // A whole path.
    fn check_path(&self, path: Path, change: Option<&Change>) -> Result<(), Fault>
        ensures { result ≡ path_verdict L.Ledger.meaning (state_of self.now) (option_copied change.entry) path }
    {
        for level in Level::ALL {
            self.check_party(level, path.party(level), change)?;
        }
        Ok(())
    }

    // An added account, a series of a strike, and then a proper amount: the path that is to be checked.
    fn check_own(&self, i: Instruction) -> Result<Path, Fault>
        ensures { MatchResult result (λ path. (own_verdict (state_of self.now) i ≡ Ok tt) × (path ≡ path_of (entries_of self.now.directory) i.account)) (λ fault. own_verdict (state_of self.now) i ≡ Err fault) }
    {
        let path = self
            .directory
            .path(i.account)
            .ok_or(Fault::found(Reason::Unknown))?;
        if i.series >= 2 * self.class.count() {
            return Err(Fault::found(Reason::Unknown));
        }
        check(self.directory.count(), i)?;
        Ok(path)
    }

    // All checks of an instruction, in their order.
    pub(crate) fn admit(&self, i: Instruction) -> Result<(), Fault>
        ensures { result ≡ instruct_verdict L.Ledger.meaning (state_of self.now) i }
    {
        let path = self.check_own(i)?;
        let quote = ask_below(&self.ledger, i.account, i.series, Some(i))?;
        self.check_path(path, Some(&Change::new(i, quote)))
    }
}
