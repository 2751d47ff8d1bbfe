// What every book and layer checks before anything else.
ghost use Rattle.std.specs.Prelude.{◌≡◌, ℕ, OnOk};
ghost use Rattle.ledger.specs.Actions.{is_fill, within, proper};
ghost use Rattle.ledger.specs.Checks.{checked, Checked};

use crate::actions::Action;
use crate::cells::Instruction;
use crate::faults::{Fault, Reason};

// Counts and cover stay this near to 0.
pub const REACH: i64 = 1_000_000_000;

// Accounts and series are numbered from 0 to 63.
pub const WIDTH: usize = 64;

pub fn is_fill(action: Action) -> bool
    ensures { result ≡ is_fill action }
{
    matches!(action, Action::Fill)
}

pub fn is_within(n: i64) -> bool
    ensures { result ≡ within n }
{
    -REACH <= n && n <= REACH
}

// Whether the action takes this amount.
fn is_proper(action: Action, amount: i64) -> bool
    ensures { result ≡ proper action amount }
{
    if is_fill(action) {
        is_within(amount) && amount != 0
    } else {
        1 <= amount && amount <= REACH
    }
}

// Refuses an unknown account or series, then an amount out of range.
pub fn check(accounts: usize, i: Instruction) -> Result<(), Fault>
    ensures answer { result ≡ checked accounts i }
    ensures passed { OnOk result (Checked accounts i) }
{
    if i.account >= accounts || i.series >= WIDTH {
        return Err(Fault::found(Reason::Unknown));
    }
    if !is_proper(i.action, i.amount) {
        return Err(Fault::found(Reason::Amount));
    }
    Ok(())
}
