// Who stands behind an account, and the limit of each party.
#![tactic(auto)]

ghost use Rattle.std.specs.Prelude.{ℕ, ◌≤◌, length};
ghost use Rattle.parties.specs.Tables.{AllNumbered, OneGroup, IsWhole, AllProper};

mod accounts;
pub mod bounds;
pub mod entry;
pub mod level;
pub mod path;
pub mod record;

use arrayvec::ArrayVec;
use entry::Entry;
use ledger::checks::WIDTH;
use record::LimitRecord;

// The accounts, numbered from 0 as they were added.
#[derive(Drop)]
pub struct Directory {
    entries: ArrayVec<Entry, WIDTH>,
    ghost few: { length entries.items ≤ 64 },
    ghost numbered: { AllNumbered entries.items },
    ghost grouped: { OneGroup entries.items },
}

// One limit record for each party, level by level.
#[derive(Drop)]
pub struct Limits {
    records: [[LimitRecord; WIDTH]; 4],
    ghost whole: { IsWhole records },
    ghost proper: { AllProper records },
}
