// Changes of one record.
ghost use Rattle.std.specs.Prelude.{◌≡◌, ℕ, ◌-◌, ◌<◌, ◌≤◌, length, pos};
ghost use Rattle.ledger.specs.Actions.{Within};
ghost use Rattle.entries.specs.Records.{Live, Gap, Inserted, Removed, place_of, nth};
ghost use Rattle.entries.specs.Books.{items, capacity_of, held_at, Keeps, Wrote};

use super::EntryBook;
use ledger::books::Holding;

const FREE: Holding = Holding {
    account: 0,
    series: 0,
    held: 0,
};

// Puts e in at k: from there up to an end each record moves up by one, over the one that stood at the end.
fn put_in(records: &mut [Holding], k: usize, end: usize, e: Holding)
    requires { (k ≤ end) × (end < length records.old) }
    ensures { Inserted records.old records.new k end e }
{
    records[end] = e;
    records[k..=end].rotate_right(1);
}

// Takes the record at k out: from there up to an end each record moves down by one, and leaves a free one at the end.
fn take_out(records: &mut [Holding], k: usize, end: usize)
    requires { (k ≤ end) × (end < length records.old) }
    ensures { Removed records.old records.new k end }
{
    records[k] = FREE;
    records[k..=end].rotate_left(1);
}

// `Keeps` stays a clause of each write: it is of the book before and after, which no type of one book can say.
impl EntryBook {
    // Puts in the record of a cell that has none, over the last free one.
    fn insert_at(&mut self, k: usize, e: Holding)
        requires gap { Gap (items self.old) self.old.live (place_of e) k }
        requires live { Live e }
        requires room { self.old.live < capacity_of self.old }
        ensures placed { Inserted (items self.old) (items self.new) k (capacity_of self.old - 1) e }
        ensures wrote { Wrote self.old self.new e.account e.series e.held }
        ensures kept { Keeps self.old self.new }
    {
        let last = self.capacity() - 1;
        put_in(&mut self.records, k, last, e);
        self.live += 1;
    }

    // Frees the record of a cell: it stands blank at the end of the capacity.
    fn remove_at(&mut self, k: usize)
        requires { k < self.old.live }
        ensures freed { Removed (items self.old) (items self.new) k (capacity_of self.old - 1) }
        ensures wrote { Wrote self.old self.new (nth (items self.old) k).account (nth (items self.old) k).series (pos 0) }
        ensures kept { Keeps self.old self.new }
    {
        let last = self.capacity() - 1;
        take_out(&mut self.records, k, last);
        self.live -= 1;
    }

    // Sets the count of a cell. A cell with none becomes held where there is room.
    pub(super) fn write(&mut self, e: Holding)
        requires cell { (e.account < 64) × (e.series < 64) }
        requires within { Within e.held }
        requires room { held_at self.old e.account e.series ≡ pos 0 → self.old.live < capacity_of self.old }
        ensures wrote { Wrote self.old self.new e.account e.series e.held }
        ensures kept { Keeps self.old self.new }
    {
        match (self.find(e.account, e.series), e.held) {
            (Ok(k), 0) => self.remove_at(k),
            (Ok(k), _) => self.records[k] = e,
            (Err(_), 0) => {}
            (Err(k), _) => self.insert_at(k, e),
        }
    }
}
