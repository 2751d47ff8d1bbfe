// Look-ups by binary search.
ghost use Rattle.std.specs.Prelude.{◌≡◌, ℕ, ◌<◌, ◌^◌, not, ◌&&◌, ◌==◌, take};
ghost use Rattle.ledger.specs.Actions.{nonzero};
ghost use Rattle.ledger.specs.Books.{held_cells};
ghost use Rattle.ledger.specs.Listing.{place};
ghost use Rattle.entries.specs.Records.{Sought, wrapped_place};
ghost use Rattle.entries.specs.Books.{items, held_at, capacity_of};

use super::EntryBook;
use ledger::books::Holding;
use ledger::checks::WIDTH;

// The most cells that a book holds.
pub(super) const MOST: usize = WIDTH * WIDTH;

// The place of a record, which for a held one does not wrap.
fn place_of(e: &Holding) -> usize
    ensures { result ≡ wrapped_place e.now }
{
    WIDTH.wrapping_mul(e.account).wrapping_add(e.series)
}

impl EntryBook {
    // The held records.
    pub(super) fn held(&self) -> &[Holding]
        ensures { result.now ≡ take self.now.live (items self.now) }
    {
        &self.records[..self.live]
    }

    // Where the record of a cell stands among the held ones, or where it would. By place, one number: by account and series a
    // look-up takes half as long again.
    pub(super) fn find(&self, account: usize, series: usize) -> Result<usize, usize>
        requires { (account < 2 ^ 58) × (series < 64) }
        ensures { Sought (items self.now) self.now.live (place account series) result }
    {
        let place = WIDTH * account + series;
        self.held().binary_search_by_key(&place, place_of)
    }

    // The count held of a cell.
    pub(super) fn count(&self, account: usize, series: usize) -> i64
        ensures { result ≡ held_at self.now account series }
    {
        if account >= WIDTH || series >= WIDTH {
            return 0;
        }
        match self.find(account, series) {
            Ok(k) => self.held()[k].held,
            Err(_) => 0,
        }
    }

    // How many cells it can hold.
    pub(super) fn capacity(&self) -> usize
        ensures { result ≡ capacity_of self.now }
    {
        self.records.len().min(MOST)
    }

    // Whether there is no room for a cell with that count to become held.
    pub(super) fn is_full(&self, held: i64) -> bool
        ensures { result ≡ (not (nonzero held) && held_cells (held_at self.now) == capacity_of self.now) }
    {
        held == 0 && self.live == self.capacity()
    }
}
