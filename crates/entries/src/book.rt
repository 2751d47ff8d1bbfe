// The memory of an entry book, in order.
ghost use Rattle.std.specs.Prelude.{ℕ, vec_len};
ghost use Rattle.entries.specs.Records.{room, Ordered};

use ledger::books::Holding;

pub mod carries;
mod memory;
mod search;
mod writes;

// The held records come first, by their places, then free ones up to the capacity: a record with held 0 is free. What the
// memory has past the capacity is never touched.
// The memory is the caller's, comes back whole and never grows, so the records stay in it, with their number beside them, and
// a free record is one with held 0.
#[derive(Drop)]
pub struct EntryBook {
    records: Vec<Holding>,
    live: usize,
    ghost ordered: { Ordered records.items live (room (vec_len records)) },
}
