// Why a call was declined.
ghost use Rattle.std.specs.Prelude.{◌≡◌, ℕ};
ghost use Rattle.ledger.specs.Faults.{number, found, misfit, deeper};

// Each reason with its published number.
#[derive(Clone, Copy, PartialEq, Eq, Debug)]
pub enum Reason {
    // The call belongs to the other phase, or the start came twice.
    Phase = 1,
    // One strike more than a class has room for.
    ClassFull = 2,
    // A strike out of range, or not above the last.
    Strike = 3,
    // One account more than the ledger takes.
    DirectoryFull = 4,
    // The holder is in another group.
    GroupClash = 5,
    // A start over a ledger that is not unused.
    Used = 6,
    // The letter, account, series, level, party or side does not exist here.
    Unknown = 7,
    // The amount is outside its action's range, or a limit outside its own.
    Amount = 8,
    // The action reached a book, which only fills.
    NoTaker = 9,
    // More than rests, or than is covered.
    Rest = 10,
    // Cover for a put.
    NotACall = 11,
    // A count or a cover would be out of reach.
    Reach = 12,
    // One more held cell than the book has room for.
    Full = 13,
    // A limit on the path is missing.
    NoLimit = 14,
    // A quantity would exceed its limit.
    Limit = 15,
    // A new limit is below the quantity.
    InUse = 16,
    // The line is not an instruction's.
    Line = 17,
}

impl From<Reason> for u8 {
    ghost from_gives = { λ reason n. n ≡ number reason };

    fn from(reason: Reason) -> u8 {
        reason as u8
    }
}

// A refusal: why, how many layers above its finder it is seen, and where.
#[derive(Clone, Copy, PartialEq, Eq, Debug)]
pub struct Fault {
    pub reason: Reason,
    pub depth: u8,
    pub spot: usize,
}

impl Fault {
    // The refusal as its finder gives it.
    pub fn found(reason: Reason) -> Fault
        ensures { result ≡ found reason }
    {
        Fault {
            reason,
            depth: 0,
            spot: 0,
        }
    }

    // The refusal of a line at a column.
    pub fn misfit(column: usize) -> Fault
        ensures { result ≡ misfit column }
    {
        Fault {
            spot: column,
            ..Fault::found(Reason::Line)
        }
    }

    // The same refusal, seen one layer above.
    pub fn deeper(self) -> Fault
        ensures { result ≡ deeper self }
    {
        Fault {
            depth: self.depth.saturating_add(1),
            ..self
        }
    }
}
