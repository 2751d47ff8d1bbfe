// A party's low or high in one series, summed over its accounts.
ghost use Rattle.std.specs.Prelude.{◌≡◌, pos, MatchOption};
ghost use Rattle.expiry.specs.Near.{Near};

const FARTHEST: i64 = 64_000_000_000;

// A sum of at most 64 counts, each within 1,000,000,000 of 0.
#[derive(Clone, Copy, PartialEq, Eq, Debug)]
pub struct Sum {
    value: i64,
    ghost near: { Near 64000000000 value },
}

impl Sum {
    // The sum of that value, or none where it is farther from 0. An Option, as `NonZero::new` gives, and no TryFrom: its
    // error would have nothing to tell.
    pub fn new(value: i64) -> Option<Sum>
        ensures { MatchOption result (Near 64000000000 value → ⊥) (λ s. s.value ≡ value) }
    {
        if -FARTHEST <= value && value <= FARTHEST {
            Some(Sum { value })
        } else {
            None
        }
    }

    // The sum over no account.
    pub fn zero() -> Sum
        ensures { result.value ≡ pos 0 }
    {
        Sum { value: 0 }
    }

    pub fn value(self) -> i64
        ensures { result ≡ self.value }
    {
        self.value
    }
}
