// The first greatest entry of a list, for any kind of entry whose order is total.
#![tactic(auto)]

ghost use Rattle.std.specs.Prelude.{◌≡◌, ℕ, ◌<◌, length, MatchOption};
ghost use Rattle.greatest.specs.Greatest.{above, FirstGreatest};
ghost use Rattle.greatest.specs.Headrooms.{rank, opposite};

use std::cmp::Reverse;

pub mod headrooms;

use headrooms::Headroom;

// Where the greatest entry of a list stands. A struct, so that another place can join and no caller changes.
#[derive(Clone, Copy, PartialEq, Eq, Debug)]
pub struct Peak {
    pub first: usize,
}

// Whether x is above y.
fn exceeds<T: Ord>(x: &T, y: &T) -> bool
    ensures { result ≡ above T.cmp x.now y.now }
{
    x > y
}

// The first place whose entry no other exceeds. An empty list has none.
pub fn first_greatest<T: Ord>(list: &[T]) -> Option<Peak>
    ensures within { MatchOption result (length list.now ≡ 0) (λ p. p.first < length list.now) }
    ensures greatest { FirstGreatest T.cmp list.now result }
{
    let (mut greatest, rest) = list.split_first()?;
    let mut first = 0;
    for (i, x) in rest.iter().enumerate() {
        if exceeds(x, greatest) {
            greatest = x;
            first = i + 1;
        }
    }
    Some(Peak { first })
}

// The first least of a list of headrooms.
pub fn least_headroom(all: &[Reverse<Headroom>]) -> Option<Peak>
    ensures { FirstGreatest (opposite rank) all.now result }
{
    first_greatest(all)
}
