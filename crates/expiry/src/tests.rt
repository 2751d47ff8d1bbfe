// Two strikes, 1000 and 1200, of 100 units each.
use crate::quantities;
use crate::quantity::{Quantities, Quantity};
use crate::side::BySide;
use crate::sum::Sum;
use ledger::checks::WIDTH;
use strikes::Class;

// The sums of the four series.
fn sums(values: [i64; 4]) -> Option<[Sum; WIDTH]> {
    let mut sums = [Sum::zero(); WIDTH];
    for (sum, value) in sums.iter_mut().zip(values) {
        *sum = Sum::new(value)?;
    }
    Some(sums)
}

// The quantities where low and high are the same.
fn held(values: [i64; 4]) -> Option<Quantities> {
    let mut class = Class::new();
    class.add(1000, 100).ok()?;
    class.add(1200, 100).ok()?;
    let sums = sums(values)?;
    Some(quantities(&class, sums, sums))
}

fn both(
    long: i64,
    long_place: Option<usize>,
    short: i64,
    short_place: Option<usize>,
) -> Option<Quantities> {
    Some(BySide {
        long: Quantity {
            value: long,
            place: long_place,
        },
        short: Quantity {
            value: short,
            place: short_place,
        },
    })
}

#[test]
fn rows(rt: HostRuntime) {
    assert_eq!(rt; held([10, 0, 0, 0]), both(1000, Some(2), 0, None));
    assert_eq!(rt; held([-1, 1, 0, 0]), both(0, None, 100, Some(0)));
    assert_eq!(rt; held([1, 0, 0, -1]), both(200, Some(2), 0, None));
    assert_eq!(rt; held([-1, 1, 0, -1]), both(100, Some(1), 100, Some(3)));
    assert_eq!(rt; held([-5, 0, 5, 0]), both(0, None, 500, Some(2)));
    assert_eq!(rt; held([0, 0, 5, 0]), both(500, Some(4), 0, None));
}
