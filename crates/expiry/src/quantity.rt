// What a party might take or hand over.
use crate::side::BySide;

// The most of one side, with the first listed price at which it is met, if it is above 0. The value stands outside the
// Option, since at 0 it is compared with limits all the same. How large it can be is said by clauses: anyone may make one.
#[derive(Clone, Copy, Default, PartialEq, Eq, Debug)]
pub struct Quantity {
    pub value: i64,
    pub place: Option<usize>,
}

pub type Quantities = BySide<Quantity>;
