// A party's range in one series.
use expiry::sum::Sum;

// What its count may lie between, summed over its accounts.
#[derive(Clone, Copy, PartialEq, Eq, Debug)]
pub(crate) struct Range {
    pub low: Sum,
    pub high: Sum,
}
