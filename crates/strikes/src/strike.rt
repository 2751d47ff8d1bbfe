// A strike: a price of the underlying, and how many units one option on it moves.
#[derive(Clone, Copy, Default, PartialEq, Eq, Debug)]
pub struct Strike {
    pub price: u64,
    pub size: u64,
}
