// What a limit leaves above a quantity.

// A missing limit has no headroom, and `None` orders before every number.
pub type Headroom = Option<i64>;
