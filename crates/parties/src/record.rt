// The limits of one party, each missing until it is set.
use expiry::side::BySide;

pub type LimitRecord = BySide<Option<i64>>;
