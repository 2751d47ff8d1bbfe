// Set-up takes strikes and accounts; once started, only instructions. Limits and questions are taken in both.
#[derive(Clone, Copy, PartialEq, Eq, Debug)]
pub(crate) enum Phase {
    Setup,
    Started,
}
