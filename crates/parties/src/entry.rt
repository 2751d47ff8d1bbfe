// Who stands behind an account: its holder, the holder's group, and the participant that it trades through.
#[derive(Clone, Copy, PartialEq, Eq, Debug, Default)]
pub struct Entry {
    pub holder: usize,
    pub group: usize,
    pub participant: usize,
}
