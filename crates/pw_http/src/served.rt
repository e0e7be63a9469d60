//! What came of a conversation.

/// So many replies were written.
#[derive(Clone, Copy, Debug, PartialEq, Eq)]
pub struct Served {
    pub requests: u64,
}
