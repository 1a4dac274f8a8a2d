// The least and the greatest of a channel.

/// Two numbers, the first of which is at most the second.
#[derive(Clone, Copy)]
pub struct Span {
    pub lo: u8,
    pub hi: u8,
}
