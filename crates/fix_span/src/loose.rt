// Whole values that are known between two ends.

/// The least and the greatest whole value that something may take: `lo <= hi`.
#[derive(Clone, Copy, Debug, PartialEq, Eq)]
pub struct Loose {
    pub lo: i32,
    pub hi: i32,
}
