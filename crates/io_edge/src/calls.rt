// Counting, calls that are named to fail, and how much a call moves.
ghost use Rattle.std.specs.Prelude.{◌≡◌};
ghost use Rattle.io_edge.specs.Calls.{is_named, offered};
ghost use Rattle.io_edge.specs.Faults.{raised};

/// The count after one more, held at the greatest u64.
pub fn raised(count: u64) -> u64
    ensures { result ≡ raised count }
{
    count.saturating_add(1)
}

/// Whether this call is among those that are to fail.
pub fn is_named(failing: &[u32], call: u64) -> bool
    ensures { result ≡ is_named failing.now call }
{
    failing.iter().any(|named| u64::from(*named) == call)
}

/// The bytes that one call may move: all of these, or the first of them, where so many are doled out.
pub fn offered(most: Option<u32>, bytes: &[u8]) -> &[u8]
    ensures { result.now ≡ offered most bytes.now }
{
    match most {
        None => bytes,
        Some(most) => &bytes[..bytes.len().min(most as usize)],
    }
}
