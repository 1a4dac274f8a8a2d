// The eight bytes of a word.
ghost use Rattle.std.specs.Prelude.{ℕ, ◌≡◌, slice_index};
ghost use Rattle.byte_lanes.specs.Bytes.{byte};

/// The bytes of a word, the lowest first.
pub fn bytes_of(word: u64) -> [u8; 8]
    ensures { (i : ℕ) → slice_index result i ≡ byte word i }
{
    word.to_le_bytes()
}

/// The word of some bytes, the lowest first.
pub fn word_of(bytes: [u8; 8]) -> u64
    ensures { (i : ℕ) → byte result i ≡ slice_index bytes i }
{
    u64::from_le_bytes(bytes)
}
