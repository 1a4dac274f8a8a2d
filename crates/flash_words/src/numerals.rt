// Numbers and sizes as a command line writes them.
ghost use Rattle.std.specs.Prelude.{◌≡◌, ℕ, ◌<◌, ◌^◌, ◌∷◌, ◌++◌, IfSome, codes, decimal};

/// The number below 2^32 that a text writes: decimal digits without sign, and with no leading zero but in `0` itself.
pub fn number(text: &str) -> Option<u32>
    ensures written { IfSome result (λ n. text.now ≡ decimal n) }
    ensures read { (n : ℕ) → n < 2 ^ 32 → text.now ≡ decimal n → result ≡ Some n }
{
    let first = *text.as_bytes().first()?;
    if first == b'+' {
        return None;
    }
    if first == b'0' && text.len() > 1 {
        return None;
    }
    text.parse::<u32>().ok()
}

/// The number that a text writes, as `number` reads it, where it is below 65,536.
pub fn small_number(text: &str) -> Option<u16>
    ensures written { IfSome result (λ n. text.now ≡ decimal n) }
    ensures read { (n : ℕ) → n < 2 ^ 16 → text.now ≡ decimal n → result ≡ Some n }
{
    u16::try_from(number(text)?).ok()
}

/// The number below 2^32 that a text writes before `/1001` at its end.
pub fn number_over_1001(text: &str) -> Option<u32>
    ensures written { IfSome result (λ n. text.now ≡ decimal n ++ codes "/1001") }
    ensures read { (n : ℕ) → n < 2 ^ 32 → text.now ≡ decimal n ++ codes "/1001" → result ≡ Some n }
{
    number(text.strip_suffix("/1001")?)
}

/// The width and the height that a size writes: two numbers below 65,536 with an `x` between them.
pub fn width_and_height(size: &str) -> Option<(u16, u16)>
    ensures written { IfSome result (λ s. size.now ≡ decimal s.0 ++ 120 ∷ decimal s.1) }
    ensures read { (w h : ℕ) → w < 2 ^ 16 → h < 2 ^ 16
        → size.now ≡ decimal w ++ 120 ∷ decimal h → result ≡ Some (w, h) }
{
    let (width, height) = size.split_once('x')?;
    Some((small_number(width)?, small_number(height)?))
}
