// Common divisors and common multiples.
ghost use Rattle.std.specs.Prelude.{◌≡◌, ◌*◌, ◌≤◌, ℕ};
ghost use Rattle.std.specs.Int.{IsGcd, ◌∣◌};
ghost use Rattle.period_frames.specs.Multiples.{IsLeastMultiple};

/// The greatest common divisor, by Euclid's steps. What divides both numbers so many times divides it so many times.
pub(crate) fn greatest_divisor(a: u64, b: u64) -> u64
    ensures greatest { IsGcd a b result }
    ensures times { (n k : ℕ) → n ∣ a * k → n ∣ b * k → n ∣ result * k }
{
    let mut divisor = a;
    let mut rest = b;
    'steps: while rest != 0 {
        let next = divisor % rest;
        divisor = rest;
        rest = next;
    }
    divisor
}

/// The least common multiple of two numbers from 1 to 100,000.
pub(crate) fn least_multiple(a: u64, b: u64) -> u64
    requires some { 1 ≤ a }
    requires few { a ≤ 100000 }
    requires other_some { 1 ≤ b }
    requires other_few { b ≤ 100000 }
    ensures { IsLeastMultiple a b result }
{
    a * (b / greatest_divisor(b, a))
}
