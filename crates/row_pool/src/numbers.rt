// Numbers that are out, and rows of zeros.
ghost use Rattle.std.specs.Prelude.{ℕ, ◌≡◌, ◌≢◌, ◌+◌, ◌*◌, max, slice_index, ◌++◌, ◌<◌, ◌≤◌, ◌^◌, IsTrue, IsFalse, true, false, length, count_by, replicate, slice_index_or, vec_capacity, vec_len};

/// The first number from one on that is not out, or how many numbers there are.
pub(crate) fn first_in(out: &[bool], from: u32) -> u32
    requires few { length out.now < 2 ^ 32 }
    requires before { from ≤ length out.now }
    ensures inside { result ≤ length out.now }
    ensures behind { from ≤ result }
    ensures passed { (number : ℕ) → from ≤ number → number < result → IsTrue (slice_index_or out.now number false) }
    ensures found { result < length out.now → IsFalse (slice_index_or out.now result true) }
{
    let many = out.len() as u32;
    for number in from..many {
        if !out[number as usize] {
            return number;
        }
    }
    many
}

/// How many numbers are out.
pub(crate) fn count_out(out: &[bool]) -> u32
    requires { length out.now < 2 ^ 32 }
    ensures { result ≡ count_by (λ is_out. is_out) out.now }
{
    let mut count = 0;
    for is_out in out {
        if *is_out {
            count += 1;
        }
    }
    count
}

/// Adds words of value 0, for which there is room.
pub(crate) fn add_zeros(words: &mut Vec<u64>, width: u32)
    requires { vec_len words.old + width ≤ vec_capacity words.old }
    ensures items { words.new.items ≡ words.old.items ++ replicate width 0 }
    ensures capacity { vec_capacity words.new ≡ vec_capacity words.old }
{
    for _ in 0..width {
        words.push_reserved(0);
    }
}

/// Hands out a number that isn't out: one that was out before, or the first that never was, whose row
/// gets its words.
pub(crate) fn hand_out(words: &mut Vec<u64>, out: &mut Vec<bool>, width: u32, number: u32)
    requires known { number ≤ length out.old.items }
    requires room { number ≡ length out.old.items → vec_len words.old + width ≤ vec_capacity words.old }
    requires out_room { number ≡ length out.old.items → number < vec_capacity out.old }
    ensures words { (place : ℕ) → slice_index words.new.items place ≡ slice_index words.old.items place }
    ensures long { length words.old.items ≡ length out.old.items * width → length words.new.items ≡ length out.new.items * width }
    ensures count { length out.new.items ≡ max (length out.old.items) (number + 1) }
    ensures here { IsTrue (slice_index_or out.new.items number false) }
    ensures others { (other : ℕ) → other ≢ number → slice_index_or out.new.items other false ≡ slice_index_or out.old.items other false }
    ensures capacity { vec_capacity words.new ≡ vec_capacity words.old }
    ensures out_capacity { vec_capacity out.new ≡ vec_capacity out.old }
{
    if number as usize == out.len() {
        add_zeros(words, width);
        out.push_reserved(true);
    } else {
        out[number as usize] = true;
    }
}
