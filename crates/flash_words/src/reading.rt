// The words of a command line, read.
ghost use Rattle.std.specs.Prelude.{◌≡◌, ◌<◌, ℕ, IfOk, OnErr, IfSome, decimal, map, string_bytes};
ghost use Rattle.page_model.specs.Viewing.{Viewing};
ghost use Rattle.page_model.specs.declared.colour.Rgb.{Rgb as Colour};
ghost use Rattle.flash_words.specs.Words.{Spells, SpellsCheck, SpellsDemo, SpellsLight, SpellsSetup, SpellsTint};
ghost use Rattle.flash_words.specs.Words.{SpellsVerify, Spot};

use crate::colours::colour;
use crate::numerals::{number, number_over_1001, small_number, width_and_height};
use crate::words::{Command, WordsFault};
use page_model::{Rgb, Setup};

/// The command that the words spell; the program's own name is not among them.
///
/// # Errors
///
/// `WordsFault` where the words spell no command.
pub fn command(words: &[String]) -> Result<Command, WordsFault>
    ensures ok { IfOk result (λ c. Spells (map string_bytes words.now) c) }
    ensures err { OnErr result ((c : Command) → Spells (map string_bytes words.now) c → ⊥) }
    ensures spelled { (c : Command) → Spells (map string_bytes words.now) c → result ≡ Ok c }
{
    find(words).ok_or(WordsFault)
}

// The command that the words spell, if they spell one.
fn find(words: &[String]) -> Option<Command>
    ensures ok { IfSome result (λ c. Spells (map string_bytes words.now) c) }
    ensures spelled { (c : Command) → Spells (map string_bytes words.now) c → result ≡ Some c }
{
    match check(words) {
        Some(setup) => Some(Command::Check { page: 1, setup }),
        None => match verify(words) {
            Some(setup) => Some(Command::Verify {
                page: 1,
                witness: 2,
                setup,
            }),
            None => match light(words) {
                Some(colour) => Some(Command::Light { colour }),
                None => match demo(words) {
                    Some((number, setup)) => Some(Command::Demo { number, setup }),
                    None => tint(words),
                },
            },
        },
    }
}

// The setup that `check` PAGE SIZE RATE spell.
fn check(words: &[String]) -> Option<Setup>
    ensures ok { IfSome result (λ s. SpellsCheck (map string_bytes words.now) 1 s) }
    ensures spelled { (page : ℕ) (s : Viewing) → SpellsCheck (map string_bytes words.now) page s
        → (page ≡ 1) × (result ≡ Some s) }
{
    let [name, _page, size, rate] = words else {
        return None;
    };
    if name.as_str() != "check" {
        return None;
    }
    setup(size.as_str(), rate.as_str())
}

// The setup that `verify` PAGE WITNESS SIZE RATE spell.
fn verify(words: &[String]) -> Option<Setup>
    ensures ok { IfSome result (λ s. SpellsVerify (map string_bytes words.now) 1 2 s) }
    ensures spelled { (page witness : ℕ) (s : Viewing) → SpellsVerify (map string_bytes words.now) page witness s
        → (page ≡ 1) × (witness ≡ 2) × (result ≡ Some s) }
{
    let [name, _page, _witness, size, rate] = words else {
        return None;
    };
    if name.as_str() != "verify" {
        return None;
    }
    setup(size.as_str(), rate.as_str())
}

// The command that `tint` PAGE SIZE RATE FRAME X Y spell.
fn tint(words: &[String]) -> Option<Command>
    ensures ok { IfSome result (λ c. Spells (map string_bytes words.now) c) }
    ensures spelled { (page : ℕ) (s : Viewing) (spot : Spot) → SpellsTint (map string_bytes words.now) page s spot
        → result ≡ Some (Command.Tint page s spot.frame spot.column spot.row) }
{
    let [name, _page, size, rate, frame, x, y] = words else {
        return None;
    };
    if name.as_str() != "tint" {
        return None;
    }
    let setup = setup(size.as_str(), rate.as_str())?;
    let frame = number(frame.as_str())?;
    let x = below(x.as_str(), setup.width())?;
    let y = below(y.as_str(), setup.height())?;
    Some(Command::Tint {
        page: 1,
        setup,
        frame,
        x,
        y,
    })
}

// The colour that `light` COLOUR spell.
fn light(words: &[String]) -> Option<Rgb>
    ensures ok { IfSome result (λ c. SpellsLight (map string_bytes words.now) c) }
    ensures spelled { (c : Colour) → SpellsLight (map string_bytes words.now) c → result ≡ Some c }
{
    let [name, word] = words else {
        return None;
    };
    if name.as_str() != "light" {
        return None;
    }
    colour(word.as_str())
}

// The number and the setup that `demo` N SIZE RATE spell.
fn demo(words: &[String]) -> Option<(u32, Setup)>
    ensures ok { IfSome result (λ d. SpellsDemo (map string_bytes words.now) d.0 d.1) }
    ensures spelled { (n : ℕ) (s : Viewing) → SpellsDemo (map string_bytes words.now) n s → result ≡ Some (n, s) }
{
    let [name, number_word, size, rate] = words else {
        return None;
    };
    if name.as_str() != "demo" {
        return None;
    }
    let number = number(number_word.as_str())?;
    let setup = setup(size.as_str(), rate.as_str())?;
    Some((number, setup))
}

// The number below a limit that a word writes.
fn below(word: &str, limit: u16) -> Option<u16>
    ensures ok { IfSome result (λ n. word.now ≡ decimal n) }
    ensures within { IfSome result (λ n. n < limit) }
    ensures spelled { (n : ℕ) → n < limit → word.now ≡ decimal n → result ≡ Some n }
{
    let number = small_number(word)?;
    if number < limit { Some(number) } else { None }
}

// The setup that SIZE and RATE spell.
fn setup(size: &str, rate: &str) -> Option<Setup>
    ensures ok { IfSome result (λ s. SpellsSetup size.now rate.now s) }
    ensures spelled { (s : Viewing) → SpellsSetup size.now rate.now s → result ≡ Some s }
{
    let (width, height) = width_and_height(size)?;
    match number_over_1001(rate) {
        Some(num) => Setup::over_1001(width, height, num).ok(),
        None => Setup::new(width, height, small_number(rate)?).ok(),
    }
}
