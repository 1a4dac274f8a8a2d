// The page of a number, box by box.
ghost use Rattle.std.specs.Prelude.{◌≡◌, ◌++◌, ◌<◌, ◌≤◌, IfOk, length, string_bytes};
ghost use Rattle.page_gen.specs.GeneratedPage as definition;

use page_model::NoMemory;
use std::alloc::Global;

/// How many boxes a page has.
const BOXES: u32 = 64;

const HEAD: &[u8] = b"<!DOCTYPE html><html><head><style>\
body{background-color:#ffffff}\
.b{position:absolute;background-color:#000000}\
.s0{animation:f 250ms steps(1) infinite}\
.s1{animation:f 500ms steps(1) infinite}\
.s2{animation:g 1s ease-in-out infinite alternate}\
.s3{animation:g 2s linear infinite}\
@keyframes f{0%{background-color:#000000}50%{background-color:#ffffff}}\
@keyframes g{from{opacity:1}to{opacity:0.25}}\
</style></head><body>";

const TAIL: &[u8] = b"</body></html>\n";

/// The number that follows another in the sequence: a linear congruential generator modulo 2^32.
fn following(z: u32) -> u32
    ensures { result ≡ definition.following z }
{
    ((1_664_525 * u64::from(z) + 1_013_904_223) % (1 << 32)) as u32
}

/// A box, from its number and from what is drawn for it.
fn box_text(alloc: Global, number: u32, drawn: u32) -> Result<String, NoMemory>
    requires { number < 64 }
    ensures { IfOk result (λ text. string_bytes text ≡ definition.box_text number drawn) }
{
    let animation = drawn % 4;
    let left = 128 * (number % 8);
    let top = 96 * (number / 8);
    let width = 24 + 8 * (drawn / 4 % 4);
    let height = 16 + 8 * (drawn / 16 % 4);
    Ok(format!(in alloc;
        "<div class=\"b s{animation}\" style=\"left:{left}px;top:{top}px;width:{width}px;height:{height}px\"></div>"
    )?)
}

/// Adds the boxes of the page that a number begins.
fn add_boxes(alloc: Global, text: &mut Vec<u8>, first: u32) -> Result<(), NoMemory>
    ensures { IfOk result (λ nothing. text.new.items ≡ text.old.items ++ definition.boxes_text first 64) }
{
    let mut z = first;
    for number in 0..BOXES {
        z = following(z);
        let added = box_text(alloc, number, z / 65_536)?;
        text.extend_from_slice(added.as_bytes())?;
    }
    Ok(())
}

/// The page of a number, always the same: 64 boxes that blink and fade, as bytes of HTML with a line feed at their end,
/// and no more of them than a page may have.
///
/// # Errors
///
/// `NoMemory` where memory is refused.
pub fn page_text(alloc: Global, first: u32) -> Result<Vec<u8>, NoMemory>
    ensures value { IfOk result (λ text. text.items ≡ definition.generated_page first) }
    ensures few { IfOk result (λ text. length text.items ≤ 1048576) }
{
    let mut text = Vec::new(alloc);
    text.extend_from_slice(HEAD)?;
    add_boxes(alloc, &mut text, first)?;
    text.extend_from_slice(TAIL)?;
    Ok(text)
}
