// How it is told how light a colour is.
ghost use Rattle.std.specs.Prelude.{◌≡◌, IfOk, string_bytes};
ghost use Rattle.flash_top.specs.Texts.{light_line};

use crate::outcome::Light;
use page_model::NoMemory;
use std::alloc::Global;

/// The line of a colour's linear light, luminance and saturation.
pub(crate) fn light_line(alloc: Global, light: &Light) -> Result<String, NoMemory>
    ensures { IfOk result (λ text. string_bytes text ≡ light_line light.now) }
{
    let Light {
        red,
        green,
        blue,
        luma,
        saturated,
    } = *light;
    if saturated {
        return Ok(format!(in alloc; "lin {red} {green} {blue}, luma {luma}, red yes")?);
    }
    Ok(format!(in alloc; "lin {red} {green} {blue}, luma {luma}, red no")?)
}
