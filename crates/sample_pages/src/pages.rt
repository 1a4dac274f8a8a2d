// Pages by their parts, and their scenes.
ghost use Rattle.std.specs.Prelude.{IfOk};
ghost use Rattle.page_model.specs.ValidScene.{IsValid};

use page_loader::{LoadFault, load};
use page_model::{NoMemory, Scene};
use std::alloc::Global;

/// The most bytes of a page.
const MOST: usize = 1_048_576;

/// The style text of a lamp: a body of two colours, and what its animation does.
///
/// # Errors
///
/// `NoMemory` where memory is refused.
pub fn lamp(alloc: Global, first: &str, second: &str, animation: &str) -> Result<String, NoMemory> {
    Ok(format!(in alloc;
        "body{{background-color:{first};animation:f {animation}}}@keyframes f{{0%{{background-color:{first}}}50%{{background-color:{second}}}}}"
    )?)
}

/// A page by its style text and its boxes.
///
/// # Errors
///
/// `NoMemory` where memory is refused.
pub fn page_of(alloc: Global, style: &str, boxes: &str) -> Result<String, NoMemory> {
    Ok(format!(in alloc;
        "<!DOCTYPE html><html><head><style>{style}</style></head><body>{boxes}</body></html>"
    )?)
}

/// The scene of such a page.
///
/// # Errors
///
/// The first fault of the page; `NoMemory` where memory is refused, or the page is longer than pages are.
pub fn scene_of(alloc: Global, style: &str, boxes: &str) -> Result<Scene, LoadFault>
    ensures { IfOk result IsValid }
{
    let Ok(page) = page_of(alloc, style, boxes) else {
        return Err(LoadFault::NoMemory);
    };
    scene_of_bytes(alloc, page.as_bytes())
}

/// The scene of a page by its bytes.
///
/// # Errors
///
/// The first fault of the page; `NoMemory` where memory is refused, or the page is longer than pages are.
pub fn scene_of_bytes(alloc: Global, page: &[u8]) -> Result<Scene, LoadFault>
    ensures { IfOk result IsValid }
{
    if page.len() > MOST {
        return Err(LoadFault::NoMemory);
    }
    load(alloc, page)
}
