// A page that is opened to be judged.
ghost use Rattle.std.specs.Prelude.{IfOk};
ghost use Rattle.sweep.specs.Verdicts.{IsReady};

use page_model::Setup;
use sample_pages::scene_of;
use std::alloc::Global;
use std::test::Fail;
use sweep::{OpenFault, Sweep};

/// A page by its style text and its boxes, and a viewport and a rate.
#[derive(Clone, Copy)]
pub struct Shown<'a> {
    pub style: &'a str,
    pub boxes: &'a str,
    pub width: u16,
    pub height: u16,
    pub rate: u16,
}

/// The sweep of a page, or why there is none.
pub fn opened(alloc: Global, shown: Shown) -> Result<Result<Sweep, OpenFault>, Fail>
    ensures { IfOk result (λ opened. IfOk opened IsReady) }
{
    let scene = scene_of(alloc, shown.style, shown.boxes)?;
    let setup = Setup::new(shown.width, shown.height, shown.rate)?;
    match Sweep::open(alloc, scene, setup) {
        Ok(sweep) => Ok(Ok(sweep)),
        Err(fault) => Ok(Err(fault)),
    }
}

/// The sweep of a page, which there is.
pub fn sweep_of(alloc: Global, shown: Shown) -> Result<Sweep, Fail>
    ensures { IfOk result IsReady }
{
    match opened(alloc, shown)? {
        Ok(sweep) => Ok(sweep),
        Err(_) => Err(Fail::from("not opened")),
    }
}
