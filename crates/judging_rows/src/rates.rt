// One scene that is judged at several rates, one after the other, without a copy.
ghost use Rattle.std.specs.Prelude.{◌≡◌, IfOk};
ghost use Rattle.page_model.specs.ValidScene.{IsValid};

use page_model::{Scene, Setup};
use sample_pages::{banner, scene_of_bytes};
use std::alloc::Global;
use std::test::Fail;
use sweep::{Sweep, Verdict};

/// A scene that was judged twice at a rate: the verdicts, and whether all rows were free after each.
#[derive(Drop)]
struct Judged {
    scene: Scene,
    first: Verdict,
    second: Verdict,
    all_free: bool,
}

/// The scene, judged twice at a rate and given back.
fn judged_at(alloc: Global, scene: Scene, rate: u16) -> Result<Judged, Fail>
    requires { IsValid scene }
    ensures { IfOk result (λ judged. judged.scene ≡ scene) }
{
    let setup = Setup::new(1024, 768, rate)?;
    let Ok(mut sweep) = Sweep::open(alloc, scene, setup) else {
        return Err(Fail::from("not opened"));
    };
    let first = sweep.run();
    let free_at_first = sweep.free_rows() == sweep.rows();
    let second = sweep.run();
    let free_at_second = sweep.free_rows() == sweep.rows();
    Ok(Judged {
        scene: sweep.into_scene(),
        first,
        second,
        all_free: free_at_first && free_at_second,
    })
}

/// Whether both verdicts are a pass with so many frames, and left all rows free.
fn passes(judged: &Judged, frames: u32) -> bool {
    let pass = Verdict::Pass {
        frames,
        apart: false,
    };
    judged.first == pass && judged.second == pass && judged.all_free
}

#[test]
fn one_scene_is_judged_at_four_rates(rt: HostRuntime) -> Result<(), Fail> {
    let scene = scene_of_bytes(rt.alloc(), banner())?;
    let at_10 = judged_at(rt.alloc(), scene, 10)?;
    assert!(rt; passes(&at_10, 65));
    let at_20 = judged_at(rt.alloc(), at_10.scene, 20)?;
    assert!(rt; passes(&at_20, 130));
    let at_30 = judged_at(rt.alloc(), at_20.scene, 30)?;
    assert!(rt; passes(&at_30, 195));
    let at_60 = judged_at(rt.alloc(), at_30.scene, 60)?;
    assert!(rt; passes(&at_60, 390));
    Ok(())
}
