// Step easings.
ghost use Rattle.std.specs.Prelude.{◌≡◌, ◌≤◌, ◌*◌, ◌/◌, pos, ◌^◌, ◌≤ℤ◌};
ghost use Rattle.page_model.specs.ValidScene.{AreSteps};
ghost use Rattle.page_model.specs.Curve as definition;
ghost use Rattle.fix_span.specs.Frac.{frac_of, fraction_of, IsShare};

use fix_span::Frac;
use page_model::Jump;

/// How many jumps there are.
fn jumps_of(count: u16, jump: Jump) -> u64
    requires { AreSteps count jump }
    ensures value { result ≡ definition.jumps_of count jump }
    ensures some { 1 ≤ result }
    ensures few { result ≤ 1001 }
{
    let count = count as u64;
    match jump {
        Jump::Start | Jump::End => count,
        Jump::Neither => count - 1,
        Jump::Both => count + 1,
    }
}

/// How many of them are made at the start of the first step.
fn first_jumps(jump: Jump) -> u64
    ensures value { result ≡ definition.first_jumps jump }
    ensures few { result ≤ 1 }
{
    match jump {
        Jump::Start | Jump::Both => 1,
        Jump::End | Jump::Neither => 0,
    }
}

/// The jumps that the current step has made, over all jumps.
pub fn stepped(count: u16, jump: Jump, x: Frac) -> Frac
    requires steps { AreSteps count jump }
    requires share { IsShare x }
    requires denominator { x.den ≤ℤ pos (2 ^ 48) }
    ensures value { result ≡ frac_of (definition.stepped count jump (fraction_of x)) }
    ensures share { IsShare result }
    ensures denominator { result.den ≤ℤ pos 1001 }
{
    let jumps = jumps_of(count, jump);
    let step = step_of(count, x) + first_jumps(jump);
    Frac {
        num: step.min(jumps) as i128,
        den: jumps as i128,
    }
}

/// The step that the input lies in, from 0.
fn step_of(count: u16, x: Frac) -> u64
    requires few { count ≤ 1000 }
    requires share { IsShare x }
    requires denominator { x.den ≤ℤ pos (2 ^ 48) }
    ensures value { result ≡ (fraction_of x).num * count / (fraction_of x).den }
    ensures limit { result ≤ 1000 }
{
    x.num as u64 * count as u64 / x.den as u64
}
