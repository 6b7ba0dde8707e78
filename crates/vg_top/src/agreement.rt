//! Whether a C function and its specification agree.
ghost use Rattle.std.specs.Prelude.{◌≡◌, ◌<◌, IsTrue, false, IfSome, IfNone};
ghost use Rattle.vg_top.specs.Agreement.{Agree, IsFirstDifference, IsPathCount, IsMostSteps};
ghost use Rattle.vg_top.specs.Ways.{GoesNewWay, GoesOldWay};

use vg_small::Small;

/// The least port at which they give different verdicts.
pub fn first_difference(c: &Small, spec: &Small) -> Option<u16>
    ensures differ { IfSome result (IsFirstDifference c.now spec.now) }
    ensures agree { IfNone result (Agree c.now spec.now) }
{
    for port in 0..spec.ports {
        if c.verdict(port) != spec.verdict(port) {
            return Some(port);
        }
    }
    None
}

// Whether the frames of a port take other sides at the tests of both than those of each lower port.
fn goes_new_way(c: &Small, spec: &Small, port: u16) -> bool
    ensures new { IsTrue result → GoesNewWay c.now spec.now port }
    ensures old { result ≡ false → GoesOldWay c.now spec.now port }
{
    for lower in 0..port {
        if c.same_sides(lower, port) && spec.same_sides(lower, port) {
            return false;
        }
    }
    true
}

/// How many different ways the frames of all ports take through the tests of both.
pub fn path_count(c: &Small, spec: &Small) -> u32
    ensures { IsPathCount c.now spec.now spec.now.ports result }
{
    let mut count = 0;
    for port in 0..spec.ports {
        if goes_new_way(c, spec, port) {
            count += 1;
        }
    }
    count
}

/// The most steps that a frame takes, of so many ports.
pub fn most_steps(c: &Small, ports: u16) -> u64
    requires { 0 < ports }
    ensures { IsMostSteps c.now ports result }
{
    let mut most = c.steps(0);
    for port in 1..ports {
        most = most.max(c.steps(port));
    }
    most
}
