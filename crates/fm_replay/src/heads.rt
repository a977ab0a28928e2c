// Heads of members that form a pair.
ghost use Rattle.std.specs.Prelude.{◌≡◌};
ghost use Rattle.fm_parts.specs.Replays as definitions;

use fm_poly::Ring;
use fm_vec::Vector;

/// Whether the heads are in one component.
pub(crate) fn in_one_component(f: &Vector, g: &Vector) -> bool
    ensures { result ≡ definitions.in_one_component f.now.terms g.now.terms }
{
    let Some(t) = f.head() else {
        return false;
    };
    let Some(u) = g.head() else {
        return false;
    };
    t.component == u.component
}

/// Whether the head of h is in the component of that of f, and divides the least common multiple of those of f and g.
pub(crate) fn divides_lcm(ring: Ring, h: &Vector, f: &Vector, g: &Vector) -> bool
    requires h_ring { h.now.ring ≡ ring }
    requires f_ring { f.now.ring ≡ ring }
    requires g_ring { g.now.ring ≡ ring }
    ensures { result ≡ definitions.divides_lcm h.now.terms f.now.terms g.now.terms }
{
    let Some(s) = h.head() else {
        return false;
    };
    let Some(t) = f.head() else {
        return false;
    };
    let Some(u) = g.head() else {
        return false;
    };
    if s.component != t.component {
        return false;
    }
    s.mono.divides(t.mono.lcm(u.mono))
}
