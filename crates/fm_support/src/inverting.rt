// Whether a polynomial inverts the stable kernel.
ghost use Rattle.std.specs.Prelude.{IfOk, option_map, ◌≡◌, ◌≤◌};
ghost use Rattle.fm_graphs.specs.Graphs.{inside_run};
ghost use Rattle.fm_algebra.specs.PolynomialMatrices.{matrix_scalar};
ghost use Rattle.fm_mat.specs.Matrices.{matrix_meaning};
ghost use Rattle.fm_plan.specs.Following.{FollowsPlan};
ghost use Rattle.fm_plan.specs.Tasks.{task};
ghost use Rattle.fm_run.specs.declared.task.Name.TheVariants as names;
ghost use Rattle.fm_run.specs.declared.task.Side.TheVariants as sides;
ghost use Rattle.fm_poly.specs.Polys.{meaning};
ghost use Rattle.fm_poly.specs.declared.ring.Ring.{Ring};
ghost use Rattle.fm_plan.specs.Queries.{outside_of};
ghost use Rattle.fm_run.specs.Runs.{Follows};
ghost use Rattle.fm_support.specs.Inverting.{IsInvertedOver, IsLeastPower, invert_plan, inverted_value, outside_value};
ghost use Rattle.fm_support.specs.Powers.{power_work, scalar_lift};
ghost use Rattle.fm_syz.specs.GraphValues.{graph_meaning};
ghost use Rattle.fm_syz.specs.Insides.{inside_value};

use crate::colons::{Coloned, colon_task, colons_of};
use crate::powers::{power, times};
use crate::scalars::scalar;
use fm_mat::Matrix;
use fm_poly::Poly;
use fm_run::{Name, Side, Stop, Stopped, Task, Work, in_task};
use fm_syz::{Graph, Inside, Outside, Preimage, inside_of, lift_columns, whole_of};
use std::alloc::Global;

/// How a polynomial f acts on the cokernel of a matrix: f^k times the unit matrix is the matrix times w, and a column of f^(k-1) times the unit
/// matrix is outside the image; or the colons by f, f^2, .. become stable without being everything, the last being the one before it times w.
#[derive(Drop)]
pub enum Inverted {
    Power {
        k: u32,
        w: Matrix,
        before: Option<Outside>,
    },
    Never {
        colons: Vec<Preimage>,
        w: Matrix,
        proper: Outside,
    },
}

/// The least power of f whose multiple of the unit matrix lies in the image of the graph's matrix, by the tasks `colon 0`, `colon 1`, .. and
/// `power`.
pub fn invert(alloc: Global, k: &Graph, f: &Poly, work: &mut Work) -> Result<Inverted, Stopped>
    requires ring { f.now.ring ≡ k.now.matrix.ring }
    requires some { 1 ≤ k.now.matrix.ring.vars }
    requires few { k.now.matrix.ring.vars ≤ 8 }
    ensures follows { let r = k.now.matrix.ring in FollowsPlan (inverted_value r) result work.old work.new
        (invert_plan r (meaning r f.now.terms) (graph_meaning r k.now) work.old) }
    ensures least { let r = k.now.matrix.ring in IfOk result (IsLeastPower r (matrix_meaning r k.now.matrix) (meaning r f.now.terms)) }
    ensures over { IfOk result (IsInvertedOver k.now) }
{
    // What the graph tells: it is complete.
    let _matrix = k.matrix();
    power_or_colons(alloc, k, f, work)
}

// The power, or the colons.
fn power_or_colons(alloc: Global, k: &Graph, f: &Poly, work: &mut Work) -> Result<Inverted, Stopped>
    requires ring { f.now.ring ≡ k.now.matrix.ring }
    requires some { 1 ≤ k.now.matrix.ring.vars }
    requires few { k.now.matrix.ring.vars ≤ 8 }
    ensures follows { let r = k.now.matrix.ring in FollowsPlan (inverted_value r) result work.old work.new
        (invert_plan r (meaning r f.now.terms) (graph_meaning r k.now) work.old) }
    ensures over { IfOk result (IsInvertedOver k.now) }
{
    let proper = match in_task(colon_task(0), whole_of(alloc, k, work))? {
        Inside::All(_) => return by_power(alloc, k, f, 0, work),
        Inside::First(proper) => proper,
    };
    match colons_of(alloc, k, f, proper, work)? {
        Coloned::Whole(power) => by_power(alloc, k, f, power, work),
        Coloned::Stable { colons, w, proper } => Ok(Inverted::Never { colons, w, proper }),
    }
}

// The task `power`, for the power k.
fn by_power(
    alloc: Global,
    g: &Graph,
    f: &Poly,
    k: u32,
    work: &mut Work,
) -> Result<Inverted, Stopped>
    requires ring { f.now.ring ≡ g.now.matrix.ring }
    requires some { 1 ≤ g.now.matrix.ring.vars }
    requires few { g.now.matrix.ring.vars ≤ 8 }
    ensures follows { let r = g.now.matrix.ring in FollowsPlan (inverted_value r) result work.old work.new
        (task sides.Alone names.Power 0 (power_work r k (meaning r f.now.terms) (graph_meaning r g.now)) work.old) }
    ensures over { IfOk result (IsInvertedOver g.now) }
{
    let task = Task {
        side: Side::Alone,
        name: Name::Power,
        number: 0,
    };
    in_task(task, least_power(alloc, g, f, k, work))
}

// The power k times the unit matrix, lifted, and the power before it, where there is one.
fn least_power(
    alloc: Global,
    g: &Graph,
    f: &Poly,
    k: u32,
    work: &mut Work,
) -> Result<Inverted, Stop>
    requires ring { f.now.ring ≡ g.now.matrix.ring }
    requires some { 1 ≤ g.now.matrix.ring.vars }
    requires few { g.now.matrix.ring.vars ≤ 8 }
    ensures follows { let r = g.now.matrix.ring in Follows (inverted_value r) result work.old work.new
        (power_work r k (meaning r f.now.terms) (graph_meaning r g.now) work.old) }
    ensures over { IfOk result (IsInvertedOver g.now) }
{
    if k == 0 {
        return zeroth(alloc, g, f, work);
    }
    positive(alloc, g, f, k, work)
}

// The power 0, before which there is none.
fn zeroth(alloc: Global, g: &Graph, f: &Poly, work: &mut Work) -> Result<Inverted, Stop>
    requires ring { f.now.ring ≡ g.now.matrix.ring }
    requires some { 1 ≤ g.now.matrix.ring.vars }
    requires few { g.now.matrix.ring.vars ≤ 8 }
    ensures follows { let r = g.now.matrix.ring in Follows (inverted_value r) result work.old work.new
        (power_work r 0 (meaning r f.now.terms) (graph_meaning r g.now) work.old) }
    ensures over { IfOk result (IsInvertedOver g.now) }
{
    let top = power(alloc, f, 0)?;
    let w = lift_scalar(alloc, g, &top, work)?;
    Ok(Inverted::Power {
        k: 0,
        w,
        before: None,
    })
}

// A power k > 0, and a column of the power before it that is outside.
fn positive(alloc: Global, g: &Graph, f: &Poly, k: u32, work: &mut Work) -> Result<Inverted, Stop>
    requires ring { f.now.ring ≡ g.now.matrix.ring }
    requires some { 1 ≤ g.now.matrix.ring.vars }
    requires few { g.now.matrix.ring.vars ≤ 8 }
    requires positive { 1 ≤ k }
    ensures follows { let r = g.now.matrix.ring in Follows (inverted_value r) result work.old work.new
        (power_work r k (meaning r f.now.terms) (graph_meaning r g.now) work.old) }
    ensures over { IfOk result (IsInvertedOver g.now) }
{
    let before = power(alloc, f, k - 1)?;
    let top = times(alloc, &before, f)?;
    let w = lift_scalar(alloc, g, &top, work)?;
    let inside = inside_scalar(alloc, g, &before, work)?;
    Ok(Inverted::Power {
        k,
        w,
        before: outside_part(inside),
    })
}

// What is outside, if there is something.
fn outside_part(inside: Inside) -> Option<Outside>
    ensures { (r : Ring) → option_map outside_value result ≡ outside_of r (inside_value r inside) }
{
    match inside {
        Inside::All(_) => None,
        Inside::First(outside) => Some(outside),
    }
}

// h times the unit matrix, lifted through g.
fn lift_scalar(alloc: Global, g: &Graph, h: &Poly, work: &mut Work) -> Result<Matrix, Stop>
    requires ring { h.now.ring ≡ g.now.matrix.ring }
    ensures follows { let r = g.now.matrix.ring in Follows (matrix_meaning r) result work.old work.new
        (scalar_lift r (meaning r h.now.terms) (graph_meaning r g.now) work.old) }
    ensures ring { IfOk result (λ m. m.ring ≡ g.now.matrix.ring) }
{
    let columns = scalar(alloc, h, g.rows())?;
    lift_columns(alloc, g, &columns, work)
}

// Whether h times the unit matrix lies in the image of the graph's matrix.
fn inside_scalar(alloc: Global, g: &Graph, h: &Poly, work: &mut Work) -> Result<Inside, Stop>
    requires ring { h.now.ring ≡ g.now.matrix.ring }
    ensures follows { let r = g.now.matrix.ring in Follows (inside_value r) result work.old work.new
        (inside_run r (matrix_scalar r.prime r.vars (meaning r h.now.terms) g.now.matrix.rows) (graph_meaning r g.now) work.old) }
{
    let columns = scalar(alloc, h, g.rows())?;
    inside_of(alloc, &columns, g, work)
}
