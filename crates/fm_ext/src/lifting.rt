// The lift of Frobenius along a resolution.
ghost use Rattle.std.specs.Prelude.{IfErr, IfOk, length, map, take, ◌+◌, ◌∷◌, ◌≡◌, ◌≤◌};
ghost use Rattle.fm_algebra.specs.PolynomialMatrices.{matrix_unit};
ghost use Rattle.fm_ext.specs.Exts.{differentials};
ghost use Rattle.fm_lift.specs.Lifts.{AreInARow, AreMatricesOver, after_the_first, graphs_meaning, matrices_meaning};
ghost use Rattle.fm_limit.specs.ResolvedIdeal.{IsFrobeniusLiftOf};
ghost use Rattle.fm_plan.specs.Base.{lifting};
ghost use Rattle.fm_plan.specs.Following.{FollowsPlan};
ghost use Rattle.fm_plan.specs.Results as plans;
ghost use Rattle.fm_resolve.specs.Resolutions.{IsResolution, graphs_of, resolution_value};

use fm_lift::frobenius_lift;
use fm_mat::Matrix;
use fm_resolve::Resolution;
use fm_run::{Name, Side, Stop, Stopped, Task, Work, in_task};
use fm_syz::Graph;
use std::alloc::Global;

/// The matrices theta_0 .. theta_i, by the tasks `lift 1` .. `lift i`.
pub(crate) fn lift_along(
    alloc: Global,
    side: Side,
    resolution: &Resolution,
    degree: u8,
    work: &mut Work,
) -> Result<Vec<Matrix>, Stopped>
    requires some { 1 ≤ resolution.now.first.matrix.ring.vars }
    requires few { resolution.now.first.matrix.ring.vars ≤ 8 }
    requires degree { length resolution.now.next ≡ degree }
    ensures follows { let r = resolution.now.first.matrix.ring in
        FollowsPlan (λ ts. after_the_first (matrices_meaning r ts.items)) result work.old work.new
        (lifting r side 1 (matrix_unit r.prime r.vars 1) (take degree (plans.graphs_of r (resolution_value r resolution.now))) work.old) }
    ensures first { let r = resolution.now.first.matrix.ring in IfOk result (λ ts. matrices_meaning r ts.items
        ≡ matrix_unit r.prime r.vars 1 ∷ after_the_first (matrices_meaning r ts.items)) }
    ensures rings { IfOk result (λ ts. AreMatricesOver resolution.now.first.matrix.ring ts.items) }
    ensures lifts { let r = resolution.now.first.matrix.ring in IfOk result (λ ts.
        IsFrobeniusLiftOf r.prime r.vars degree (differentials r resolution.now) (matrices_meaning r ts.items)) }
{
    let task = Task {
        side,
        name: Name::Lift,
        number: 1,
    };
    let graphs = in_task(task, graphs(alloc, resolution, degree))?;
    frobenius_lift(alloc, side, resolution.ring(), &graphs, work)
}

/// The graphs of d_1 .. d_i.
pub(crate) fn graphs(
    alloc: Global,
    resolution: &Resolution,
    degree: u8,
) -> Result<Vec<&Graph>, Stop>
    requires { degree ≤ length resolution.now.next }
    ensures row { IfOk result (λ gs. AreInARow resolution.now.first.matrix.ring 1 (map (λ g. g.now) gs.items)) }
    ensures value { let r = resolution.now.first.matrix.ring in IfOk result (λ gs.
        graphs_meaning r (map (λ g. g.now) gs.items) ≡ take degree (plans.graphs_of r (resolution_value r resolution.now))) }
    ensures taken { IfOk result (λ gs. map (λ g. g.now) gs.items ≡ take degree (graphs_of resolution.now)) }
    ensures memory { IfErr result (λ stop. stop ≡ Stop.Memory) }
    ensures resolution { IsResolution resolution.now }
{
    let graphs = resolution.graphs(alloc, usize::from(degree))?;
    Ok(graphs)
}
