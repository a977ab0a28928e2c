// The lift of the identity from one resolution to another.
ghost use Rattle.std.specs.Prelude.{IfErr, IfOk, length, map, take, ◌∷◌, ◌≡◌, ◌≤◌};
ghost use Rattle.fm_algebra.specs.PolynomialMatrices.{matrix_unit};
ghost use Rattle.fm_ext.specs.Exts.{differentials as differentials_meant};
ghost use Rattle.fm_lift.specs.Lifts.{AreMatricesOver, after_the_first, matrices_meaning};
ghost use Rattle.fm_limit.specs.Facts.{ColumnsInImage};
ghost use Rattle.fm_limit.specs.ResolvedIdeal.{IsLiftOfIdentityOf, IsResolutionOf, row};
ghost use Rattle.fm_plan.specs.Following.{FollowsPlan};
ghost use Rattle.fm_plan.specs.Queries.{over_identity};
ghost use Rattle.fm_plan.specs.Results as plans;
ghost use Rattle.fm_resolve.specs.Resolutions.{IsResolution, graphs_of, resolution_value};
ghost use Rattle.fm_syz.specs.GraphValues.{GraphValue};

use crate::lifting::graphs;
use fm_lift::over_identity;
use fm_mat::Matrix;
use fm_resolve::Resolution;
use fm_run::{Name, Side, Stop, Stopped, Task, Work, in_task};
use std::alloc::Global;

/// The matrices lambda_0 .. lambda_i from the resolution of the target to that of the source, both through this degree, by the tasks `lambda 1`
/// .. `lambda i`. Each costs a product, and one division for each of its columns.
pub fn identity_along(
    alloc: Global,
    source: &Resolution,
    target: &Resolution,
    degree: u8,
    work: &mut Work,
) -> Result<Vec<Matrix>, Stopped>
    requires some { 1 ≤ source.now.first.matrix.ring.vars }
    requires few { source.now.first.matrix.ring.vars ≤ 8 }
    requires ring { target.now.first.matrix.ring ≡ source.now.first.matrix.ring }
    requires source { length source.now.next ≡ degree }
    requires target { length target.now.next ≡ degree }
    ensures follows { let r = source.now.first.matrix.ring in
        FollowsPlan (λ ls. after_the_first (matrices_meaning r ls.items)) result work.old work.new
        (over_identity r 1 (matrix_unit r.prime r.vars 1) (take degree (differentials_meant r target.now))
        (take degree (plans.graphs_of r (resolution_value r source.now))) work.old) }
    ensures first { let r = source.now.first.matrix.ring in IfOk result (λ ls. matrices_meaning r ls.items
        ≡ matrix_unit r.prime r.vars 1 ∷ after_the_first (matrices_meaning r ls.items)) }
    ensures rings { IfOk result (λ ls. AreMatricesOver source.now.first.matrix.ring ls.items) }
    ensures lifts { let r = source.now.first.matrix.ring in (fs gs : plans.Ideal r)
        → IsResolutionOf r.prime r.vars fs degree (differentials_meant r source.now)
        → IsResolutionOf r.prime r.vars gs degree (differentials_meant r target.now)
        → ColumnsInImage r.prime r.vars (row r.prime r.vars fs) (row r.prime r.vars gs)
        → IfOk result (λ ls. IsLiftOfIdentityOf r.prime r.vars degree (differentials_meant r target.now)
        (differentials_meant r source.now) (matrices_meaning r ls.items)) }
{
    let task = Task {
        side: Side::Alone,
        name: Name::Lambda,
        number: 1,
    };
    let graphs = in_task(task, graphs(alloc, source, degree))?;
    let differentials = in_task(task, differentials(alloc, target, degree))?;
    over_identity(alloc, source.ring(), &differentials, &graphs, work)
}

// The matrices d_1 .. d_i.
fn differentials(alloc: Global, resolution: &Resolution, degree: u8) -> Result<Vec<&Matrix>, Stop>
    requires { degree ≤ length resolution.now.next }
    ensures value { IfOk result (λ ds.
        map (λ d. d.now) ds.items ≡ take degree (map (λ (g : GraphValue). g.matrix) (graphs_of resolution.now))) }
    ensures memory { IfErr result (λ stop. stop ≡ Stop.Memory) }
    ensures resolution { IsResolution resolution.now }
{
    let differentials = resolution.differentials(alloc, usize::from(degree))?;
    Ok(differentials)
}
