// The map that an inclusion of ideals induces.
ghost use Rattle.std.specs.Prelude.{IfOk, length, take, ◌+◌, ◌<◌, ◌^◌, ◌∷◌, ◌≡◌, ◌≤◌};
ghost use Rattle.fm_algebra.specs.PolynomialMatrices.{matrix_unit};
ghost use Rattle.fm_ext.specs.Exts.{cocycles_matrix, differentials, ring_of};
ghost use Rattle.fm_lift.specs.Lifts.{AreMatricesOver, after_the_first, matrices_meaning};
ghost use Rattle.fm_limit.specs.ResolvedIdeal.{IsLiftOfIdentityOf};
ghost use Rattle.fm_mat.specs.Matrices.{column_meaning, matrix_meaning};
ghost use Rattle.fm_plan.specs.Following.{FollowsPlan};
ghost use Rattle.fm_plan.specs.Queries.{ask_map, mapped, over_identity, phi_work, plan};
ghost use Rattle.fm_plan.specs.Results.{Ideal, graphs_of};
ghost use Rattle.fm_plan.specs.Tasks.{task};
ghost use Rattle.fm_queries.specs.Bases.{IsBase, base_meaning};
ghost use Rattle.fm_queries.specs.Founds.{FollowsQuery};
ghost use Rattle.fm_queries.specs.Maps.{AreNested, IsBetweenOver, IsMapOver, between_value, contained_test, map_value};
ghost use Rattle.fm_resolve.specs.Resolutions.{resolution_value};
ghost use Rattle.fm_run.specs.declared.task.Name.TheVariants as names;
ghost use Rattle.fm_run.specs.declared.task.Side.TheVariants as sides;
ghost use Rattle.fm_syz.specs.GraphValues.{graph_meaning};
ghost use Rattle.fm_vec.specs.Components.{AreOver};

use crate::base::{Base, compute_base};
use crate::comparing::compare;
use crate::unanswered::{Refusal, Unanswered};
use fm_ext::{identity_along, matrix_of};
use fm_induced::{Fibre, Onto, first_not_contained, phi};
use fm_mat::Matrix;
use fm_poly::{Poly, Ring};
use fm_run::{Side, Stopped, Work};
use fm_syz::Inside;
use std::alloc::Global;

/// The map from the module of the source to that of the target: both modules with their chains of kernels, the lift lambda_0 .. lambda_i of the
/// identity, the matrix phi of the map, and whether the map is zero, one to one or onto in the limit.
#[derive(Drop)]
pub struct Map {
    pub source: Base,
    pub target: Base,
    pub lambda: Vec<Matrix>,
    pub phi: Matrix,
    pub null: Inside,
    pub fibre: Fibre,
    pub onto: Onto,
}

/// A map without its modules.
#[derive(Drop)]
pub(crate) struct Between {
    pub lambda: Vec<Matrix>,
    pub phi: Matrix,
    pub null: Inside,
    pub fibre: Fibre,
    pub onto: Onto,
}

/// The plan of the query `map`, in this degree, for the ideals of the source's and the target's generators.
pub fn decide_map(
    alloc: Global,
    ring: Ring,
    source: &[Poly],
    target: &[Poly],
    degree: u8,
    work: &mut Work,
) -> Result<Map, Unanswered>
    requires some { 1 ≤ ring.vars }
    requires few { ring.vars ≤ 8 }
    requires source { AreOver ring source.now }
    requires target { AreOver ring target.now }
    requires room_source { length source.now + 1 < 2 ^ 32 }
    requires room_target { length target.now + 1 < 2 ^ 32 }
    requires degree { degree < 255 }
    ensures follows { let fs = column_meaning ring source.now in let gs = column_meaning ring target.now in
        FollowsQuery (map_value ring degree fs gs) result work.old work.new (plan ring (ask_map degree fs gs) work.old) }
    ensures over { IfOk result (IsMapOver ring) }
{
    test_contained(alloc, ring, source, target, work)?;
    let source = compute_base(alloc, Side::Source, ring, source, degree, work)?;
    let target = compute_base(alloc, Side::Target, ring, target, degree, work)?;
    let map = map_between(alloc, source, target, degree, work)?;
    Ok(map)
}

// The tasks from `lambda 1` on, with the modules.
fn map_between(
    alloc: Global,
    source: Base,
    target: Base,
    degree: u8,
    work: &mut Work,
) -> Result<Map, Stopped>
    requires some { 1 ≤ (ring_of source.ext).vars }
    requires few { (ring_of source.ext).vars ≤ 8 }
    requires ring { ring_of target.ext ≡ ring_of source.ext }
    requires source { length source.ext.resolution.next ≡ degree }
    requires target { length target.ext.resolution.next ≡ degree }
    requires nested { AreNested (ring_of source.ext) degree source.ext.resolution target.ext.resolution }
    ensures follows { let r = ring_of source.ext in (fs gs : Ideal r) → FollowsPlan (map_value r degree fs gs) result work.old work.new
        (mapped r degree fs gs (base_meaning r source) (base_meaning r target) work.old) }
    ensures over { IfOk result (IsMapOver (ring_of source.ext)) }
{
    match matrices_between(alloc, &source, &target, degree, work) {
        Ok(between) => Ok(Map {
            source,
            target,
            lambda: between.lambda,
            phi: between.phi,
            null: between.null,
            fibre: between.fibre,
            onto: between.onto,
        }),
        Err(stopped) => Err(stopped),
    }
}

// The tasks from `lambda 1` on, where the target's ideal lies in that of the source.
fn matrices_between(
    alloc: Global,
    source: &Base,
    target: &Base,
    degree: u8,
    work: &mut Work,
) -> Result<Between, Stopped>
    requires some { 1 ≤ (ring_of source.now.ext).vars }
    requires few { (ring_of source.now.ext).vars ≤ 8 }
    requires ring { ring_of target.now.ext ≡ ring_of source.now.ext }
    requires source { length source.now.ext.resolution.next ≡ degree }
    requires target { length target.now.ext.resolution.next ≡ degree }
    requires nested { AreNested (ring_of source.now.ext) degree source.now.ext.resolution target.now.ext.resolution }
    ensures follows { let r = ring_of source.now.ext in (fs gs : Ideal r)
        → FollowsPlan (between_value r degree fs gs source.now target.now) result work.old work.new
        (mapped r degree fs gs (base_meaning r source.now) (base_meaning r target.now) work.old) }
    ensures over { IfOk result (IsBetweenOver (ring_of source.now.ext) source.now target.now) }
{
    let lambda = lambda_of(alloc, source, target, degree, work)?;
    let phi = phi_of(alloc, source, target, matrix_of(&lambda, degree), work)?;
    let compared = compare(alloc, source, target, &phi, work)?;
    Ok(Between {
        lambda,
        phi,
        null: compared.null,
        fibre: compared.fibre,
        onto: compared.onto,
    })
}

// The tasks `lambda 1` .. `lambda i`.
fn lambda_of(
    alloc: Global,
    source: &Base,
    target: &Base,
    degree: u8,
    work: &mut Work,
) -> Result<Vec<Matrix>, Stopped>
    requires some { 1 ≤ (ring_of source.now.ext).vars }
    requires few { (ring_of source.now.ext).vars ≤ 8 }
    requires ring { ring_of target.now.ext ≡ ring_of source.now.ext }
    requires source { length source.now.ext.resolution.next ≡ degree }
    requires target { length target.now.ext.resolution.next ≡ degree }
    ensures follows { let r = ring_of source.now.ext in
        FollowsPlan (λ ls. after_the_first (matrices_meaning r ls.items)) result work.old work.new
        (over_identity r 1 (matrix_unit r.prime r.vars 1) (take degree (differentials r target.now.ext.resolution))
        (take degree (graphs_of r (resolution_value r source.now.ext.resolution))) work.old) }
    ensures first { let r = ring_of source.now.ext in IfOk result (λ ls. matrices_meaning r ls.items
        ≡ matrix_unit r.prime r.vars 1 ∷ after_the_first (matrices_meaning r ls.items)) }
    ensures rings { IfOk result (λ ls. AreMatricesOver (ring_of source.now.ext) ls.items) }
    ensures lifts { let r = ring_of source.now.ext in AreNested r degree source.now.ext.resolution target.now.ext.resolution
        → IfOk result (λ ls. IsLiftOfIdentityOf r.prime r.vars degree (differentials r target.now.ext.resolution)
        (differentials r source.now.ext.resolution) (matrices_meaning r ls.items)) }
    ensures source { IsBase source.now }
    ensures target { IsBase target.now }
{
    let from = source.ext();
    let to = target.ext();
    identity_along(alloc, from.resolution(), to.resolution(), degree, work)
}

// The task `phi`, for the last matrix of the lift.
fn phi_of(
    alloc: Global,
    source: &Base,
    target: &Base,
    lambda: &Matrix,
    work: &mut Work,
) -> Result<Matrix, Stopped>
    requires ring { ring_of target.now.ext ≡ ring_of source.now.ext }
    requires ring_lambda { lambda.now.ring ≡ ring_of source.now.ext }
    requires rows { lambda.now.rows ≡ (cocycles_matrix source.now.ext).rows }
    requires columns { length lambda.now.columns ≡ (cocycles_matrix target.now.ext).rows }
    ensures follows { let r = ring_of source.now.ext in FollowsPlan (matrix_meaning r) result work.old work.new
        (task sides.Alone names.Phi 0 (phi_work r (matrix_meaning r lambda.now) (matrix_meaning r (cocycles_matrix source.now.ext))
        (graph_meaning r target.now.ext.cocycles.generators.graph)) work.old) }
    ensures ring { IfOk result (λ m. m.ring ≡ ring_of source.now.ext) }
    ensures rows { IfOk result (λ m. m.rows ≡ length (cocycles_matrix target.now.ext).columns) }
    ensures count { IfOk result (λ m. length m.columns ≡ length (cocycles_matrix source.now.ext).columns) }
{
    let from = source.ext();
    let to = target.ext();
    phi(
        alloc,
        lambda,
        from.cocycles().generators().found(),
        to.cocycles().generators().graph(),
        work,
    )
}

// The task `contained`, and the refusal that may follow.
fn test_contained(
    alloc: Global,
    ring: Ring,
    source: &[Poly],
    target: &[Poly],
    work: &mut Work,
) -> Result<(), Unanswered>
    requires source { AreOver ring source.now }
    requires target { AreOver ring target.now }
    requires room_source { length source.now < 2 ^ 32 }
    requires room_target { length target.now < 2 ^ 32 }
    ensures follows { FollowsQuery (λ _. tt) result work.old work.new
        (contained_test ring (column_meaning ring source.now) (column_meaning ring target.now) work.old) }
{
    match first_not_contained(alloc, ring, source, target, work)? {
        Some(generator) => Err(Unanswered::Refused(Refusal::NotContained { generator })),
        None => Ok(()),
    }
}
