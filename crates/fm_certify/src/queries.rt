// The certificates of answers, a function for each kind of query.
ghost use Rattle.std.specs.Prelude.{IfOk, List, length, ℕ, ◌<◌, ◌^◌, ◌≡◌};
ghost use Rattle.fm_algebra.specs.Polynomials.{Polynomial};
ghost use Rattle.fm_certificates.specs.Certificates.{found_claims};
ghost use Rattle.fm_chain.specs.Stages.{IsKilledOver};
ghost use Rattle.fm_ext.specs.Exts.{ext_meaning, ring_of};
ghost use Rattle.fm_graphs.specs.Listing.{VectorOf};
ghost use Rattle.fm_plan.specs.Queries as plans;
ghost use Rattle.fm_plan.specs.Results.{Ideal};
ghost use Rattle.fm_poly.specs.Polys.{PolyValue, meaning};
ghost use Rattle.fm_problem.specs.Sound.{IsProblem};
ghost use Rattle.fm_problem.specs.declared.query.Query.TheVariants as queries;
ghost use Rattle.fm_queries.specs.Bases.{base_meaning, stable_graph};
ghost use Rattle.fm_queries.specs.Founds.{class_value, invert_value, support_value, zero_value};
ghost use Rattle.fm_queries.specs.Maps.{IsMapOver, map_value};
ghost use Rattle.fm_resolve.specs.Memberships.{membership_value};
ghost use Rattle.fm_resolve.specs.Resolutions.{resolution_value};
ghost use Rattle.fm_support.specs.Inverting.{IsInvertedOver};
ghost use Rattle.fm_syz.specs.Insides.{HasColumns};
ghost use Rattle.fm_vec.specs.Components.{AreOver};
ghost use Rattle.fm_writer.specs.Writers.{IsCertificate};

use crate::appending::{push_matrix, push_preimage, push_vector};
use crate::blocks::{push_base_block, push_datum};
use crate::classes::push_killed;
use crate::colons::push_inverted;
use crate::exts::push_ext;
use crate::inside::push_inside;
use crate::maps::push_between;
use crate::operands::{beside, matrix};
use crate::resolutions::push_resolution;
use fm_ext::Ext;
use fm_poly::Poly;
use fm_problem::Problem;
use fm_queries::{Base, Class, Inverting, Map, Support, Zero};
use fm_resolve::{Membership, Resolution};
use fm_support::blocks::{diagonal_blocks, unit_column};
use fm_support::scalars::scalar;
use fm_writer::{Excluding, Generating, Named, certificate};
use std::alloc::{AllocError, Global};

/// The certificate of an answer to the query whether the module in this degree is zero.
pub fn certify_zero(
    alloc: Global,
    problem: &Problem,
    ideal: u32,
    degree: u8,
    found: &Zero,
) -> Result<Vec<u8>, AllocError>
    requires problem { IsProblem problem.now }
    requires ideal { ideal < length problem.now.ideals }
    requires ring { ring_of found.now.base.ext ≡ problem.now.ring }
    requires degree { length found.now.base.ext.resolution.next ≡ degree }
    requires columns { HasColumns problem.now.ring (length (stable_graph found.now.base).matrix.columns) found.now.whole }
    ensures { let r = problem.now.ring in (fs : Ideal r) → IfOk result (λ text. IsCertificate problem.now.vars
        (found_claims problem.now (queries.Zero degree ideal) (zero_value r degree fs found.now)) text.items) }
{
    let mut claims = Vec::new(alloc);
    push_base_block(problem, ideal, degree, &found.base, &mut claims)?;
    let stable = found.base.stable_kernel();
    push_inside(
        stable,
        &found.whole,
        Named::Whole,
        Excluding::Proper,
        &mut claims,
    )?;
    certificate(alloc, problem.vars.as_slice(), &claims)
}

/// The certificate of an answer to the query on a class of this degree.
pub fn certify_class(
    alloc: Global,
    problem: &Problem,
    ideal: u32,
    degree: u8,
    found: &Class,
) -> Result<Vec<u8>, AllocError>
    requires problem { IsProblem problem.now }
    requires ideal { ideal < length problem.now.ideals }
    requires ring { ring_of found.now.base.ext ≡ problem.now.ring }
    requires degree { length found.now.base.ext.resolution.next ≡ degree }
    requires coordinates { AreOver problem.now.ring found.now.coordinates.items }
    requires few { length found.now.coordinates.items < 2 ^ 32 }
    requires killed { IsKilledOver problem.now.ring found.now.killed }
    ensures { let r = problem.now.ring in (fs : Ideal r) (e : ℕ) (z : VectorOf r) (entries : List PolyValue) → IfOk result (λ text. IsCertificate problem.now.vars
        (found_claims problem.now (queries.Class degree ideal e entries) (class_value r degree fs e z found.now)) text.items) }
{
    let mut claims = Vec::new(alloc);
    push_base_block(problem, ideal, degree, &found.base, &mut claims)?;
    push_vector(
        Named::Coordinates,
        found.coordinates.as_slice(),
        &mut claims,
    )?;
    push_killed(&found.base, &found.killed, &mut claims)?;
    certificate(alloc, problem.vars.as_slice(), &claims)
}

/// The certificate of an answer to the query on the root in this degree.
pub fn certify_root(
    alloc: Global,
    problem: &Problem,
    ideal: u32,
    degree: u8,
    found: &Base,
) -> Result<Vec<u8>, AllocError>
    requires problem { IsProblem problem.now }
    requires ideal { ideal < length problem.now.ideals }
    requires ring { ring_of found.now.ext ≡ problem.now.ring }
    requires degree { length found.now.ext.resolution.next ≡ degree }
    ensures { let r = problem.now.ring in (fs : Ideal r) → IfOk result (λ text. IsCertificate problem.now.vars
        (found_claims problem.now (queries.Root degree ideal) (plans.found_root degree fs (base_meaning r found.now))) text.items) }
{
    let mut claims = Vec::new(alloc);
    push_base_block(problem, ideal, degree, found, &mut claims)?;
    certificate(alloc, problem.vars.as_slice(), &claims)
}

/// The certificate of an answer to the query whether the module in this degree vanishes after inverting f.
pub fn certify_inverting(
    alloc: Global,
    problem: &Problem,
    ideal: u32,
    degree: u8,
    f: &Poly,
    found: &Inverting,
) -> Result<Vec<u8>, AllocError>
    requires problem { IsProblem problem.now }
    requires ideal { ideal < length problem.now.ideals }
    requires polynomial { f.now.ring ≡ problem.now.ring }
    requires ring { ring_of found.now.base.ext ≡ problem.now.ring }
    requires degree { length found.now.base.ext.resolution.next ≡ degree }
    requires over { IsInvertedOver (stable_graph found.now.base) found.now.inverted }
    ensures { let r = problem.now.ring in (fs : Ideal r) → IfOk result (λ text. IsCertificate problem.now.vars
        (found_claims problem.now (queries.Invert degree ideal f.now) (invert_value r degree fs (meaning r f.now.terms) found.now)) text.items) }
{
    let scalar = scalar(alloc, f, found.base.stable_kernel().rows())?;
    let mut claims = Vec::new(alloc);
    push_base_block(problem, ideal, degree, &found.base, &mut claims)?;
    push_inverted(&found.base, &scalar, &found.inverted, &mut claims)?;
    certificate(alloc, problem.vars.as_slice(), &claims)
}

/// The certificate of an answer to the query on the support in this degree.
pub fn certify_support(
    alloc: Global,
    problem: &Problem,
    ideal: u32,
    degree: u8,
    found: &Support,
) -> Result<Vec<u8>, AllocError>
    requires problem { IsProblem problem.now }
    requires ideal { ideal < length problem.now.ideals }
    requires ring { ring_of found.now.base.ext ≡ problem.now.ring }
    requires degree { length found.now.base.ext.resolution.next ≡ degree }
    requires annihilator { found.now.annihilator.generators.graph.matrix.ring ≡ problem.now.ring }
    ensures { let r = problem.now.ring in (fs : Ideal r) → IfOk result (λ text. IsCertificate problem.now.vars
        (found_claims problem.now (queries.Support degree ideal) (support_value r degree fs found.now)) text.items) }
{
    let kernel = found.base.stable_kernel().matrix();
    let rows = kernel.rows() as usize;
    if rows * rows > LONGEST || rows * kernel.columns().len() > LONGEST {
        return Err(AllocError);
    }
    let unit = unit_column(alloc, kernel.ring(), kernel.rows())?;
    let blocks = diagonal_blocks(alloc, kernel)?;
    let mut claims = Vec::new(alloc);
    push_base_block(problem, ideal, degree, &found.base, &mut claims)?;
    let both = beside(&unit, matrix(&blocks));
    push_preimage(
        Generating::Annihilator,
        both,
        &found.annihilator,
        &mut claims,
    )?;
    certificate(alloc, problem.vars.as_slice(), &claims)
}

// Matrices have fewer than 2^32 rows and columns; there is no memory for more.
const LONGEST: usize = 4_294_967_295;

/// The certificate of an answer to the query on a map in this degree.
pub fn certify_map(
    alloc: Global,
    problem: &Problem,
    source: u32,
    target: u32,
    degree: u8,
    found: &Map,
) -> Result<Vec<u8>, AllocError>
    requires problem { IsProblem problem.now }
    requires source { source < length problem.now.ideals }
    requires target { target < length problem.now.ideals }
    requires over { IsMapOver problem.now.ring found.now }
    requires degree_source { length found.now.source.ext.resolution.next ≡ degree }
    requires degree_target { length found.now.target.ext.resolution.next ≡ degree }
    ensures { let r = problem.now.ring in (fs gs : Ideal r) → IfOk result (λ text. IsCertificate problem.now.vars
        (found_claims problem.now (queries.Map degree source target) (map_value r degree fs gs found.now)) text.items) }
{
    let mut claims = Vec::new(alloc);
    push_base_block(problem, source, degree, &found.source, &mut claims)?;
    push_base_block(problem, target, degree, &found.target, &mut claims)?;
    push_between(found, &mut claims)?;
    certificate(alloc, problem.vars.as_slice(), &claims)
}

/// The certificate of an answer to the query whether a polynomial lies in an ideal.
pub fn certify_member(
    alloc: Global,
    problem: &Problem,
    ideal: u32,
    found: &Membership,
) -> Result<Vec<u8>, AllocError>
    requires problem { IsProblem problem.now }
    requires ring { found.now.first.matrix.ring ≡ problem.now.ring }
    requires columns { HasColumns problem.now.ring (length found.now.first.matrix.columns) found.now.inside }
    ensures { let r = problem.now.ring in (fs : Ideal r) (f : Polynomial r.prime r.vars) (g : PolyValue) → IfOk result (λ text. IsCertificate problem.now.vars
        (found_claims problem.now (queries.Member ideal g) (membership_value r fs f found.now)) text.items) }
{
    let mut claims = Vec::new(alloc);
    push_matrix(Named::D(1), found.first.matrix(), &mut claims)?;
    push_inside(
        &found.first,
        &found.inside,
        Named::Cofactors,
        Excluding::Foreign,
        &mut claims,
    )?;
    certificate(alloc, problem.vars.as_slice(), &claims)
}

/// The certificate of an answer to the query on the ranks of a resolution.
pub fn certify_resolution(
    alloc: Global,
    problem: &Problem,
    ideal: u32,
    degree: u8,
    found: &Resolution,
) -> Result<Vec<u8>, AllocError>
    requires problem { IsProblem problem.now }
    requires ideal { ideal < length problem.now.ideals }
    requires ring { found.now.first.matrix.ring ≡ problem.now.ring }
    ensures { let r = problem.now.ring in (fs : Ideal r) → IfOk result (λ text. IsCertificate problem.now.vars
        (found_claims problem.now (queries.Resolution degree ideal) (plans.found_resolution degree fs (resolution_value r found.now))) text.items) }
{
    let mut claims = Vec::new(alloc);
    push_datum(problem, ideal, degree, &mut claims)?;
    push_resolution(found, &mut claims)?;
    certificate(alloc, problem.vars.as_slice(), &claims)
}

/// The certificate of an answer to the query on Ext of this degree.
pub fn certify_ext(
    alloc: Global,
    problem: &Problem,
    ideal: u32,
    degree: u8,
    found: &Ext,
) -> Result<Vec<u8>, AllocError>
    requires problem { IsProblem problem.now }
    requires ideal { ideal < length problem.now.ideals }
    requires ring { ring_of found.now ≡ problem.now.ring }
    requires degree { length found.now.resolution.next ≡ degree }
    ensures { let r = problem.now.ring in (fs : Ideal r) → IfOk result (λ text. IsCertificate problem.now.vars
        (found_claims problem.now (queries.ExtOf degree ideal) (plans.found_ext degree fs (ext_meaning r found.now))) text.items) }
{
    let mut claims = Vec::new(alloc);
    push_datum(problem, ideal, degree, &mut claims)?;
    push_ext(found, degree, &mut claims)?;
    certificate(alloc, problem.vars.as_slice(), &claims)
}
