// Whether an induced map is zero, one to one and onto.
ghost use Rattle.std.specs.Prelude.{IfOk, length, ◌≡◌, ◌≤◌};
ghost use Rattle.fm_ext.specs.Exts.{cocycles_matrix, ring_of};
ghost use Rattle.fm_graphs.specs.Graphs as runs;
ghost use Rattle.fm_graphs.specs.Trims as trims;
ghost use Rattle.fm_mat.specs.Matrices.{matrix_meaning};
ghost use Rattle.fm_plan.specs.Following.{FollowsPlan};
ghost use Rattle.fm_plan.specs.Queries as plans;
ghost use Rattle.fm_plan.specs.Queries.{compared};
ghost use Rattle.fm_queries.specs.Bases.{base_meaning};
ghost use Rattle.fm_queries.specs.Maps.{IsComparedOver, compared_value};

use crate::base::Base;
use fm_induced::{Fibre, Onto, is_one_to_one, is_onto, is_zero};
use fm_mat::Matrix;
use fm_run::{Stopped, Work};
use fm_syz::Inside;
use std::alloc::Global;

/// Whether the columns of a map's matrix lie in the image of the target's stable kernel, what it sends there, and the chain from its image.
#[derive(Drop)]
pub struct Compared {
    pub null: Inside,
    pub fibre: Fibre,
    pub onto: Onto,
}

/// The tasks `null`, `one`, and `onto 0`, `onto 1`, .. for the matrix of a map between the modules of two bases.
pub(crate) fn compare(
    alloc: Global,
    source: &Base,
    target: &Base,
    phi: &Matrix,
    work: &mut Work,
) -> Result<Compared, Stopped>
    requires some { 1 ≤ (ring_of source.now.ext).vars }
    requires few { (ring_of source.now.ext).vars ≤ 8 }
    requires ring { ring_of target.now.ext ≡ ring_of source.now.ext }
    requires ring_phi { phi.now.ring ≡ ring_of source.now.ext }
    requires rows { phi.now.rows ≡ length (cocycles_matrix target.now.ext).columns }
    requires count { length phi.now.columns ≡ length (cocycles_matrix source.now.ext).columns }
    ensures follows { let r = ring_of source.now.ext in
        (answer : runs.Inside r → trims.Preimage r × runs.Inside r → plans.Onto r → plans.Found r)
        → FollowsPlan (compared_value r answer) result work.old work.new
        (compared r (base_meaning r source.now) (base_meaning r target.now) (matrix_meaning r phi.now) answer work.old) }
    ensures over { IfOk result (IsComparedOver (ring_of source.now.ext) source.now target.now) }
{
    let kernel = target.stable_kernel();
    let null = is_zero(alloc, phi, kernel, work)?;
    let fibre = is_one_to_one(alloc, phi, kernel.matrix(), source.stable_kernel(), work)?;
    let ext = target.ext();
    let relations = ext.relations().generators().found();
    let onto = is_onto(alloc, relations, phi, ext.u(), work)?;
    Ok(Compared { null, fibre, onto })
}
