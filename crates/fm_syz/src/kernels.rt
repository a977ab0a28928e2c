// Syzygies: generators of the kernel of a matrix, from its completed graph.
ghost use Rattle.std.specs.Prelude.{IfOk, length, map, ◌+◌, ◌≡◌, ◌≤◌};
ghost use Rattle.std.specs.List.{filter};
ghost use Rattle.fm_algebra.specs.PolynomialMatrices.{GeneratesKernel};
ghost use Rattle.fm_complete.specs.Divisions.{AreMembers, terms_of};
ghost use Rattle.fm_graphs.specs.Graphs as runs;
ghost use Rattle.fm_graphs.specs.Graphs.{lower_block};
ghost use Rattle.fm_mat.specs.Matrices.{AreColumns, columns_meaning, matrix_meaning};
ghost use Rattle.fm_poly.specs.declared.ring.Ring.{Ring};
ghost use Rattle.fm_syz.specs.GraphValues.{graph_meaning};

use crate::blocks::{is_below, lower_part};
use crate::graph::Graph;
use fm_mat::{Column, Matrix};
use fm_poly::Ring;
use fm_vec::Vector;
use std::alloc::{AllocError, Global};

/// A matrix with as many rows as g's has columns: the lower blocks of the members whose upper block is zero, in their order. It is linear in
/// the terms and components of these members, and reads the heads of the others.
pub fn syzygies(alloc: Global, g: &Graph) -> Result<Matrix, AllocError>
    ensures ring { IfOk result (λ m. m.ring ≡ g.now.matrix.ring) }
    ensures rows { IfOk result (λ m. m.rows ≡ length g.now.matrix.columns) }
    ensures kernel { let r = g.now.matrix.ring in
        IfOk result (λ m. GeneratesKernel r.prime r.vars (matrix_meaning r m) (matrix_meaning r g.now.matrix)) }
    ensures value { (r : Ring) → g.now.matrix.ring ≡ r → IfOk result (λ m. matrix_meaning r m ≡ runs.syzygies r (graph_meaning r g.now)) }
{
    let ring = g.ring();
    let columns = lower_blocks(alloc, ring, g.rows(), g.width(), g.members())?;
    Ok(Matrix::new(ring, g.width(), columns))
}

/// The last c components of the members whose first m are zero, in their order. It is linear in the terms and components of these members, and reads
/// the heads of the others.
pub fn lower_blocks(
    alloc: Global,
    ring: Ring,
    m: u32,
    c: u32,
    members: &[Vector],
) -> Result<Vec<Column>, AllocError>
    requires members { AreMembers ring (m + c) members.now }
    ensures shape { IfOk result (λ out. AreColumns ring c out.items) }
    ensures few { IfOk result (λ out. length out.items ≤ length members.now) }
    ensures value { IfOk result (λ out.
        columns_meaning ring out.items ≡ map (lower_block ring m c) (filter (runs.is_below m) (terms_of members.now))) }
{
    let mut out = Vec::new(alloc);
    let mut members = members;
    'members: loop {
        let Some((v, later)) = members.split_first() else {
            return Ok(out);
        };
        if is_below(m, v) {
            out.push(lower_part(alloc, m, v)?)?;
        }
        members = later;
    }
}
