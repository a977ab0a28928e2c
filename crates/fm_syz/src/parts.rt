// Syzygies in two parts.
ghost use Rattle.std.specs.Prelude.{IfOk, drop, length, map, take, ◌+◌, ◌-◌, ◌<◌, ◌^◌, ◌≡◌, ◌≤◌};
ghost use Rattle.std.specs.List.{filter};
ghost use Rattle.fm_complete.specs.Divisions.{AreMembers, terms_of};
ghost use Rattle.fm_graphs.specs.Graphs as runs;
ghost use Rattle.fm_graphs.specs.Graphs.{lower_block};
ghost use Rattle.fm_graphs.specs.Trims.{part};
ghost use Rattle.fm_mat.specs.Matrices.{columns_meaning, matrix_meaning};
ghost use Rattle.fm_syz.specs.GraphValues.{IsGraph, graph_meaning};

use crate::blocks::{is_below, lower_entries};
use crate::graph::Graph;
use fm_mat::{Column, Matrix};
use fm_poly::Ring;
use fm_vec::Vector;
use std::alloc::{AllocError, Global};

/// A matrix that was cut between two rows.
#[derive(Drop)]
pub(crate) struct Parts {
    pub upper: Matrix,
    pub lower: Matrix,
}

/// The syzygies, cut after their first a entries.
pub(crate) fn syzygy_parts(alloc: Global, g: &Graph, a: u32) -> Result<Parts, AllocError>
    requires { a ≤ length g.now.matrix.columns }
    ensures complete { IsGraph g.now }
    ensures upper_ring { IfOk result (λ out. out.upper.ring ≡ g.now.matrix.ring) }
    ensures lower_ring { IfOk result (λ out. out.lower.ring ≡ g.now.matrix.ring) }
    ensures same_count { IfOk result (λ out. length out.lower.columns ≡ length out.upper.columns) }
    ensures upper { let r = g.now.matrix.ring in IfOk result (λ out.
        matrix_meaning r out.upper ≡ part r a (take a) (runs.syzygies r (graph_meaning r g.now)).columns) }
    ensures lower { let r = g.now.matrix.ring in IfOk result (λ out.
        matrix_meaning r out.lower ≡ part r (length g.now.matrix.columns - a) (drop a) (runs.syzygies r (graph_meaning r g.now)).columns) }
{
    let members = g.members();
    cut_blocks(alloc, g.ring(), g.rows(), a, g.width() - a, members)
}

/// The last a + b components of the members whose first m are zero, cut after the first a of them.
fn cut_blocks(
    alloc: Global,
    ring: Ring,
    m: u32,
    a: u32,
    b: u32,
    members: &[Vector],
) -> Result<Parts, AllocError>
    requires members { AreMembers ring (m + (a + b)) members.now }
    requires few { length members.now < 2 ^ 32 }
    ensures upper_ring { IfOk result (λ out. out.upper.ring ≡ ring) }
    ensures lower_ring { IfOk result (λ out. out.lower.ring ≡ ring) }
    ensures upper_rows { IfOk result (λ out. out.upper.rows ≡ a) }
    ensures lower_rows { IfOk result (λ out. out.lower.rows ≡ b) }
    ensures same_count { IfOk result (λ out. length out.lower.columns ≡ length out.upper.columns) }
    ensures upper { IfOk result (λ out. columns_meaning ring out.upper.columns
        ≡ map (λ ts. take a (lower_block ring m (a + b) ts)) (filter (runs.is_below m) (terms_of members.now))) }
    ensures lower { IfOk result (λ out. columns_meaning ring out.lower.columns
        ≡ map (λ ts. drop a (lower_block ring m (a + b) ts)) (filter (runs.is_below m) (terms_of members.now))) }
{
    let mut upper = Vec::new(alloc);
    let mut lower = Vec::new(alloc);
    let mut members = members;
    'members: loop {
        let Some((v, later)) = members.split_first() else {
            return Ok(Parts {
                upper: Matrix::new(ring, a, upper),
                lower: Matrix::new(ring, b, lower),
            });
        };
        if is_below(m, v) {
            let mut block = lower_entries(alloc, m, v)?;
            let rest = block.split_off(a as usize)?;
            upper.push(Column::new(block))?;
            lower.push(Column::new(rest))?;
        }
        members = later;
    }
}
