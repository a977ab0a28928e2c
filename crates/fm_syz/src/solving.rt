// Solutions: minus the lower block of a rest.
ghost use Rattle.std.specs.Prelude.{IfOk, length, suc, ◌+◌, ◌≡◌};
ghost use Rattle.fm_groebner.specs.Graphs.{vector_negative};
ghost use Rattle.fm_mat.specs.Matrices.{column_meaning};
ghost use Rattle.fm_vec.specs.Components.{AreOver, components_meaning};

use crate::blocks::lower_part;
use fm_poly::{Poly, Ring};
use fm_vec::Vector;
use std::alloc::{AllocError, Global};

/// Minus the components below the first m.
pub(crate) fn solution(
    alloc: Global,
    ring: Ring,
    m: u32,
    c: u32,
    rest: &Vector,
) -> Result<Vec<Poly>, AllocError>
    requires ring { rest.now.ring ≡ ring }
    requires rows { rest.now.rows ≡ m + c }
    ensures over { IfOk result (λ w. AreOver ring w.items) }
    ensures rows { IfOk result (λ w. length w.items ≡ c) }
    ensures value { IfOk result (λ w. column_meaning ring w.items ≡
        vector_negative ring.prime ring.vars (components_meaning ring c (suc m) rest.now.terms)) }
{
    let lower = lower_part(alloc, m, rest)?;
    negated(alloc, ring, lower.entries())
}

fn negated(alloc: Global, ring: Ring, fs: &[Poly]) -> Result<Vec<Poly>, AllocError>
    requires over { AreOver ring fs.now }
    ensures over { IfOk result (λ w. AreOver ring w.items) }
    ensures rows { IfOk result (λ w. length w.items ≡ length fs.now) }
    ensures value { IfOk result (λ w. column_meaning ring w.items ≡ vector_negative ring.prime ring.vars (column_meaning ring fs.now)) }
{
    let minus_one = ring.prime.neg(ring.prime.element(1));
    let mut out = Vec::with_capacity(alloc, fs.len())?;
    let mut fs = fs;
    'entries: loop {
        let Some((f, later)) = fs.split_first() else {
            return Ok(out);
        };
        out.push(f.scale(alloc, minus_one)?)?;
        fs = later;
    }
}
