// The entries of a row as they are printed.
ghost use Rattle.std.specs.Prelude.{IfOk, OnOk, map, ◌++◌, ◌≡◌};
ghost use Rattle.fm_algebra.specs.Matrix.{component};
ghost use Rattle.fm_algebra.specs.Polynomials.{polynomials};
ghost use Rattle.fm_answers.specs.Printed.{grid_of, printed, printed_vector};
ghost use Rattle.fm_cert.specs.Parts.{grid_value};
ghost use Rattle.fm_cert.specs.Pieces.{AreColumnsOver, AreOverVariables, columns_of};
ghost use Rattle.fm_limit.specs.Facts as facts;
ghost use Rattle.fm_mat.specs.Matrices.{AreColumns, column_meaning, columns_meaning, matrix_meaning};
ghost use Rattle.fm_poly.specs.declared.ring.Ring.{Ring};
ghost use Rattle.fm_vec.specs.Components.{AreOver};

use fm_cert::Grid;
use fm_mat::{Column, Matrix};
use fm_poly::{Poly, Ring};
use std::alloc::{AllocError, Global};

/// The first entry of each column, as it is printed.
pub(crate) fn first_entries(alloc: Global, m: &Matrix) -> Result<Vec<Poly>, AllocError>
    ensures value { (r : Ring) → m.now.ring ≡ r → IfOk result (λ out.
        out.items ≡ printed_vector r (facts.first_entries r.prime r.vars (matrix_meaning r m.now))) }
    ensures over { IfOk result (λ out. AreOverVariables m.now.ring.vars out.items) }
{
    printed_firsts(alloc, m.ring(), m.rows(), m.columns())
}

fn printed_firsts(
    alloc: Global,
    ring: Ring,
    rows: u32,
    columns: &[Column],
) -> Result<Vec<Poly>, AllocError>
    requires shape { AreColumns ring rows columns.now }
    ensures value { IfOk result (λ out. out.items ≡ printed_vector ring
        (map (λ c. component (polynomials ring.prime ring.vars) c 0) (columns_meaning ring columns.now))) }
    ensures over { IfOk result (λ out. AreOverVariables ring.vars out.items) }
{
    let mut out = Vec::with_capacity(alloc, columns.len())?;
    let mut left = columns;
    'columns: loop {
        let Some((column, later)) = left.split_first() else {
            return Ok(out);
        };
        out.push(printed_first(alloc, ring, column.entries())?)?;
        left = later;
    }
}

// The first entry of a column; zero, if it has none.
fn printed_first(alloc: Global, ring: Ring, entries: &[Poly]) -> Result<Poly, AllocError>
    requires { AreOver ring entries.now }
    ensures { IfOk result (λ f. f ≡ printed ring (component (polynomials ring.prime ring.vars) (column_meaning ring entries.now) 0)) }
{
    match entries.split_first() {
        Some((entry, _)) => {
            let _terms = entry.terms();
            entry.copy(alloc)
        }
        None => Ok(Poly::zero(alloc, ring)),
    }
}
