// The matrix (1), and matrices in a row.
ghost use Rattle.std.specs.Prelude.{IfErr, IfOk, OnOk, [], ◌++◌, ◌∷◌, ◌≡◌, ◌≤◌, length};
ghost use Rattle.fm_algebra.specs.PolynomialMatrices.{matrix_unit};
ghost use Rattle.fm_mat.specs.Matrices.{matrix_meaning};

use fm_mat::Matrix;
use fm_poly::Ring;
use fm_run::Stop;
use std::alloc::Global;

// The matrix (1).
pub(crate) fn one(alloc: Global, ring: Ring) -> Result<Matrix, Stop>
    requires some { 1 ≤ ring.vars }
    requires few { ring.vars ≤ 8 }
    ensures ring { IfOk result (λ m. m.ring ≡ ring) }
    ensures rows { IfOk result (λ m. m.rows ≡ 1) }
    ensures count { IfOk result (λ m. length m.columns ≡ 1) }
    ensures value { IfOk result (λ m. matrix_meaning ring m ≡ matrix_unit ring.prime ring.vars 1) }
    ensures memory { IfErr result (λ stop. stop ≡ Stop.Memory) }
{
    let unit = Matrix::unit(alloc, ring, 1)?;
    Ok(unit)
}

pub(crate) fn keep(matrices: &mut Vec<Matrix>, m: Matrix) -> Result<(), Stop>
    ensures items { OnOk result (matrices.new.items ≡ matrices.old.items ++ m ∷ []) }
    ensures memory { IfErr result (λ stop. stop ≡ Stop.Memory) }
{
    matrices.push(m)?;
    Ok(())
}
