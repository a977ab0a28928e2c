// Single lines of certificates, appended to those that stand.
ghost use Rattle.std.specs.Prelude.{OnOk, [], length, ◌∷◌, ◌<◌, ◌^◌, ◌≡◌};
ghost use Rattle.fm_certificates.specs.Certificates.{columns_part, matrix_part, outside_claim, preimage_claim, vector_part};
ghost use Rattle.fm_certify.specs.Claims.{HasClaims};
ghost use Rattle.fm_chain.specs.Chains.{outside_value};
ghost use Rattle.fm_mat.specs.Matrices.{AreColumns, column_meaning, columns_meaning, matrix_meaning};
ghost use Rattle.fm_poly.specs.declared.ring.Ring.{Ring as RingValue};
ghost use Rattle.fm_standard.specs.Writing.{part_claim};
ghost use Rattle.fm_syz.specs.GeneratorValues.{preimage_meaning};
ghost use Rattle.fm_syz.specs.GraphValues.{graph_meaning};
ghost use Rattle.fm_vec.specs.Components.{AreOver};
ghost use Rattle.fm_writer.specs.Claims.{IsWholeOver, whole_part};
ghost use Rattle.fm_writer.specs.Kinds.{excluding_line, generating_line, named_line};

use crate::operands::matrix;
use crate::reading::{tell_columns, tell_entries, tell_matrix};
use fm_mat::{Column, Matrix};
use fm_poly::Poly;
use fm_syz::{Graph, Outside, Preimage};
use fm_writer::{Claim, Excluding, Generating, Named, Operand, Shown, Whole};
use std::alloc::AllocError;

/// A line that names a matrix.
pub(crate) fn push_matrix<'a>(
    kind: Named,
    m: &'a Matrix,
    claims: &mut Vec<Claim<'a>>,
) -> Result<(), AllocError>
    ensures { let r = m.now.ring in OnOk result (HasClaims r.vars claims.old.items
        (part_claim (matrix_part r (matrix_meaning r m.now)) (named_line kind) ∷ []) claims.new.items) }
{
    claims.push(Claim::Named {
        kind,
        operand: matrix(m),
    })?;
    Ok(())
}

/// A line that names the matrix of columns with so many entries.
pub(crate) fn push_columns<'a>(
    kind: Named,
    rows: u32,
    columns: &'a [Column],
    claims: &mut Vec<Claim<'a>>,
) -> Result<(), AllocError>
    ensures { (r : RingValue) → AreColumns r rows columns.now → OnOk result (HasClaims r.vars claims.old.items
        (part_claim (columns_part r rows (columns_meaning r columns.now)) (named_line kind) ∷ []) claims.new.items) }
{
    tell_columns(columns);
    claims.push(Claim::Named {
        kind,
        operand: Operand::Columns(rows, columns),
    })?;
    Ok(())
}

/// A line that names a vector, as a matrix of one column.
pub(crate) fn push_vector<'a>(
    kind: Named,
    v: &'a [Poly],
    claims: &mut Vec<Claim<'a>>,
) -> Result<(), AllocError>
    requires { length v.now < 2 ^ 32 }
    ensures { (r : RingValue) → AreOver r v.now → OnOk result (HasClaims r.vars claims.old.items
        (part_claim (vector_part r (column_meaning r v.now)) (named_line kind) ∷ []) claims.new.items) }
{
    tell_entries(v);
    claims.push(Claim::Named {
        kind,
        operand: Operand::Vector(v),
    })?;
    Ok(())
}

/// A line on generators of the first entries of the kernel of the matrix of a part.
pub(crate) fn push_preimage<'a>(
    kind: Generating,
    whole: Whole<'a>,
    preimage: &'a Preimage,
    claims: &mut Vec<Claim<'a>>,
) -> Result<(), AllocError>
    requires { IsWholeOver preimage.now.generators.graph.matrix.ring.vars whole }
    ensures { let r = preimage.now.generators.graph.matrix.ring in OnOk result (HasClaims r.vars claims.old.items
        (preimage_claim r (whole_part whole.entry) (preimage_meaning r preimage.now) (generating_line kind) ∷ [])
        claims.new.items) }
{
    let generators = preimage.generators();
    tell_matrix(generators.found());
    tell_matrix(generators.x());
    tell_matrix(generators.w());
    claims.push(Claim::Generating {
        kind,
        found: generators.found(),
        shown: Shown {
            whole,
            log: preimage.whole().log(),
            x: generators.x(),
            w: generators.w(),
        },
    })?;
    Ok(())
}

/// A line on a column that lies outside the image of the matrix of a graph.
pub(crate) fn push_outside<'a>(
    kind: Excluding,
    graph: &'a Graph,
    outside: &'a Outside,
    claims: &mut Vec<Claim<'a>>,
) -> Result<(), AllocError>
    ensures { let r = graph.now.matrix.ring in OnOk result (HasClaims r.vars claims.old.items
        (outside_claim r (graph_meaning r graph.now) (outside_value outside.now) (excluding_line kind) ∷ []) claims.new.items) }
{
    claims.push(Claim::Excluding {
        kind,
        whole: Whole::One(matrix(graph.matrix())),
        log: graph.log(),
        column: outside.column,
        by: outside.by.as_slice(),
    })?;
    Ok(())
}
