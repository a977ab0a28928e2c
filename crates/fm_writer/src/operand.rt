// The parts that lines of certificates name, by the matrices of which they are made.
ghost use Rattle.std.specs.Prelude.{IfOk, length, ◌≡◌};
ghost use Rattle.fm_writer.specs.Claims.{IsOperandOver, IsWholeOver, operand_part, whole_part};
ghost use Rattle.fm_writer.specs.Writers.{HasPart};
ghost use Rattle.fm_report.specs.Parts.{beside, given};
ghost use Rattle.fm_poly.specs.declared.ring.Ring.{Ring as RingValue};
ghost use Rattle.fm_vec.specs.Components.{AreOver};
ghost use Rattle.std.specs.Prelude.{[], ◌∷◌, ◌<◌, ◌^◌};

use crate::writer::Writer;
use fm_mat::{Column, Matrix};
use fm_poly::Poly;
use std::alloc::{AllocError, Global};
use std::slice;

/// A part: a matrix; columns with so many entries; one column; the transpose of a matrix; its twist by p; two matrices beside one another; the
/// twist of these by p.
#[derive(Clone, Copy)]
pub enum Operand<'a> {
    Matrix(&'a Matrix),
    Columns(u32, &'a [Column]),
    Vector(&'a [Poly]),
    Flip(&'a Matrix),
    Twist(&'a Matrix),
    Join(&'a Matrix, &'a Matrix),
    TwistOfJoin(&'a Matrix, &'a Matrix),
}

/// The part of which a log is: a part as it is, or beside a matrix.
#[derive(Clone, Copy)]
pub enum Whole<'a> {
    One(Operand<'a>),
    Beside(&'a Matrix, Operand<'a>),
}

/// The number of the part of a log, which is written where it has none yet.
pub(crate) fn whole_number(
    alloc: Global,
    whole: &Whole<'_>,
    writer: &mut Writer<'_>,
) -> Result<u64, AllocError>
    requires { IsWholeOver (length writer.old.names) whole.now }
    ensures { IfOk result (HasPart writer.old (whole_part whole.now) writer.new) }
{
    match whole {
        Whole::One(operand) => operand_number(alloc, operand, writer),
        Whole::Beside(m, operand) => {
            let a = matrix_number(alloc, m, writer)?;
            let b = operand_number(alloc, operand, writer)?;
            writer.beside(alloc, a, b)
        }
    }
}

/// The number of a part, which is written where it has none yet.
pub(crate) fn operand_number(
    alloc: Global,
    operand: &Operand<'_>,
    writer: &mut Writer<'_>,
) -> Result<u64, AllocError>
    requires { IsOperandOver (length writer.old.names) operand.now }
    ensures { IfOk result (HasPart writer.old (operand_part operand.now) writer.new) }
{
    match operand {
        Operand::Matrix(m) => matrix_number(alloc, m, writer),
        Operand::Columns(rows, columns) => writer.given(alloc, *rows, columns),
        Operand::Vector(entries) => vector_number(alloc, entries, writer),
        Operand::Flip(m) => {
            let a = matrix_number(alloc, m, writer)?;
            writer.flip(alloc, a)
        }
        Operand::Twist(m) => {
            let a = matrix_number(alloc, m, writer)?;
            writer.twist(alloc, a, 1)
        }
        Operand::Join(m, n) => join_number(alloc, m, n, writer),
        Operand::TwistOfJoin(m, n) => {
            let a = join_number(alloc, m, n, writer)?;
            writer.twist(alloc, a, 1)
        }
    }
}

/// The number of a matrix, which is written where it has none yet.
pub(crate) fn matrix_number(
    alloc: Global,
    m: &Matrix,
    writer: &mut Writer<'_>,
) -> Result<u64, AllocError>
    requires { m.now.ring.vars ≡ length writer.old.names }
    ensures { IfOk result (HasPart writer.old (given m.now.rows m.now.columns) writer.new) }
{
    writer.given(alloc, m.rows(), m.columns())
}

// The number of one column, which is copied where it is written.
fn vector_number(
    alloc: Global,
    entries: &[Poly],
    writer: &mut Writer<'_>,
) -> Result<u64, AllocError>
    requires { (r : RingValue) × (r.vars ≡ length writer.old.names) × AreOver r entries.now × (length entries.now < 2 ^ 32) }
    ensures { IfOk result (HasPart writer.old (given (length entries.now) (entries.now ∷ [])) writer.new) }
{
    let column = Column::copy_of(alloc, entries)?;
    writer.given(alloc, entries.len() as u32, slice::from_ref(&column))
}

// The number of two matrices beside one another.
fn join_number(
    alloc: Global,
    m: &Matrix,
    n: &Matrix,
    writer: &mut Writer<'_>,
) -> Result<u64, AllocError>
    requires first { m.now.ring.vars ≡ length writer.old.names }
    requires second { n.now.ring.vars ≡ length writer.old.names }
    ensures { IfOk result (HasPart writer.old (beside (given m.now.rows m.now.columns) (given n.now.rows n.now.columns)) writer.new) }
{
    let a = matrix_number(alloc, m, writer)?;
    let b = matrix_number(alloc, n, writer)?;
    writer.beside(alloc, a, b)
}
