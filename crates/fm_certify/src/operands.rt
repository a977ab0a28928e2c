// Matrices as the parts that lines name.
ghost use Rattle.std.specs.Prelude.{◌≡◌};
ghost use Rattle.fm_certificates.specs.Certificates.{matrix_part};
ghost use Rattle.fm_mat.specs.Matrices.{matrix_meaning};
ghost use Rattle.fm_report.specs.Parts as parts;
ghost use Rattle.fm_writer.specs.Claims.{IsOperandOver, IsWholeOver, operand_part, whole_part};

use crate::reading::tell_matrix;
use fm_mat::Matrix;
use fm_writer::{Operand, Whole};

/// The matrix.
pub(crate) fn matrix(m: &Matrix) -> Operand<'_>
    ensures value { let r = m.entry.now.ring in operand_part result ≡ matrix_part r (matrix_meaning r m.entry.now) }
    ensures over { IsOperandOver m.entry.now.ring.vars result }
{
    tell_matrix(m);
    Operand::Matrix(m)
}

/// Its transpose.
pub(crate) fn flip(m: &Matrix) -> Operand<'_>
    ensures value { let r = m.entry.now.ring in operand_part result ≡ parts.flip (matrix_part r (matrix_meaning r m.entry.now)) }
    ensures over { IsOperandOver m.entry.now.ring.vars result }
{
    tell_matrix(m);
    Operand::Flip(m)
}

/// Its twist by p.
pub(crate) fn twist(m: &Matrix) -> Operand<'_>
    ensures value { let r = m.entry.now.ring in operand_part result ≡ parts.twist (matrix_part r (matrix_meaning r m.entry.now)) 1 }
    ensures over { IsOperandOver m.entry.now.ring.vars result }
{
    tell_matrix(m);
    Operand::Twist(m)
}

/// Two matrices beside one another.
pub(crate) fn join<'a>(m: &'a Matrix, n: &'a Matrix) -> Operand<'a>
    requires { n.now.ring ≡ m.now.ring }
    ensures value { let r = m.entry.now.ring in operand_part result
        ≡ parts.beside (matrix_part r (matrix_meaning r m.entry.now)) (matrix_part r (matrix_meaning r n.entry.now)) }
    ensures over { IsOperandOver m.entry.now.ring.vars result }
{
    tell_matrix(m);
    tell_matrix(n);
    Operand::Join(m, n)
}

/// The twist of these by p.
pub(crate) fn twist_of_join<'a>(m: &'a Matrix, n: &'a Matrix) -> Operand<'a>
    requires { n.now.ring ≡ m.now.ring }
    ensures value { let r = m.entry.now.ring in operand_part result
        ≡ parts.twist (parts.beside (matrix_part r (matrix_meaning r m.entry.now)) (matrix_part r (matrix_meaning r n.entry.now))) 1 }
    ensures over { IsOperandOver m.entry.now.ring.vars result }
{
    tell_matrix(m);
    tell_matrix(n);
    Operand::TwistOfJoin(m, n)
}

/// A matrix, and a part beside it.
pub(crate) fn beside<'a>(m: &'a Matrix, operand: Operand<'a>) -> Whole<'a>
    ensures value { let r = m.entry.now.ring in whole_part result
        ≡ parts.beside (matrix_part r (matrix_meaning r m.entry.now)) (operand_part operand.entry) }
    ensures over { IsOperandOver m.entry.now.ring.vars operand.entry → IsWholeOver m.entry.now.ring.vars result }
{
    tell_matrix(m);
    Whole::Beside(m, operand)
}
