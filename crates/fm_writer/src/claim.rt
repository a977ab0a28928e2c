// The lines of certificates as data.
ghost use Rattle.std.specs.Prelude.{IfOk, OnOk, [], length, map, ◌∷◌, ◌≡◌};
ghost use Rattle.fm_complete.specs.Bases.{entry_value};
ghost use Rattle.fm_standard.specs.Writing as writing;
ghost use Rattle.fm_standard.specs.Writing.{part, reference_written};
ghost use Rattle.fm_writer.specs.Claims.{HasNumbers, IsClaimOver, IsShownOver, IsWholeOver, claim_value, shown_names, whole_part};
ghost use Rattle.fm_writer.specs.Kinds.{excluding_line, exact_line, generating_line, named_line};
ghost use Rattle.fm_writer.specs.Writers.{HasClaimed, HasLine, HasNumbered};

use crate::kinds::{Excluding, Generating, Named};
use crate::operand::{Operand, Whole, matrix_number, operand_number, whole_number};
use crate::writer::{Writer, tell_small};
use fm_cert::Piece;
use fm_complete::Entry;
use fm_mat::Matrix;
use std::alloc::{AllocError, Global};

/// What shows that a matrix generates the first entries of the kernel of another: the log of that one, and the matrices X and W.
#[derive(Clone, Copy)]
pub struct Shown<'a> {
    pub whole: Whole<'a>,
    pub log: &'a [Entry],
    pub x: &'a Matrix,
    pub w: &'a Matrix,
}

// The numbers of a log, of X and of W.
#[derive(Clone, Copy)]
struct ShownNumbers {
    n: u64,
    x: u64,
    w: u64,
}

/// A line of a certificate, with what it names.
#[derive(Clone, Copy)]
pub enum Claim<'a> {
    /// `datum`, the name of an ideal, and a degree.
    Datum {
        name: &'a [u8],
        degree: u8,
    },
    Named {
        kind: Named,
        operand: Operand<'a>,
    },
    /// `exact` and a number: the next differential generates the kernel of this one.
    Exact {
        number: u64,
        shown: Shown<'a>,
    },
    Generating {
        kind: Generating,
        found: &'a Matrix,
        shown: Shown<'a>,
    },
    /// The column with this number, from 1, is reduced by these members to what is not zero.
    Excluding {
        kind: Excluding,
        whole: Whole<'a>,
        log: &'a [Entry],
        column: u32,
        by: &'a [u32],
    },
}

/// Appends a line, after what it names and what has no number yet.
pub(crate) fn push_claim(
    alloc: Global,
    claim: &Claim<'_>,
    writer: &mut Writer<'_>,
) -> Result<(), AllocError>
    requires { IsClaimOver (length writer.old.names) claim.now }
    ensures { OnOk result (HasClaimed writer.old (claim_value claim.now ∷ []) writer.new) }
{
    match claim {
        Claim::Datum { name, degree } => writer.push(
            b"datum",
            &[Piece::Word(name), Piece::Number(u64::from(*degree))],
        ),
        Claim::Named { kind, operand } => {
            let p = operand_number(alloc, operand, writer)?;
            push_named(*kind, p, writer)
        }
        Claim::Exact { number, shown } => {
            let s = push_shown(alloc, shown, writer)?;
            push_exact(*number, s.n, s.x, s.w, writer)
        }
        Claim::Generating { kind, found, shown } => {
            let p = matrix_number(alloc, found, writer)?;
            let s = push_shown(alloc, shown, writer)?;
            push_generating(*kind, p, s.n, s.x, s.w, writer)
        }
        Claim::Excluding {
            kind,
            whole,
            log,
            column,
            by,
        } => {
            let n = log_number(alloc, whole, log, writer)?;
            push_excluding(*kind, n, *column, by, writer)
        }
    }
}

// The numbers of a log, of X and of W.
fn push_shown(
    alloc: Global,
    shown: &Shown<'_>,
    writer: &mut Writer<'_>,
) -> Result<ShownNumbers, AllocError>
    requires { IsShownOver (length writer.old.names) shown.now }
    ensures { IfOk result (λ k. HasNumbers writer.old (shown_names shown.now) writer.new (k.n ∷ k.x ∷ k.w ∷ [])) }
{
    let n = log_number(alloc, &shown.whole, shown.log, writer)?;
    let x = matrix_number(alloc, shown.x, writer)?;
    let w = matrix_number(alloc, shown.w, writer)?;
    Ok(ShownNumbers { n, x, w })
}

// The number of the log of a part, both of which are written where they have none yet.
fn log_number(
    alloc: Global,
    whole: &Whole<'_>,
    log: &[Entry],
    writer: &mut Writer<'_>,
) -> Result<u64, AllocError>
    requires { IsWholeOver (length writer.old.names) whole.now }
    ensures { IfOk result (HasNumbered writer.old
        (reference_written writer.old.names (writing.log (whole_part whole.now) (map entry_value log.now)) writer.old.shelf) writer.new) }
{
    let g = whole_number(alloc, whole, writer)?;
    writer.log(g, log)
}

// A line that names one part.
fn push_named(kind: Named, p: u64, writer: &mut Writer<'_>) -> Result<(), AllocError>
    ensures { OnOk result (HasLine writer.old (named_line kind p) writer.new) }
{
    use Piece::Number;
    match kind.number() {
        Some(j) => writer.push(kind.word(), &[Number(j), Number(p)]),
        None => writer.push(kind.word(), &[Number(p)]),
    }
}

// `exact`, its number, and those of the log, X and W.
fn push_exact(
    number: u64,
    n: u64,
    x: u64,
    w: u64,
    writer: &mut Writer<'_>,
) -> Result<(), AllocError>
    ensures { OnOk result (HasLine writer.old (exact_line number n x w) writer.new) }
{
    use Piece::Number;
    writer.push(b"exact", &[Number(number), Number(n), Number(x), Number(w)])
}

// A line that names P, a log, X and W.
fn push_generating(
    kind: Generating,
    p: u64,
    n: u64,
    x: u64,
    w: u64,
    writer: &mut Writer<'_>,
) -> Result<(), AllocError>
    ensures { OnOk result (HasLine writer.old (generating_line kind p n x w) writer.new) }
{
    use Piece::Number;
    match kind.number() {
        Some(j) => writer.push(
            kind.word(),
            &[Number(j), Number(p), Number(n), Number(x), Number(w)],
        ),
        None => writer.push(kind.word(), &[Number(p), Number(n), Number(x), Number(w)]),
    }
}

// A line that names a log, and the members that reduce a column.
fn push_excluding(
    kind: Excluding,
    n: u64,
    column: u32,
    by: &[u32],
    writer: &mut Writer<'_>,
) -> Result<(), AllocError>
    ensures { OnOk result (HasLine writer.old (excluding_line kind n column by.now) writer.new) }
{
    use Piece::{By, Number};
    tell_small(by);
    let column = u64::from(column);
    match (kind.number(), kind.has_column()) {
        (Some(s), true) => writer.push(
            kind.word(),
            &[Number(s), Number(n), Number(column), By(by)],
        ),
        (Some(s), false) => writer.push(kind.word(), &[Number(s), Number(n), By(by)]),
        (None, true) => writer.push(kind.word(), &[Number(n), Number(column), By(by)]),
        (None, false) => writer.push(kind.word(), &[Number(n), By(by)]),
    }
}
