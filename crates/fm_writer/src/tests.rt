// The writer against texts found by hand.
ghost use Rattle.std.specs.Prelude.{All, IfOk, OnOk, length, ◌≡◌};
ghost use Rattle.fm_mat.specs.Matrices.{AreColumns};
ghost use Rattle.fm_poly.specs.Polys.{IsTermOf};
ghost use Rattle.fm_vec.specs.Components.{AreOver};

use crate::Writer;
use crate::writer::tell_small;
use fm_cert::Piece;
use fm_complete::{Entry, Start};
use fm_gfp::Prime;
use fm_mat::Column;
use fm_mono::{EXPONENT_BOUND, Mono, Order};
use fm_poly::{Poly, Ring, Term};
use std::alloc::{AllocError, Global};
use std::test::Fail;

// A term in x and y: both exponents and the coefficient.
type Listed = ([u32; 2], u64);

// What an entry of a log takes up, by which members, and whether the rest is kept.
type Listing = (Start, &'static [u32], bool);

// What is asked of a writer.
#[derive(Clone, Copy)]
enum Step {
    Given(u32, &'static [&'static [&'static [Listed]]]),
    Twist(u64, u8),
    Flip(u64),
    Beside(u64, u64),
    Log(u64, &'static [Listing]),
    // A line of a word and numbers.
    Line(&'static [u8], &'static [u64]),
}

const X: &[Listed] = &[([1, 0], 1)];

const Y: &[Listed] = &[([0, 1], 1)];

const ZERO: &[Listed] = &[];

const THREE: &[Listed] = &[([0, 0], 8)];

const TWICE_XY: &[Listed] = &[([1, 1], 2)];

const SQUARE_LESS_Y: &[Listed] = &[([0, 1], 4), ([2, 0], 1)];

const SIX_X: &[Listed] = &[([1, 0], 6)];

fn plane() -> Ring
    ensures { result.vars ≡ 2 }
{
    Ring {
        prime: Prime::Five,
        vars: 2,
        order: Order::Grevlex,
    }
}

fn names(alloc: Global) -> Result<Vec<String>, AllocError>
    ensures { IfOk result (λ v. length v.items ≡ 2) }
{
    let x = String::from_str(alloc, "x")?;
    let y = String::from_str(alloc, "y")?;
    let mut names = Vec::new(alloc);
    names.push(x)?;
    names.push(y)?;
    Ok(names)
}

// The monomial with these exponents, none of which passes the bound.
#[tactic(auto, using(fm_mono::proofs::Bounds::within_more))]
fn mono(exponents: [u32; 2]) -> Mono
    ensures { length result ≡ 2 }
{
    let [x, y] = exponents;
    Mono::of(&[x.min(EXPONENT_BOUND), y.min(EXPONENT_BOUND)])
}

fn listed(alloc: Global, ring: Ring, list: &[Listed]) -> Result<Vec<Term>, AllocError>
    requires { ring.vars ≡ 2 }
    ensures { IfOk result (λ v. All (IsTermOf ring) v.items) }
{
    let mut terms = Vec::new(alloc);
    for t in list {
        terms.push(Term {
            mono: mono(t.0),
            coeff: ring.prime.element(t.1),
        })?;
    }
    Ok(terms)
}

fn poly(alloc: Global, ring: Ring, list: &[Listed]) -> Result<Poly, AllocError>
    requires { ring.vars ≡ 2 }
    ensures { IfOk result (λ f. f.ring ≡ ring) }
{
    let terms = listed(alloc, ring, list)?;
    let f = Poly::from_terms(alloc, ring, &terms)?;
    Ok(f)
}

fn column(
    alloc: Global,
    ring: Ring,
    rows: u32,
    entries: &[&[Listed]],
) -> Result<Vec<Poly>, AllocError>
    requires { ring.vars ≡ 2 }
    ensures over { IfOk result (λ out. AreOver ring out.items) }
    ensures rows { IfOk result (λ out. length out.items ≡ rows) }
{
    let mut out = Vec::new(alloc);
    for i in 0..rows {
        let Some(terms) = entries.get(i as usize) else {
            return Err(AllocError);
        };
        out.push(poly(alloc, ring, terms)?)?;
    }
    Ok(out)
}

fn columns_of(
    alloc: Global,
    ring: Ring,
    rows: u32,
    columns: &[&[&[Listed]]],
) -> Result<Vec<Column>, AllocError>
    requires { ring.vars ≡ 2 }
    ensures { IfOk result (λ out. AreColumns ring rows out.items) }
{
    let mut out = Vec::new(alloc);
    for j in 0..columns.len() {
        out.push(Column::new(column(alloc, ring, rows, columns[j])?))?;
    }
    Ok(out)
}

fn entries_of(alloc: Global, list: &[Listing]) -> Result<Vec<Entry>, AllocError> {
    let mut out = Vec::new(alloc);
    for t in list {
        out.push(Entry {
            start: t.0,
            by: Vec::from_slice(alloc, t.1)?,
            keep: t.2,
        })?;
    }
    Ok(out)
}

// The number that the step is answered by; 0 for a line.
fn perform(alloc: Global, writer: &mut Writer<'_>, step: &Step) -> Result<u64, AllocError>
    requires { length writer.old.names ≡ 2 }
    ensures { OnOk result (length writer.new.names ≡ 2) }
{
    match step {
        Step::Given(rows, columns) => {
            let columns = columns_of(alloc, plane(), *rows, columns)?;
            writer.given(alloc, *rows, &columns)
        }
        Step::Twist(a, e) => {
            let e = *e;
            writer.twist(alloc, *a, e.min(16))
        }
        Step::Flip(a) => writer.flip(alloc, *a),
        Step::Beside(a, b) => writer.beside(alloc, *a, *b),
        Step::Log(part, list) => {
            let entries = entries_of(alloc, list)?;
            writer.log(*part, &entries)
        }
        Step::Line(first, numbers) => {
            writer.push(first, &[Piece::Numbers(numbers)])?;
            Ok(0)
        }
    }
}

// Each step is answered by its number, and what is written is this text.
fn is_written(alloc: Global, steps: &[(Step, u64)], text: &str) -> Result<bool, AllocError> {
    let names = names(alloc)?;
    let mut writer = Writer::new(alloc, &names);
    for step in steps {
        if perform(alloc, &mut writer, &step.0)? != step.1 {
            return Ok(false);
        }
    }
    let written = writer.into_text();
    Ok(written.as_slice() == text.as_bytes())
}

#[test]
fn nothing_yet(rt: HostRuntime) -> Result<(), Fail> {
    assert!(rt; is_written(rt.alloc(), &[], "")?);
    tell_small(&[0, 16, 4294967295]);
    Ok(())
}

const COMPOSED: [(Step, u64); 9] = [
    (Step::Given(1, &[&[X], &[Y]]), 1),
    (Step::Twist(1, 2), 2),
    (Step::Flip(2), 3),
    (Step::Beside(1, 2), 4),
    (Step::Line(b"d", &[1, 4]), 0),
    (Step::Flip(4), 5),
    (Step::Beside(3, 5), 6),
    (Step::Line(b"settles", &[2, 6]), 0),
    (Step::Line(b"end", &[]), 0),
];

#[test]
fn operands_before_what_is_made_of_them(rt: HostRuntime) -> Result<(), Fail> {
    let text =
        "part 1 given 1 2 (x) (y)\npart 2 twist 1 2\npart 3 flip 2\npart 4 beside 1 2\nd 1 4\npart 5 flip 4\npart 6 beside 3 5\nsettles 2 6\nend\n";
    assert!(rt; is_written(rt.alloc(), &COMPOSED, text)?);
    Ok(())
}

const MATRICES: [(Step, u64); 6] = [
    (
        Step::Given(2, &[&[SQUARE_LESS_Y, ZERO], &[THREE, TWICE_XY]]),
        1,
    ),
    (Step::Given(2, &[&[SQUARE_LESS_Y, ZERO]]), 2),
    (Step::Given(1, &[]), 3),
    (Step::Given(0, &[]), 4),
    (Step::Given(0, &[&[]]), 5),
    (Step::Given(1, &[&[ZERO]]), 6),
];

#[test]
fn given_matrices(rt: HostRuntime) -> Result<(), Fail> {
    let text =
        "part 1 given 2 2 (x^2+4*y,0) (3,2*x*y)\npart 2 given 2 1 (x^2+4*y,0)\npart 3 given 1 0\npart 4 given 0 0\npart 5 given 0 1 ()\npart 6 given 1 1 (0)\n";
    assert!(rt; is_written(rt.alloc(), &MATRICES, text)?);
    Ok(())
}

const EQUAL: [(Step, u64); 17] = [
    (Step::Given(1, &[&[X]]), 1),
    (Step::Given(1, &[&[SIX_X]]), 1),
    (Step::Given(1, &[&[Y]]), 2),
    (Step::Given(1, &[&[X], &[Y]]), 3),
    (Step::Beside(1, 2), 4),
    (Step::Beside(2, 1), 5),
    (Step::Beside(1, 2), 4),
    (Step::Twist(1, 1), 6),
    (Step::Twist(1, 0), 7),
    (Step::Twist(1, 1), 6),
    (Step::Flip(1), 8),
    (Step::Flip(1), 8),
    (Step::Beside(1, 1), 9),
    (Step::Flip(4), 10),
    (Step::Given(1, &[&[X]]), 1),
    (Step::Flip(4), 10),
    (Step::Twist(10, 16), 11),
];

#[test]
fn equal_forms_are_written_once(rt: HostRuntime) -> Result<(), Fail> {
    let text =
        "part 1 given 1 1 (x)\npart 2 given 1 1 (y)\npart 3 given 1 2 (x) (y)\npart 4 beside 1 2\npart 5 beside 2 1\npart 6 twist 1 1\npart 7 twist 1 0\npart 8 flip 1\npart 9 beside 1 1\npart 10 flip 4\npart 11 twist 10 16\n";
    assert!(rt; is_written(rt.alloc(), &EQUAL, text)?);
    Ok(())
}

const LOG_OF_ONE: &[Listing] = &[(Start::Input(1), &[], true)];

const LOG_OF_TWO: &[Listing] = &[
    (Start::Input(1), &[], true),
    (Start::Input(2), &[], true),
    (Start::Pair(1, 2), &[1, 2], false),
];

const OTHER_LOG: &[Listing] = &[
    (Start::Input(4294967295), &[3], false),
    (Start::Pair(2, 10), &[], true),
    (Start::Skip(1, 2, 3), &[], true),
];

const LOGS: [(Step, u64); 12] = [
    (Step::Given(1, &[&[X], &[Y]]), 1),
    (Step::Flip(1), 2),
    (Step::Log(2, LOG_OF_ONE), 1),
    (Step::Line(b"exact", &[1, 1, 2, 2]), 0),
    (Step::Log(1, LOG_OF_TWO), 2),
    (Step::Log(2, LOG_OF_ONE), 1),
    (Step::Log(2, LOG_OF_TWO), 1),
    (Step::Flip(2), 3),
    (Step::Log(3, OTHER_LOG), 3),
    (Step::Log(1, &[]), 2),
    (Step::Log(12, &[]), 4),
    (Step::Log(3, OTHER_LOG), 3),
];

#[test]
fn a_part_has_one_log(rt: HostRuntime) -> Result<(), Fail> {
    let text =
        "part 1 given 1 2 (x) (y)\npart 2 flip 1\nlog 1 2\ninput 1 keep\nend\nexact 1 1 2 2\nlog 2 1\ninput 1 keep\ninput 2 keep\npair 1 2 by 1 2 zero\nend\npart 3 flip 2\nlog 3 3\ninput 4294967295 by 3 zero\npair 2 10 keep\nskip 1 2 by 3\nend\nlog 4 12\nend\n";
    assert!(rt; is_written(rt.alloc(), &LOGS, text)?);
    Ok(())
}
