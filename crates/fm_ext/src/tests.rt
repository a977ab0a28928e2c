// Lifts of the identity against values found by hand.
ghost use Rattle.std.specs.Prelude.{IfOk, length, ◌≡◌, ◌≤◌};
ghost use Rattle.fm_poly.specs.Polys.{IsTermOf};
ghost use Rattle.fm_vec.specs.Components.{AreOver};

use crate::{identity_along, matrix_of};
use fm_gfp::Prime;
use fm_mat::Matrix;
use fm_mono::{EXPONENT_BOUND, Mono, Order};
use fm_poly::{Poly, Ring, Term};
use fm_resolve::resolve;
use fm_run::{Name, Side, Stop, Stopped, Work};
use std::alloc::{AllocError, Global};
use std::test::Fail;

// The exponents of a monomial in x and y; none is zero.
type Entry = Option<[u32; 2]>;

// The number of rows, and the columns.
type Given = (u32, &'static [&'static [Entry]]);

// The last matrix of the lift, or the task that stops.
#[derive(Clone, Copy)]
enum End {
    Last(Given),
    Stops(Name, u64),
}

struct Row {
    degree: u8,
    source: &'static [[u32; 2]],
    target: &'static [[u32; 2]],
    units: u32,
    end: End,
}

const PLANE: Ring = Ring {
    prime: Prime::Two,
    vars: 2,
    order: Order::Grevlex,
};

const ONE: Entry = Some([0, 0]);

const X: Entry = Some([1, 0]);

const Y: Entry = Some([0, 1]);

const XY: Entry = Some([1, 1]);

const LINE: &[[u32; 2]] = &[[1, 0]];

const CROSSING: &[[u32; 2]] = &[[1, 1]];

const POINT: &[[u32; 2]] = &[[1, 0], [0, 1]];

// The ideal (x^2, y^2).
const SQUARES: &[[u32; 2]] = &[[2, 0], [0, 2]];

const ROWS: &[Row] = &[
    Row {
        degree: 0,
        source: LINE,
        target: CROSSING,
        units: 999,
        end: End::Last((1, &[&[ONE]])),
    },
    Row {
        degree: 1,
        source: LINE,
        target: CROSSING,
        units: 999,
        end: End::Last((1, &[&[Y]])),
    },
    Row {
        degree: 1,
        source: POINT,
        target: SQUARES,
        units: 999,
        end: End::Last((2, &[&[X, None], &[None, Y]])),
    },
    Row {
        degree: 2,
        source: POINT,
        target: SQUARES,
        units: 999,
        end: End::Last((1, &[&[XY]])),
    },
    Row {
        degree: 1,
        source: LINE,
        target: CROSSING,
        units: 0,
        end: End::Stops(Name::Lambda, 1),
    },
];

// The monomial with these exponents, none of which passes the bound.
#[tactic(auto, using(fm_mono::proofs::Bounds::within_more))]
fn mono(exponents: [u32; 2]) -> Mono
    ensures { length result ≡ 2 }
{
    let [x, y] = exponents;
    Mono::of(&[x.min(EXPONENT_BOUND), y.min(EXPONENT_BOUND)])
}

fn term(exponents: [u32; 2]) -> Term
    ensures { IsTermOf PLANE result }
{
    Term {
        mono: mono(exponents),
        coeff: PLANE.prime.element(1),
    }
}

fn monomial(alloc: Global, exponents: [u32; 2]) -> Result<Poly, AllocError>
    ensures { IfOk result (λ f. f.ring ≡ PLANE) }
{
    let f = Poly::from_terms(alloc, PLANE, &[term(exponents)])?;
    Ok(f)
}

// The first nine of these monomials.
fn ideal(alloc: Global, monomials: &[[u32; 2]]) -> Result<Vec<Poly>, AllocError>
    ensures over { IfOk result (λ out. AreOver PLANE out.items) }
    ensures few { IfOk result (λ out. length out.items ≤ 9) }
{
    let mut out = Vec::new(alloc);
    for i in 0..9_u32 {
        let Some(exponents) = monomials.get(i as usize) else {
            return Ok(out);
        };
        out.push(monomial(alloc, *exponents)?)?;
    }
    Ok(out)
}

fn is_entry(f: &Poly, entry: Entry) -> bool {
    match (f.terms(), entry) {
        ([], None) => true,
        ([t], Some(exponents)) => *t == term(exponents),
        _ => false,
    }
}

fn is_column(fs: &[Poly], entries: &[Entry]) -> bool {
    if fs.len() != entries.len() {
        return false;
    }
    for i in 0..fs.len() {
        if !is_entry(&fs[i], entries[i]) {
            return false;
        }
    }
    true
}

fn is_matrix(m: &Matrix, given: Given) -> bool {
    let columns = m.columns();
    if m.rows() != given.0 || columns.len() != given.1.len() {
        return false;
    }
    for j in 0..columns.len() {
        if !is_column(columns[j].entries(), given.1[j]) {
            return false;
        }
    }
    true
}

fn is_end(end: &Result<Vec<Matrix>, Stopped>, degree: u8, want: End) -> bool {
    match (end, want) {
        (Ok(lift), End::Last(given)) => {
            lift.len() > usize::from(degree) && is_matrix(matrix_of(lift, degree), given)
        }
        (Err(stopped), End::Stops(name, number)) => {
            stopped.stop == Stop::Budget
                && stopped.task.name == name
                && stopped.task.number == number
        }
        _ => false,
    }
}

// The units are those of the lift alone.
fn ends_so(alloc: Global, row: &Row) -> Result<bool, AllocError> {
    let source = ideal(alloc, row.source)?;
    let target = ideal(alloc, row.target)?;
    let degree = row.degree.min(8);
    let mut work = Work::new(999);
    let Ok(source) = resolve(alloc, Side::Source, PLANE, &source, degree, &mut work) else {
        return Ok(false);
    };
    let Ok(target) = resolve(alloc, Side::Target, PLANE, &target, degree, &mut work) else {
        return Ok(false);
    };
    let end = identity_along(alloc, &source, &target, degree, &mut Work::new(row.units));
    Ok(is_end(&end, degree, row.end))
}

#[test]
fn lifts_of_the_identity(rt: HostRuntime) -> Result<(), Fail> {
    for (k, row) in ROWS.iter().enumerate() {
        assert!(rt; matches!(ends_so(rt.alloc(), row), Ok(true)), "row {k}");
    }
    Ok(())
}
