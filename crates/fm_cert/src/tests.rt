// Lines with their texts, as the formats have them, and matrices that are named.
ghost use Rattle.std.specs.Prelude.{IfOk, [], ◌∷◌, ℕ, ◌≡◌, ◌≤◌};
ghost use Rattle.fm_cert.specs.Pieces.{AreColumnsOver};
ghost use Rattle.fm_cert.specs.Parts.{AreNamingsOver};
ghost use Rattle.fm_cert.specs.Said.{IsEndOver};
ghost use Rattle.fm_problem.specs.Sound.{IsProblem};

use crate::{End, Forms, Grid, Naming, Slot, push_head, push_lines, push_query};
use fm_mono::Mono;
use fm_poly::{Poly, Ring, Term};
use fm_problem::{Problem, Query, read_problem};
use fm_run::{Name, Side, Task};
use std::alloc::{AllocError, Global};
use std::test::Fail;

const HEAD: &str =
    "report 0\nring 5 x y1\norder grevlex\nideal I = x*y1\nideal J = x^2+4*y1, 3\nideal Z = 0\n";

fn problem(alloc: Global) -> Result<Problem, AllocError>
    ensures { IfOk result IsProblem }
{
    let text =
        b"ring 5 x y1\nideal I = y1*x\nideal J = x^2-y1, 8\nideal Z = 0\nclass 1 I 0 (2*x)\n";
    match read_problem(alloc, text) {
        Ok(problem) => Ok(problem),
        Err(_) => Err(AllocError),
    }
}

// The end is written as this line.
fn ends(alloc: Global, end: End, text: &str) -> Result<bool, AllocError>
    requires { (n : ℕ) → IsEndOver n end }
{
    let problem = problem(alloc)?;
    let mut out = Vec::new(alloc);
    end.push(&problem, &mut out)?;
    Ok(out.as_slice() == text.as_bytes())
}

#[test]
fn ends_of_queries(rt: HostRuntime) -> Result<(), Fail> {
    let alloc = rt.alloc();
    let zero = End::Zero {
        yes: true,
        stable: 10,
    };
    assert!(rt; ends(alloc, zero, "answer yes stable 10\n")?);
    let class = End::Class { stage: Some(3) };
    assert!(rt; ends(alloc, class, "answer yes stage 3\n")?);
    let never = End::Class { stage: None };
    assert!(rt; ends(alloc, never, "answer no\n")?);
    let invert = End::Invert { power: Some(0) };
    assert!(rt; ends(alloc, invert, "answer yes power 0\n")?);
    let unit = End::Support {
        ideal: Vec::new(alloc),
    };
    assert!(rt; ends(alloc, unit, "answer ideal 0\n")?);
    let root = End::Root { rank: 1, stable: 2 };
    assert!(rt; ends(alloc, root, "answer root rank 1 stable 2\n")?);
    let ranks = End::Ranks {
        ranks: Vec::from_slice(alloc, &[1, 3, 2])?,
    };
    assert!(rt; ends(alloc, ranks, "answer ranks 1 3 2\n")?);
    let ext = End::ExtOf {
        generators: 1,
        relations: 4,
    };
    assert!(rt; ends(alloc, ext, "answer generators 1 relations 4\n")?);
    let map = End::Map {
        zero: false,
        one: true,
        onto: Some(1),
    };
    assert!(rt; ends(alloc, map, "answer zero no one yes onto yes stage 1\n")?);
    let member = End::Member { yes: false };
    assert!(rt; ends(alloc, member, "answer no\n")?);
    Ok(())
}

fn task(side: Side, name: Name, number: u64) -> Task {
    Task { side, name, number }
}

#[test]
fn ends_without_an_answer(rt: HostRuntime) -> Result<(), Fail> {
    let alloc = rt.alloc();
    let alone = End::Budget {
        task: task(Side::Alone, Name::Resolve, 2),
    };
    assert!(rt; ends(alloc, alone, "unanswered budget resolve 2\n")?);
    let source = End::Exponents {
        task: task(Side::Source, Name::Cocycles, 0),
    };
    assert!(rt; ends(alloc, source, "unanswered exponents source cocycles\n")?);
    let target = End::Budget {
        task: task(Side::Target, Name::Chain, 1),
    };
    assert!(rt; ends(alloc, target, "unanswered budget target chain 1\n")?);
    let length = End::WrongLength {
        found: 2,
        needed: 1,
    };
    assert!(rt; ends(alloc, length, "refused wrong length 2 needed 1\n")?);
    let cocycle = End::NotCocycle { component: 3 };
    assert!(rt; ends(alloc, cocycle, "refused not a cocycle component 3\n")?);
    let contained = End::NotContained { generator: 4 };
    assert!(rt; ends(alloc, contained, "refused not contained generator 4\n")?);
    Ok(())
}

fn head(alloc: Global) -> Result<Vec<u8>, AllocError> {
    let problem = problem(alloc)?;
    let mut out = Vec::new(alloc);
    push_head(&problem, 0, &mut out)?;
    push_query(&problem, 1, &Query::Zero { i: 2, ideal: 1 }, &mut out)?;
    push_query(
        &problem,
        12,
        &Query::Map {
            i: 1,
            source: 1,
            target: 2,
        },
        &mut out,
    )?;
    Ok(out)
}

#[test]
fn heads_and_queries(rt: HostRuntime) -> Result<(), Fail> {
    let out = head(rt.alloc())?;
    let queries = out.as_slice().strip_prefix(HEAD.as_bytes());
    assert!(rt; queries == Some(b"query 1 zero 2 J\nquery 12 map 1 J Z\n".as_slice()));
    Ok(())
}

// The matrix of one constant.
fn constant(alloc: Global, ring: Ring, c: u64) -> Result<Grid, AllocError>
    requires some { 1 ≤ ring.vars }
    requires few { ring.vars ≤ 8 }
    ensures { IfOk result (λ g. AreColumnsOver ring.vars g.columns.items) }
{
    let term = Term {
        mono: Mono::one(ring.vars),
        coeff: ring.prime.element(c),
    };
    let mut column = Vec::new(alloc);
    column.push(Poly::from_terms(alloc, ring, &[term])?)?;
    let mut columns = Vec::new(alloc);
    columns.push(column)?;
    Ok(Grid { rows: 1, columns })
}

// The lines that name 2, a matrix without columns, 2 once more, and 3.
fn named(alloc: Global) -> Result<Vec<u8>, AllocError> {
    let problem = problem(alloc)?;
    let empty = Grid {
        rows: 1,
        columns: Vec::new(alloc),
    };
    let mut namings = Vec::new(alloc);
    namings.push(Naming {
        slot: Slot::D { j: 1 },
        grid: constant(alloc, problem.ring, 2)?,
    })?;
    namings.push(Naming {
        slot: Slot::N,
        grid: empty,
    })?;
    namings.push(Naming {
        slot: Slot::Theta { j: 1 },
        grid: constant(alloc, problem.ring, 2)?,
    })?;
    namings.push(Naming {
        slot: Slot::K { s: 3 },
        grid: constant(alloc, problem.ring, 3)?,
    })?;
    let mut forms = Forms::new(alloc);
    let mut lines = Vec::new(alloc);
    forms.push_names(alloc, &problem, namings, &mut lines)?;
    let mut out = Vec::new(alloc);
    push_lines(&problem, &lines, &mut out)?;
    Ok(out)
}

#[test]
fn named_matrices(rt: HostRuntime) -> Result<(), Fail> {
    let out = named(rt.alloc())?;
    assert!(rt;
        out.as_slice()
            == b"part 1 given 1 1 (2)\nd 1 1\npart 2 given 1 0\nN 2\ntheta 1 1\npart 3 given 1 1 (3)\nK 3 3\n".as_slice()
    );
    Ok(())
}
