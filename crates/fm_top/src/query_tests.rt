// Local cohomology of ideals of problem texts. The answers are those of an independent program; those on the first ideals, the zero ideal and
// the unit ideal are also easily found by hand.
use fm_problem::read_problem;
use fm_queries::{Support, Zero, compute_support, decide_zero};
use fm_run::{Stop, Stopped, Work};
use fm_syz::Inside;
use std::alloc::Global;
use std::test::Fail;

// A text, a degree, whether the module is zero, the stable index, and the number of generators of the annihilator.
const MODULES: [(&[u8], u8, bool, usize, u32); 10] = [
    (b"ring 2 x y\nideal I = x^2, x*y\n", 1, false, 0, 1),
    (b"ring 2 x y\nideal I = x^2, x*y\n", 2, true, 1, 1),
    (b"ring 3 x y z\nideal I = x*y, y*z, z*x\n", 2, false, 0, 3),
    (b"ring 2 x\nideal I = 0\n", 0, false, 0, 0),
    (b"ring 2 x\nideal I = 0\n", 1, true, 0, 1),
    (b"ring 5 x y\nideal I = 1\n", 1, true, 0, 1),
    (b"ring 2 x y\nideal I = x, y\n", 2, false, 0, 2),
    (b"ring 2 x y\nideal I = x, y\n", 1, true, 0, 1),
    (b"ring 2 x y z\nideal I = x^3 + y^3 + z^3\n", 1, false, 0, 1),
    (
        b"ring 3 x y z w\nideal I = x*z, x*w, y*z, y*w\n",
        3,
        false,
        0,
        4,
    ),
];

// What is found of the first ideal: whether the module is zero, the stable index, and the number of generators of the annihilator.
fn told(
    alloc: Global,
    text: &[u8],
    degree: u8,
    work: &mut Work,
) -> Result<(bool, usize, u32), Stop> {
    if text.len() > 1000 || degree > 8 {
        return Err(Stop::Memory);
    }
    let Ok(problem) = read_problem(alloc, text) else {
        return Err(Stop::Memory);
    };
    let Some(ideal) = problem.ideals.get(0) else {
        return Err(Stop::Memory);
    };
    let generators = ideal.generators.as_slice();
    let vanishing = vanishing(decide_zero(alloc, problem.ring, generators, degree, work))?;
    let annihilator = annihilator(compute_support(alloc, problem.ring, generators, degree, work))?;
    Ok((vanishing.0, vanishing.1, annihilator))
}

fn vanishing(found: Result<Zero, Stopped>) -> Result<(bool, usize), Stop> {
    match found {
        Ok(found) => Ok((is_whole(&found.whole), found.base.chain().stable())),
        Err(stopped) => Err(stopped.stop),
    }
}

fn is_whole(whole: &Inside) -> bool {
    match whole {
        Inside::All(_) => true,
        Inside::First(_) => false,
    }
}

fn annihilator(found: Result<Support, Stopped>) -> Result<u32, Stop> {
    match found {
        Ok(found) => Ok(found.annihilator.generators().found().cols()),
        Err(stopped) => Err(stopped.stop),
    }
}

#[test]
fn ideals_have_local_cohomology(rt: HostRuntime) -> Result<(), Fail> {
    let alloc = rt.alloc();
    for (text, degree, zero, stable, generators) in MODULES {
        let mut work = Work::new(2000);
        let found = told(alloc, text, degree, &mut work)?;
        assert_eq!(rt; found, (zero, stable, generators));
    }
    Ok(())
}
