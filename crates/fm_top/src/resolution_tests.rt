// Resolutions of ideals of problem texts. The ranks and the units are those of an independent program.
use fm_problem::read_problem;
use fm_resolve::{Resolution, resolve};
use fm_run::{Side, Stop, Work};
use std::alloc::Global;
use std::test::Fail;

// A text, a degree, the columns of d_1, d_2, .., and the units that they cost.
const RESOLUTIONS: [(&[u8], u8, &[u32], u32); 5] = [
    (b"ring 2 x y\nideal I = x*y, y^2\n", 2, &[2, 1, 0], 7),
    (
        b"ring 3 x y z\nideal I = x*y, y*z, z*x\n",
        3,
        &[3, 2, 0, 0],
        16,
    ),
    (b"ring 2 x\nideal I = 0\n", 1, &[0, 0], 0),
    (b"ring 5 x y\nideal I = 1\n", 1, &[1, 0], 1),
    (b"ring 2 x y\nideal I = x, y\n", 0, &[2], 3),
];

// The columns of the matrices that resolve the first ideal.
fn widths(alloc: Global, text: &[u8], degree: u8, work: &mut Work) -> Result<Vec<u32>, Stop> {
    if text.len() > 1000 || degree > 8 {
        return Err(Stop::Memory);
    }
    let Ok(problem) = read_problem(alloc, text) else {
        return Err(Stop::Memory);
    };
    let Some(ideal) = problem.ideals.get(0) else {
        return Err(Stop::Memory);
    };
    let generators = ideal.generators.as_slice();
    match resolve(alloc, Side::Alone, problem.ring, generators, degree, work) {
        Ok(resolution) => widths_of(alloc, &resolution),
        Err(stopped) => Err(stopped.stop),
    }
}

fn widths_of(alloc: Global, resolution: &Resolution) -> Result<Vec<u32>, Stop> {
    let mut widths = Vec::new(alloc);
    widths.push(resolution.first().width())?;
    for x in resolution.next() {
        widths.push(x.found().cols())?;
    }
    Ok(widths)
}

#[test]
fn ideals_are_resolved(rt: HostRuntime) -> Result<(), Fail> {
    let alloc = rt.alloc();
    for (text, degree, want, units) in RESOLUTIONS {
        let mut work = Work::new(units);
        let found = widths(alloc, text, degree, &mut work)?;
        assert_eq!(rt; found.as_slice(), want);
        assert_eq!(rt; work.left(), 0);
        if units > 0 {
            let mut fewer = Work::new(units - 1);
            let stopped = widths(alloc, text, degree, &mut fewer);
            assert!(rt; matches!(stopped, Err(Stop::Budget)));
        }
    }
    Ok(())
}
