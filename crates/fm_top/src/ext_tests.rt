// Ext of ideals of problem texts. The numbers of generators and of relations are those of an independent program; those on points and lines,
// the zero ideal and the unit ideal are also easily found by hand.
use fm_ext::{Ext, ext};
use fm_problem::read_problem;
use fm_resolve::resolve;
use fm_run::{Side, Stop, Stopped, Work};
use std::alloc::Global;
use std::test::Fail;

// A text, a degree, and the numbers of generators and of relations.
const MODULES: [(&[u8], u8, u32, u32); 10] = [
    (b"ring 2 x y\nideal I = x^2, x*y\n", 2, 1, 2),
    (b"ring 2 x y\nideal I = x^2, x*y\n", 1, 1, 1),
    (b"ring 3 x y z\nideal I = x*y, y*z, z*x\n", 2, 2, 3),
    (b"ring 2 x\nideal I = 0\n", 0, 1, 0),
    (b"ring 2 x\nideal I = 0\n", 1, 0, 0),
    (b"ring 5 x y\nideal I = 1\n", 0, 0, 0),
    (b"ring 5 x y\nideal I = 1\n", 1, 1, 1),
    (b"ring 2 x y\nideal I = x, y\n", 2, 1, 2),
    (b"ring 2 x y\nideal I = x, y\n", 1, 1, 1),
    (b"ring 3 x y z w\nideal I = x*z, x*w, y*z, y*w\n", 3, 1, 4),
];

// The generators and the relations of Ext of the first ideal.
fn sizes(alloc: Global, text: &[u8], degree: u8, work: &mut Work) -> Result<(u32, u32), Stop> {
    if text.len() > 1000 || degree > 8 {
        return Err(Stop::Memory);
    }
    let Ok(problem) = read_problem(alloc, text) else {
        return Err(Stop::Memory);
    };
    let Some(ideal) = problem.ideals.get(0) else {
        return Err(Stop::Memory);
    };
    let generators = ideal.generators.as_slice();
    match resolve(alloc, Side::Alone, problem.ring, generators, degree, work) {
        Ok(resolution) => sizes_of(ext(alloc, Side::Alone, resolution, degree, work)),
        Err(stopped) => Err(stopped.stop),
    }
}

fn sizes_of(found: Result<Ext, Stopped>) -> Result<(u32, u32), Stop> {
    match found {
        Ok(y) => Ok((
            y.cocycles().generators().found().cols(),
            y.relations().generators().found().cols(),
        )),
        Err(stopped) => Err(stopped.stop),
    }
}

#[test]
fn ideals_have_ext(rt: HostRuntime) -> Result<(), Fail> {
    let alloc = rt.alloc();
    for (text, degree, generators, relations) in MODULES {
        let mut work = Work::new(2000);
        let found = sizes(alloc, text, degree, &mut work)?;
        assert_eq!(rt; found, (generators, relations));
    }
    Ok(())
}
