// Certificates: a valid report on the normal crossing, one of its lines naming a part that isn't there, and a report of version 0. What is expected
// is what an independent program finds.
use crate::tests::{Row, outcome};
use fm_base::Status;
use std::test::Fail;

const ROWS: [Row; 3] = [
    Row {
        words: &["check"],
        text: b"report 2\nring 3 x y\norder grevlex\nideal I = x*y\nquery 1 class 1 I 0 (x^2*y)\nanswer yes stage 0\ndatum I 1\npart 1 given 1 1 (x*y)\nd 1 1\npart 2 given 1 0\nd 2 2\nlog 1 1\ninput 1 keep\nend\npart 3 given 0 0\nexact 1 1 3 3\npart 4 given 1 1 (1)\ntheta 0 4\npart 5 given 1 1 (x^2*y^2)\ntheta 1 5\npart 6 flip 2\nlog 2 6\ninput 1 keep\nend\npart 7 given 0 1 ()\ncocycles 4 2 7 4\npart 8 flip 1\npart 9 beside 4 8\nlog 3 9\ninput 1 keep\ninput 2 by 1 keep\nend\npart 10 given 1 1 (2)\nrelations 1 3 10 4\nmorphism 5\npart 11 twist 1 1\npart 12 beside 5 11\nlog 4 12\ninput 1 keep\ninput 2 by 1 keep\nend\nchain 1 1 4 10 4\nstable 0 4\npart 13 given 1 1 (x^2*y)\ncoordinates 13\npart 14 given 1 1 (x)\ndies 0 14\ndone 1\nend report\n",
        failing_reads: &[],
        failing_writes: &[],
        status: Status::Done,
        written: b"accepted verdicts 1 passed 0\n",
    },
    Row {
        words: &["check"],
        text: b"report 2\nring 3 x y\norder grevlex\nideal I = x*y\nquery 1 class 1 I 0 (x^2*y)\nanswer yes stage 0\ndatum I 1\npart 1 given 1 1 (x*y)\nd 1 2\npart 2 given 1 0\nd 2 2\nlog 1 1\ninput 1 keep\nend\npart 3 given 0 0\nexact 1 1 3 3\npart 4 given 1 1 (1)\ntheta 0 4\npart 5 given 1 1 (x^2*y^2)\ntheta 1 5\npart 6 flip 2\nlog 2 6\ninput 1 keep\nend\npart 7 given 0 1 ()\ncocycles 4 2 7 4\npart 8 flip 1\npart 9 beside 4 8\nlog 3 9\ninput 1 keep\ninput 2 by 1 keep\nend\npart 10 given 1 1 (2)\nrelations 1 3 10 4\nmorphism 5\npart 11 twist 1 1\npart 12 beside 5 11\nlog 4 12\ninput 1 keep\ninput 2 by 1 keep\nend\nchain 1 1 4 10 4\nstable 0 4\npart 13 given 1 1 (x^2*y)\ncoordinates 13\npart 14 given 1 1 (x)\ndies 0 14\ndone 1\nend report\n",
        failing_reads: &[],
        failing_writes: &[],
        status: Status::Refused,
        written: b"refused line 9 reference\n",
    },
    Row {
        words: &["check"],
        text: b"report 0\nring 2 x\norder grevlex\nend report\n",
        failing_reads: &[],
        failing_writes: &[],
        status: Status::Refused,
        written: b"refused line 1 form\n",
    },
];

#[test]
fn checks_certificates(rt: HostRuntime) -> Result<(), Fail> {
    for row in &ROWS {
        let (status, sink) = outcome(rt.alloc(), row)?;
        assert_eq!(rt; status, row.status);
        assert_eq!(rt; sink.taken(), row.written);
    }
    Ok(())
}
