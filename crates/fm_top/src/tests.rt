// Whole runs over memory sources and sinks. The reports are those of an independent program, or written by hand.
use crate::run;
use fm_base::{MemorySink, MemorySource, Status};
use std::alloc::Global;
use std::test::Fail;

#[derive(Clone, Copy)]
pub struct Row {
    pub words: &'static [&'static str],
    pub text: &'static [u8],
    pub failing_reads: &'static [u64],
    pub failing_writes: &'static [u64],
    pub status: Status,
    pub written: &'static [u8],
}

const ROWS: [Row; 46] = [
    Row {
        words: &["decide", "--budget", "5"],
        text: b"ring 2 x y\nideal I = x, y\nmember I x\n",
        failing_reads: &[],
        failing_writes: &[],
        status: Status::Done,
        written: b"report 2\nring 2 x y\norder grevlex\nideal I = x, y\nquery 1 member I x\nanswer yes\npart 1 given 1 2 (x) (y)\nd 1 1\npart 2 given 2 1 (1,0)\ncofactors 2\ndone 1\nend report\n",
    },
    Row {
        words: &["decide", "--budget", "4"],
        text: b"ring 2 x y\nideal I = x, y\nmember I x\n",
        failing_reads: &[],
        failing_writes: &[],
        status: Status::Unanswered,
        written: b"report 2\nring 2 x y\norder grevlex\nideal I = x, y\nquery 1 member I x\nunanswered budget member\ndone 1\nend report\n",
    },
    Row {
        words: &["decide", "--budget", "3"],
        text: b"ring 2 x y\nideal I = x, y\nmember I x\n",
        failing_reads: &[],
        failing_writes: &[],
        status: Status::Unanswered,
        written: b"report 2\nring 2 x y\norder grevlex\nideal I = x, y\nquery 1 member I x\nunanswered budget member\ndone 1\nend report\n",
    },
    Row {
        words: &["decide"],
        text: b"ring 31 x y\norder lex\nideal I = x*y, y^2\nideal J = 0\nmember I -x\nmember I 3*y^2 - x^2*y\nmember J 0\nmember J x\n",
        failing_reads: &[],
        failing_writes: &[],
        status: Status::Done,
        written: b"report 2\nring 31 x y\norder lex\nideal I = x*y, y^2\nideal J = 0\nquery 1 member I 30*x\nanswer no\npart 1 given 1 2 (x*y) (y^2)\nd 1 1\nlog 1 1\ninput 1 keep\ninput 2 keep\npair 1 2 keep\nend\nforeign 1\ndone 1\nquery 2 member I 30*x^2*y+3*y^2\nanswer yes\npart 1 given 1 2 (x*y) (y^2)\nd 1 1\npart 2 given 2 1 (30*x,3)\ncofactors 2\ndone 2\nquery 3 member J 0\nanswer yes\npart 1 given 1 0\nd 1 1\npart 2 given 0 1 ()\ncofactors 2\ndone 3\nquery 4 member J x\nanswer no\npart 1 given 1 0\nd 1 1\nlog 1 1\nend\nforeign 1\ndone 4\nend report\n",
    },
    Row {
        words: &["decide"],
        text: b"ring 3 x y\nideal I = x*y\nclass 1 I 0 (x^2*y)\n",
        failing_reads: &[],
        failing_writes: &[],
        status: Status::Done,
        written: b"report 2\nring 3 x y\norder grevlex\nideal I = x*y\nquery 1 class 1 I 0 (x^2*y)\nanswer yes stage 0\ndatum I 1\npart 1 given 1 1 (x*y)\nd 1 1\npart 2 given 1 0\nd 2 2\nlog 1 1\ninput 1 keep\nend\npart 3 given 0 0\nexact 1 1 3 3\npart 4 given 1 1 (1)\ntheta 0 4\npart 5 given 1 1 (x^2*y^2)\ntheta 1 5\npart 6 flip 2\nlog 2 6\ninput 1 keep\nend\npart 7 given 0 1 ()\ncocycles 4 2 7 4\npart 8 flip 1\npart 9 beside 4 8\nlog 3 9\ninput 1 keep\ninput 2 by 1 keep\nend\npart 10 given 1 1 (2)\nrelations 1 3 10 4\nmorphism 5\npart 11 twist 1 1\npart 12 beside 5 11\nlog 4 12\ninput 1 keep\ninput 2 by 1 keep\nend\nchain 1 1 4 10 4\nstable 0 4\npart 13 given 1 1 (x^2*y)\ncoordinates 13\npart 14 given 1 1 (x)\ndies 0 14\ndone 1\nend report\n",
    },
    Row {
        words: &["decide"],
        text: b"ring 3 x y\nideal I = x*y\nclass 1 I 0 (x)\n",
        failing_reads: &[],
        failing_writes: &[],
        status: Status::Done,
        written: b"report 2\nring 3 x y\norder grevlex\nideal I = x*y\nquery 1 class 1 I 0 (x)\nanswer no\ndatum I 1\npart 1 given 1 1 (x*y)\nd 1 1\npart 2 given 1 0\nd 2 2\nlog 1 1\ninput 1 keep\nend\npart 3 given 0 0\nexact 1 1 3 3\npart 4 given 1 1 (1)\ntheta 0 4\npart 5 given 1 1 (x^2*y^2)\ntheta 1 5\npart 6 flip 2\nlog 2 6\ninput 1 keep\nend\npart 7 given 0 1 ()\ncocycles 4 2 7 4\npart 8 flip 1\npart 9 beside 4 8\nlog 3 9\ninput 1 keep\ninput 2 by 1 keep\nend\npart 10 given 1 1 (2)\nrelations 1 3 10 4\nmorphism 5\npart 11 twist 1 1\npart 12 beside 5 11\nlog 4 12\ninput 1 keep\ninput 2 by 1 keep\nend\nchain 1 1 4 10 4\nstable 0 4\npart 13 given 1 1 (x)\ncoordinates 13\nlives 0 1\ndone 1\nend report\n",
    },
    Row {
        words: &["decide"],
        text: b"ring 2 x\nideal I = x\nclass 1 I 1 (x)\nclass 1 I 1 (x^2)\n",
        failing_reads: &[],
        failing_writes: &[],
        status: Status::Done,
        written: b"report 2\nring 2 x\norder grevlex\nideal I = x\nquery 1 class 1 I 1 (x)\nanswer no\ndatum I 1\npart 1 given 1 1 (x)\nd 1 1\npart 2 given 1 0\nd 2 2\nlog 1 1\ninput 1 keep\nend\npart 3 given 0 0\nexact 1 1 3 3\npart 4 given 1 1 (1)\ntheta 0 4\ntheta 1 1\npart 5 flip 2\nlog 2 5\ninput 1 keep\nend\npart 6 given 0 1 ()\ncocycles 4 2 6 4\npart 7 flip 1\npart 8 beside 4 7\nlog 3 8\ninput 1 keep\ninput 2 by 1 keep\nend\nrelations 1 3 4 4\nmorphism 1\npart 9 twist 1 1\npart 10 beside 1 9\nlog 4 10\ninput 1 keep\ninput 2 by 1 keep\nend\nchain 1 1 4 4 4\nstable 0 4\ncoordinates 1\nlives 0 1\ndone 1\nquery 2 class 1 I 1 (x^2)\nanswer yes stage 1\ndatum I 1\npart 1 given 1 1 (x)\nd 1 1\npart 2 given 1 0\nd 2 2\nlog 1 1\ninput 1 keep\nend\npart 3 given 0 0\nexact 1 1 3 3\npart 4 given 1 1 (1)\ntheta 0 4\ntheta 1 1\npart 5 flip 2\nlog 2 5\ninput 1 keep\nend\npart 6 given 0 1 ()\ncocycles 4 2 6 4\npart 7 flip 1\npart 8 beside 4 7\nlog 3 8\ninput 1 keep\ninput 2 by 1 keep\nend\nrelations 1 3 4 4\nmorphism 1\npart 9 twist 1 1\npart 10 beside 1 9\nlog 4 10\ninput 1 keep\ninput 2 by 1 keep\nend\nchain 1 1 4 4 4\nstable 0 4\npart 11 given 1 1 (x^2)\ncoordinates 11\ndies 0 4\ndone 2\nend report\n",
    },
    Row {
        words: &["decide"],
        text: b"ring 13 x\nideal I = x\nclass 1 I 5 (1)\nclass 1 I 7 (1)\n",
        failing_reads: &[],
        failing_writes: &[],
        status: Status::Unanswered,
        written: b"report 2\nring 13 x\norder grevlex\nideal I = x\nquery 1 class 1 I 5 (1)\nanswer no\ndatum I 1\npart 1 given 1 1 (x)\nd 1 1\npart 2 given 1 0\nd 2 2\nlog 1 1\ninput 1 keep\nend\npart 3 given 0 0\nexact 1 1 3 3\npart 4 given 1 1 (1)\ntheta 0 4\npart 5 given 1 1 (x^12)\ntheta 1 5\npart 6 flip 2\nlog 2 6\ninput 1 keep\nend\npart 7 given 0 1 ()\ncocycles 4 2 7 4\npart 8 flip 1\npart 9 beside 4 8\nlog 3 9\ninput 1 keep\ninput 2 by 1 keep\nend\npart 10 given 1 1 (12)\nrelations 1 3 10 4\nmorphism 5\npart 11 twist 1 1\npart 12 beside 5 11\nlog 4 12\ninput 1 keep\ninput 2 by 1 keep\nend\nchain 1 1 4 10 4\nstable 0 4\ncoordinates 4\nlives 0 1\ndone 1\nquery 2 class 1 I 7 (1)\nunanswered exponents stage 0\ndone 2\nend report\n",
    },
    Row {
        words: &["decide", "--budget", "1"],
        text: b"ring 3 x y\nideal I = x*y\nclass 1 I 0 (x^2*y)\n",
        failing_reads: &[],
        failing_writes: &[],
        status: Status::Unanswered,
        written: b"report 2\nring 3 x y\norder grevlex\nideal I = x*y\nquery 1 class 1 I 0 (x^2*y)\nunanswered budget lift 1\ndone 1\nend report\n",
    },
    Row {
        words: &["decide", "--budget", "0000002"],
        text: b"ring 3 x y\nideal I = x*y\nclass 1 I 0 (x^2*y)\n",
        failing_reads: &[],
        failing_writes: &[],
        status: Status::Unanswered,
        written: b"report 2\nring 3 x y\norder grevlex\nideal I = x*y\nquery 1 class 1 I 0 (x^2*y)\nunanswered budget lift 1\ndone 1\nend report\n",
    },
    Row {
        words: &["decide", "--budget", "3"],
        text: b"ring 3 x y\nideal I = x*y\nclass 1 I 0 (x^2*y)\n",
        failing_reads: &[],
        failing_writes: &[],
        status: Status::Unanswered,
        written: b"report 2\nring 3 x y\norder grevlex\nideal I = x*y\nquery 1 class 1 I 0 (x^2*y)\nunanswered budget cocycles\ndone 1\nend report\n",
    },
    Row {
        words: &["decide", "--budget", "4000000"],
        text: b"ring 2 x\norder lex\nideal Z = 0\nideal I = x,0\nclass 1 I 3 (x^8)\nclass 1 I 0 (0)",
        failing_reads: &[],
        failing_writes: &[],
        status: Status::Done,
        written: b"report 2\nring 2 x\norder lex\nideal Z = 0\nideal I = x\nquery 1 class 1 I 3 (x^8)\nanswer yes stage 3\ndatum I 1\npart 1 given 1 1 (x)\nd 1 1\npart 2 given 1 0\nd 2 2\nlog 1 1\ninput 1 keep\nend\npart 3 given 0 0\nexact 1 1 3 3\npart 4 given 1 1 (1)\ntheta 0 4\ntheta 1 1\npart 5 flip 2\nlog 2 5\ninput 1 keep\nend\npart 6 given 0 1 ()\ncocycles 4 2 6 4\npart 7 flip 1\npart 8 beside 4 7\nlog 3 8\ninput 1 keep\ninput 2 by 1 keep\nend\nrelations 1 3 4 4\nmorphism 1\npart 9 twist 1 1\npart 10 beside 1 9\nlog 4 10\ninput 1 keep\ninput 2 by 1 keep\nend\nchain 1 1 4 4 4\nstable 0 4\npart 11 given 1 1 (x^8)\ncoordinates 11\ndies 0 4\ndone 1\nquery 2 class 1 I 0 (0)\nanswer yes stage 0\ndatum I 1\npart 1 given 1 1 (x)\nd 1 1\npart 2 given 1 0\nd 2 2\nlog 1 1\ninput 1 keep\nend\npart 3 given 0 0\nexact 1 1 3 3\npart 4 given 1 1 (1)\ntheta 0 4\ntheta 1 1\npart 5 flip 2\nlog 2 5\ninput 1 keep\nend\npart 6 given 0 1 ()\ncocycles 4 2 6 4\npart 7 flip 1\npart 8 beside 4 7\nlog 3 8\ninput 1 keep\ninput 2 by 1 keep\nend\nrelations 1 3 4 4\nmorphism 1\npart 9 twist 1 1\npart 10 beside 1 9\nlog 4 10\ninput 1 keep\ninput 2 by 1 keep\nend\nchain 1 1 4 4 4\nstable 0 4\npart 11 given 1 1 (0)\ncoordinates 11\ndies 0 11\ndone 2\nend report\n",
    },
    Row {
        words: &["decide"],
        text: b"ring 5 x y\norder deglex\nideal I = x^2-y,0 # a comment\n\nclass 1 I 1 (x^10 - y^5)\r\nclass 1 I 1 (x^10+1)",
        failing_reads: &[],
        failing_writes: &[],
        status: Status::Problem,
        written: b"line 3: syntax\n",
    },
    Row {
        words: &["decide"],
        text: b"ring 31 x\nideal I = x\nclass 1 I 0 (x)\n",
        failing_reads: &[],
        failing_writes: &[],
        status: Status::Done,
        written: b"report 2\nring 31 x\norder grevlex\nideal I = x\nquery 1 class 1 I 0 (x)\nanswer yes stage 0\ndatum I 1\npart 1 given 1 1 (x)\nd 1 1\npart 2 given 1 0\nd 2 2\nlog 1 1\ninput 1 keep\nend\npart 3 given 0 0\nexact 1 1 3 3\npart 4 given 1 1 (1)\ntheta 0 4\npart 5 given 1 1 (x^30)\ntheta 1 5\npart 6 flip 2\nlog 2 6\ninput 1 keep\nend\npart 7 given 0 1 ()\ncocycles 4 2 7 4\npart 8 flip 1\npart 9 beside 4 8\nlog 3 9\ninput 1 keep\ninput 2 by 1 keep\nend\npart 10 given 1 1 (30)\nrelations 1 3 10 4\nmorphism 5\npart 11 twist 1 1\npart 12 beside 5 11\nlog 4 12\ninput 1 keep\ninput 2 by 1 keep\nend\nchain 1 1 4 10 4\nstable 0 4\ncoordinates 1\ndies 0 4\ndone 1\nend report\n",
    },
    Row {
        words: &["decide"],
        text: b"ring 37 x\n",
        failing_reads: &[],
        failing_writes: &[],
        status: Status::Problem,
        written: b"line 1: not a listed prime\n",
    },
    Row {
        words: &["decide"],
        text: b"ring 4 x",
        failing_reads: &[],
        failing_writes: &[],
        status: Status::Problem,
        written: b"line 1: not a listed prime\n",
    },
    Row {
        words: &["decide"],
        text: b"",
        failing_reads: &[],
        failing_writes: &[],
        status: Status::Problem,
        written: b"line 1: syntax\n",
    },
    Row {
        words: &["decide"],
        text: b"ring 2 x y\nideal I = x^2, x*y\nresolution 1 I\next 1 I\next 2 I\n",
        failing_reads: &[],
        failing_writes: &[],
        status: Status::Done,
        written: b"report 2\nring 2 x y\norder grevlex\nideal I = x^2, x*y\nquery 1 resolution 1 I\nanswer ranks 1 2 1\ndatum I 1\npart 1 given 1 2 (x^2) (x*y)\nd 1 1\npart 2 given 2 1 (y,x)\nd 2 2\nlog 1 1\ninput 1 keep\ninput 2 keep\npair 1 2 keep\nend\npart 3 given 0 1 ()\npart 4 given 1 1 (1)\nexact 1 1 3 4\ndone 1\nquery 2 ext 1 I\nanswer generators 1 relations 1\ndatum I 1\npart 1 given 1 2 (x^2) (x*y)\nd 1 1\npart 2 given 2 1 (y,x)\nd 2 2\nlog 1 1\ninput 1 keep\ninput 2 keep\npair 1 2 keep\nend\npart 3 given 0 1 ()\npart 4 given 1 1 (1)\nexact 1 1 3 4\ntheta 0 4\npart 5 given 2 2 (x^2,0) (0,x*y)\ntheta 1 5\npart 6 given 2 1 (x,y)\npart 7 flip 2\nlog 2 7\ninput 1 keep\ninput 2 keep\npair 1 2 keep\nend\ncocycles 6 2 3 4\npart 8 given 1 1 (x)\npart 9 flip 1\npart 10 beside 6 9\nlog 3 10\ninput 1 keep\ninput 2 by 1 keep\nend\nrelations 8 3 4 4\nmorphism 8\ndone 2\nquery 3 ext 2 I\nanswer generators 1 relations 2\ndatum I 2\npart 1 given 1 2 (x^2) (x*y)\nd 1 1\npart 2 given 2 1 (y,x)\nd 2 2\npart 3 given 1 0\nd 3 3\nlog 1 1\ninput 1 keep\ninput 2 keep\npair 1 2 keep\nend\npart 4 given 0 1 ()\npart 5 given 1 1 (1)\nexact 1 1 4 5\nlog 2 2\ninput 1 keep\nend\npart 6 given 0 0\nexact 2 2 6 6\ntheta 0 5\npart 7 given 2 2 (x^2,0) (0,x*y)\ntheta 1 7\npart 8 given 1 1 (x^2*y)\ntheta 2 8\npart 9 flip 3\nlog 3 9\ninput 1 keep\nend\ncocycles 5 3 4 5\npart 10 given 1 2 (y) (x)\npart 11 flip 2\npart 12 beside 5 11\nlog 4 12\ninput 1 keep\ninput 2 by 1 keep\ninput 3 by 1 keep\npair 2 3 keep\nend\npart 13 given 2 2 (1,0) (0,1)\npart 14 given 2 3 (1,0) (0,1) (0,0)\nrelations 10 4 13 14\nmorphism 8\ndone 3\nend report\n",
    },
    Row {
        words: &["decide"],
        text: b"ring 3 x y z\nideal Z = 0\nideal W = 1\nideal A = x, y, z\next 0 Z\nresolution 2 Z\next 1 W\nresolution 3 A\next 3 A\n",
        failing_reads: &[],
        failing_writes: &[],
        status: Status::Done,
        written: b"report 2\nring 3 x y z\norder grevlex\nideal Z = 0\nideal W = 1\nideal A = x, y, z\nquery 1 ext 0 Z\nanswer generators 1 relations 0\ndatum Z 0\npart 1 given 1 0\nd 1 1\npart 2 given 1 1 (1)\ntheta 0 2\npart 3 flip 1\nlog 1 3\ninput 1 keep\nend\npart 4 given 0 1 ()\ncocycles 2 1 4 2\npart 5 beside 2 1\nlog 2 5\ninput 1 keep\nend\npart 6 given 0 0\nrelations 1 2 6 6\nmorphism 2\ndone 1\nquery 2 resolution 2 Z\nanswer ranks 1 0 0 0\ndatum Z 2\npart 1 given 1 0\nd 1 1\npart 2 given 0 0\nd 2 2\nd 3 2\nlog 1 1\nend\nexact 1 1 2 2\nlog 2 2\nend\nexact 2 2 2 2\ndone 2\nquery 3 ext 1 W\nanswer generators 1 relations 1\ndatum W 1\npart 1 given 1 1 (1)\nd 1 1\npart 2 given 1 0\nd 2 2\nlog 1 1\ninput 1 keep\nend\npart 3 given 0 0\nexact 1 1 3 3\ntheta 0 1\ntheta 1 1\npart 4 flip 2\nlog 2 4\ninput 1 keep\nend\npart 5 given 0 1 ()\ncocycles 1 2 5 1\npart 6 flip 1\npart 7 beside 1 6\nlog 3 7\ninput 1 keep\ninput 2 by 1 keep\nend\npart 8 given 1 1 (2)\nrelations 1 3 8 1\nmorphism 1\ndone 3\nquery 4 resolution 3 A\nanswer ranks 1 3 3 1 0\ndatum A 3\npart 1 given 1 3 (x) (y) (z)\nd 1 1\npart 2 given 3 3 (0,z,2*y) (z,0,2*x) (y,2*x,0)\nd 2 2\npart 3 given 3 1 (x,2*y,z)\nd 3 3\npart 4 given 1 0\nd 4 4\nlog 1 1\ninput 1 keep\ninput 2 keep\ninput 3 keep\npair 2 3 keep\npair 1 3 keep\npair 1 2 keep\npair 5 6 by 4 zero\nend\npart 5 given 0 3 () () ()\npart 6 given 3 3 (1,0,0) (0,1,0) (0,0,1)\nexact 1 1 5 6\nlog 2 2\ninput 1 keep\ninput 2 keep\ninput 3 keep\npair 2 3 by 1 keep\nend\npart 7 given 0 1 ()\npart 8 given 1 1 (1)\nexact 2 2 7 8\nlog 3 3\ninput 1 keep\nend\npart 9 given 0 0\nexact 3 3 9 9\ndone 4\nquery 5 ext 3 A\nanswer generators 1 relations 3\ndatum A 3\npart 1 given 1 3 (x) (y) (z)\nd 1 1\npart 2 given 3 3 (0,z,2*y) (z,0,2*x) (y,2*x,0)\nd 2 2\npart 3 given 3 1 (x,2*y,z)\nd 3 3\npart 4 given 1 0\nd 4 4\nlog 1 1\ninput 1 keep\ninput 2 keep\ninput 3 keep\npair 2 3 keep\npair 1 3 keep\npair 1 2 keep\npair 5 6 by 4 zero\nend\npart 5 given 0 3 () () ()\npart 6 given 3 3 (1,0,0) (0,1,0) (0,0,1)\nexact 1 1 5 6\nlog 2 2\ninput 1 keep\ninput 2 keep\ninput 3 keep\npair 2 3 by 1 keep\nend\npart 7 given 0 1 ()\npart 8 given 1 1 (1)\nexact 2 2 7 8\nlog 3 3\ninput 1 keep\nend\npart 9 given 0 0\nexact 3 3 9 9\ntheta 0 8\npart 10 given 3 3 (x^2,0,0) (0,y^2,0) (0,0,z^2)\ntheta 1 10\npart 11 given 3 3 (y^2*z^2,0,0) (0,x^2*z^2,0) (0,0,x^2*y^2)\ntheta 2 11\npart 12 given 1 1 (x^2*y^2*z^2)\ntheta 3 12\npart 13 flip 4\nlog 4 13\ninput 1 keep\nend\ncocycles 8 4 7 8\npart 14 flip 3\npart 15 beside 8 14\nlog 5 15\ninput 1 keep\ninput 2 by 1 keep\ninput 3 by 1 keep\ninput 4 by 1 keep\npair 3 4 keep\npair 2 4 keep\npair 2 3 keep\npair 6 7 by 5 zero\nend\npart 16 given 3 3 (2,0,0) (0,1,0) (0,0,2)\npart 17 given 3 6 (1,0,0) (0,1,0) (0,0,1) (0,0,0) (0,0,0) (0,0,0)\nrelations 1 5 16 17\nmorphism 12\ndone 5\nend report\n",
    },
    Row {
        words: &["decide"],
        text: b"ring 7 t\norder lex\nideal I = t^3\nideal Z = 0\nresolution 0 I\nresolution 1 I\next 0 I\next 1 I\next 1 Z\nmember I t^4\n",
        failing_reads: &[],
        failing_writes: &[],
        status: Status::Done,
        written: b"report 2\nring 7 t\norder lex\nideal I = t^3\nideal Z = 0\nquery 1 resolution 0 I\nanswer ranks 1 1\ndatum I 0\npart 1 given 1 1 (t^3)\nd 1 1\ndone 1\nquery 2 resolution 1 I\nanswer ranks 1 1 0\ndatum I 1\npart 1 given 1 1 (t^3)\nd 1 1\npart 2 given 1 0\nd 2 2\nlog 1 1\ninput 1 keep\nend\npart 3 given 0 0\nexact 1 1 3 3\ndone 2\nquery 3 ext 0 I\nanswer generators 0 relations 0\ndatum I 0\npart 1 given 1 1 (t^3)\nd 1 1\npart 2 given 1 1 (1)\ntheta 0 2\npart 3 given 1 0\npart 4 flip 1\nlog 1 4\ninput 1 keep\nend\npart 5 given 0 0\ncocycles 3 1 5 5\npart 6 beside 3 3\nlog 2 6\nend\nrelations 5 2 5 5\nmorphism 5\ndone 3\nquery 4 ext 1 I\nanswer generators 1 relations 1\ndatum I 1\npart 1 given 1 1 (t^3)\nd 1 1\npart 2 given 1 0\nd 2 2\nlog 1 1\ninput 1 keep\nend\npart 3 given 0 0\nexact 1 1 3 3\npart 4 given 1 1 (1)\ntheta 0 4\npart 5 given 1 1 (t^18)\ntheta 1 5\npart 6 flip 2\nlog 2 6\ninput 1 keep\nend\npart 7 given 0 1 ()\ncocycles 4 2 7 4\npart 8 flip 1\npart 9 beside 4 8\nlog 3 9\ninput 1 keep\ninput 2 by 1 keep\nend\npart 10 given 1 1 (6)\nrelations 1 3 10 4\nmorphism 5\ndone 4\nquery 5 ext 1 Z\nanswer generators 0 relations 0\ndatum Z 1\npart 1 given 1 0\nd 1 1\npart 2 given 0 0\nd 2 2\nlog 1 1\nend\nexact 1 1 2 2\npart 3 given 1 1 (1)\ntheta 0 3\ntheta 1 2\npart 4 flip 2\nlog 2 4\nend\ncocycles 2 2 2 2\npart 5 flip 1\npart 6 beside 2 5\nlog 3 6\ninput 1 keep\nend\npart 7 given 0 1 ()\nrelations 2 3 1 7\nmorphism 2\ndone 5\nquery 6 member I t^4\nanswer yes\npart 1 given 1 1 (t^3)\nd 1 1\npart 2 given 1 1 (t)\ncofactors 2\ndone 6\nend report\n",
    },
    Row {
        words: &["decide", "--budget", "12"],
        text: b"ring 2 x y\nideal I = x^2, x*y\nresolution 1 I\next 1 I\n",
        failing_reads: &[],
        failing_writes: &[],
        status: Status::Unanswered,
        written: b"report 2\nring 2 x y\norder grevlex\nideal I = x^2, x*y\nquery 1 resolution 1 I\nanswer ranks 1 2 1\ndatum I 1\npart 1 given 1 2 (x^2) (x*y)\nd 1 1\npart 2 given 2 1 (y,x)\nd 2 2\nlog 1 1\ninput 1 keep\ninput 2 keep\npair 1 2 keep\nend\npart 3 given 0 1 ()\npart 4 given 1 1 (1)\nexact 1 1 3 4\ndone 1\nquery 2 ext 1 I\nunanswered budget cocycles\ndone 2\nend report\n",
    },
    Row {
        words: &["decide", "--budget", "3"],
        text: b"ring 5 x y\norder deglex\nideal I = x + y, x*y\nresolution 2 I\next 0 I\nmember I x^2\n",
        failing_reads: &[],
        failing_writes: &[],
        status: Status::Unanswered,
        written: b"report 2\nring 5 x y\norder deglex\nideal I = x+y, x*y\nquery 1 resolution 2 I\nunanswered budget resolve 1\ndone 1\nquery 2 ext 0 I\nunanswered budget resolve 1\ndone 2\nquery 3 member I x^2\nunanswered budget resolve 1\ndone 3\nend report\n",
    },
    Row {
        words: &["decide", "--budget", "24"],
        text: b"ring 2 x y\nideal I = x^2, x*y\next 1 I\n",
        failing_reads: &[],
        failing_writes: &[],
        status: Status::Unanswered,
        written: b"report 2\nring 2 x y\norder grevlex\nideal I = x^2, x*y\nquery 1 ext 1 I\nunanswered budget relations\ndone 1\nend report\n",
    },
    Row {
        words: &["decide", "--budget", "27"],
        text: b"ring 2 x y\nideal I = x^2, x*y\next 1 I\n",
        failing_reads: &[],
        failing_writes: &[],
        status: Status::Unanswered,
        written: b"report 2\nring 2 x y\norder grevlex\nideal I = x^2, x*y\nquery 1 ext 1 I\nunanswered budget morphism\ndone 1\nend report\n",
    },
    Row {
        words: &["decide", "--budget", "28"],
        text: b"ring 2 x y\nideal I = x^2, x*y\next 1 I\n",
        failing_reads: &[],
        failing_writes: &[],
        status: Status::Done,
        written: b"report 2\nring 2 x y\norder grevlex\nideal I = x^2, x*y\nquery 1 ext 1 I\nanswer generators 1 relations 1\ndatum I 1\npart 1 given 1 2 (x^2) (x*y)\nd 1 1\npart 2 given 2 1 (y,x)\nd 2 2\nlog 1 1\ninput 1 keep\ninput 2 keep\npair 1 2 keep\nend\npart 3 given 0 1 ()\npart 4 given 1 1 (1)\nexact 1 1 3 4\ntheta 0 4\npart 5 given 2 2 (x^2,0) (0,x*y)\ntheta 1 5\npart 6 given 2 1 (x,y)\npart 7 flip 2\nlog 2 7\ninput 1 keep\ninput 2 keep\npair 1 2 keep\nend\ncocycles 6 2 3 4\npart 8 given 1 1 (x)\npart 9 flip 1\npart 10 beside 6 9\nlog 3 10\ninput 1 keep\ninput 2 by 1 keep\nend\nrelations 8 3 4 4\nmorphism 8\ndone 1\nend report\n",
    },
    Row {
        words: &["decide"],
        text: b"ring 2 x y\nideal I = x\nideal I = y",
        failing_reads: &[],
        failing_writes: &[],
        status: Status::Problem,
        written: b"line 3: repeated name\n",
    },
    Row {
        words: &["decide"],
        text: b"ring 2 x\nideal I = x\nzero 2 I",
        failing_reads: &[],
        failing_writes: &[],
        status: Status::Problem,
        written: b"line 3: degree out of range\n",
    },
    Row {
        words: &["decide"],
        text: b"ring 2 x\nideal I = x^1001",
        failing_reads: &[],
        failing_writes: &[],
        status: Status::Problem,
        written: b"line 2: above a limit\n",
    },
    Row {
        words: &["decide"],
        text: b"ring 2 x\nideal I = x*t",
        failing_reads: &[],
        failing_writes: &[],
        status: Status::Problem,
        written: b"line 2: unknown name\n",
    },
    Row {
        words: &["decide"],
        text: b"ring 2 x\nideal I = x\nclass 1 I 0 (x)\nmap 1 I I\nbogus",
        failing_reads: &[],
        failing_writes: &[],
        status: Status::Problem,
        written: b"line 5: syntax\n",
    },
    Row {
        words: &["decide"],
        text: b"ring 2 x\nideal I = x\nclass 1 I 0 (x)\nbogus\nzero 1 I\n",
        failing_reads: &[],
        failing_writes: &[],
        status: Status::Problem,
        written: b"line 4: syntax\n",
    },
    Row {
        words: &["decide"],
        text: b"ring 2 x",
        failing_reads: &[],
        failing_writes: &[],
        status: Status::Done,
        written: b"report 2\nring 2 x\norder grevlex\nend report\n",
    },
    Row {
        words: &["decide"],
        text: b"ring 3 x y\nideal I = x*y\nclass 1 I 0 (x^2*y)\n",
        failing_reads: &[2],
        failing_writes: &[],
        status: Status::ReadFault,
        written: b"",
    },
    Row {
        words: &["decide"],
        text: b"ring 3 x y\nideal I = x*y\nclass 1 I 0 (x^2*y)\n",
        failing_reads: &[],
        failing_writes: &[2],
        status: Status::WriteFault,
        written: b"report 2\nring 3 ",
    },
    Row {
        words: &["decide", "--budget", "0"],
        text: b"ring 3 x y\nideal I = x*y\nclass 1 I 0 (x^2*y)\n",
        failing_reads: &[1],
        failing_writes: &[],
        status: Status::Usage,
        written: b"usage: fmod decide [--budget N] | check | sample N\n",
    },
    Row {
        words: &["decide", "--budget", "4000001"],
        text: b"ring 3 x y\nideal I = x*y\nclass 1 I 0 (x^2*y)\n",
        failing_reads: &[1],
        failing_writes: &[],
        status: Status::Usage,
        written: b"usage: fmod decide [--budget N] | check | sample N\n",
    },
    Row {
        words: &["decide", "--budget", "00000001"],
        text: b"ring 3 x y\nideal I = x*y\nclass 1 I 0 (x^2*y)\n",
        failing_reads: &[1],
        failing_writes: &[],
        status: Status::Usage,
        written: b"usage: fmod decide [--budget N] | check | sample N\n",
    },
    Row {
        words: &["decide", "--budget", "1x"],
        text: b"ring 3 x y\nideal I = x*y\nclass 1 I 0 (x^2*y)\n",
        failing_reads: &[1],
        failing_writes: &[],
        status: Status::Usage,
        written: b"usage: fmod decide [--budget N] | check | sample N\n",
    },
    Row {
        words: &["decide", "--budget", ""],
        text: b"ring 3 x y\nideal I = x*y\nclass 1 I 0 (x^2*y)\n",
        failing_reads: &[1],
        failing_writes: &[],
        status: Status::Usage,
        written: b"usage: fmod decide [--budget N] | check | sample N\n",
    },
    Row {
        words: &["sample", "7"],
        text: b"",
        failing_reads: &[1],
        failing_writes: &[],
        status: Status::Done,
        written: b"sample 7 queries 60 yes 35 no 25 unanswered 0\n",
    },
    Row {
        words: &["sample", "007"],
        text: b"",
        failing_reads: &[1],
        failing_writes: &[],
        status: Status::Done,
        written: b"sample 7 queries 60 yes 35 no 25 unanswered 0\n",
    },
    Row {
        words: &["decide", "--budget"],
        text: b"ring 3 x y\nideal I = x*y\nclass 1 I 0 (x^2*y)\n",
        failing_reads: &[1],
        failing_writes: &[],
        status: Status::Usage,
        written: b"usage: fmod decide [--budget N] | check | sample N\n",
    },
    Row {
        words: &["decide", "--Budget", "1"],
        text: b"ring 3 x y\nideal I = x*y\nclass 1 I 0 (x^2*y)\n",
        failing_reads: &[1],
        failing_writes: &[],
        status: Status::Usage,
        written: b"usage: fmod decide [--budget N] | check | sample N\n",
    },
    Row {
        words: &["decide", "--budget", "1", "1"],
        text: b"ring 3 x y\nideal I = x*y\nclass 1 I 0 (x^2*y)\n",
        failing_reads: &[1],
        failing_writes: &[],
        status: Status::Usage,
        written: b"usage: fmod decide [--budget N] | check | sample N\n",
    },
    Row {
        words: &[],
        text: b"ring 3 x y\nideal I = x*y\nclass 1 I 0 (x^2*y)\n",
        failing_reads: &[1],
        failing_writes: &[],
        status: Status::Usage,
        written: b"usage: fmod decide [--budget N] | check | sample N\n",
    },
    Row {
        words: &["Decide"],
        text: b"ring 3 x y\nideal I = x*y\nclass 1 I 0 (x^2*y)\n",
        failing_reads: &[1],
        failing_writes: &[1],
        status: Status::WriteFault,
        written: b"",
    },
];

fn words_of(alloc: Global, words: &[&str]) -> Result<Vec<String>, Fail> {
    let mut all = Vec::new(alloc);
    for word in words {
        all.push(word.to_string(alloc)?)?;
    }
    Ok(all)
}

/// The status of a run on the words and the text of a row, and what the sink took.
pub(crate) fn outcome(alloc: Global, row: &Row) -> Result<(Status, MemorySink), Fail> {
    let words = words_of(alloc, row.words)?;
    let mut source = MemorySource::new(
        row.text.to_vec(alloc)?,
        1000,
        row.failing_reads.to_vec(alloc)?,
    );
    let mut sink = MemorySink::new(alloc, 16_000, 16, row.failing_writes.to_vec(alloc)?)?;
    let status = run(alloc, &words, &mut source, &mut sink);
    Ok((status, sink))
}

#[test]
fn answers_words_and_texts(rt: HostRuntime) -> Result<(), Fail> {
    for row in &ROWS {
        let (status, sink) = outcome(rt.alloc(), row)?;
        assert_eq!(rt; status, row.status);
        assert_eq!(rt; sink.taken(), row.written);
    }
    Ok(())
}

#[test]
fn refuses_a_problem_above_the_limit(rt: HostRuntime) -> Result<(), Fail> {
    let words = words_of(rt.alloc(), &["decide"])?;
    for (length, status, written) in [
        (1_048_576, Status::Problem, b"line 2: syntax\n".as_slice()),
        (1_048_577, Status::TooLong, b"".as_slice()),
    ] {
        let text = vec![in rt.alloc(); b' '; length]?;
        let mut source = MemorySource::new(text, 100_000, Vec::new(rt.alloc()));
        let mut sink = MemorySink::new(rt.alloc(), 1000, 16, Vec::new(rt.alloc()))?;
        assert_eq!(rt; run(rt.alloc(), &words, &mut source, &mut sink), status);
        assert_eq!(rt; sink.taken(), written);
    }
    Ok(())
}
