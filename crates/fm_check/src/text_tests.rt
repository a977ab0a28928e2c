// Whole texts: logs in other orders, a part with 2^40 leaves, ends of queries, answers on the support, numbers of moves above the repeat, matrices of
// another size, joins that are too large, logs of another matrix, values above the bound on exponents, heads of both versions, and texts that are cut inside
// a line. What is expected was found by an independent checker.
use crate::{Checked, check};
use fm_conditions::Why;
use std::test::Fail;

// A text, its first bad line and the reason.
const REFUSED: [(&str, u64, Why); 43] = [
    (
        "report 2\nring 3 x y\norder grevlex\nideal I = x*y\nquery 1 class 1 I 0 (x^2*y)\nanswer yes stage 0\ndatum I 1\npart 1 given 1 1 (x*y)\nd 1 1\npart 2 given 1 0\nd 2 2\nlog 1 1\ninput 1 keep\nend\npart 3 given 0 0\nexact 1 1 3 3\npart 4 given 1 1 (1)\ntheta 0 4\npart 5 given 1 1 (x^2*y^2)\ntheta 1 5\npart 6 flip 2\nlog 2 6\ninput 1 keep\nend\npart 7 given 0 1 ()\ncocycles 4 2 7 4\npart 8 flip 1\npart 9 beside 4 8\nlog 3 9\ninput 1 keep\ninput 2 by 1 keep\nend\npart 10 given 1 1 (2)\nrelations 1 3 10 4\nmorphism 5\npart 11 twist 1 1\npart 12 beside 5 11\nlog 4 12\ninput 1 keep\ninput 2 by 1 keep\nend\nchain 1 1 4 10 4\nstable 0 4\npart 13 given 1 1 (x^2*y)\ncoordinates 13\npart 14 given 1 1 (x)\ndies 0 14\ndone 1\nend ",
        49,
        Why::Form,
    ),
    (
        "report 2\r\nring 3 x y\norder grevlex\nideal I = x*y\nquery 1 class 1 I 0 (x^2*y)\nanswer yes stage 0\ndatum I 1\npart 1 given 1 1 (x*y)\nd 1 1\npart 2 given 1 0\nd 2 2\nlog 1 1\ninput 1 keep\nend\npart 3 given 0 0\nexact 1 1 3 3\npart 4 given 1 1 (1)\ntheta 0 4\npart 5 given 1 1 (x^2*y^2)\ntheta 1 5\npart 6 flip 2\nlog 2 6\ninput 1 keep\nend\npart 7 given 0 1 ()\ncocycles 4 2 7 4\npart 8 flip 1\npart 9 beside 4 8\nlog 3 9\ninput 1 keep\ninput 2 by 1 keep\nend\npart 10 given 1 1 (2)\nrelations 1 3 10 4\nmorphism 5\npart 11 twist 1 1\npart 12 beside 5 11\nlog 4 12\ninput 1 keep\ninput 2 by 1 keep\nend\nchain 1 1 4 10 4\nstable 0 4\npart 13 given 1 1 (x^2*y)\ncoordinates 13\npart 14 given 1 1 (x)\ndies 0 14\ndone 1\nend report\n",
        1,
        Why::Form,
    ),
    (
        "report 2\nring 2 x y\norder grevlex\nideal J = x, y\nquery 1 support 2 J\nanswer ideal y,x\ndatum J 2\npart 1 given 1 2 (x) (y)\nd 1 1\npart 2 given 2 1 (y,x)\nd 2 2\npart 3 given 1 0\nd 3 3\nlog 1 1\ninput 1 keep\ninput 2 keep\npair 1 2 keep\nend\npart 4 given 0 1 ()\npart 5 given 1 1 (1)\nexact 1 1 4 5\nlog 2 2\ninput 1 keep\nend\npart 6 given 0 0\nexact 2 2 6 6\ntheta 0 5\npart 7 given 2 2 (x,0) (0,y)\ntheta 1 7\npart 8 given 1 1 (x*y)\ntheta 2 8\npart 9 flip 3\nlog 3 9\ninput 1 keep\nend\ncocycles 5 3 4 5\npart 10 given 1 2 (y) (x)\npart 11 flip 2\npart 12 beside 5 11\nlog 4 12\ninput 1 keep\ninput 2 by 1 keep\ninput 3 by 1 keep\npair 2 3 keep\nend\npart 13 given 2 2 (1,0) (0,1)\npart 14 given 2 3 (1,0) (0,1) (0,0)\nrelations 10 4 13 14\nmorphism 8\npart 15 twist 10 1\npart 16 beside 8 15\nlog 5 16\ninput 1 keep\ninput 2 keep\ninput 3 keep\npair 1 2 keep\npair 1 3 keep\npair 4 5 keep\nskip 2 3 by 1\nend\nchain 1 10 5 7 14\nstable 0 13\npart 17 beside 5 10\nlog 6 17\ninput 1 keep\ninput 2 by 1 keep\ninput 3 by 1 keep\npair 2 3 keep\nend\nannihilator 10 6 13 14\ndone 1\nend report\n",
        6,
        Why::Form,
    ),
    (
        "report 2\nring 2 x y\norder grevlex\nideal J = x, y\nquery 1 support 2 J\nanswer ideal y , x\ndatum J 2\npart 1 given 1 2 (x) (y)\nd 1 1\npart 2 given 2 1 (y,x)\nd 2 2\npart 3 given 1 0\nd 3 3\nlog 1 1\ninput 1 keep\ninput 2 keep\npair 1 2 keep\nend\npart 4 given 0 1 ()\npart 5 given 1 1 (1)\nexact 1 1 4 5\nlog 2 2\ninput 1 keep\nend\npart 6 given 0 0\nexact 2 2 6 6\ntheta 0 5\npart 7 given 2 2 (x,0) (0,y)\ntheta 1 7\npart 8 given 1 1 (x*y)\ntheta 2 8\npart 9 flip 3\nlog 3 9\ninput 1 keep\nend\ncocycles 5 3 4 5\npart 10 given 1 2 (y) (x)\npart 11 flip 2\npart 12 beside 5 11\nlog 4 12\ninput 1 keep\ninput 2 by 1 keep\ninput 3 by 1 keep\npair 2 3 keep\nend\npart 13 given 2 2 (1,0) (0,1)\npart 14 given 2 3 (1,0) (0,1) (0,0)\nrelations 10 4 13 14\nmorphism 8\npart 15 twist 10 1\npart 16 beside 8 15\nlog 5 16\ninput 1 keep\ninput 2 keep\ninput 3 keep\npair 1 2 keep\npair 1 3 keep\npair 4 5 keep\nskip 2 3 by 1\nend\nchain 1 10 5 7 14\nstable 0 13\npart 17 beside 5 10\nlog 6 17\ninput 1 keep\ninput 2 by 1 keep\ninput 3 by 1 keep\npair 2 3 keep\nend\nannihilator 10 6 13 14\ndone 1\nend report\n",
        6,
        Why::Form,
    ),
    (
        "report 2\nring 2 x y\norder grevlex\nideal J = x, y\nquery 1 support 2 J\nanswer ideal\ndatum J 2\npart 1 given 1 2 (x) (y)\nd 1 1\npart 2 given 2 1 (y,x)\nd 2 2\npart 3 given 1 0\nd 3 3\nlog 1 1\ninput 1 keep\ninput 2 keep\npair 1 2 keep\nend\npart 4 given 0 1 ()\npart 5 given 1 1 (1)\nexact 1 1 4 5\nlog 2 2\ninput 1 keep\nend\npart 6 given 0 0\nexact 2 2 6 6\ntheta 0 5\npart 7 given 2 2 (x,0) (0,y)\ntheta 1 7\npart 8 given 1 1 (x*y)\ntheta 2 8\npart 9 flip 3\nlog 3 9\ninput 1 keep\nend\ncocycles 5 3 4 5\npart 10 given 1 2 (y) (x)\npart 11 flip 2\npart 12 beside 5 11\nlog 4 12\ninput 1 keep\ninput 2 by 1 keep\ninput 3 by 1 keep\npair 2 3 keep\nend\npart 13 given 2 2 (1,0) (0,1)\npart 14 given 2 3 (1,0) (0,1) (0,0)\nrelations 10 4 13 14\nmorphism 8\npart 15 twist 10 1\npart 16 beside 8 15\nlog 5 16\ninput 1 keep\ninput 2 keep\ninput 3 keep\npair 1 2 keep\npair 1 3 keep\npair 4 5 keep\nskip 2 3 by 1\nend\nchain 1 10 5 7 14\nstable 0 13\npart 17 beside 5 10\nlog 6 17\ninput 1 keep\ninput 2 by 1 keep\ninput 3 by 1 keep\npair 2 3 keep\nend\nannihilator 10 6 13 14\ndone 1\nend report\n",
        6,
        Why::Form,
    ),
    (
        "report 2\nring 2 x y\norder grevlex\nideal J = x, y\nquery 1 support 2 J\nanswer ideal x, y\ndatum J 2\npart 1 given 1 2 (x) (y)\nd 1 1\npart 2 given 2 1 (y,x)\nd 2 2\npart 3 given 1 0\nd 3 3\nlog 1 1\ninput 1 keep\ninput 2 keep\npair 1 2 keep\nend\npart 4 given 0 1 ()\npart 5 given 1 1 (1)\nexact 1 1 4 5\nlog 2 2\ninput 1 keep\nend\npart 6 given 0 0\nexact 2 2 6 6\ntheta 0 5\npart 7 given 2 2 (x,0) (0,y)\ntheta 1 7\npart 8 given 1 1 (x*y)\ntheta 2 8\npart 9 flip 3\nlog 3 9\ninput 1 keep\nend\ncocycles 5 3 4 5\npart 10 given 1 2 (y) (x)\npart 11 flip 2\npart 12 beside 5 11\nlog 4 12\ninput 1 keep\ninput 2 by 1 keep\ninput 3 by 1 keep\npair 2 3 keep\nend\npart 13 given 2 2 (1,0) (0,1)\npart 14 given 2 3 (1,0) (0,1) (0,0)\nrelations 10 4 13 14\nmorphism 8\npart 15 twist 10 1\npart 16 beside 8 15\nlog 5 16\ninput 1 keep\ninput 2 keep\ninput 3 keep\npair 1 2 keep\npair 1 3 keep\npair 4 5 keep\nskip 2 3 by 1\nend\nchain 1 10 5 7 14\nstable 0 13\npart 17 beside 5 10\nlog 6 17\ninput 1 keep\ninput 2 by 1 keep\ninput 3 by 1 keep\npair 2 3 keep\nend\nannihilator 10 6 13 14\ndone 1\nend report\n",
        70,
        Why::Value,
    ),
    (
        "report 2\nring 2 x y\norder grevlex\nideal J = x, y\nquery 1 support 2 J\nanswer ideal y\ndatum J 2\npart 1 given 1 2 (x) (y)\nd 1 1\npart 2 given 2 1 (y,x)\nd 2 2\npart 3 given 1 0\nd 3 3\nlog 1 1\ninput 1 keep\ninput 2 keep\npair 1 2 keep\nend\npart 4 given 0 1 ()\npart 5 given 1 1 (1)\nexact 1 1 4 5\nlog 2 2\ninput 1 keep\nend\npart 6 given 0 0\nexact 2 2 6 6\ntheta 0 5\npart 7 given 2 2 (x,0) (0,y)\ntheta 1 7\npart 8 given 1 1 (x*y)\ntheta 2 8\npart 9 flip 3\nlog 3 9\ninput 1 keep\nend\ncocycles 5 3 4 5\npart 10 given 1 2 (y) (x)\npart 11 flip 2\npart 12 beside 5 11\nlog 4 12\ninput 1 keep\ninput 2 by 1 keep\ninput 3 by 1 keep\npair 2 3 keep\nend\npart 13 given 2 2 (1,0) (0,1)\npart 14 given 2 3 (1,0) (0,1) (0,0)\nrelations 10 4 13 14\nmorphism 8\npart 15 twist 10 1\npart 16 beside 8 15\nlog 5 16\ninput 1 keep\ninput 2 keep\ninput 3 keep\npair 1 2 keep\npair 1 3 keep\npair 4 5 keep\nskip 2 3 by 1\nend\nchain 1 10 5 7 14\nstable 0 13\npart 17 beside 5 10\nlog 6 17\ninput 1 keep\ninput 2 by 1 keep\ninput 3 by 1 keep\npair 2 3 keep\nend\nannihilator 10 6 13 14\ndone 1\nend report\n",
        70,
        Why::Value,
    ),
    (
        "report 2\nring 2 x y\norder grevlex\nideal J = x, y\nquery 1 support 2 J\nanswer ideal y, x, x^16777216\ndatum J 2\npart 1 given 1 2 (x) (y)\nd 1 1\npart 2 given 2 1 (y,x)\nd 2 2\npart 3 given 1 0\nd 3 3\nlog 1 1\ninput 1 keep\ninput 2 keep\npair 1 2 keep\nend\npart 4 given 0 1 ()\npart 5 given 1 1 (1)\nexact 1 1 4 5\nlog 2 2\ninput 1 keep\nend\npart 6 given 0 0\nexact 2 2 6 6\ntheta 0 5\npart 7 given 2 2 (x,0) (0,y)\ntheta 1 7\npart 8 given 1 1 (x*y)\ntheta 2 8\npart 9 flip 3\nlog 3 9\ninput 1 keep\nend\ncocycles 5 3 4 5\npart 10 given 1 2 (y) (x)\npart 11 flip 2\npart 12 beside 5 11\nlog 4 12\ninput 1 keep\ninput 2 by 1 keep\ninput 3 by 1 keep\npair 2 3 keep\nend\npart 13 given 2 2 (1,0) (0,1)\npart 14 given 2 3 (1,0) (0,1) (0,0)\nrelations 10 4 13 14\nmorphism 8\npart 15 twist 10 1\npart 16 beside 8 15\nlog 5 16\ninput 1 keep\ninput 2 keep\ninput 3 keep\npair 1 2 keep\npair 1 3 keep\npair 4 5 keep\nskip 2 3 by 1\nend\nchain 1 10 5 7 14\nstable 0 13\npart 17 beside 5 10\nlog 6 17\ninput 1 keep\ninput 2 by 1 keep\ninput 3 by 1 keep\npair 2 3 keep\nend\nannihilator 10 6 13 14\ndone 1\nend report\n",
        6,
        Why::Exponents,
    ),
    (
        "report 2\nring 2 x y\norder grevlex\nideal J = x, y\nquery 1 support 2 J\nanswer ideal y, x, z\ndatum J 2\npart 1 given 1 2 (x) (y)\nd 1 1\npart 2 given 2 1 (y,x)\nd 2 2\npart 3 given 1 0\nd 3 3\nlog 1 1\ninput 1 keep\ninput 2 keep\npair 1 2 keep\nend\npart 4 given 0 1 ()\npart 5 given 1 1 (1)\nexact 1 1 4 5\nlog 2 2\ninput 1 keep\nend\npart 6 given 0 0\nexact 2 2 6 6\ntheta 0 5\npart 7 given 2 2 (x,0) (0,y)\ntheta 1 7\npart 8 given 1 1 (x*y)\ntheta 2 8\npart 9 flip 3\nlog 3 9\ninput 1 keep\nend\ncocycles 5 3 4 5\npart 10 given 1 2 (y) (x)\npart 11 flip 2\npart 12 beside 5 11\nlog 4 12\ninput 1 keep\ninput 2 by 1 keep\ninput 3 by 1 keep\npair 2 3 keep\nend\npart 13 given 2 2 (1,0) (0,1)\npart 14 given 2 3 (1,0) (0,1) (0,0)\nrelations 10 4 13 14\nmorphism 8\npart 15 twist 10 1\npart 16 beside 8 15\nlog 5 16\ninput 1 keep\ninput 2 keep\ninput 3 keep\npair 1 2 keep\npair 1 3 keep\npair 4 5 keep\nskip 2 3 by 1\nend\nchain 1 10 5 7 14\nstable 0 13\npart 17 beside 5 10\nlog 6 17\ninput 1 keep\ninput 2 by 1 keep\ninput 3 by 1 keep\npair 2 3 keep\nend\nannihilator 10 6 13 14\ndone 1\nend report\n",
        6,
        Why::Form,
    ),
    (
        "report 2\nring 2 x y\norder grevlex\nideal I = x^2, x*y\nquery 1 class 0 I 0 (1)\nunanswered budget whole\ndone 1\nend report\n",
        6,
        Why::Form,
    ),
    (
        "report 2\nring 2 x y\norder grevlex\nideal I = x^2, x*y\nquery 1 zero 0 I\nunanswered budget chain\ndone 1\nend report\n",
        6,
        Why::Form,
    ),
    (
        "report 2\nring 2 x y\norder grevlex\nideal I = x^2, x*y\nquery 1 zero 0 I\nunanswered time resolve 1\ndone 1\nend report\n",
        6,
        Why::Form,
    ),
    (
        "report 2\nring 2 x y\norder grevlex\nideal I = x^2, x*y\nquery 1 member I x\nunanswered budget image\ndone 1\nend report\n",
        6,
        Why::Form,
    ),
    (
        "report 2\nring 2 x y\norder grevlex\nideal I = x^2, x*y\nquery 1 zero 0 I\nrefused wrong length 1 needed 2\ndone 1\nend report\n",
        6,
        Why::Form,
    ),
    (
        "report 2\nring 2 x y\norder grevlex\nideal I = x^2, x*y\nquery 1 zero 0 I\nunanswered budget resolve 01\ndone 1\nend report\n",
        6,
        Why::Form,
    ),
    (
        "report 2\nring 2 x y\norder grevlex\nideal I = x^2, x*y\nquery 1 class 2 I 0 (1)\nanswer yes stage 3\ndatum I 2\npart 1 given 1 2 (x^2) (x*y)\nd 1 1\npart 2 given 2 1 (y,x)\nd 2 2\npart 3 given 1 0\nd 3 3\nlog 1 1\ninput 1 keep\ninput 2 keep\npair 1 2 keep\nend\npart 4 given 0 1 ()\npart 5 given 1 1 (1)\nexact 1 1 4 5\nlog 2 2\ninput 1 keep\nend\npart 6 given 0 0\nexact 2 2 6 6\ntheta 0 5\npart 7 given 2 2 (x^2,0) (0,x*y)\ntheta 1 7\npart 8 given 1 1 (x^2*y)\ntheta 2 8\npart 9 flip 3\nlog 3 9\ninput 1 keep\nend\ncocycles 5 3 4 5\npart 10 given 1 2 (y) (x)\npart 11 flip 2\npart 12 beside 5 11\nlog 4 12\ninput 1 keep\ninput 2 by 1 keep\ninput 3 by 1 keep\npair 2 3 keep\nend\npart 13 given 2 2 (1,0) (0,1)\npart 14 given 2 3 (1,0) (0,1) (0,0)\nrelations 10 4 13 14\nmorphism 8\npart 15 twist 10 1\npart 16 beside 8 15\nlog 5 16\ninput 1 keep\ninput 2 keep\ninput 3 keep\npair 1 3 keep\npair 1 2 by 4 keep\nskip 2 3 by 1\nend\npart 17 given 2 1 (0,y)\npart 18 given 1 2 (1) (0)\nchain 1 5 5 17 18\nlog 6 10\ninput 1 keep\ninput 2 keep\npair 1 2 keep\nend\ngrows 0 6 1\npart 19 twist 5 1\npart 20 beside 8 19\nlog 7 20\ninput 1 keep\ninput 2 keep\npair 1 2 keep\nend\nchain 2 5 7 8 5\nstable 1 5\ncoordinates 5\nlives 2 6\ndies 1 5\ndone 1\nend report\n",
        79,
        Why::Value,
    ),
    (
        "report 2\nring 2 x y\norder grevlex\nideal I = x^2, x*y\nquery 1 class 2 I 0 (1)\nanswer yes stage 3\ndatum I 2\npart 1 given 1 2 (x^2) (x*y)\nd 1 1\npart 2 given 2 1 (y,x)\nd 2 2\npart 3 given 1 0\nd 3 3\nlog 1 1\ninput 1 keep\ninput 2 keep\npair 1 2 keep\nend\npart 4 given 0 1 ()\npart 5 given 1 1 (1)\nexact 1 1 4 5\nlog 2 2\ninput 1 keep\nend\npart 6 given 0 0\nexact 2 2 6 6\ntheta 0 5\npart 7 given 2 2 (x^2,0) (0,x*y)\ntheta 1 7\npart 8 given 1 1 (x^2*y)\ntheta 2 8\npart 9 flip 3\nlog 3 9\ninput 1 keep\nend\ncocycles 5 3 4 5\npart 10 given 1 2 (y) (x)\npart 11 flip 2\npart 12 beside 5 11\nlog 4 12\ninput 1 keep\ninput 2 by 1 keep\ninput 3 by 1 keep\npair 2 3 keep\nend\npart 13 given 2 2 (1,0) (0,1)\npart 14 given 2 3 (1,0) (0,1) (0,0)\nrelations 10 4 13 14\nmorphism 8\npart 15 twist 10 1\npart 16 beside 8 15\nlog 5 16\ninput 1 keep\ninput 2 keep\ninput 3 keep\npair 1 3 keep\npair 1 2 by 4 keep\nskip 2 3 by 1\nend\npart 17 given 2 1 (0,y)\npart 18 given 1 2 (1) (0)\nchain 1 5 5 17 18\nlog 6 10\ninput 1 keep\ninput 2 keep\npair 1 2 keep\nend\ngrows 0 6 1\npart 19 twist 5 1\npart 20 beside 8 19\nlog 7 20\ninput 1 keep\ninput 2 keep\npair 1 2 keep\nend\nchain 2 5 7 8 5\nstable 1 5\ncoordinates 5\nlives 2 99\ndies 1 5\ndone 1\nend report\n",
        79,
        Why::Reference,
    ),
    (
        "report 2\nring 2 x y\norder grevlex\nideal I = x, y\nquery 1 resolution 0 I\nanswer ranks 1 2\ndatum I 0\npart 1 given 1 1 (x)\nd 1 1\ndone 1\nend report\n",
        9,
        Why::Shape,
    ),
    (
        "report 2\nring 2 x y\norder grevlex\nideal I = x, y\nquery 1 resolution 0 I\nanswer ranks 1 2\ndatum I 0\npart 1 given 1 2 (y) (x)\nd 1 1\ndone 1\nend report\n",
        9,
        Why::Value,
    ),
    (
        "report 2\nring 2 x y\norder grevlex\nideal I = x, y\nquery 1 resolution 0 I\nanswer ranks 1 2\ndatum I 0\npart 1 given 1 3 (x) (y) (0)\nd 1 1\ndone 1\nend report\n",
        9,
        Why::Shape,
    ),
    (
        "report 2\nring 2 x y\norder grevlex\nideal I = x, y\nquery 1 resolution 0 I\nanswer ranks 1 2\ndatum I 0\npart 1 given 2 2 (x,0) (y,0)\nd 1 1\ndone 1\nend report\n",
        9,
        Why::Shape,
    ),
    (
        "report 2\nring 2 x y\norder grevlex\nideal I = x, y\nquery 1 resolution 0 I\nanswer ranks 2 2\ndatum I 0\npart 1 given 1 2 (x) (y)\nd 1 1\ndone 1\nend report\n",
        9,
        Why::Value,
    ),
    (
        "report 2\nring 2 x y\norder grevlex\nideal I = x, y\nquery 1 resolution 0 I\nanswer ranks 1 3\ndatum I 0\npart 1 given 1 2 (x) (y)\nd 1 1\ndone 1\nend report\n",
        9,
        Why::Value,
    ),
    (
        "report 2\nring 2 x y\norder grevlex\nideal I = x, y\nquery 1 resolution 0 I\nanswer ranks 1 2 3\ndatum I 0\npart 1 given 1 2 (x) (y)\nd 1 1\ndone 1\nend report\n",
        6,
        Why::Form,
    ),
    (
        "report 2\nring 2 x y\norder grevlex\nideal J = x, y\nquery 1 class 1 J 0 (x,y,0)\nanswer yes stage 0\ndatum J 1\npart 1 given 1 2 (x) (y)\nd 1 1\npart 2 given 2 1 (y,x)\nd 2 2\nlog 1 1\ninput 1 keep\ninput 2 keep\npair 1 2 keep\nend\npart 3 given 0 1 ()\npart 4 given 1 1 (1)\nexact 1 1 3 4\ntheta 0 4\npart 5 given 2 2 (x,0) (0,y)\ntheta 1 5\npart 6 given 2 1 (x,y)\npart 7 flip 2\nlog 2 7\ninput 1 keep\ninput 2 keep\npair 1 2 keep\nend\ncocycles 6 2 3 4\npart 8 flip 1\npart 9 beside 6 8\nlog 3 9\ninput 1 keep\ninput 2 by 1 keep\nend\nrelations 4 3 4 4\nmorphism 4\npart 10 twist 4 1\npart 11 beside 4 10\nlog 4 11\ninput 1 keep\ninput 2 by 1 keep\nend\nchain 1 4 4 4 4\nstable 0 4\ncoordinates 4\ndies 0 4\ndone 1\nend report\n",
        47,
        Why::Shape,
    ),
    (
        "report 2\nring 2 x y\norder grevlex\nideal J = x, y\nquery 1 class 1 J 0 (0,1)\nanswer yes stage 0\ndatum J 1\npart 1 given 1 2 (x) (y)\nd 1 1\npart 2 given 2 1 (y,x)\nd 2 2\nlog 1 1\ninput 1 keep\ninput 2 keep\npair 1 2 keep\nend\npart 3 given 0 1 ()\npart 4 given 1 1 (1)\nexact 1 1 3 4\ntheta 0 4\npart 5 given 2 2 (x,0) (0,y)\ntheta 1 5\npart 6 given 2 1 (x,y)\npart 7 flip 2\nlog 2 7\ninput 1 keep\ninput 2 keep\npair 1 2 keep\nend\ncocycles 6 2 3 4\npart 8 flip 1\npart 9 beside 6 8\nlog 3 9\ninput 1 keep\ninput 2 by 1 keep\nend\nrelations 4 3 4 4\nmorphism 4\npart 10 twist 4 1\npart 11 beside 4 10\nlog 4 11\ninput 1 keep\ninput 2 by 1 keep\nend\nchain 1 4 4 4 4\nstable 0 4\ncoordinates 4\ndies 0 4\ndone 1\nend report\n",
        47,
        Why::Value,
    ),
    (
        "report 2\nring 2 x y\norder grevlex\nideal I = x^2, x*y\nquery 1 resolution 0 I\nanswer ranks 1 2\ndatum I 0\npart 1 given 0 0\npart 2 given 4294967295 0\npart 3 flip 2\npart 4 beside 3 3\n",
        11,
        Why::Shape,
    ),
    (
        "report 2\nring 2 x y\norder grevlex\nideal I = x^2, x*y\nquery 1 resolution 0 I\nanswer ranks 1 2\ndatum I 0\npart 1 given 4294967295 0\nlog 1 1\n",
        10,
        Why::Truncated,
    ),
    (
        "report 2\nring 2 x y\norder grevlex\nideal I = x^2, x*y\nquery 1 resolution 0 I\nanswer ranks 1 2\ndatum I 0\npart 1 given 4294967295 0\npart 2 flip 1\npart 3 times 1 2\nlog 1 3\n",
        11,
        Why::Shape,
    ),
    ("report 1\nring 17 x\norder lex\nend report\n", 2, Why::Form),
    ("report 2\nring 2 x\nend report\n", 3, Why::Form),
    (
        "report 2\nring 2 x\norder lex\norder lex\nend report\n",
        4,
        Why::Form,
    ),
    (
        "report 2\nring 2 x\norder lex\nideal I = x\nquery 1 zero 0 I\nunanswered budget chain 1\ndone 1\nideal J = x\nend report\n",
        8,
        Why::Form,
    ),
    (
        "report 2\nring 2 x y\norder grevlex\nideal X = x\nquery 1 member X y\nanswer no\npart 1 given 1 1 (x)\nd 1 1\nlog 1 1\ninput 1 keep\nend\npart 2 given 1 1 (y)\nlog 2 2\ninput 1 keep\nend\nforeign 2\ndone 1\nend report\n",
        16,
        Why::Reduction,
    ),
    (
        "report 2\nring 2 x y\norder grevlex\nideal X = x\nquery 1 member X y\nanswer no\npart 1 given 1 1 (x)\nd 1 1\nlog 1 1\ninput 1 keep\nend\npart 2 given 1 2 (y) (x)\nlog 2 2\ninput 1 keep\ninput 2 keep\nend\nforeign 2\ndone 1\nend report\n",
        16,
        Why::BadLog,
    ),
    (
        "report 2\nring 2 x\norder grevlex\nideal I = x\nquery 1 resolution 0 I\nanswer ranks 1 1\ndatum I 0\npart 1 given 1 1 (x)\npart 2 given 1 1 (x^16777215)\npart 3 twist 2 1\nd 1 3\ndone 1\nend report\n",
        11,
        Why::Exponents,
    ),
    (
        "report 2\nring 2 x\norder grevlex\nideal I = x\nquery 1 resolution 0 I\nanswer ranks 1 1\ndatum I 0\npart 1 given 1 1 (x)\npart 2 given 1 1 (x^16777215)\npart 3 times 2 2\nlog 1 3\nd 1 1\ndone 1\nend report\n",
        11,
        Why::Exponents,
    ),
    (
        "report 1\nring 2 x y\norder grevlex\nideal I = x^2, x*y\nquery 1 zero 2 I\nanswer yes stable 1\ndatum I 2\npart 1 given 1 2 (x^2) (x*y)\nd 1 1\npart 2 given 2 1 (y,x)\nd 2 2\npart 3 given 1 0\nd 3 3\nlog 1 1\ninput 1 keep\ninput 2 keep\nend\npart 4 given 0 1 ()\npart 5 given 1 1 (1)\nexact 1 1 4 5\nlog 2 2\ninput 1 keep\nend\npart 6 given 0 0\nexact 2 2 6 6\ntheta 0 5\npart 7 given 2 2 (x^2,0) (0,x*y)\ntheta 1 7\npart 8 given 1 1 (x^2*y)\ntheta 2 8\npart 9 flip 3\nlog 3 9\ninput 1 keep\nend\ncocycles 5 3 4 5\npart 10 given 1 2 (y) (x)\npart 11 flip 2\npart 12 beside 5 11\nlog 4 12\ninput 1 keep\ninput 2 by 1 keep\ninput 3 by 1 keep\npair 2 3 keep\nend\npart 13 given 2 2 (1,0) (0,1)\npart 14 given 2 3 (1,0) (0,1) (0,0)\nrelations 10 4 13 14\nmorphism 8\npart 15 twist 10 1\npart 16 beside 8 15\nlog 5 16\ninput 1 keep\ninput 2 keep\ninput 3 keep\npair 1 3 keep\npair 1 2 by 4 keep\npair 2 3 by 5 zero\nend\npart 17 given 2 1 (0,y)\npart 18 given 1 2 (1) (0)\nchain 1 5 5 17 18\nlog 6 10\ninput 1 keep\ninput 2 keep\npair 1 2 keep\nend\ngrows 0 6 1\npart 19 twist 5 1\npart 20 beside 8 19\nlog 7 20\ninput 1 keep\ninput 2 keep\npair 1 2 keep\nend\nchain 2 5 7 8 5\nstable 1 5\nwhole 5\ndone 1\nend report\n",
        17,
        Why::BadLog,
    ),
    (
        "report 1\nring 2 x y\norder grevlex\nideal I = x^2, x*y\nquery 1 zero 2 I\nanswer yes stable 1\ndatum I 2\npart 1 given 1 2 (x^2) (x*y)\nd 1 1\npart 2 given 2 1 (y,x)\nd 2 2\npart 3 given 1 0\nd 3 3\nlog 1 1\ninput 1 keep\ninput 2 keep\npair 1 2 keep\nend\n",
        19,
        Why::Truncated,
    ),
    (
        "report 2\nring 2 x y\norder grevlex\nideal I = x^2, x*y\nquery 1 zero 2 I\nanswer yes stable 1\ndatum I 2\npart 1 given 1 2 (x^2) (x*y)\nd 1 1\npart 2 given 2 1 (y,x)\nd 2 2\npart 3 given 1 0\nd 3 3\nlog 1 1\ninput 1 keep\ninput 2 keep\nend\npart 4 given 0 1 ()\npart 5 given 1 1 (1)\nexact 1 1 4 5\nlog 2 2\ninput 1 keep\nend\npart 6 given 0 0\nexact 2 2 6 6\ntheta 0 5\npart 7 given 2 2 (x^2,0) (0,x*y)\ntheta 1 7\npart 8 given 1 1 (x^2*y)\ntheta 2 8\npart 9 flip 3\nlog 3 9\ninput 1 keep\nend\ncocycles 5 3 4 5\npart 10 given 1 2 (y) (x)\npart 11 flip 2\npart 12 beside 5 11\nlog 4 12\ninput 1 keep\ninput 2 by 1 keep\ninput 3 by 1 keep\npair 2 3 keep\nend\npart 13 given 2 2 (1,0) (0,1)\npart 14 given 2 3 (1,0) (0,1) (0,0)\nrelations 10 4 13 14\nmorphism 8\npart 15 twist 10 1\npart 16 beside 8 15\nlog 5 16\ninput 1 keep\ninput 2 keep\ninput 3 keep\npair 1 3 keep\npair 1 2 by 4 keep\nskip 2 3 by 1\nend\npart 17 given 2 1 (0,y)\npart 18 given 1 2 (1) (0)\nchain 1 5 5 17 18\nlog 6 10\ninput 1 keep\ninput 2 keep\npair 1 2 keep\nend\ngrows 0 6 1\npart 19 twist 5 1\npart 20 beside 8 19\nlog 7 20\ninput 1 keep\ninput 2 keep\npair 1 2 keep\nend\nchain 2 5 7 8 5\nstable 1 5\nwhole 5\ndone 1\nend report\n",
        17,
        Why::BadLog,
    ),
    (
        "report 2\nring 2 x y\norder grevlex\nideal I = x^2, x*y\nquery 1 zero 2 I\nanswer yes stable 1\ndatum I 2\npart 1 given 1 2 (x^2) (x*y)\nd 1 1\npart 2 given 2 1 (y,x)\nd 2 2\npart 3 given 1 0\nd 3 3\nlog 1 1\ninput 1 keep\ninput 2 keep\npair 1 2 keep\nend\n",
        19,
        Why::Truncated,
    ),
    (
        "report 2\nring 2 x y\norder grevlex\nideal I = x, y\nquery 1 zero 2 I\nanswer no stable 0\ndatum I 2\npart 1 given 1 2 (x) (y)\nd 1 1\npart 2 given 2 1 (y,x)\nd 2 2\npart 3 given 1 0\nd 3 3\nlog 1 1\ninput 1 keep\ninput 2 keep\npair 1 2 keep\nend\npart 4 given 0 1 ()\npart 5 given 1 1 (1)\nexact 1 1 4 5\nlog 2 2\ninput 1 keep\nend\npart 6 given 0 0\nexact 2 2 6 6\ntheta 0 5\npart 7 given 2 2 (x,0) (0,y)\ntheta 1 7\npart 8 given 1 1 (x*y)\ntheta 2 8\npart 9 flip 3\nlog 3 9\ninput 1 keep\nend\ncocycles 5 3 4 5\npart 10 given 1 2 (y) (x)\npart 11 flip 2\npart 12 beside 5 11\nlog 4 12\ninput 1 keep\ninput 2 by 1 keep\ninput 3 by 1 keep\npair 2 3 keep\nend\npart 13 given 2 2 (1,0) (0,1)\npart 14 given 2 3 (1,0) (0,1) (0,0)\nrelations 10 4 13 14\nmorphism 8\npart 15 twist 10 1\npart 16 beside 8 15\nlog 5 16\ninput 1 keep\ninput 2 keep\ninput 3 keep\npair 1 2 keep\nskip 2 3 by 1\npair 1 3 keep\npair 4 5 keep\nend\nchain 1 10 5 7 14\nstable 0 13\nlog 6 10\ninput 1 keep\ninput 2 keep\npair 1 2 keep\nend\nproper 6 1\ndone 1\nend report\n",
        57,
        Why::BadEntry,
    ),
    (
        "report 1\nring 2 x y\norder grevlex\nideal I = x, y\nquery 1 zero 2 I\nanswer no stable 0\ndatum I 2\npart 1 given 1 2 (x) (y)\nd 1 1\npart 2 given 2 1 (y,x)\nd 2 2\npart 3 given 1 0\nd 3 3\nlog 1 1\ninput 1 keep\ninput 2 keep\npair 1 2 keep\nend\npart 4 given 0 1 ()\npart 5 given 1 1 (1)\nexact 1 1 4 5\nlog 2 2\ninput 1 keep\nend\npart 6 given 0 0\nexact 2 2 6 6\ntheta 0 5\npart 7 given 2 2 (x,0) (0,y)\ntheta 1 7\npart 8 given 1 1 (x*y)\ntheta 2 8\npart 9 flip 3\nlog 3 9\ninput 1 keep\nend\ncocycles 5 3 4 5\npart 10 given 1 2 (y) (x)\npart 11 flip 2\npart 12 beside 5 11\nlog 4 12\ninput 1 keep\ninput 2 by 1 keep\ninput 3 by 1 keep\npair 2 3 keep\nend\npart 13 given 2 2 (1,0) (0,1)\npart 14 given 2 3 (1,0) (0,1) (0,0)\nrelations 10 4 13 14\nmorphism 8\npart 15 twist 10 1\npart 16 beside 8 15\nlog 5 16\ninput 1 keep\ninput 2 keep\ninput 3 keep\npair 1 2 keep\npair 1 3 keep\npair 4 5 keep\nskip 2 3 by 1\nend\nchain 1 10 5 7 14\nstable 0 13\nlog 6 10\ninput 1 keep\ninput 2 keep\npair 1 2 keep\nend\nproper 6 1\ndone 1\nend report\n",
        59,
        Why::Form,
    ),
];

// A text, and how many of its queries have an answer and how many have none.
const ACCEPTED: [(&str, u64, u64); 21] = [
    (
        "report 2\nring 3 x y\norder grevlex\nideal I = x*y\nquery 1 class 1 I 0 (x^2*y)\nanswer yes stage 0\ndatum I 1\npart 1 given 1 1 (x*y)\nd 1 1\npart 2 given 1 0\nd 2 2\nlog 1 1\ninput 1 keep\nend\npart 3 given 0 0\nexact 1 1 3 3\npart 4 given 1 1 (1)\ntheta 0 4\npart 5 given 1 1 (x^2*y^2)\ntheta 1 5\npart 6 flip 2\nlog 2 6\ninput 1 keep\nend\npart 7 given 0 1 ()\ncocycles 4 2 7 4\npart 8 flip 1\npart 9 beside 4 8\nlog 3 9\ninput 1 keep\ninput 2 by 1 keep\nend\npart 10 given 1 1 (2)\nrelations 1 3 10 4\nmorphism 5\npart 11 twist 1 1\npart 12 beside 5 11\nlog 4 12\ninput 1 keep\ninput 2 by 1 keep\nend\nchain 1 1 4 10 4\nstable 0 4\npart 13 given 1 1 (x^2*y)\ncoordinates 13\npart 14 given 1 1 (x)\ndies 0 14\ndone 1\nend report",
        1,
        0,
    ),
    (
        "report 2\nring 2 x y\norder grevlex\nideal J = x, y\nquery 1 support 2 J\nanswer ideal y, x, 0\ndatum J 2\npart 1 given 1 2 (x) (y)\nd 1 1\npart 2 given 2 1 (y,x)\nd 2 2\npart 3 given 1 0\nd 3 3\nlog 1 1\ninput 1 keep\ninput 2 keep\npair 1 2 keep\nend\npart 4 given 0 1 ()\npart 5 given 1 1 (1)\nexact 1 1 4 5\nlog 2 2\ninput 1 keep\nend\npart 6 given 0 0\nexact 2 2 6 6\ntheta 0 5\npart 7 given 2 2 (x,0) (0,y)\ntheta 1 7\npart 8 given 1 1 (x*y)\ntheta 2 8\npart 9 flip 3\nlog 3 9\ninput 1 keep\nend\ncocycles 5 3 4 5\npart 10 given 1 2 (y) (x)\npart 11 flip 2\npart 12 beside 5 11\nlog 4 12\ninput 1 keep\ninput 2 by 1 keep\ninput 3 by 1 keep\npair 2 3 keep\nend\npart 13 given 2 2 (1,0) (0,1)\npart 14 given 2 3 (1,0) (0,1) (0,0)\nrelations 10 4 13 14\nmorphism 8\npart 15 twist 10 1\npart 16 beside 8 15\nlog 5 16\ninput 1 keep\ninput 2 keep\ninput 3 keep\npair 1 2 keep\npair 1 3 keep\npair 4 5 keep\nskip 2 3 by 1\nend\nchain 1 10 5 7 14\nstable 0 13\npart 17 beside 5 10\nlog 6 17\ninput 1 keep\ninput 2 by 1 keep\ninput 3 by 1 keep\npair 2 3 keep\nend\nannihilator 10 6 13 14\ndone 1\nend report\n",
        1,
        0,
    ),
    (
        "report 2\nring 2 x y\norder grevlex\nideal J = x, y\nquery 1 support 2 J\nanswer ideal 1*y^1, x*1\ndatum J 2\npart 1 given 1 2 (x) (y)\nd 1 1\npart 2 given 2 1 (y,x)\nd 2 2\npart 3 given 1 0\nd 3 3\nlog 1 1\ninput 1 keep\ninput 2 keep\npair 1 2 keep\nend\npart 4 given 0 1 ()\npart 5 given 1 1 (1)\nexact 1 1 4 5\nlog 2 2\ninput 1 keep\nend\npart 6 given 0 0\nexact 2 2 6 6\ntheta 0 5\npart 7 given 2 2 (x,0) (0,y)\ntheta 1 7\npart 8 given 1 1 (x*y)\ntheta 2 8\npart 9 flip 3\nlog 3 9\ninput 1 keep\nend\ncocycles 5 3 4 5\npart 10 given 1 2 (y) (x)\npart 11 flip 2\npart 12 beside 5 11\nlog 4 12\ninput 1 keep\ninput 2 by 1 keep\ninput 3 by 1 keep\npair 2 3 keep\nend\npart 13 given 2 2 (1,0) (0,1)\npart 14 given 2 3 (1,0) (0,1) (0,0)\nrelations 10 4 13 14\nmorphism 8\npart 15 twist 10 1\npart 16 beside 8 15\nlog 5 16\ninput 1 keep\ninput 2 keep\ninput 3 keep\npair 1 2 keep\npair 1 3 keep\npair 4 5 keep\nskip 2 3 by 1\nend\nchain 1 10 5 7 14\nstable 0 13\npart 17 beside 5 10\nlog 6 17\ninput 1 keep\ninput 2 by 1 keep\ninput 3 by 1 keep\npair 2 3 keep\nend\nannihilator 10 6 13 14\ndone 1\nend report\n",
        1,
        0,
    ),
    (
        "report 2\nring 2 x y\norder grevlex\nideal I = x^2, x*y\nquery 1 zero 0 I\nunanswered budget lift 3\ndone 1\nend report\n",
        0,
        1,
    ),
    (
        "report 2\nring 2 x y\norder grevlex\nideal I = x^2, x*y\nquery 1 zero 0 I\nunanswered budget whole\ndone 1\nend report\n",
        0,
        1,
    ),
    (
        "report 2\nring 2 x y\norder grevlex\nideal I = x^2, x*y\nquery 1 zero 0 I\nunanswered exponents resolve 1\ndone 1\nend report\n",
        0,
        1,
    ),
    (
        "report 2\nring 2 x y\norder grevlex\nideal I = x^2, x*y\nquery 1 class 0 I 0 (1)\nrefused wrong length 7 needed 9\ndone 1\nend report\n",
        0,
        1,
    ),
    (
        "report 2\nring 2 x y\norder grevlex\nideal I = x^2, x*y\nquery 1 map 0 I I\nrefused not contained generator 5\ndone 1\nend report\n",
        0,
        1,
    ),
    ("report 2\nring 17 x\norder lex\nend report\n", 0, 0),
    ("report 1\nring 13 x\norder lex\nend report\n", 0, 0),
    (
        "report 2\nring 2 x y\norder grevlex\nideal X = x\nquery 1 member X y\nanswer no\npart 1 given 1 1 (x)\nd 1 1\nlog 1 1\ninput 1 keep\nend\npart 2 given 1 1 (x)\nlog 2 2\ninput 1 keep\nend\nforeign 2\ndone 1\nend report\n",
        1,
        0,
    ),
    (
        "report 2\nring 2 x\norder grevlex\nideal I = x\nquery 1 resolution 0 I\nanswer ranks 1 1\ndatum I 0\npart 1 given 1 1 (x)\npart 2 given 1 1 (x^16777215)\npart 3 twist 2 1\nd 1 1\ndone 1\nend report\n",
        1,
        0,
    ),
    (
        "report 1\nring 2 x y\norder grevlex\nideal I = x^2, x*y\nquery 1 zero 2 I\nanswer yes stable 1\ndatum I 2\npart 1 given 1 2 (x^2) (x*y)\nd 1 1\npart 2 given 2 1 (y,x)\nd 2 2\npart 3 given 1 0\nd 3 3\nlog 1 1\ninput 1 keep\ninput 2 keep\npair 1 2 keep\nend\npart 4 given 0 1 ()\npart 5 given 1 1 (1)\nexact 1 1 4 5\nlog 2 2\ninput 1 keep\nend\npart 6 given 0 0\nexact 2 2 6 6\ntheta 0 5\npart 7 given 2 2 (x^2,0) (0,x*y)\ntheta 1 7\npart 8 given 1 1 (x^2*y)\ntheta 2 8\npart 9 flip 3\nlog 3 9\ninput 1 keep\nend\ncocycles 5 3 4 5\npart 10 given 1 2 (y) (x)\npart 11 flip 2\npart 12 beside 5 11\nlog 4 12\ninput 1 keep\ninput 2 by 1 keep\ninput 3 by 1 keep\npair 2 3 keep\nend\npart 13 given 2 2 (1,0) (0,1)\npart 14 given 2 3 (1,0) (0,1) (0,0)\nrelations 10 4 13 14\nmorphism 8\npart 15 twist 10 1\npart 16 beside 8 15\nlog 5 16\ninput 1 keep\ninput 2 keep\ninput 3 keep\npair 1 3 keep\npair 1 2 by 4 keep\npair 2 3 by 5 zero\nend\npart 17 given 2 1 (0,y)\npart 18 given 1 2 (1) (0)\nchain 1 5 5 17 18\nlog 6 10\ninput 1 keep\ninput 2 keep\npair 1 2 keep\nend\ngrows 0 6 1\npart 19 twist 5 1\npart 20 beside 8 19\nlog 7 20\ninput 1 keep\ninput 2 keep\npair 1 2 keep\nend\nchain 2 5 7 8 5\nstable 1 5\nwhole 5\ndone 1\nend report\n",
        1,
        0,
    ),
    (
        "report 2\nring 2 x y\norder grevlex\nideal I = x^2, x*y\nquery 1 zero 2 I\nanswer yes stable 1\ndatum I 2\npart 1 given 1 2 (x^2) (x*y)\nd 1 1\npart 2 given 2 1 (y,x)\nd 2 2\npart 3 given 1 0\nd 3 3\nlog 1 1\ninput 1 keep\ninput 2 keep\npair 1 2 keep\nend\npart 4 given 0 1 ()\npart 5 given 1 1 (1)\nexact 1 1 4 5\nlog 2 2\ninput 1 keep\nend\npart 6 given 0 0\nexact 2 2 6 6\ntheta 0 5\npart 7 given 2 2 (x^2,0) (0,x*y)\ntheta 1 7\npart 8 given 1 1 (x^2*y)\ntheta 2 8\npart 9 flip 3\nlog 3 9\ninput 1 keep\nend\ncocycles 5 3 4 5\npart 10 given 1 2 (y) (x)\npart 11 flip 2\npart 12 beside 5 11\nlog 4 12\ninput 1 keep\ninput 2 by 1 keep\ninput 3 by 1 keep\npair 2 3 keep\nend\npart 13 given 2 2 (1,0) (0,1)\npart 14 given 2 3 (1,0) (0,1) (0,0)\nrelations 10 4 13 14\nmorphism 8\npart 15 twist 10 1\npart 16 beside 8 15\nlog 5 16\ninput 1 keep\ninput 2 keep\ninput 3 keep\npair 1 3 keep\npair 1 2 by 4 keep\nskip 2 3 by 1\nend\npart 17 given 2 1 (0,y)\npart 18 given 1 2 (1) (0)\nchain 1 5 5 17 18\nlog 6 10\ninput 1 keep\ninput 2 keep\npair 1 2 keep\nend\ngrows 0 6 1\npart 19 twist 5 1\npart 20 beside 8 19\nlog 7 20\ninput 1 keep\ninput 2 keep\npair 1 2 keep\nend\nchain 2 5 7 8 5\nstable 1 5\nwhole 5\ndone 1\nend report\n",
        1,
        0,
    ),
    (
        "report 1\nring 2 x y\norder grevlex\nideal I = x, y\nquery 1 zero 2 I\nanswer no stable 0\ndatum I 2\npart 1 given 1 2 (x) (y)\nd 1 1\npart 2 given 2 1 (y,x)\nd 2 2\npart 3 given 1 0\nd 3 3\nlog 1 1\ninput 1 keep\ninput 2 keep\npair 1 2 keep\nend\npart 4 given 0 1 ()\npart 5 given 1 1 (1)\nexact 1 1 4 5\nlog 2 2\ninput 1 keep\nend\npart 6 given 0 0\nexact 2 2 6 6\ntheta 0 5\npart 7 given 2 2 (x,0) (0,y)\ntheta 1 7\npart 8 given 1 1 (x*y)\ntheta 2 8\npart 9 flip 3\nlog 3 9\ninput 1 keep\nend\ncocycles 5 3 4 5\npart 10 given 1 2 (y) (x)\npart 11 flip 2\npart 12 beside 5 11\nlog 4 12\ninput 1 keep\ninput 2 by 1 keep\ninput 3 by 1 keep\npair 2 3 keep\nend\npart 13 given 2 2 (1,0) (0,1)\npart 14 given 2 3 (1,0) (0,1) (0,0)\nrelations 10 4 13 14\nmorphism 8\npart 15 twist 10 1\npart 16 beside 8 15\nlog 5 16\ninput 1 keep\ninput 2 keep\ninput 3 keep\npair 1 2 keep\npair 1 3 keep\npair 2 3 keep\npair 4 5 by 6 zero\nend\nchain 1 10 5 7 14\nstable 0 13\nlog 6 10\ninput 1 keep\ninput 2 keep\npair 1 2 keep\nend\nproper 6 1\ndone 1\nend report\n",
        1,
        0,
    ),
    (
        "report 2\nring 2 x y\norder grevlex\nideal I = x, y\nquery 1 zero 2 I\nanswer no stable 0\ndatum I 2\npart 1 given 1 2 (x) (y)\nd 1 1\npart 2 given 2 1 (y,x)\nd 2 2\npart 3 given 1 0\nd 3 3\nlog 1 1\ninput 1 keep\ninput 2 keep\npair 1 2 keep\nend\npart 4 given 0 1 ()\npart 5 given 1 1 (1)\nexact 1 1 4 5\nlog 2 2\ninput 1 keep\nend\npart 6 given 0 0\nexact 2 2 6 6\ntheta 0 5\npart 7 given 2 2 (x,0) (0,y)\ntheta 1 7\npart 8 given 1 1 (x*y)\ntheta 2 8\npart 9 flip 3\nlog 3 9\ninput 1 keep\nend\ncocycles 5 3 4 5\npart 10 given 1 2 (y) (x)\npart 11 flip 2\npart 12 beside 5 11\nlog 4 12\ninput 1 keep\ninput 2 by 1 keep\ninput 3 by 1 keep\npair 2 3 keep\nend\npart 13 given 2 2 (1,0) (0,1)\npart 14 given 2 3 (1,0) (0,1) (0,0)\nrelations 10 4 13 14\nmorphism 8\npart 15 twist 10 1\npart 16 beside 8 15\nlog 5 16\ninput 1 keep\ninput 2 keep\ninput 3 keep\npair 1 2 keep\npair 1 3 keep\npair 4 5 keep\nskip 2 3 by 1\nend\nchain 1 10 5 7 14\nstable 0 13\nlog 6 10\ninput 1 keep\ninput 2 keep\npair 1 2 keep\nend\nproper 6 1\ndone 1\nend report\n",
        1,
        0,
    ),
    (
        "report 2\nring 2 x y\norder grevlex\nideal I = x, y\nquery 1 zero 2 I\nanswer no stable 0\ndatum I 2\npart 1 given 1 2 (x) (y)\nd 1 1\npart 2 given 2 1 (y,x)\nd 2 2\npart 3 given 1 0\nd 3 3\nlog 1 1\ninput 1 keep\ninput 2 keep\npair 1 2 keep\nend\npart 4 given 0 1 ()\npart 5 given 1 1 (1)\nexact 1 1 4 5\nlog 2 2\ninput 1 keep\nend\npart 6 given 0 0\nexact 2 2 6 6\ntheta 0 5\npart 7 given 2 2 (x,0) (0,y)\ntheta 1 7\npart 8 given 1 1 (x*y)\ntheta 2 8\npart 9 flip 3\nlog 3 9\ninput 1 keep\nend\ncocycles 5 3 4 5\npart 10 given 1 2 (y) (x)\npart 11 flip 2\npart 12 beside 5 11\nlog 4 12\ninput 1 keep\ninput 2 by 1 keep\ninput 3 by 1 keep\npair 2 3 keep\nend\npart 13 given 2 2 (1,0) (0,1)\npart 14 given 2 3 (1,0) (0,1) (0,0)\nrelations 10 4 13 14\nmorphism 8\npart 15 twist 10 1\npart 16 beside 8 15\nlog 5 16\ninput 1 keep\ninput 2 keep\ninput 3 keep\npair 1 2 keep\npair 1 3 keep\nskip 2 3 by 1\npair 4 5 keep\nend\nchain 1 10 5 7 14\nstable 0 13\nlog 6 10\ninput 1 keep\ninput 2 keep\npair 1 2 keep\nend\nproper 6 1\ndone 1\nend report\n",
        1,
        0,
    ),
    (
        "report 2\nring 2 x y\norder grevlex\nideal I = x, y\nquery 1 zero 2 I\nanswer no stable 0\ndatum I 2\npart 1 given 1 2 (x) (y)\nd 1 1\npart 2 given 2 1 (y,x)\nd 2 2\npart 3 given 1 0\nd 3 3\nlog 1 1\ninput 1 keep\ninput 2 keep\npair 1 2 keep\nend\npart 4 given 0 1 ()\npart 5 given 1 1 (1)\nexact 1 1 4 5\nlog 2 2\ninput 1 keep\nend\npart 6 given 0 0\nexact 2 2 6 6\ntheta 0 5\npart 7 given 2 2 (x,0) (0,y)\ntheta 1 7\npart 8 given 1 1 (x*y)\ntheta 2 8\npart 9 flip 3\nlog 3 9\ninput 1 keep\nend\ncocycles 5 3 4 5\npart 10 given 1 2 (y) (x)\npart 11 flip 2\npart 12 beside 5 11\nlog 4 12\ninput 1 keep\ninput 2 by 1 keep\ninput 3 by 1 keep\npair 2 3 keep\nend\npart 13 given 2 2 (1,0) (0,1)\npart 14 given 2 3 (1,0) (0,1) (0,0)\nrelations 10 4 13 14\nmorphism 8\npart 15 twist 10 1\npart 16 beside 8 15\nlog 5 16\ninput 1 keep\ninput 2 keep\ninput 3 keep\npair 1 2 keep\npair 1 3 keep\npair 4 5 keep\npair 2 3 by 6 zero\nend\nchain 1 10 5 7 14\nstable 0 13\nlog 6 10\ninput 1 keep\ninput 2 keep\npair 1 2 keep\nend\nproper 6 1\ndone 1\nend report\n",
        1,
        0,
    ),
    (
        "report 1\nring 3 x y\norder grevlex\nideal I = x*y\nquery 1 class 1 I 0 (x^2*y)\nanswer yes stage 0\ndatum I 1\npart 1 given 1 1 (x*y)\nd 1 1\npart 2 given 1 0\nd 2 2\nlog 1 1\ninput 1 keep\nend\npart 3 given 0 0\nexact 1 1 3 3\npart 4 given 1 1 (1)\npart 5 times 4 4\npart 6 times 5 5\npart 7 times 6 6\npart 8 times 7 7\npart 9 times 8 8\npart 10 times 9 9\npart 11 times 10 10\npart 12 times 11 11\npart 13 times 12 12\npart 14 times 13 13\npart 15 times 14 14\npart 16 times 15 15\npart 17 times 16 16\npart 18 times 17 17\npart 19 times 18 18\npart 20 times 19 19\npart 21 times 20 20\npart 22 times 21 21\npart 23 times 22 22\npart 24 times 23 23\npart 25 times 24 24\npart 26 times 25 25\npart 27 times 26 26\npart 28 times 27 27\npart 29 times 28 28\npart 30 times 29 29\npart 31 times 30 30\npart 32 times 31 31\npart 33 times 32 32\npart 34 times 33 33\npart 35 times 34 34\npart 36 times 35 35\npart 37 times 36 36\npart 38 times 37 37\npart 39 times 38 38\npart 40 times 39 39\npart 41 times 40 40\npart 42 times 41 41\npart 43 times 42 42\npart 44 times 43 43\ntheta 0 44\npart 45 given 1 1 (x^2*y^2)\ntheta 1 45\npart 46 flip 2\nlog 2 46\ninput 1 keep\nend\npart 47 given 0 1 ()\ncocycles 4 2 47 4\npart 48 flip 1\npart 49 beside 4 48\nlog 3 49\ninput 1 keep\ninput 2 by 1 keep\nend\npart 50 given 1 1 (2)\nrelations 1 3 50 4\nmorphism 45\npart 51 twist 1 1\npart 52 beside 45 51\nlog 4 52\ninput 1 keep\ninput 2 by 1 keep\nend\nchain 1 1 4 50 4\nstable 0 4\npart 53 given 1 1 (x^2*y)\ncoordinates 53\npart 54 given 1 1 (x)\ndies 0 54\ndone 1\nend report\n",
        1,
        0,
    ),
    (
        "report 1\nring 2 a b c d e f\norder grevlex\nideal I = b*d+a*e, c*d+a*f, c*e+b*f\nquery 1 resolution 2 I\nanswer ranks 1 3 2 0\ndatum I 2\npart 1 given 1 3 (b*d+a*e) (c*d+a*f) (c*e+b*f)\nd 1 1\npart 2 given 3 2 (f,e,d) (c,b,a)\nd 2 2\npart 3 given 2 0\nd 3 3\nlog 1 1\ninput 1 keep\ninput 2 keep\ninput 3 keep\npair 2 3 by 1 keep\npair 1 2 by 3 keep\npair 4 5 keep\npair 1 3 by 3 1 5 4 zero\nend\npart 4 given 0 2 () ()\npart 5 given 2 3 (1,0) (0,1) (c,f)\nexact 1 1 4 5\nlog 2 2\ninput 1 keep\ninput 2 keep\npair 1 2 keep\nend\npart 6 given 0 0\nexact 2 2 6 6\ndone 1\nquery 2 zero 3 I\nanswer yes stable 0\ndatum I 3\npart 1 given 1 3 (b*d+a*e) (c*d+a*f) (c*e+b*f)\nd 1 1\npart 2 given 3 2 (f,e,d) (c,b,a)\nd 2 2\npart 3 given 2 0\nd 3 3\npart 4 given 0 0\nd 4 4\nlog 1 1\ninput 1 keep\ninput 2 keep\ninput 3 keep\npair 2 3 by 1 keep\npair 1 2 by 3 keep\npair 4 5 keep\npair 1 3 by 3 1 5 4 zero\nend\npart 5 given 0 2 () ()\npart 6 given 2 3 (1,0) (0,1) (c,f)\nexact 1 1 5 6\nlog 2 2\ninput 1 keep\ninput 2 keep\npair 1 2 keep\nend\nexact 2 2 4 4\nlog 3 3\nend\nexact 3 3 4 4\npart 7 given 1 1 (1)\ntheta 0 7\npart 8 given 3 3 (b*d+a*e,0,0) (0,c*d+a*f,0) (0,0,c*e+b*f)\ntheta 1 8\npart 9 given 2 2 (c*d*e+b*d*f+a*e*f,d*e*f) (a*b*c,b*c*d+a*c*e+a*b*f)\ntheta 2 9\ntheta 3 4\npart 10 flip 4\nlog 4 10\nend\ncocycles 4 4 4 4\npart 11 flip 3\npart 12 beside 4 11\nlog 5 12\ninput 1 keep\ninput 2 keep\nend\nrelations 4 5 3 5\nmorphism 4\npart 13 twist 4 1\npart 14 beside 4 13\nlog 6 14\nend\nchain 1 4 6 4 4\nstable 0 4\nwhole 4\ndone 2\nend report\n",
        2,
        0,
    ),
    (
        "report 1\nring 3 x y\norder grevlex\nideal I = x*y\nquery 1 class 1 I 0 (x^2*y)\nanswer yes stage 0\ndatum I 1\npart 1 given 1 1 (x*y)\nd 1 1\npart 2 given 1 0\nd 2 2\nlog 1 1\ninput 1 keep\nend\npart 3 given 0 0\nexact 1 1 3 3\npart 4 given 1 1 (1)\ntheta 0 4\npart 5 given 1 1 (x^2*y^2)\ntheta 1 5\npart 6 flip 2\nlog 2 6\ninput 1 keep\nend\npart 7 given 0 1 ()\ncocycles 4 2 7 4\npart 8 flip 1\npart 9 beside 4 8\nlog 3 9\ninput 1 keep\ninput 2 by 1 keep\nend\npart 10 given 1 1 (2)\nrelations 1 3 10 4\nmorphism 5\npart 11 twist 1 1\npart 12 beside 5 11\nlog 4 12\ninput 1 keep\ninput 2 by 1 keep\nend\nchain 1 1 4 10 4\nstable 0 4\npart 13 given 1 1 (x^2*y)\ncoordinates 13\npart 14 given 1 1 (x)\ndies 0 14\ndone 1\nend report\n",
        1,
        0,
    ),
];

fn is_refused(found: Checked, at: u64, reason: Why) -> bool {
    match found {
        Checked::Refused { line, why } => line == at && why == reason,
        Checked::Accepted { .. } => false,
    }
}

fn is_accepted(found: Checked, answers: u64, others: u64) -> bool {
    match found {
        Checked::Accepted { verdicts, passed } => verdicts == answers && passed == others,
        Checked::Refused { .. } => false,
    }
}

#[test]
fn texts_are_refused(rt: HostRuntime) -> Result<(), Fail> {
    for (text, line, why) in REFUSED {
        let found = check(rt.alloc(), text.as_bytes())?;
        assert!(rt; is_refused(found, line, why), "{text}");
    }
    Ok(())
}

#[test]
fn texts_are_accepted(rt: HostRuntime) -> Result<(), Fail> {
    for (text, verdicts, passed) in ACCEPTED {
        let found = check(rt.alloc(), text.as_bytes())?;
        assert!(rt; is_accepted(found, verdicts, passed), "{text}");
    }
    Ok(())
}
