// A report on all kinds of questions, and its lines with another number, one kind of line after the other: the first bad line and its reason. The report
// and what is expected are those of an independent program.
use crate::{Checked, check};
use fm_conditions::Why;
use std::alloc::{AllocError, Global};
use std::test::Fail;

const REPORT: &str =
    "report 2\nring 2 x y\norder grevlex\nideal I = x^2, x*y\nideal J = x, y\nideal L = x^2, y\nideal X = x\nquery 1 zero 2 I\nanswer yes stable 1\ndatum I 2\npart 1 given 1 2 (x^2) (x*y)\nd 1 1\npart 2 given 2 1 (y,x)\nd 2 2\npart 3 given 1 0\nd 3 3\nlog 1 1\ninput 1 keep\ninput 2 keep\npair 1 2 keep\nend\npart 4 given 0 1 ()\npart 5 given 1 1 (1)\nexact 1 1 4 5\nlog 2 2\ninput 1 keep\nend\npart 6 given 0 0\nexact 2 2 6 6\ntheta 0 5\npart 7 given 2 2 (x^2,0) (0,x*y)\ntheta 1 7\npart 8 given 1 1 (x^2*y)\ntheta 2 8\npart 9 flip 3\nlog 3 9\ninput 1 keep\nend\ncocycles 5 3 4 5\npart 10 given 1 2 (y) (x)\npart 11 flip 2\npart 12 beside 5 11\nlog 4 12\ninput 1 keep\ninput 2 by 1 keep\ninput 3 by 1 keep\npair 2 3 keep\nend\npart 13 given 2 2 (1,0) (0,1)\npart 14 given 2 3 (1,0) (0,1) (0,0)\nrelations 10 4 13 14\nmorphism 8\npart 15 twist 10 1\npart 16 beside 8 15\nlog 5 16\ninput 1 keep\ninput 2 keep\ninput 3 keep\npair 1 3 keep\npair 1 2 by 4 keep\nskip 2 3 by 1\nend\npart 17 given 2 1 (0,y)\npart 18 given 1 2 (1) (0)\nchain 1 5 5 17 18\nlog 6 10\ninput 1 keep\ninput 2 keep\npair 1 2 keep\nend\ngrows 0 6 1\npart 19 twist 5 1\npart 20 beside 8 19\nlog 7 20\ninput 1 keep\ninput 2 keep\npair 1 2 keep\nend\nchain 2 5 7 8 5\nstable 1 5\nwhole 5\ndone 1\nquery 2 class 2 J 0 (1)\nanswer no\ndatum J 2\npart 1 given 1 2 (x) (y)\nd 1 1\npart 2 given 2 1 (y,x)\nd 2 2\npart 3 given 1 0\nd 3 3\nlog 1 1\ninput 1 keep\ninput 2 keep\npair 1 2 keep\nend\npart 4 given 0 1 ()\npart 5 given 1 1 (1)\nexact 1 1 4 5\nlog 2 2\ninput 1 keep\nend\npart 6 given 0 0\nexact 2 2 6 6\ntheta 0 5\npart 7 given 2 2 (x,0) (0,y)\ntheta 1 7\npart 8 given 1 1 (x*y)\ntheta 2 8\npart 9 flip 3\nlog 3 9\ninput 1 keep\nend\ncocycles 5 3 4 5\npart 10 given 1 2 (y) (x)\npart 11 flip 2\npart 12 beside 5 11\nlog 4 12\ninput 1 keep\ninput 2 by 1 keep\ninput 3 by 1 keep\npair 2 3 keep\nend\npart 13 given 2 2 (1,0) (0,1)\npart 14 given 2 3 (1,0) (0,1) (0,0)\nrelations 10 4 13 14\nmorphism 8\npart 15 twist 10 1\npart 16 beside 8 15\nlog 5 16\ninput 1 keep\ninput 2 keep\ninput 3 keep\npair 1 2 keep\npair 1 3 keep\npair 4 5 keep\nskip 2 3 by 1\nend\nchain 1 10 5 7 14\nstable 0 13\ncoordinates 5\nlog 6 10\ninput 1 keep\ninput 2 keep\npair 1 2 keep\nend\nlives 0 6\ndone 2\nquery 3 class 2 I 0 (1)\nanswer yes stage 1\ndatum I 2\npart 1 given 1 2 (x^2) (x*y)\nd 1 1\npart 2 given 2 1 (y,x)\nd 2 2\npart 3 given 1 0\nd 3 3\nlog 1 1\ninput 1 keep\ninput 2 keep\npair 1 2 keep\nend\npart 4 given 0 1 ()\npart 5 given 1 1 (1)\nexact 1 1 4 5\nlog 2 2\ninput 1 keep\nend\npart 6 given 0 0\nexact 2 2 6 6\ntheta 0 5\npart 7 given 2 2 (x^2,0) (0,x*y)\ntheta 1 7\npart 8 given 1 1 (x^2*y)\ntheta 2 8\npart 9 flip 3\nlog 3 9\ninput 1 keep\nend\ncocycles 5 3 4 5\npart 10 given 1 2 (y) (x)\npart 11 flip 2\npart 12 beside 5 11\nlog 4 12\ninput 1 keep\ninput 2 by 1 keep\ninput 3 by 1 keep\npair 2 3 keep\nend\npart 13 given 2 2 (1,0) (0,1)\npart 14 given 2 3 (1,0) (0,1) (0,0)\nrelations 10 4 13 14\nmorphism 8\npart 15 twist 10 1\npart 16 beside 8 15\nlog 5 16\ninput 1 keep\ninput 2 keep\ninput 3 keep\npair 1 3 keep\npair 1 2 by 4 keep\nskip 2 3 by 1\nend\npart 17 given 2 1 (0,y)\npart 18 given 1 2 (1) (0)\nchain 1 5 5 17 18\nlog 6 10\ninput 1 keep\ninput 2 keep\npair 1 2 keep\nend\ngrows 0 6 1\npart 19 twist 5 1\npart 20 beside 8 19\nlog 7 20\ninput 1 keep\ninput 2 keep\npair 1 2 keep\nend\nchain 2 5 7 8 5\nstable 1 5\ncoordinates 5\nlives 0 6\ndies 1 5\ndone 3\nquery 4 invert 2 J x\nanswer yes power 1\ndatum J 2\npart 1 given 1 2 (x) (y)\nd 1 1\npart 2 given 2 1 (y,x)\nd 2 2\npart 3 given 1 0\nd 3 3\nlog 1 1\ninput 1 keep\ninput 2 keep\npair 1 2 keep\nend\npart 4 given 0 1 ()\npart 5 given 1 1 (1)\nexact 1 1 4 5\nlog 2 2\ninput 1 keep\nend\npart 6 given 0 0\nexact 2 2 6 6\ntheta 0 5\npart 7 given 2 2 (x,0) (0,y)\ntheta 1 7\npart 8 given 1 1 (x*y)\ntheta 2 8\npart 9 flip 3\nlog 3 9\ninput 1 keep\nend\ncocycles 5 3 4 5\npart 10 given 1 2 (y) (x)\npart 11 flip 2\npart 12 beside 5 11\nlog 4 12\ninput 1 keep\ninput 2 by 1 keep\ninput 3 by 1 keep\npair 2 3 keep\nend\npart 13 given 2 2 (1,0) (0,1)\npart 14 given 2 3 (1,0) (0,1) (0,0)\nrelations 10 4 13 14\nmorphism 8\npart 15 twist 10 1\npart 16 beside 8 15\nlog 5 16\ninput 1 keep\ninput 2 keep\ninput 3 keep\npair 1 2 keep\npair 1 3 keep\npair 4 5 keep\nskip 2 3 by 1\nend\nchain 1 10 5 7 14\nstable 0 13\npart 17 given 2 1 (0,1)\npower 17\nlog 6 10\ninput 1 keep\ninput 2 keep\npair 1 2 keep\nend\nleast 6 1\ndone 4\nquery 5 invert 2 J x+1\nanswer no\ndatum J 2\npart 1 given 1 2 (x) (y)\nd 1 1\npart 2 given 2 1 (y,x)\nd 2 2\npart 3 given 1 0\nd 3 3\nlog 1 1\ninput 1 keep\ninput 2 keep\npair 1 2 keep\nend\npart 4 given 0 1 ()\npart 5 given 1 1 (1)\nexact 1 1 4 5\nlog 2 2\ninput 1 keep\nend\npart 6 given 0 0\nexact 2 2 6 6\ntheta 0 5\npart 7 given 2 2 (x,0) (0,y)\ntheta 1 7\npart 8 given 1 1 (x*y)\ntheta 2 8\npart 9 flip 3\nlog 3 9\ninput 1 keep\nend\ncocycles 5 3 4 5\npart 10 given 1 2 (y) (x)\npart 11 flip 2\npart 12 beside 5 11\nlog 4 12\ninput 1 keep\ninput 2 by 1 keep\ninput 3 by 1 keep\npair 2 3 keep\nend\npart 13 given 2 2 (1,0) (0,1)\npart 14 given 2 3 (1,0) (0,1) (0,0)\nrelations 10 4 13 14\nmorphism 8\npart 15 twist 10 1\npart 16 beside 8 15\nlog 5 16\ninput 1 keep\ninput 2 keep\ninput 3 keep\npair 1 2 keep\npair 1 3 keep\npair 4 5 keep\nskip 2 3 by 1\nend\nchain 1 10 5 7 14\nstable 0 13\npart 17 given 1 1 (x+1)\npart 18 beside 17 10\nlog 6 18\ninput 1 keep\ninput 2 keep\ninput 3 by 1 keep\npair 2 3 keep\npair 1 3 by 3 keep\npair 4 5 keep\nskip 1 2 by 3\nend\npart 19 given 2 2 (1,y) (0,x+1)\ncolon 1 10 6 19 14\nsettles 1 13\nlog 7 10\ninput 1 keep\ninput 2 keep\npair 1 2 keep\nend\nproper 7 1\ndone 5\nquery 6 support 2 J\nanswer ideal y, x\ndatum J 2\npart 1 given 1 2 (x) (y)\nd 1 1\npart 2 given 2 1 (y,x)\nd 2 2\npart 3 given 1 0\nd 3 3\nlog 1 1\ninput 1 keep\ninput 2 keep\npair 1 2 keep\nend\npart 4 given 0 1 ()\npart 5 given 1 1 (1)\nexact 1 1 4 5\nlog 2 2\ninput 1 keep\nend\npart 6 given 0 0\nexact 2 2 6 6\ntheta 0 5\npart 7 given 2 2 (x,0) (0,y)\ntheta 1 7\npart 8 given 1 1 (x*y)\ntheta 2 8\npart 9 flip 3\nlog 3 9\ninput 1 keep\nend\ncocycles 5 3 4 5\npart 10 given 1 2 (y) (x)\npart 11 flip 2\npart 12 beside 5 11\nlog 4 12\ninput 1 keep\ninput 2 by 1 keep\ninput 3 by 1 keep\npair 2 3 keep\nend\npart 13 given 2 2 (1,0) (0,1)\npart 14 given 2 3 (1,0) (0,1) (0,0)\nrelations 10 4 13 14\nmorphism 8\npart 15 twist 10 1\npart 16 beside 8 15\nlog 5 16\ninput 1 keep\ninput 2 keep\ninput 3 keep\npair 1 2 keep\npair 1 3 keep\npair 4 5 keep\nskip 2 3 by 1\nend\nchain 1 10 5 7 14\nstable 0 13\npart 17 beside 5 10\nlog 6 17\ninput 1 keep\ninput 2 by 1 keep\ninput 3 by 1 keep\npair 2 3 keep\nend\nannihilator 10 6 13 14\ndone 6\nquery 7 map 1 J X\nanswer zero yes one yes onto no\ndatum J 1\npart 1 given 1 2 (x) (y)\nd 1 1\npart 2 given 2 1 (y,x)\nd 2 2\nlog 1 1\ninput 1 keep\ninput 2 keep\npair 1 2 keep\nend\npart 3 given 0 1 ()\npart 4 given 1 1 (1)\nexact 1 1 3 4\ntheta 0 4\npart 5 given 2 2 (x,0) (0,y)\ntheta 1 5\npart 6 given 2 1 (x,y)\npart 7 flip 2\nlog 2 7\ninput 1 keep\ninput 2 keep\npair 1 2 keep\nend\ncocycles 6 2 3 4\npart 8 flip 1\npart 9 beside 6 8\nlog 3 9\ninput 1 keep\ninput 2 by 1 keep\nend\nrelations 4 3 4 4\nmorphism 4\npart 10 twist 4 1\npart 11 beside 4 10\nlog 4 11\ninput 1 keep\ninput 2 by 1 keep\nend\nchain 1 4 4 4 4\nstable 0 4\ndatum X 1\npart 12 given 1 1 (x)\nd 1 12\npart 13 given 1 0\nd 2 13\nlog 5 12\ninput 1 keep\nend\npart 14 given 0 0\nexact 1 5 14 14\ntheta 0 4\ntheta 1 12\npart 15 flip 13\nlog 6 15\ninput 1 keep\nend\ncocycles 4 6 3 4\npart 16 flip 12\npart 17 beside 4 16\nlog 7 17\ninput 1 keep\ninput 2 by 1 keep\nend\nrelations 12 7 4 4\nmorphism 12\npart 18 twist 12 1\npart 19 beside 12 18\nlog 8 19\ninput 1 keep\ninput 2 by 1 keep\nend\nchain 1 12 8 4 4\nstable 0 4\nlambda 0 4\npart 20 given 2 1 (1,0)\nlambda 1 20\nphi 12\nnull 4\npart 21 beside 12 12\nlog 9 21\ninput 1 keep\ninput 2 by 1 keep\nend\nfibre 4 9 4 4\none 4\npart 22 twist 21 1\npart 23 beside 12 22\nlog 10 23\ninput 1 keep\ninput 2 by 1 keep\ninput 3 by 1 2 keep\nend\npart 24 given 1 2 (1) (0)\nlink 1 12 10 20 24\npart 25 given 2 1 (0,1)\ncloses 0 25\nshort 0 9 1\ndone 7\nquery 8 map 2 J J\nanswer zero no one yes onto yes stage 0\ndatum J 2\npart 1 given 1 2 (x) (y)\nd 1 1\npart 2 given 2 1 (y,x)\nd 2 2\npart 3 given 1 0\nd 3 3\nlog 1 1\ninput 1 keep\ninput 2 keep\npair 1 2 keep\nend\npart 4 given 0 1 ()\npart 5 given 1 1 (1)\nexact 1 1 4 5\nlog 2 2\ninput 1 keep\nend\npart 6 given 0 0\nexact 2 2 6 6\ntheta 0 5\npart 7 given 2 2 (x,0) (0,y)\ntheta 1 7\npart 8 given 1 1 (x*y)\ntheta 2 8\npart 9 flip 3\nlog 3 9\ninput 1 keep\nend\ncocycles 5 3 4 5\npart 10 given 1 2 (y) (x)\npart 11 flip 2\npart 12 beside 5 11\nlog 4 12\ninput 1 keep\ninput 2 by 1 keep\ninput 3 by 1 keep\npair 2 3 keep\nend\npart 13 given 2 2 (1,0) (0,1)\npart 14 given 2 3 (1,0) (0,1) (0,0)\nrelations 10 4 13 14\nmorphism 8\npart 15 twist 10 1\npart 16 beside 8 15\nlog 5 16\ninput 1 keep\ninput 2 keep\ninput 3 keep\npair 1 2 keep\npair 1 3 keep\npair 4 5 keep\nskip 2 3 by 1\nend\nchain 1 10 5 7 14\nstable 0 13\ndatum J 2\nd 1 1\nd 2 2\nd 3 3\nexact 1 1 4 5\nexact 2 2 6 6\ntheta 0 5\ntheta 1 7\ntheta 2 8\ncocycles 5 3 4 5\nrelations 10 4 13 14\nmorphism 8\nchain 1 10 5 7 14\nstable 0 13\nlambda 0 5\nlambda 1 13\nlambda 2 5\nphi 5\nlog 6 10\ninput 1 keep\ninput 2 keep\npair 1 2 keep\nend\nnonnull 6 1\npart 17 beside 5 10\nlog 7 17\ninput 1 keep\ninput 2 by 1 keep\ninput 3 by 1 keep\npair 2 3 keep\nend\nfibre 10 7 13 14\none 13\npart 18 given 3 1 (0,0,1)\nonto 0 18\ndone 8\nquery 9 map 2 J L\nanswer zero no one yes onto yes stage 1\ndatum J 2\npart 1 given 1 2 (x) (y)\nd 1 1\npart 2 given 2 1 (y,x)\nd 2 2\npart 3 given 1 0\nd 3 3\nlog 1 1\ninput 1 keep\ninput 2 keep\npair 1 2 keep\nend\npart 4 given 0 1 ()\npart 5 given 1 1 (1)\nexact 1 1 4 5\nlog 2 2\ninput 1 keep\nend\npart 6 given 0 0\nexact 2 2 6 6\ntheta 0 5\npart 7 given 2 2 (x,0) (0,y)\ntheta 1 7\npart 8 given 1 1 (x*y)\ntheta 2 8\npart 9 flip 3\nlog 3 9\ninput 1 keep\nend\ncocycles 5 3 4 5\npart 10 given 1 2 (y) (x)\npart 11 flip 2\npart 12 beside 5 11\nlog 4 12\ninput 1 keep\ninput 2 by 1 keep\ninput 3 by 1 keep\npair 2 3 keep\nend\npart 13 given 2 2 (1,0) (0,1)\npart 14 given 2 3 (1,0) (0,1) (0,0)\nrelations 10 4 13 14\nmorphism 8\npart 15 twist 10 1\npart 16 beside 8 15\nlog 5 16\ninput 1 keep\ninput 2 keep\ninput 3 keep\npair 1 2 keep\npair 1 3 keep\npair 4 5 keep\nskip 2 3 by 1\nend\nchain 1 10 5 7 14\nstable 0 13\ndatum L 2\npart 17 given 1 2 (x^2) (y)\nd 1 17\npart 18 given 2 1 (y,x^2)\nd 2 18\nd 3 3\nlog 6 17\ninput 1 keep\ninput 2 keep\npair 1 2 keep\nend\nexact 1 6 4 5\nlog 7 18\ninput 1 keep\nend\nexact 2 7 6 6\ntheta 0 5\npart 19 given 2 2 (x^2,0) (0,y)\ntheta 1 19\npart 20 given 1 1 (x^2*y)\ntheta 2 20\ncocycles 5 3 4 5\npart 21 given 1 2 (y) (x^2)\npart 22 flip 18\npart 23 beside 5 22\nlog 8 23\ninput 1 keep\ninput 2 by 1 keep\ninput 3 by 1 keep\npair 2 3 keep\nend\nrelations 21 8 13 14\nmorphism 20\npart 24 twist 21 1\npart 25 beside 20 24\nlog 9 25\ninput 1 keep\ninput 2 keep\ninput 3 keep\npair 1 2 keep\npair 1 3 keep\npair 4 5 keep\nskip 2 3 by 1\nend\nchain 1 21 9 19 14\nstable 0 13\nlambda 0 5\npart 26 given 2 2 (x,0) (0,1)\nlambda 1 26\npart 27 given 1 1 (x)\nlambda 2 27\nphi 27\nlog 10 21\ninput 1 keep\ninput 2 keep\npair 1 2 keep\nend\nnonnull 10 1\npart 28 beside 27 21\nlog 11 28\ninput 1 keep\ninput 2 keep\ninput 3 by 1 keep\npair 1 2 keep\npair 3 4 keep\nend\npart 29 given 2 2 (0,1) (x,0)\nfibre 1 11 29 14\npart 30 given 2 2 (0,1) (1,0)\none 30\npart 31 beside 21 27\npart 32 twist 31 1\npart 33 beside 20 32\nlog 12 33\ninput 1 keep\ninput 2 keep\ninput 3 keep\ninput 4 keep\npair 1 4 keep\npair 1 2 by 5 keep\nskip 2 4 by 1\npair 3 4 keep\nskip 1 3 by 4\nskip 2 3 by 1\nend\npart 34 given 3 1 (0,0,y)\npart 35 given 1 3 (1) (0) (0)\nlink 1 5 12 34 35\nlog 13 31\ninput 1 keep\ninput 2 keep\ninput 3 keep\npair 1 3 keep\npair 2 3 keep\nskip 1 2 by 3\nend\nshort 0 13 1\nonto 1 5\ndone 9\nquery 10 map 1 X X\nanswer zero no one yes onto yes stage 0\ndatum X 1\npart 1 given 1 1 (x)\nd 1 1\npart 2 given 1 0\nd 2 2\nlog 1 1\ninput 1 keep\nend\npart 3 given 0 0\nexact 1 1 3 3\npart 4 given 1 1 (1)\ntheta 0 4\ntheta 1 1\npart 5 flip 2\nlog 2 5\ninput 1 keep\nend\npart 6 given 0 1 ()\ncocycles 4 2 6 4\npart 7 flip 1\npart 8 beside 4 7\nlog 3 8\ninput 1 keep\ninput 2 by 1 keep\nend\nrelations 1 3 4 4\nmorphism 1\npart 9 twist 1 1\npart 10 beside 1 9\nlog 4 10\ninput 1 keep\ninput 2 by 1 keep\nend\nchain 1 1 4 4 4\nstable 0 4\ndatum X 1\nd 1 1\nd 2 2\nexact 1 1 3 3\ntheta 0 4\ntheta 1 1\ncocycles 4 2 6 4\nrelations 1 3 4 4\nmorphism 1\nchain 1 1 4 4 4\nstable 0 4\nlambda 0 4\nlambda 1 4\nphi 4\nnonnull 1 1\npart 11 beside 4 1\nlog 5 11\ninput 1 keep\ninput 2 by 1 keep\nend\nfibre 1 5 4 4\none 4\npart 12 given 2 1 (0,1)\nonto 0 12\ndone 10\nquery 11 map 1 I X\nrefused not contained generator 1\ndone 11\nquery 12 map 2 J I\nanswer zero yes one no onto yes stage 1\ndatum J 2\npart 1 given 1 2 (x) (y)\nd 1 1\npart 2 given 2 1 (y,x)\nd 2 2\npart 3 given 1 0\nd 3 3\nlog 1 1\ninput 1 keep\ninput 2 keep\npair 1 2 keep\nend\npart 4 given 0 1 ()\npart 5 given 1 1 (1)\nexact 1 1 4 5\nlog 2 2\ninput 1 keep\nend\npart 6 given 0 0\nexact 2 2 6 6\ntheta 0 5\npart 7 given 2 2 (x,0) (0,y)\ntheta 1 7\npart 8 given 1 1 (x*y)\ntheta 2 8\npart 9 flip 3\nlog 3 9\ninput 1 keep\nend\ncocycles 5 3 4 5\npart 10 given 1 2 (y) (x)\npart 11 flip 2\npart 12 beside 5 11\nlog 4 12\ninput 1 keep\ninput 2 by 1 keep\ninput 3 by 1 keep\npair 2 3 keep\nend\npart 13 given 2 2 (1,0) (0,1)\npart 14 given 2 3 (1,0) (0,1) (0,0)\nrelations 10 4 13 14\nmorphism 8\npart 15 twist 10 1\npart 16 beside 8 15\nlog 5 16\ninput 1 keep\ninput 2 keep\ninput 3 keep\npair 1 2 keep\npair 1 3 keep\npair 4 5 keep\nskip 2 3 by 1\nend\nchain 1 10 5 7 14\nstable 0 13\ndatum I 2\npart 17 given 1 2 (x^2) (x*y)\nd 1 17\nd 2 2\nd 3 3\nlog 6 17\ninput 1 keep\ninput 2 keep\npair 1 2 keep\nend\nexact 1 6 4 5\nexact 2 2 6 6\ntheta 0 5\npart 18 given 2 2 (x^2,0) (0,x*y)\ntheta 1 18\npart 19 given 1 1 (x^2*y)\ntheta 2 19\ncocycles 5 3 4 5\nrelations 10 4 13 14\nmorphism 19\npart 20 beside 19 15\nlog 7 20\ninput 1 keep\ninput 2 keep\ninput 3 keep\npair 1 3 keep\npair 1 2 by 4 keep\nskip 2 3 by 1\nend\npart 21 given 2 1 (0,y)\npart 22 given 1 2 (1) (0)\nchain 1 5 7 21 22\nlog 8 10\ninput 1 keep\ninput 2 keep\npair 1 2 keep\nend\ngrows 0 8 1\npart 23 twist 5 1\npart 24 beside 19 23\nlog 9 24\ninput 1 keep\ninput 2 keep\npair 1 2 keep\nend\nchain 2 5 9 19 5\nstable 1 5\nlambda 0 5\npart 25 given 2 2 (x,0) (0,x)\nlambda 1 25\npart 26 given 1 1 (x)\nlambda 2 26\nphi 26\nnull 26\npart 27 beside 26 5\nlog 10 27\ninput 1 keep\ninput 2 keep\npair 1 2 keep\nend\nfibre 5 10 26 5\nnotone 8 1\npart 28 beside 10 26\npart 29 twist 28 1\npart 30 beside 19 29\nlog 11 30\ninput 1 keep\ninput 2 keep\ninput 3 keep\ninput 4 by 3 keep\npair 1 3 keep\npair 1 2 by 5 keep\nskip 2 3 by 1\nend\npart 31 given 3 1 (0,y,0)\npart 32 given 1 3 (0) (1) (0)\nlink 1 5 11 31 32\nlog 12 28\ninput 1 keep\ninput 2 keep\ninput 3 by 2 keep\npair 1 2 keep\nend\nshort 0 12 1\nonto 1 5\ndone 12\nquery 13 resolution 1 J\nanswer ranks 1 2 1\ndatum J 1\npart 1 given 1 2 (x) (y)\nd 1 1\npart 2 given 2 1 (y,x)\nd 2 2\nlog 1 1\ninput 1 keep\ninput 2 keep\npair 1 2 keep\nend\npart 3 given 0 1 ()\npart 4 given 1 1 (1)\nexact 1 1 3 4\ndone 13\nquery 14 ext 2 J\nanswer generators 1 relations 2\ndatum J 2\npart 1 given 1 2 (x) (y)\nd 1 1\npart 2 given 2 1 (y,x)\nd 2 2\npart 3 given 1 0\nd 3 3\nlog 1 1\ninput 1 keep\ninput 2 keep\npair 1 2 keep\nend\npart 4 given 0 1 ()\npart 5 given 1 1 (1)\nexact 1 1 4 5\nlog 2 2\ninput 1 keep\nend\npart 6 given 0 0\nexact 2 2 6 6\ntheta 0 5\npart 7 given 2 2 (x,0) (0,y)\ntheta 1 7\npart 8 given 1 1 (x*y)\ntheta 2 8\npart 9 flip 3\nlog 3 9\ninput 1 keep\nend\ncocycles 5 3 4 5\npart 10 given 1 2 (y) (x)\npart 11 flip 2\npart 12 beside 5 11\nlog 4 12\ninput 1 keep\ninput 2 by 1 keep\ninput 3 by 1 keep\npair 2 3 keep\nend\npart 13 given 2 2 (1,0) (0,1)\npart 14 given 2 3 (1,0) (0,1) (0,0)\nrelations 10 4 13 14\nmorphism 8\ndone 14\nquery 15 root 1 X\nanswer root rank 1 stable 0\ndatum X 1\npart 1 given 1 1 (x)\nd 1 1\npart 2 given 1 0\nd 2 2\nlog 1 1\ninput 1 keep\nend\npart 3 given 0 0\nexact 1 1 3 3\npart 4 given 1 1 (1)\ntheta 0 4\ntheta 1 1\npart 5 flip 2\nlog 2 5\ninput 1 keep\nend\npart 6 given 0 1 ()\ncocycles 4 2 6 4\npart 7 flip 1\npart 8 beside 4 7\nlog 3 8\ninput 1 keep\ninput 2 by 1 keep\nend\nrelations 1 3 4 4\nmorphism 1\npart 9 twist 1 1\npart 10 beside 1 9\nlog 4 10\ninput 1 keep\ninput 2 by 1 keep\nend\nchain 1 1 4 4 4\nstable 0 4\ndone 15\nquery 16 member X x*y\nanswer yes\npart 1 given 1 1 (x)\nd 1 1\npart 2 given 1 1 (y)\ncofactors 2\ndone 16\nquery 17 member X y\nanswer no\npart 1 given 1 1 (x)\nd 1 1\nlog 1 1\ninput 1 keep\nend\nforeign 1\ndone 17\nquery 18 zero 1 J\nanswer yes stable 0\ndatum J 1\npart 1 given 1 2 (x) (y)\nd 1 1\npart 2 given 2 1 (y,x)\nd 2 2\nlog 1 1\ninput 1 keep\ninput 2 keep\npair 1 2 keep\nend\npart 3 given 0 1 ()\npart 4 given 1 1 (1)\nexact 1 1 3 4\ntheta 0 4\npart 5 given 2 2 (x,0) (0,y)\ntheta 1 5\npart 6 given 2 1 (x,y)\npart 7 flip 2\nlog 2 7\ninput 1 keep\ninput 2 keep\npair 1 2 keep\nend\ncocycles 6 2 3 4\npart 8 flip 1\npart 9 beside 6 8\nlog 3 9\ninput 1 keep\ninput 2 by 1 keep\nend\nrelations 4 3 4 4\nmorphism 4\npart 10 twist 4 1\npart 11 beside 4 10\nlog 4 11\ninput 1 keep\ninput 2 by 1 keep\nend\nchain 1 4 4 4 4\nstable 0 4\nwhole 4\ndone 18\nend report\n";

// A line by its number from 1, what stands there, the first bad line and its reason.
type Row = (usize, &'static str, u64, Why);

const ROWS: [Row; 92] = [
    (9, "answer yes stable 2", 80, Why::Value),
    (9, "answer yes stable 1 1", 9, Why::Form),
    (12, "d 2 1", 12, Why::Form),
    (12, "d 1 2", 12, Why::Reference),
    (12, "d 1 1 1", 12, Why::Form),
    (24, "exact 2 1 4 5", 24, Why::Form),
    (24, "exact 1 2 4 5", 24, Why::Reference),
    (24, "exact 1 1 5 5", 24, Why::Shape),
    (24, "exact 1 1 4 6", 24, Why::Reference),
    (24, "exact 1 1 4 5 1", 24, Why::Form),
    (30, "theta 1 5", 30, Why::Form),
    (30, "theta 0 6", 30, Why::Shape),
    (30, "theta 0 5 1", 30, Why::Form),
    (39, "cocycles 6 3 4 5", 39, Why::Shape),
    (39, "cocycles 5 4 4 5", 39, Why::Reference),
    (39, "cocycles 5 3 5 5", 39, Why::Shape),
    (39, "cocycles 5 3 4 6", 39, Why::Shape),
    (51, "relations 10 5 13 14", 51, Why::Reference),
    (51, "relations 10 4 14 14", 51, Why::Shape),
    (51, "relations 10 4 13 15", 51, Why::Reference),
    (52, "morphism 9", 52, Why::Shape),
    (61, "skip 3 3 by 1", 61, Why::BadEntry),
    (61, "skip 2 4 by 1", 61, Why::BadEntry),
    (61, "skip 2 3 by 2", 61, Why::BadEntry),
    (65, "chain 2 5 5 17 18", 65, Why::Form),
    (65, "chain 1 6 5 17 18", 65, Why::Shape),
    (65, "chain 1 5 6 17 18", 65, Why::Reference),
    (65, "chain 1 5 5 18 18", 65, Why::Shape),
    (65, "chain 1 5 5 17 19", 65, Why::Reference),
    (71, "grows 1 6 1", 71, Why::Form),
    (71, "grows 0 7 1", 71, Why::Reference),
    (71, "grows 0 6 2", 71, Why::Reference),
    (80, "stable 2 5", 80, Why::Form),
    (80, "stable 1 6", 80, Why::Shape),
    (81, "whole 6", 81, Why::Shape),
    (141, "coordinates 6", 141, Why::Shape),
    (147, "lives 1 6", 147, Why::Form),
    (147, "lives 0 7", 147, Why::Reference),
    (150, "answer yes stage 2", 223, Why::Form),
    (224, "dies 2 5", 224, Why::Form),
    (224, "dies 1 6", 224, Why::Shape),
    (227, "answer yes power 2", 285, Why::Value),
    (285, "power 18", 285, Why::Reference),
    (291, "least 7 1", 291, Why::Reference),
    (291, "least 6 2", 291, Why::Reference),
    (363, "colon 2 10 6 19 14", 363, Why::Form),
    (363, "colon 1 10 7 19 14", 363, Why::Reference),
    (363, "colon 1 10 6 20 14", 363, Why::Reference),
    (363, "colon 1 10 6 19 15", 363, Why::Shape),
    (364, "settles 2 13", 364, Why::Form),
    (364, "settles 1 14", 364, Why::Shape),
    (370, "proper 8 1", 370, Why::Reference),
    (370, "proper 7 2", 370, Why::Reference),
    (437, "annihilator 10 7 13 14", 437, Why::Reference),
    (437, "annihilator 10 6 14 14", 437, Why::Shape),
    (437, "annihilator 10 6 13 15", 437, Why::Shape),
    (514, "lambda 1 4", 514, Why::Form),
    (514, "lambda 0 5", 514, Why::Shape),
    (517, "phi 13", 517, Why::Shape),
    (518, "null 5", 518, Why::Shape),
    (524, "fibre 5 9 4 4", 524, Why::Shape),
    (524, "fibre 4 10 4 4", 524, Why::Reference),
    (524, "fibre 4 9 5 4", 524, Why::Shape),
    (524, "fibre 4 9 4 5", 524, Why::Shape),
    (525, "one 5", 525, Why::Shape),
    (534, "link 2 12 10 20 24", 534, Why::Form),
    (534, "link 1 13 10 20 24", 534, Why::Shape),
    (534, "link 1 12 11 20 24", 534, Why::Reference),
    (534, "link 1 12 10 21 24", 534, Why::Shape),
    (534, "link 1 12 10 20 25", 534, Why::Reference),
    (536, "closes 1 25", 536, Why::Form),
    (536, "closes 0 26", 536, Why::Reference),
    (537, "short 1 9 1", 537, Why::Form),
    (537, "short 0 10 1", 537, Why::Shape),
    (537, "short 0 9 2", 537, Why::Reference),
    (
        540,
        "answer zero no one yes onto yes stage 1",
        631,
        Why::Form,
    ),
    (620, "nonnull 7 1", 620, Why::Reference),
    (620, "nonnull 6 2", 620, Why::Reference),
    (631, "onto 1 18", 631, Why::Form),
    (631, "onto 0 19", 631, Why::Reference),
    (
        856,
        "answer zero yes one no onto yes stage 2",
        996,
        Why::Form,
    ),
    (974, "notone 9 1", 974, Why::Reduction),
    (974, "notone 8 2", 974, Why::Reference),
    (1000, "answer ranks 2 2 1", 1003, Why::Value),
    (1000, "answer ranks 1 3 1", 1003, Why::Value),
    (1000, "answer ranks 1 2 2", 1005, Why::Value),
    (1016, "answer generators 2 relations 2", 1046, Why::Value),
    (1016, "answer generators 1 relations 3", 1058, Why::Value),
    (1062, "answer root rank 2 stable 0", 1081, Why::Value),
    (1062, "answer root rank 1 stable 1", 1097, Why::Value),
    (1104, "cofactors 3", 1104, Why::Reference),
    (1113, "foreign 2", 1113, Why::Reference),
];

// Lines that name another log of a matrix with the same value.
const OTHER_LOGS: [(usize, &str); 3] = [
    (51, "relations 11 4 13 14"),
    (363, "colon 1 11 6 19 14"),
    (437, "annihilator 11 6 13 14"),
];

// The report with a text in place of the line with this number.
fn with_line(alloc: Global, number: usize, text: &str) -> Result<String, AllocError> {
    let mut all = String::new(alloc);
    let mut at: usize = 1;
    for line in REPORT.lines() {
        all.push_str(if at == number { text } else { line })?;
        all.push_str("\n")?;
        at = at.saturating_add(1);
    }
    Ok(all)
}

fn is_refused(found: Checked, at: u64, reason: Why) -> bool {
    match found {
        Checked::Refused { line, why } => line == at && why == reason,
        Checked::Accepted { .. } => false,
    }
}

fn is_accepted(found: Checked) -> bool {
    match found {
        Checked::Accepted { verdicts, passed } => verdicts == 17 && passed == 1,
        Checked::Refused { .. } => false,
    }
}

#[test]
fn a_report_on_all_questions_is_accepted(rt: HostRuntime) -> Result<(), Fail> {
    assert!(rt; is_accepted(check(rt.alloc(), REPORT.as_bytes())?));
    for (number, text) in OTHER_LOGS {
        let report = with_line(rt.alloc(), number, text)?;
        assert!(rt;
            is_accepted(check(rt.alloc(), report.as_bytes())?),
            "{text}"
        );
    }
    Ok(())
}

#[test]
fn each_kind_of_line_is_judged(rt: HostRuntime) -> Result<(), Fail> {
    for (number, text, line, why) in ROWS {
        let report = with_line(rt.alloc(), number, text)?;
        let found = check(rt.alloc(), report.as_bytes())?;
        assert!(rt; is_refused(found, line, why), "{text}");
    }
    Ok(())
}
