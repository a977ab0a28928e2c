// Short reports, and what they state: the definitions are computed.
ghost use Rattle.std.specs.Prelude.{[], Some, ◌++◌, ◌∷◌, ◌≡◌, codes, false, length, true};
ghost use Rattle.fm_gfp.specs.declared.prime.Prime.TheVariants.{Three};
ghost use Rattle.fm_limit.specs.Verdicts.{ext, induced_map, inverting, member, resolution, root, support, zero_class, zero_limit};
ghost use Rattle.fm_poly.specs.Polys.{meaning};
ghost use Rattle.fm_report.specs.Examples.{I, J, block_text, certified_text, cross, head_text, line, monomial, one_by_one, plane, poly, root_text, rooted, source_text};
ghost use Rattle.fm_report.specs.Parts.{meant, part_values};
ghost use Rattle.fm_report.specs.Reading.{statements};
ghost use Rattle.fm_report.specs.Verdicts.{ext_of, part_at, resolved, root_of, unreadable, verdict};

/// A short report of each kind of query states its verdict, along the matrices that stand under the answer. Minus signs, factors out of order and a
/// variable that stands twice are read.
pub fn a_short_report_of_each_kind()
    ensures class { statements (head_text ++ (codes "query 1 class 1 I 0 (-2*y*x^2)\nanswer yes stage 2\n" ++ (block_text ++ codes "done 1\n")))
        ≡ verdict Three 2 (zero_class 1 (resolved plane I cross) 0 (meant plane (poly 2 1 1 ∷ [])) (Some 2)) ∷ [] }
    ensures zero { statements (head_text ++ (codes "query 1 zero 1 I\nanswer no stable 0\n" ++ (block_text ++ (root_text ++ codes "done 1\n"))))
        ≡ verdict Three 2 (zero_limit 1 (resolved plane I rooted) false 0) ∷ [] }
    ensures root { statements (head_text ++ (codes "query 1 root 1 I\nanswer root rank 1 stable 0\n" ++ (block_text ++ (root_text ++ codes "done 1\n"))))
        ≡ verdict Three 2 (root_of plane 1 I rooted 1 0) ∷ [] }
    ensures invert { statements (head_text ++ (codes "query 1 invert 1 I y-x\nanswer yes power 3\n" ++ (block_text ++ codes "done 1\n")))
        ≡ verdict Three 2 (inverting 1 (resolved plane I cross) (meaning plane (monomial 1 0 2 ∷ monomial 0 1 1 ∷ [])) (Some 3)) ∷ [] }
    ensures support { statements (head_text ++ (codes "query 1 support 1 I\nanswer ideal 0, -2*y*x, 0\n" ++ (block_text ++ codes "done 1\n")))
        ≡ verdict Three 2 (support 1 (resolved plane I cross) (meant plane (poly 1 1 1 ∷ []))) ∷ [] }
    ensures map { statements (head_text ++ (codes "query 1 map 1 J I\nanswer zero no one yes onto yes stage 1\n" ++ (source_text ++ codes "datum I 1\npart 5 given 1 1 (-2*y*x)\nd 1 5\nd 2 2\ntheta 0 3\npart 6 given 1 1 (y*x^2*y)\ntheta 1 6\nlambda 0 3\npart 7 given 1 1 (-y*2)\nlambda 1 7\ndone 1\n")))
        ≡ verdict Three 2 (induced_map 1 (resolved plane J line) (resolved plane I cross) (part_values plane (one_by_one (poly 0 0 1) ∷ one_by_one (poly 0 1 1) ∷ [])) false true (Some 1)) ∷ [] }
    ensures member { statements (head_text ++ codes "query 1 member I y*x^2-x\nanswer no\npart 1 given 1 1 (x*y)\nd 1 1\ndone 1\n")
        ≡ verdict Three 2 (member (meant plane I) (meaning plane (monomial 2 1 1 ∷ monomial 1 0 2 ∷ [])) false) ∷ [] }
    ensures resolution { statements (head_text ++ codes "query 1 resolution 1 I\nanswer ranks 1 1 0\ndatum I 1\npart 1 given 1 1 (y*x)\nd 1 1\npart 2 given 1 0\nd 2 2\ndone 1\n")
        ≡ verdict Three 2 (resolution (meant plane I) 1 (part_values plane cross.differentials) (1 ∷ 1 ∷ 0 ∷ [])) ∷ [] }
    ensures ext { statements (head_text ++ (codes "query 1 ext 1 I\nanswer generators 1 relations 1\n" ++ (block_text ++ codes "Z 3\nN 1\nU 4\ndone 1\n")))
        ≡ verdict Three 2 (ext_of plane 1 I (record rooted { kernels = one_by_one (poly 1 1 1) ∷ [] }) 1 1) ∷ [] }
{}

/// A block that goes through its `stable` line states its root, before the verdict of its query.
pub fn a_stable_block_states_its_root()
    ensures { statements (head_text ++ (codes "query 1 zero 1 I\nanswer no stable 0\n" ++ (block_text ++ (certified_text ++ codes "done 1\n"))))
        ≡ verdict Three 2 (root_of plane 1 I rooted (length (part_at plane (one_by_one (poly 0 0 1) ∷ []) 0).columns) 0)
        ∷ verdict Three 2 (zero_limit 1 (resolved plane I rooted) false 0) ∷ [] }
{}

/// Lines on which verdicts rest and that can't be read there state what never holds: an answer of another query, a matrix entry or a number without
/// form, an unknown name, a second ring, another query's end, a part that isn't there. Queries without an answer, the last line and messages state
/// nothing.
pub fn broken_lines_state_what_never_holds()
    ensures pair { statements (head_text ++ (codes "query 1 class 1 I 0 (x)\nanswer yes stable 2\n" ++ (block_text ++ codes "done 1\n")))
        ≡ unreadable ∷ [] }
    ensures entry { statements (head_text ++ codes "query 1 class 1 I 0 (x)\nanswer no\ndatum I 1\npart 1 given 1 1 (x*)\nd 1 1\n")
        ≡ unreadable ∷ unreadable ∷ [] }
    ensures number { statements (head_text ++ codes "query 01 class 1 I 0 (x)\n") ≡ unreadable ∷ [] }
    ensures ideal { statements (head_text ++ codes "ideal K = x*z\n") ≡ unreadable ∷ [] }
    ensures ring { statements (head_text ++ codes "ring 3 x y\n") ≡ unreadable ∷ [] }
    ensures question { statements (head_text ++ codes "query 1 class 1 T 0 (x)\n") ≡ unreadable ∷ [] }
    ensures done { statements (head_text ++ codes "query 1 class 1 I 0 (x)\nanswer no\ndone 2\n") ≡ unreadable ∷ [] }
    ensures matrix { statements (head_text ++ codes "query 1 class 1 I 0 (x)\nanswer no\ntheta 0 1\n") ≡ unreadable ∷ [] }
    ensures part { statements (head_text ++ codes "query 1 member I x\nanswer no\nd 1 1\n") ≡ unreadable ∷ [] }
    ensures silent { statements (head_text ++ codes "query 1 class 1 I 0 (x)\nunanswered budget lift 1\ndone 1\nend report\nrefused line 7 value\nline 3: syntax\n")
        ≡ [] }
{}
