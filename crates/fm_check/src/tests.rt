// Texts that a checker meets: each cut of a small report, edits of its lines with the first bad line and its reason, in both versions of reports, and other
// spellings that are taken. What is expected was found by an independent checker.
use crate::{Checked, check};
use fm_conditions::Why;
use std::alloc::{AllocError, Global};
use std::test::Fail;

// A report behind its first line.
const LINES: [&str; 48] = [
    "ring 3 x y",
    "order grevlex",
    "ideal I = x*y",
    "query 1 class 1 I 0 (x^2*y)",
    "answer yes stage 0",
    "datum I 1",
    "part 1 given 1 1 (x*y)",
    "d 1 1",
    "part 2 given 1 0",
    "d 2 2",
    "log 1 1",
    "input 1 keep",
    "end",
    "part 3 given 0 0",
    "exact 1 1 3 3",
    "part 4 given 1 1 (1)",
    "theta 0 4",
    "part 5 given 1 1 (x^2*y^2)",
    "theta 1 5",
    "part 6 flip 2",
    "log 2 6",
    "input 1 keep",
    "end",
    "part 7 given 0 1 ()",
    "cocycles 4 2 7 4",
    "part 8 flip 1",
    "part 9 beside 4 8",
    "log 3 9",
    "input 1 keep",
    "input 2 by 1 keep",
    "end",
    "part 10 given 1 1 (2)",
    "relations 1 3 10 4",
    "morphism 5",
    "part 11 twist 1 1",
    "part 12 beside 5 11",
    "log 4 12",
    "input 1 keep",
    "input 2 by 1 keep",
    "end",
    "chain 1 1 4 10 4",
    "stable 0 4",
    "part 13 given 1 1 (x^2*y)",
    "coordinates 13",
    "part 14 given 1 1 (x)",
    "dies 0 14",
    "done 1",
    "end report",
];

// The lines of the report with these numbers, which count from 1, up to before the second one, replaced by a text.
type Edit<'a> = (usize, usize, &'a str);

// An edit, the first bad line and its reason.
type Row = (usize, usize, &'static str, u64, Why);

// The head, the question, the answer and the beginning of the certificate.
const HEADS: [Row; 38] = [
    (6, 7, "answer no\n", 47, Why::Form),
    (5, 6, "query  1 class 1 I 0 (x^2*y)\n", 5, Why::Form),
    (5, 6, " query 1 class 1 I 0 (x^2*y)\n", 5, Why::Form),
    (6, 7, "answer yes stage 00\n", 6, Why::Form),
    (5, 6, "query 01 class 1 I 0 (x^2*y)\n", 5, Why::Form),
    (4, 5, "ideal I = x^1001\n", 4, Why::Form),
    (5, 6, "query 1 class 1 I 0 (x^1001)\n", 5, Why::Form),
    (1, 2, "report 3\n", 1, Why::Form),
    (1, 2, "report 0\n", 1, Why::Form),
    (1, 2, "report 02\n", 1, Why::Form),
    (1, 2, "report\n", 1, Why::Form),
    (1, 2, "report 2 \n", 1, Why::Form),
    (2, 3, "ring 4 x y\n", 2, Why::Form),
    (2, 3, "ring 37 x y\n", 2, Why::Form),
    (2, 3, "order grevlex\n", 2, Why::Form),
    (3, 4, "ideal I = x*y\n", 3, Why::Form),
    (4, 5, "ideal I = \n", 4, Why::Form),
    (4, 5, "ideal I = x*y\nideal I = x\n", 5, Why::Form),
    (4, 5, "# a comment\n", 4, Why::Form),
    (5, 6, "query 2 class 1 I 0 (x^2*y)\n", 5, Why::Form),
    (5, 6, "query 1 class 3 I 0 (x^2*y)\n", 5, Why::Form),
    (5, 6, "query 1 class 1 J 0 (x^2*y)\n", 5, Why::Form),
    (5, 6, "query 1 zero 1 I\n", 6, Why::Form),
    (6, 7, "answer yes\n", 6, Why::Form),
    (6, 7, "answer yes stable 0\n", 6, Why::Form),
    (
        6,
        7,
        "answer yes stage 18446744073709551616\n",
        6,
        Why::Form,
    ),
    (6, 7, "answer yes stage 1\n", 47, Why::Form),
    (6, 7, "unanswered budget chain 1\n", 7, Why::Form),
    (6, 7, "unanswered budget whole\n", 6, Why::Form),
    (6, 7, "refused wrong length 1 needed 1\n", 7, Why::Form),
    (7, 8, "datum 1I 1\n", 7, Why::Form),
    (7, 8, "datum J 1\n", 7, Why::Reference),
    (7, 8, "datum I 0\n", 7, Why::Value),
    (7, 8, "datum I 01\n", 7, Why::Form),
    (7, 8, "datum I\n", 7, Why::Form),
    (7, 8, "d 1 1\n", 7, Why::Form),
    (6, 7, "part 1 given 1 1 (x*y)\n", 6, Why::Form),
    (
        5,
        6,
        "query 1 zero 1 I\nunanswered budget chain 3\ndone 1\nquery 2 class 1 I 0 (x^2*y)\n",
        51,
        Why::Form,
    ),
];

// Parts and logs, and lines that are missing.
const PARTS: [Row; 63] = [
    (36, 37, "part 11 twist 12 1\n", 36, Why::Reference),
    (28, 29, "part 9 beside 4 7\n", 28, Why::Shape),
    (8, 9, "part 1 given 4294967296 0\n", 8, Why::Shape),
    (8, 9, "part 1 given 1 4294967295 (x*y)\n", 8, Why::Form),
    (8, 9, "part 1 given 1 1 (x)\n", 9, Why::Value),
    (
        19,
        20,
        "part 5 given 1 1 (x^16777216)\n",
        19,
        Why::Exponents,
    ),
    (36, 37, "part 11 twist 1 16\n", 38, Why::Exponents),
    (13, 14, "", 13, Why::BadLog),
    (30, 31, "", 30, Why::Reference),
    (31, 32, "input 2 keep\n", 32, Why::BadLog),
    (31, 32, "input 2 by 1 1 keep\n", 31, Why::BadEntry),
    (31, 32, "input 2 by 1 zero\n", 31, Why::BadEntry),
    (
        33,
        35,
        "part 10 given 2 0\nrelations 3 3 10 7\n",
        34,
        Why::Shape,
    ),
    (47, 48, "", 47, Why::Form),
    (36, 37, "part 11 pick 1\n", 36, Why::Form),
    (13, 14, "input 1 by keep\n", 13, Why::Form),
    (36, 37, "part 11 twist 12 17\n", 36, Why::Form),
    (36, 37, "part 11 twist 1 17\n", 36, Why::Form),
    (19, 20, "part 5 given 1 1 (x^16777216*z)\n", 19, Why::Form),
    (19, 20, "part 5 given 1 2 (x^16777216)\n", 19, Why::Form),
    (
        19,
        20,
        "part 5 given 1 1 (0*x^16777216)\n",
        19,
        Why::Exponents,
    ),
    (
        19,
        20,
        "part 5 given 1 1 (x^99999999999999999999999999)\n",
        19,
        Why::Exponents,
    ),
    (
        19,
        20,
        "part 5 given 1 1 (x^16777215*x)\n",
        19,
        Why::Exponents,
    ),
    (19, 20, "part 5 given 1 1 (x^16777216 )\n", 19, Why::Form),
    (
        19,
        20,
        "part 5 given 1 1 (18446744073709551616*x^16777216)\n",
        19,
        Why::Form,
    ),
    (19, 20, "part 6 given 1 1 (x^16777216)\n", 19, Why::Form),
    (
        19,
        20,
        "part 5 given 1 1 (x^16777216-x^16777216)\n",
        19,
        Why::Exponents,
    ),
    (
        19,
        20,
        "part 5 given 2 1 (x^16777216)\n",
        19,
        Why::Exponents,
    ),
    (48, 49, "part 15 flip 1\ndone 1\n", 48, Why::Form),
    (
        48,
        49,
        "log 5 1\ninput 1 keep\nend\ndone 1\n",
        48,
        Why::Form,
    ),
    (10, 11, "part 3 given 1 0\n", 10, Why::Form),
    (10, 11, "part 2 given 1 1\n", 10, Why::Form),
    (10, 11, "part 2 given 1 0 (1)\n", 10, Why::Form),
    (10, 11, "part 2 given 0 0\n", 11, Why::Shape),
    (10, 11, "part 2 flip 2\n", 10, Why::Reference),
    (10, 11, "part 2 flip 0\n", 10, Why::Reference),
    (10, 11, "part 2 times 1 1\n", 16, Why::Shape),
    (10, 11, "part 2 stack 1 1\n", 11, Why::Shape),
    (28, 29, "part 9 stack 4 7\n", 31, Why::BadEntry),
    (28, 29, "part 9 times 4 7\n", 28, Why::Shape),
    (36, 37, "part 11 pick 1 2\n", 36, Why::Reference),
    (36, 37, "part 11 pick 1 0\n", 36, Why::Reference),
    (36, 37, "part 11 pick 12 1\n", 36, Why::Reference),
    (36, 37, "part 11 pick 1 1\n", 40, Why::BadEntry),
    (12, 13, "log 2 1\n", 12, Why::Form),
    (12, 13, "log 1 4\n", 12, Why::Reference),
    (12, 13, "log 1 2\n", 13, Why::BadEntry),
    (12, 13, "log 1 0\n", 12, Why::Reference),
    (14, 15, "", 14, Why::Form),
    (13, 14, "input 2 keep\n", 13, Why::BadEntry),
    (13, 14, "input 0 keep\n", 13, Why::BadEntry),
    (13, 14, "input 1 zero\n", 13, Why::BadEntry),
    (13, 14, "input 1 by 1 keep\n", 13, Why::Reference),
    (13, 14, "input 1 by 0 keep\n", 13, Why::Reference),
    (13, 14, "input 1 keep keep\n", 13, Why::Form),
    (13, 14, "input 1\n", 13, Why::Form),
    (13, 14, "pair 1 2 keep\n", 13, Why::Reference),
    (31, 32, "input 1 keep\n", 31, Why::BadEntry),
    (31, 32, "input 2 by 2 keep\n", 31, Why::Reference),
    (
        31,
        32,
        "input 2 by 1 keep\npair 1 2 zero\n",
        32,
        Why::BadEntry,
    ),
    (
        31,
        32,
        "input 2 by 1 keep\npair 2 1 zero\n",
        32,
        Why::BadEntry,
    ),
    (
        31,
        32,
        "input 2 by 1 keep\npair 1 3 zero\n",
        32,
        Why::Reference,
    ),
    (31, 32, "skip 1 2 by\n", 31, Why::Form),
];

// Lines of certificates in their places, and the end.
const PLACES: [Row; 56] = [
    (9, 10, "d 1 2\n", 9, Why::Reference),
    (43, 44, "stable 0 14\n", 43, Why::Reference),
    (47, 48, "dies 0 13\n", 47, Why::Value),
    (50, 50, "end\n", 50, Why::Form),
    (9, 10, "d  1 1\n", 9, Why::Form),
    (9, 10, "d 1 1 \n", 9, Why::Form),
    (9, 10, " d 1 1\n", 9, Why::Form),
    (48, 49, "done 01\n", 48, Why::Form),
    (9, 10, "d 01 1\n", 9, Why::Form),
    (16, 17, "exact 1 1 3\n", 16, Why::Form),
    (16, 17, "exact 1 1 3 3 3\n", 16, Why::Form),
    (9, 10, "d 1 1^5\n", 9, Why::Form),
    (9, 10, "d 2 1\n", 9, Why::Form),
    (9, 10, "exact 1 1 3 3\n", 9, Why::Form),
    (9, 10, "d 1 0\n", 9, Why::Reference),
    (9, 10, "d 1 4294967297\n", 9, Why::Reference),
    (18, 19, "theta 1 4\n", 18, Why::Form),
    (18, 19, "theta 0 5\n", 18, Why::Reference),
    (18, 19, "theta 0 1\n", 18, Why::Value),
    (20, 21, "theta 1 4\n", 20, Why::Value),
    (42, 43, "chain 2 1 4 10 4\n", 42, Why::Form),
    (42, 43, "chain 0 1 4 10 4\n", 42, Why::Form),
    (43, 44, "stable 1 4\n", 43, Why::Form),
    (43, 44, "grows 0 4 1\n", 43, Why::Shape),
    (43, 44, "stable 0 1\n", 43, Why::Value),
    (45, 46, "coordinates 14\n", 45, Why::Reference),
    (45, 46, "coordinates 1\n", 45, Why::Value),
    (45, 46, "coordinates 7\n", 45, Why::Shape),
    (47, 48, "dies 1 14\n", 47, Why::Form),
    (47, 48, "dies 0 15\n", 47, Why::Reference),
    (47, 48, "lives 0 1\n", 47, Why::Form),
    (47, 48, "whole 4\n", 47, Why::Form),
    (48, 49, "done 2\n", 48, Why::Form),
    (48, 49, "done 0\n", 48, Why::Form),
    (48, 49, "end report\n", 48, Why::Form),
    (49, 50, "end\n", 49, Why::Form),
    (14, 15, "d 1 1\n", 14, Why::Form),
    (16, 17, "exact 2 1 3 3\n", 16, Why::Form),
    (16, 17, "exact 1 4 3 3\n", 16, Why::Reference),
    (16, 17, "exact 1 1 1 3\n", 16, Why::Shape),
    (16, 17, "exact 1 1 3 1\n", 16, Why::Shape),
    (26, 27, "cocycles 4 1 7 4\n", 26, Why::Shape),
    (26, 27, "cocycles 5 2 7 4\n", 26, Why::Value),
    (34, 35, "relations 1 3 4 4\n", 34, Why::Value),
    (34, 35, "relations 2 3 10 4\n", 34, Why::Shape),
    (34, 35, "relations 1 1 10 4\n", 34, Why::Shape),
    (34, 35, "relations 1 3 10 10\n", 34, Why::Value),
    (35, 36, "morphism 4\n", 35, Why::Value),
    (35, 36, "morphism 2\n", 35, Why::Shape),
    (42, 43, "chain 1 1 3 10 4\n", 42, Why::Value),
    (42, 43, "chain 1 5 4 10 4\n", 42, Why::Value),
    (42, 43, "chain 1 4 4 10 4\n", 42, Why::Value),
    (50, 50, "\n", 50, Why::Form),
    (50, 50, "query 2 zero 1 I\n", 50, Why::Form),
    (49, 50, "end report\nend report\n", 50, Why::Form),
    (49, 50, "\n", 49, Why::Form),
];

// Spellings that are taken.
const TAKEN: [Edit<'static>; 9] = [
    (9, 10, "d\t1 1\n"),
    (5, 6, "query\t1\tclass 1 I 0 ( x ^ 2 * y )\n"),
    (5, 6, "query 1 class  1  I 0 (x^2*y) \n"),
    (2, 3, "ring 03 x y\n"),
    (5, 6, "query 1 class 01 I 00 (x^02*y)\n"),
    (8, 9, "part 1 given 1 1 (01*x^01*y)\n"),
    (3, 4, "order deglex\n"),
    (4, 5, "ideal I = x*y, 0\n"),
    (
        44,
        45,
        "log 5 1\ninput 1 keep\nend\npart 13 given 1 1 (x^2*y)\n",
    ),
];

// Entries that only the second version of reports has.
const SKIPS: [Row; 3] = [
    (
        31,
        32,
        "input 2 by 1 keep\nskip 1 2 by 2\n",
        32,
        Why::BadEntry,
    ),
    (
        31,
        32,
        "input 2 by 1 keep\nskip 1 2 by 3\n",
        32,
        Why::Reference,
    ),
    (31, 32, "skip 1 1 by 1\n", 31, Why::BadEntry),
];

const VERSIONS: [&str; 2] = ["report 1", "report 2"];

// Whether the line with this number stays.
fn is_kept(edits: &[Edit<'_>], number: usize) -> bool {
    for (from, to, _) in edits {
        if number >= *from && number < *to {
            return false;
        }
    }
    true
}

// Appends what edits put before the line with this number.
fn push_new(edits: &[Edit<'_>], number: usize, text: &mut String) -> Result<(), AllocError> {
    for (from, _, new) in edits {
        if number == *from {
            text.push_str(new)?;
        }
    }
    Ok(())
}

// The report of this version after edits.
fn edited(alloc: Global, version: &str, edits: &[Edit<'_>]) -> Result<String, AllocError> {
    let mut text = String::new(alloc);
    let mut number: usize = 1;
    for line in [version].iter().chain(LINES.iter()) {
        push_new(edits, number, &mut text)?;
        if is_kept(edits, number) {
            text.push_str(line)?;
            text.push_str("\n")?;
        }
        number = number.saturating_add(1);
    }
    push_new(edits, number, &mut text)?;
    Ok(text)
}

fn found(alloc: Global, version: &str, edits: &[Edit<'_>]) -> Result<Checked, AllocError> {
    let text = edited(alloc, version, edits)?;
    check(alloc, text.as_bytes())
}

fn refused(
    alloc: Global,
    version: &str,
    edits: &[Edit<'_>],
) -> Result<Option<(u64, Why)>, AllocError> {
    match found(alloc, version, edits)? {
        Checked::Refused { line, why } => Ok(Some((line, why))),
        Checked::Accepted { .. } => Ok(None),
    }
}

fn accepted(
    alloc: Global,
    version: &str,
    edits: &[Edit<'_>],
) -> Result<Option<(u64, u64)>, AllocError> {
    match found(alloc, version, edits)? {
        Checked::Accepted { verdicts, passed } => Ok(Some((verdicts, passed))),
        Checked::Refused { .. } => Ok(None),
    }
}

#[test]
fn a_report_that_is_cut_is_truncated(rt: HostRuntime) -> Result<(), Fail> {
    for version in VERSIONS {
        for line in 1..50usize {
            let edit = (line, 50, "");
            let expected = Some((line as u64, Why::Truncated));
            assert_eq!(rt; refused(rt.alloc(), version, &[edit])?, expected);
        }
    }
    Ok(())
}

#[test]
fn the_first_bad_line_is_told(rt: HostRuntime) -> Result<(), Fail> {
    for version in VERSIONS {
        for (from, to, text, line, why) in HEADS.iter().chain(PARTS.iter()).chain(PLACES.iter()) {
            let edit = (*from, *to, *text);
            assert_eq!(rt;
                refused(rt.alloc(), version, &[edit])?,
                Some((*line, *why)),
                "{text}"
            );
        }
    }
    Ok(())
}

#[test]
fn other_spellings_are_taken(rt: HostRuntime) -> Result<(), Fail> {
    for version in VERSIONS {
        assert_eq!(rt; accepted(rt.alloc(), version, &[])?, Some((1, 0)));
        for edit in TAKEN {
            assert_eq!(rt;
                accepted(rt.alloc(), version, &[edit])?,
                Some((1, 0)),
                "{}",
                edit.2
            );
        }
    }
    Ok(())
}

#[test]
fn the_first_version_has_no_skips(rt: HostRuntime) -> Result<(), Fail> {
    for (from, to, text, line, why) in SKIPS {
        let edit = (from, to, text);
        assert_eq!(rt;
            refused(rt.alloc(), "report 1", &[edit])?,
            Some((line, Why::Form))
        );
        assert_eq!(rt;
            refused(rt.alloc(), "report 2", &[edit])?,
            Some((line, why))
        );
    }
    Ok(())
}

// The class is zero, so nothing shows that it lives on.
#[test]
fn a_false_answer_is_not_shown(rt: HostRuntime) -> Result<(), Fail> {
    let no = (6, 7, "answer no\n");
    for version in VERSIONS {
        for line in ["lives 0 1\n", "lives 0 1 by 1\n"] {
            let found = refused(rt.alloc(), version, &[no, (47, 48, line)])?;
            assert_eq!(rt; found, Some((47, Why::Reduction)));
        }
    }
    Ok(())
}

#[test]
fn a_part_has_at_most_a_thousand_steps(rt: HostRuntime) -> Result<(), Fail> {
    let mut flips = String::new(rt.alloc());
    let mut last = 1u32.to_string(rt.alloc())?;
    for k in 2..1002u32 {
        let number = k.to_string(rt.alloc())?;
        flips.push_str("part ")?;
        flips.push_str(&number)?;
        flips.push_str(" flip ")?;
        flips.push_str(&last)?;
        flips.push_str("\n")?;
        last = number;
    }
    let found = refused(rt.alloc(), "report 2", &[(9, 9, &flips)])?;
    assert_eq!(rt; found, Some((1008, Why::Depth)));
    Ok(())
}
