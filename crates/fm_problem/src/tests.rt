// What the clauses don't say: that texts are read at all, and that the definitions are those of the grammar. The expected
// values come from an independent reader.
ghost use Rattle.std.specs.Prelude.{IfOk};
ghost use Rattle.fm_problem.specs.Problems.{IsBounded};

use crate::{FaultKind, Problem, ProblemError, Query, read_problem, read_query};
use fm_gfp::Prime;
use fm_mono::{Mono, Order};
use fm_poly::{Poly, Ring};
use std::alloc::Global;
use std::test::Fail;

// A text, the line of its first fault, and its kind.
type Row = (&'static str, u32, FaultKind);

const NORMAL_CROSSING: &[u8] = b"ring 3 x y\nideal I = x*y\nclass 1 I 0 (x^2*y)\n";

const FORMS: [Row; 23] = [
    ("", 1, FaultKind::Syntax),
    ("# only", 2, FaultKind::Syntax),
    ("# only\n", 2, FaultKind::Syntax),
    ("\r\n", 2, FaultKind::Syntax),
    ("\n\n", 3, FaultKind::Syntax),
    ("zero 1 I", 1, FaultKind::Syntax),
    ("# c\n\nideal I = x", 3, FaultKind::Syntax),
    ("order lex\nring 2 x", 1, FaultKind::Syntax),
    ("ring 2 x\r\r\n", 1, FaultKind::Syntax),
    ("ring 2 x\x0c", 1, FaultKind::Syntax),
    ("ring 2 x\x0b", 1, FaultKind::Syntax),
    ("ring 2 x\nring 4 x", 2, FaultKind::Syntax),
    ("ring 2 x\norder lex\norder lex", 3, FaultKind::Syntax),
    ("ring 2 x\nideal I = x\norder lex", 3, FaultKind::Syntax),
    ("ring 2 x\nideal I = 2x", 2, FaultKind::Syntax),
    ("ring 2 x\nideal 1I = x", 2, FaultKind::Syntax),
    ("ring 3 x\nideal I = 2^3", 2, FaultKind::Syntax),
    ("ring 2 x\nideal I = x +- x", 2, FaultKind::Syntax),
    ("ring 2 x\nideal I = x\nmember I-x", 3, FaultKind::Syntax),
    ("ring 2 x\nideal I = x\ninvert 1 I+x", 3, FaultKind::Syntax),
    ("ring 2 x\nideal I = x\nmap 1 I", 3, FaultKind::Syntax),
    (
        "ring 2 x\nideal I = x\nzero 9 T extra",
        3,
        FaultKind::Syntax,
    ),
    ("ring 2 x\nfoo\nideal I = t", 2, FaultKind::Syntax),
];

const VALUES: [Row; 24] = [
    ("ring 4 x", 1, FaultKind::NotPrime),
    ("ring 37 x", 1, FaultKind::NotPrime),
    ("ring 31 x y x", 1, FaultKind::Repeated),
    ("ring 18446744073709551618 x", 1, FaultKind::NotPrime),
    (
        "ring 2 x y\nideal I = x\nideal I = y",
        3,
        FaultKind::Repeated,
    ),
    ("ring 2 a b c d e f g h a", 1, FaultKind::Repeated),
    ("ring 2 a b c d e f g h i", 1, FaultKind::Limit),
    ("ring 2 abcdefghijklmnopq", 1, FaultKind::Limit),
    ("ring 2 x\nideal abcdefghijklmnopq = t", 2, FaultKind::Limit),
    ("ring 2 x\nideal I = x\nzero 2 I", 3, FaultKind::Range),
    (
        "ring 2 x\nideal I = x\nzero 99999999999999999999999999999999999999999999999999 I\n",
        3,
        FaultKind::Range,
    ),
    (
        "ring 2 x\nideal I = x\nzero 1 Iaaaaaaaaaaaaaaaaa",
        3,
        FaultKind::UnknownName,
    ),
    ("ring 2 x\nideal I = x\nroot 1 J", 3, FaultKind::UnknownName),
    ("ring 2 x\nideal I = x^1001", 2, FaultKind::Limit),
    ("ring 2 x\nideal I = x^600*x^401", 2, FaultKind::Limit),
    ("ring 2 x\nideal I = 0*x^1001", 2, FaultKind::Limit),
    ("ring 2 x\nideal I = x^1001-x^1001", 2, FaultKind::Limit),
    (
        "ring 2 x\nideal I = x^99999999999999999999999999999999999999999999999999",
        2,
        FaultKind::Limit,
    ),
    (
        "ring 2 x\nideal I = 18446744073709551616",
        2,
        FaultKind::Limit,
    ),
    ("ring 2 x\nideal I = t^1001", 2, FaultKind::UnknownName),
    ("ring 2 x\nideal I = x*t", 2, FaultKind::UnknownName),
    (
        "ring 2 x\nideal I = x\nclass 1 I 17 (x)",
        3,
        FaultKind::Limit,
    ),
    (
        "ring 2 x\nideal I = x\nclass 2 J 17 (t)",
        3,
        FaultKind::Range,
    ),
    (
        "ring 2 x\nideal I = x\nclass 1 I 0 (t)\nfoo",
        3,
        FaultKind::UnknownName,
    ),
];

// How a text goes up to a limit: by the number in its part, or by how often its part stands, each time with its own number.
#[derive(Clone, Copy)]
enum Reach {
    Number(u32),
    Count(u32),
}

// Texts at a limit of problem texts: what stands before the part, the part before its number and after it, what stands at the end, the
// limit, and the line in which one more is a fault.
type Limit = (
    &'static str,
    (&'static str, &'static str),
    &'static str,
    Reach,
    u32,
);

// A name is too long where its number has one digit more.
const LIMITS: [Limit; 11] = [
    (
        "ring 2 ",
        ("abcdefg", ""),
        "",
        Reach::Number(999_999_999),
        1,
    ),
    (
        "ring 2 x\n",
        ("ideal abcdefg", " = x"),
        "",
        Reach::Number(999_999_999),
        2,
    ),
    (
        "ring 2 x\nideal I = ",
        ("x^", ""),
        "",
        Reach::Number(1_000),
        2,
    ),
    (
        "ring 2 x\nideal I = x^400*",
        ("x^", ""),
        "",
        Reach::Number(600),
        2,
    ),
    (
        "ring 2 x\nideal I = 0*",
        ("x^", ""),
        "",
        Reach::Number(1_000),
        2,
    ),
    (
        "ring 2 x\nideal I = x\n",
        ("class 1 I ", " (x)"),
        "",
        Reach::Number(16),
        3,
    ),
    ("ring 2", (" x", ""), "", Reach::Count(8), 1),
    (
        "ring 2 x\n",
        ("ideal I", " = x\n"),
        "",
        Reach::Count(100),
        102,
    ),
    (
        "ring 2 x\nideal I = ",
        ("x^", ","),
        "0",
        Reach::Count(63),
        2,
    ),
    (
        "ring 2 x\nideal I = ",
        ("0*x^", ","),
        "0",
        Reach::Count(63),
        2,
    ),
    (
        "ring 2 x\nideal I = x\n",
        ("class 1 I 0 (x^", ")\n"),
        "",
        Reach::Count(1_000),
        1_003,
    ),
];

fn fault_of(alloc: Global, text: &[u8]) -> Result<Option<(u32, FaultKind)>, Fail> {
    if text.len() > 1_048_576 {
        return Ok(None);
    }
    match read_problem(alloc, text) {
        Ok(_) => Ok(None),
        Err(ProblemError::Fault { line, kind }) => Ok(Some((line, kind))),
        Err(error) => Err(error)?,
    }
}

fn problem_of(alloc: Global, text: &[u8]) -> Result<Problem, Fail>
    ensures { IfOk result IsBounded }
{
    let short = if text.len() > 1_048_576 {
        b"".as_slice()
    } else {
        text
    };
    let problem = read_problem(alloc, short)?;
    Ok(problem)
}

fn is_mono(m: Mono, want: &[u32]) -> bool {
    if usize::from(m.vars()) != want.len() {
        return false;
    }
    for k in 0..m.vars() {
        if m.exponent(k) != want[usize::from(k)] {
            return false;
        }
    }
    true
}

fn is_poly(f: &Poly, want: &[(u8, &[u32])]) -> bool {
    let terms = f.terms();
    if terms.len() != want.len() {
        return false;
    }
    for (t, (coeff, exponents)) in terms.iter().zip(want) {
        if t.coeff.number() != *coeff || !is_mono(t.mono, exponents) {
            return false;
        }
    }
    true
}

#[test]
fn names_the_first_fault(rt: HostRuntime) -> Result<(), Fail> {
    for (text, line, kind) in FORMS.iter().chain(VALUES.iter()) {
        let found = fault_of(rt.alloc(), text.as_bytes())?;
        assert_eq!(rt; found, Some((*line, *kind)), "{text}");
    }
    Ok(())
}

#[test]
fn reads_whole_problems(rt: HostRuntime) -> Result<(), Fail> {
    let text =
        b" ring 007 x y\r\n#\xff\n\t\norder lex\nideal I = - x^2 * x*3 + 10*y ^ 0 - 0*y + x,0\nclass 01 I 16(y-y+x*y )";
    let problem = problem_of(rt.alloc(), text)?;
    let ring = Ring {
        prime: Prime::Seven,
        vars: 2,
        order: Order::Lex,
    };
    assert_eq!(rt; problem.ring, ring);
    let names = problem.vars.as_slice();
    assert!(rt; names.len() == 2 && names[0].as_str() == "x" && names[1].as_str() == "y");
    let ideals = problem.ideals.as_slice();
    assert!(rt; ideals.len() == 1 && ideals[0].name.as_str() == "I");
    let generators = ideals[0].generators.as_slice();
    assert!(rt; generators.len() == 1);
    assert!(rt; is_poly(&generators[0], &[(4, &[3, 0]), (1, &[1, 0]), (3, &[0, 0])]));
    let queries = problem.queries.as_slice();
    assert!(rt; queries.len() == 1);
    match &queries[0] {
        Query::Class {
            i: 1,
            ideal: 0,
            e: 16,
            z,
        } => {
            let entries = z.as_slice();
            assert!(rt; entries.len() == 1 && is_poly(&entries[0], &[(1, &[1, 1])]));
        }
        _ => assert!(rt; false),
    }
    Ok(())
}

#[test]
fn reads_queries_alone(rt: HostRuntime) -> Result<(), Fail> {
    let problem = problem_of(rt.alloc(), b"ring 2 x\nideal J = x+1\nideal I = x^2")?;
    let query = read_query(rt.alloc(), &problem, b" class 1 I 3 (x+1+1) ")?;
    match &query {
        Query::Class {
            i: 1,
            ideal: 1,
            e: 3,
            z,
        } => {
            let entries = z.as_slice();
            assert!(rt; entries.len() == 1 && is_poly(&entries[0], &[(1, &[1])]));
        }
        _ => assert!(rt; false),
    }
    let map = read_query(rt.alloc(), &problem, b"map 1 I J")?;
    assert!(rt;
        matches!(
            map,
            Query::Map {
                i: 1,
                source: 1,
                target: 0
            }
        )
    );
    let rows = [
        ("class 1 I 0 (1)\r", FaultKind::Syntax),
        ("# class 1 I 0 (1)", FaultKind::Syntax),
        ("  ", FaultKind::Syntax),
        ("class 1 K 0 (1)", FaultKind::UnknownName),
        ("map 3 K J", FaultKind::Range),
        ("map 1 I K", FaultKind::UnknownName),
    ];
    for (line, want) in rows {
        match read_query(rt.alloc(), &problem, line.as_bytes()) {
            Err(ProblemError::Fault { line: 1, kind }) => assert_eq!(rt; kind, want, "{line}"),
            _ => assert!(rt; false, "{line}"),
        }
    }
    Ok(())
}

#[test]
fn judges_cut_texts(rt: HostRuntime) -> Result<(), Fail> {
    for cut in 0..NORMAL_CROSSING.len() {
        let line = match cut {
            0..=7 => 1,
            12..=21 | 23 => 2,
            26..=43 => 3,
            _ => 0,
        };
        let want = if line == 0 {
            None
        } else {
            Some((line, FaultKind::Syntax))
        };
        let found = fault_of(rt.alloc(), &NORMAL_CROSSING[..cut])?;
        assert_eq!(rt; found, want, "{cut}");
    }
    Ok(())
}

// `head`, `count` times `part`, and `tail`.
fn repeated(
    alloc: Global,
    head: &str,
    part: &str,
    count: u32,
    tail: &str,
) -> Result<Vec<u8>, Fail> {
    let mut text = Vec::new(alloc);
    text.extend_from_slice(head.as_bytes())?;
    for _ in 0..count {
        text.extend_from_slice(part.as_bytes())?;
    }
    text.extend_from_slice(tail.as_bytes())?;
    Ok(text)
}

// `ring 2 x`, `count` ideals, and a last line.
fn with_ideals(alloc: Global, count: u32, last: &str) -> Result<Vec<u8>, Fail> {
    let mut text = Vec::new(alloc);
    text.extend_from_slice(b"ring 2 x\n")?;
    for k in 0..count {
        text.extend_from_slice(format!(in alloc; "ideal I{k} = x\n")?.as_bytes())?;
    }
    text.extend_from_slice(last.as_bytes())?;
    Ok(text)
}

// The text at its limit, or past it by one.
fn text_at(alloc: Global, limit: &Limit, past: u8) -> Result<Vec<u8>, Fail> {
    let (head, (before, after), tail, reach, _) = *limit;
    let past = u32::from(past);
    let numbers = match reach {
        Reach::Number(most) => most.saturating_add(past)..most.saturating_add(past + 1),
        Reach::Count(most) => 0..most.saturating_add(past),
    };
    let mut text = Vec::new(alloc);
    text.extend_from_slice(head.as_bytes())?;
    for k in numbers {
        text.extend_from_slice(format!(in alloc; "{before}{k}{after}")?.as_bytes())?;
    }
    text.extend_from_slice(tail.as_bytes())?;
    Ok(text)
}

#[test]
fn reads_texts_up_to_the_limits(rt: HostRuntime) -> Result<(), Fail> {
    let alloc = rt.alloc();
    for limit in &LIMITS {
        let within = text_at(alloc, limit, 0)?;
        let past = text_at(alloc, limit, 1)?;
        let fault = Some((limit.4, FaultKind::Limit));
        assert_eq!(rt; fault_of(alloc, &within)?, None, "{}", limit.1.0);
        assert_eq!(rt; fault_of(alloc, &past)?, fault, "{}", limit.1.0);
    }
    Ok(())
}

#[test]
fn reads_texts_at_the_limits(rt: HostRuntime) -> Result<(), Fail> {
    for text in [
        "ring 31 a b c d e f g h",
        "ring 29 abcdefghijklmnop\nideal abcdefghijklmnop = abcdefghijklmnop",
        "ring 23 x\nideal I = x^1000+x^400*x^600",
        "ring 19 x\nideal I = x\nclass 1 I 16 (x)",
        "ring 17 x\nideal I = 18446744073709551615*x",
    ] {
        assert_eq!(rt; fault_of(rt.alloc(), text.as_bytes())?, None, "{text}");
    }
    Ok(())
}

#[test]
fn judges_long_texts(rt: HostRuntime) -> Result<(), Fail> {
    let alloc = rt.alloc();
    let head = "ring 2 x\nideal I = ";
    assert_eq!(rt;
        fault_of(alloc, &repeated(alloc, head, "x,", 63, "0")?)?,
        None
    );
    let limit = Some((2, FaultKind::Limit));
    assert_eq!(rt;
        fault_of(alloc, &repeated(alloc, head, "0,", 64, "x")?)?,
        limit
    );
    assert_eq!(rt;
        fault_of(alloc, &repeated(alloc, head, "x,", 64, "-t")?)?,
        limit
    );
    let unknown = Some((2, FaultKind::UnknownName));
    assert_eq!(rt;
        fault_of(alloc, &repeated(alloc, head, "x,", 63, "t,x")?)?,
        unknown
    );
    assert_eq!(rt; fault_of(alloc, &with_ideals(alloc, 100, "")?)?, None);
    assert_eq!(rt;
        fault_of(alloc, &with_ideals(alloc, 100, "ideal I0 = t")?)?,
        Some((102, FaultKind::Limit))
    );
    assert_eq!(rt;
        fault_of(alloc, &with_ideals(alloc, 100, "ideal J x")?)?,
        Some((102, FaultKind::Syntax))
    );
    let query = "class 1 I 0 (x)\n";
    let begun = "ring 2 x\nideal I = x\n";
    assert_eq!(rt;
        fault_of(alloc, &repeated(alloc, begun, query, 1000, "")?)?,
        None
    );
    assert_eq!(rt;
        fault_of(alloc, &repeated(alloc, begun, query, 1000, "zero 9 t")?)?,
        Some((1003, FaultKind::Limit))
    );
    assert_eq!(rt;
        fault_of(alloc, &repeated(alloc, begun, query, 1000, "zero 9")?)?,
        Some((1003, FaultKind::Syntax))
    );
    Ok(())
}
