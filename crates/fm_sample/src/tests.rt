// That samples are drawn at all, and that the definition is that of the draws. The exponents come from a script of the rule.
use crate::sample;
use fm_poly::Poly;
use fm_problem::{Ideal, Query};
use std::alloc::{AllocError, Global};
use std::test::Fail;

// A number, and for each ideal the exponents of x, y, z, w of each generator.
const SAMPLES: [(u32, [&str; 20]); 3] = [
    (
        0,
        [
            "0112 2220 0100 1001",
            "2112 1220",
            "1202 2101 1021 1201",
            "1021 2010 0022",
            "1221 2211 2202",
            "0120 2112 0022 1020",
            "0200 0222",
            "0221 1000",
            "0022 2200 2011",
            "0111 0101",
            "2002 2000",
            "2102 0110",
            "0202 2110 1012",
            "2211 0112",
            "2210 1212",
            "0022 2001 2102 1021",
            "1202 0221 0212 1020",
            "2102 1020",
            "1212 1022 1200",
            "2120 0220 2002 0210",
        ],
    ),
    (
        7,
        [
            "2021 2101 1102 2010",
            "0211 1020",
            "2011 1212 2011 0121",
            "2202 2020 2221 1001",
            "1202 2022 0022",
            "1001 2002 2012",
            "1210 0111 1200 2220",
            "1100 2221 0210 2222",
            "2102 0222 0121 0202",
            "1220 0010",
            "0121 1211",
            "0202 1220 2200",
            "1210 0002 1101",
            "2101 1011",
            "0101 0012 0102 1000",
            "1120 0221 1120 1202",
            "1121 2102 1012 1022",
            "1202 2112 2001 1000",
            "0122 1120 2022 2211",
            "2101 0011 2222 0200",
        ],
    ),
    (
        999_999,
        [
            "1002 0101 1002",
            "0221 0222",
            "0211 0110 1000 1102",
            "0100 1211 2121 1201",
            "2001 0210",
            "0010 2012",
            "0120 2221 1122",
            "2220 1211 0001 2010",
            "2110 0002",
            "2201 2101 2000 1121",
            "2101 0221 0211",
            "1121 0022",
            "2100 1211",
            "0112 2012",
            "2101 2100 0012",
            "1002 0011 0012 2202",
            "0221 1222",
            "0221 0122",
            "1000 1222 0100",
            "2102 2122",
        ],
    ),
];

fn push_exponents(alloc: Global, f: &Poly, out: &mut Vec<u8>) -> Result<(), AllocError> {
    for term in f.terms() {
        for k in 0..term.mono.vars() {
            let exponent = term.mono.exponent(k);
            out.extend_from_slice(exponent.to_string(alloc)?.as_bytes())?;
        }
    }
    Ok(())
}

fn exponents(alloc: Global, ideal: &Ideal) -> Result<Vec<u8>, AllocError> {
    let mut out = Vec::new(alloc);
    for generator in ideal.generators.as_slice() {
        if !out.is_empty() {
            out.push(b' ')?;
        }
        push_exponents(alloc, generator, &mut out)?;
    }
    Ok(out)
}

#[test]
fn draws_ideals(rt: HostRuntime) -> Result<(), Fail> {
    for (number, expected) in SAMPLES {
        let problem = sample(rt.alloc(), number)?;
        assert_eq!(rt; problem.ideals.len(), 20);
        for (ideal, row) in problem.ideals.as_slice().iter().zip(expected) {
            let found = exponents(rt.alloc(), ideal)?;
            assert_eq!(rt; found.as_slice(), row.as_bytes(), "sample {number}");
        }
    }
    Ok(())
}

#[test]
fn asks_three_queries_on_each_ideal(rt: HostRuntime) -> Result<(), Fail> {
    let problem = sample(rt.alloc(), 3)?;
    assert_eq!(rt; problem.queries.len(), 60);
    let mut kinds = Vec::new(rt.alloc());
    for query in problem.queries.as_slice() {
        kinds.push(match query {
            Query::Zero { i, ideal } => (b'z', *i, *ideal),
            Query::Invert { i, ideal, .. } => (b'i', *i, *ideal),
            _ => (b'?', 0, 0),
        })?;
    }
    assert_eq!(rt; kinds.get(0), Some(&(b'z', 2, 0)));
    assert_eq!(rt; kinds.get(1), Some(&(b'z', 3, 0)));
    assert_eq!(rt; kinds.get(2), Some(&(b'i', 2, 0)));
    assert_eq!(rt; kinds.get(59), Some(&(b'i', 2, 19)));
    let names = problem.ideals.as_slice();
    assert_eq!(rt; names.get(0).map(|ideal| ideal.name.as_str()), Some("I1"));
    assert_eq!(rt; names.get(19).map(|ideal| ideal.name.as_str()), Some("I20"));
    Ok(())
}
