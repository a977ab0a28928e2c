// The orders against printed lists, and the bound on exponents.
ghost use Rattle.std.specs.Prelude.{length, ◌≡◌};

use crate::mono::Mono;
use crate::order::Order;
use std::cmp::Ordering;
use std::process::Abort;

// All monomials of degree at most 3 in x > y > z, falling, as Macaulay2 and Singular sort them.
const GREVLEX: [[u8; 3]; 20] = [
    [3, 0, 0],
    [2, 1, 0],
    [1, 2, 0],
    [0, 3, 0],
    [2, 0, 1],
    [1, 1, 1],
    [0, 2, 1],
    [1, 0, 2],
    [0, 1, 2],
    [0, 0, 3],
    [2, 0, 0],
    [1, 1, 0],
    [0, 2, 0],
    [1, 0, 1],
    [0, 1, 1],
    [0, 0, 2],
    [1, 0, 0],
    [0, 1, 0],
    [0, 0, 1],
    [0, 0, 0],
];

const DEGLEX: [[u8; 3]; 20] = [
    [3, 0, 0],
    [2, 1, 0],
    [2, 0, 1],
    [1, 2, 0],
    [1, 1, 1],
    [1, 0, 2],
    [0, 3, 0],
    [0, 2, 1],
    [0, 1, 2],
    [0, 0, 3],
    [2, 0, 0],
    [1, 1, 0],
    [1, 0, 1],
    [0, 2, 0],
    [0, 1, 1],
    [0, 0, 2],
    [1, 0, 0],
    [0, 1, 0],
    [0, 0, 1],
    [0, 0, 0],
];

const LEX: [[u8; 3]; 20] = [
    [3, 0, 0],
    [2, 1, 0],
    [2, 0, 1],
    [2, 0, 0],
    [1, 2, 0],
    [1, 1, 1],
    [1, 1, 0],
    [1, 0, 2],
    [1, 0, 1],
    [1, 0, 0],
    [0, 3, 0],
    [0, 2, 1],
    [0, 2, 0],
    [0, 1, 2],
    [0, 1, 1],
    [0, 1, 0],
    [0, 0, 3],
    [0, 0, 2],
    [0, 0, 1],
    [0, 0, 0],
];

#[tactic(auto, using(crate::proofs::Bounds::within_more))]
fn in_three(exponents: &[u8; 3]) -> Mono
    ensures { length result ≡ 3 }
{
    let [x, y, z] = *exponents;
    Mono::of(&[u32::from(x), u32::from(y), u32::from(z)])
}

fn falls(rt: &impl Abort, order: Order, list: &[[u8; 3]; 20]) {
    for i in 0..20 {
        for j in 0..20 {
            let found = order.compare(in_three(&list[i]), in_three(&list[j]));
            assert_eq!(rt; found, j.cmp(&i), "{order:?} at {i} and {j}");
        }
    }
}

#[test]
fn orders_of_degree_at_most_three(rt: HostRuntime) {
    falls(&rt, Order::Grevlex, &GREVLEX);
    falls(&rt, Order::Deglex, &DEGLEX);
    falls(&rt, Order::Lex, &LEX);
}

// A variable is greater than those after it, in each order and at each of the eight places.
#[test]
fn variables_fall(rt: HostRuntime) {
    let variables = [
        Mono::of(&[1, 0, 0, 0, 0, 0, 0, 0]),
        Mono::of(&[0, 1, 0, 0, 0, 0, 0, 0]),
        Mono::of(&[0, 0, 1, 0, 0, 0, 0, 0]),
        Mono::of(&[0, 0, 0, 1, 0, 0, 0, 0]),
        Mono::of(&[0, 0, 0, 0, 1, 0, 0, 0]),
        Mono::of(&[0, 0, 0, 0, 0, 1, 0, 0]),
        Mono::of(&[0, 0, 0, 0, 0, 0, 1, 0]),
        Mono::of(&[0, 0, 0, 0, 0, 0, 0, 1]),
    ];
    for order in [Order::Grevlex, Order::Deglex, Order::Lex] {
        for i in 0..8 {
            for j in 0..8 {
                let (a, b) = (variables[i], variables[j]);
                if a.vars() == b.vars() {
                    assert_eq!(rt; order.compare(a, b), j.cmp(&i), "{order:?} at {i} and {j}");
                }
            }
        }
    }
}

// Exponents of one degree that don't fit sixteen bits.
#[test]
fn large_exponents_compare(rt: HostRuntime) {
    let a = Mono::of(&[16_777_215, 65_536, 1]);
    let b = Mono::of(&[16_777_214, 65_538, 0]);
    assert_eq!(rt; Order::Lex.compare(a, b), Ordering::Greater);
    assert_eq!(rt; Order::Deglex.compare(a, b), Ordering::Greater);
    assert_eq!(rt; Order::Grevlex.compare(a, b), Ordering::Less);
}

#[test]
fn products_meet_the_bound(rt: HostRuntime) {
    let full = Mono::of(&[16_777_215, 0]);
    assert_eq!(rt;
        full.times(Mono::of(&[0, 1])),
        Some(Mono::of(&[16_777_215, 1]))
    );
    assert_eq!(rt; full.times(Mono::of(&[1, 0])), None);
    assert_eq!(rt; Mono::of(&[1, 16_777_215]).times(Mono::of(&[0, 1])), None);
    assert_eq!(rt;
        Mono::of(&[10_000_000, 7]).times(Mono::of(&[6_777_215, 8])),
        Some(Mono::of(&[16_777_215, 15]))
    );
    assert_eq!(rt;
        Mono::of(&[10_000_000, 7]).times(Mono::of(&[6_777_216, 8])),
        None
    );
    assert_eq!(rt;
        Mono::of(&[10_000_000, 7]).times_within(&Mono::of(&[6_777_215, 8])),
        Mono::of(&[16_777_215, 15])
    );
}

#[test]
fn twists_meet_the_bound(rt: HostRuntime) {
    assert_eq!(rt;
        Mono::of(&[5_592_405, 1]).twist(3, 1),
        Some(Mono::of(&[16_777_215, 3]))
    );
    assert_eq!(rt; Mono::of(&[1, 8_388_608]).twist(2, 1), None);
    assert_eq!(rt; Mono::of(&[1]).twist(2, 23), Some(Mono::of(&[8_388_608])));
    assert_eq!(rt; Mono::of(&[1]).twist(2, 24), None);
    assert_eq!(rt; Mono::of(&[1]).twist(13, 5), Some(Mono::of(&[371_293])));
    assert_eq!(rt; Mono::of(&[1]).twist(13, 7), None);
    assert_eq!(rt; Mono::one(8).twist(31, 255), Some(Mono::one(8)));
}

#[test]
fn monomials_divide(rt: HostRuntime) {
    let a = Mono::of(&[4, 2, 0, 7]);
    let b = Mono::of(&[1, 2, 0, 5]);
    assert!(rt; b.divides(a));
    assert!(rt; !a.divides(b));
    assert!(rt; !Mono::of(&[0, 0, 1, 0]).divides(a));
    assert_eq!(rt;
        Mono::of(&[4, 2, 0, 7]).quotient(Mono::of(&[1, 2, 0, 5])),
        Mono::of(&[3, 0, 0, 2])
    );
    assert_eq!(rt; a.lcm(Mono::of(&[5, 0, 1, 7])), Mono::of(&[5, 2, 1, 7]));
    assert_eq!(rt; a.degree(), 13);
    assert_eq!(rt; a.vars(), 4);
    for (k, exponent) in [(0, 4), (1, 2), (2, 0), (3, 7)] {
        assert_eq!(rt; a.exponent(k), exponent);
    }
}
