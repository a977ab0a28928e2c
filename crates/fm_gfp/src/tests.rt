// Primes and residues against known values.
use crate::prime::Prime;

#[test]
fn primes_below_forty(rt: HostRuntime) {
    for n in 0..40 {
        let listed = [2, 3, 5, 7, 11, 13, 17, 19, 23, 29, 31].contains(&n);
        match Prime::of(n) {
            Some(p) => assert_eq!(rt; (u64::from(p.value()), listed), (n, true)),
            None => assert!(rt; !listed, "{n}"),
        }
    }
}

#[test]
fn residues_modulo_thirteen(rt: HostRuntime) {
    let p = Prime::Thirteen;
    let inverses = [1, 7, 9, 10, 8, 11, 2, 5, 3, 4, 6, 12];
    for k in 1..=12 {
        let a = p.element(k);
        assert!(rt; a.number() > 0);
        assert_eq!(rt; p.inverse(a), p.element(inverses[(k - 1) as usize]), "{k}");
    }
    let three = p.element(3);
    let large = p.element(18_446_744_073_709_551_608);
    assert_eq!(rt; large.number(), 8);
    assert_eq!(rt; p.sub(three, p.element(5)).number(), 11);
    assert_eq!(rt; p.add(p.element(9), p.element(7)).number(), 3);
    assert_eq!(rt; p.mul(p.element(12), p.element(11)).number(), 2);
    assert_eq!(rt; p.neg(three).number(), 10);
    assert_eq!(rt; p.neg(p.element(26)).number(), 0);
}

// Inverses modulo 31, by hand.
#[test]
fn residues_modulo_thirty_one(rt: HostRuntime) {
    let p = Prime::ThirtyOne;
    for (a, b) in [
        (1, 1),
        (2, 16),
        (3, 21),
        (4, 8),
        (5, 25),
        (6, 26),
        (7, 9),
        (30, 30),
    ] {
        assert_eq!(rt; p.inverse(p.element(a)).number(), b, "{a}");
    }
    let last = p.element(30);
    assert_eq!(rt; p.mul(last, last).number(), 1);
    assert_eq!(rt; p.add(last, last).number(), 29);
    assert_eq!(rt; p.sub(p.element(0), last).number(), 1);
    assert_eq!(rt; p.neg(last).number(), 1);
    assert_eq!(rt; p.element(18_446_744_073_709_551_615).number(), 15);
}
