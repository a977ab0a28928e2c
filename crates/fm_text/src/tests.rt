// Texts as they are written, and as they are printed, by hand.
ghost use Rattle.std.specs.Prelude.{IfOk, length, ◌≡◌};

use crate::{PolyFault, push_poly, read_poly};
use fm_gfp::Prime;
use fm_mono::Order;
use fm_poly::Ring;
use std::alloc::{AllocError, Global};
use std::test::Fail;

const PLANE: Ring = Ring {
    prime: Prime::Five,
    vars: 2,
    order: Order::Grevlex,
};

// A polynomial as it is written, and as it is printed.
const PRINTED: [(&str, &str); 14] = [
    ("0", "0"),
    ("1", "1"),
    ("4", "4"),
    ("-1", "4"),
    ("x", "x"),
    ("3*x", "3*x"),
    ("-2*x", "3*x"),
    ("x-x", "0"),
    ("y1^2", "y1^2"),
    ("y1*x", "x*y1"),
    ("2*x^10*y1^16777215", "2*x^10*y1^16777215"),
    ("1+x^2*y1+3*y1+x*y1^2", "x^2*y1+x*y1^2+3*y1+1"),
    ("-x^16777215*y1+06*x+0*y1^16777215", "4*x^16777215*y1+x"),
    ("x^1*x^0*x+y1^0*18446744073709551615*x^2", "x^2"),
];

const FORMLESS: [&str; 9] = [
    "",
    "x y1",
    "x +y1",
    "t",
    "x^16777216+t",
    "x^16777216*18446744073709551616",
    "18446744073709551616",
    "2^3",
    "x+",
];

const TOO_GREAT: [&str; 3] = ["x^16777216", "0*x^16777215*x", "y1-x^99999999999999999999"];

fn names(alloc: Global) -> Result<Vec<String>, AllocError>
    ensures { IfOk result (λ v. length v.items ≡ 2) }
{
    let x = String::from_str(alloc, "x")?;
    let y = String::from_str(alloc, "y1")?;
    let mut names = Vec::new(alloc);
    names.push(x)?;
    names.push(y)?;
    Ok(names)
}

fn is_printed(alloc: Global, written: &str, printed: &str) -> Result<bool, Fail> {
    let names = names(alloc)?;
    let f = read_poly(alloc, PLANE, &names, written.as_bytes())?;
    let ring = f.ring();
    if ring != PLANE {
        return Ok(false);
    }
    let mut out = Vec::from_slice(alloc, b"= ")?;
    push_poly(&names, &f, &mut out)?;
    Ok(out.as_slice().strip_prefix(b"= ") == Some(printed.as_bytes()))
}

#[test]
fn printed_forms(rt: HostRuntime) -> Result<(), Fail> {
    for (written, printed) in PRINTED {
        assert!(rt; is_printed(rt.alloc(), written, printed)?, "{written}");
    }
    Ok(())
}

#[test]
fn refused_texts(rt: HostRuntime) -> Result<(), Fail> {
    let names = names(rt.alloc())?;
    for text in FORMLESS {
        assert!(rt;
            matches!(
                &read_poly(rt.alloc(), PLANE, &names, text.as_bytes()),
                Err(PolyFault::Form)
            ),
            "{text}"
        );
    }
    for text in TOO_GREAT {
        assert!(rt;
            matches!(
                &read_poly(rt.alloc(), PLANE, &names, text.as_bytes()),
                Err(PolyFault::Exponent)
            ),
            "{text}"
        );
    }
    Ok(())
}
