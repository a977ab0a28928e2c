// The sum of two lists, written into a buffer.
ghost use Rattle.std.specs.Prelude.{All, IsErrOf, OnOk, false, true, ◌++◌, ◌<◌, ◌≡◌};
ghost use Rattle.fm_gfp.specs.Primes.{prime_value};
ghost use Rattle.fm_algebra.specs.Polynomials.{polynomial_sum};
ghost use Rattle.fm_poly.specs.Polys.{IsCanonical, IsTermOf, meaning};
ghost use Rattle.fm_poly.specs.Steps.{like_sum, row_fits, row_terms};

use fm_poly::{PolyError, Ring, Term};
use std::alloc::AllocError;
use std::cmp::Ordering;

pub(crate) fn merge(
    ring: Ring,
    f: &[Term],
    g: &[Term],
    out: &mut Vec<Term>,
) -> Result<(), AllocError>
    requires f_canonical { IsCanonical ring f.now }
    requires g_canonical { IsCanonical ring g.now }
    ensures canonical { OnOk result (IsCanonical ring out.new.items) }
    ensures sum { OnOk result (meaning ring out.new.items
        ≡ polynomial_sum ring.prime ring.vars (meaning ring f.now) (meaning ring g.now)) }
{
    out.clear();
    let mut f = f;
    let mut g = g;
    'terms: loop {
        let Some((x, later_f)) = f.split_first() else {
            out.extend_from_slice(g)?;
            return Ok(());
        };
        let Some((y, later_g)) = g.split_first() else {
            out.extend_from_slice(f)?;
            return Ok(());
        };
        match x.mono.compare(ring.order, &y.mono) {
            Ordering::Greater => {
                out.push(*x)?;
                f = later_f;
            }
            Ordering::Less => {
                out.push(*y)?;
                g = later_g;
            }
            Ordering::Equal => {
                push_like(ring, out, x, y)?;
                f = later_f;
                g = later_g;
            }
        }
    }
}

/// Appends the sum of two like terms, unless it is zero.
#[inline]
fn push_like(ring: Ring, out: &mut Vec<Term>, x: &Term, y: &Term) -> Result<(), AllocError>
    requires x_below { x.now.coeff < prime_value ring.prime }
    requires y_below { y.now.coeff < prime_value ring.prime }
    ensures { OnOk result (out.new.items ≡ out.old.items ++ like_sum ring x.now y.now) }
{
    let coeff = ring.prime.add(x.coeff, y.coeff);
    if coeff.number() != 0 {
        out.push(Term {
            mono: x.mono,
            coeff,
        })?;
    }
    Ok(())
}

/// The multiple t * g, written into a buffer.
pub(crate) fn multiple(
    ring: Ring,
    t: &Term,
    g: &[Term],
    out: &mut Vec<Term>,
) -> Result<(), PolyError>
    requires term { IsTermOf ring t.now }
    requires terms { All (IsTermOf ring) g.now }
    ensures terms { OnOk result (out.new.items ≡ row_terms ring t.now g.now) }
    ensures fits { OnOk result (row_fits t.now g.now ≡ true) }
    ensures exponent { IsErrOf result PolyError.Exponent → row_fits t.now g.now ≡ false }
{
    out.clear();
    out.reserve(g.len())?;
    for u in g {
        let Some(mono) = t.mono.times(u.mono) else {
            return Err(PolyError::Exponent);
        };
        let coeff = ring.prime.mul(t.coeff, u.coeff);
        out.push(Term { mono, coeff })?;
    }
    Ok(())
}
