// The sum of two polynomials: their terms are merged.
ghost use Rattle.std.specs.Prelude.{IfOk, OnOk, ◌++◌, ◌<◌, ◌≡◌};
ghost use Rattle.fm_gfp.specs.Primes.{prime_value};
ghost use Rattle.fm_algebra.specs.Polynomials.{polynomial_sum};
ghost use Rattle.fm_poly.specs.Polys.{IsCanonical, meaning};
ghost use Rattle.fm_poly.specs.Steps.{kept, like_sum};

use crate::{Ring, Term};
use std::alloc::{AllocError, Global};
use std::cmp::Ordering;

pub(crate) fn merge(
    alloc: Global,
    ring: Ring,
    f: &[Term],
    g: &[Term],
) -> Result<Vec<Term>, AllocError>
    requires f_canonical { IsCanonical ring f.now }
    requires g_canonical { IsCanonical ring g.now }
    ensures canonical { IfOk result (λ h. IsCanonical ring h.items) }
    ensures sum { IfOk result (λ h. meaning ring h.items
        ≡ polynomial_sum ring.prime ring.vars (meaning ring f.now) (meaning ring g.now)) }
{
    let mut out = Vec::new(alloc);
    let mut f = f;
    let mut g = g;
    'terms: loop {
        let Some((x, later_f)) = f.split_first() else {
            out.extend_from_slice(g)?;
            return Ok(out);
        };
        let Some((y, later_g)) = g.split_first() else {
            out.extend_from_slice(f)?;
            return Ok(out);
        };
        match x.mono.compare(ring.order, &y.mono) {
            Ordering::Greater => {
                out.push(*x)?;
                f = later_f;
            }
            Ordering::Less => {
                out.push(*y)?;
                g = later_g;
            }
            Ordering::Equal => {
                push_like(ring, &mut out, x, y)?;
                f = later_f;
                g = later_g;
            }
        }
    }
}

/// Appends the sum of two like terms.
fn push_like(ring: Ring, out: &mut Vec<Term>, x: &Term, y: &Term) -> Result<(), AllocError>
    requires x_below { x.now.coeff < prime_value ring.prime }
    requires y_below { y.now.coeff < prime_value ring.prime }
    ensures { OnOk result (out.new.items ≡ out.old.items ++ like_sum ring x.now y.now) }
{
    let coeff = ring.prime.add(x.coeff, y.coeff);
    push_kept(
        out,
        &Term {
            mono: x.mono,
            coeff,
        },
    )?;
    Ok(())
}

/// Appends a term that isn't zero.
pub(crate) fn push_kept(out: &mut Vec<Term>, t: &Term) -> Result<(), AllocError>
    ensures { OnOk result (out.new.items ≡ out.old.items ++ kept t.now) }
{
    if t.coeff.number() != 0 {
        out.push(*t)?;
    }
    Ok(())
}
