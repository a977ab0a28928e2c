// Laws of the program's polynomials.
ghost use Rattle.std.specs.Prelude.{List, [], ℕ, ◌%◌, ◌*◌, ◌<◌, ◌^◌, ◌∷◌, ◌↔◌, ◌≡◌};
ghost use Rattle.fm_tuple.specs.Tuple.{tuple_sum};
ghost use Rattle.fm_gfp.specs.Primes.{prime_value};
ghost use Rattle.fm_gfp.specs.declared.prime.Prime.{Prime};
ghost use Rattle.fm_mono.specs.Orders.{monomial_cmp};
ghost use Rattle.fm_mono.specs.declared.order.Order.{Order};
ghost use Rattle.fm_algebra.specs.Polynomials.{
  HasHead,
  Polynomial,
  coefficient,
  frobenius_twist,
  polynomial_multiple,
  polynomial_power,
  polynomial_product,
  polynomial_sum,
  polynomial_zero,
};
ghost use Rattle.fm_poly.specs.Bounds.{
  IsBeyondBound,
  IsWithinBound,
  PowerFits,
  PowerPasses,
  ProductFits,
  ProductPasses,
  TwistFits,
  TwistPasses,
};
ghost use Rattle.fm_poly.specs.Polys.{IsCanonical, meaning};
ghost use Rattle.fm_poly.specs.Steps.{scaled_terms, twist_terms};
ghost use Rattle.fm_poly.specs.declared.ring.Ring.{Ring};
ghost use Rattle.fm_poly.specs.declared.term.Term.{Term};

/// A polynomial has one strictly falling list of nonzero terms, so what a contract says of the meaning of a result
/// determines its terms.
pub fn canonical_lists_are_unique()
    ensures { (r : Ring) (ts us : List Term) → IsCanonical r ts → IsCanonical r us
        → meaning r ts ≡ meaning r us → ts ≡ us }
{}

/// The polynomial 0 is kept as the empty list.
pub fn zero_has_no_terms()
    ensures { (r : Ring) (ts : List Term) → IsCanonical r ts
        → (ts ≡ []) ↔ (meaning r ts ≡ polynomial_zero r.prime r.vars) }
{}

/// The first term is the leading term.
pub fn the_first_term_leads()
    ensures head { (r : Ring) (t : Term) (ts : List Term) → IsCanonical r (t ∷ ts)
        → HasHead r.prime r.vars (monomial_cmp r.order) (meaning r (t ∷ ts)) t.mono }
    ensures coefficient { (r : Ring) (t : Term) (ts : List Term) → IsCanonical r (t ∷ ts)
        → coefficient r.prime r.vars (meaning r (t ∷ ts)) t.mono ≡ t.coeff }
{}

/// The leading monomial of a product is the product of the leading monomials, and its coefficient the product of
/// theirs (Cox, Little and O'Shea, Ideals, Varieties, and Algorithms, chapter 2, section 2).
pub fn heads_of_products()
    ensures head { (p : Prime) (n : ℕ) (o : Order) (f g : Polynomial p n) (a b : List ℕ)
        → HasHead p n (monomial_cmp o) f a → HasHead p n (monomial_cmp o) g b
        → HasHead p n (monomial_cmp o) (polynomial_product p n f g) (tuple_sum a b) }
    ensures coefficient { (p : Prime) (n : ℕ) (o : Order) (f g : Polynomial p n) (a b : List ℕ)
        → HasHead p n (monomial_cmp o) f a → HasHead p n (monomial_cmp o) g b
        → coefficient p n (polynomial_product p n f g) (tuple_sum a b)
        ≡ (coefficient p n f a * coefficient p n g b) % prime_value p }
{}

/// The first term of a product is the product of the first terms.
pub fn first_terms_of_products()
    ensures { (r : Ring) (t u v : Term) (ts us vs : List Term)
        → IsCanonical r (t ∷ ts) → IsCanonical r (u ∷ us) → IsCanonical r (v ∷ vs)
        → meaning r (v ∷ vs) ≡ polynomial_product r.prime r.vars (meaning r (t ∷ ts)) (meaning r (u ∷ us))
        → (v.mono ≡ tuple_sum t.mono u.mono) × (v.coeff ≡ (t.coeff * u.coeff) % prime_value r.prime) }
{}

/// The twist by q = p^e respects sums and products, and it is the q-th power. In characteristic p the q-th power is
/// the e-th power of the Frobenius map (Kunz, Characterizations of regular local rings of characteristic p, American
/// Journal of Mathematics 91, 1969).
pub fn twists_are_frobenius_powers()
    ensures sum { (p : Prime) (n e : ℕ) (f g : Polynomial p n)
        → frobenius_twist p n e (polynomial_sum p n f g)
        ≡ polynomial_sum p n (frobenius_twist p n e f) (frobenius_twist p n e g) }
    ensures product { (p : Prime) (n e : ℕ) (f g : Polynomial p n)
        → frobenius_twist p n e (polynomial_product p n f g)
        ≡ polynomial_product p n (frobenius_twist p n e f) (frobenius_twist p n e g) }
    ensures power { (p : Prime) (n e : ℕ) (f : Polynomial p n)
        → polynomial_power p n (prime_value p ^ e) f ≡ frobenius_twist p n e f }
{}

/// The same for the terms that are kept: the twist of a sum has the terms of the sum of the twists, the twist of a
/// product those of the product of the twists, and the q-th power those of the twist.
pub fn twists_of_kept_terms()
    ensures sum { (r : Ring) (e : ℕ) (ts us vs ws : List Term) → IsCanonical r vs → IsCanonical r ws
        → meaning r vs ≡ frobenius_twist r.prime r.vars e
        (polynomial_sum r.prime r.vars (meaning r ts) (meaning r us))
        → meaning r ws ≡ polynomial_sum r.prime r.vars
        (frobenius_twist r.prime r.vars e (meaning r ts)) (frobenius_twist r.prime r.vars e (meaning r us))
        → vs ≡ ws }
    ensures product { (r : Ring) (e : ℕ) (ts us vs ws : List Term) → IsCanonical r vs → IsCanonical r ws
        → meaning r vs ≡ frobenius_twist r.prime r.vars e
        (polynomial_product r.prime r.vars (meaning r ts) (meaning r us))
        → meaning r ws ≡ polynomial_product r.prime r.vars
        (frobenius_twist r.prime r.vars e (meaning r ts)) (frobenius_twist r.prime r.vars e (meaning r us))
        → vs ≡ ws }
    ensures power { (r : Ring) (e : ℕ) (ts vs ws : List Term) → IsCanonical r vs → IsCanonical r ws
        → meaning r vs ≡ polynomial_power r.prime r.vars (prime_value r.prime ^ e) (meaning r ts)
        → meaning r ws ≡ frobenius_twist r.prime r.vars e (meaning r ts) → vs ≡ ws }
{}

/// The terms of a twist are the twists of the terms, in the same order.
pub fn terms_of_twists()
    ensures { (r : Ring) (e : ℕ) (ts us : List Term) → IsCanonical r ts → IsCanonical r us
        → meaning r us ≡ frobenius_twist r.prime r.vars e (meaning r ts) → us ≡ twist_terms r e ts }
{}

/// The terms of a multiple by a nonzero number are the multiples of the terms, in the same order.
pub fn terms_of_multiples()
    ensures { (r : Ring) (c : ℕ) (ts us : List Term) → IsCanonical r ts → IsCanonical r us
        → 0 < c → c < prime_value r.prime
        → meaning r us ≡ polynomial_multiple r.prime r.vars c (meaning r ts) → us ≡ scaled_terms r c ts }
{}

/// Products, twists and powers fit the bound on exponents exactly where their results do: no result within the bound
/// is refused. Terms that cancel never matter, since the largest exponent of a variable in a product is the sum of
/// those in the factors.
pub fn the_bound_is_that_of_the_results()
    ensures product_fits { (p : Prime) (n : ℕ) (f g : Polynomial p n)
        → ProductFits p n f g → IsWithinBound p n (polynomial_product p n f g) }
    ensures product_passes { (p : Prime) (n : ℕ) (f g : Polynomial p n)
        → ProductPasses p n f g → IsBeyondBound p n (polynomial_product p n f g) }
    ensures twist_fits { (p : Prime) (n e : ℕ) (f : Polynomial p n)
        → TwistFits p n e f → IsWithinBound p n (frobenius_twist p n e f) }
    ensures twist_passes { (p : Prime) (n e : ℕ) (f : Polynomial p n)
        → TwistPasses p n e f → IsBeyondBound p n (frobenius_twist p n e f) }
    ensures power_fits { (p : Prime) (n k : ℕ) (f : Polynomial p n)
        → PowerFits p n k f → IsWithinBound p n (polynomial_power p n k f) }
    ensures power_passes { (p : Prime) (n k : ℕ) (f : Polynomial p n)
        → PowerPasses p n k f → IsBeyondBound p n (polynomial_power p n k f) }
{}
