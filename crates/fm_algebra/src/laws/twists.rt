// Laws of the Frobenius twist f^[q], for q = p^e, and of the slices of a polynomial.
ghost use Rattle.std.specs.Prelude.{ℕ, List, ◌≡◌, ◌+◌, ◌^◌, length, map};
ghost use Rattle.fm_tuple.specs.Tuple.{tuple_multiple};
ghost use Rattle.fm_gfp.specs.Primes.{prime_value};
ghost use Rattle.fm_gfp.specs.declared.prime.Prime.{Prime};
ghost use Rattle.fm_algebra.specs.Ring.{IsFrobenius};
ghost use Rattle.fm_algebra.specs.Twist.{AllBelow, tuple_place, tuples_below};
ghost use Rattle.fm_algebra.specs.Polynomials.{Polynomial, coefficient, frobenius_slice, frobenius_twist, polynomial_multiple, polynomial_negative, polynomial_of, polynomial_one, polynomial_power, polynomial_product, polynomial_sum, polynomial_term, polynomial_total, polynomial_zero, polynomials};

/// The twist multiplies each exponent by q: its coefficient at q * b is that of f at b, and 0 at a tuple that is no q * b.
pub fn a_twist_multiplies_each_exponent()
    ensures multiple { (p : Prime) (n e : ℕ) (f : Polynomial p n) (b : List ℕ)
        → coefficient p n (frobenius_twist p n e f) (tuple_multiple (prime_value p ^ e) b) ≡ coefficient p n f b }
    ensures elsewhere { (p : Prime) (n e : ℕ) (f : Polynomial p n) (a : List ℕ) → ((b : List ℕ) → ¬ (a ≡ tuple_multiple (prime_value p ^ e) b))
        → coefficient p n (frobenius_twist p n e f) a ≡ 0 }
    ensures terms { (p : Prime) (n e : ℕ) (ts : List (List ℕ × ℕ)) → frobenius_twist p n e (polynomial_of p n ts)
        ≡ polynomial_of p n (map (λ t. (tuple_multiple (prime_value p ^ e) t.0, t.1)) ts) }
{}

/// The twists are ring homomorphisms that keep the constants, and compose.
pub fn twists_are_ring_homomorphisms()
    ensures frobenius { (p : Prime) (n : ℕ) → IsFrobenius (polynomials p n) (frobenius_twist p n) }
    ensures zero { (p : Prime) (n e : ℕ) → frobenius_twist p n e (polynomial_zero p n) ≡ polynomial_zero p n }
    ensures one { (p : Prime) (n e : ℕ) → frobenius_twist p n e (polynomial_one p n) ≡ polynomial_one p n }
    ensures sum { (p : Prime) (n e : ℕ) (f g : Polynomial p n)
        → frobenius_twist p n e (polynomial_sum p n f g)
        ≡ polynomial_sum p n (frobenius_twist p n e f) (frobenius_twist p n e g) }
    ensures product { (p : Prime) (n e : ℕ) (f g : Polynomial p n)
        → frobenius_twist p n e (polynomial_product p n f g)
        ≡ polynomial_product p n (frobenius_twist p n e f) (frobenius_twist p n e g) }
    ensures negative { (p : Prime) (n e : ℕ) (f : Polynomial p n)
        → frobenius_twist p n e (polynomial_negative p n f) ≡ polynomial_negative p n (frobenius_twist p n e f) }
    ensures multiple { (p : Prime) (n e c : ℕ) (f : Polynomial p n)
        → frobenius_twist p n e (polynomial_multiple p n c f) ≡ polynomial_multiple p n c (frobenius_twist p n e f) }
    ensures power { (p : Prime) (n e k : ℕ) (f : Polynomial p n)
        → frobenius_twist p n e (polynomial_power p n k f) ≡ polynomial_power p n k (frobenius_twist p n e f) }
    ensures none { (p : Prime) (n : ℕ) (f : Polynomial p n) → frobenius_twist p n 0 f ≡ f }
    ensures compose { (p : Prime) (n d e : ℕ) (f : Polynomial p n)
        → frobenius_twist p n d (frobenius_twist p n e f) ≡ frobenius_twist p n (e + d) f }
{}

/// The twist is the power: f^[p] = f^p, and f^[q] = f^q for q = p^e.
pub fn a_power_of_the_characteristic_is_a_twist()
    ensures prime { (p : Prime) (n : ℕ) (f : Polynomial p n)
        → polynomial_power p n (prime_value p) f ≡ frobenius_twist p n 1 f }
    ensures prime_power { (p : Prime) (n e : ℕ) (f : Polynomial p n)
        → polynomial_power p n (prime_value p ^ e) f ≡ frobenius_twist p n e f }
{}

/// The twist is one to one.
pub fn twists_are_one_to_one()
    ensures { (p : Prime) (n e : ℕ) (f g : Polynomial p n)
        → frobenius_twist p n e f ≡ frobenius_twist p n e g → f ≡ g }
{}

/// The ring is free over the ring of the q-th powers, with the monomials whose exponents are below q as a basis (Kunz 1969):
/// f is the sum of all x^a * (slice of f at a)^[q], in no other way, and any choice of slices is that of some f. To multiply by a twist is to multiply each slice.
pub fn a_polynomial_is_its_slices()
    ensures total { (p : Prime) (n e : ℕ) (f : Polynomial p n)
        → polynomial_total p n (map (λ a. polynomial_product p n (polynomial_term p n 1 a) (frobenius_twist p n e (frobenius_slice p n e a f)))
        (tuples_below n (prime_value p ^ e))) ≡ f }
    ensures independent { (p : Prime) (n e : ℕ) (u : List ℕ → Polynomial p n) (d : List ℕ) → length d ≡ n → AllBelow (prime_value p ^ e) d
        → frobenius_slice p n e d (polynomial_total p n (map (λ a. polynomial_product p n (polynomial_term p n 1 a) (frobenius_twist p n e (u a)))
        (tuples_below n (prime_value p ^ e)))) ≡ u d }
    ensures coefficients { (p : Prime) (n e : ℕ) (a b : List ℕ) (f : Polynomial p n) → length a ≡ n → AllBelow (prime_value p ^ e) a → length b ≡ n
        → coefficient p n (frobenius_slice p n e a f) b ≡ coefficient p n f (tuple_place (prime_value p ^ e) b a) }
    ensures same { (p : Prime) (n e : ℕ) (f g : Polynomial p n)
        → ((a : List ℕ) → length a ≡ n → AllBelow (prime_value p ^ e) a → frobenius_slice p n e a f ≡ frobenius_slice p n e a g) → f ≡ g }
    ensures any { (p : Prime) (n e : ℕ) (u : List ℕ → Polynomial p n)
        → (f : Polynomial p n) × ((a : List ℕ) → length a ≡ n → AllBelow (prime_value p ^ e) a → frobenius_slice p n e a f ≡ u a) }
    ensures sum { (p : Prime) (n e : ℕ) (a : List ℕ) (f g : Polynomial p n) → length a ≡ n → AllBelow (prime_value p ^ e) a
        → frobenius_slice p n e a (polynomial_sum p n f g) ≡ polynomial_sum p n (frobenius_slice p n e a f) (frobenius_slice p n e a g) }
    ensures product { (p : Prime) (n e : ℕ) (a : List ℕ) (f g : Polynomial p n) → length a ≡ n → AllBelow (prime_value p ^ e) a
        → frobenius_slice p n e a (polynomial_product p n (frobenius_twist p n e f) g) ≡ polynomial_product p n f (frobenius_slice p n e a g) }
{}
