// Laws of lists of terms as polynomials.
ghost use Rattle.std.specs.Prelude.{ℕ, List, [], ◌∷◌, ◌++◌, ◌≡◌, ◌+◌, ◌-◌, ◌*◌, ◌%◌, length, map};
ghost use Rattle.fm_tuple.specs.Tuple.{tuple_sum};
ghost use Rattle.fm_gfp.specs.Primes.{prime_value};
ghost use Rattle.fm_gfp.specs.declared.prime.Prime.{Prime};
ghost use Rattle.fm_algebra.specs.Polynomials.{AllFit, coefficient, listed_coefficient, polynomial_multiple, polynomial_negative, polynomial_of, polynomial_product, polynomial_sum, polynomial_term, polynomial_zero};

/// A list of terms means their sum: its coefficient at a tuple is the sum, modulo p, of the coefficients that stand at this tuple.
pub fn a_list_of_terms_is_their_sum()
    ensures empty { (p : Prime) (n : ℕ) → polynomial_of p n [] ≡ polynomial_zero p n }
    ensures first { (p : Prime) (n c : ℕ) (a : List ℕ) (ts : List (List ℕ × ℕ))
        → polynomial_of p n ((a, c) ∷ ts) ≡ polynomial_sum p n (polynomial_term p n c a) (polynomial_of p n ts) }
    ensures append { (p : Prime) (n : ℕ) (ts us : List (List ℕ × ℕ))
        → polynomial_of p n (ts ++ us) ≡ polynomial_sum p n (polynomial_of p n ts) (polynomial_of p n us) }
    ensures coefficients { (p : Prime) (n : ℕ) (ts : List (List ℕ × ℕ)) (a : List ℕ)
        → length a ≡ n → coefficient p n (polynomial_of p n ts) a ≡ listed_coefficient ts a % prime_value p }
{}

/// The order of terms plays no part, like terms are added, a coefficient counts modulo p, and a term whose coefficient p divides is nothing.
pub fn like_terms_are_added()
    ensures swap { (p : Prime) (n : ℕ) (t u : List ℕ × ℕ) (ts : List (List ℕ × ℕ))
        → polynomial_of p n (t ∷ u ∷ ts) ≡ polynomial_of p n (u ∷ t ∷ ts) }
    ensures like { (p : Prime) (n : ℕ) (a : List ℕ) (c d : ℕ) (ts : List (List ℕ × ℕ))
        → polynomial_of p n ((a, c) ∷ (a, d) ∷ ts) ≡ polynomial_of p n ((a, c + d) ∷ ts) }
    ensures modulo { (p : Prime) (n : ℕ) (a : List ℕ) (c d : ℕ) (ts : List (List ℕ × ℕ)) → c % prime_value p ≡ d % prime_value p
        → polynomial_of p n ((a, c) ∷ ts) ≡ polynomial_of p n ((a, d) ∷ ts) }
    ensures nothing { (p : Prime) (n : ℕ) (a : List ℕ) (c : ℕ) (ts : List (List ℕ × ℕ))
        → c % prime_value p ≡ 0 → polynomial_of p n ((a, c) ∷ ts) ≡ polynomial_of p n ts }
{}

/// Multiples, negatives and products of lists of terms, term by term: exponents are added, and coefficients multiplied modulo p.
pub fn operations_go_term_by_term()
    ensures multiple { (p : Prime) (n c : ℕ) (ts : List (List ℕ × ℕ))
        → polynomial_multiple p n c (polynomial_of p n ts) ≡ polynomial_of p n (map (λ t. (t.0, c * t.1)) ts) }
    ensures negative { (p : Prime) (n : ℕ) (ts : List (List ℕ × ℕ))
        → polynomial_negative p n (polynomial_of p n ts) ≡ polynomial_of p n (map (λ t. (t.0, prime_value p - t.1 % prime_value p)) ts) }
    ensures term_product { (p : Prime) (n c d : ℕ) (a b : List ℕ) → length a ≡ n → length b ≡ n
        → polynomial_product p n (polynomial_term p n c a) (polynomial_term p n d b) ≡ polynomial_term p n (c * d) (tuple_sum a b) }
    ensures term_times_list { (p : Prime) (n c : ℕ) (a : List ℕ) (ts : List (List ℕ × ℕ)) → length a ≡ n → AllFit n ts
        → polynomial_product p n (polynomial_term p n c a) (polynomial_of p n ts) ≡ polynomial_of p n (map (λ t. (tuple_sum a t.0, c * t.1)) ts) }
{}
