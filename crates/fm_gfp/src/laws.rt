// Laws of the fields, over numbers.
ghost use Rattle.std.specs.Prelude.{Some, suc, ℕ, ◌%◌, ◌*◌, ◌+◌, ◌<◌, ◌^◌, ◌↔◌, ◌≡◌, ◌⊎◌};
ghost use Rattle.fm_gfp.specs.Binomials.{choose};
ghost use Rattle.fm_gfp.specs.Primes.{prime_of, prime_value};
ghost use Rattle.fm_gfp.specs.declared.prime.Prime.{Prime};

/// A prime of the list is the one that is found by its number, and a number that gives a prime is its number.
pub fn primes_are_found_by_their_numbers()
    ensures { (p : Prime) (n : ℕ) → (prime_of n ≡ Some p) ↔ (prime_value p ≡ n) }
{}

/// A product of two numbers is a listed prime only if one of them is 1: the listed numbers are prime.
pub fn the_listed_numbers_are_prime()
    ensures { (p : Prime) (d e : ℕ) → d * e ≡ prime_value p → (d ≡ 1) ⊎ (e ≡ 1) }
{}

/// Each residue but 0 has an inverse modulo p.
pub fn residues_have_inverses()
    ensures { (p : Prime) (k : ℕ) → 0 < k → k < prime_value p
        → (j : ℕ) × (j < prime_value p) × ((k * j) % prime_value p ≡ 1) }
{}

/// A product of two residues is 0 modulo p only if one of them is 0.
pub fn no_zero_divisors()
    ensures { (p : Prime) (a b : ℕ) → a < prime_value p → b < prime_value p
        → (a * b) % prime_value p ≡ 0 → (a ≡ 0) ⊎ (b ≡ 0) }
{}

/// The little theorem of Fermat: c to the p is c modulo p.
pub fn little_theorem_of_fermat()
    ensures { (p : Prime) (c : ℕ) → (c ^ prime_value p) % prime_value p ≡ c % prime_value p }
{}

/// p divides p over i where 0 < i < p. Here i and p - i are the two numbers with sum p.
pub fn p_divides_binomial_coefficients()
    ensures { (p : Prime) (i j : ℕ) → suc i + suc j ≡ prime_value p
        → choose (suc i) (suc j) % prime_value p ≡ 0 }
{}
