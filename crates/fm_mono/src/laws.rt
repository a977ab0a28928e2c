// Laws of the monomial orders, on exponent tuples of any size.
ghost use Rattle.std.specs.Prelude.{Bool, IsTrue, List, length, replicate, slice_index, sum, ℕ, ◌<◌, ◌↔◌, ◌≡◌, ◌≢◌, ◌⊎◌};
ghost use Rattle.std.specs.Ordering.{nat_cmp, ordering_reverse};
ghost use Rattle.std.specs.declared.cmp.Ordering.TheVariants.{Equal, Less};
ghost use Rattle.fm_tuple.specs.Tuple.{TupleDivides, tuple_multiple, tuple_sum};
ghost use Rattle.fm_mono.specs.declared.order.Order.{Order};
ghost use Rattle.fm_mono.specs.declared.order.Order.TheVariants.{Deglex, Grevlex, Lex};
ghost use Rattle.fm_mono.specs.Accessible.{IsAccessible};
ghost use Rattle.fm_mono.specs.Orders.{monomial_cmp};

/// What the orders are, place by place: the total degree decides first but in the lexicographic order, and then the
/// first variable whose exponents differ, or in the degree reverse lexicographic order the last one, where the smaller
/// exponent is greater.
pub fn monomial_orders_by_exponents()
    ensures degrees { (o : Order) (a b : List ℕ) → o ≢ Lex → sum a ≢ sum b
        → monomial_cmp o a b ≡ nat_cmp (sum a) (sum b) }
    ensures lex { (a b : List ℕ) (k : ℕ)
        → length b ≡ length a → k < length a → slice_index a k ≢ slice_index b k
        → ((j : ℕ) → j < k → slice_index a j ≡ slice_index b j)
        → monomial_cmp Lex a b ≡ nat_cmp (slice_index a k) (slice_index b k) }
    ensures deglex { (a b : List ℕ) → sum a ≡ sum b → monomial_cmp Deglex a b ≡ monomial_cmp Lex a b }
    ensures grevlex { (a b : List ℕ) (k : ℕ)
        → length b ≡ length a → sum a ≡ sum b → k < length a → slice_index a k ≢ slice_index b k
        → ((j : ℕ) → k < j → slice_index a j ≡ slice_index b j)
        → monomial_cmp Grevlex a b ≡ nat_cmp (slice_index b k) (slice_index a k) }
{}

/// Each of the three orders is a total order in which only equal monomials tie.
pub fn monomial_orders_are_total()
    ensures same { (o : Order) (a b : List ℕ) → (monomial_cmp o a b ≡ Equal) ↔ (a ≡ b) }
    ensures flip { (o : Order) (a b : List ℕ) → monomial_cmp o a b ≡ ordering_reverse (monomial_cmp o b a) }
    ensures transitive { (o : Order) (a b c : List ℕ) → monomial_cmp o a b ≡ Less → monomial_cmp o b c ≡ Less
        → monomial_cmp o a c ≡ Less }
{}

/// A common factor changes no comparison.
pub fn monomial_orders_respect_products()
    ensures { (o : Order) (a b c : List ℕ) → length a ≡ length c → length b ≡ length c
        → monomial_cmp o (tuple_sum a c) (tuple_sum b c) ≡ monomial_cmp o a b }
{}

/// The powers of two monomials compare as the monomials do, so a < b gives q * a < q * b for q > 0.
pub fn monomial_orders_respect_powers()
    ensures { (o : Order) (q : ℕ) (a b : List ℕ) → 0 < q
        → monomial_cmp o (tuple_multiple q a) (tuple_multiple q b) ≡ monomial_cmp o a b }
{}

/// 1 is less than every other monomial, and a divisor is less than what it divides, or equal to it.
pub fn divisors_are_at_most()
    ensures one { (o : Order) (a : List ℕ)
        → (replicate (length a) 0 ≡ a) ⊎ (monomial_cmp o (replicate (length a) 0) a ≡ Less) }
    ensures divisor { (o : Order) (a b : List ℕ) → length a ≡ length b → TupleDivides a b
        → (a ≡ b) ⊎ (monomial_cmp o a b ≡ Less) }
{}

/// The orders are well founded: a property that holds of a monomial whenever it holds of all smaller ones of as many
/// variables holds of every monomial. Accessibility says this for every property, the second clause for each that a
/// test decides (Dickson's lemma; Cox, Little and O'Shea, Ideals, Varieties, and Algorithms, chapter 2, section 4).
pub fn monomial_orders_are_well_founded()
    ensures accessible { (o : Order) (a : List ℕ) → IsAccessible o a }
    ensures induction { (o : Order) (p : List ℕ → Bool)
        → ((a : List ℕ) → ((b : List ℕ) → length b ≡ length a → monomial_cmp o b a ≡ Less → IsTrue (p b)) → IsTrue (p a))
        → (a : List ℕ) → IsTrue (p a) }
{}
