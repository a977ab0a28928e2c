// Laws of exponent tuples.
ghost use Rattle.std.specs.Prelude.{ℕ, List, ◌≡◌, ◌*◌, length, replicate};
ghost use Rattle.fm_tuple.specs.Tuple.{TupleDivides, tuple_difference, tuple_maximum, tuple_multiple, tuple_sum};

/// The tuples of one length are a commutative monoid in which a summand may be cancelled.
pub fn tuples_are_a_commutative_monoid()
    ensures commutative { (a b : List ℕ) → length a ≡ length b → tuple_sum a b ≡ tuple_sum b a }
    ensures associative { (a b c : List ℕ) → tuple_sum (tuple_sum a b) c ≡ tuple_sum a (tuple_sum b c) }
    ensures neutral { (a : List ℕ) → tuple_sum (replicate (length a) 0) a ≡ a }
    ensures cancel { (a b c : List ℕ) → length b ≡ length a → length c ≡ length a → tuple_sum a b ≡ tuple_sum a c → b ≡ c }
{}

/// A divisor times the quotient is the dividend.
pub fn a_quotient_undoes_a_product()
    ensures { (a b : List ℕ) → length a ≡ length b → TupleDivides a b → tuple_sum a (tuple_difference b a) ≡ b }
{}

/// Multiples respect sums, and a multiple of a multiple is a multiple by the product.
pub fn multiples_act_on_tuples()
    ensures one { (a : List ℕ) → tuple_multiple 1 a ≡ a }
    ensures product { (q r : ℕ) (a : List ℕ) → tuple_multiple (q * r) a ≡ tuple_multiple q (tuple_multiple r a) }
    ensures sum { (q : ℕ) (a b : List ℕ) → tuple_multiple q (tuple_sum a b) ≡ tuple_sum (tuple_multiple q a) (tuple_multiple q b) }
{}

/// Divisibility is a partial order, and a factor divides the product.
pub fn divisibility_is_a_partial_order()
    ensures itself { (a : List ℕ) → TupleDivides a a }
    ensures transitive { (a b c : List ℕ) → TupleDivides a b → TupleDivides b c → TupleDivides a c }
    ensures antisymmetric { (a b : List ℕ) → TupleDivides a b → TupleDivides b a → a ≡ b }
    ensures factor { (a b : List ℕ) → length a ≡ length b → TupleDivides a (tuple_sum a b) }
{}

/// The greater entries are the exponents of the least common multiple.
pub fn maxima_are_least_common_multiples()
    ensures multiple { (a b : List ℕ) → length a ≡ length b
        → TupleDivides a (tuple_maximum a b) × TupleDivides b (tuple_maximum a b) }
    ensures least { (a b c : List ℕ) → TupleDivides a c → TupleDivides b c → TupleDivides (tuple_maximum a b) c }
{}
