// Twists of resolutions, and homotopy of lifts.
ghost use Rattle.std.specs.Prelude.{ℕ, suc, ◌+◌, ◌≡◌, List, length, map};
ghost use Rattle.fm_gfp.specs.declared.prime.Prime.{Prime};
ghost use Rattle.fm_algebra.specs.Polynomials.{Polynomial, frobenius_twist};
ghost use Rattle.fm_algebra.specs.PolynomialMatrices.{PolynomialMatrix, matrix_twist};
ghost use Rattle.fm_limit.specs.ResolvedIdeal.{ResolvedIdeal, LiesIn, IsResolutionOf, IsFrobeniusLiftOf, IsResolved, IsLiftOfIdentityOf};
ghost use Rattle.fm_limit.specs.Classes.{moved_once, image_of, IsClass, IsCoboundaryAfter, IsSameClass, AreCohomologous};

/// The twists of the matrices of a resolution of I are a resolution of the Frobenius power `I^[q]`, which the twists of the generators generate. So the cocycles of stage e modulo coboundaries are `Ext^i(R/I^[q], R)`. (By flatness of Frobenius, Kunz 1969.)
pub fn the_twist_of_a_resolution()
    ensures { (p : Prime) (n e i : ℕ) (fs : List (Polynomial p n)) (ds : List (PolynomialMatrix p n)) → IsResolutionOf p n fs i ds
        → IsResolutionOf p n (map (frobenius_twist p n e) fs) i (map (matrix_twist p n e) ds) }
{}

/// Two Frobenius lifts of one resolution move a class to vectors that differ by a coboundary of the stage reached. (Comparison theorem, any textbook of homological algebra.)
pub fn two_frobenius_lifts_are_homotopic()
    ensures { (p : Prime) (n i : ℕ) (fs : List (Polynomial p n)) (ds ts us : List (PolynomialMatrix p n)) → IsResolutionOf p n fs i ds
        → IsFrobeniusLiftOf p n i ds ts → IsFrobeniusLiftOf p n i ds us
        → (e : ℕ) (z : List (Polynomial p n)) → IsClass p n i (record { generators = fs; differentials = ds; lift = ts }) e z
        → AreCohomologous p n i (record { generators = fs; differentials = ds; lift = ts }) (suc e)
        (moved_once p n i (record { generators = fs; differentials = ds; lift = ts }) e z)
        (moved_once p n i (record { generators = fs; differentials = ds; lift = us }) e z) }
{}

/// Two lifts of the identity map a class to vectors that differ by a coboundary of its stage.
pub fn two_lifts_of_the_identity_are_homotopic()
    ensures { (p : Prime) (n i : ℕ) (I J : ResolvedIdeal p n) → IsResolved p n i I → IsResolved p n i J
        → (ls ms : List (PolynomialMatrix p n)) → IsLiftOfIdentityOf p n i I.differentials J.differentials ls
        → IsLiftOfIdentityOf p n i I.differentials J.differentials ms
        → (e : ℕ) (z : List (Polynomial p n)) → IsClass p n i J e z
        → AreCohomologous p n i I e (image_of p n i ls e z) (image_of p n i ms e z) }
{}

/// Moving and mapping a class, in either order, give vectors that differ by a coboundary. Where I lies in J, a class of J is mapped to a class of I. In degree 0 a class is its own image, so there classes go to classes exactly if each class of J is one of I. Classes that are the same in the limit have images that are: the induced map is well defined.
pub fn moving_and_mapping_a_class()
    ensures commute { (p : Prime) (n i : ℕ) (I J : ResolvedIdeal p n) → IsResolved p n i I → IsResolved p n i J
        → (ls : List (PolynomialMatrix p n)) → IsLiftOfIdentityOf p n i I.differentials J.differentials ls
        → (e : ℕ) (z : List (Polynomial p n)) → IsClass p n i J e z
        → AreCohomologous p n i I (suc e) (image_of p n i ls (suc e) (moved_once p n i J e z))
        (moved_once p n i I e (image_of p n i ls e z)) }
    ensures classes { (p : Prime) (n i : ℕ) (I J : ResolvedIdeal p n) → IsResolved p n i I → IsResolved p n i J
        → (ls : List (PolynomialMatrix p n)) → IsLiftOfIdentityOf p n i I.differentials J.differentials ls
        → LiesIn p n I.generators J.generators
        → (e : ℕ) (z : List (Polynomial p n)) → IsClass p n i J e z → IsClass p n i I e (image_of p n i ls e z) }
    ensures degree_zero { (p : Prime) (n : ℕ) (I J : ResolvedIdeal p n) → IsResolved p n 0 I → IsResolved p n 0 J
        → (ls : List (PolynomialMatrix p n)) → IsLiftOfIdentityOf p n 0 I.differentials J.differentials ls
        → (e : ℕ) (z : List (Polynomial p n)) → length z ≡ 1 → image_of p n 0 ls e z ≡ z }
    ensures well_defined { (p : Prime) (n i : ℕ) (I J : ResolvedIdeal p n) → IsResolved p n i I → IsResolved p n i J
        → (ls : List (PolynomialMatrix p n)) → IsLiftOfIdentityOf p n i I.differentials J.differentials ls
        → (e : ℕ) (z : List (Polynomial p n)) (d : ℕ) (y : List (Polynomial p n)) → IsClass p n i J e z → IsClass p n i J d y
        → IsSameClass p n i J e z d y → IsSameClass p n i I e (image_of p n i ls e z) d (image_of p n i ls d y) }
{}

/// A coboundary is moved to a coboundary and mapped to one, and what s moves kill, more moves kill.
pub fn coboundaries_are_moved_and_mapped_to_coboundaries()
    ensures moved { (p : Prime) (n i : ℕ) (I : ResolvedIdeal p n) → IsResolved p n i I
        → (e : ℕ) (z : List (Polynomial p n)) → IsCoboundaryAfter p n i I 0 e z
        → IsCoboundaryAfter p n i I 0 (suc e) (moved_once p n i I e z) }
    ensures mapped { (p : Prime) (n i : ℕ) (I J : ResolvedIdeal p n) → IsResolved p n i I → IsResolved p n i J
        → (ls : List (PolynomialMatrix p n)) → IsLiftOfIdentityOf p n i I.differentials J.differentials ls
        → (e : ℕ) (z : List (Polynomial p n)) → IsCoboundaryAfter p n i J 0 e z → IsCoboundaryAfter p n i I 0 e (image_of p n i ls e z) }
    ensures more { (p : Prime) (n i : ℕ) (I : ResolvedIdeal p n) → IsResolved p n i I
        → (s m e : ℕ) (z : List (Polynomial p n)) → IsCoboundaryAfter p n i I s e z → IsCoboundaryAfter p n i I (s + m) e z }
{}
