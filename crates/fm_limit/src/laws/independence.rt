// The limit does not depend on the resolution, the Frobenius lift or the lift of the identity.
ghost use Rattle.std.specs.Prelude.{ℕ, ◌↔◌, Bool, List, Option};
ghost use Rattle.fm_gfp.specs.declared.prime.Prime.{Prime};
ghost use Rattle.fm_algebra.specs.Polynomials.{Polynomial};
ghost use Rattle.fm_algebra.specs.PolynomialMatrices.{PolynomialMatrix};
ghost use Rattle.fm_limit.specs.ResolvedIdeal.{ResolvedIdeal, IsLiftOfIdentityOf, AreOneIdeal, AreOneInclusion};
ghost use Rattle.fm_limit.specs.Classes.{image_of, IsClass, IsCoboundaryAfter, IsZeroClass, IsSameClass, IsZeroLimit, VanishesAfterInverting, AnnihilatesClasses, IsEnoughMoves, IsSupportIdealOf, IsMapOfClasses, IsZeroMap, IsOneToOneMap, IsOntoMap, IsOntoAfter};
ghost use Rattle.fm_limit.specs.Verdicts.{Holds, zero_limit, zero_class, inverting, support, induced_map};

/// For two resolutions of one ideal, with any generators and any Frobenius lifts, the same is said of the limit: whether it is zero, whether it vanishes after inverting f, which elements annihilate the classes of stage 0, how many moves are enough, and which ideals are support ideals.
pub fn the_limit_does_not_depend_on_the_resolution()
    ensures zero { (p : Prime) (n i : ℕ) (I J : ResolvedIdeal p n) → AreOneIdeal p n i I J
        → IsZeroLimit p n i I ↔ IsZeroLimit p n i J }
    ensures inverting { (p : Prime) (n i : ℕ) (I J : ResolvedIdeal p n) → AreOneIdeal p n i I J
        → (f : Polynomial p n) → VanishesAfterInverting p n i I f ↔ VanishesAfterInverting p n i J f }
    ensures annihilators { (p : Prime) (n i : ℕ) (I J : ResolvedIdeal p n) → AreOneIdeal p n i I J
        → (a : Polynomial p n) → AnnihilatesClasses p n i I a ↔ AnnihilatesClasses p n i J a }
    ensures moves { (p : Prime) (n i : ℕ) (I J : ResolvedIdeal p n) → AreOneIdeal p n i I J
        → (t : ℕ) → IsEnoughMoves p n i I t ↔ IsEnoughMoves p n i J t }
    ensures support { (p : Prime) (n i : ℕ) (I J : ResolvedIdeal p n) → AreOneIdeal p n i I J
        → (fs : List (Polynomial p n)) → IsSupportIdealOf p n i I fs → IsSupportIdealOf p n i J fs }
{}

/// A verdict on the limit, on inverting or on the support that holds for one resolution and Frobenius lift of an ideal holds for all of them.
pub fn verdicts_hold_for_every_resolution()
    ensures limit { (p : Prime) (n i : ℕ) (I J : ResolvedIdeal p n) → AreOneIdeal p n i I J
        → (answer : Bool) (t : ℕ) → Holds p n (zero_limit i I answer t) → Holds p n (zero_limit i J answer t) }
    ensures inverting { (p : Prime) (n i : ℕ) (I J : ResolvedIdeal p n) → AreOneIdeal p n i I J
        → (f : Polynomial p n) (power : Option ℕ) → Holds p n (inverting i I f power) → Holds p n (inverting i J f power) }
    ensures support { (p : Prime) (n i : ℕ) (I J : ResolvedIdeal p n) → AreOneIdeal p n i I J
        → (fs : List (Polynomial p n)) → Holds p n (support i I fs) → Holds p n (support i J fs) }
{}

/// Between two resolutions of one ideal a lift of the identity carries classes to classes of the same stage. Any number of moves kills a class exactly if it kills what the class is carried to, so a class is zero in one limit exactly if it is in the other, and the verdict on a class is that on what it is carried to; and each class is the same in the limit as one that is carried over.
pub fn classes_are_carried_over()
    ensures class { (p : Prime) (n i : ℕ) (I J : ResolvedIdeal p n) → AreOneIdeal p n i I J
        → (ls : List (PolynomialMatrix p n)) → IsLiftOfIdentityOf p n i I.differentials J.differentials ls
        → (e : ℕ) (z : List (Polynomial p n)) → IsClass p n i J e z → IsClass p n i I e (image_of p n i ls e z) }
    ensures moves { (p : Prime) (n i : ℕ) (I J : ResolvedIdeal p n) → AreOneIdeal p n i I J
        → (ls : List (PolynomialMatrix p n)) → IsLiftOfIdentityOf p n i I.differentials J.differentials ls
        → (m e : ℕ) (z : List (Polynomial p n)) → IsClass p n i J e z → IsCoboundaryAfter p n i J m e z
        ↔ IsCoboundaryAfter p n i I m e (image_of p n i ls e z) }
    ensures zero { (p : Prime) (n i : ℕ) (I J : ResolvedIdeal p n) → AreOneIdeal p n i I J
        → (ls : List (PolynomialMatrix p n)) → IsLiftOfIdentityOf p n i I.differentials J.differentials ls
        → (e : ℕ) (z : List (Polynomial p n)) → IsClass p n i J e z → IsZeroClass p n i J e z
        ↔ IsZeroClass p n i I e (image_of p n i ls e z) }
    ensures onto { (p : Prime) (n i : ℕ) (I J : ResolvedIdeal p n) → AreOneIdeal p n i I J
        → (ls : List (PolynomialMatrix p n)) → IsLiftOfIdentityOf p n i I.differentials J.differentials ls
        → (e : ℕ) (z : List (Polynomial p n)) → IsClass p n i I e z
        → (y : List (Polynomial p n)) × IsClass p n i J e y × IsSameClass p n i I e z e (image_of p n i ls e y) }
    ensures verdict { (p : Prime) (n i : ℕ) (I J : ResolvedIdeal p n) → AreOneIdeal p n i I J
        → (ls : List (PolynomialMatrix p n)) → IsLiftOfIdentityOf p n i I.differentials J.differentials ls
        → (e : ℕ) (z : List (Polynomial p n)) → IsClass p n i J e z
        → (stage : Option ℕ) → Holds p n (zero_class i J e z stage) ↔ Holds p n (zero_class i I e (image_of p n i ls e z) stage) }
{}

/// The map of the limits that a lift of the identity induces, where it takes classes to classes, as it does where I lies in J, is zero, one to one or onto, and onto after s moves, for one choice of resolutions, Frobenius lifts and lift of the identity exactly as for any other: so each holds for all if it holds for one.
pub fn the_induced_map_does_not_depend_on_the_resolution()
    ensures zero { (p : Prime) (n i : ℕ) (I J I2 J2 : ResolvedIdeal p n) (ls ms : List (PolynomialMatrix p n))
        → AreOneInclusion p n i I J I2 J2 ls ms
        → IsMapOfClasses p n i J I ls
        → IsZeroMap p n i J I ls → IsZeroMap p n i J2 I2 ms }
    ensures one_to_one { (p : Prime) (n i : ℕ) (I J I2 J2 : ResolvedIdeal p n) (ls ms : List (PolynomialMatrix p n))
        → AreOneInclusion p n i I J I2 J2 ls ms
        → IsMapOfClasses p n i J I ls
        → IsOneToOneMap p n i J I ls → IsOneToOneMap p n i J2 I2 ms }
    ensures onto { (p : Prime) (n i : ℕ) (I J I2 J2 : ResolvedIdeal p n) (ls ms : List (PolynomialMatrix p n))
        → AreOneInclusion p n i I J I2 J2 ls ms
        → IsMapOfClasses p n i J I ls
        → IsOntoMap p n i J I ls → IsOntoMap p n i J2 I2 ms }
    ensures moves { (p : Prime) (n i : ℕ) (I J I2 J2 : ResolvedIdeal p n) (ls ms : List (PolynomialMatrix p n))
        → AreOneInclusion p n i I J I2 J2 ls ms
        → IsMapOfClasses p n i J I ls
        → (s : ℕ) → IsOntoAfter p n i J I ls s → IsOntoAfter p n i J2 I2 ms s }
{}

/// A verdict on the map of the limits that holds for one choice of resolutions, Frobenius lifts and lift of the identity holds for all.
pub fn the_verdict_on_an_induced_map_holds_for_every_choice()
    ensures { (p : Prime) (n i : ℕ) (I J I2 J2 : ResolvedIdeal p n) (ls ms : List (PolynomialMatrix p n))
        → AreOneInclusion p n i I J I2 J2 ls ms
        → (is_zero is_one : Bool) (onto : Option ℕ) → Holds p n (induced_map i J I ls is_zero is_one onto)
        → Holds p n (induced_map i J2 I2 ms is_zero is_one onto) }
{}
