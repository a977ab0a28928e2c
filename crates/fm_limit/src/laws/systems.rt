// Direct systems by stages: what finite facts say of the limit, for any cocycles, coboundaries and moves.
ghost use Rattle.std.specs.Prelude.{ℕ, suc, ◌+◌, ◌≤◌, ◌≡◌, ◌↔◌, Bool, IsTrue, List, [], ◌∷◌, length, Option, Some, None};
ghost use Rattle.fm_gfp.specs.declared.prime.Prime.{Prime};
ghost use Rattle.fm_algebra.specs.Polynomials.{Polynomial};
ghost use Rattle.fm_algebra.specs.PolynomialMatrices.{PolynomialMatrix, HasShape, InImage, InPreimage, GeneratesPreimage};
ghost use Rattle.fm_limit.specs.System.{IsKilledBy, IsZeroInLimit, MapIsOneToOne, IsOntoBy};
ghost use Rattle.fm_limit.specs.ResolvedIdeal.{matrix_at, InIdeal};
ghost use Rattle.fm_limit.specs.Classes.{matrices};
ghost use Rattle.fm_limit.specs.Facts.{ColumnsInImage, IsEverything, IsFirstRepeat, AreCoordinates, IsColons, IsAnnihilatorRow, first_entries};
ghost use Rattle.fm_limit.specs.SystemFacts.{vector_of, IsClassOf, IsRootIn, ZeroHolds, ClassHolds, InvertingHolds, SupportHolds, MapHolds, OntoHolds};
ghost use Rattle.fm_limit.specs.LimitOf.{system_from};
ghost use Rattle.fm_limit.specs.Found.{FoundLimit, FoundLimitMap, IsFoundLimit, IsFoundLimitMap, IsJoin, stable_kernel, InKernelAt, SendsInto, PowerSendsInto};

/// From the facts of a limit: whether it is zero with the least number of moves, the stage of a class, inverting, the support ideal, and a root. (G. Lyubeznik, F-modules, 1997.)
pub fn facts_of_a_system_give_verdicts()
    ensures zero { (p : Prime) (n : ℕ) (D : FoundLimit p n) → IsFoundLimit p n D
        → IsFirstRepeat p n D.found.kernels D.found.repeat
        → (answer : Bool) → (IsTrue answer ↔ IsEverything p n (stable_kernel p n D.found))
        → ZeroHolds p n (system_from p n D.limit) answer D.found.repeat }
    ensures class { (p : Prime) (n : ℕ) (D : FoundLimit p n) → IsFoundLimit p n D
        → (e : ℕ) (z w : List (Polynomial p n)) (s : ℕ) → IsClassOf p n (system_from p n D.limit) e z
        → AreCoordinates p n D.found.cocycles e z w
        → s ≤ D.found.repeat → InKernelAt p n D.found s e w → ((r : ℕ) → suc r ≡ s → InKernelAt p n D.found r e w → ⊥)
        → ClassHolds p n (system_from p n D.limit) e z (Some (e + s)) }
    ensures never { (p : Prime) (n : ℕ) (D : FoundLimit p n) → IsFoundLimit p n D
        → (e : ℕ) (z w : List (Polynomial p n)) → IsClassOf p n (system_from p n D.limit) e z → AreCoordinates p n D.found.cocycles e z w
        → (InKernelAt p n D.found D.found.repeat e w → ⊥) → ClassHolds p n (system_from p n D.limit) e z None }
    ensures moves { (p : Prime) (n : ℕ) (D : FoundLimit p n) → IsFoundLimit p n D
        → (e : ℕ) (z w : List (Polynomial p n)) → AreCoordinates p n D.found.cocycles e z w → (s : ℕ) → s ≤ suc D.found.repeat
        → InKernelAt p n D.found s e w ↔ IsKilledBy (matrices p n) (system_from p n D.limit) s e
        (vector_of p n (system_from p n D.limit) z) }
    ensures limit { (p : Prime) (n : ℕ) (D : FoundLimit p n) → IsFoundLimit p n D
        → (e : ℕ) (z w : List (Polynomial p n)) → AreCoordinates p n D.found.cocycles e z w
        → InKernelAt p n D.found D.found.repeat e w
        ↔ IsZeroInLimit (matrices p n) (system_from p n D.limit) e (vector_of p n (system_from p n D.limit) z) }
    ensures coordinates { (p : Prime) (n : ℕ) (D : FoundLimit p n) → IsFoundLimit p n D
        → (e : ℕ) (z : List (Polynomial p n)) → IsClassOf p n (system_from p n D.limit) e z
        → (w : List (Polynomial p n)) × AreCoordinates p n D.found.cocycles e z w }
    ensures inverting { (p : Prime) (n : ℕ) (D : FoundLimit p n) → IsFoundLimit p n D
        → (f : Polynomial p n) (k : ℕ) → PowerSendsInto p n (stable_kernel p n D.found) f k
        → ((j : ℕ) → suc j ≡ k → PowerSendsInto p n (stable_kernel p n D.found) f j → ⊥)
        → InvertingHolds p n (system_from p n D.limit) f (Some k) }
    ensures not_inverting { (p : Prime) (n : ℕ) (D : FoundLimit p n) → IsFoundLimit p n D
        → (f : Polynomial p n) (Cs : List (PolynomialMatrix p n)) (k : ℕ) → IsColons p n (stable_kernel p n D.found) f Cs k
        → ColumnsInImage p n (matrix_at p n Cs k) (matrix_at p n Cs (suc k)) → (IsEverything p n (matrix_at p n Cs k) → ⊥)
        → InvertingHolds p n (system_from p n D.limit) f None }
    ensures support { (p : Prime) (n : ℕ) (D : FoundLimit p n) → IsFoundLimit p n D
        → (fs : List (Polynomial p n)) → ((a : Polynomial p n) → InIdeal p n fs a ↔ SendsInto p n (stable_kernel p n D.found) a)
        → SupportHolds p n (system_from p n D.limit) fs }
    ensures annihilators { (p : Prime) (n : ℕ) (D : FoundLimit p n) → IsFoundLimit p n D
        → (P : PolynomialMatrix p n) → IsAnnihilatorRow p n (stable_kernel p n D.found) P
        → SupportHolds p n (system_from p n D.limit) (first_entries p n P) }
    ensures root { (p : Prime) (n : ℕ) (D : FoundLimit p n) → IsFoundLimit p n D
        → IsRootIn p n (system_from p n D.limit) D.found.cocycles (stable_kernel p n D.found) D.found.morphism }
{}

/// From the facts of two limits and of a map between them: the map takes classes to classes, and is zero, one to one or onto as the coordinates say.
pub fn facts_of_a_map_give_verdicts()
    ensures map { (p : Prime) (n : ℕ) (F : FoundLimitMap p n) → IsFoundLimitMap p n F
        → (C : PolynomialMatrix p n) → HasShape p n (length F.source.found.cocycles.columns) (length C.columns) C
        → GeneratesPreimage p n C F.matrix (stable_kernel p n F.target.found)
        → (is_zero is_one : Bool) (onto : Option ℕ) → (IsTrue is_zero ↔ ColumnsInImage p n (stable_kernel p n F.target.found) F.matrix)
        → (IsTrue is_one ↔ ColumnsInImage p n (stable_kernel p n F.source.found) C)
        → OntoHolds p n (system_from p n F.source.limit) (system_from p n F.target.limit) F.map onto
        → MapHolds p n (system_from p n F.source.limit) (system_from p n F.target.limit) F.map is_zero is_one onto }
    ensures one_to_one_exactly { (p : Prime) (n : ℕ) (F : FoundLimitMap p n) → IsFoundLimitMap p n F
        → ((w : List (Polynomial p n)) → InPreimage p n F.matrix (stable_kernel p n F.target.found) w
        → InImage p n (stable_kernel p n F.source.found) w)
        ↔ MapIsOneToOne (matrices p n) (system_from p n F.source.limit) (system_from p n F.target.limit) F.map }
    ensures onto { (p : Prime) (n : ℕ) (F : FoundLimitMap p n) → IsFoundLimitMap p n F
        → (Ws : List (PolynomialMatrix p n)) (r : ℕ) → IsJoin p n F.target.found F.matrix Ws r → IsEverything p n (matrix_at p n Ws r)
        → ((k : ℕ) → suc k ≡ r → IsEverything p n (matrix_at p n Ws k) → ⊥)
        → OntoHolds p n (system_from p n F.source.limit) (system_from p n F.target.limit) F.map (Some r) }
    ensures not_onto { (p : Prime) (n : ℕ) (F : FoundLimitMap p n) → IsFoundLimitMap p n F
        → (Ws : List (PolynomialMatrix p n)) (r : ℕ) → IsJoin p n F.target.found F.matrix Ws (suc r)
        → ColumnsInImage p n (matrix_at p n Ws r) (matrix_at p n Ws (suc r)) → (IsEverything p n (matrix_at p n Ws r) → ⊥)
        → OntoHolds p n (system_from p n F.source.limit) (system_from p n F.target.limit) F.map None }
    ensures onto_after { (p : Prime) (n : ℕ) (F : FoundLimitMap p n) → IsFoundLimitMap p n F
        → (Ws : List (PolynomialMatrix p n)) (r : ℕ) → IsJoin p n F.target.found F.matrix Ws (suc r)
        → ColumnsInImage p n (matrix_at p n Ws r) (matrix_at p n Ws (suc r)) → (k : ℕ) → k ≤ r
        → IsEverything p n (matrix_at p n Ws k)
        ↔ IsOntoBy (matrices p n) (system_from p n F.source.limit) (system_from p n F.target.limit) F.map k }
{}
