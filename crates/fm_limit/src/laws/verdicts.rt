// Finite facts give verdicts: what deciding and checking establish, and what follows for the limit.
ghost use Rattle.std.specs.Prelude.{ℕ, suc, ◌+◌, ◌≤◌, ◌≡◌, ◌↔◌, Bool, IsTrue, List, [], ◌∷◌, length, Option, Some, None};
ghost use Rattle.fm_gfp.specs.declared.prime.Prime.{Prime};
ghost use Rattle.fm_algebra.specs.Matrix.{listed};
ghost use Rattle.fm_algebra.specs.Polynomials.{Polynomial};
ghost use Rattle.fm_algebra.specs.PolynomialMatrices.{PolynomialMatrix, HasShape, InImage, InPreimage, GeneratesPreimage};
ghost use Rattle.fm_limit.specs.ResolvedIdeal.{ResolvedIdeal, matrix_at, rank, InIdeal, IsResolutionOf};
ghost use Rattle.fm_limit.specs.Classes.{IsClass, IsCoboundaryAfter, IsZeroClass, IsMapOfClasses, IsZeroMap, IsOneToOneMap, IsOntoMap, VanishesAfterInverting};
ghost use Rattle.fm_limit.specs.Facts.{ColumnsInImage, IsEverything, IsFirstRepeat, AreCoordinates, PresentsExt, IsColons, IsAnnihilatorRow, first_entries};
ghost use Rattle.fm_limit.specs.Found.{FoundDegree, FoundMap, IsFoundDegree, IsFoundMap, IsJoin, stable_kernel, InKernelAt, SendsInto, PowerSendsInto};
ghost use Rattle.fm_limit.specs.Verdicts.{Holds, HoldsOfOnto, zero_limit, zero_class, inverting, support, root, induced_map, member, resolution, ext};

/// The limit is zero exactly if the member of the chain at its first repeat is everything, and the place of the first repeat is the least number of moves that makes a coboundary of every class of stage 0 that is zero in the limit. (G. Lyubeznik, F-modules, 1997, for the chain and its stable member.)
pub fn facts_give_the_verdict_on_the_limit()
    ensures { (p : Prime) (n i : ℕ) (D : FoundDegree p n) → IsFoundDegree p n i D
        → IsFirstRepeat p n D.found.kernels D.found.repeat
        → (answer : Bool) → (IsTrue answer ↔ IsEverything p n (stable_kernel p n D.found))
        → Holds p n (zero_limit i D.ideal answer D.found.repeat) }
{}

/// A class with coordinates w is a coboundary after s moves exactly if w is in the image of the twist of the member s of the chain, for s through the member after the repeat: so one member that has w, and the one before it that has not, give the least stage. If the member at the repeat does not have w, no number of moves makes the class a coboundary.
pub fn facts_give_the_verdict_on_a_class()
    ensures yes { (p : Prime) (n i : ℕ) (D : FoundDegree p n) → IsFoundDegree p n i D
        → (e : ℕ) (z w : List (Polynomial p n)) (s : ℕ) → IsClass p n i D.ideal e z → AreCoordinates p n D.found.cocycles e z w
        → s ≤ D.found.repeat → InKernelAt p n D.found s e w → ((r : ℕ) → suc r ≡ s → InKernelAt p n D.found r e w → ⊥)
        → Holds p n (zero_class i D.ideal e z (Some (e + s))) }
    ensures never { (p : Prime) (n i : ℕ) (D : FoundDegree p n) → IsFoundDegree p n i D
        → (e : ℕ) (z w : List (Polynomial p n)) → IsClass p n i D.ideal e z → AreCoordinates p n D.found.cocycles e z w
        → (InKernelAt p n D.found D.found.repeat e w → ⊥) → Holds p n (zero_class i D.ideal e z None) }
    ensures moves { (p : Prime) (n i : ℕ) (D : FoundDegree p n) → IsFoundDegree p n i D
        → (e : ℕ) (z w : List (Polynomial p n)) → AreCoordinates p n D.found.cocycles e z w
        → (s : ℕ) → s ≤ suc D.found.repeat → InKernelAt p n D.found s e w ↔ IsCoboundaryAfter p n i D.ideal s e z }
    ensures limit { (p : Prime) (n i : ℕ) (D : FoundDegree p n) → IsFoundDegree p n i D
        → (e : ℕ) (z w : List (Polynomial p n)) → AreCoordinates p n D.found.cocycles e z w
        → InKernelAt p n D.found D.found.repeat e w ↔ IsZeroClass p n i D.ideal e z }
    ensures coordinates { (p : Prime) (n i : ℕ) (D : FoundDegree p n) → IsFoundDegree p n i D
        → (e : ℕ) (z : List (Polynomial p n)) → IsClass p n i D.ideal e z
        → (w : List (Polynomial p n)) × AreCoordinates p n D.found.cocycles e z w }
{}

/// The limit vanishes after inverting f exactly if some `f^k` sends everything into the stable kernel. If no smaller power does, k is the least. Where a colon of the stable kernel by powers of f adds nothing to the one before it, and that one is not everything, no power of f does.
pub fn facts_give_the_verdict_on_inverting()
    ensures yes { (p : Prime) (n i : ℕ) (D : FoundDegree p n) → IsFoundDegree p n i D
        → (f : Polynomial p n) (k : ℕ) → PowerSendsInto p n (stable_kernel p n D.found) f k
        → ((j : ℕ) → suc j ≡ k → PowerSendsInto p n (stable_kernel p n D.found) f j → ⊥)
        → Holds p n (inverting i D.ideal f (Some k)) }
    ensures never { (p : Prime) (n i : ℕ) (D : FoundDegree p n) → IsFoundDegree p n i D
        → (f : Polynomial p n) (Cs : List (PolynomialMatrix p n)) (k : ℕ) → IsColons p n (stable_kernel p n D.found) f Cs k
        → ColumnsInImage p n (matrix_at p n Cs k) (matrix_at p n Cs (suc k)) → (IsEverything p n (matrix_at p n Cs k) → ⊥)
        → Holds p n (inverting i D.ideal f None) }
    ensures exactly { (p : Prime) (n i : ℕ) (D : FoundDegree p n) → IsFoundDegree p n i D
        → (f : Polynomial p n)
        → ((k : ℕ) × PowerSendsInto p n (stable_kernel p n D.found) f k) ↔ VanishesAfterInverting p n i D.ideal f }
    ensures colons { (p : Prime) (n i : ℕ) (D : FoundDegree p n) → IsFoundDegree p n i D
        → (f : Polynomial p n) (Cs : List (PolynomialMatrix p n)) (k : ℕ) → IsColons p n (stable_kernel p n D.found) f Cs k
        → (j : ℕ) → j ≤ k + 1 → IsEverything p n (matrix_at p n Cs j) ↔ PowerSendsInto p n (stable_kernel p n D.found) f j }
{}

/// An ideal whose members are the a that send everything into the stable kernel is a support ideal, and its members are the a that send every class of stage 0 to one that is zero in the limit. Such an ideal is generated by the entries of a row that generates all a which send the unit matrix, written as one column, into the image of the blocks of the stable kernel along a diagonal.
pub fn facts_give_the_verdict_on_the_support()
    ensures members { (p : Prime) (n i : ℕ) (D : FoundDegree p n) → IsFoundDegree p n i D
        → (fs : List (Polynomial p n)) → ((a : Polynomial p n) → InIdeal p n fs a ↔ SendsInto p n (stable_kernel p n D.found) a)
        → Holds p n (support i D.ideal fs) }
    ensures row { (p : Prime) (n i : ℕ) (D : FoundDegree p n) → IsFoundDegree p n i D
        → (P : PolynomialMatrix p n) → IsAnnihilatorRow p n (stable_kernel p n D.found) P
        → (fs : List (Polynomial p n)) → ((a : Polynomial p n) → InIdeal p n fs a ↔ InImage p n P (a ∷ []))
        → Holds p n (support i D.ideal fs) }
    ensures entries { (p : Prime) (n i : ℕ) (D : FoundDegree p n) → IsFoundDegree p n i D
        → (P : PolynomialMatrix p n) → IsAnnihilatorRow p n (stable_kernel p n D.found) P
        → Holds p n (support i D.ideal (first_entries p n P)) }
{}

/// Generators of the cocycles of stage 0, the stable kernel and the generating morphism are a root of the limit. (Lyubeznik 1997.)
pub fn facts_give_a_root()
    ensures { (p : Prime) (n i : ℕ) (D : FoundDegree p n) → IsFoundDegree p n i D
        → IsFirstRepeat p n D.found.kernels D.found.repeat
        → Holds p n (root i D.ideal D.found.cocycles (stable_kernel p n D.found) D.found.morphism
        (length D.found.cocycles.columns) D.found.repeat) }
{}

/// In the coordinates of both sides the induced map is Phi. It is zero exactly if the columns of Phi lie in the stable kernel of the target, and one to one exactly if what Phi sends into that kernel lies in the stable kernel of the source; a matrix C that generates all of it shows this by its columns. It is onto exactly if the chain of the target's morphism that begins with `[N | Phi]` comes to everything; the first member that is everything gives the least number of moves.
pub fn facts_give_the_verdict_on_an_induced_map()
    ensures map { (p : Prime) (n i : ℕ) (F : FoundMap p n) → IsFoundMap p n i F
        → (C : PolynomialMatrix p n) → HasShape p n (length F.source.found.cocycles.columns) (length C.columns) C
        → GeneratesPreimage p n C F.matrix (stable_kernel p n F.target.found)
        → (is_zero is_one : Bool) (onto : Option ℕ) → (IsTrue is_zero ↔ ColumnsInImage p n (stable_kernel p n F.target.found) F.matrix)
        → (IsTrue is_one ↔ ColumnsInImage p n (stable_kernel p n F.source.found) C)
        → HoldsOfOnto p n i F.source.ideal F.target.ideal F.lift onto
        → Holds p n (induced_map i F.source.ideal F.target.ideal F.lift is_zero is_one onto) }
    ensures onto { (p : Prime) (n i : ℕ) (F : FoundMap p n) → IsFoundMap p n i F
        → (Ws : List (PolynomialMatrix p n)) (r : ℕ) → IsJoin p n F.target.found F.matrix Ws r → IsEverything p n (matrix_at p n Ws r)
        → ((k : ℕ) → suc k ≡ r → IsEverything p n (matrix_at p n Ws k) → ⊥)
        → HoldsOfOnto p n i F.source.ideal F.target.ideal F.lift (Some r) }
    ensures not_onto { (p : Prime) (n i : ℕ) (F : FoundMap p n) → IsFoundMap p n i F
        → (Ws : List (PolynomialMatrix p n)) (r : ℕ) → IsJoin p n F.target.found F.matrix Ws (suc r)
        → ColumnsInImage p n (matrix_at p n Ws r) (matrix_at p n Ws (suc r)) → (IsEverything p n (matrix_at p n Ws r) → ⊥)
        → HoldsOfOnto p n i F.source.ideal F.target.ideal F.lift None }
    ensures classes { (p : Prime) (n i : ℕ) (F : FoundMap p n) → IsFoundMap p n i F
        → IsMapOfClasses p n i F.source.ideal F.target.ideal F.lift }
    ensures zero { (p : Prime) (n i : ℕ) (F : FoundMap p n) → IsFoundMap p n i F
        → ColumnsInImage p n (stable_kernel p n F.target.found) F.matrix ↔ IsZeroMap p n i F.source.ideal F.target.ideal F.lift }
    ensures one_to_one_exactly { (p : Prime) (n i : ℕ) (F : FoundMap p n) → IsFoundMap p n i F
        → ((w : List (Polynomial p n)) → InPreimage p n F.matrix (stable_kernel p n F.target.found) w
        → InImage p n (stable_kernel p n F.source.found) w)
        ↔ IsOneToOneMap p n i F.source.ideal F.target.ideal F.lift }
    ensures one_to_one { (p : Prime) (n i : ℕ) (F : FoundMap p n) → IsFoundMap p n i F
        → (C : PolynomialMatrix p n) → HasShape p n (length F.source.found.cocycles.columns) (length C.columns) C
        → GeneratesPreimage p n C F.matrix (stable_kernel p n F.target.found)
        → ColumnsInImage p n (stable_kernel p n F.source.found) C ↔ IsOneToOneMap p n i F.source.ideal F.target.ideal F.lift }
    ensures onto_exactly { (p : Prime) (n i : ℕ) (F : FoundMap p n) → IsFoundMap p n i F
        → (Ws : List (PolynomialMatrix p n)) (r : ℕ) → IsJoin p n F.target.found F.matrix Ws (suc r)
        → ColumnsInImage p n (matrix_at p n Ws r) (matrix_at p n Ws (suc r))
        → IsEverything p n (matrix_at p n Ws r) ↔ IsOntoMap p n i F.source.ideal F.target.ideal F.lift }
{}

/// Membership, a resolution and Ext hold as they stand: these verdicts say no more than the facts do.
pub fn facts_give_plain_verdicts()
    ensures member { (p : Prime) (n : ℕ) (fs : List (Polynomial p n)) (f : Polynomial p n) (answer : Bool)
        → (IsTrue answer ↔ InIdeal p n fs f) → Holds p n (member fs f answer) }
    ensures resolution { (p : Prime) (n : ℕ) (fs : List (Polynomial p n)) (i : ℕ) (ds : List (PolynomialMatrix p n))
        → IsResolutionOf p n fs i ds → Holds p n (resolution fs i ds (listed (i + 2) (rank p n ds))) }
    ensures ext { (p : Prime) (n i : ℕ) (I : ResolvedIdeal p n) (Z N U : PolynomialMatrix p n)
        → PresentsExt p n i I Z N U → Holds p n (ext i I Z N U (length Z.columns) (length N.columns)) }
{}
