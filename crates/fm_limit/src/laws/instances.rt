// The four kinds of limits are direct systems, and have the facts of one by what is checked at stage 0.
ghost use Rattle.std.specs.Prelude.{ℕ, ◌≡◌, List, [], ◌∷◌, length};
ghost use Rattle.fm_gfp.specs.declared.prime.Prime.{Prime};
ghost use Rattle.fm_algebra.specs.Polynomials.{Polynomial, polynomial_negative};
ghost use Rattle.fm_algebra.specs.PolynomialMatrices.{PolynomialMatrix, matrix_unit};
ghost use Rattle.fm_limit.specs.ResolvedIdeal.{ResolvedIdeal, IsResolved};
ghost use Rattle.fm_limit.specs.Facts.{PresentsExt};
ghost use Rattle.fm_limit.specs.GivenModules.{GivenModule, IsGivenModule, ModuleFacts};
ghost use Rattle.fm_limit.specs.GivenSystems.{GivenSystem, IsGivenSystem, GivenFacts, KernelFacts};
ghost use Rattle.fm_limit.specs.Iterated.{iterated_given};
ghost use Rattle.fm_limit.specs.Koszul.{koszul_matrix, koszul_given};
ghost use Rattle.fm_limit.specs.LimitOf.{ideal_limit, module_limit, kernel_limit, preimage_limit};
ghost use Rattle.fm_limit.specs.Found.{FoundDegree, FoundMap, Coordinates, IsFoundDegree, IsFoundMap, IsFoundLimit, IsFoundLimitMap, along};

/// Degrees of resolved ideals, modules with a morphism, and systems that are given by matrices, whose cocycles are a kernel or a preimage, have the facts of a limit by what is checked at stage 0; and the map that an inclusion of ideals induces has those of a map. (By flatness of Frobenius, Kunz 1969.)
pub fn facts_at_stage_zero_are_facts_of_a_system()
    ensures degree { (p : Prime) (n i : ℕ) (D : FoundDegree p n) → IsFoundDegree p n i D
        → IsFoundLimit p n (record { limit = ideal_limit i D.ideal; found = D.found }) }
    ensures module { (p : Prime) (n : ℕ) (G : GivenModule p n) (Ks : List (PolynomialMatrix p n)) (t : ℕ) → ModuleFacts p n G Ks t
        → IsFoundLimit p n (record {
          limit = module_limit G;
          found = record {
            cocycles = matrix_unit p n G.rank;
            morphism = G.morphism;
            kernels = Ks;
            repeat = t;
          };
        }) }
    ensures kernel { (p : Prime) (n : ℕ) (G : GivenSystem p n) (C : Coordinates p n)
        → KernelFacts p n G C.cocycles C.morphism C.kernels C.repeat
        → IsFoundLimit p n (record { limit = kernel_limit G; found = C }) }
    ensures preimage { (p : Prime) (n : ℕ) (G : GivenSystem p n) (C : Coordinates p n)
        → GivenFacts p n G C.cocycles C.morphism C.kernels C.repeat
        → IsFoundLimit p n (record { limit = preimage_limit G; found = C }) }
    ensures map { (p : Prime) (n i : ℕ) (F : FoundMap p n) → IsFoundMap p n i F → IsFoundLimitMap p n (along p n i F) }
{}

/// Koszul cohomology in degree i of a list of elements, with the powers of the elements as morphism, is given by matrices whose cocycles are a kernel. Of two elements `delta_0` is the column (f, g), and `delta_1` the row (- g, f).
pub fn koszul_cohomology_is_a_direct_system()
    ensures system { (p : Prime) (n : ℕ) (fs : List (Polynomial p n)) (i : ℕ) → IsGivenSystem p n (koszul_given p n fs i) }
    ensures column { (p : Prime) (n : ℕ) (f g : Polynomial p n)
        → koszul_matrix p n (f ∷ g ∷ []) 1 ≡ record { rows = 2; columns = (f ∷ g ∷ []) ∷ [] } }
    ensures row { (p : Prime) (n : ℕ) (f g : Polynomial p n)
        → koszul_matrix p n (f ∷ g ∷ []) 2 ≡ record { rows = 1; columns = (polynomial_negative p n g ∷ []) ∷ (f ∷ []) ∷ [] } }
{}

/// A resolved ideal in degree j, and a module in place of the ring, give four matrices whose cocycles are a preimage: iterated local cohomology. Ext with its generating morphism is such a module. (G. Lyubeznik, F-modules, 1997.)
pub fn iterated_local_cohomology_is_a_direct_system()
    ensures module { (p : Prime) (n i : ℕ) (I : ResolvedIdeal p n) (Z N U : PolynomialMatrix p n) → IsResolved p n i I
        → PresentsExt p n i I Z N U
        → IsGivenModule p n (record { rank = length Z.columns; relations = N; morphism = U }) }
    ensures system { (p : Prime) (n j : ℕ) (J : ResolvedIdeal p n) (G : GivenModule p n) → IsResolved p n j J → IsGivenModule p n G
        → IsGivenSystem p n (iterated_given p n j J G) }
{}
