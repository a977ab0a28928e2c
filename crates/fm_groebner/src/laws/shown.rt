// What finite data show of kernels, preimages and images: a Gröbner basis of a graph, and equations of matrices.
ghost use Rattle.std.specs.Prelude.{Bool, ℕ, List};
ghost use Rattle.fm_gfp.specs.declared.prime.Prime.{Prime};
ghost use Rattle.fm_mono.specs.declared.order.Order.{Order};
ghost use Rattle.fm_algebra.specs.Polynomials.{Polynomial};
ghost use Rattle.fm_algebra.specs.PolynomialMatrices.{PolynomialMatrix, InImage, GeneratesKernel, GeneratesPreimage, matrix_twist};
ghost use Rattle.fm_term.specs.declared.vterm.VTerm.{VTerm};
ghost use Rattle.fm_groebner.specs.Syzygies.{IsBasisOfGraph, IsKernelShown, IsPreimageShown, IsOutsideShown, syzygies};

/// The syzygies of a Gröbner basis of the graph of A, in the order of its members, generate the kernel of A.
pub fn the_syzygies_generate_the_kernel()
    ensures { (p : Prime) (n : ℕ) (o : Order) (A : PolynomialMatrix p n) (members : List (List VTerm)) → IsBasisOfGraph p n o A members
        → GeneratesKernel p n (syzygies p n A members) A }
{}

/// Where `A * C = 0` and the syzygies are `C * W`, C generates the kernel of A.
pub fn a_kernel_is_shown()
    ensures { (p : Prime) (n : ℕ) (o : Order) (A C W : PolynomialMatrix p n) (members : List (List VTerm))
        → IsKernelShown p n o A C W members
        → GeneratesKernel p n C A }
{}

/// Where `[A | B] * (C above X) = 0` and the first rows of the syzygies of `[A | B]` are `C * W`, C generates all w with `A * w` in `im B`.
pub fn a_preimage_is_shown()
    ensures { (p : Prime) (n : ℕ) (o : Order) (A B C X W : PolynomialMatrix p n) (members : List (List VTerm))
        → IsPreimageShown p n o A B C X W members
        → GeneratesPreimage p n C A B }
{}

/// A vector whose reduction by the members twisted e times ends with a head in the upper block that none divides is not in the image of the twist of A.
pub fn an_outside_is_shown()
    ensures { (p : Prime) (n : ℕ) (o : Order) (bound : List ℕ → Bool) (e : ℕ) (A : PolynomialMatrix p n) (members : List (List VTerm))
        (v : List (Polynomial p n)) (by : List ℕ) (t r : List VTerm)
        → IsOutsideShown p n o bound e A members v by t r → ¬ (InImage p n (matrix_twist p n e A) v) }
{}
