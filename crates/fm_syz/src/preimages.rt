// Generators of preimages.
ghost use Rattle.std.specs.Prelude.{◌≡◌};
ghost use Rattle.fm_syz.specs.GeneratorValues.{AreGenerators};

use crate::generators::Generators;
use crate::graph::Graph;
use std::marker::Model;

/// Generators of all w with `A * w` in the image of B, and the completed graph of [A | B]; of the kernel of A, where B has no columns.
#[derive(Drop)]
pub struct Preimage {
    whole: Graph,
    generators: Generators,
}

impl Model for Preimage {
    ghost use Rattle.fm_syz.specs.GeneratorValues.{AreGenerators, PreimageValue};

    ghost Value = { PreimageValue };

    ghost view = { λ p. record { whole = p.whole; generators = p.generators } };

    ghost invariant = { λ p. AreGenerators p.whole p.generators };
}

impl Preimage {
    pub(crate) fn new(whole: Graph, generators: Generators) -> Preimage
        requires { AreGenerators whole generators }
        ensures { result ≡ record { whole = whole; generators = generators } }
    {
        Preimage { whole, generators }
    }

    /// The completed graph of [A | B].
    pub fn whole(&self) -> &Graph
        ensures same { result.now ≡ self.now.whole }
        ensures generate { AreGenerators self.now.whole self.now.generators }
    {
        &self.whole
    }

    pub fn generators(&self) -> &Generators
        ensures same { result.now ≡ self.now.generators }
        ensures generate { AreGenerators self.now.whole self.now.generators }
    {
        &self.generators
    }
}
