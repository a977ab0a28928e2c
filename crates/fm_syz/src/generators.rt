// Generators of the first entries of kernels.
ghost use Rattle.std.specs.Prelude.{◌≡◌};

use crate::graph::Graph;
use fm_mat::Matrix;
use std::marker::Model;

/// Generators of the first entries of the kernel of a matrix: the columns of `found`, whose completed graph is `graph`. Each stands above a
/// column of `x` in the kernel, and `found * w` has the first entries of its syzygies.
#[derive(Drop)]
pub struct Generators {
    graph: Graph,
    x: Matrix,
    w: Matrix,
}

impl Model for Generators {
    ghost use Rattle.fm_syz.specs.GeneratorValues.{GeneratorsValue};

    ghost Value = { GeneratorsValue };

    ghost view = { λ g. record { graph = g.graph; x = g.x; w = g.w } };
}

impl Generators {
    pub(crate) fn new(graph: Graph, x: Matrix, w: Matrix) -> Generators
        ensures { result ≡ record { graph = graph; x = x; w = w } }
    {
        Generators { graph, x, w }
    }

    /// The generators.
    pub fn found(&self) -> &Matrix
        ensures { result.now ≡ self.now.graph.matrix }
    {
        self.graph.matrix()
    }

    /// The completed graph of the generators.
    pub fn graph(&self) -> &Graph
        ensures { result.now ≡ self.now.graph }
    {
        &self.graph
    }

    /// The columns below the generators.
    pub fn x(&self) -> &Matrix
        ensures { result.now ≡ self.now.x }
    {
        &self.x
    }

    /// The coordinates of the first entries of the syzygies.
    pub fn w(&self) -> &Matrix
        ensures { result.now ≡ self.now.w }
    {
        &self.w
    }
}
