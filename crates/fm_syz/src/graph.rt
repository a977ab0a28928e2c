// Completed graphs.
ghost use Rattle.std.specs.Prelude.{IfOk, length, map, ◌≡◌};
ghost use Rattle.fm_complete.specs.Bases.{entry_value};
ghost use Rattle.fm_syz.specs.GraphValues.{IsGraph};

use crate::copying::{copied, copied_members};
use fm_complete::Entry;
use fm_mat::Matrix;
use fm_poly::Ring;
use fm_vec::Vector;
use std::alloc::{AllocError, Global};
use std::marker::Model;

/// A matrix with a completion of its graph: the members of the completion, and its log.
#[derive(Drop)]
pub struct Graph {
    matrix: Matrix,
    members: Vec<Vector>,
    log: Vec<Entry>,
}

impl Model for Graph {
    ghost use Rattle.std.specs.Prelude.{map};
    ghost use Rattle.fm_complete.specs.Bases.{entry_value};
    ghost use Rattle.fm_syz.specs.GraphValues.{GraphValue, IsGraph};

    ghost Value = { GraphValue };

    ghost view = { λ g. record { matrix = g.matrix; members = g.members.items; log = map entry_value g.log.items } };

    ghost invariant = { λ g. IsGraph (record { matrix = g.matrix; members = g.members.items; log = map entry_value g.log.items }) };
}

impl Graph {
    pub(crate) fn new(matrix: Matrix, members: Vec<Vector>, log: Vec<Entry>) -> Graph
        requires { IsGraph (record { matrix = matrix; members = members.items; log = map entry_value log.items }) }
        ensures { result ≡ record { matrix = matrix; members = members.items; log = map entry_value log.items } }
    {
        Graph {
            matrix,
            members,
            log,
        }
    }

    pub fn copy(&self, alloc: Global) -> Result<Graph, AllocError>
        ensures { IfOk result (λ g. g ≡ self.now) }
    {
        let matrix = self.matrix.copy(alloc)?;
        let members = copied_members(alloc, &self.members)?;
        let log = copied(alloc, &self.log)?;
        Ok(Graph {
            matrix,
            members,
            log,
        })
    }

    /// The matrix, whose graph the members complete.
    pub fn matrix(&self) -> &Matrix
        ensures same { result.now ≡ self.now.matrix }
        ensures complete { IsGraph self.now }
    {
        &self.matrix
    }

    pub fn ring(&self) -> Ring
        ensures { result ≡ self.now.matrix.ring }
    {
        self.matrix.ring()
    }

    /// The rows of the matrix.
    pub fn rows(&self) -> u32
        ensures { result ≡ self.now.matrix.rows }
    {
        self.matrix.rows()
    }

    /// The columns of the matrix.
    pub fn width(&self) -> u32
        ensures { result ≡ length self.now.matrix.columns }
    {
        self.matrix.cols()
    }

    /// The members of the completion, vectors with as many components as the matrix has rows and columns.
    pub fn members(&self) -> &[Vector]
        ensures same { result.now ≡ self.now.members }
        ensures complete { IsGraph self.now }
    {
        &self.members
    }

    /// The log of the completion.
    pub fn log(&self) -> &[Entry]
        ensures { map entry_value result.now ≡ self.now.log }
    {
        &self.log
    }
}
