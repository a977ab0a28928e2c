// Chains of kernels.
ghost use Rattle.std.specs.Prelude.{IfOk, length, map, suc, take, ◌≡◌, ◌≤◌};
ghost use Rattle.fm_chain.specs.Chains.{member_graph, member_graphs};

use fm_mat::Column;
use fm_syz::{Graph, Outside, Preimage};
use std::alloc::{AllocError, Global};
use std::marker::Model;

/// K_1 .. K_(t+1), a column of each K_(s+1) outside K_s for s below t, and K_(t+1) as K_t times w. K_0 are the relations.
#[derive(Drop)]
pub struct Chain {
    links: Vec<Preimage>,
    growth: Vec<Outside>,
    w: Vec<Column>,
}

impl Model for Chain {
    ghost use Rattle.std.specs.Prelude.{length, suc, ◌≡◌};
    ghost use Rattle.fm_chain.specs.Chains.{ChainValue};

    ghost Value = { ChainValue };

    ghost view = { λ c. record { links = c.links.items; growth = c.growth.items; w = c.w.items } };

    ghost invariant = { λ c. length c.links.items ≡ suc (length c.growth.items) };
}

impl Chain {
    pub(crate) fn new(links: Vec<Preimage>, growth: Vec<Outside>, w: Vec<Column>) -> Chain
        requires { length links.items ≡ suc (length growth.items) }
        ensures { result ≡ record { links = links.items; growth = growth.items; w = w.items } }
    {
        Chain { links, growth, w }
    }

    /// The stable index t: the first with as large a member after it.
    pub fn stable(&self) -> usize
        ensures { result ≡ length self.now.growth }
    {
        self.growth.len()
    }

    /// K_1 .. K_(t+1).
    pub fn links(&self) -> &[Preimage]
        ensures same { result.now ≡ self.now.links }
        ensures count { length self.now.links ≡ suc (length self.now.growth) }
    {
        &self.links
    }

    /// The columns that are outside the member before.
    pub fn growth(&self) -> &[Outside]
        ensures { result.now ≡ self.now.growth }
    {
        &self.growth
    }

    /// The columns of w.
    pub fn w(&self) -> &[Column]
        ensures { result.now ≡ self.now.w }
    {
        &self.w
    }

    /// The graph of K_t. It takes no memory.
    pub fn stable_kernel<'a>(&'a self, relations: &'a Graph) -> &'a Graph
        ensures { result.now ≡ member_graph relations.entry.now self.entry.now.links (length self.entry.now.growth) }
    {
        member(relations, &self.links, self.growth.len())
    }

    /// The graphs of K_0 .. K_t, none of them copied.
    pub fn graphs<'a>(
        &'a self,
        alloc: Global,
        relations: &'a Graph,
    ) -> Result<Vec<&'a Graph>, AllocError>
        ensures { let c = self.entry.now in IfOk result (λ gs.
            map (λ g. g.now) gs.items ≡ take (suc (length c.growth)) (member_graphs relations.entry.now c.links)) }
    {
        let links = self.links();
        let mut graphs = Vec::new(alloc);
        for s in 0..links.len() {
            graphs.push(member(relations, links, s))?;
        }
        Ok(graphs)
    }
}

/// The graph of K_s.
pub(crate) fn member<'a>(relations: &'a Graph, links: &'a [Preimage], s: usize) -> &'a Graph
    requires { s ≤ length links.now }
    ensures { result.now ≡ member_graph relations.entry.now links.entry.now s }
{
    if s == 0 {
        return relations;
    }
    links[s - 1].generators().graph()
}
