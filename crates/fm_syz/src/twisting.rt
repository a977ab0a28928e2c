// Twists of completed graphs by powers of the characteristic.
ghost use Rattle.std.specs.Prelude.{Err, IfOk, IsErrOf, Ok, OnOk, false, length, map, true, ◌^◌, ◌≡◌, ℕ};
ghost use Rattle.std.specs.List.{list_all};
ghost use Rattle.fm_complete.specs.Divisions.{AreMembers, terms_of};
ghost use Rattle.fm_gfp.specs.Primes.{prime_value};
ghost use Rattle.fm_graphs.specs.Graphs.{twisted_graph};
ghost use Rattle.fm_poly.specs.declared.ring.Ring.{Ring};
ghost use Rattle.fm_run.specs.Runs.{Exponent};
ghost use Rattle.fm_syz.specs.GraphValues.{graph_meaning};
ghost use Rattle.fm_term.specs.Multiples as multiples;
ghost use Rattle.fm_vec.specs.Multiples.{twist_fits};

use crate::copying::copied;
use crate::graph::Graph;
use fm_poly::{PolyError, Ring};
use fm_vec::Vector;
use std::alloc::Global;

/// The twist by q = p^e: the matrix and each member are twisted, and the log stays. It divides nothing; it is linear in the terms.
pub fn twisted(alloc: Global, g: &Graph, e: u8) -> Result<Graph, PolyError>
    ensures ring { IfOk result (λ h. h.matrix.ring ≡ g.now.matrix.ring) }
    ensures value { (r : Ring) (units : ℕ) → g.now.matrix.ring ≡ r → IfOk result (λ h.
        twisted_graph r e (graph_meaning r g.now) units ≡ record { end = Ok (graph_meaning r h); left = units }) }
    ensures exponent { (r : Ring) (units : ℕ) → g.now.matrix.ring ≡ r → IsErrOf result PolyError.Exponent
        → twisted_graph r e (graph_meaning r g.now) units ≡ record { end = Err Exponent; left = units } }
{
    let matrix = g.matrix().twist(alloc, e)?;
    let members = g.members();
    let members = twisted_members(alloc, g.ring(), g.rows() + g.width(), e, members)?;
    let log = copied(alloc, g.log())?;
    Ok(Graph::new(matrix, members, log))
}

/// The members of a completed graph, each twisted by p^e. Linear in their terms.
pub fn twisted_members(
    alloc: Global,
    ring: Ring,
    rows: u32,
    e: u8,
    members: &[Vector],
) -> Result<Vec<Vector>, PolyError>
    requires { AreMembers ring rows members.now }
    ensures members { IfOk result (λ out. AreMembers ring rows out.items) }
    ensures count { IfOk result (λ out. length out.items ≡ length members.now) }
    ensures value { IfOk result (λ out.
        terms_of out.items ≡ map (multiples.twisted (prime_value ring.prime ^ e)) (terms_of members.now)) }
    ensures fits { OnOk result (list_all (twist_fits (prime_value ring.prime ^ e)) (terms_of members.now) ≡ true) }
    ensures exponent { IsErrOf result PolyError.Exponent
        → list_all (twist_fits (prime_value ring.prime ^ e)) (terms_of members.now) ≡ false }
{
    let mut out = Vec::with_capacity(alloc, members.len())?;
    let mut members = members;
    'members: loop {
        let Some((v, later)) = members.split_first() else {
            return Ok(out);
        };
        out.push(v.twist(alloc, e)?)?;
        members = later;
    }
}
