// The lines on columns that lie in an image, or not.
ghost use Rattle.std.specs.Prelude.{OnOk, length, ◌≡◌};
ghost use Rattle.fm_certificates.specs.Certificates.{inside_claims};
ghost use Rattle.fm_certify.specs.Claims.{HasClaims};
ghost use Rattle.fm_syz.specs.GraphValues.{graph_meaning};
ghost use Rattle.fm_syz.specs.Insides.{HasColumns, inside_value};
ghost use Rattle.fm_writer.specs.Kinds.{excluding_line, named_line};

use crate::appending::{push_columns, push_outside};
use fm_syz::{Graph, Inside};
use fm_writer::{Claim, Excluding, Named};
use std::alloc::AllocError;

/// A line of the kind `all` with the solutions, or one of the kind `some` for the first column outside.
pub(crate) fn push_inside<'a>(
    graph: &'a Graph,
    inside: &'a Inside,
    all: Named,
    some: Excluding,
    claims: &mut Vec<Claim<'a>>,
) -> Result<(), AllocError>
    requires { HasColumns graph.now.matrix.ring (length graph.now.matrix.columns) inside.now }
    ensures { let r = graph.now.matrix.ring in OnOk result (HasClaims r.vars claims.old.items
        (inside_claims r (graph_meaning r graph.now) (inside_value r inside.now) (named_line all) (excluding_line some)) claims.new.items) }
{
    match inside {
        Inside::All(columns) => push_columns(all, graph.width(), columns.as_slice(), claims),
        Inside::First(outside) => push_outside(some, graph, outside, claims),
    }
}
