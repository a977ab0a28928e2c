// Whether a form is a part after those that are there.
ghost use Rattle.std.specs.Prelude.{slice_get, ◌-◌, None, Option, Some, length, true, ◌<◌, ◌≡◌, ◌≤◌};
ghost use Rattle.std.specs.List.{list_all};
ghost use Rattle.fm_words.specs.Options.{where_so};
ghost use Rattle.fm_parts.specs.Replays.{is_number};
ghost use Rattle.fm_parts.specs.Shapes.{DEPTH, columns_of, depth_of, fits, is_shallow, rows_of};
ghost use Rattle.fm_pres.specs.Nodes.{AreNodes, IsJudged, IsPart, parts_of};
ghost use Rattle.fm_pres.specs.Tables.{fault_of, is_column, part_at, refers, tree_of};

use crate::form::Form;
use crate::node::Node;
use crate::part_fault::PartFault;
use crate::shape::Shape;

const DEEPEST: u32 = 1000;

/// The first fault of the form, or its shape and its depth.
pub(crate) fn judged(nodes: &[Node], form: &Form) -> Result<(Shape, u32), PartFault>
    requires { AreNodes nodes.now }
    ensures { IsJudged (parts_of nodes.now) form.now result }
{
    if !refers_back(nodes, form) {
        return Err(PartFault::Reference);
    }
    let Some(shape) = shape(nodes, form) else {
        return Err(PartFault::Shape);
    };
    let depth = depth(nodes, form);
    if depth > DEEPEST {
        return Err(PartFault::Depth);
    }
    Ok((shape, depth))
}

fn refers_back(nodes: &[Node], form: &Form) -> bool
    requires { AreNodes nodes.now }
    ensures { result ≡ refers (parts_of nodes.now) form.now }
{
    match form {
        Form::Given(_) => true,
        Form::Twist { part, .. } => is_part(nodes, *part),
        Form::Flip(a) => is_part(nodes, *a),
        Form::Beside(a, b) => is_part(nodes, *a) && is_part(nodes, *b),
        Form::Stack(a, b) => is_part(nodes, *a) && is_part(nodes, *b),
        Form::Times(a, b) => is_part(nodes, *a) && is_part(nodes, *b),
        Form::Pick { part, columns } => {
            is_part(nodes, *part) && are_columns(node(nodes, *part).shape.columns, columns)
        }
    }
}

/// Whether k is the number of a part.
pub(crate) fn is_part(nodes: &[Node], k: u32) -> bool
    ensures { result ≡ is_number (parts_of nodes.now) k }
{
    0 < k && k as usize <= nodes.len()
}

// Whether each is the number of one of so many columns.
fn are_columns(count: u32, numbers: &[u32]) -> bool
    ensures { result ≡ list_all (is_column count) numbers.now }
{
    let mut numbers = numbers;
    'numbers: loop {
        let Some((j, later)) = numbers.split_first() else {
            return true;
        };
        if *j == 0 || *j > count {
            return false;
        }
        numbers = later;
    }
}

/// The form of part k, with its shape and its depth.
pub(crate) fn node(nodes: &[Node], k: u32) -> &Node
    requires nodes { AreNodes nodes.now }
    requires number { is_number (parts_of nodes.now) k ≡ true }
    ensures part { IsPart (parts_of nodes.entry.now) k result.now }
    ensures at { slice_get nodes.entry.now (k - 1) ≡ Some result.now }
{
    &nodes[k as usize - 1]
}

// The shape of the form; None where the shapes of its operands do not fit.
fn shape(nodes: &[Node], form: &Form) -> Option<Shape>
    requires nodes { AreNodes nodes.now }
    requires numbers { refers (parts_of nodes.now) form.now ≡ true }
    ensures { let a = tree_of (parts_of nodes.now) form.now in
        result ≡ where_so (fits a) (Some (record { rows = rows_of a; columns = columns_of a })) }
{
    match form {
        Form::Given(m) => Some(Shape {
            rows: m.rows(),
            columns: m.columns().len() as u32,
        }),
        Form::Twist { part, .. } => Some(node(nodes, *part).shape),
        Form::Flip(a) => Some(node(nodes, *a).shape.flip()),
        Form::Beside(a, b) => node(nodes, *a).shape.beside(node(nodes, *b).shape),
        Form::Stack(a, b) => node(nodes, *a).shape.stack(node(nodes, *b).shape),
        Form::Times(a, b) => node(nodes, *a).shape.times(node(nodes, *b).shape),
        Form::Pick { part, columns } => node(nodes, *part).shape.pick(columns.len()),
    }
}

fn depth(nodes: &[Node], form: &Form) -> u32
    requires nodes { AreNodes nodes.now }
    requires numbers { refers (parts_of nodes.now) form.now ≡ true }
    ensures { result ≡ depth_of (tree_of (parts_of nodes.now) form.now) }
{
    match form {
        Form::Given(_) => 1,
        Form::Twist { part, .. } => node(nodes, *part).depth + 1,
        Form::Flip(a) => node(nodes, *a).depth + 1,
        Form::Beside(a, b) => node(nodes, *a).depth.max(node(nodes, *b).depth) + 1,
        Form::Stack(a, b) => node(nodes, *a).depth.max(node(nodes, *b).depth) + 1,
        Form::Times(a, b) => node(nodes, *a).depth.max(node(nodes, *b).depth) + 1,
        Form::Pick { part, .. } => node(nodes, *part).depth + 1,
    }
}
