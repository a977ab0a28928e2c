// The values of parts, each formed once from those of its operands.
ghost use Rattle.std.specs.Prelude.{IfOk, IsErrOf, List, None, OnOk, false, length, true, ◌≡◌, ◌≤◌};
ghost use Rattle.fm_parts.specs.Replays.{is_number};
ghost use Rattle.fm_parts.specs.Values.{is_within_bound};
ghost use Rattle.fm_poly.specs.declared.ring.Ring.{Ring as RingValue};
ghost use Rattle.fm_report.specs.Parts.{Part};
ghost use Rattle.fm_pres.specs.Kept.{AreValues, IsValue, Keeps, is_there, operands_are_there, operands_of};
ghost use Rattle.fm_pres.specs.Nodes.{AreNodes, AreOver, parts_of};
ghost use Rattle.fm_pres.specs.Tables.{part_at};

use crate::form::Form;
use crate::judging::node;
use crate::node::Node;
use fm_mat::Matrix;
use fm_poly::{PolyError, Ring};
use std::alloc::{AllocError, Global};
use std::rc::Rc;

/// Adds places for values through part k.
pub(crate) fn make_room(k: u32, values: &mut Vec<Option<Rc<Matrix>>>) -> Result<(), AllocError>
    ensures values { (r : RingValue) (ps : List Part) → k ≤ length ps → AreValues r ps values.old.items → AreValues r ps values.new.items }
    ensures room { OnOk result (k ≤ length values.new.items) }
{
    while values.len() < k as usize {
        values.push(None)?;
    }
    Ok(())
}

/// Forms the value of part k where it is not there, those of its operands first. The calls are nested at most as deep as the part is.
pub(crate) fn evaluate(
    alloc: Global,
    ring: Ring,
    nodes: &[Node],
    k: u32,
    values: &mut Vec<Option<Rc<Matrix>>>,
) -> Result<(), PolyError>
    requires nodes { AreNodes nodes.now }
    requires over { AreOver ring nodes.now }
    requires number { is_number (parts_of nodes.now) k ≡ true }
    requires room { k ≤ length values.old.items }
    requires values { AreValues ring (parts_of nodes.now) values.old.items }
    ensures values { AreValues ring (parts_of nodes.now) values.new.items }
    ensures count { length values.new.items ≡ length values.old.items }
    ensures kept { Keeps values.old.items values.new.items }
    ensures there { OnOk result (is_there values.new.items k ≡ true) }
    ensures exponent { IsErrOf result PolyError.Exponent → is_within_bound ring (part_at (parts_of nodes.now) k) ≡ false }
{
    if values[k as usize - 1].is_some() {
        return Ok(());
    }
    let Some((a, b)) = operands(&node(nodes, k).form) else {
        return keep(alloc, ring, nodes, k, values);
    };
    evaluate(alloc, ring, nodes, a, values)?;
    evaluate(alloc, ring, nodes, b, values)?;
    keep(alloc, ring, nodes, k, values)
}

// The operands of a form; one operand stands twice.
fn operands(form: &Form) -> Option<(u32, u32)>
    ensures { result ≡ operands_of form.now }
{
    match form {
        Form::Given(_) => None,
        Form::Twist { part, .. } => Some((*part, *part)),
        Form::Flip(a) => Some((*a, *a)),
        Form::Beside(a, b) => Some((*a, *b)),
        Form::Stack(a, b) => Some((*a, *b)),
        Form::Times(a, b) => Some((*a, *b)),
        Form::Pick { part, .. } => Some((*part, *part)),
    }
}

// Forms the value of part k from those of its operands.
fn keep(
    alloc: Global,
    ring: Ring,
    nodes: &[Node],
    k: u32,
    values: &mut Vec<Option<Rc<Matrix>>>,
) -> Result<(), PolyError>
    requires nodes { AreNodes nodes.now }
    requires over { AreOver ring nodes.now }
    requires number { is_number (parts_of nodes.now) k ≡ true }
    requires room { k ≤ length values.old.items }
    requires values { AreValues ring (parts_of nodes.now) values.old.items }
    requires there { operands_are_there nodes.now k values.old.items ≡ true }
    ensures values { AreValues ring (parts_of nodes.now) values.new.items }
    ensures count { length values.new.items ≡ length values.old.items }
    ensures kept { Keeps values.old.items values.new.items }
    ensures there { OnOk result (is_there values.new.items k ≡ true) }
    ensures exponent { IsErrOf result PolyError.Exponent → is_within_bound ring (part_at (parts_of nodes.now) k) ≡ false }
{
    let value = formed(alloc, ring, nodes, k, values)?;
    let value = Rc::new(alloc, value)?;
    values[k as usize - 1] = Some(value);
    Ok(())
}

// The value of part k from those of its operands.
fn formed(
    alloc: Global,
    ring: Ring,
    nodes: &[Node],
    k: u32,
    values: &[Option<Rc<Matrix>>],
) -> Result<Matrix, PolyError>
    requires nodes { AreNodes nodes.now }
    requires over { AreOver ring nodes.now }
    requires number { is_number (parts_of nodes.now) k ≡ true }
    requires values { AreValues ring (parts_of nodes.now) values.now }
    requires there { operands_are_there nodes.now k values.now ≡ true }
    ensures value { IfOk result (λ m. IsValue ring (part_at (parts_of nodes.now) k) m) }
    ensures exponent { IsErrOf result PolyError.Exponent → is_within_bound ring (part_at (parts_of nodes.now) k) ≡ false }
{
    match &node(nodes, k).form {
        Form::Given(m) => {
            let value = m.copy(alloc)?;
            Ok(value)
        }
        Form::Twist { part, power } => {
            let value = operand(values, *part).twist(alloc, *power)?;
            Ok(value)
        }
        Form::Flip(a) => {
            let value = operand(values, *a).flip(alloc)?;
            Ok(value)
        }
        Form::Beside(a, b) => {
            let value = operand(values, *a).beside(alloc, operand(values, *b))?;
            Ok(value)
        }
        Form::Stack(a, b) => {
            let value = operand(values, *a).stack(alloc, operand(values, *b))?;
            Ok(value)
        }
        Form::Times(a, b) => {
            let value = operand(values, *a).times(alloc, operand(values, *b))?;
            Ok(value)
        }
        Form::Pick { part, columns } => {
            let value = operand(values, *part).pick(alloc, columns)?;
            Ok(value)
        }
    }
}

// The value of part k, which is there.
fn operand(values: &[Option<Rc<Matrix>>], k: u32) -> &Matrix
    requires low { 1 ≤ k }
    requires there { is_there values.now k ≡ true }
    ensures { (r : RingValue) (ps : List Part) → AreValues r ps values.entry.now → IsValue r (part_at ps k) result.now }
{
    kept(values, k).as_ref()
}

/// What is kept of part k, which is there.
pub(crate) fn kept(values: &[Option<Rc<Matrix>>], k: u32) -> &Rc<Matrix>
    requires low { 1 ≤ k }
    requires there { is_there values.now k ≡ true }
    ensures { (r : RingValue) (ps : List Part) → AreValues r ps values.entry.now → IsValue r (part_at ps k) result.now.value }
{
    let Some(m) = &values[k as usize - 1] else {
        unreachable!();
    };
    m
}
