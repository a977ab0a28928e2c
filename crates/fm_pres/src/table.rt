// Tables of parts.
ghost use Rattle.std.specs.Prelude.{IfOk, IsErrOf, OnErr, [], false, length, true, ◌≡◌};
ghost use Rattle.fm_parts.specs.Replays.{is_number};
ghost use Rattle.fm_parts.specs.Shapes.{fits, shape_of};
ghost use Rattle.fm_parts.specs.Values.{is_within_bound};
ghost use Rattle.fm_pres.specs.Kept.{IsValue};
ghost use Rattle.fm_pres.specs.Tables.{IsOver, answer_to, part_at, parts_in, parts_with};

use crate::evaluating::{evaluate, kept, make_room};
use crate::form::Form;
use crate::judging::{is_part, judged, node};
use crate::node::Node;
use crate::part_fault::PartFault;
use fm_mat::Matrix;
use fm_poly::{PolyError, Ring};
use std::alloc::{AllocError, Global};
use std::marker::Model;
use std::rc::Rc;

/// The parts of a certificate, each given or made of earlier ones, with the values that were formed.
#[derive(Drop)]
pub struct Table {
    ring: Ring,
    nodes: Vec<Node>,
    values: Vec<Option<Rc<Matrix>>>,
}

impl Model for Table {
    ghost use Rattle.std.specs.Prelude.{length, ◌<◌, ◌^◌};
    ghost use Rattle.fm_pres.specs.Tables.{TableValue};

    ghost Value = { TableValue };

    ghost use Rattle.fm_pres.specs.Kept.{AreValues};
    ghost use Rattle.fm_pres.specs.Nodes.{AreNodes, AreOver, forms_of, parts_of};

    ghost view = { λ t. record { ring = t.ring; forms = forms_of t.nodes.items } };

    ghost invariant = { λ t. AreNodes t.nodes.items × AreOver t.ring t.nodes.items
        × AreValues t.ring (parts_of t.nodes.items) t.values.items × (length t.nodes.items < 2 ^ 32) };
}

impl Table {
    /// A table without parts. It takes no memory.
    pub fn new(alloc: Global, ring: Ring) -> Table
        ensures { result ≡ record { ring = ring; forms = [] } }
    {
        Table {
            ring,
            nodes: Vec::new(alloc),
            values: Vec::new(alloc),
        }
    }

    /// Gives the form the next number, counted from 1. Neither its shape nor its depth needs a value. A table with 2^32 - 1 parts takes no
    /// more, and answers as it does where memory is short.
    pub fn add(&mut self, form: Form) -> Result<Result<u32, PartFault>, AllocError>
        requires { IsOver self.old.ring form }
        ensures answer { IfOk result (λ number. number ≡ answer_to (parts_in self.old) form) }
        ensures parts { IfOk result (λ _. parts_in self.new ≡ parts_with (parts_in self.old) form) }
        ensures ring { self.new.ring ≡ self.old.ring }
        ensures unchanged { OnErr result (self.new ≡ self.old) }
    {
        let (shape, depth) = match judged(&self.nodes, &form) {
            Ok(measures) => measures,
            Err(fault) => return Ok(Err(fault)),
        };
        if self.nodes.len() >= u32::MAX as usize {
            return Err(AllocError);
        }
        let number = self.nodes.len() as u32 + 1;
        self.nodes.push(Node { form, shape, depth })?;
        Ok(Ok(number))
    }

    /// Whether k is the number of a part.
    pub fn is_part(&self, k: u32) -> bool
        ensures { result ≡ is_number (parts_in self.now) k }
    {
        is_part(&self.nodes, k)
    }

    /// The numbers of rows and of columns of part k. It takes no memory.
    pub fn shape(&self, k: u32) -> (u32, u32)
        requires { is_number (parts_in self.now) k ≡ true }
        ensures shape { result ≡ shape_of (part_at (parts_in self.now) k) }
        ensures fits { fits (part_at (parts_in self.now) k) ≡ true }
    {
        let shape = node(&self.nodes, k).shape;
        (shape.rows, shape.columns)
    }

    pub fn ring(&self) -> Ring
        ensures { result ≡ self.now.ring }
    {
        self.ring
    }

    /// The number of parts.
    pub fn len(&self) -> u32
        ensures { result ≡ length (parts_in self.now) }
    {
        self.nodes.len() as u32
    }

    /// The value of part k, shared with the table. It is formed when it is first asked for, here or for a part that is made of it, and then kept.
    pub fn value(&mut self, alloc: Global, k: u32) -> Result<Rc<Matrix>, PolyError>
        requires { is_number (parts_in self.old) k ≡ true }
        ensures value { IfOk result (λ m. IsValue self.old.ring (part_at (parts_in self.old) k) m.value) }
        ensures exponent { IsErrOf result PolyError.Exponent → is_within_bound self.old.ring (part_at (parts_in self.old) k) ≡ false }
        ensures unchanged { self.new ≡ self.old }
    {
        make_room(k, &mut self.values)?;
        evaluate(alloc, self.ring, &self.nodes, k, &mut self.values)?;
        let value = kept(&self.values, k).clone()?;
        Ok(value)
    }
}
