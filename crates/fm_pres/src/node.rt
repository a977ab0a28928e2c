// Forms with their shapes and depths.
use crate::form::Form;
use crate::shape::Shape;

/// A form with its shape and its depth.
#[derive(Drop)]
pub(crate) struct Node {
    pub form: Form,
    pub shape: Shape,
    pub depth: u32,
}
