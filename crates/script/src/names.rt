//! The names of a script.
use crate::fault::{Complaint, Fault, faulty};
use crate::kind::Kind;
use std::alloc::{AllocError, Global};
use std::collections::BTreeMap;

/// The name of the whole memory.
pub const ROOT: &str = "root";

/// What a name stands for.
#[derive(Clone, Copy, PartialEq)]
pub(crate) enum Shape {
    View,
    Reference(Kind),
    Array(Kind),
    Claim,
}

/// The names that lines gave, and what they stand for. Its methods that read a line's fields are the commands.
#[derive(Drop)]
pub(crate) struct Names {
    pub(crate) heap: Global,
    shapes: BTreeMap<String, Shape>,
}

impl Names {
    /// The names before any command.
    pub(crate) fn new(heap: Global) -> Result<Names, AllocError> {
        let mut shapes = BTreeMap::new(heap);
        shapes.insert(String::from_str(heap, ROOT)?, Shape::View)?;
        Ok(Names { heap, shapes })
    }

    /// Whether a name stands for an open claim.
    pub(crate) fn is_claim(&self, name: &str) -> bool {
        matches!(self.shapes.get(name), Some(Shape::Claim))
    }

    /// What a name stands for.
    pub(crate) fn shape(&self, name: &str) -> Result<Shape, Fault> {
        self.shapes
            .get(name)
            .copied()
            .ok_or_else(|| faulty(self.heap, Complaint::NotNamed, name))
    }

    // A name that stands for this, or a complaint.
    fn of_shape(&self, shape: Shape, complaint: Complaint, name: &str) -> Result<String, Fault> {
        if self.shape(name)? != shape {
            return Err(faulty(self.heap, complaint, name));
        }
        Ok(String::from_str(self.heap, name)?)
    }

    /// A name that stands for a view.
    pub(crate) fn view(&self, name: &str) -> Result<String, Fault> {
        self.of_shape(Shape::View, Complaint::NotView, name)
    }

    /// The kind of the array that a name stands for.
    pub(crate) fn array_kind(&self, name: &str) -> Result<Kind, Fault> {
        let Shape::Array(kind) = self.shape(name)? else {
            return Err(faulty(self.heap, Complaint::NotArray, name));
        };
        Ok(kind)
    }

    /// A name that stands for a claim.
    pub(crate) fn claim(&self, name: &str) -> Result<String, Fault> {
        self.of_shape(Shape::Claim, Complaint::NotClaim, name)
    }

    /// Gives a name, which begins with a letter, is no kind of element, and was not given before.
    pub(crate) fn give(&mut self, name: &str, shape: Shape) -> Result<String, Fault> {
        let letter = name
            .as_bytes()
            .first()
            .is_some_and(|first| first.is_ascii_alphabetic());
        if !letter || name.parse::<Kind>().is_ok() {
            return Err(faulty(self.heap, Complaint::NotName, name));
        }
        if self.shapes.contains_key(name) {
            return Err(faulty(self.heap, Complaint::NamedBefore, name));
        }
        // The map owns one text of the name, and the command another.
        self.shapes
            .insert(String::from_str(self.heap, name)?, shape)?;
        Ok(String::from_str(self.heap, name)?)
    }

    /// Takes a name back, which is free then.
    pub(crate) fn free(&mut self, name: &str) {
        let _ = self.shapes.remove(name);
    }
}
