//! The commands of a script, called one after the other.
use crate::answer::Answer;
use crate::claims::Claims;
use crate::elements::{array, element_at, reference};
use crate::fault::{Fault, Halt, unnamed};
use crate::guest::Guest;
use parcel::page_numbers;
use script::{ClaimCall, Command, Cut, Kind, ROOT};
use std::alloc::{AllocError, Global};
use std::collections::BTreeMap;
use volatile_memory::{Error, VolatileSlice};

/// The views that names stand for. A reference or an array is kept as the view that it was cut for.
type Views = BTreeMap<String, VolatileSlice>;

// The names before any command.
fn first_views(heap: Global, root: VolatileSlice) -> Result<Views, AllocError> {
    let mut views = BTreeMap::new(heap);
    views.insert(String::from_str(heap, ROOT)?, root)?;
    Ok(views)
}

/// A guest, the copy that a host keeps of its memory, and the views and claims that names stand for. It ends by `end`.
pub(crate) struct Player<'a> {
    pub(crate) guest: Guest<'a>,
    copy: Vec<u8>,
    views: Views,
    claims: Claims,
}

impl<'a> Player<'a> {
    /// A guest whose whole memory is a view, with a copy of zeros and no claim.
    pub(crate) fn new(guest: Guest<'a>, root: VolatileSlice) -> Result<Player<'a>, AllocError> {
        let heap = guest.heap;
        Ok(Player {
            copy: vec![in heap; 0u8; root.len()]?,
            views: first_views(heap, root)?,
            claims: Claims::new(heap),
            guest,
        })
    }
}

impl Player<'_> {
    /// Settles what is still open, and hands out the memory and its copy.
    pub(crate) fn end(self) -> (Vec<u8>, Vec<u8>) {
        let Player {
            mut guest,
            copy,
            views: _,
            claims,
        } = self;
        claims.settle_all(&mut guest.map);
        (guest.memory, copy)
    }

    // The view of a name. There is none where the cut was refused.
    fn view(&self, name: &str) -> Result<VolatileSlice, Fault> {
        self.views
            .get(name)
            .copied()
            .ok_or_else(|| unnamed(self.guest.heap, name))
    }

    fn give(&mut self, name: &str, view: VolatileSlice) -> Result<(), AllocError> {
        self.views
            .insert(String::from_str(self.guest.heap, name)?, view)?;
        Ok(())
    }

    /// Makes the call of a command.
    pub(crate) fn play(&mut self, command: &Command) -> Result<Answer, Halt> {
        match command {
            Command::Let { name, from, cut } => self.cut(name.as_str(), from.as_str(), *cut),
            Command::Split { names, from, mid } => self.split(names, from.as_str(), *mid),
            Command::Bytes { view, addr, call } => {
                let view = self.view(view.as_str())?;
                self.guest.call_bytes(&view, *addr, call)
            }
            Command::Atomic {
                kind,
                view,
                addr,
                call,
            } => {
                let view = self.view(view.as_str())?;
                self.guest.call_atomic(*kind, &view, *addr, *call)
            }
            Command::Elements { kind, name, call } => {
                let view = self.view(name.as_str())?;
                self.guest.call_elements(*kind, &view, call)
            }
            Command::Copy { from, kind, to } => self.copy_view(from.as_str(), *kind, to.as_str()),
            Command::Claim { name, call } => self.claim(name.as_str(), call),
            Command::Take { kind, name } => self.take(*kind, name.as_str()),
        }
    }

    fn cut(&mut self, name: &str, from: &str, cut: Cut) -> Result<Answer, Halt> {
        let view = self.view(from)?;
        let part = call_cut(&view, cut)?;
        self.give(name, part)?;
        Ok(Answer::Size(part.len()))
    }

    fn split(&mut self, names: &(String, String), from: &str, mid: usize) -> Result<Answer, Halt> {
        let view = self.view(from)?;
        let (front, back) = view.split_at(mid)?;
        self.give(names.0.as_str(), front)?;
        self.give(names.1.as_str(), back)?;
        Ok(Answer::Halves(front.len(), back.len()))
    }

    fn copy_view(&mut self, from: &str, kind: Option<Kind>, to: &str) -> Result<Answer, Halt> {
        let from = self.view(from)?;
        let to = self.view(to)?;
        match kind {
            None => self.guest.copy_bytes(&from, &to)?,
            Some(kind) => self.guest.copy_array(kind, &from, &to)?,
        }
        Ok(Answer::Done)
    }

    fn claim(&mut self, name: &str, call: &ClaimCall) -> Result<Answer, Halt> {
        match call {
            ClaimCall::Open { view } => {
                let view = self.view(view.as_str())?;
                self.claims.open(name, &view)?;
                Ok(Answer::Size(view.len()))
            }
            ClaimCall::Put { addr, bytes } => {
                let claim = self.claims.get(name)?;
                let memory = self.guest.memory.as_mut_slice();
                Ok(Answer::Size(claim.put(memory, bytes.as_slice(), *addr)?))
            }
            ClaimCall::Settle => {
                self.claims.settle(&mut self.guest.map, name)?;
                Ok(Answer::Done)
            }
        }
    }

    // Takes a parcel of the dirty pages, applies it to the copy, and loads the element of a reference there.
    fn take(&mut self, kind: Kind, name: &str) -> Result<Answer, Halt> {
        let heap = self.guest.heap;
        let view = self.view(name)?;
        let length = self.guest.parcel_len()?;
        let mut parcel = vec![in heap; 0u8; length]?;
        let (taken, element) = self.guest.refresh_element(
            kind,
            &view,
            parcel.as_mut_slice(),
            self.copy.as_mut_slice(),
        )?;
        let pages = page_numbers(parcel.as_slice()).collect(heap)?;
        Ok(Answer::Taken {
            length: taken.length,
            pages,
            element,
        })
    }
}

fn call_cut(view: &VolatileSlice, cut: Cut) -> Result<VolatileSlice, Error> {
    match cut {
        Cut::Subslice { offset, count } => view.subslice(offset, count),
        Cut::Offset { count } => view.offset(count),
        Cut::Reference { kind, offset } => reference(kind, view, offset),
        Cut::Array { kind, offset, n } => array(kind, view, offset, n),
        Cut::Element { kind, index } => element_at(kind, view, index),
    }
}
