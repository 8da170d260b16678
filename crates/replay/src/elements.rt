//! Calls on elements of the kind that a script names.
use crate::answer::Answer;
use crate::fault::{Fault, Halt};
use crate::guest::Guest;
use crate::value::Element;
use byte_valued::{AtomicAccess, LineHead};
use mirror::refresh;
use parcel::Taken;
use script::{AtomicCall, ElementCall, IntegerKind, Kind, Value};
use std::alloc::{AllocError, Global};
use volatile_memory::{Error, VolatileArrayRef, VolatileSlice};

// Calls a function of the integer type that a kind names.
macro_rules! of_integer {
    ($kind:expr, $f:ident($($arg:expr),*)) => {
        match $kind {
            IntegerKind::U8 => $f::<u8>($($arg),*),
            IntegerKind::U16 => $f::<u16>($($arg),*),
            IntegerKind::U32 => $f::<u32>($($arg),*),
            IntegerKind::U64 => $f::<u64>($($arg),*),
            IntegerKind::Usize => $f::<usize>($($arg),*),
            IntegerKind::I8 => $f::<i8>($($arg),*),
            IntegerKind::I16 => $f::<i16>($($arg),*),
            IntegerKind::I32 => $f::<i32>($($arg),*),
            IntegerKind::I64 => $f::<i64>($($arg),*),
        }
    };
}

// Calls a function of the type that a kind names.
macro_rules! of_kind {
    ($kind:expr, $f:ident($($arg:expr),*)) => {
        match $kind {
            Kind::Integer(kind) => of_integer!(kind, $f($($arg),*)),
            Kind::LineHead => $f::<LineHead>($($arg),*),
        }
    };
}

/// The view of an element at an offset of a view.
pub(crate) fn reference(
    kind: Kind,
    view: &VolatileSlice,
    offset: usize,
) -> Result<VolatileSlice, Error> {
    of_kind!(kind, typed_reference(view, offset))
}

fn typed_reference<T: Element>(
    view: &VolatileSlice,
    offset: usize,
) -> Result<VolatileSlice, Error> {
    Ok(view.get_ref::<T>(offset)?.to_slice())
}

/// The view of elements at an offset of a view.
pub(crate) fn array(
    kind: Kind,
    view: &VolatileSlice,
    offset: usize,
    n: usize,
) -> Result<VolatileSlice, Error> {
    of_kind!(kind, typed_array(view, offset, n))
}

fn typed_array<T: Element>(
    view: &VolatileSlice,
    offset: usize,
    n: usize,
) -> Result<VolatileSlice, Error> {
    Ok(view.get_array_ref::<T>(offset, n)?.to_slice())
}

/// The view of an element of an array.
pub(crate) fn element_at(
    kind: Kind,
    view: &VolatileSlice,
    index: usize,
) -> Result<VolatileSlice, Error> {
    of_kind!(kind, typed_element(view, index))
}

fn typed_element<T: Element>(view: &VolatileSlice, index: usize) -> Result<VolatileSlice, Error> {
    Ok(array_of::<T>(view)?.ref_at(index)?.to_slice())
}

// The array that a view was cut for.
fn array_of<T: Element>(view: &VolatileSlice) -> Result<VolatileArrayRef<T>, Error> {
    view.get_array_ref::<T>(0, view.element_count::<T>())
}

impl Guest<'_> {
    /// Stores or loads an integer of a kind at an address of a view.
    pub(crate) fn call_atomic(
        &mut self,
        kind: IntegerKind,
        view: &VolatileSlice,
        addr: usize,
        call: AtomicCall,
    ) -> Result<Answer, Halt> {
        of_integer!(kind, typed_atomic(self, view, addr, call))
    }

    /// Calls on elements of a kind in a view, or in the reference or array that it was cut for.
    pub(crate) fn call_elements(
        &mut self,
        kind: Kind,
        view: &VolatileSlice,
        call: &ElementCall,
    ) -> Result<Answer, Halt> {
        of_kind!(kind, typed_call(self, view, call))
    }

    /// Copies the bytes of an array to a view of the same memory.
    pub(crate) fn copy_array(
        &mut self,
        kind: Kind,
        from: &VolatileSlice,
        to: &VolatileSlice,
    ) -> Result<(), Error> {
        of_kind!(kind, typed_copy(self, from, to))
    }

    /// Takes a parcel, applies it to a copy, and loads an element there: that of the reference which the view was cut for.
    pub(crate) fn refresh_element(
        &mut self,
        kind: Kind,
        view: &VolatileSlice,
        parcel: &mut [u8],
        copy: &mut [u8],
    ) -> Result<(Taken, Value), Error> {
        of_kind!(kind, typed_refresh(self, view, parcel, copy))
    }
}

// The element that a value stands for; a script's values fit.
fn element<T: Element>(value: Value) -> Result<T, Fault> {
    T::of_value(value).ok_or(Fault::NotFitting)
}

fn elements<T: Element>(heap: Global, values: &[Value]) -> Result<Vec<T>, Fault> {
    values
        .iter()
        .map(|value| element::<T>(*value))
        .collect(heap)?
}

// A buffer of `n` elements.
fn zeros<T: Element>(heap: Global, n: usize) -> Result<Vec<T>, AllocError> {
    vec![in heap; T::zeroed(); n]
}

// The answer that is an element.
fn one<T: Element>(element: T) -> Answer {
    Answer::One(element.to_value())
}

// The answer that is the first elements of a buffer.
fn many<T: Element>(heap: Global, buf: &[T], count: usize) -> Result<Answer, Halt> {
    let values = buf
        .iter()
        .take(count)
        .map(|element| element.to_value())
        .collect(heap)?;
    Ok(Answer::Many(values))
}

fn typed_atomic<T: Element + AtomicAccess>(
    guest: &mut Guest,
    view: &VolatileSlice,
    addr: usize,
    call: AtomicCall,
) -> Result<Answer, Halt> {
    let memory = guest.memory.as_mut_slice();
    match call {
        AtomicCall::Store(n) => {
            let element = element::<T>(Value::Number(n))?;
            view.store(memory, &mut guest.map, element, addr)?;
            Ok(Answer::Done)
        }
        AtomicCall::Load => { Ok(one(view.load::<T>(memory, addr)?)) }
    }
}

fn typed_call<T: Element>(
    guest: &mut Guest,
    view: &VolatileSlice,
    call: &ElementCall,
) -> Result<Answer, Halt> {
    match call {
        ElementCall::WriteObj { addr, value } => write_obj::<T>(guest, view, *addr, *value),
        ElementCall::ReadObj { addr } => read_obj::<T>(guest, view, *addr),
        ElementCall::CopyFrom(values) => copy_from::<T>(guest, view, values.as_slice()),
        ElementCall::CopyTo(n) => copy_to::<T>(guest, view, *n),
        ElementCall::Store(value) => store::<T>(guest, view, *value),
        ElementCall::Load => load::<T>(guest, view),
        ElementCall::StoreAt { index, value } => store_at::<T>(guest, view, *index, *value),
        ElementCall::LoadAt { index } => load_at::<T>(guest, view, *index),
        ElementCall::ArrayFrom(values) => array_from::<T>(guest, view, values.as_slice()),
        ElementCall::ArrayTo(n) => array_to::<T>(guest, view, *n),
    }
}

fn write_obj<T: Element>(
    guest: &mut Guest,
    view: &VolatileSlice,
    addr: usize,
    value: Value,
) -> Result<Answer, Halt> {
    let element = element::<T>(value)?;
    view.write_obj(guest.memory.as_mut_slice(), &mut guest.map, element, addr)?;
    Ok(Answer::Done)
}

fn read_obj<T: Element>(guest: &Guest, view: &VolatileSlice, addr: usize) -> Result<Answer, Halt> {
    Ok(one(view.read_obj::<T>(guest.memory.as_slice(), addr)?))
}

fn copy_from<T: Element>(
    guest: &mut Guest,
    view: &VolatileSlice,
    values: &[Value],
) -> Result<Answer, Halt> {
    let buf = elements::<T>(guest.heap, values)?;
    view.copy_from(guest.memory.as_mut_slice(), &mut guest.map, buf.as_slice())?;
    Ok(Answer::Done)
}

fn copy_to<T: Element>(guest: &Guest, view: &VolatileSlice, n: usize) -> Result<Answer, Halt> {
    let mut buf = zeros::<T>(guest.heap, n)?;
    let count = view.copy_to(guest.memory.as_slice(), buf.as_mut_slice())?;
    many(guest.heap, buf.as_slice(), count)
}

fn store<T: Element>(
    guest: &mut Guest,
    view: &VolatileSlice,
    value: Value,
) -> Result<Answer, Halt> {
    let element = element::<T>(value)?;
    let reference = view.get_ref::<T>(0)?;
    reference.store(guest.memory.as_mut_slice(), &mut guest.map, element)?;
    Ok(Answer::Done)
}

fn load<T: Element>(guest: &Guest, view: &VolatileSlice) -> Result<Answer, Halt> {
    let reference = view.get_ref::<T>(0)?;
    Ok(one(reference.load(guest.memory.as_slice())?))
}

fn store_at<T: Element>(
    guest: &mut Guest,
    view: &VolatileSlice,
    index: usize,
    value: Value,
) -> Result<Answer, Halt> {
    let element = element::<T>(value)?;
    let array = array_of::<T>(view)?;
    array.store(guest.memory.as_mut_slice(), &mut guest.map, index, element)?;
    Ok(Answer::Done)
}

fn load_at<T: Element>(guest: &Guest, view: &VolatileSlice, index: usize) -> Result<Answer, Halt> {
    let array = array_of::<T>(view)?;
    Ok(one(array.load(guest.memory.as_slice(), index)?))
}

fn array_from<T: Element>(
    guest: &mut Guest,
    view: &VolatileSlice,
    values: &[Value],
) -> Result<Answer, Halt> {
    let buf = elements::<T>(guest.heap, values)?;
    let array = array_of::<T>(view)?;
    array.copy_from(guest.memory.as_mut_slice(), &mut guest.map, buf.as_slice())?;
    Ok(Answer::Done)
}

fn array_to<T: Element>(guest: &Guest, view: &VolatileSlice, n: usize) -> Result<Answer, Halt> {
    let mut buf = zeros::<T>(guest.heap, n)?;
    let count = array_of::<T>(view)?.copy_to(guest.memory.as_slice(), buf.as_mut_slice())?;
    many(guest.heap, buf.as_slice(), count)
}

fn typed_copy<T: Element>(
    guest: &mut Guest,
    from: &VolatileSlice,
    to: &VolatileSlice,
) -> Result<(), Error> {
    let array = array_of::<T>(from)?;
    array.copy_to_volatile_slice(guest.memory.as_mut_slice(), to, &mut guest.map)
}

fn typed_refresh<T: Element>(
    guest: &mut Guest,
    view: &VolatileSlice,
    parcel: &mut [u8],
    copy: &mut [u8],
) -> Result<(Taken, Value), Error> {
    let reference = view.get_ref::<T>(0)?;
    let memory = guest.memory.as_slice();
    let refreshed = refresh::<_, T>(memory, &mut guest.map, parcel, copy, &reference)?;
    Ok((refreshed.taken, refreshed.element.to_value()))
}
