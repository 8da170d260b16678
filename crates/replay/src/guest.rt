//! The memory of a guest, under a bitmap of its pages.
use crate::answer::Answer;
use crate::fault::Halt;
use bitmap::AtomicBitmap;
use parcel::parcel_len;
use script::ByteCall;
use std::alloc::{AllocError, Global};
use volatile_memory::{Error, VolatileSlice};

/// A memory, and the bitmap of its pages.
#[derive(Drop)]
pub(crate) struct Guest<'a> {
    pub(crate) heap: Global,
    pub(crate) memory: Vec<u8>,
    pub(crate) map: AtomicBitmap<'a>,
}

impl<'a> Guest<'a> {
    /// A memory of zeros, and the bitmap of its pages.
    pub(crate) fn new(
        heap: Global,
        length: usize,
        map: AtomicBitmap<'a>,
    ) -> Result<Guest<'a>, AllocError> {
        let memory = vec![in heap; 0u8; length]?;
        Ok(Guest { heap, memory, map })
    }
}

impl Guest<'_> {
    /// Makes a call that moves bytes at an address of a view.
    pub(crate) fn call_bytes(
        &mut self,
        view: &VolatileSlice,
        addr: usize,
        call: &ByteCall,
    ) -> Result<Answer, Halt> {
        match call {
            ByteCall::Write(bytes) => self.write(view, addr, bytes.as_slice()),
            ByteCall::WriteSlice(bytes) => self.write_slice(view, addr, bytes.as_slice()),
            ByteCall::Read(length) => self.read(view, addr, *length),
            ByteCall::ReadSlice(length) => self.read_slice(view, addr, *length),
        }
    }

    fn write(&mut self, view: &VolatileSlice, addr: usize, bytes: &[u8]) -> Result<Answer, Halt> {
        let memory = self.memory.as_mut_slice();
        let count = view.write(memory, &mut self.map, bytes, addr)?;
        Ok(Answer::Size(count))
    }

    fn write_slice(
        &mut self,
        view: &VolatileSlice,
        addr: usize,
        bytes: &[u8],
    ) -> Result<Answer, Halt> {
        let memory = self.memory.as_mut_slice();
        view.write_slice(memory, &mut self.map, bytes, addr)?;
        Ok(Answer::Done)
    }

    fn read(&self, view: &VolatileSlice, addr: usize, length: usize) -> Result<Answer, Halt> {
        let mut buf = vec![in self.heap; 0u8; length]?;
        let count = view.read(self.memory.as_slice(), buf.as_mut_slice(), addr)?;
        buf.truncate(count);
        Ok(Answer::Bytes(buf))
    }

    fn read_slice(&self, view: &VolatileSlice, addr: usize, length: usize) -> Result<Answer, Halt> {
        let mut buf = vec![in self.heap; 0u8; length]?;
        view.read_slice(self.memory.as_slice(), buf.as_mut_slice(), addr)?;
        Ok(Answer::Bytes(buf))
    }

    /// Copies the bytes of a view to another.
    pub(crate) fn copy_bytes(
        &mut self,
        from: &VolatileSlice,
        to: &VolatileSlice,
    ) -> Result<(), Error> {
        from.copy_to_volatile_slice(self.memory.as_mut_slice(), to, &mut self.map)
    }

    /// How many bytes a parcel of the dirty pages has.
    pub(crate) fn parcel_len(&self) -> Result<usize, Error> {
        parcel_len(self.memory.as_slice(), &self.map)
    }
}
