//! Commands, as lines write them.
use crate::command::{AtomicCall, ByteCall, ClaimCall, Command, ElementCall};
use crate::fault::{Complaint, Fault, faulty};
use crate::fields::{bytes_of, fitting_of, length_of, named, number_of, value_of, values_of};
use crate::kind::{IntegerKind, Kind};
use crate::names::{Names, Shape};
use crate::word::Word;

impl Names {
    /// The command that a line's fields write.
    pub(crate) fn command(&mut self, fields: &[&str]) -> Result<Command, Fault> {
        let Some((first, rest)) = fields.split_first() else {
            return Err(Fault::Form(Word::Let));
        };
        let word = named::<Word>(self.heap, first)?;
        match word {
            Word::Memory => Err(Fault::SecondMemory),
            Word::Let => self.let_command(rest),
            Word::Write => self.write_command(word, rest, ByteCall::Write),
            Word::WriteSlice => self.write_command(word, rest, ByteCall::WriteSlice),
            Word::Read => self.read_command(word, rest, ByteCall::Read),
            Word::ReadSlice => self.read_command(word, rest, ByteCall::ReadSlice),
            Word::WriteObj => self.write_obj_command(rest),
            Word::ReadObj => self.read_obj_command(rest),
            Word::Store => self.store_command(rest),
            Word::Load => self.load_command(rest),
            Word::CopyFrom => self.copy_from_command(rest),
            Word::CopyTo => self.copy_to_command(rest),
            Word::CopyToVolatileSlice => self.copy_command(rest),
            Word::Claim => self.claim_command(rest),
            Word::Put => self.put_command(rest),
            Word::Settle => self.settle_command(rest),
            Word::Take => self.take_command(rest),
            _ => Err(Fault::Form(word)),
        }
    }

    fn write_command<F: FnOnce(Vec<u8>) -> ByteCall>(
        &self,
        word: Word,
        fields: &[&str],
        call: F,
    ) -> Result<Command, Fault>
        requires { F.IsAlwaysCallable call }
    {
        let [view, addr, bytes] = fields else {
            return Err(Fault::Form(word));
        };
        let view = self.view(view)?;
        let addr = number_of(self.heap, addr)?;
        let call = call(bytes_of(self.heap, bytes)?);
        Ok(Command::Bytes { view, addr, call })
    }

    fn read_command<F: FnOnce(usize) -> ByteCall>(
        &self,
        word: Word,
        fields: &[&str],
        call: F,
    ) -> Result<Command, Fault>
        requires { F.IsAlwaysCallable call }
    {
        let [view, addr, length] = fields else {
            return Err(Fault::Form(word));
        };
        let view = self.view(view)?;
        let addr = number_of(self.heap, addr)?;
        let call = call(length_of(self.heap, length)?);
        Ok(Command::Bytes { view, addr, call })
    }

    fn write_obj_command(&self, fields: &[&str]) -> Result<Command, Fault> {
        let [kind, view, addr, rest @ ..] = fields else {
            return Err(Fault::Form(Word::WriteObj));
        };
        let kind = named::<Kind>(self.heap, kind)?;
        let name = self.view(view)?;
        let addr = number_of(self.heap, addr)?;
        let value = value_of(self.heap, Word::WriteObj, kind, rest)?;
        let call = ElementCall::WriteObj { addr, value };
        Ok(Command::Elements { kind, name, call })
    }

    fn read_obj_command(&self, fields: &[&str]) -> Result<Command, Fault> {
        let [kind, view, addr] = fields else {
            return Err(Fault::Form(Word::ReadObj));
        };
        let kind = named::<Kind>(self.heap, kind)?;
        let name = self.view(view)?;
        let addr = number_of(self.heap, addr)?;
        let call = ElementCall::ReadObj { addr };
        Ok(Command::Elements { kind, name, call })
    }

    // The kind of an integer that a field names, if it names a kind.
    fn atomic_kind(&self, field: &str) -> Result<Option<IntegerKind>, Fault> {
        match field.parse::<Kind>() {
            Ok(Kind::Integer(kind)) => Ok(Some(kind)),
            Ok(Kind::LineHead) => Err(faulty(self.heap, Complaint::NotInteger, field)),
            Err(_) => Ok(None),
        }
    }

    fn store_command(&self, fields: &[&str]) -> Result<Command, Fault> {
        let [first, rest @ ..] = fields else {
            return Err(Fault::Form(Word::Store));
        };
        let Some(kind) = self.atomic_kind(first)? else {
            return self.store_named(first, rest);
        };
        let [view, addr, rest @ ..] = rest else {
            return Err(Fault::Form(Word::Store));
        };
        let view = self.view(view)?;
        let addr = number_of(self.heap, addr)?;
        let call = AtomicCall::Store(fitting_of(self.heap, Word::Store, kind, rest)?);
        Ok(Command::Atomic {
            kind,
            view,
            addr,
            call,
        })
    }

    // A store by a reference, or into an array.
    fn store_named(&self, name: &str, fields: &[&str]) -> Result<Command, Fault> {
        let (kind, call) = match self.shape(name)? {
            Shape::Reference(kind) => {
                let value = value_of(self.heap, Word::Store, kind, fields)?;
                (kind, ElementCall::Store(value))
            }
            Shape::Array(kind) => {
                let [index, rest @ ..] = fields else {
                    return Err(Fault::Form(Word::Store));
                };
                let index = number_of(self.heap, index)?;
                let value = value_of(self.heap, Word::Store, kind, rest)?;
                (kind, ElementCall::StoreAt { index, value })
            }
            _ => return Err(faulty(self.heap, Complaint::NoElements, name)),
        };
        self.named_command(kind, name, call)
    }

    // A call on what a name stands for: a reference or an array of a kind.
    fn named_command(&self, kind: Kind, name: &str, call: ElementCall) -> Result<Command, Fault> {
        let name = String::from_str(self.heap, name)?;
        Ok(Command::Elements { kind, name, call })
    }

    fn load_command(&self, fields: &[&str]) -> Result<Command, Fault> {
        let [first, rest @ ..] = fields else {
            return Err(Fault::Form(Word::Load));
        };
        let Some(kind) = self.atomic_kind(first)? else {
            return self.load_named(first, rest);
        };
        let [view, addr] = rest else {
            return Err(Fault::Form(Word::Load));
        };
        Ok(Command::Atomic {
            kind,
            view: self.view(view)?,
            addr: number_of(self.heap, addr)?,
            call: AtomicCall::Load,
        })
    }

    // A load by a reference, or from an array.
    fn load_named(&self, name: &str, fields: &[&str]) -> Result<Command, Fault> {
        let (kind, call) = match self.shape(name)? {
            Shape::Reference(kind) => {
                let [] = fields else {
                    return Err(Fault::Form(Word::Load));
                };
                (kind, ElementCall::Load)
            }
            Shape::Array(kind) => {
                let [index] = fields else {
                    return Err(Fault::Form(Word::Load));
                };
                let index = number_of(self.heap, index)?;
                (kind, ElementCall::LoadAt { index })
            }
            _ => return Err(faulty(self.heap, Complaint::NoElements, name)),
        };
        self.named_command(kind, name, call)
    }

    fn copy_from_command(&self, fields: &[&str]) -> Result<Command, Fault> {
        let [first, rest @ ..] = fields else {
            return Err(Fault::Form(Word::CopyFrom));
        };
        let Ok(kind) = first.parse::<Kind>() else {
            let kind = self.array_kind(first)?;
            let values = values_of(self.heap, Word::CopyFrom, kind, rest)?;
            return self.named_command(kind, first, ElementCall::ArrayFrom(values));
        };
        let [view, rest @ ..] = rest else {
            return Err(Fault::Form(Word::CopyFrom));
        };
        let name = self.view(view)?;
        let values = values_of(self.heap, Word::CopyFrom, kind, rest)?;
        let call = ElementCall::CopyFrom(values);
        Ok(Command::Elements { kind, name, call })
    }

    fn copy_to_command(&self, fields: &[&str]) -> Result<Command, Fault> {
        match fields {
            [name, n] => {
                let kind = self.array_kind(name)?;
                let call = ElementCall::ArrayTo(length_of(self.heap, n)?);
                self.named_command(kind, name, call)
            }
            [kind, view, n] => {
                let kind = named::<Kind>(self.heap, kind)?;
                let name = self.view(view)?;
                let call = ElementCall::CopyTo(length_of(self.heap, n)?);
                Ok(Command::Elements { kind, name, call })
            }
            _ => Err(Fault::Form(Word::CopyTo)),
        }
    }

    fn copy_command(&self, fields: &[&str]) -> Result<Command, Fault> {
        let [from, to] = fields else {
            return Err(Fault::Form(Word::CopyToVolatileSlice));
        };
        let kind = match self.shape(from)? {
            Shape::View => None,
            Shape::Array(kind) => Some(kind),
            _ => return Err(faulty(self.heap, Complaint::NotView, from)),
        };
        Ok(Command::Copy {
            from: String::from_str(self.heap, from)?,
            kind,
            to: self.view(to)?,
        })
    }

    fn claim_command(&mut self, fields: &[&str]) -> Result<Command, Fault> {
        let [name, view] = fields else {
            return Err(Fault::Form(Word::Claim));
        };
        let call = ClaimCall::Open {
            view: self.view(view)?,
        };
        let name = self.give(name, Shape::Claim)?;
        Ok(Command::Claim { name, call })
    }

    fn put_command(&self, fields: &[&str]) -> Result<Command, Fault> {
        let [name, addr, bytes] = fields else {
            return Err(Fault::Form(Word::Put));
        };
        let name = self.claim(name)?;
        let addr = number_of(self.heap, addr)?;
        let bytes = bytes_of(self.heap, bytes)?;
        let call = ClaimCall::Put { addr, bytes };
        Ok(Command::Claim { name, call })
    }

    // The name of a claim that is settled is free again.
    fn settle_command(&mut self, fields: &[&str]) -> Result<Command, Fault> {
        let [name] = fields else {
            return Err(Fault::Form(Word::Settle));
        };
        let name = self.claim(name)?;
        self.free(name.as_str());
        let call = ClaimCall::Settle;
        Ok(Command::Claim { name, call })
    }

    fn take_command(&self, fields: &[&str]) -> Result<Command, Fault> {
        let [name] = fields else {
            return Err(Fault::Form(Word::Take));
        };
        let Shape::Reference(kind) = self.shape(name)? else {
            return Err(faulty(self.heap, Complaint::NotReference, name));
        };
        let name = String::from_str(self.heap, name)?;
        Ok(Command::Take { kind, name })
    }
}
