//! Cuts of views and arrays, as lines write them.
use crate::command::{Command, Cut};
use crate::fault::Fault;
use crate::fields::{named, number_of};
use crate::kind::Kind;
use crate::names::{Names, Shape};
use crate::word::Word;

impl Names {
    /// The cut that a line's fields after `let` write.
    pub(crate) fn let_command(&mut self, fields: &[&str]) -> Result<Command, Fault> {
        match fields {
            [first, second, equals, from, word, mid] if *equals == "=" && Word::SplitAt.is(word) =>
                { self.split_command(first, second, from, mid) }
            [name, equals, from, word, rest @ ..] if *equals == "=" => {
                let (cut, shape) = self.cut_of(named::<Word>(self.heap, word)?, from, rest)?;
                Ok(Command::Let {
                    name: self.give(name, shape)?,
                    from: String::from_str(self.heap, from)?,
                    cut,
                })
            }
            _ => Err(Fault::Form(Word::Let)),
        }
    }

    fn split_command(
        &mut self,
        first: &str,
        second: &str,
        from: &str,
        mid: &str,
    ) -> Result<Command, Fault> {
        let from = self.view(from)?;
        let mid = number_of(self.heap, mid)?;
        Ok(Command::Split {
            names: (
                self.give(first, Shape::View)?,
                self.give(second, Shape::View)?,
            ),
            from,
            mid,
        })
    }

    // The cut that a word and its fields write, and what it gives.
    fn cut_of(&self, word: Word, from: &str, fields: &[&str]) -> Result<(Cut, Shape), Fault> {
        match word {
            Word::Subslice => self.subslice_of(from, fields),
            Word::Offset => self.offset_of(from, fields),
            Word::GetRef => self.get_ref_of(from, fields),
            Word::GetArrayRef => self.get_array_ref_of(from, fields),
            Word::RefAt => self.ref_at_of(from, fields),
            _ => Err(Fault::Form(word)),
        }
    }

    fn subslice_of(&self, from: &str, fields: &[&str]) -> Result<(Cut, Shape), Fault> {
        let [offset, count] = fields else {
            return Err(Fault::Form(Word::Subslice));
        };
        self.view(from)?;
        let offset = number_of(self.heap, offset)?;
        let count = number_of(self.heap, count)?;
        Ok((Cut::Subslice { offset, count }, Shape::View))
    }

    fn offset_of(&self, from: &str, fields: &[&str]) -> Result<(Cut, Shape), Fault> {
        let [count] = fields else {
            return Err(Fault::Form(Word::Offset));
        };
        self.view(from)?;
        let count = number_of(self.heap, count)?;
        Ok((Cut::Offset { count }, Shape::View))
    }

    fn get_ref_of(&self, from: &str, fields: &[&str]) -> Result<(Cut, Shape), Fault> {
        let [kind, offset] = fields else {
            return Err(Fault::Form(Word::GetRef));
        };
        self.view(from)?;
        let kind = named::<Kind>(self.heap, kind)?;
        let offset = number_of(self.heap, offset)?;
        Ok((Cut::Reference { kind, offset }, Shape::Reference(kind)))
    }

    fn get_array_ref_of(&self, from: &str, fields: &[&str]) -> Result<(Cut, Shape), Fault> {
        let [kind, offset, n] = fields else {
            return Err(Fault::Form(Word::GetArrayRef));
        };
        self.view(from)?;
        let kind = named::<Kind>(self.heap, kind)?;
        let offset = number_of(self.heap, offset)?;
        let n = number_of(self.heap, n)?;
        Ok((Cut::Array { kind, offset, n }, Shape::Array(kind)))
    }

    fn ref_at_of(&self, from: &str, fields: &[&str]) -> Result<(Cut, Shape), Fault> {
        let [index] = fields else {
            return Err(Fault::Form(Word::RefAt));
        };
        let kind = self.array_kind(from)?;
        let index = number_of(self.heap, index)?;
        Ok((Cut::Element { kind, index }, Shape::Reference(kind)))
    }
}
