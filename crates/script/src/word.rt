//! The words of the script language, and the form of a line with each.
use crate::fault::Complaint;
use std::str::FromStr;

/// A word that says what a line asks for.
#[derive(Clone, Copy, PartialEq, Debug)]
pub enum Word {
    Memory,
    Let,
    Subslice,
    Offset,
    SplitAt,
    GetRef,
    GetArrayRef,
    RefAt,
    Write,
    WriteSlice,
    Read,
    ReadSlice,
    WriteObj,
    ReadObj,
    Store,
    Load,
    CopyFrom,
    CopyTo,
    CopyToVolatileSlice,
    Claim,
    Put,
    Settle,
    Take,
}

// The word that a field is.
impl FromStr for Word {
    type Err = Complaint;

    fn from_str(field: &str) -> Result<Word, Complaint> {
        Ok(match field {
            "memory" => Word::Memory,
            "let" => Word::Let,
            "subslice" => Word::Subslice,
            "offset" => Word::Offset,
            "split_at" => Word::SplitAt,
            "get_ref" => Word::GetRef,
            "get_array_ref" => Word::GetArrayRef,
            "ref_at" => Word::RefAt,
            "write" => Word::Write,
            "write_slice" => Word::WriteSlice,
            "read" => Word::Read,
            "read_slice" => Word::ReadSlice,
            "write_obj" => Word::WriteObj,
            "read_obj" => Word::ReadObj,
            "store" => Word::Store,
            "load" => Word::Load,
            "copy_from" => Word::CopyFrom,
            "copy_to" => Word::CopyTo,
            "copy_to_volatile_slice" => Word::CopyToVolatileSlice,
            "claim" => Word::Claim,
            "put" => Word::Put,
            "settle" => Word::Settle,
            "take" => Word::Take,
            _ => return Err(Complaint::UnknownCommand),
        })
    }
}

impl Word {
    /// Whether a field is the word.
    pub(crate) fn is(self, field: &str) -> bool {
        field.parse::<Word>().is_ok_and(|word| word == self)
    }

    // The form of a line with the word.
    pub(crate) fn form(self) -> &'static str {
        match self {
            Word::Memory => "memory SIZE PAGE_SIZE [at ADDRESS]",
            Word::Let => "let NAME = NAME CUT ..",
            Word::Subslice => "let NAME = VIEW subslice OFFSET COUNT",
            Word::Offset => "let NAME = VIEW offset COUNT",
            Word::SplitAt => "let NAME NAME = VIEW split_at MID",
            Word::GetRef => "let NAME = VIEW get_ref KIND OFFSET",
            Word::GetArrayRef => "let NAME = VIEW get_array_ref KIND OFFSET N",
            Word::RefAt => "let NAME = ARRAY ref_at INDEX",
            Word::Write => "write VIEW ADDR BYTES",
            Word::WriteSlice => "write_slice VIEW ADDR BYTES",
            Word::Read => "read VIEW ADDR LENGTH",
            Word::ReadSlice => "read_slice VIEW ADDR LENGTH",
            Word::WriteObj => "write_obj KIND VIEW ADDR VALUE",
            Word::ReadObj => "read_obj KIND VIEW ADDR",
            Word::Store => "store KIND VIEW ADDR VALUE | store REF VALUE | store ARRAY INDEX VALUE",
            Word::Load => "load KIND VIEW ADDR | load REF | load ARRAY INDEX",
            Word::CopyFrom => "copy_from KIND VIEW VALUE .. | copy_from ARRAY VALUE ..",
            Word::CopyTo => "copy_to KIND VIEW N | copy_to ARRAY N",
            Word::CopyToVolatileSlice => "copy_to_volatile_slice VIEW_OR_ARRAY VIEW",
            Word::Claim => "claim NAME VIEW",
            Word::Put => "put CLAIM ADDR BYTES",
            Word::Settle => "settle CLAIM",
            Word::Take => "take REF",
        }
    }
}
