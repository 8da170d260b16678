//! A whole script: the memory that it sets up, and its commands in order.
ghost use Rattle.std.specs.Prelude.{◌≡◌, ◌<◌, IfOk, string_bytes};
ghost use Rattle.bitmap.specs.Pages.{ceiling};
ghost use Rattle.text.specs.Said.{numbered};
ghost use Rattle.script.specs.Scripts.{listed, Small, Scripts};

use crate::command::{ClaimCall, Command, Program, Setup, Step};
use crate::fault::{Fault, MOST_BYTES, ScriptError};
use crate::fields::number_of;
use crate::names::Names;
use crate::word::Word;
use bitmap::PageSize;
use std::alloc::Global;
use text::{Line, LineError, MOST_PAGES, decode, lines};

fn new_setup(
    line: usize,
    byte_size: usize,
    page_size: usize,
    address: usize,
) -> Result<Setup, Fault>
    ensures { IfOk result Small }
{
    let page_size = PageSize::new(page_size).ok_or(Fault::NoPageSize)?;
    if byte_size > MOST_BYTES {
        return Err(Fault::TooManyBytes(byte_size));
    }
    let pages = page_size.pages(byte_size);
    if pages > MOST_PAGES {
        return Err(Fault::TooManyPages(pages));
    }
    Ok(Setup {
        line,
        byte_size,
        address,
        page_size,
        pages,
    })
}

fn setup_of(heap: Global, line: &Line) -> Result<Setup, Fault>
    ensures { IfOk result Small }
{
    let fields: Vec<&str> = line.text.split_whitespace().collect(heap)?;
    let (size, page_size, address) = match fields.as_slice() {
        [word, size, page] if Word::Memory.is(word) => (size, page, "0"),
        [word, size, page, at, address] if Word::Memory.is(word) && *at == "at" => {
            (size, page, *address)
        }
        _ => return Err(Fault::Form(Word::Memory)),
    };
    new_setup(
        line.number,
        number_of(heap, size)?,
        number_of(heap, page_size)?,
        number_of(heap, address)?,
    )
}

// The command of a line.
fn command_in(names: &mut Names, text: &str) -> Result<Command, Fault> {
    let fields: Vec<&str> = text.split_whitespace().collect(names.heap)?;
    names.command(fields.as_slice())
}

fn step_of(names: &mut Names, line: &Line) -> Result<Step, ScriptError>
    ensures { IfOk result (λ s. (s.number ≡ line.now.number) × (string_bytes s.text ≡ line.now.text.now)) }
{
    let command = command_in(names, line.text).map_err(|fault| LineError::Line(
        line.number,
        fault,
    ))?;
    Ok(Step {
        number: line.number,
        text: String::from_str(names.heap, line.text)?,
        command,
    })
}

// The name that a step gives to a claim.
fn claimed(step: &Step) -> Option<&str> {
    match &step.command {
        Command::Claim {
            name,
            call: ClaimCall::Open { .. },
        } => Some(name.as_str()),
        _ => None,
    }
}

// After all steps no claim is open.
fn check_settled(names: &Names, steps: &[Step]) -> Result<(), ScriptError> {
    for step in steps.iter().rev() {
        let Some(name) = claimed(step) else {
            continue;
        };
        if names.is_claim(name) {
            let name = String::from_str(names.heap, name)?;
            return Err(LineError::Line(step.number, Fault::Unsettled(name)));
        }
    }
    Ok(())
}

// The commands of lines.
fn steps_of(heap: Global, lines: &[Line]) -> Result<Vec<Step>, ScriptError>
    ensures { IfOk result (λ v. listed v.items ≡ numbered lines.now) }
{
    let mut names = Names::new(heap)?;
    let mut steps = Vec::new(heap);
    // A loop, since what is collected into a `Result` is not known to be what the lines say.
    for line in lines {
        steps.push(step_of(&mut names, line)?)?;
    }
    check_settled(&names, steps.as_slice())?;
    Ok(steps)
}

/// The script that bytes write.
pub fn parse(heap: Global, bytes: &[u8]) -> Result<Program, ScriptError>
    ensures { IfOk result (λ p. Scripts bytes.now p) }
{
    let text = decode(bytes)?;
    program_of(heap, text)
}

// The script that a text writes.
fn program_of(heap: Global, text: &str) -> Result<Program, ScriptError>
    ensures { IfOk result (λ p. Scripts text.now p) }
{
    let lines = lines(heap, text)?;
    let (first, rest) = lines
        .as_slice()
        .split_first()
        .ok_or_else(|| LineError::at_end(text, Fault::NoMemory))?;
    let setup = setup_of(heap, first).map_err(|fault| LineError::Line(first.number, fault))?;
    let steps = steps_of(heap, rest)?;
    Ok(Program { setup, steps })
}
