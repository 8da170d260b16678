//! The account of a script: each of its lines, what the call answered, and the pages after it.
ghost use Rattle.std.specs.Prelude.{◌≡◌, IfOk, string_bytes};
ghost use Rattle.bitmap.specs.Tracked.{tracked};
ghost use Rattle.text.specs.PageMaps.{Shows};
ghost use Rattle.script.specs.Scripts.{listed};
ghost use Rattle.replay.specs.Played.{told, Played};

use crate::answer::Answer;
use crate::comparison::Difference;
use crate::fault::{Fault, Halt, PlayError, ReplayError};
use crate::guest::Guest;
use crate::player::Player;
use bitmap::AtomicBitmap;
use script::{Setup, Step, parse};
use std::alloc::Global;
use std::fmt;
use text::{LineError, PageMap};
use volatile_memory::{Error, VolatileSlice};

/// A line of a script, its answer or its refusal, and the pages after it.
#[derive(Drop)]
struct Entry {
    number: usize,
    text: String,
    answer: Result<Answer, Error>,
    pages: PageMap,
}

/// What the calls of a script answered.
#[derive(Drop)]
pub struct Account {
    setup: Setup,
    entries: Vec<Entry>,
    difference: Option<Difference>,
}

// What a step answers, where it is played. A `match`, since a refusal is told as an answer, and all else ends the play.
fn answer_of(player: &mut Player, step: &Step) -> Result<Result<Answer, Error>, PlayError> {
    match player.play(&step.command) {
        Ok(answer) => Ok(Ok(answer)),
        Err(Halt::Refused(error)) => Ok(Err(error)),
        Err(Halt::Fault(fault)) => Err(LineError::Line(step.number, fault)),
        Err(Halt::OutOfMemory(error)) => Err(LineError::Line(step.number, error.into())),
    }
}

// Plays a step, and tells what it answered.
fn entry_of(player: &mut Player, step: &Step) -> Result<Entry, PlayError>
    ensures line { IfOk result (λ e. (e.number ≡ step.now.number) × (string_bytes e.text ≡ string_bytes step.now.text)) }
    ensures pages { IfOk result (λ e. Shows (tracked player.new.guest.map) e.pages.pages.items) }
{
    let answer = answer_of(player, step)?;
    Ok(Entry {
        number: step.number,
        text: step.text.clone()?,
        answer,
        pages: PageMap::new(player.guest.heap, &player.guest.map)?,
    })
}

fn entries_of(heap: Global, player: &mut Player, steps: &[Step]) -> Result<Vec<Entry>, PlayError>
    ensures { IfOk result (λ v. told v.items ≡ listed steps.now) }
{
    let mut entries = Vec::new(heap);
    // A loop, since what is collected into a `Result` is not known to be of these steps.
    for step in steps {
        entries.push(entry_of(player, step)?)?;
    }
    Ok(entries)
}

// Plays steps over a memory of zeros, and compares the copy to it in the end.
fn play_all(
    heap: Global,
    setup: Setup,
    root: VolatileSlice,
    steps: &[Step],
) -> Result<(Vec<Entry>, Option<Difference>), PlayError>
    ensures { IfOk result (λ p. told p.0.items ≡ listed steps.now) }
{
    let mut words = vec![in heap; 0u64; setup.pages.div_ceil(64)]?;
    let map = AtomicBitmap::new(setup.byte_size, setup.page_size, words.as_mut_slice());
    let guest = Guest::new(heap, root.len(), map)?;
    let mut player = Player::new(guest, root)?;
    let entries = entries_of(heap, &mut player, steps);
    let (memory, copy) = player.end();
    // A script that is not played to its end has no account, and nothing is compared.
    let entries = entries?;
    let difference = Difference::between(memory.as_slice(), copy.as_slice());
    Ok((entries, difference))
}

/// Plays the script that bytes write.
pub fn replay(heap: Global, bytes: &[u8]) -> Result<Account, ReplayError>
    ensures { IfOk result (λ a. Played bytes.now a) }
{
    let program = parse(heap, bytes)?;
    let setup = program.setup;
    let root = VolatileSlice::new(setup.address, setup.byte_size).map_err(|_| LineError::Line(
        setup.line,
        Fault::PastTop,
    ))?;
    let (entries, difference) = play_all(heap, setup, root, program.steps.as_slice())?;
    Ok(Account {
        setup,
        entries,
        difference,
    })
}

impl fmt::Display for Account {
    fn fmt<W: fmt::Write>(&self, f: &mut fmt::Formatter<W>) -> fmt::Result {
        let byte_size = self.setup.byte_size;
        let address = self.setup.address;
        let page_size = self.setup.page_size.get();
        writeln!(
            f,
            "memory: {byte_size} bytes at {address}, pages of {page_size} bytes"
        )?;
        for entry in &self.entries {
            write!(f, "\n{entry}")?;
        }
        match self.difference {
            None => f.write_str("\ncopy: equals the memory\n"),
            Some(difference) => write!(f, "\ncopy: {difference}\n"),
        }
    }
}

impl fmt::Display for Entry {
    fn fmt<W: fmt::Write>(&self, f: &mut fmt::Formatter<W>) -> fmt::Result {
        let number = self.number;
        let text = &self.text;
        let pages = &self.pages;
        write!(f, "line {number}: {text}\n")?;
        match &self.answer {
            Ok(answer) => write!(f, "{answer}\n{pages}"),
            Err(error) => write!(f, "refused: {error:?}\n{pages}"),
        }
    }
}
