//! What the program is asked for.
use std::env;
use thiserror::Error;

/// A command, with the paths of its files.
#[derive(Drop)]
pub(crate) enum Command {
    /// The account of a trace, from a file or from standard input.
    Marks(Option<String>),
    /// The account of a script.
    Replay(String),
    /// A parcel taken from a memory image and its dirty log.
    Take {
        memory: String,
        log: String,
        parcel: String,
    },
    /// A parcel applied to a copy.
    Apply {
        copy: String,
        parcel: String,
    },
    /// What a parcel carries.
    Show(String),
}

const USAGE: &str =
    "usage: monitor marks [FILE] | replay SCRIPT | take MEMORY LOG PARCEL | apply COPY PARCEL | show PARCEL";

/// Arguments that the program does not take.
#[derive(Debug, Drop, Error)]
pub(crate) enum UsageError {
    #[error("no command; {USAGE}")]
    NoCommand,
    #[error("unknown command {0:?}; {USAGE}")]
    UnknownCommand(String),
    #[error("too many arguments; {USAGE}")]
    TooManyArguments,
    #[error("too few or too many arguments for {0}; {USAGE}")]
    WrongArguments(String),
    #[error("{0}: the parcel would take its place")]
    SameFile(String),
}

/// What the arguments ask for.
pub(crate) fn command_of(mut args: env::Args) -> Result<Command, UsageError> {
    let _program = args.next();
    let command = args.next().ok_or(UsageError::NoCommand)?;
    let first = args.next();
    let second = args.next();
    let third = args.next();
    let more = args.next().is_some();
    // Not a slice of the arguments: their texts move into the command, and nothing moves out of a slice.
    match (command.as_str(), first, second, third, more) {
        ("marks", file, None, None, false) => Ok(Command::Marks(file)),
        ("replay", Some(script), None, None, false) => Ok(Command::Replay(script)),
        ("take", Some(memory), Some(log), Some(parcel), false) => taking(memory, log, parcel),
        ("apply", Some(copy), Some(parcel), None, false) => Ok(Command::Apply { copy, parcel }),
        ("show", Some(parcel), None, None, false) => Ok(Command::Show(parcel)),
        ("marks", _, _, _, _) => Err(UsageError::TooManyArguments),
        ("replay" | "take" | "apply" | "show", _, _, _, _) => {
            Err(UsageError::WrongArguments(command))
        }
        _ => Err(UsageError::UnknownCommand(command)),
    }
}

// A parcel takes the place of no file that it is taken from.
fn taking(memory: String, log: String, parcel: String) -> Result<Command, UsageError> {
    if parcel.as_str() == memory.as_str() || parcel.as_str() == log.as_str() {
        return Err(UsageError::SameFile(parcel));
    }
    Ok(Command::Take {
        memory,
        log,
        parcel,
    })
}
