//! Tells which pages of a memory are dirty and what calls on it answer, and keeps a copy of it by parcels.
#![tactic(auto)]

mod account;
mod arguments;
mod files;
mod memory;
mod parcels;
mod trace;

use account::Account;
use arguments::{Command, command_of};
use files::read_file;
use replay::replay;
use std::alloc::Global;
use std::env;
use std::fmt::Display;
use std::io::Read;
use std::process::ExitCode;
use text::decode;
use trace::parse;

fn read_input(rt: &HostRuntime) -> anyhow::Result<Vec<u8>> {
    let mut bytes = Vec::new(rt.alloc());
    rt.stdin().read_to_end(&mut bytes)?;
    Ok(bytes)
}

// The account of a trace.
fn marks(heap: Global, bytes: &[u8]) -> anyhow::Result<Account> {
    let trace = parse(heap, decode(bytes)?)?;
    Ok(Account::new(heap, &trace)?)
}

// Prints an account, once all of it is made.
fn print<T: Display>(rt: &HostRuntime, account: &T) -> anyhow::Result<()> {
    let text = format!(in rt.alloc(); "{account}")?;
    rt.print(text.as_str())?;
    Ok(())
}

// What goes wrong is only told, so its text is kept and not its type.
fn run(rt: &HostRuntime) -> anyhow::Result<()> {
    match command_of(env::args(rt)?)? {
        Command::Marks(None) => print(rt, &marks(rt.alloc(), read_input(rt)?.as_slice())?),
        Command::Marks(Some(path)) => {
            let bytes = read_file(rt, path.as_str())?;
            print(rt, &marks(rt.alloc(), bytes.as_slice())?)
        }
        Command::Replay(path) => {
            let bytes = read_file(rt, path.as_str())?;
            print(rt, &replay(rt.alloc(), bytes.as_slice())?)
        }
        Command::Take {
            memory,
            log,
            parcel,
        } => parcels::take_files(rt, memory.as_str(), log.as_str(), parcel.as_str()),
        Command::Apply { copy, parcel } => {
            parcels::apply_files(rt, copy.as_str(), parcel.as_str())
        }
        Command::Show(parcel) => parcels::show_file(rt, parcel.as_str()),
    }
}

fn main(rt: HostRuntime) -> ExitCode {
    match run(&rt) {
        Ok(()) => ExitCode::SUCCESS,
        Err(error) => {
            let _ = eprintln!(rt; "monitor: {error}");
            ExitCode::FAILURE
        }
    }
}
