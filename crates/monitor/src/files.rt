//! Files read and written whole.
use std::fs::File;
use std::io::Write;
use std::{fs, io};
use thiserror::Error;

/// A file that cannot be read or written.
#[derive(Debug, Drop, Error)]
#[error("{path}: {error}")]
struct Unusable<'a> {
    path: &'a str,
    error: io::Error,
}

/// The bytes of a file.
pub(crate) fn read_file(rt: &HostRuntime, path: &str) -> anyhow::Result<Vec<u8>> {
    Ok(fs::read(rt, path).map_err(|error| Unusable { path, error })?)
}

/// Writes a file whole or not at all: the bytes go to a file beside it, which takes its place once they are on the disk.
pub(crate) fn write_file(rt: &HostRuntime, path: &str, bytes: &[u8]) -> anyhow::Result<()> {
    let draft = format!(in rt.alloc(); "{path}.part")?;
    replace_file(rt, draft.as_str(), path, bytes).map_err(|error| Unusable { path, error })?;
    Ok(())
}

fn replace_file(rt: &HostRuntime, draft: &str, path: &str, bytes: &[u8]) -> io::Result<()> {
    let mut file = File::create(rt, draft)?;
    file.write_all(bytes)?;
    file.sync_all()?;
    fs::rename(rt, draft, path)
}
