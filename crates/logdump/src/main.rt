// Prints what is in a log: a line for each item, one for the end, and one for the totals.
#![tactic(auto)]

mod dump;
mod text;

use std::rt::Env;
use std::{env, io};

// The path that is given as the first argument, or `log`.
fn path(rt: &(impl Env + AllocGlobal)) -> io::Result<String> {
    match env::args(rt)?.nth(1) {
        Some(path) => Ok(path),
        None => Ok(String::from_str(rt.alloc(), "log")?),
    }
}

fn main(rt: HostRuntime) -> io::Result<()> {
    let path = path(&rt)?;
    match files::read(&rt, path.as_str()) {
        Ok(bytes) => rt.print(dump::dump(rt.alloc(), bytes.as_slice())?),
        Err(e) => {
            eprintln!(rt; "logdump: {path}: {e}")?;
            Err(io::Error::from(io::ErrorKind::InvalidInput))
        }
    }
}
