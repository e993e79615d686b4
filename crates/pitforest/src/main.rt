//! Reads a mesh description, from the file that its argument names or else from standard input, and prints its listing.

#![tactic(auto)]

use anyhow::bail;
use listing::{Unlisted, respond};
use std::alloc::Global;
use std::io::Read;
use std::process::ExitCode;
use std::{env, fs};

/// One byte more than a description may have, so that one that is too long is seen to be.
const LIMIT: u64 = 8193;

/// The description's bytes, those past the limit left unread.
fn input(rt: &HostRuntime) -> anyhow::Result<Vec<u8>> {
    let mut bytes = Vec::new(rt.alloc());
    match env::args(rt)?.nth(1) {
        Some(path) => {
            let file = fs::open(rt, path.as_str())?;
            file.take(LIMIT).read_to_end(&mut bytes)?;
        }
        None => {
            rt.stdin().take(LIMIT).read_to_end(&mut bytes)?;
        }
    }
    Ok(bytes)
}

fn run(rt: &HostRuntime) -> anyhow::Result<()> {
    let bytes = input(rt)?;
    let text = match respond(rt.alloc(), bytes.as_slice()) {
        Ok(listing) => listing.text(rt.alloc())?,
        Err(Unlisted::Refused(fault)) => fault.line(rt.alloc())?,
        Err(Unlisted::Wanting(what)) => bail!("{what}"),
    };
    rt.print(text)?;
    Ok(())
}

/// What goes wrong is told once, on standard error; a failure to tell it changes nothing more.
fn main(rt: HostRuntime) -> ExitCode {
    match run(&rt) {
        Ok(()) => ExitCode::SUCCESS,
        Err(error) => {
            let _ = eprintln!(rt; "pitforest: {error}");
            ExitCode::FAILURE
        }
    }
}
