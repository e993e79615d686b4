//! Answers every description of the table `cases.txt`, and prints each answer under its name.

#![tactic(auto)]

mod hex;

use hex::decode;
use listing::{Listing, Unlisted, respond};
use std::alloc::{AllocError, Global};
use std::fs;

/// What the answer prints.
fn text_of(heap: Global, answer: &Result<Listing, Unlisted>) -> Result<String, AllocError> {
    match answer {
        Ok(listing) => listing.text(heap),
        Err(Unlisted::Refused(fault)) => fault.line(heap),
        Err(Unlisted::Wanting(what)) => format!(in heap; "not yet: {what}\n"),
    }
}

/// The name and the bytes of a line; a comment and an empty line have none.
fn case_of(line: &str) -> Option<(&str, &str)> {
    if line.is_empty() || line.starts_with('#') {
        return None;
    }
    Some(line.split_once(' ').unwrap_or((line, "")))
}

/// Prints the answer to one case.
fn run_case(rt: &HostRuntime, name: &str, words: &str) -> anyhow::Result<()> {
    let bytes = decode(rt.alloc(), words)?;
    let answer = respond(rt.alloc(), bytes.as_slice());
    let text = text_of(rt.alloc(), &answer)?;
    print!(rt; "== {name}\n{text}")?;
    Ok(())
}

/// Prints the answers to all cases.
fn run(rt: &HostRuntime) -> anyhow::Result<()> {
    let table = fs::read_to_string(rt, "cases.txt")?;
    for line in table.lines() {
        if let Some((name, words)) = case_of(line) {
            run_case(rt, name, words)?;
        }
    }
    Ok(())
}

fn main(rt: HostRuntime) -> anyhow::Result<()> {
    run(&rt)
}
