//! The whole input.
ghost use Rattle.std.specs.Prelude.{◌<◌, ◌↔◌, length, IfOk, IsTrue};
ghost use Rattle.description.specs.Outcome.{Answered, Bounded};
ghost use Rattle.description.specs.Theorems.{OneReading, SomeReading, TwoLinesEncoded};

use crate::description::Description;
use crate::head::Head;
use crate::reader::Reader;
use crate::refusal::Refusal;
use std::alloc::Global;

/// The most bytes that a description has.
const LONGEST: usize = 8192;

/// Is the input longer than a description may be?
fn is_too_long(bytes: &[u8]) -> bool
    ensures { IsTrue result ↔ (8192 < length bytes.now) }
{
    bytes.len() > LONGEST
}

/// The description that the input encodes, or the first fault in it: the head, then the rows that it counts, then the steps.
fn read_parts(heap: Global, bytes: &[u8]) -> Result<Description, Refusal>
    ensures { Answered bytes.now result }
{
    if is_too_long(bytes) {
        return Err(Refusal::TooLong);
    }
    let mut reader = Reader::new(bytes);
    let head: Head = reader.part(0)?;
    let joints = reader.rows(heap, head.rows)?;
    let steps = reader.steps(heap, head.shape)?;
    Ok(Description {
        shape: head.shape,
        roots: head.roots,
        level: head.level,
        limit: head.limit,
        joints,
        steps,
    })
}

/// Reads the whole input: the description that it encodes, or the first fault in it.
pub fn read(heap: Global, bytes: &[u8]) -> Result<Description, Refusal>
    ensures answered { Answered bytes.now result }
    ensures bounded { IfOk result Bounded }
    ensures one { OneReading }
    ensures some { SomeReading }
    ensures example { TwoLinesEncoded }
{
    read_parts(heap, bytes)
}
