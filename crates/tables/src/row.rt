//! A row of answers: its text, or the check sum of a long one.
use crate::answer::Answer;
use std::alloc::Global;
use std::fmt;
use std::fmt::Write;

/// The deepest level whose rows are all printed themselves.
const FULL: u8 = 1;
/// The longest text of a deeper row that is printed itself, in bytes.
const LONGEST: usize = 300;

const FNV_START: u64 = 0xcbf2_9ce4_8422_2325;

const FNV_PRIME: u64 = 0x0000_0100_0000_01b3;

/// The check sum, the 64-bit FNV-1a: for each byte, the sum xor the byte, times the prime, modulo 2^64.
fn check_sum(bytes: &[u8]) -> u64 {
    bytes.iter().fold(FNV_START, |sum, byte| {
        (sum ^ u64::from(*byte)).wrapping_mul(FNV_PRIME)
    })
}

/// The answers of a level in the order of their questions, each after a blank.
#[derive(Drop)]
pub(crate) struct Row {
    level: u8,
    text: String,
}

impl Row {
    pub(crate) fn new(heap: Global, level: u8) -> Row {
        Row {
            level,
            text: String::new(heap),
        }
    }

    /// Adds an answer at the end, `-` where there is none.
    pub(crate) fn add<A: Into<Answer> + Drop>(&mut self, answer: Option<A>) -> anyhow::Result<()> {
        match answer {
            Some(answer) => {
                let answer: Answer = answer.into();
                write!(self.text, " {answer}")?;
            }
            None => self.text.push_str(" -")?,
        }
        Ok(())
    }
}

impl fmt::Display for Row {
    fn fmt<W: fmt::Write>(&self, f: &mut fmt::Formatter<W>) -> fmt::Result {
        let text = self.text.as_str();
        let length = text.len();
        if self.level <= FULL || length <= LONGEST {
            return write!(f, "{text}");
        }
        let sum = check_sum(text.as_bytes());
        write!(f, " {length} bytes {sum:016x}")
    }
}

/// Prints a row after its heading: what `ask` adds for each of the items of a level.
pub(crate) fn print_row<F: Fn(&mut Row, u64) -> anyhow::Result<()> + Drop>(
    rt: &HostRuntime,
    heading: impl fmt::Display + Drop,
    level: u8,
    items: &[u64],
    ask: F,
) -> anyhow::Result<()>
    requires { F.IsAlwaysCallable ask }
{
    let mut row = Row::new(rt.alloc(), level);
    for item in items {
        ask(&mut row, *item)?;
    }
    println!(rt; "{heading}:{row}")?;
    Ok(())
}
