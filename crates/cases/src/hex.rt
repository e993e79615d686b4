//! Bytes in hex: words of digits, each perhaps followed by `*` and how often it is repeated.
ghost use Rattle.std.specs.Prelude.{◌<◌, IfSome};

use anyhow::Context;
use std::alloc::Global;

/// The value of a hex digit.
// Upper case is refused, which the library's `to_digit` and `hex` take.
fn digit(character: u8) -> Option<u8>
    ensures { IfSome result (λ d. d < 16) }
{
    match character {
        b'0'..=b'9' => Some(character - b'0'),
        b'a'..=b'f' => Some(character - b'a' + 10),
        _ => None,
    }
}

/// The byte that two hex digits write.
fn byte_of(pair: &[u8]) -> Option<u8> {
    let [high, low] = pair else {
        return None;
    };
    Some(digit(*high)? * 16 + digit(*low)?)
}

/// Adds the bytes that the digits write.
fn add_bytes(bytes: &mut Vec<u8>, digits: &str) -> anyhow::Result<()> {
    for pair in digits.as_bytes().chunks(2) {
        let byte = byte_of(pair).context("a word is not in hex")?;
        bytes.push(byte)?;
    }
    Ok(())
}

/// Adds the bytes of a word.
fn add_word(bytes: &mut Vec<u8>, word: &str) -> anyhow::Result<()> {
    let (digits, times) = match word.split_once('*') {
        Some((digits, times)) => (digits, times.parse::<u16>()?),
        None => (word, 1),
    };
    for _ in 0..times {
        add_bytes(bytes, digits)?;
    }
    Ok(())
}

/// The bytes that the words write.
pub(crate) fn decode(heap: Global, words: &str) -> anyhow::Result<Vec<u8>> {
    let mut bytes = Vec::new(heap);
    for word in words.split_whitespace() {
        add_word(&mut bytes, word)?;
    }
    Ok(bytes)
}
