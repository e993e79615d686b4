ghost use Rattle.std.specs.Prelude.{◌≡◌, ◌<◌, ◌≤◌, [], ◌∷◌, length, MatchOption};

/// The input, and how far it is read.
// A cursor beside the bytes, and not the rest of them: a refusal names the place where a part begins.
#[derive(Drop)]
pub(crate) struct Reader<'a> {
    pub(crate) bytes: &'a [u8],
    pub(crate) at: usize,
    ghost within: { at ≤ length bytes.now },
}

impl<'a> Reader<'a> {
    ghost use Rattle.description.specs.Passing.{left, Passed};

    pub(crate) fn new(bytes: &'a [u8]) -> Reader<'a>
        ensures start { result.at ≡ 0 }
        ensures bytes { result.bytes.now ≡ bytes.now }
    {
        Reader { bytes, at: 0 }
    }

    /// The next N bytes, or nothing where fewer are left.
    pub(crate) fn take<const N: usize>(&mut self) -> Option<&'a [u8; N]>
        ensures { MatchOption result (length (left self.old) < N) (λ part. Passed self.old self.new part.now) }
    {
        let part = self.bytes[self.at..].first_chunk()?;
        self.at += N;
        Some(part)
    }

    /// The next byte, or nothing at the end of the input.
    pub(crate) fn byte(&mut self) -> Option<u8>
        ensures { MatchOption result (left self.old ≡ []) (λ byte. Passed self.old self.new (byte ∷ [])) }
    {
        let [byte] = *self.take::<1>()?;
        Some(byte)
    }
}
