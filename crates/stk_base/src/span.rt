ghost use Rattle.std.specs.Prelude.{◌≡◌};
ghost use Rattle.stk_base.specs.Text.{text_of};

/// A stretch of the input: the bytes from `from` up to `to`, without the last one.
///
/// Offsets count bytes from the first byte of the input, so both are at most 16,777,216.
#[derive(Clone, Copy, Debug, PartialEq, Eq)]
pub struct Span {
    pub from: u32,
    pub to: u32,
}

impl Span {
    /// The bytes of the stretch; those of them that the input has, where it ends earlier.
    pub fn text(self, bytes: &[u8]) -> &[u8]
        ensures { result.now ≡ text_of bytes.now self }
    {
        let from = bytes.len().min(self.from as usize);
        let (_, rest) = bytes.split_at(from);
        let length = self.to.saturating_sub(self.from) as usize;
        let (text, _) = rest.split_at(rest.len().min(length));
        text
    }
}
