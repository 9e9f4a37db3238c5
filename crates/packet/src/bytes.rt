//! Bytes written to a buffer, one part behind the other.
ghost use Rattle.std.specs.Prelude.{◌≡◌, ◌≤◌, [], length};

/// A buffer, and the place up to which it is written.
#[derive(Drop)]
pub(crate) struct Writer<'a> {
    out: &'a mut [u8],
    at: usize,
    ghost inside: { at ≤ length out.now },
}

impl<'a> Writer<'a> {
    ghost use Rattle.packet.specs.Writes.{written, rest, Adds};

    /// A writer that begins at the front of a buffer.
    pub(crate) fn new(out: &'a mut [u8]) -> Writer<'a>
        ensures buffer { result.out.ghost_name ≡ out.entry.ghost_name }
        ensures front { (written result ≡ []) × (rest result ≡ out.old) }
    {
        Writer { out, at: 0 }
    }

    /// Writes a part behind what is written.
    pub(crate) fn put(&mut self, part: &[u8])
        requires { length part.now ≤ length (rest self.old) }
        ensures { Adds self.old part.now self.new }
    {
        let end = self.at + part.len();
        self.out[self.at..end].copy_from_slice(part);
        self.at = end;
    }

    /// How many bytes are written.
    pub(crate) fn written(&self) -> usize
        ensures { result ≡ length (written self.now) }
    {
        self.at
    }
}
