// Bytes put one after another into a lent slice.
ghost use Rattle.std.specs.Prelude.{◌≡◌, [], ◌∷◌};
ghost use Rattle.record.specs.Writing.{Room, Puts};

// A lent slice, and how many bytes are written at its front.
#[derive(Drop)]
pub struct Writer<'a> {
    bytes: &'a mut [u8],
    written: usize,
}

impl<'a> Writer<'a> {
    // None yet.
    pub fn new(bytes: &'a mut [u8]) -> Writer<'a>
        ensures same_bytes { result.bytes.ghost_name ≡ bytes.entry.ghost_name }
        ensures bytes { result.bytes.now ≡ bytes.old }
        ensures written { result.written ≡ 0 }
    {
        Writer { bytes, written: 0 }
    }

    // How many bytes are written.
    pub fn written(&self) -> usize
        ensures { result ≡ self.now.written }
    {
        self.written
    }

    // One byte more.
    pub fn put_byte(&mut self, b: u8)
        requires { Room self.old (b ∷ []) }
        ensures { Puts self.old (b ∷ []) self.new }
    {
        self.bytes[self.written] = b;
        self.written += 1;
    }

    // The bytes of a slice.
    pub fn put_bytes(&mut self, s: &[u8])
        requires { Room self.old s.now }
        ensures { Puts self.old s.now self.new }
    {
        let after = self.written + s.len();
        self.bytes[self.written..after].copy_from_slice(s);
        self.written = after;
    }
}
