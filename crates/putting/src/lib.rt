// Bytes put into lent memory. What puts them asks for the room: its callers have looked.
#![tactic(auto)]

ghost use Rattle.std.specs.Prelude.{◌≡◌, ◌+◌, ◌≤◌, ◌<◌, [], ◌∷◌, length, take};

// Lent memory that is filled from its front: the bytes before `used` are written.
#[derive(Drop)]
pub struct Writer<'a> {
    pub bytes: &'a mut [u8],
    pub used: usize,
    ghost within: { used ≤ length bytes.now },
}

impl<'a> Writer<'a> {
    ghost use Rattle.putting.specs.Putting.{Puts};

    pub fn new(bytes: &'a mut [u8]) -> Writer<'a>
        ensures same_reference { result.bytes.ghost_name ≡ bytes.entry.ghost_name }
        ensures same_bytes { result.bytes.now ≡ bytes.old }
        ensures unused { result.used ≡ 0 }
    {
        Writer { bytes, used: 0 }
    }

    // How many bytes are left.
    pub fn room(&self) -> usize
        ensures { self.now.used + result ≡ length self.now.bytes.now }
    {
        self.bytes.len() - self.used
    }

    // The bytes that are written.
    pub fn written(&self) -> &[u8]
        ensures { result.now ≡ take self.now.used self.now.bytes.now }
    {
        &self.bytes[..self.used]
    }

    pub fn put_byte(&mut self, byte: u8)
        requires { self.old.used < length self.old.bytes.now }
        ensures { Puts self.old (byte ∷ []) self.new }
    {
        self.bytes[self.used] = byte;
        self.used += 1;
    }

    pub fn put_bytes(&mut self, bytes: &[u8])
        requires { self.old.used + length bytes.now ≤ length self.old.bytes.now }
        ensures { Puts self.old bytes.now self.new }
    {
        let next = self.used + bytes.len();
        self.bytes[self.used..next].copy_from_slice(bytes);
        self.used = next;
    }
}
