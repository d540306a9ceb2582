//! Bytes that stand in the value itself.

ghost use Rattle.std.specs.Prelude.{◌≡◌, ◌≤◌, length, take};

/// How many bytes stand in the value itself at most.
pub(crate) const ROOM: usize = 23;

/// Up to 23 bytes: as many of the array as the length says.
#[derive(Clone, Copy, Drop)]
pub(crate) struct ShortBytes {
    bytes: [u8; ROOM],
    len: u8,
    pub(crate) ghost within: { len ≤ 23 },
}

impl ShortBytes {
    /// The bytes, which have room.
    pub(crate) fn of(bytes: &[u8]) -> ShortBytes
        requires { length bytes.now ≤ 23 }
        ensures { take result.len result.bytes ≡ bytes.now }
    {
        let mut own = [0; ROOM];
        own[..bytes.len()].copy_from_slice(bytes);
        ShortBytes {
            bytes: own,
            len: bytes.len() as u8,
        }
    }

    pub(crate) fn as_slice(&self) -> &[u8]
        ensures { result.now ≡ take self.now.len self.now.bytes }
    {
        &self.bytes[..usize::from(self.len)]
    }
}
