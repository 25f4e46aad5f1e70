//! Bytes on the stack.

/// The most bytes of a header, of a tile, of a raster or of a list in these tests.
const ROOM: usize = 6200;

/// Bytes that own no memory and may be copied, so that a test with some is cheap to prove (arrayvec's vectors are
/// dropped, and not copied). If there are more than it has room for, it has none.
#[derive(Clone, Copy)]
pub struct Bytes {
    room: [u8; ROOM],
    length: usize,
}

impl Bytes {
    pub fn new() -> Bytes {
        Bytes {
            room: [0; ROOM],
            length: 0,
        }
    }

    pub fn of(bytes: &[u8]) -> Bytes {
        let mut copy = Bytes::new();
        copy.extend(bytes);
        copy
    }

    pub fn push(&mut self, byte: u8) {
        if let Some(place) = self.room.get_mut(self.length) {
            *place = byte;
        }
        self.length = self.length.saturating_add(1);
    }

    pub fn extend(&mut self, bytes: &[u8]) {
        for byte in bytes {
            self.push(*byte);
        }
    }

    /// The first n of these bytes.
    pub fn first(&self, length: usize) -> Bytes {
        Bytes {
            room: self.room,
            length: self.length.min(length),
        }
    }

    /// Removes the last byte.
    pub fn pop(&mut self) {
        self.length = self.length.saturating_sub(1);
    }

    pub fn as_slice(&self) -> &[u8] {
        self.room.get(..self.length).unwrap_or(&[])
    }
}
