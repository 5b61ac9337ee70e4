// Texts that are too long, or too much alike, to be written out: they are put together from parts, and handed on by value.

// A text in room for `ROOM` bytes. What is behind it in the room is what it began with. Not a `String`: there is no heap.
#[derive(Clone, Copy)]
pub struct Text<const ROOM: usize> {
    bytes: [u8; ROOM],
    len: usize,
}

impl<const ROOM: usize> Text<ROOM> {
    // One byte, len times.
    pub fn all(b: u8, len: usize) -> Self {
        Text {
            bytes: [b; ROOM],
            len,
        }
    }

    pub fn of(part: &str) -> Self {
        Text::all(b' ', 0).and(part)
    }

    // Blanks more, up to len bytes: behind a text that began with `of` there is nothing else in the room.
    pub fn up_to(self, len: usize) -> Self {
        Text { len, ..self }
    }

    fn push(&mut self, b: u8) {
        if self.len < ROOM {
            self.bytes[self.len] = b;
            self.len += 1;
        }
    }

    // One byte more.
    pub fn with(mut self, b: u8) -> Self {
        self.push(b);
        self
    }

    // A part more, as far as there is room.
    pub fn and(mut self, part: &str) -> Self {
        for b in part.bytes() {
            self.push(b);
        }
        self
    }

    // A part more, n times.
    pub fn times(mut self, n: usize, part: &str) -> Self {
        for _ in 0..n {
            self = self.and(part);
        }
        self
    }

    // The bytes; all of the room where they would be more.
    pub fn bytes(&self) -> &[u8] {
        self.bytes.get(..self.len).unwrap_or(&self.bytes)
    }
}
