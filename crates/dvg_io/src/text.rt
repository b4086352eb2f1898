//! A text that is made in memory.
use std::alloc::Allocator;
use std::fmt;

/// A text that grows as it is written to. A write fails where memory is refused.
#[derive(Drop)]
pub struct Text<A: Allocator> {
    bytes: Vec<u8, A>,
}

impl<A: Allocator> Text<A> {
    /// Returns an empty text, whose memory comes from `alloc`.
    pub fn new(alloc: A) -> Text<A> {
        Text {
            bytes: Vec::new(alloc),
        }
    }

    /// Adds `bytes`. Fails where memory is refused.
    pub fn add(&mut self, bytes: &[u8]) -> fmt::Result {
        match self.bytes.extend_from_slice(bytes) {
            Ok(()) => Ok(()),
            Err(_) => Err(fmt::Error),
        }
    }

    /// Returns the bytes of the text.
    pub fn into_bytes(self) -> Vec<u8, A> {
        self.bytes
    }
}

impl<A: Allocator> fmt::Write for Text<A> {
    fn write_str(&mut self, part: &str) -> fmt::Result {
        self.add(part.as_bytes())
    }
}
