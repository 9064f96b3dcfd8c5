//! A writer that notices that a module was refused for its operators on vectors, so that a person can be told what allows them.

use std::io::{self, Write};

/// How the line of such a module ends.
const VECTORS_LINE: &[u8] = b": unexpected SIMD opcode: 0xfd\n";

/// The one message that has a name which a module chose. It is cut after so many bytes, so a line may end anywhere in the name.
const CHOSEN_NAME: &[u8] = b": duplicate export name `";

// Whether this is the line of such a module.
fn is_vectors_line(line: &[u8]) -> bool {
    line.ends_with(VECTORS_LINE) && !line.windows(CHOSEN_NAME.len()).any(|it| it == CHOSEN_NAME)
}

/// Passes on what is written, and keeps whether some of it ended as the line of such a module does.
#[derive(Debug, Drop)]
pub struct Watched<W> {
    /// Where it goes.
    inner: W,
    /// Whether such a line went by.
    is_refused: bool,
}

impl<W: Write> Watched<W> {
    /// One that passes on to this writer.
    pub fn new(inner: W) -> Watched<W> {
        Watched {
            inner,
            is_refused: false,
        }
    }

    /// Whether a module was refused because operators on vectors are not judged.
    pub fn is_refused(&self) -> bool {
        self.is_refused
    }
}

impl<W: Write> Write for Watched<W> {
    ghost contents = { λ w. W.contents w.inner };

    fn write(&mut self, bytes: &[u8]) -> io::Result<usize> {
        let count = self.inner.write(bytes)?;
        if is_vectors_line(bytes) {
            self.is_refused = true;
        }
        Ok(count)
    }

    fn flush(&mut self) -> io::Result<()> {
        self.inner.flush()
    }
}
