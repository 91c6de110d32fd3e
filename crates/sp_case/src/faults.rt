//! What is told of a case.
use std::alloc::{AllocError, Global};

/// What came of a case in place of what it says; nothing where it came out.
#[derive(Drop)]
pub struct Faults {
    alloc: Global,
    pub told: String,
}

impl Faults {
    pub fn new(alloc: Global) -> Faults {
        Faults {
            alloc,
            told: String::new(alloc),
        }
    }

    /// Tells of bytes that were found in place of others.
    pub fn tell(&mut self, what: &str, found: &[u8], expected: &[u8]) -> Result<(), AllocError> {
        let found = shown(self.alloc, found)?;
        let expected = shown(self.alloc, expected)?;
        for piece in [
            what,
            ":\n",
            found.as_str(),
            "\nin place of:\n",
            expected.as_str(),
            "\n",
        ] {
            self.told.push_str(piece)?;
        }
        Ok(())
    }

    /// The same where they differ.
    pub fn compare(&mut self, what: &str, found: &[u8], expected: &[u8]) -> Result<(), AllocError> {
        if found != expected {
            self.tell(what, found, expected)?;
        }
        Ok(())
    }
}

/// Bytes as a text, or `no UTF-8` where they are none. The error is want of memory alone.
pub fn shown(alloc: Global, bytes: &[u8]) -> Result<String, AllocError> {
    match String::from_utf8(bytes.to_vec(alloc)?) {
        Ok(text) => Ok(text),
        Err(_) => String::from_str(alloc, "no UTF-8"),
    }
}
