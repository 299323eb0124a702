//! Checks that many tests make: of bytes, and of printed texts.
use std::alloc::AllocError;
use std::fmt::Display;
use std::process::Abort;

/// The runtime of a test: it may end the process, and allocate.
pub(crate) trait Host: Abort + AllocGlobal {}

impl<R: Abort + AllocGlobal> Host for R {}

/// These bytes are wanted.
pub(crate) fn are(rt: &impl Host, bytes: &[u8], want: &[u8]) {
    assert_eq!(rt; bytes, want);
}

/// It prints this text.
pub(crate) fn prints<T: Display>(rt: &impl Host, thing: &T, text: &str) -> Result<(), AllocError> {
    assert_eq!(rt; thing.to_string(rt.alloc())?.as_str(), text);
    Ok(())
}
