// The names of files.
use std::io::{Error, ErrorKind, Result};
use std::str;

// A name as the library takes it, as text.
pub fn text_of(name: &[u8]) -> Result<&str> {
    str::from_utf8(name).map_err(|_| Error::new(
        ErrorKind::InvalidInput,
        "the name is no text in UTF-8",
    ))
}
