// Bytes that a case writes in hexadecimal.
use hex::FromHexError;
use std::alloc::{AllocError, Global};

// The bytes; none where the text is no pairs of small digits.
pub fn bytes(heap: Global, digits: &str) -> anyhow::Result<Option<Vec<u8>>> {
    // `decode` would take capital digits too.
    if digits
        .as_bytes()
        .iter()
        .any(|digit| digit.is_ascii_uppercase())
    {
        return Ok(None);
    }
    match hex::decode(heap, digits) {
        Ok(bytes) => Ok(Some(bytes)),
        Err(FromHexError::OutOfMemory) => Err(AllocError.into()),
        Err(_) => Ok(None),
    }
}
