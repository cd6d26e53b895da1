use std::alloc::{AllocError, Global};

// How many bytes of a line are shown.
const SHOWN: usize = 80;

// Bytes as text, of which a long one is cut.
pub(crate) fn as_text(heap: Global, bytes: &[u8]) -> Result<String, AllocError> {
    let mut text = String::new(heap);
    for b in bytes.get(..SHOWN).unwrap_or(bytes) {
        text.push(*b as char)?;
    }
    if bytes.len() > SHOWN {
        text.push_str("..")?;
    }
    Ok(text)
}
