//! Words of the command line as texts, whatever their bytes.
use std::alloc::{AllocError, Global};

/// The text that stands for a word. A byte that is part of no text, or of a control character, is
/// NUL and two hexadecimal digits in it. No word has a NUL of its own, so each has its own text.
pub fn text_of(alloc: Global, word: &[u8]) -> Result<String, AllocError> {
    let mut text = String::new(alloc);
    for chunk in word.utf8_chunks() {
        for sign in chunk.valid().chars() {
            if sign.is_control() {
                let mut bytes = [0u8; 4];
                push_digits(&mut text, sign.encode_utf8(&mut bytes).as_bytes())?;
            } else {
                text.push(sign)?;
            }
        }
        push_digits(&mut text, chunk.invalid())?;
    }
    Ok(text)
}

fn push_digits(text: &mut String, bytes: &[u8]) -> Result<(), AllocError> {
    for byte in bytes {
        write!(text, "\0{byte:02x}")?;
    }
    Ok(())
}

/// The bytes of the word that a text stands for.
pub fn bytes_of(alloc: Global, text: &str) -> Result<Vec<u8>, AllocError> {
    let mut bytes = Vec::new(alloc);
    let mut parts = text.split('\0');
    if let Some(first) = parts.next() {
        bytes.extend_from_slice(first.as_bytes())?;
    }
    for part in parts {
        let Some((digits, rest)) = part.split_at_checked(2) else {
            continue;
        };
        if let Ok(byte) = u8::from_str_radix(digits, 16) {
            bytes.push(byte)?;
        }
        bytes.extend_from_slice(rest.as_bytes())?;
    }
    Ok(bytes)
}

/// The text as it is shown to a person: `\x` and two digits stand for a byte that can't be shown.
pub fn shown(alloc: Global, text: &str) -> Result<String, AllocError> {
    let mut shown = String::new(alloc);
    for sign in text.chars() {
        match sign {
            '\0' => shown.push_str("\\x")?,
            sign => shown.push(sign)?,
        }
    }
    Ok(shown)
}
