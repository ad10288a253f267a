//! Texts as rows spell them: `\n`, `\r`, `\t` and `\\`, `\xHH` for any byte, and `\(12:part\)` for twelve times the
//! part, in which `#` is the number of the copy, from 1 on.

use std::alloc::{AllocError, Global};

/// The byte that stands for a letter behind a backslash.
fn escaped(letter: u8) -> u8 {
    match letter {
        b'n' => b'\n',
        b'r' => b'\r',
        b't' => b'\t',
        other => other,
    }
}

fn digit(letter: u8) -> u8 {
    match letter {
        b'0'..=b'9' => letter - b'0',
        b'a'..=b'f' => letter - b'a' + 10,
        _ => 0,
    }
}

/// Adds a text without copies to the bytes, each escape as its byte.
fn add_plain(bytes: &mut Vec<u8>, text: &str) -> Result<(), AllocError> {
    let mut rest = text.as_bytes();
    loop {
        match rest {
            [] => return Ok(()),
            [b'\\', b'x', high, low, behind @ ..] => {
                bytes.push(digit(*high) << 4 | digit(*low))?;
                rest = behind;
            }
            [b'\\', letter, behind @ ..] => {
                bytes.push(escaped(*letter))?;
                rest = behind;
            }
            [byte, behind @ ..] => {
                bytes.push(*byte)?;
                rest = behind;
            }
        }
    }
}

/// Adds a copy of a part, with its number.
fn add_copy(bytes: &mut Vec<u8>, number: &str, part: &str) -> Result<(), AllocError> {
    for (at, piece) in part.split('#').enumerate() {
        if at > 0 {
            bytes.extend_from_slice(number.as_bytes())?;
        }
        add_plain(bytes, piece)?;
    }
    Ok(())
}

/// Adds so many copies of a part.
fn add_copies(
    alloc: Global,
    bytes: &mut Vec<u8>,
    count: u32,
    part: &str,
) -> Result<(), AllocError> {
    let is_numbered = part.contains('#');
    for number in 0..count {
        if is_numbered {
            let number = format!(in alloc; "{}", number + 1)?;
            add_copy(bytes, number.as_str(), part)?;
        } else {
            add_plain(bytes, part)?;
        }
    }
    Ok(())
}

/// Adds what follows `\(`: the number of copies, the part, and what stands behind it.
fn add_repeated(alloc: Global, bytes: &mut Vec<u8>, text: &str) -> Result<(), AllocError> {
    let (copies, rest) = text.split_once("\\)").unwrap_or((text, ""));
    let (count, part) = copies.split_once(':').unwrap_or(("0", ""));
    add_copies(alloc, bytes, count.parse().unwrap_or(0), part)?;
    add_plain(bytes, rest)
}

/// The bytes that a row spells.
pub(crate) fn bytes_of(alloc: Global, text: &str) -> Result<Vec<u8>, AllocError> {
    let mut bytes = Vec::new(alloc);
    for (at, piece) in text.split("\\(").enumerate() {
        if at == 0 {
            add_plain(&mut bytes, piece)?;
        } else {
            add_repeated(alloc, &mut bytes, piece)?;
        }
    }
    Ok(bytes)
}
