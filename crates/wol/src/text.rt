// Texts for people: bytes as they can be printed, and the name that is nearest to a word.
use std::alloc::{AllocError, Global};
use strsim::jaro;

// How alike two names have to be, from 0 to 1.
const ALIKE: f64 = 0.7;

// The most bytes of a word that is compared.
const MOST_BYTES: usize = 64;

/// Appends the bytes: those that aren't printed ASCII as question marks.
pub fn append_printable(text: &mut String, bytes: &[u8]) -> Result<(), AllocError> {
    for byte in bytes {
        let is_printed = *byte >= 33 && *byte <= 126;
        text.push(if is_printed { char::from(*byte) } else { '?' })?;
    }
    Ok(())
}

/// The one of the names that is most like a word, if one is.
pub fn nearest<'a>(
    alloc: Global,
    word: &str,
    names: &[&'a str],
) -> Result<Option<&'a str>, AllocError> {
    if word.len() > MOST_BYTES {
        return Ok(None);
    }
    let mut found = None;
    let mut most = ALIKE;
    for name in names {
        let alike = jaro(alloc, word, name)?;
        if alike > most {
            most = alike;
            found = Some(*name);
        }
    }
    Ok(found)
}
