// Words with spaces between them, which are appended to a text.
ghost use Rattle.report.specs.Words.{line_of, text_of, word_of};
ghost use Rattle.std.specs.Io.{StartsWith};
ghost use Rattle.std.specs.Prelude.{◌≡◌, ◌++◌, ◌∷◌, [], map, OnOk, OnErr};

use itoa::Buffer;
use wol_disk::NoMemory;

/// A word of a text. Numbers are printed in decimal digits, without leading zeros.
#[derive(Clone, Copy)]
pub enum Word<'a> {
    /// Bytes as they are.
    Text(&'a [u8]),
    Number(u64),
    /// A number of more than 64 bits.
    Large(u128),
}

/// Appends words with a space between each two. `NoMemory` appends nothing.
pub fn append_words(words: &[Word<'_>], out: &mut Vec<u8>) -> Result<(), NoMemory>
    ensures ok { OnOk result (out.new.items ≡ out.old.items ++ text_of (map word_of words.now)) }
    ensures err { OnErr result (out.new.items ≡ out.old.items) }
{
    let start = out.len();
    match put_words(words, out) {
        Ok(()) => Ok(()),
        Err(NoMemory) => {
            out.truncate(start);
            Err(NoMemory)
        }
    }
}

/// Appends words with a space between each two, and a line feed. `NoMemory` appends nothing.
pub fn append_line(words: &[Word<'_>], out: &mut Vec<u8>) -> Result<(), NoMemory>
    ensures ok { OnOk result (out.new.items ≡ out.old.items ++ line_of (map word_of words.now)) }
    ensures err { OnErr result (out.new.items ≡ out.old.items) }
{
    let start = out.len();
    match put_ended(words, b'\n', out) {
        Ok(()) => Ok(()),
        Err(NoMemory) => {
            out.truncate(start);
            Err(NoMemory)
        }
    }
}

// Appends words with a space between each two, and a byte behind them. A front of that may be left behind.
pub(crate) fn put_ended(words: &[Word<'_>], end: u8, out: &mut Vec<u8>) -> Result<(), NoMemory>
    ensures ok { OnOk result
        (out.new.items ≡ out.old.items ++ (text_of (map word_of words.now) ++ end ∷ [])) }
    ensures starts { StartsWith out.new.items out.old.items }
{
    put_words(words, out)?;
    out.push(end)?;
    Ok(())
}

// The same without the byte.
fn put_words(words: &[Word<'_>], out: &mut Vec<u8>) -> Result<(), NoMemory>
    ensures ok { OnOk result (out.new.items ≡ out.old.items ++ text_of (map word_of words.now)) }
    ensures starts { StartsWith out.new.items out.old.items }
{
    for (place, word) in words.iter().enumerate() {
        if place > 0 {
            out.push(b' ')?;
        }
        put_word(word, out)?;
    }
    Ok(())
}

fn put_word(word: &Word<'_>, out: &mut Vec<u8>) -> Result<(), NoMemory>
    ensures ok { OnOk result (out.new.items ≡ out.old.items ++ word_of word.now) }
    ensures err { OnErr result (out.new.items ≡ out.old.items) }
{
    match word {
        Word::Text(text) => out.extend_from_slice(text)?,
        Word::Number(number) => out.extend_from_slice(Buffer::new().format(*number).as_bytes())?,
        Word::Large(number) => out.extend_from_slice(Buffer::new().format(*number).as_bytes())?,
    }
    Ok(())
}
