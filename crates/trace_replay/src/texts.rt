//! Texts of traces and transcripts, by words: `z` stands for four bytes 00h, `zeros` for a block of bytes 00h, `block`
//! for a block of bytes A5h, `11s` and `22s` for a block of these bytes, `T=1,2,3,4,5` for a line with these counts,
//! and `/` for the end of a line.
use std::test::Fail;

/// The bytes of a block.
const BLOCK: usize = 4096;

/// What is counted, in order.
const COUNTED: [&str; 5] = [" steps=", " lookups=", " entries=", " moved=", " erased="];

/// Adds the text of words. A blank stands after a mark alone.
pub fn push_words(out: &mut Vec<u8>, words: &str) -> Result<(), Fail> {
    for word in words.split(' ') {
        match word {
            "z" => out.extend_from_slice(b"00000000")?,
            "zeros" => push_block(out, b"00")?,
            "block" => push_block(out, b"a5")?,
            "11s" => push_block(out, b"11")?,
            "22s" => push_block(out, b"22")?,
            "/" => out.push(b'\n')?,
            "U" | "S" | "C" | "M" | ">" | "<" | "!" => {
                out.extend_from_slice(word.as_bytes())?;
                out.push(b' ')?;
            }
            _ => match word.strip_prefix("T=") {
                Some(counts) => push_counts(out, counts)?,
                None => out.extend_from_slice(word.as_bytes())?,
            },
        }
    }
    Ok(())
}

/// Adds a line with these counts, without its end.
fn push_counts(out: &mut Vec<u8>, counts: &str) -> Result<(), Fail> {
    out.push(b'T')?;
    for (name, count) in COUNTED.iter().zip(counts.split(',')) {
        out.extend_from_slice(name.as_bytes())?;
        out.extend_from_slice(count.as_bytes())?;
    }
    Ok(())
}

/// Adds a block of one byte, as hex.
fn push_block(out: &mut Vec<u8>, digits: &[u8]) -> Result<(), Fail> {
    for _byte in 0..BLOCK {
        out.extend_from_slice(digits)?;
    }
    Ok(())
}
