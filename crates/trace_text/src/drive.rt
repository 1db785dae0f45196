ghost use Rattle.std.specs.Prelude.{◌≡◌, ◌∷◌};
ghost use Rattle.trace_text.specs.Drives.{drive_line, four_words, one_word, said_by, three_words, two_words, unit_of};
ghost use Rattle.trace_text.specs.Drives.{words_of};
ghost use Rattle.trace_text.specs.Words.{words_behind};

use crate::line::{is_blank, parse_number};
use memchr::memchr;

/// The blocks of a read or a write at most.
const MOST_BLOCKS: u32 = 255;

/// A line of a drive: what a host asks for. Numbers have one to six decimal digits.
#[derive(Clone, Copy, Debug, PartialEq, Eq)]
pub enum DriveLine {
    /// To read `n` blocks from an LBA on, 255 at most.
    Read { lba: u32, n: u32 },
    /// To write `n` blocks from an LBA on, 255 at most, with bytes that the seed makes.
    Write { lba: u32, n: u32, seed: u32 },
    /// So many steps of the device.
    Steps(u32),
    /// So many calls of the collector.
    Collect(u32),
    /// Steps until each request has its answer.
    Drain,
    /// A reset of both ends.
    Reset,
    /// The logical unit of the requests that follow.
    Lun(u8),
    /// An empty line or a comment.
    Blank,
}

/// What a line of a drive says, without its end, or nothing where it is outside the grammar.
pub fn parse_drive(line: &[u8]) -> Option<DriveLine>
    ensures { result ≡ drive_line line.now }
{
    if is_blank(line) {
        return Some(DriveLine::Blank);
    }
    parse_words(line)
}

/// What the words of a line say.
fn parse_words(line: &[u8]) -> Option<DriveLine>
    ensures { result ≡ said_by (words_of line.now) }
{
    let (word, rest) = cut_word(line);
    let Some(rest) = rest else {
        return parse_one(word);
    };
    let (first, rest) = cut_word(rest);
    let Some(rest) = rest else {
        return parse_two(word, first);
    };
    let (second, rest) = cut_word(rest);
    let Some(rest) = rest else {
        return parse_three(word, first, second);
    };
    let (third, rest) = cut_word(rest);
    match rest {
        None => parse_four(word, first, second, third),
        Some(_) => None,
    }
}

/// The first word of a text, and what stands behind the space after it.
fn cut_word(text: &[u8]) -> (&[u8], Option<&[u8]>)
    ensures { words_of text.now ≡ result.0.now ∷ words_behind result.1 }
{
    match memchr(b' ', text) {
        Some(at) => (&text[..at], Some(&text[at + 1..])),
        None => (text, None),
    }
}

/// What one word says.
fn parse_one(word: &[u8]) -> Option<DriveLine>
    ensures { result ≡ one_word word.now }
{
    if word == b"drain".as_slice() {
        return Some(DriveLine::Drain);
    }
    if word == b"reset".as_slice() {
        return Some(DriveLine::Reset);
    }
    None
}

/// What two words say.
fn parse_two(word: &[u8], first: &[u8]) -> Option<DriveLine>
    ensures { result ≡ two_words word.now first.now }
{
    if word == b"steps".as_slice() {
        return parse_number(first).map(DriveLine::Steps);
    }
    if word == b"collect".as_slice() {
        return parse_number(first).map(DriveLine::Collect);
    }
    if word == b"lun".as_slice() {
        return parse_unit(first).map(DriveLine::Lun);
    }
    None
}

/// What three words say: a read.
fn parse_three(word: &[u8], first: &[u8], second: &[u8]) -> Option<DriveLine>
    ensures { result ≡ three_words word.now first.now second.now }
{
    if word != b"read".as_slice() {
        return None;
    }
    let lba = parse_number(first)?;
    let n = parse_number(second)?;
    if MOST_BLOCKS < n {
        return None;
    }
    Some(DriveLine::Read { lba, n })
}

/// What four words say: a write.
fn parse_four(word: &[u8], first: &[u8], second: &[u8], third: &[u8]) -> Option<DriveLine>
    ensures { result ≡ four_words word.now first.now second.now third.now }
{
    if word != b"write".as_slice() {
        return None;
    }
    let lba = parse_number(first)?;
    let n = parse_number(second)?;
    let seed = parse_number(third)?;
    if MOST_BLOCKS < n {
        return None;
    }
    Some(DriveLine::Write { lba, n, seed })
}

/// A logical unit: one digit from 0 to 7.
fn parse_unit(text: &[u8]) -> Option<u8>
    ensures { result ≡ unit_of text.now }
{
    match text {
        [digit @ b'0'..=b'7'] => Some(*digit - b'0'),
        _ => None,
    }
}
