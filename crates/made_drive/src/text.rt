//! The text of a line.
ghost use Rattle.std.specs.Prelude.{◌≡◌, ◌+◌, ◌≤◌, ◌++◌, length, decimal};
ghost use Rattle.made_drive.specs.Text.{line_text, words_text};

use arrayvec::ArrayVec;
use itoa::Buffer;
use trace_text::DriveLine;

/// The bytes of the text of a line at most.
const TEXT_BYTES: usize = 64;

/// The text of a line, as far as it is built.
pub(crate) type Text = ArrayVec<u8, TEXT_BYTES>;

/// Adds a text.
fn push(part: &[u8], text: &mut Text)
    requires { length text.old.items + length part.now ≤ 64 }
    ensures { text.new.items ≡ text.old.items ++ part.now }
{
    text.try_extend_from_slice(part).unwrap();
}

/// Adds a word and a number behind it.
fn push_number(word: &[u8], number: u32, text: &mut Text)
    requires { length text.old.items + length word.now + 10 ≤ 64 }
    ensures text { text.new.items ≡ text.old.items ++ word.now ++ decimal number }
    ensures bound { length text.new.items ≤ length text.old.items + length word.now + 10 }
{
    push(word, text);
    let mut buffer = Buffer::new();
    push(buffer.format(number).as_bytes(), text);
}

/// The words of a line.
fn words_of(line: DriveLine) -> Text
    ensures words { result.items ≡ words_text line }
    ensures bound { length result.items ≤ 40 }
{
    let mut text = Text::new();
    match line {
        DriveLine::Read { lba, n } => {
            push_number(b"read ", lba, &mut text);
            push_number(b" ", n, &mut text);
        }
        DriveLine::Write { lba, n, seed } => {
            push_number(b"write ", lba, &mut text);
            push_number(b" ", n, &mut text);
            push_number(b" ", seed, &mut text);
        }
        DriveLine::Steps(count) => push_number(b"steps ", count, &mut text),
        DriveLine::Collect(count) => push_number(b"collect ", count, &mut text),
        DriveLine::Drain => push(b"drain", &mut text),
        DriveLine::Reset => push(b"reset", &mut text),
        DriveLine::Lun(lun) => push_number(b"lun ", lun as u32, &mut text),
        DriveLine::Blank => {}
    }
    text
}

/// The text of a line, with its end.
pub(crate) fn text_of(line: DriveLine) -> Text
    ensures { result.items ≡ line_text line }
{
    let mut text = words_of(line);
    push(b"\n", &mut text);
    text
}
