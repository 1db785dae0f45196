//! Lines that are made as they are read.
ghost use Rattle.std.specs.Prelude.{◌≡◌, ◌≤◌, Some, [], IsOk};
ghost use Rattle.std.specs.Io.{ReadsAtMost};
ghost use Rattle.std.specs.Io.KnownBytes.{ReadConsumes};
ghost use Rattle.hpb_outside.specs.Faults.{HasCause};
ghost use Rattle.made_drive.specs.Counts.{read_count, reads_in, write_count, writes_in};
ghost use Rattle.made_drive.specs.Generator.{made_lines};
ghost use Rattle.made_drive.specs.Source.{text_left};
ghost use Rattle.made_drive.specs.Text.{lines_text};

use crate::generator::Generator;
use crate::text::{Text, text_of};
use hpb_outside::{Failed, Source};
use std::marker::Model;
use trace_text::DriveLine;

/// A source of so many lines that a generator makes. It holds the text of one line, and never fails.
#[derive(Drop)]
pub struct MadeSource {
    generator: Generator,
    /// The lines to come.
    lines: u32,
    /// The line that was begun.
    text: Text,
    /// The bytes of it that were read.
    place: usize,
}

impl Model for MadeSource {
    ghost use Rattle.std.specs.Prelude.{◌≤◌, drop, length};
    ghost use Rattle.made_drive.specs.Generator.{made_lines};
    ghost use Rattle.made_drive.specs.Text.{lines_text};
    ghost use Rattle.made_drive.specs.Source.{MadeText};

    ghost Value = { MadeText };

    ghost view = { λ s. record {
      begun = drop s.place s.text.items;
      to_come = lines_text (made_lines s.generator.units s.generator.number s.lines);
    } };

    ghost invariant = { λ s. (s.place ≤ length s.text.items) × (1 ≤ s.generator.units) };
}

impl MadeSource {
    /// A source of so many lines for a unit of so many blocks. The first line is made from the seed.
    pub fn new(seed: u32, units: u32, lines: u32) -> MadeSource
        requires { 1 ≤ units }
        ensures { text_left result ≡ lines_text (made_lines units seed lines) }
    {
        MadeSource {
            generator: Generator {
                number: seed,
                units,
            },
            lines,
            text: Text::new(),
            place: 0,
        }
    }

    /// Begins the next line where all of the last one was read, if there is one.
    fn begin_line(&mut self)
        ensures same { text_left self.new ≡ text_left self.old }
        ensures last { self.new.begun ≡ [] → self.new.to_come ≡ [] }
    {
        if self.place < self.text.len() || self.lines == 0 {
            return;
        }
        self.text = text_of(self.generator.next_line());
        self.lines -= 1;
        self.place = 0;
    }
}

impl Source for MadeSource {
    ghost left = { λ source. Some (text_left source) };

    ghost faults = { λ source. 0 };

    fn read(&mut self, buf: &mut [u8]) -> Result<usize, Failed>
        ensures bound { ReadsAtMost result buf.new }
        ensures bytes { ReadConsumes (Some (text_left self.old)) (Some (text_left self.new)) result buf.new }
        ensures cause { HasCause 0 0 result }

        ensures given { IsOk result }
    {
        self.begin_line();
        let count = buf.len().min(self.text.len() - self.place);
        let given = &self.text[self.place..self.place + count];
        buf[..count].copy_from_slice(given);
        self.place += count;
        Ok(count)
    }
}

/// 1 for a read.
fn read_count(line: DriveLine) -> u32
    ensures count { result ≡ read_count line }
    ensures few { result ≤ 1 }
{
    match line {
        DriveLine::Read { .. } => 1,
        _ => 0,
    }
}

/// 1 for a write.
fn write_count(line: DriveLine) -> u32
    ensures count { result ≡ write_count line }
    ensures few { result ≤ 1 }
{
    match line {
        DriveLine::Write { .. } => 1,
        _ => 0,
    }
}

/// How many of the lines that are made are reads, and how many are writes.
pub fn made_counts(seed: u32, units: u32, lines: u32) -> (u32, u32)
    requires { 1 ≤ units }
    ensures reads { result.0 ≡ reads_in (made_lines units seed lines) }
    ensures writes { result.1 ≡ writes_in (made_lines units seed lines) }
{
    let mut generator = Generator {
        number: seed,
        units,
    };
    let mut reads = 0;
    let mut writes = 0;
    for _line in 0..lines {
        let line = generator.next_line();
        reads += read_count(line);
        writes += write_count(line);
    }
    (reads, writes)
}
