//! The lines that are made from a number.
ghost use Rattle.std.specs.Prelude.{◌≡◌, ◌<◌, ◌≤◌};
ghost use Rattle.made_drive.specs.Generator.{block_count, drawn, first_block, line_after, made_collect, made_end};
ghost use Rattle.made_drive.specs.Generator.{made_read, made_steps, made_write, next_number};

use trace_text::DriveLine;

/// A request begins among so many blocks at most.
const FIRST_BLOCKS: u32 = 32_768;

/// Makes lines for a unit of so many blocks. The next one is made from a number.
#[derive(Clone, Copy, Debug, PartialEq, Eq)]
pub struct Generator {
    /// The number.
    pub number: u32,
    /// The blocks of the unit.
    pub units: u32,
}

impl Generator {
    /// One of so many choices, from 0 on.
    #[tactic(auto, unfolding(crate::specs::Generator::drawn, crate::specs::Generator::next_number))]
    pub fn draw(&mut self, choices: u32) -> u32
        requires { 0 < choices }
        ensures drawn { result ≡ drawn choices self.old.number }
        ensures few { result < choices }
        ensures next { self.new ≡ record { number = next_number self.old.number; units = self.old.units } }
    {
        let product = 1_103_515_245 * self.number as u64 + 12_345;
        let number = (product % (1 << 31)) as u32;
        self.number = number;
        number / 65_536 % choices
    }

    /// The next line.
    #[tactic(auto, unfolding(crate::specs::Generator::line_after))]
    pub fn next_line(&mut self) -> DriveLine
        requires { 1 ≤ self.old.units }
        ensures line { result ≡ (line_after self.old.units self.old.number).line }
        ensures next { self.new ≡ record {
          number = (line_after self.old.units self.old.number).number;
          units = self.old.units;
        } }
    {
        match self.draw(16) {
            0..=7 => self.make_read(),
            8..=12 => self.make_write(),
            13 => self.make_collect(),
            14 => self.make_steps(),
            _ => self.make_end(),
        }
    }

    /// The first block of a request, and how many it has.
    fn draw_blocks(&mut self) -> (u32, u32)
        requires { 1 ≤ self.old.units }
        ensures first { result.0 ≡ first_block self.old.units self.old.number }
        ensures count { result.1 ≡ block_count self.old.units self.old.number }
        ensures next { self.new ≡ record {
          number = next_number (next_number self.old.number);
          units = self.old.units;
        } }
    {
        let lba = self.draw(self.units.min(FIRST_BLOCKS));
        let n = 1 + self.draw(8);
        (lba, n.min(self.units - lba))
    }

    /// A read.
    fn make_read(&mut self) -> DriveLine
        requires { 1 ≤ self.old.units }
        ensures line { result ≡ (made_read self.old.units self.old.number).line }
        ensures next { self.new ≡ record {
          number = (made_read self.old.units self.old.number).number;
          units = self.old.units;
        } }
    {
        let (lba, n) = self.draw_blocks();
        DriveLine::Read { lba, n }
    }

    /// A write.
    fn make_write(&mut self) -> DriveLine
        requires { 1 ≤ self.old.units }
        ensures line { result ≡ (made_write self.old.units self.old.number).line }
        ensures next { self.new ≡ record {
          number = (made_write self.old.units self.old.number).number;
          units = self.old.units;
        } }
    {
        let (lba, n) = self.draw_blocks();
        let seed = self.draw(256);
        DriveLine::Write { lba, n, seed }
    }

    /// Calls of the collector.
    fn make_collect(&mut self) -> DriveLine
        ensures line { result ≡ (made_collect self.old.number).line }
        ensures next { self.new ≡ record { number = (made_collect self.old.number).number; units = self.old.units } }
    {
        DriveLine::Collect(1 + self.draw(16))
    }

    /// Steps of the device.
    fn make_steps(&mut self) -> DriveLine
        ensures line { result ≡ (made_steps self.old.number).line }
        ensures next { self.new ≡ record { number = (made_steps self.old.number).number; units = self.old.units } }
    {
        DriveLine::Steps(1 + self.draw(32))
    }

    /// A reset, or a drain.
    fn make_end(&mut self) -> DriveLine
        ensures line { result ≡ (made_end self.old.number).line }
        ensures next { self.new ≡ record { number = (made_end self.old.number).number; units = self.old.units } }
    {
        if self.draw(64) == 0 {
            DriveLine::Reset
        } else {
            DriveLine::Drain
        }
    }
}
