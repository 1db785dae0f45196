//! The words, and what they name.
ghost use Rattle.std.specs.Prelude.{◌≡◌, ◌≢◌, ◌-◌, ◌*◌, IfErr, IfOk, [], codes, map, min, option_map, slice_get};
ghost use Rattle.std.specs.Prelude.{string_bytes, true, List, ℕ, unwrap_or};
ghost use Rattle.std.specs.Borrow.{Bor};
ghost use Rattle.std.specs.Char.{is_ascii_digit};
ghost use Rattle.std.specs.List.{list_all};
ghost use Rattle.clap.specs.Words.{app_of, fault_of, first_of, found_of, is_simple_and_free, matches_of, rows_of};
ghost use Rattle.flash_pages.specs.Chip.{IsWithinLimits, erased_chip};
ghost use Rattle.flash_pages.specs.MemFlash.{geometry_of, pages_of, plan_of};
ghost use Rattle.command_words.specs.Limits.{named_numbers, numbers_of};
ghost use Rattle.command_words.specs.Options.{IsCommand, IsGiven, chip_given, cut_shape, number_said, unit_given};
ghost use Rattle.command_words.specs.Words.{HasMode, HasNumber, HasValues, IsDrive, IsGen, IsRead, IsReplay};
ghost use Rattle.command_words.specs.Words.{IsShow, IsSnap, gen_app};
ghost use Rattle.command_words.specs.Words.{RunsDevice, drive_app, has_flag, is_number, mode_set, named_chip};
ghost use Rattle.command_words.specs.Words.{named_unit, number_set, replay_app, rows_in, show_app, snap_app};

use crate::commands::{drive_command, gen_command, replay_command, show_command, snap_command};
use crate::limits::{NamedNumbers, room};
use clap::ArgMatches;
use clap::error::ErrorKind;
use flash_pages::{Geometry, MemFlash};
use hpb_outside::NoMemory;
use region_state::{Mode, Shape};
use std::alloc::Global;

/// The chip where the words name none that is served.
const LEAST: Geometry = Geometry {
    blocks: 4,
    pages: 2,
};

/// What the words ask for.
#[derive(Clone, Copy, Debug, PartialEq, Eq)]
pub enum Command {
    /// To replay a trace.
    Replay(Replayed),
    /// To replay a trace, and to write the image of the chip behind the transcript.
    Snap(Replayed),
    /// To serve the requests of a drive.
    Drive(Driven),
    /// To run a drive that is made from a seed.
    Gen(Generated),
    /// To show the lines of a text.
    Show,
}

/// Why the words ask for nothing.
#[derive(Clone, Copy, Debug, PartialEq, Eq)]
pub enum WordsFault {
    /// They aren't in form.
    Usage,
    /// There isn't enough memory to read them.
    Memory,
}

/// The chip and the unit that the words name. A number that its field can't hold stands there as the last that it can,
/// which is outside the limits too.
#[derive(Clone, Copy, Debug, PartialEq, Eq)]
pub struct Named {
    /// The chip.
    pub chip: Geometry,
    /// The logical unit.
    pub unit: Shape,
}

/// What the words of `replay` and `snap` name.
#[derive(Clone, Copy, Debug, PartialEq, Eq)]
pub struct Replayed {
    /// The chip and the unit.
    pub named: Named,
    /// Whether the source begins with an image of the chip.
    pub image: bool,
}

/// What the words of `drive` name.
#[derive(Clone, Copy, Debug, PartialEq, Eq)]
pub struct Driven {
    /// The chip and the unit.
    pub named: Named,
    /// Whether the source begins with an image of the chip.
    pub image: bool,
    /// Whether the driver has no cache.
    pub plain: bool,
    /// Whether only the answers are printed.
    pub answers: bool,
}

/// What the words of `gen` name.
#[derive(Clone, Copy, Debug, PartialEq, Eq)]
pub struct Generated {
    /// The chip and the unit.
    pub named: Named,
    /// What the lines are drawn from.
    pub seed: u32,
    /// Whether the driver has no cache.
    pub plain: bool,
}

/// The values of the options that are set, and whether each flag is.
#[derive(Clone, Copy)]
pub(crate) struct Given {
    blocks: Option<u32>,
    pages: Option<u32>,
    units: Option<u32>,
    region: Option<u32>,
    sub: Option<u32>,
    held: Option<u32>,
    seed: Option<u32>,
    mode: Option<Mode>,
    image: bool,
    plain: bool,
    answers: bool,
}

/// What `clap` reads of the words.
fn read<'a>(command: clap::Command<'a>, words: &'a [String]) -> Result<ArgMatches<'a>, WordsFault>
    requires simple { is_simple_and_free (app_of command) ≡ true }
    ensures read { IfOk result (λ m. (fault_of (app_of command.entry) (map string_bytes words.entry.now) ≡ [])
        × (rows_of (found_of m) ≡ matches_of (app_of command.entry) (map string_bytes words.entry.now))) }
    ensures usage { result ≡ Err WordsFault.Usage
        → fault_of (app_of command.entry) (map string_bytes words.entry.now) ≢ [] }
{
    match command.try_get_matches_from(words) {
        Ok(matches) => Ok(matches),
        Err(error) if error.kind() == ErrorKind::OutOfMemory => Err(WordsFault::Memory),
        Err(_) => Err(WordsFault::Usage),
    }
}

/// The command of the words.
///
/// It fails with `Usage` exactly where they aren't in form, or with `Memory`.
pub fn command_of(alloc: Global, words: &[String]) -> Result<Command, WordsFault>
    ensures command { IfOk result (IsCommand (map string_bytes words.now)) }
    ensures usage { result ≡ Err WordsFault.Usage
        → ¬ IsReplay (map string_bytes words.now) × ¬ IsSnap (map string_bytes words.now)
        × ¬ IsDrive (map string_bytes words.now) × ¬ IsGen (map string_bytes words.now)
        × ¬ IsShow (map string_bytes words.now) }
{
    let Some(command) = first_word(words) else {
        return Err(WordsFault::Usage);
    };
    match command {
        "replay" => Ok(Command::Replay(replay_of(alloc, words)?.replayed())),
        "snap" => Ok(Command::Snap(snap_of(alloc, words)?.replayed())),
        "drive" => Ok(Command::Drive(drive_of(alloc, words)?.driven())),
        "gen" => Ok(Command::Gen(gen_of(alloc, words)?.generated())),
        "show" => show_of(alloc, words),
        _ => Err(WordsFault::Usage),
    }
}

/// The first word.
fn first_word(words: &[String]) -> Option<&str>
    ensures { option_map (λ (word : Bor (List ℕ)). word.now) result ≡ slice_get (map string_bytes words.now) 0 }
{
    let [word, ..] = words else {
        return None;
    };
    Some(word.as_str())
}

/// The numbers that the words of a command that runs a device name.
pub(crate) fn numbers_of(alloc: Global, words: &[String]) -> Result<NamedNumbers, WordsFault>
    ensures numbers { IfOk result (λ numbers. RunsDevice (map string_bytes words.now)
        × (numbers ≡ named_numbers (map string_bytes words.now))) }
    ensures usage { result ≡ Err WordsFault.Usage → ¬ RunsDevice (map string_bytes words.now) }
{
    let given = given_of(alloc, words)?;
    Ok(given.numbers())
}

/// What the words of a command that runs a device give.
fn given_of(alloc: Global, words: &[String]) -> Result<Given, WordsFault>
    ensures given { IfOk result (λ given. RunsDevice (map string_bytes words.now)
        × IsGiven (rows_in (map string_bytes words.now)) given) }
    ensures chip { IfOk result (λ given. chip_given given ≡ named_chip (map string_bytes words.now)) }
    ensures unit { IfOk result (λ given. unit_given given ≡ named_unit (map string_bytes words.now)) }
    ensures usage { result ≡ Err WordsFault.Usage → ¬ RunsDevice (map string_bytes words.now) }
{
    let Some(command) = first_word(words) else {
        return Err(WordsFault::Usage);
    };
    match command {
        "replay" => replay_of(alloc, words),
        "snap" => snap_of(alloc, words),
        "drive" => drive_of(alloc, words),
        "gen" => gen_of(alloc, words),
        _ => Err(WordsFault::Usage),
    }
}

/// What the words behind `replay` give.
fn replay_of(alloc: Global, words: &[String]) -> Result<Given, WordsFault>
    ensures given { IfOk result (λ given. IsRead replay_app (map string_bytes words.now)
        × IsGiven (matches_of replay_app (map string_bytes words.now)) given) }
    ensures usage { result ≡ Err WordsFault.Usage → ¬ IsRead replay_app (map string_bytes words.now) }
{
    let Ok(command) = replay_command(alloc) else {
        return Err(WordsFault::Memory);
    };
    given_by(command, words)
}

/// What the words behind `snap` give.
fn snap_of(alloc: Global, words: &[String]) -> Result<Given, WordsFault>
    ensures given { IfOk result (λ given. IsRead snap_app (map string_bytes words.now)
        × IsGiven (matches_of snap_app (map string_bytes words.now)) given) }
    ensures usage { result ≡ Err WordsFault.Usage → ¬ IsRead snap_app (map string_bytes words.now) }
{
    let Ok(command) = snap_command(alloc) else {
        return Err(WordsFault::Memory);
    };
    given_by(command, words)
}

/// What the words behind `drive` give.
fn drive_of(alloc: Global, words: &[String]) -> Result<Given, WordsFault>
    ensures given { IfOk result (λ given. IsRead drive_app (map string_bytes words.now)
        × IsGiven (matches_of drive_app (map string_bytes words.now)) given) }
    ensures usage { result ≡ Err WordsFault.Usage → ¬ IsRead drive_app (map string_bytes words.now) }
{
    let Ok(command) = drive_command(alloc) else {
        return Err(WordsFault::Memory);
    };
    given_by(command, words)
}

/// What the words behind `gen` give.
fn gen_of(alloc: Global, words: &[String]) -> Result<Given, WordsFault>
    ensures given { IfOk result (λ given. IsRead gen_app (map string_bytes words.now)
        × IsGiven (matches_of gen_app (map string_bytes words.now)) given) }
    ensures usage { result ≡ Err WordsFault.Usage → ¬ IsRead gen_app (map string_bytes words.now) }
{
    let Ok(command) = gen_command(alloc) else {
        return Err(WordsFault::Memory);
    };
    given_by(command, words)
}

/// `show`, where nothing stands behind it.
fn show_of(alloc: Global, words: &[String]) -> Result<Command, WordsFault>
    ensures show { IfOk result (λ command. (command ≡ Command.Show)
        × (fault_of show_app (map string_bytes words.now) ≡ [])) }
    ensures usage { result ≡ Err WordsFault.Usage → fault_of show_app (map string_bytes words.now) ≢ [] }
{
    let _matches = read(show_command(alloc), words)?;
    Ok(Command::Show)
}

/// What the words give to a command that runs a device.
fn given_by<'a>(command: clap::Command<'a>, words: &'a [String]) -> Result<Given, WordsFault>
    requires simple { is_simple_and_free (app_of command) ≡ true }
    ensures given { IfOk result (λ given. IsRead (app_of command.entry) (map string_bytes words.entry.now)
        × IsGiven (matches_of (app_of command.entry) (map string_bytes words.entry.now)) given) }
    ensures usage { result ≡ Err WordsFault.Usage
        → ¬ IsRead (app_of command.entry) (map string_bytes words.entry.now) }
{
    given_in(&read(command, words)?)
}

/// What the matches give, or `Usage` where a value isn't of its form.
fn given_in(matches: &ArgMatches<'_>) -> Result<Given, WordsFault>
    ensures given { IfOk result (λ given. HasValues (rows_of (found_of matches.now))
        × IsGiven (rows_of (found_of matches.now)) given) }
    ensures usage { IfErr result (λ fault. (fault ≡ WordsFault.Usage)
        × ¬ HasValues (rows_of (found_of matches.now))) }
{
    Ok(Given {
        blocks: number_in(matches, "blocks")?,
        pages: number_in(matches, "pages")?,
        units: number_in(matches, "units")?,
        region: number_in(matches, "region")?,
        sub: number_in(matches, "sub")?,
        held: number_in(matches, "held")?,
        seed: number_in(matches, "seed")?,
        mode: mode_in(matches)?,
        image: is_flag_set(matches, "image"),
        plain: is_flag_set(matches, "plain"),
        answers: is_flag_set(matches, "answers"),
    })
}

/// The value of an option or a flag.
fn value_of<'a>(matches: &ArgMatches<'a>, name: &str) -> Option<&'a str>
    ensures { option_map (λ (value : Bor (List ℕ)). value.now) result
        ≡ first_of name.now (rows_of (found_of matches.now)) }
{
    matches.get_str(name)
}

/// The number that is set for an option.
#[tactic(auto, unfolding(crate::specs::Options::number_said))]
fn number_in(matches: &ArgMatches<'_>, option: &str) -> Result<Option<u32>, WordsFault>
    ensures number { IfOk result (λ number. HasNumber (rows_of (found_of matches.now)) option.now
        × (number ≡ number_set (rows_of (found_of matches.now)) option.now)) }
    ensures usage { IfErr result (λ fault. (fault ≡ WordsFault.Usage)
        × ¬ HasNumber (rows_of (found_of matches.now)) option.now) }
{
    let Some(value) = value_of(matches, option) else {
        return Ok(None);
    };
    match number_said(value) {
        Some(number) => Ok(Some(number)),
        None => Err(WordsFault::Usage),
    }
}

/// The mode that is set.
fn mode_in(matches: &ArgMatches<'_>) -> Result<Option<Mode>, WordsFault>
    ensures mode { IfOk result (λ mode. HasMode (rows_of (found_of matches.now))
        × (mode ≡ mode_set (rows_of (found_of matches.now)))) }
    ensures usage { IfErr result (λ fault. (fault ≡ WordsFault.Usage)
        × ¬ HasMode (rows_of (found_of matches.now))) }
{
    let Some(value) = value_of(matches, "mode") else {
        return Ok(None);
    };
    match value {
        "device" => Ok(Some(Mode::Device)),
        "host" => Ok(Some(Mode::Host)),
        _ => Err(WordsFault::Usage),
    }
}

/// Whether a flag is set.
fn is_flag_set(matches: &ArgMatches<'_>, name: &str) -> bool
    ensures { result ≡ has_flag (rows_of (found_of matches.now)) name.now }
{
    value_of(matches, name).is_some_and(|value| value == "true")
}

impl Given {
    /// What is named, and whether there is an image.
    fn replayed(self) -> Replayed
        ensures { result ≡ record {
          named = record { chip = chip_given self; unit = cut_shape (unit_given self) };
          image = self.image;
        } }
    {
        Replayed {
            named: self.named(),
            image: self.image,
        }
    }

    /// What is named, with the flags.
    fn driven(self) -> Driven
        ensures { result ≡ record {
          named = record { chip = chip_given self; unit = cut_shape (unit_given self) };
          image = self.image;
          plain = self.plain;
          answers = self.answers;
        } }
    {
        Driven {
            named: self.named(),
            image: self.image,
            plain: self.plain,
            answers: self.answers,
        }
    }

    /// What is named, with the seed.
    fn generated(self) -> Generated
        ensures { result ≡ record {
          named = record { chip = chip_given self; unit = cut_shape (unit_given self) };
          seed = unwrap_or self.seed 0;
          plain = self.plain;
        } }
    {
        Generated {
            named: self.named(),
            seed: self.seed.unwrap_or(0),
            plain: self.plain,
        }
    }

    /// The chip and the unit that are named, with the defaults.
    fn named(self) -> Named
        ensures { result ≡ record { chip = chip_given self; unit = cut_shape (unit_given self) } }
    {
        let chip = Geometry {
            blocks: self.blocks.unwrap_or(64),
            pages: self.pages.unwrap_or(64),
        };
        let room = chip.blocks.saturating_sub(3).saturating_mul(chip.pages);
        let unit = Shape {
            units: self.units.unwrap_or(room),
            region_exp: cut(self.region.unwrap_or(10)),
            sub_exp: cut(self.sub.unwrap_or(8)),
            held: cut(self.held.unwrap_or(4)),
            mode: self.mode.unwrap_or(Mode::Device),
        };
        Named { chip, unit }
    }

    /// The numbers that are named, with the defaults.
    fn numbers(self) -> NamedNumbers
        ensures { result ≡ numbers_of (chip_given self) (unit_given self) }
    {
        let blocks = self.blocks.unwrap_or(64);
        let pages = self.pages.unwrap_or(64);
        let units = match self.units {
            Some(units) => u64::from(units),
            None => room(blocks, pages),
        };
        NamedNumbers {
            blocks,
            pages,
            units,
            region: self.region.unwrap_or(10),
            sub: self.sub.unwrap_or(8),
            held: self.held.unwrap_or(4),
        }
    }
}

/// A number, at most 255.
fn cut(number: u32) -> u8
    ensures { result ≡ min number 255 }
{
    u8::try_from(number).unwrap_or(u8::MAX)
}

/// One to nine decimal digits, as a number.
#[tactic(auto, unfolding(crate::specs::Options::number_said))]
fn number_said(word: &str) -> Option<u32>
    ensures { result ≡ number_said word.now }
{
    if !is_number(word.as_bytes()) {
        return None;
    }
    word.parse().ok()
}

/// Whether a word is one to nine decimal digits.
fn is_number(word: &[u8]) -> bool
    ensures { result ≡ is_number word.now }
{
    if word.is_empty() || word.len() > 9 {
        return false;
    }
    has_only_digits(word)
}

fn has_only_digits(word: &[u8]) -> bool
    ensures { result ≡ list_all is_ascii_digit word.now }
{
    word.iter().all(|c| c.is_ascii_digit())
}

/// An erased chip whose calls don't fail: the one that the words of a command that runs a device name, where its
/// geometry is within its limits, else of 4 erase blocks of 2 pages. It fails where there isn't enough memory.
pub fn chip_of(alloc: Global, words: &[String]) -> Result<MemFlash, NoMemory>
    ensures erased { IfOk result (λ flash. pages_of flash ≡ erased_chip (geometry_of flash)) }
    ensures named { RunsDevice (map string_bytes words.now) → IsWithinLimits (named_chip (map string_bytes words.now))
        → IfOk result (λ flash. geometry_of flash ≡ named_chip (map string_bytes words.now)) }
    ensures least { ¬ (RunsDevice (map string_bytes words.now)
        × IsWithinLimits (named_chip (map string_bytes words.now)))
        → IfOk result (λ flash. geometry_of flash ≡ record { blocks = 4; pages = 2 }) }
    ensures faultless { IfOk result (λ flash. (plan_of flash).fail_at ≡ []) }
{
    let geometry = named_geometry(alloc, words)?;
    MemFlash::new(alloc, geometry, Vec::new(alloc))
}

/// The geometry that the words name, where they run a device and it is within its limits, else the least.
fn named_geometry(alloc: Global, words: &[String]) -> Result<Geometry, NoMemory>
    ensures limits { IfOk result IsWithinLimits }
    ensures named { RunsDevice (map string_bytes words.now) → IsWithinLimits (named_chip (map string_bytes words.now))
        → IfOk result (λ geometry. geometry ≡ named_chip (map string_bytes words.now)) }
    ensures least { ¬ (RunsDevice (map string_bytes words.now)
        × IsWithinLimits (named_chip (map string_bytes words.now)))
        → IfOk result (λ geometry. geometry ≡ record { blocks = 4; pages = 2 }) }
{
    let given = match given_of(alloc, words) {
        Ok(given) => given,
        Err(WordsFault::Usage) => return Ok(LEAST),
        Err(WordsFault::Memory) => return Err(NoMemory),
    };
    let chip = given.named().chip;
    if chip.is_within_limits() {
        Ok(chip)
    } else {
        Ok(LEAST)
    }
}
