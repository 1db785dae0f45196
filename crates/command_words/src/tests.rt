//! Words: which are in form, and which chip, unit and flags they name.
use super::*;
use flash_pages::{Flash, Geometry};
use region_state::{Mode, Shape};
use std::alloc::Global;
use std::process::Abort;
use std::test::Fail;

/// Words that a blank parts; two blanks have an empty word between them.
fn words_of(alloc: Global, text: &str) -> Result<Vec<String>, Fail> {
    let mut words = Vec::new(alloc);
    if text.is_empty() {
        return Ok(words);
    }
    for word in text.split(' ') {
        words.push(String::from_str(alloc, word)?)?;
    }
    Ok(words)
}

/// A chip, and a unit whose other numbers aren't named.
fn named(blocks: u32, pages: u32, units: u32) -> Named {
    Named {
        chip: Geometry { blocks, pages },
        unit: Shape {
            units,
            region_exp: 10,
            sub_exp: 8,
            held: 4,
            mode: Mode::Device,
        },
    }
}

/// A chip of 8 erase blocks of 4 pages, and this unit.
fn small(units: u32, region_exp: u8, sub_exp: u8, held: u8, mode: Mode) -> Named {
    let chip = Geometry {
        blocks: 8,
        pages: 4,
    };
    let unit = Shape {
        units,
        region_exp,
        sub_exp,
        held,
        mode,
    };
    Named { chip, unit }
}

/// Words that aren't in form.
const OTHERS: [&str; 60] = [
    // No word, no command, and `show` with more words.
    "",
    "Replay",
    "replays",
    "--blocks 8",
    "show show",
    "show --mode host",
    // No pairs.
    "replay 8",
    "replay --blocks",
    "replay --blocks 8 --pages",
    "replay --blocks --pages 4",
    "replay --blocks=8=8",
    "replay --blocks=",
    "replay -- 8",
    "replay -- --blocks 8",
    "replay --help",
    "replay -h",
    "drive --version",
    "drive help",
    "drive --plain=true",
    "show --help",
    // Unknown options.
    "replay --size 8",
    "replay --Blocks 8",
    "replay -blocks 8",
    "replay --block 8",
    "replay  8",
    // An option twice.
    "replay --blocks 8 --pages 4 --blocks 8",
    "replay --mode host --mode host",
    "replay --held 4 --held 5",
    // Values that are no numbers.
    "replay --blocks ",
    "replay --pages 4a",
    "replay --units +9",
    "replay --region -9",
    "replay --sub 0x8",
    "replay --held 1234567890",
    "replay --held 0000000004",
    "replay --held four",
    // Values that are no mode.
    "replay --mode ",
    "replay --mode Host",
    "replay --mode 1",
    // Flags twice, with a value, in the place of a value, misspelt, and of another command.
    "drive --plain --plain",
    "drive --answers 1",
    "drive --blocks --plain 8",
    "drive plain",
    "drive --Plain",
    "drive --blocks 8 --blocks 8",
    "drive --held",
    "replay --plain",
    "replay --blocks 8 --answers",
    "show --plain",
    "drives",
    "drive ",
    "replay --image --image",
    "snap --image=1",
    "snap --plain",
    "show --image",
    "gen",
    "gen --plain",
    "gen --seed",
    "gen --seed seven",
    "gen --seed 7 --image",
];

#[test]
fn words_of_a_replay_name_a_device(rt: HostRuntime) -> Result<(), Fail> {
    let device = Mode::Device;
    for (text, named) in [
        ("replay", named(64, 64, 3904)),
        ("replay --blocks 8 --pages 4", named(8, 4, 20)),
        ("replay --blocks=8 --pages=4", named(8, 4, 20)),
        ("replay --pages=4 --blocks 8 --", named(8, 4, 20)),
        ("replay --pages 4 --blocks 8", named(8, 4, 20)),
        ("replay --blocks 000000008 --pages 04", named(8, 4, 20)),
        ("replay --blocks 8 --pages 4 --units 1", named(8, 4, 1)),
        (
            "replay --blocks 8 --pages 4 --region 19",
            small(20, 19, 8, 4, device),
        ),
        (
            "replay --blocks 8 --sub 3 --pages 4",
            small(20, 10, 3, 4, device),
        ),
        (
            "replay --held 32 --blocks 8 --pages 4",
            small(20, 10, 8, 32, device),
        ),
        ("replay --blocks 8 --pages 4 --mode device", named(8, 4, 20)),
        (
            "replay --blocks 8 --pages 4 --mode host",
            small(20, 10, 8, 4, Mode::Host),
        ),
        (
            "replay --mode host --held 1 --sub 3 --region 3 --units 1 --pages 4 --blocks 8",
            small(1, 3, 3, 1, Mode::Host),
        ),
        // Numbers outside their limits, as far as their fields count.
        ("replay --blocks 3", named(3, 64, 0)),
        ("replay --blocks 0 --pages 0 --units 0", named(0, 0, 0)),
        (
            "replay --blocks 999999999 --pages 999999999",
            named(999_999_999, 999_999_999, u32::MAX),
        ),
        (
            "replay --blocks 8 --pages 4 --region 266 --held 260",
            small(20, 255, 8, 255, device),
        ),
        (
            "replay --blocks 8 --pages 4 --sub 999999999",
            small(20, 10, 255, 4, device),
        ),
    ] {
        let words = words_of(rt.alloc(), text)?;
        assert_eq!(rt;
            command_of(rt.alloc(), &words),
            Ok(Command::Replay(Replayed {
                named,
                image: false
            })),
            "{text}"
        );
    }
    Ok(())
}

#[test]
fn words_of_a_drive_name_flags_too(rt: HostRuntime) -> Result<(), Fail> {
    let alone = named(64, 64, 3904);
    let host = Named {
        unit: Shape {
            mode: Mode::Host,
            ..alone.unit
        },
        ..alone
    };
    for (text, named, plain, answers) in [
        ("drive", alone, false, false),
        ("drive --plain", alone, true, false),
        ("drive --answers", alone, false, true),
        ("drive --answers --plain", alone, true, true),
        (
            "drive --blocks 8 --plain --pages 4 --answers",
            named(8, 4, 20),
            true,
            true,
        ),
        ("drive --plain --mode host", host, true, false),
        ("drive --mode host --answers", host, false, true),
    ] {
        let words = words_of(rt.alloc(), text)?;
        let driven = Driven {
            named,
            image: false,
            plain,
            answers,
        };
        assert_eq!(rt;
            command_of(rt.alloc(), &words),
            Ok(Command::Drive(driven)),
            "{text}"
        );
    }
    Ok(())
}

#[test]
fn an_image_may_come_first(rt: HostRuntime) -> Result<(), Fail> {
    let named = named(8, 4, 20);
    let with_image = Replayed { named, image: true };
    let without = Replayed {
        named,
        image: false,
    };
    let driven = Driven {
        named,
        image: true,
        plain: false,
        answers: true,
    };
    for (text, command) in [
        (
            "replay --image --blocks 8 --pages 4",
            Command::Replay(with_image),
        ),
        (
            "snap --blocks 8 --pages 4 --image",
            Command::Snap(with_image),
        ),
        ("snap --blocks=8 --pages=4 --", Command::Snap(without)),
        (
            "drive --answers --blocks 8 --image --pages 4",
            Command::Drive(driven),
        ),
    ] {
        let words = words_of(rt.alloc(), text)?;
        assert_eq!(rt; command_of(rt.alloc(), &words), Ok(command), "{text}");
    }
    Ok(())
}

#[test]
fn a_drive_is_made_from_a_seed(rt: HostRuntime) -> Result<(), Fail> {
    for (text, named, seed, plain) in [
        ("gen --seed 7", named(64, 64, 3904), 7, false),
        ("gen --plain --seed=0", named(64, 64, 3904), 0, true),
        (
            "gen --blocks 8 --seed 999999999 --pages 4",
            named(8, 4, 20),
            999_999_999,
            false,
        ),
    ] {
        let words = words_of(rt.alloc(), text)?;
        let generated = Generated { named, seed, plain };
        assert_eq!(rt;
            command_of(rt.alloc(), &words),
            Ok(Command::Gen(generated)),
            "{text}"
        );
    }
    Ok(())
}

#[test]
fn other_words_are_no_command(rt: HostRuntime) -> Result<(), Fail> {
    let show = words_of(rt.alloc(), "show")?;
    assert_eq!(rt; command_of(rt.alloc(), &show), Ok(Command::Show));
    for text in OTHERS {
        let words = words_of(rt.alloc(), text)?;
        assert_eq!(rt;
            command_of(rt.alloc(), &words),
            Err(WordsFault::Usage),
            "{text}"
        );
    }
    Ok(())
}

#[test]
fn use_is_shown_with_each_option(rt: HostRuntime) -> Result<(), Fail> {
    let text = usage(rt.alloc())?;
    for part in [
        "Usage: ufshpb replay [OPTIONS]",
        "Usage: ufshpb snap [OPTIONS]",
        "Usage: ufshpb drive [OPTIONS]",
        "Usage: ufshpb gen [OPTIONS] --seed <N>",
        "Usage: ufshpb show",
        "--blocks <N>",
        "--mode <MODE>",
        "--image",
        "--answers",
    ] {
        assert!(rt; text.as_str().contains(part), "{part}");
    }
    Ok(())
}

#[test]
fn words_name_a_chip(rt: HostRuntime) -> Result<(), Fail> {
    for (words, blocks, pages) in [
        ("replay", 64, 64),
        ("replay --blocks 8", 8, 64),
        ("replay --pages 256 --blocks 4", 4, 256),
        ("replay --units 0", 64, 64),
        ("snap --image --blocks 8", 8, 64),
        ("drive", 64, 64),
        ("drive --plain --blocks 8", 8, 64),
        // Outside the limits, and not in form.
        ("replay --blocks 3", 4, 2),
        ("replay --pages 257", 4, 2),
        ("replay --blocks 4096 --pages 17", 4, 2),
        ("replay --blocks 999999999 --pages 999999999", 4, 2),
        ("replay --blocks 8 --held x", 4, 2),
        ("drive --blocks 3 --answers", 4, 2),
        ("drive --blocks 8 --plain --plain", 4, 2),
        ("show", 4, 2),
        ("", 4, 2),
    ] {
        let names = words_of(rt.alloc(), words)?;
        let flash = chip_of(rt.alloc(), &names)?;
        assert_eq!(rt; flash.geometry(), Geometry { blocks, pages }, "{words}");
    }
    Ok(())
}

#[test]
fn limits_that_are_not_kept_are_told(rt: HostRuntime) -> Result<(), Fail> {
    each_refusal_is_told();
    for (words, limit, told) in [
        (
            "replay --blocks 3",
            Limit::Blocks,
            "--blocks 3: a number from 4 to 4096",
        ),
        (
            "replay --pages 1",
            Limit::Pages,
            "--pages 1: a number from 2 to 256",
        ),
        (
            "replay --pages 17 --blocks 4096",
            Limit::AllPages,
            "--blocks 4096 --pages 17: at most 65536 pages in all",
        ),
        (
            "replay --blocks 8 --pages 4 --units 21",
            Limit::Units,
            "--units 21: a number from 1 to 20, which is (blocks - 3) * pages",
        ),
        (
            "replay --region 266",
            Limit::Region,
            "--region 266: a number from 3 to 19",
        ),
        (
            "replay --sub 2",
            Limit::Sub,
            "--sub 2: a number from 3 to 19",
        ),
        (
            "replay --region 7",
            Limit::SubInRegion,
            "--region 7 --sub 8: a subregion is at most its region",
        ),
        (
            "replay --held 0",
            Limit::Held,
            "--held 0: a number from 1 to 32",
        ),
        (
            "drive --plain --held 33",
            Limit::Held,
            "--held 33: a number from 1 to 32",
        ),
        (
            "snap --image --pages 257",
            Limit::Pages,
            "--pages 257: a number from 2 to 256",
        ),
        // Limits that are kept, that another one stands before, and words that aren't in form.
        ("replay", Limit::Units, ""),
        ("replay --blocks 3 --pages 257", Limit::AllPages, ""),
        ("replay --blocks 3 --units 0", Limit::Units, ""),
        ("replay --region 20 --sub 21", Limit::SubInRegion, ""),
        ("replay --blocks", Limit::Blocks, ""),
        ("replay --plain --held 33", Limit::Held, ""),
        ("drive --answers", Limit::Held, ""),
    ] {
        let names = words_of(rt.alloc(), words)?;
        let text = match geometry_fault(rt.alloc(), &names, limit)? {
            Some(fault) => format!(in rt.alloc(); "{fault}")?,
            None => String::new(rt.alloc()),
        };
        assert_eq!(rt; text.as_str(), told, "{words}");
    }
    Ok(())
}
