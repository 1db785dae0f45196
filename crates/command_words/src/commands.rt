//! The commands as `clap` has them declared: what it reads of the words, and how it shows their use.
ghost use Rattle.std.specs.Prelude.{◌≡◌, IfOk, codes, false, true};
ghost use Rattle.clap.specs.Words.{app_of, is_simple_and_free, rule_of};
ghost use Rattle.command_words.specs.Words.{bare_app, drive_app, flag_rule, gen_app, option_rule, replay_app};
ghost use Rattle.command_words.specs.Words.{required_rule, show_app, snap_app, with_shape};

use clap::{Arg, ArgAction, Command};
use std::alloc::{AllocError, Global};

/// An option, and what its value is.
fn option<'a>(alloc: Global, name: &'a str, value: &'a str, help: &'a str) -> Arg<'a>
    ensures rule { rule_of result ≡ option_rule name.now }
    ensures local { result.global ≡ false }
{
    Arg::new(alloc, name)
        .long(name)
        .value_name(value)
        .help(help)
        .action(ArgAction::Set)
}

/// An option that has to be there.
fn required<'a>(alloc: Global, name: &'a str, value: &'a str, help: &'a str) -> Arg<'a>
    ensures rule { rule_of result ≡ required_rule name.now }
    ensures local { result.global ≡ false }
{
    option(alloc, name, value, help).required(true)
}

/// A flag, which has no value.
fn flag<'a>(alloc: Global, name: &'a str, help: &'a str) -> Arg<'a>
    ensures rule { rule_of result ≡ flag_rule name.now }
    ensures local { result.global ≡ false }
{
    Arg::new(alloc, name)
        .long(name)
        .help(help)
        .action(ArgAction::SetTrue)
}

/// The flag of a command that may begin with an image.
fn image_flag<'a>(alloc: Global) -> Arg<'a>
    ensures rule { rule_of result ≡ flag_rule (codes "image") }
    ensures local { result.global ≡ false }
{
    flag(
        alloc,
        "image",
        "the source begins with an image of the chip, which is loaded first",
    )
}

/// A command without an option.
fn bare<'a>(alloc: Global, name: &'a str, usage: &'a str, about: &'a str) -> Command<'a>
    ensures app { app_of result ≡ bare_app name.now }
{
    Command::new(alloc, name)
        .disable_help_flag(true)
        .override_usage(usage)
        .about(about)
}

/// The options of a command that runs a device.
fn with_shape<'a>(alloc: Global, command: Command<'a>) -> Result<Command<'a>, AllocError>
    ensures app { IfOk result (λ now. app_of now ≡ with_shape (app_of command.entry)) }
{
    command
        .arg(option(
            alloc,
            "blocks",
            "N",
            "erase blocks of the chip, 4 to 4096 [default: 64]",
        ))?
        .arg(option(
            alloc,
            "pages",
            "N",
            "pages of an erase block, 2 to 256, at most 65536 in all [default: 64]",
        ))?
        .arg(option(
            alloc,
            "units",
            "N",
            "blocks of the logical unit, at most all but three erase blocks [default: these]",
        ))?
        .arg(option(
            alloc,
            "region",
            "N",
            "a region has 512 bytes times 2 to this power, 3 to 19 [default: 10]",
        ))?
        .arg(option(
            alloc,
            "sub",
            "N",
            "a subregion likewise, 3 to that of a region [default: 8]",
        ))?
        .arg(option(
            alloc,
            "held",
            "N",
            "regions that the host may hold, 1 to 32 [default: 4]",
        ))?
        .arg(option(
            alloc,
            "mode",
            "MODE",
            "who decides which regions these are, device or host [default: device]",
        ))
}

/// The command `replay`.
#[tactic(auto, unfolding(crate::specs::Words::replay_app))]
pub fn replay_command<'a>(alloc: Global) -> Result<Command<'a>, AllocError>
    ensures app { IfOk result (λ command. app_of command ≡ replay_app) }
    ensures simple { IfOk result (λ command. is_simple_and_free (app_of command) ≡ true) }
{
    let replay = bare(
        alloc,
        "replay",
        "ufshpb replay [OPTIONS]",
        "Replays a trace from standard input, and prints the transcript",
    );
    with_shape(alloc, replay)?.arg(image_flag(alloc))
}

/// The command `snap`.
#[tactic(auto, unfolding(crate::specs::Words::snap_app))]
pub fn snap_command<'a>(alloc: Global) -> Result<Command<'a>, AllocError>
    ensures app { IfOk result (λ command. app_of command ≡ snap_app) }
    ensures simple { IfOk result (λ command. is_simple_and_free (app_of command) ≡ true) }
{
    let snap = bare(
        alloc,
        "snap",
        "ufshpb snap [OPTIONS]",
        "Replays a trace from standard input, prints the transcript, and then writes the image of the chip",
    );
    with_shape(alloc, snap)?.arg(image_flag(alloc))
}

/// The command `drive`.
#[tactic(auto, unfolding(crate::specs::Words::drive_app))]
pub fn drive_command<'a>(alloc: Global) -> Result<Command<'a>, AllocError>
    ensures app { IfOk result (λ command. app_of command ≡ drive_app) }
    ensures simple { IfOk result (λ command. is_simple_and_free (app_of command) ≡ true) }
{
    let drive = bare(
        alloc,
        "drive",
        "ufshpb drive [OPTIONS]",
        "Drives a device by the requests from standard input, and prints the transcript and each answer",
    );
    with_shape(alloc, drive)?
        .arg(image_flag(alloc))?
        .arg(flag(
            alloc,
            "plain",
            "drives without a cache of the map: each read goes out without an entry",
        ))?
        .arg(flag(
            alloc,
            "answers",
            "prints the ends of the requests and the counts alone",
        ))
}

/// The command `gen`.
#[tactic(auto, unfolding(crate::specs::Words::gen_app))]
pub fn gen_command<'a>(alloc: Global) -> Result<Command<'a>, AllocError>
    ensures app { IfOk result (λ command. app_of command ≡ gen_app) }
    ensures simple { IfOk result (λ command. is_simple_and_free (app_of command) ≡ true) }
{
    let generated = bare(
        alloc,
        "gen",
        "ufshpb gen [OPTIONS] --seed <N>",
        "Makes a drive of 2000 lines from a seed, runs it, and prints how it went",
    );
    with_shape(alloc, generated)?
        .arg(required(
            alloc,
            "seed",
            "N",
            "what the lines are drawn from, 0 to 999999999",
        ))?
        .arg(flag(
            alloc,
            "plain",
            "drives without a cache of the map: each read goes out without an entry",
        ))
}

/// The command `show`.
#[tactic(auto, unfolding(crate::specs::Words::show_app))]
pub fn show_command<'a>(alloc: Global) -> Command<'a>
    ensures app { app_of result ≡ show_app }
    ensures simple { is_simple_and_free (app_of result) ≡ true }
{
    bare(
        alloc,
        "show",
        "ufshpb show",
        "Shows each line of a trace or a transcript from standard input",
    )
}

/// How the commands are used, as lines of text.
pub fn usage(alloc: Global) -> Result<String, AllocError> {
    let mut text = String::new(alloc);
    text.push_str(replay_command(alloc)?.render_help()?.as_str())?;
    text.push('\n')?;
    text.push_str(snap_command(alloc)?.render_help()?.as_str())?;
    text.push('\n')?;
    text.push_str(drive_command(alloc)?.render_help()?.as_str())?;
    text.push('\n')?;
    text.push_str(gen_command(alloc)?.render_help()?.as_str())?;
    text.push('\n')?;
    text.push_str(show_command(alloc).render_help()?.as_str())?;
    Ok(text)
}
