//! A program for tests: `ufshpb` over a chip of which some calls fail. Its first word has the numbers of these calls,
//! from 1 on, with a comma between two; the words of `ufshpb` stand behind it. It tells nothing on standard error.
#![tactic(auto)]

use command_words::{Command, WordsFault, command_of};
use flash_pages::{Geometry, MemFlash};
use hpb_outside::{NoMemory, StdSink, StdSource};
use std::alloc::Global;
use std::env::{Env, FillError};
use std::process::ExitCode;
use std::{env, io};
use trace_replay::{Status, run};

fn main(rt: HostRuntime) -> ExitCode {
    let alloc = rt.alloc();
    let (Ok(first), Ok(words)) = (words_of(&rt, 0), words_of(&rt, 1)) else {
        return ExitCode::from(Status::Usage.number());
    };
    let Some(calls) = calls_of(alloc, &first) else {
        return ExitCode::from(Status::Usage.number());
    };
    let Ok(flash) = chip_of(alloc, &words, calls) else {
        return ExitCode::from(Status::Memory.number());
    };
    let mut source = StdSource::new(rt.stdin());
    let mut sink = StdSink::new(rt.stdout());
    let outcome = run(alloc, &words, &mut source, &mut sink, flash);
    ExitCode::from(outcome.status.number())
}

/// The numbers of the calls that are to fail, where the first word has them and there is memory for them.
fn calls_of(alloc: Global, words: &[String]) -> Option<Vec<u64>> {
    let mut calls = Vec::new(alloc);
    for part in words.first()?.as_str().split(',') {
        calls.push(part.parse().ok()?).ok()?;
    }
    Some(calls)
}

/// The chip that the words name, erased, of which these calls fail; the smallest where they name none.
fn chip_of(alloc: Global, words: &[String], calls: Vec<u64>) -> Result<MemFlash, NoMemory> {
    let chip = match command_of(alloc, words) {
        Ok(Command::Replay(replayed) | Command::Snap(replayed)) => replayed.named.chip,
        Ok(Command::Drive(driven)) => driven.named.chip,
        Ok(Command::Gen(generated)) => generated.named.chip,
        Ok(Command::Show) | Err(WordsFault::Usage) => LEAST,
        Err(WordsFault::Memory) => return Err(NoMemory),
    };
    let chip = if chip.is_within_limits() { chip } else { LEAST };
    MemFlash::new(alloc, chip, calls)
}

/// The smallest chip.
const LEAST: Geometry = Geometry {
    blocks: 4,
    pages: 2,
};

/// The words after the program's name, and so many more.
fn words_of(rt: &HostRuntime, passed: usize) -> io::Result<Vec<String>> {
    let mut words = Vec::new(rt.alloc());
    for word in env::args(&(Behind { rt, passed }, rt.alloc()))? {
        words.push(word)?;
    }
    Ok(words)
}

/// The arguments after the program's name and so many more, which need not be text.
#[derive(Drop)]
struct Behind<'a> {
    rt: &'a HostRuntime,
    passed: usize,
}

impl Env for Behind<'_> {
    fn arg(&self, i: usize, buf: &mut [u8]) -> Result<usize, FillError> {
        match i
            .checked_add(1)
            .and_then(|place| place.checked_add(self.passed))
        {
            Some(place) => self.rt.arg(place, buf),
            None => Err(FillError::NotPresent),
        }
    }

    fn var(&self, name: &str, buf: &mut [u8]) -> Result<usize, FillError> {
        self.rt.var(name, buf)
    }

    fn var_at(&self, i: usize, buf: &mut [u8]) -> Result<usize, FillError> {
        self.rt.var_at(i, buf)
    }
}
