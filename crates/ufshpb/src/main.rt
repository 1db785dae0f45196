//! The program `ufshpb`: it replays traces against a UFS device, drives one by its own driver, and shows what
//! transcripts say.
#![tactic(auto)]

use hpb_outside::{StdSink, StdSource};
use std::alloc::Global;
use std::env::{Env, FillError};
use std::process::ExitCode;
use std::{env, io};
use trace_replay::{Limit, Status, chip_of, geometry_fault, run, usage};

fn main(rt: HostRuntime) -> ExitCode {
    let alloc = rt.alloc();
    let words = match words_of(&rt) {
        Ok(words) => words,
        Err(error) if error.kind() == io::ErrorKind::OutOfMemory => {
            return ExitCode::from(Status::Memory.number());
        }
        // A word that isn't UTF-8 is no command.
        Err(_) => Vec::new(alloc),
    };
    let Ok(flash) = chip_of(alloc, &words) else {
        return ExitCode::from(Status::Memory.number());
    };
    let mut source = StdSource::new(rt.stdin());
    let mut sink = StdSink::new(rt.stdout());
    let outcome = run(alloc, &words, &mut source, &mut sink, flash);
    tell_fault(&rt, &words, outcome.status);
    ExitCode::from(outcome.status.number())
}

/// Tells on standard error what is wrong with the words, where they are refused. What can't be written there is let go.
fn tell_fault(rt: &HostRuntime, words: &[String], status: Status) {
    let alloc = rt.alloc();
    match status {
        Status::Usage => {
            if let Ok(text) = usage(alloc) {
                let _ = rt.eprint(text.as_str());
            }
        }
        Status::Geometry => {
            for limit in Limit::ALL {
                if let Ok(Some(fault)) = geometry_fault(alloc, words, limit) {
                    let _ = rt.eprintln(fault);
                }
            }
        }
        _ => {}
    }
}

/// The words after the program's name.
fn words_of(rt: &HostRuntime) -> io::Result<Vec<String>> {
    let mut words = Vec::new(rt.alloc());
    for word in env::args(&(AfterName(rt), rt.alloc()))? {
        words.push(word)?;
    }
    Ok(words)
}

/// The arguments after the program's name, which need not be text.
#[derive(Drop)]
struct AfterName<'a>(&'a HostRuntime);

impl Env for AfterName<'_> {
    fn arg(&self, i: usize, buf: &mut [u8]) -> Result<usize, FillError> {
        match i.checked_add(1) {
            Some(place) => self.0.arg(place, buf),
            None => Err(FillError::NotPresent),
        }
    }

    fn var(&self, name: &str, buf: &mut [u8]) -> Result<usize, FillError> {
        self.0.var(name, buf)
    }

    fn var_at(&self, i: usize, buf: &mut [u8]) -> Result<usize, FillError> {
        self.0.var_at(i, buf)
    }
}
