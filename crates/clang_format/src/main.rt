//! `clang_format`: formats C texts, of standard input or of files, in a style.
//!
//! `format_cli::format_command` is the whole program over any ports; `main` gives it the real ones, and refuses what
//! comes before its words: words that are no text, and want of memory for them.
#![tactic(auto)]

use command_refusals::{Refusal, status_of, tell};
use fmt_ports::{RealFiles, RealIn, RealOut};
use format_cli::format_command;
use std::env;
use std::io::{self, ErrorKind};
use std::process::ExitCode;

// The words behind the program's name.
fn words_of(rt: &HostRuntime) -> io::Result<Vec<String>> {
    Ok(env::args(rt)?.skip(1).collect(rt.alloc())?)
}

// Tells a refusal by its row. A row that can't be written leaves the status.
fn refuse(rt: &HostRuntime, refusal: Refusal<'_>) -> ExitCode {
    let mut notes = RealOut::new(rt.stderr());
    let _ = tell(rt.alloc(), refusal, &mut notes);
    ExitCode::from(status_of(refusal))
}

fn main(rt: HostRuntime) -> ExitCode {
    let alloc = rt.alloc();
    let words = match words_of(&rt) {
        Ok(words) => words,
        Err(error) if error.kind() == ErrorKind::InvalidData => {
            return refuse(&rt, Refusal::BadWords);
        }
        Err(_) => return refuse(&rt, Refusal::NoMemory),
    };
    let Ok(system) = rt.clone() else {
        return refuse(&rt, Refusal::NoMemory);
    };
    let mut source = RealIn::new(rt.stdin());
    let mut out = RealOut::new(rt.stdout());
    let mut notes = RealOut::new(rt.stderr());
    let mut files = RealFiles::new(system, alloc);
    ExitCode::from(format_command(alloc, &words, &mut source, &mut out, &mut notes, &mut files))
}
