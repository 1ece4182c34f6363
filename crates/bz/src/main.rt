//! The program `bz`: the real source, the real sink, no gate, and one call.
#![tactic(auto)]

#[cfg(test)]
mod tests;

use bz_io::{RealSink, RealSource, Sink, write_all};
use bz_top::{NoGate, top};
use std::alloc::{Alloc, Global};
use std::env::Env;
use std::io::ErrorKind;
use std::process::ExitCode;
use std::{env, io};

/// The words of the command line after the program's name.
fn arguments<R: Env + Alloc<A = Global>>(rt: &R) -> io::Result<Vec<String>> {
    let mut arguments = Vec::new(rt.alloc());
    for argument in env::args(rt)?.skip(1) {
        arguments.push(argument)?;
    }
    Ok(arguments)
}

/// The same words, to be read.
fn words(alloc: Global, arguments: &[String]) -> io::Result<Vec<&str>> {
    let mut words = Vec::new(alloc);
    for argument in arguments {
        words.push(argument.as_str())?;
    }
    Ok(words)
}

/// Writes why there are no words, want of memory or a word that is not UTF-8, and answers the status.
fn refuse<K: Sink>(sink: &mut K, error: io::Error) -> u8 {
    let (text, status) = match error.kind() {
        ErrorKind::OutOfMemory => (b"fault: memory\n".as_slice(), 7),
        _ => (b"fault: usage\n".as_slice(), 2),
    };
    match write_all(sink, text) {
        Ok(()) => status,
        Err(_) => 4,
    }
}

fn main(rt: HostRuntime) -> ExitCode {
    let mut source = RealSource::of(rt.reader());
    let mut sink = RealSink::of(io::writer(&rt));
    let arguments = match arguments(&rt) {
        Ok(arguments) => arguments,
        Err(error) => return ExitCode::from(refuse(&mut sink, error)),
    };
    let words = match words(rt.alloc(), &arguments) {
        Ok(words) => words,
        Err(error) => return ExitCode::from(refuse(&mut sink, error)),
    };
    let outcome = top(&rt, rt.alloc(), &words, &mut source, &mut sink, &NoGate);
    ExitCode::from(outcome.status)
}
