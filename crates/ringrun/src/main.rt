//! The program: reads the command line, carries it out, and ends with the status.
#![tactic(auto)]

use clap::Error;
use clap::error::ErrorKind;
use commands::{Console, invocation_of, serve};
use std::alloc::AllocError;
use std::io;
use std::process::ExitCode;
use std::sync::Wait;
use std::thread::Threads;
use std::time::Clock;

/// The words of the command line.
fn words_of(rt: &HostRuntime) -> io::Result<Vec<String>> {
    Ok(std::env::args(rt)?.collect(rt.alloc())?)
}

/// The words as texts.
fn texts_of<'a>(rt: &HostRuntime, words: &'a [String]) -> Result<Vec<&'a str>, AllocError> {
    let mut texts = Vec::new(rt.alloc());
    for word in words {
        texts.push(word.as_str())?;
    }
    Ok(texts)
}

/// Prints what is wrong with the command line, or what it asks for. Want of memory is an error.
fn report(rt: &HostRuntime, error: Error) -> io::Result<u8> {
    if error.kind() == ErrorKind::OutOfMemory {
        return Err(io::Error::from(AllocError));
    }
    error.print(rt)?;
    if error.kind() == ErrorKind::DisplayVersion {
        println!(rt)?;
    }
    Ok(if error.use_stderr() { 1 } else { 0 })
}

/// Reads the command line and carries it out. The answer is the program's status.
fn run<T: Threads + Wait + Copy + Send + Sync + 'static + Clock>(
    threads: &T,
    rt: &HostRuntime,
) -> io::Result<u8> {
    let words = words_of(rt)?;
    let texts = texts_of(rt, &words)?;
    match invocation_of(rt.alloc(), &texts) {
        Ok(invocation) => {
            let (out, err) = (rt.stdout(), rt.stderr());
            let mut console = Console { out, err };
            Ok(serve(threads, rt, &invocation, &mut console))
        }
        Err(error) => report(rt, error),
    }
}

fn main(rt: HostRuntime) -> ExitCode {
    match run(&rt, &rt) {
        Ok(status) => ExitCode::from(status),
        Err(error) => {
            if error.kind() == io::ErrorKind::OutOfMemory {
                let _ = eprintln!(rt; "fault: memory");
            }
            ExitCode::from(1)
        }
    }
}
