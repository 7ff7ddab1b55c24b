//! Times entries, claim words, a board and the runtime, and puts runtimes under loads of all kinds of requests. Without arguments it
//! tries what `--bench` times; with `--bench NAME` only those setups of the runtime are timed whose name has NAME in it. With `--idle`
//! nothing happens for so long. With `--spent` one cell serves as many NOPs as it can. With `--mixed` one runtime is under requests at
//! random, with `--soak` one after another. The status is 1 unless all replies are right.
#![tactic(auto)]

mod board_path;
mod client;
mod draws;
mod fleet;
mod flow;
mod handover;
mod load;
mod loops;
mod machine;
mod measure;
mod mix;
mod mixed;
mod pipes;
mod replies;
mod setup;
mod units;

use anyhow::{Result, bail};
use board_path::run_spent;
use machine::Machine;
use measure::{measure, run_idle};
use mixed::{run_mixed, run_soak};
use std::env;
use std::time::CpuClock;

/// The number that a word is.
fn number_of(word: Option<&str>) -> Option<u64> {
    word?.parse::<u64>().ok()
}

/// Does what these words ask for.
fn carry_out<R: Machine + CpuClock>(rt: &R, words: [Option<&str>; 3]) -> Result<()> {
    let [word, next, last] = words;
    let Some(word) = word else {
        return measure(rt, false, "");
    };
    match (word, number_of(next), number_of(last)) {
        ("--bench", None, None) => measure(rt, true, next.unwrap_or("")),
        ("--idle", Some(seconds), Some(reads)) => run_idle(rt, seconds, reads),
        ("--spent", None, None) => run_spent(rt),
        ("--mixed", Some(seconds), None) => run_mixed(rt, seconds),
        ("--soak", Some(seconds), Some(seed)) => run_soak(rt, seconds, seed),
        _ => bail!(
            "usage: loads [--bench [NAME] | --idle SECONDS READS | --spent | --mixed SECONDS | --soak SECONDS SEED]"
        ),
    }
}

/// Does what the words of the command line ask for.
fn main(rt: HostRuntime) -> Result<()> {
    let mut words = env::args(&rt)?.skip(1);
    let (word, next, last) = (words.next(), words.next(), words.next());
    let done = carry_out(&rt, [word.as_deref(), next.as_deref(), last.as_deref()]);
    drop((words, word, next, last));
    done
}
