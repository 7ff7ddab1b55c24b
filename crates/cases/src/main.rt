//! Calls of the layers, case by case: reads cases from standard input, a line each, and prints those whose answer is another than
//! the line wants, and how many there were. The page of this crate has the grammar of the lines.
#![tactic(auto)]

mod boards;
mod broken;
mod calls;
mod cast;
mod drawn;
mod entries;
mod judge;
mod paced;
mod pipes;
mod printed;
mod runs;
mod scripts;
mod values;
mod walks;
mod words;

use boards::play_board;
use judge::{Judge, call_of};
use pipes::Pipes;
use printed::{Printed, Slip, said, yes};
use runs::{Machine, unfolded};
use std::alloc::Global;
use std::io;
use std::io::Read;
use walks::Walk;
use words::Words;

/// What later lines speak of: the last two pipes, and the last rings.
#[derive(Drop)]
struct Kept {
    pipes: Pipes,
    walk: Option<Walk>,
}

/// What is printed of a call.
fn printed_of<R: Machine>(rt: &R, kept: &mut Kept, call: &str) -> Printed {
    let alloc = rt.alloc();
    let (kind, rest) = call.split_once(' ').unwrap_or((call, ""));
    let (text, second) = rest.split_once(" ; ").unwrap_or((rest, ""));
    match kind {
        "script" => scripts::printed(alloc, &unfolded(alloc, text)?),
        "whole" => scripts::printed_of_whole(alloc, &unfolded(alloc, text)?),
        "long" => scripts::printed_of_long(&mut Words::of(alloc, text)),
        "says" => scripts::said_by(alloc, text),
        "table" => scripts::printed_of_table(alloc, text, second),
        "events" => scripts::printed_of_events(alloc, text),
        "states" => scripts::search(alloc, text, &mut Words::of(alloc, second)),
        "agrees" => scripts::agrees(alloc, text, &mut Words::of(alloc, second)),
        "legal" => scripts::is_legal(rt, text, second),
        "among" => yes(alloc, runs::is_listed(rt, text, second)?),
        "listed" => runs::prints_listed(rt, text),
        "drawn" => drawn::printed(rt, text),
        "runs" => runs::by_each(rt, text),
        "stats" => runs::surveyed(rt, text),
        "pours" => runs::pours(rt, &mut Words::of(alloc, text)),
        "example" => runs::of_example(rt, "outcomes", text),
        "carried" => runs::of_example(rt, "run", text),
        "files" => runs::of_files(rt, text, second),
        "words" => runs::asked(alloc, text, second),
        "query" => runs::queried(rt, alloc, text, second),
        "paced" => paced::printed(rt, &mut Words::of(alloc, text), second),
        "ringrun" => runs::commanded(rt, call),
        "problem" => runs::problem(alloc, text),
        "writes" | "reads" | "finds" => broken::printed(rt, kind, text, second),
        "run" | "run-1" | "run-64" | "stuck" | "once" | "outcomes" | "history" => {
            runs::printed(rt, kind, text, second)
        }
        _ => printed_of_value(alloc, kept, call),
    }
}

/// What is printed of a call of a value, a pipe or the one-thread ring.
fn printed_of_value(alloc: Global, kept: &mut Kept, call: &str) -> Printed {
    let mut words = Words::of(alloc, call);
    let kind = words.word();
    let printed = match kind {
        "rings" => {
            kept.walk = Some(Walk::new(&mut words)?);
            said(alloc, "made")?
        }
        "pipe" | "write" | "read" | "splice" | "swap" | "close" | "shut" | "poll" | "memory" => {
            pipes::printed(&mut kept.pipes, kind, &mut words)?
        }
        "submit"
        | "part"
        | "goes"
        | "refuses"
        | "tells"
        | "ends"
        | "nops"
        | "state"
        | "answer"
        | "clock"
        | "submitted"
        | "due"
        | "deadline"
        | "was-shut" => match &mut kept.walk {
            Some(walk) => walk.printed(kind, &mut words)?,
            None => return Err(Slip::BadLine),
        },
        _ => values::printed(kind, &mut words)?,
    };
    words.end()?;
    Ok(printed)
}

fn main(rt: HostRuntime) -> io::Result<()> {
    let alloc = rt.alloc();
    let mut text = String::new(alloc);
    rt.reader().read_to_string(&mut text)?;
    let mut kept = Kept {
        pipes: Pipes {
            last: None,
            other: None,
        },
        walk: None,
    };
    let mut judge = Judge { rt: &rt, count: 0 };
    for (place, part) in text.as_str().split("\nboard ").enumerate() {
        if place > 0 {
            play_board(&mut judge, part)?;
            continue;
        }
        for line in part.split('\n') {
            if let Some(call) = call_of(line) {
                let printed = printed_of(&rt, &mut kept, call);
                judge.hear("", line, printed)?;
            }
        }
    }
    let count = judge.count;
    println!(rt; "{count} cases")
}
