//! Runs of scripts that were drawn at random.
use crate::printed::{Printed, Slip, said};
use crate::runs::{Machine, answered, has_table, is_listed};
use std::alloc::{AllocError, Global};

/// The most waiting lines of a script that may be left out.
const WAITS: u32 = 16;

/// The first words of the lines that wait. A ring's line is printed before the clock's.
const WAITING: [&str; 2] = ["wait", "armed"];

/// The script without its waiting lines, and without those that its actor has after this one.
fn before_line(alloc: Global, script: &str, stuck: &str) -> Result<String, AllocError> {
    let mut kept = String::new(alloc);
    let mut is_over = false;
    for line in script.split('/') {
        let (word, _) = line.split_once(' ').unwrap_or((line, ""));
        if word == "on" {
            is_over = false;
        } else if line == stuck {
            is_over = true;
        }
        if !line.is_empty() && !WAITING.contains(&word) && !is_over {
            kept.push_str(line)?;
            kept.push_str("/")?;
        }
    }
    Ok(kept)
}

/// Whether a table of the script leaves the entry with -125 (ECANCELED).
fn is_cut<R: Machine>(rt: &R, script: &str, name: &str) -> Result<bool, Slip> {
    let (_, listed) = answered(rt, "outcomes", script, "")?;
    let row = format!(in rt.alloc(); "/{name} -125/")?;
    let listed = format!(in rt.alloc(); "/{listed}")?;
    Ok(listed.as_str().contains(row.as_str()))
}

/// The script without the line at which its run was stuck, where its entry may be without a reply until then.
fn shorter<R: Machine>(rt: &R, script: &str, name: &str) -> Result<Option<String>, Slip> {
    let alloc = rt.alloc();
    for word in WAITING {
        let line = format!(in alloc; "{word} {name}")?;
        let whole = format!(in alloc; "/{line}/")?;
        if let Some((before, after)) = script.split_once(whole.as_str()) {
            let kept = before_line(alloc, script, line.as_str())?;
            return if is_cut(rt, kept.as_str(), name)? {
                Ok(Some(format!(in alloc; "{before}/{after}")?))
            } else {
                Ok(None)
            };
        }
    }
    Ok(None)
}

/// Whether a run prints a table that `outcomes` lists: `yes`, or else what it prints. A line that waits and runs out of tries is left
/// out, where its entry may be without a reply until then, and the script is run again.
pub fn printed<R: Machine>(rt: &R, script: &str) -> Printed {
    let alloc = rt.alloc();
    let mut script = String::from_str(alloc, script)?;
    for _ in 0..WAITS {
        let (status, text) = answered(rt, "drawn", script.as_str(), "")?;
        if status == 0 && is_listed(rt, script.as_str(), text.as_str())? {
            return said(alloc, "yes");
        }
        let (_, name) = text.as_str().split_once("stuck ").unwrap_or(("", ""));
        script = match shorter(rt, script.as_str(), name.trim_end_matches('/'))? {
            Some(shorter) => shorter,
            None => return Ok(format!(in alloc; "{status} {text}")?),
        };
    }
    said(alloc, "too many waits")
}
