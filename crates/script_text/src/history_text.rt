//! Histories as text.
ghost use Rattle.std.specs.Prelude.{◌≡◌, ◌++◌, slice_get, codes, decimal, IfOk, OnOk};
ghost use Rattle.std.specs.List.{list_any};
ghost use Rattle.std.specs.Fmt.{signed_decimal};
ghost use Rattle.std.specs.String.{string_bytes};
ghost use Rattle.history.specs.History.{fires};
ghost use Rattle.script_text.specs.HistoryText.{label_in, label_by, label_of, short_line, long_line, settled, event_text, history_text};

use history::{Event, Req};
use script::{Named, Script, Step, step_at};
use std::alloc::{AllocError, Global};
use std::fmt::Write;

/// ETIME: a timer ran out.
const TIMED_OUT: i32 = -62;

/// ECANCELED: something else has ended the request.
const CANCELED: i32 = -125;

/// A history of a script as text: one event a line, the first one first, its requests by their labels.
pub fn write_history(alloc: Global, script: &Script, events: &[Event]) -> Result<String, AllocError>
    ensures { IfOk result (λ text. string_bytes text ≡ history_text script.now events.now) }
{
    let mut out = String::new(alloc);
    for place in 0..events.len() {
        write_event(&mut out, script, &events[..place], &events[place])?;
    }
    Ok(out)
}

/// Writes the line of an event that comes after these.
pub fn write_event(
    out: &mut String,
    script: &Script,
    before: &[Event],
    event: &Event,
) -> Result<(), AllocError>
    ensures { OnOk result (string_bytes out.new ≡ string_bytes out.old ++ event_text script.now before.now event.now) }
{
    match event {
        Event::Submit { req, .. } => write_short(out, "submit", script, *req),
        Event::Begin(req) => write_short(out, "begin", script, *req),
        Event::Park(req) => write_short(out, "park", script, *req),
        Event::Expire(req) => write_short(out, "expire", script, *req),
        Event::Count(req) => write_short(out, "count", script, *req),
        Event::Sever(req) => write_short(out, "sever", script, *req),
        Event::Reap(req) => write_short(out, "reap", script, *req),
        Event::Cut(req) => write_short(out, "cut", script, *req),
        Event::Reply { req, res, .. } => write_res(out, "reply", script, *req, *res),
        Event::Settle(req) => write_res(out, "settle", script, *req, settled(before, *req)),
        Event::Take { cancel, target } => write_pair(out, "take", script, *cancel, *target),
        Event::Miss { cancel, target } => write_pair(out, "miss", script, *cancel, *target),
        Event::Fire { timer, target } => write_pair(out, "fire", script, *timer, *target),
        Event::FireMiss { timer, target } => write_pair(out, "firemiss", script, *timer, *target),
        Event::Tick(now) => writeln!(out, "tick {now}"),
        Event::Arm { req, deadline } => write_arm(out, script, *req, *deadline),
        Event::Shut => writeln!(out, "shut"),
    }
}

/// A line with one label.
fn write_short(out: &mut String, word: &str, script: &Script, req: Req) -> Result<(), AllocError>
    ensures { OnOk result (string_bytes out.new ≡ string_bytes out.old ++ short_line word.now (label_of script.now req)) }
{
    let label = label_of(script, req);
    writeln!(out, "{word} {label}")
}

/// A line with a label and a reply.
fn write_res(
    out: &mut String,
    word: &str,
    script: &Script,
    req: Req,
    res: i32,
) -> Result<(), AllocError>
    ensures { OnOk result (string_bytes out.new ≡ string_bytes out.old ++ long_line word.now (label_of script.now req) (signed_decimal res)) }
{
    let label = label_of(script, req);
    writeln!(out, "{word} {label} {res}")
}

/// The line of a timer that is armed.
fn write_arm(out: &mut String, script: &Script, req: Req, deadline: u32) -> Result<(), AllocError>
    ensures { OnOk result (string_bytes out.new ≡ string_bytes out.old ++ long_line (codes "arm") (label_of script.now req) (decimal deadline)) }
{
    let label = label_of(script, req);
    writeln!(out, "arm {label} {deadline}")
}

/// A line with two labels.
fn write_pair(
    out: &mut String,
    word: &str,
    script: &Script,
    first: Req,
    second: Req,
) -> Result<(), AllocError>
    ensures { OnOk result (string_bytes out.new ≡ string_bytes out.old ++ long_line word.now (label_of script.now first) (label_of script.now second)) }
{
    let first = label_of(script, first);
    let second = label_of(script, second);
    writeln!(out, "{word} {first} {second}")
}

/// What a LINK_TIMEOUT is answered that is settled after these events: -62 (ETIME) where it ran out in time, else -125
/// (ECANCELED).
pub fn settled(before: &[Event], timer: Req) -> i32
    ensures { result ≡ settled before.now timer }
{
    if has_fired(before, timer) {
        TIMED_OUT
    } else {
        CANCELED
    }
}

/// The timer ran out in time, by one of these events.
fn has_fired(before: &[Event], timer: Req) -> bool
    ensures { result ≡ list_any (λ e. fires e timer) before.now }
{
    before.iter().any(|event| fires(event, timer))
}

/// The timer ran out in time, by this event.
fn fires(event: &Event, asked: Req) -> bool
    ensures { result ≡ fires event.now asked }
{
    match event {
        Event::Fire { timer, .. } => *timer == asked,
        Event::FireMiss { timer, .. } => *timer == asked,
        _ => false,
    }
}

/// The label of a request: that of the entry which its ring hands in after k others. A request that is none of the
/// script's has no label.
pub fn label_of(script: &Script, req: Req) -> &str
    ensures { result.now ≡ label_of script.now req }
{
    let Some(acts) = script.acts.get(req.ring as usize) else {
        return "";
    };
    label_by(&script.entries, step_at(acts, req.k))
}

/// The label of the entry that a step hands in.
fn label_by(entries: &[Named], step: Option<Step>) -> &str
    ensures { result.now ≡ label_by entries.now step }
{
    match step {
        Some(Step::Hands { place, .. }) => label_at(entries, place),
        _ => "",
    }
}

/// The label of the entry at a place.
fn label_at(entries: &[Named], place: u32) -> &str
    ensures { result.now ≡ label_in (slice_get entries.now place) }
{
    match entries.get(place as usize) {
        Some(entry) => entry.label.as_str(),
        None => "",
    }
}
