//! Lines of tables, and events, as JSON values.
ghost use Rattle.std.specs.Prelude.{◌≡◌, codes, map, IfOk};
ghost use Rattle.std.specs.String.{string_bytes};
ghost use Rattle.script.specs.Rows.{rows_of};
ghost use Rattle.serde_json.specs.View.{view};
ghost use Rattle.script_text.specs.HistoryText.{label_of};
ghost use Rattle.pictures.specs.Json.{arm_data, event_data, history_data, one_data, pair_data, reply_data, row_data, rows_data, shut_data, table_data, tick_data};

use history::{Event, Req};
use script::{Script, Table};
use script_text::{label_of, settled};
use serde_json::{Value, json};
use std::alloc::{AllocError, Global};

/// A line of a table.
fn row_value(alloc: Global, label: &str, reply: i32, bytes: &[u8]) -> Result<Value, AllocError>
    ensures { IfOk result (λ value. view value ≡ row_data label.now reply bytes.now) }
{
    let digits = hex::encode(alloc, bytes)?;
    json!(in alloc; {"data": digits, "label": label, "reply": reply})
}

/// A table: its lines in order.
pub fn table_value(alloc: Global, script: &Script, table: &Table) -> Result<Value, AllocError>
    ensures { IfOk result (λ value. view value ≡ table_data script.now (rows_of table.now)) }
{
    let mut rows = Vec::new(alloc);
    for (entry, line) in script.entries.iter().zip(&table.lines) {
        rows.push(row_value(alloc, entry.label.as_str(), line.0, &line.1)?)?;
    }
    Ok(Value::Array(rows))
}

/// An event of one request.
fn of_one(alloc: Global, word: &str, script: &Script, req: Req) -> Result<Value, AllocError>
    ensures { IfOk result (λ value. view value ≡ one_data word.now (label_of script.now req)) }
{
    let label = label_of(script, req);
    json!(in alloc; {"event": word, "label": label})
}

/// An event that answers a request.
fn of_reply(
    alloc: Global,
    word: &str,
    script: &Script,
    req: Req,
    reply: i32,
) -> Result<Value, AllocError>
    ensures { IfOk result (λ value. view value ≡ reply_data word.now (label_of script.now req) reply) }
{
    let label = label_of(script, req);
    json!(in alloc; {"event": word, "label": label, "reply": reply})
}

/// An event of a request that meets another.
fn of_pair(
    alloc: Global,
    word: &str,
    script: &Script,
    first: Req,
    second: Req,
) -> Result<Value, AllocError>
    ensures { IfOk result (λ value. view value ≡ pair_data word.now (label_of script.now first) (label_of script.now second)) }
{
    let label = label_of(script, first);
    let target = label_of(script, second);
    json!(in alloc; {"event": word, "label": label, "target": target})
}

/// A timer that is armed.
fn of_arm(alloc: Global, script: &Script, req: Req, deadline: u32) -> Result<Value, AllocError>
    ensures { IfOk result (λ value. view value ≡ arm_data (label_of script.now req) deadline) }
{
    let label = label_of(script, req);
    json!(in alloc; {"deadline": deadline, "event": "arm", "label": label})
}

/// An event that comes after these.
fn event_value(
    alloc: Global,
    script: &Script,
    before: &[Event],
    event: &Event,
) -> Result<Value, AllocError>
    ensures { IfOk result (λ value. view value ≡ event_data script.now before.now event.now) }
{
    match event {
        Event::Submit { req, .. } => of_one(alloc, "submit", script, *req),
        Event::Begin(req) => of_one(alloc, "begin", script, *req),
        Event::Park(req) => of_one(alloc, "park", script, *req),
        Event::Expire(req) => of_one(alloc, "expire", script, *req),
        Event::Count(req) => of_one(alloc, "count", script, *req),
        Event::Sever(req) => of_one(alloc, "sever", script, *req),
        Event::Reap(req) => of_one(alloc, "reap", script, *req),
        Event::Cut(req) => of_one(alloc, "cut", script, *req),
        Event::Reply { req, res, .. } => of_reply(alloc, "reply", script, *req, *res),
        Event::Settle(req) => of_reply(alloc, "settle", script, *req, settled(before, *req)),
        Event::Take { cancel, target } => of_pair(alloc, "take", script, *cancel, *target),
        Event::Miss { cancel, target } => of_pair(alloc, "miss", script, *cancel, *target),
        Event::Fire { timer, target } => of_pair(alloc, "fire", script, *timer, *target),
        Event::FireMiss { timer, target } => of_pair(alloc, "firemiss", script, *timer, *target),
        Event::Tick(now) => json!(in alloc; {"event": "tick", "now": *now}),
        Event::Arm { req, deadline } => of_arm(alloc, script, *req, *deadline),
        Event::Shut => json!(in alloc; {"event": "shut"}),
    }
}

/// A history: its events in order.
pub fn history_value(alloc: Global, script: &Script, events: &[Event]) -> Result<Value, AllocError>
    ensures { IfOk result (λ value. view value ≡ history_data script.now events.now) }
{
    let mut made = Vec::new(alloc);
    for place in 0..events.len() {
        made.push(event_value(alloc, script, &events[..place], &events[place])?)?;
    }
    Ok(Value::Array(made))
}
