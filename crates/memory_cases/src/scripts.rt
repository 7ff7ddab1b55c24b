//! Scripts, tables, outcomes and histories.
use crate::lines::{Call, Lines, Shown};
use explore::{Script, Table, find_history, outcomes};
use history::Event;
use script_text::{read_script, read_table, write_history, write_table};
use std::alloc::Global;

/// A READ of an empty pipe and its cancel, in a chain with a timer, and a second ring whose lines the clock waits for.
const SCRIPT: &[u8] =
    b"pipe 16\nring 4\nring 4\non 0\nread r 0 4 link\nlink-timeout t 5\ncancel c r\nsubmit\nwait c\non 1\nwrite w 1 ab\nsubmit\non clock\nwait w\ntick 5\n";

/// A table of it.
const TABLE: &[u8] = b"r -125\nt -125\nc 0\nw 2\n";

/// How many states a search may meet.
const LIMIT: u32 = 10_000;

/// A call on the script or its table.
#[derive(Clone, Copy)]
enum Asked {
    Script,
    Table,
    Text,
    Outcomes,
    History,
}

/// A call, with the words for the number that it gives.
const ASKED: &[(&str, &str, Asked)] = &[
    ("read_script", " entries ", Asked::Script),
    ("read_table", " lines ", Asked::Table),
    ("write_table", " as it was read ", Asked::Text),
    ("outcomes", " tables ", Asked::Outcomes),
    ("find_history", " events ", Asked::History),
];

/// A script and its table, the call that is made, and what it gave.
#[derive(Drop)]
struct Search {
    alloc: Global,
    asked: (&'static str, Asked),
    script: Script,
    table: Table,
    tables: Vec<Table>,
    events: Vec<Event>,
}

/// How many entries or lines were read, or whether the table is written as it was read.
fn counted(
    alloc: Global,
    asked: Asked,
    script: &Script,
    table: &Table,
    gave: &mut Shown,
) -> Option<u64> {
    Some(match asked {
        Asked::Script => gave.got(read_script(alloc, SCRIPT))?.entries.len() as u64,
        Asked::Table => gave.got(read_table(alloc, script, TABLE))?.lines.len() as u64,
        _ => u64::from(gave.got(write_table(alloc, script, table))?.as_slice() == TABLE),
    })
}

impl Search {
    /// Makes the call, and keeps what it gave: how much it gave.
    fn find(&mut self, alloc: Global, gave: &mut Shown) -> Option<u64> {
        match self.asked.1 {
            Asked::Outcomes => {
                self.tables = gave.got(outcomes(alloc, &self.script, LIMIT))?;
                Some(self.tables.len() as u64)
            }
            Asked::History => {
                self.events = gave.got(find_history(alloc, &self.script, &self.table, LIMIT))??;
                Some(self.events.len() as u64)
            }
            asked => counted(alloc, asked, &self.script, &self.table, gave),
        }
    }
}

impl Call<()> for Search {
    fn make(&mut self, _rt: &(), alloc: Global, gave: &mut Shown) -> bool {
        let count = self.find(alloc, gave);
        gave.count_if(self.asked.0, count)
    }

    fn show(&self, shown: &mut Shown) {
        for table in self.tables.as_slice() {
            show_table(self.alloc, &self.script, table, shown);
        }
        show_history(self.alloc, &self.script, self.events.as_slice(), shown);
    }
}

/// Tells the lines of a table.
fn show_table(alloc: Global, script: &Script, table: &Table, gave: &mut Shown) {
    gave.text(" /");
    let Ok(bytes) = write_table(alloc, script, table) else {
        return;
    };
    if let Ok(text) = String::from_utf8(bytes) {
        for line in text.as_str().trim_end().split('\n') {
            gave.text(" ");
            gave.text(line);
        }
    }
}

/// Tells how long the text of a history is.
fn show_history(alloc: Global, script: &Script, events: &[Event], gave: &mut Shown) {
    match write_history(alloc, script, events) {
        Ok(text) if text.len() > 0 => gave.count(" bytes ", text.len() as u64),
        _ => {}
    }
}

/// The script and its table.
fn search_of(alloc: Global) -> Option<Search> {
    let script = read_script(alloc, SCRIPT).ok()?;
    let table = read_table(alloc, &script, TABLE).ok()?;
    Some(Search {
        alloc,
        asked: ("", Asked::Script),
        script,
        table,
        tables: Vec::new(alloc),
        events: Vec::new(alloc),
    })
}

/// The calls on a script and its table.
pub(crate) fn try_scripts(lines: &mut Lines) {
    if let Some(mut search) = search_of(lines.alloc) {
        for (name, words, asked) in ASKED {
            search.asked = (words, *asked);
            search.tables.clear();
            lines.try_call(&(), name, &mut search);
        }
        drop(search);
    }
}
