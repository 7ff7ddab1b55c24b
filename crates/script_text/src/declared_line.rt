//! Entry lines by the labels that they declare.
ghost use Rattle.std.specs.Prelude.{◌≡◌};
ghost use Rattle.script.specs.Rules.{is_label};
ghost use Rattle.script_text.specs.{all_stated, label_faults, target_faults, target_in, KeepsFault, with_faults};

use crate::fault::Fault;
use crate::faults::Faults;
use crate::keyword::Kind;
use crate::labels::Labels;
use crate::options::{is_user_data, user_data_in};
use script::is_label;

/// An entry line, with the label that it declares.
#[derive(Drop)]
pub struct Declared<'a> {
    pub label: &'a [u8],
    pub kind: Kind,
    pub user_data: u64,
}

/// Notes the faults of a word that names an entry line.
pub fn note_label<'a>(faults: &mut Faults, labels: &Labels<'a>, word: &'a [u8])
    ensures stays { KeepsFault faults.old.least faults.new.least }
    ensures is_first { faults.new.least ≡ with_faults faults.old.least (label_faults (all_stated labels.now.lines.items) word.now) }
{
    faults.note_if(!is_label(word), Fault::BadLabel);
    if labels.line_of(word).is_none() {
        faults.note(Fault::UnknownLabel);
    }
}

/// Notes the faults of a TARGET.
pub fn note_target<'a>(faults: &mut Faults, labels: &Labels<'a>, word: &'a [u8])
    ensures stays { KeepsFault faults.old.least faults.new.least }
    ensures is_first { faults.new.least ≡ with_faults faults.old.least (target_faults (all_stated labels.now.lines.items) word.now) }
{
    if is_user_data(word) {
        faults.note_if(user_data_in(word).is_none(), Fault::BadNumber);
    } else {
        note_label(faults, labels, word);
    }
}

/// The user_data that a TARGET stands for: `ud=NUMBER`, or that of the entry line with the label. 0 where it has a fault.
pub fn target_in<'a>(labels: &Labels<'a>, word: &'a [u8]) -> u64
    ensures { result ≡ target_in (all_stated labels.now.lines.items) word.now }
{
    if is_user_data(word) {
        user_data_in(word).unwrap_or(0)
    } else {
        match labels.line_of(word) {
            Some(line) => line.user_data,
            None => 0,
        }
    }
}
