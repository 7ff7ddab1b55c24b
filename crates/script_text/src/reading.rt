//! Scripts read from their text.
ghost use Rattle.std.specs.Prelude.{◌≡◌, ◌≤◌, [], length, reverse, IfOk, IfErr, OnOk, All};
ghost use Rattle.script_text.specs.{all_stated, IsFaultOf, Outlines, faults_here, IsEven, Stands, Takes, HasNoFault, IsFaultless, IsScriptOf, IsToldHere, IsToldOf, IsToldOfText, SaysScript, stated_in, first_of, sentence, sentences, IsPlain, text_lines};

use crate::fault::ScriptFault;
use crate::line::{Line, read_lines};
use crate::line_faults::first_fault;
use crate::outline::Outline;
use crate::parts::Parts;
use crate::words::lines_of;
use script::Script;
use std::alloc::{AllocError, Global};

/// The script that a text writes. Of all faults the one on the least line is reported, and of one line's faults
/// the first in the list of `Fault`.
pub fn read_script(alloc: Global, bytes: &[u8]) -> Result<Script, ScriptFault>
    // What is accepted is the script that the text says, line by line, and no line of it has a fault.
    ensures says { IfOk result (SaysScript bytes.now) }
    // A text without a fault is accepted, want of memory apart.
    ensures accepted { HasNoFault bytes.now → IfErr result (λ fault. fault ≡ ScriptFault.Memory) }
    // What is reported is the first fault in the list of the least line that has one, or that memory ran out.
    ensures told { IfErr result (IsToldOfText bytes.now) }
    // What is accepted has no other bytes than line feeds and those from 0x20 to 0x7e.
    ensures plain { OnOk result (All IsPlain (text_lines bytes.now)) }
    // Each entry has its own line.
    ensures entries { IfOk result (λ script. length script.entries.items ≤ length (text_lines bytes.now)) }
    ensures fault { IfErr result (IsFaultOf bytes.now) }
{
    let texts = lines_of(alloc, bytes)?;
    let lines = read_lines(alloc, &texts)?;
    script_of(alloc, &lines)
}

/// The script that lines write.
fn script_of(alloc: Global, lines: &[Line<'_>]) -> Result<Script, ScriptFault>
    requires { 1 ≤ length (sentences lines.now) }
    ensures faultless { OnOk result (IsFaultless (sentences lines.now)) }
    ensures says { IfOk result (IsScriptOf (sentences lines.now)) }
    ensures told { IfErr result (IsToldOf (sentences lines.now)) }
{
    let outline = Outline::of(alloc, lines)?;
    let parts = parts_of(alloc, &outline, lines)?;
    let Some(script) = parts.script(alloc)? else {
        unreachable!()
    };
    Ok(script)
}

/// The parts of the script that lines write.
fn parts_of<'a>(
    alloc: Global,
    outline: &Outline<'a>,
    lines: &[Line<'a>],
) -> Result<Parts, ScriptFault>
    requires { Outlines (reverse (sentences lines.now)) outline.now }
    ensures faultless { OnOk result (IsFaultless (sentences lines.now)) }
    ensures stands { IfOk result (Stands (stated_in (reverse (sentences lines.now))) (reverse (sentences lines.now))) }
    ensures told { IfErr result (IsToldOf (sentences lines.now)) }
{
    let mut parts = Parts::new(alloc);
    let mut number = 0u64;
    for line in lines {
        number = number.saturating_add(1);
        take_line(alloc, &mut parts, outline, number, line)?;
    }
    Ok(parts)
}

/// Takes the line of a number in, or reports its first fault.
fn take_line<'a>(
    alloc: Global,
    parts: &mut Parts,
    outline: &Outline<'a>,
    number: u64,
    line: &Line<'a>,
) -> Result<(), ScriptFault>
    requires even { IsEven parts.old }
    // A line that is taken has no fault.
    ensures none { OnOk result (faults_here parts.old outline.now number (sentence line.now) ≡ []) }
    ensures takes { OnOk result (Takes (all_stated outline.now.labels.lines.items) (first_of (sentence line.now)) (sentence line.now) parts.old parts.new) }
    // The fault that is reported is the first of the line's.
    ensures first { IfErr result (IsToldHere number (faults_here parts.old outline.now number (sentence line.now))) }
{
    if let Some(fault) = first_fault(&*parts, outline, number, line) {
        return Err(ScriptFault::Line {
            line: number,
            fault,
        });
    }
    parts.take(alloc, &outline.labels, line)?;
    Ok(())
}
