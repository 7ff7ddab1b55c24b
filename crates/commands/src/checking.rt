//! Tables, checked.
ghost use Rattle.std.specs.Prelude.{◌≡◌, ◌↔◌, ◌⊎◌, ℕ, ℤ, List, None, map, IfErr, IfOk};
ghost use Rattle.script.specs.{rows_of, IsTableOf};
ghost use Rattle.explore.specs.{Among, HasStates};
ghost use Rattle.explore.specs.Noted.{Noted};
ghost use Rattle.commands.specs.Status.{IsOfMemory};
ghost use Rattle.checks.specs.Verdicts.{IsVerdict};
ghost use Rattle.pictures.specs.Shown.{verdict_of};
ghost use Rattle.commands.specs.{given_of, verdicts_status, verdicts_text, AreVerdicts, IsCheckText, IsOfFile, IsOfFiles, IsOfLimit};

use crate::answer::Reply;
use crate::problem::Problem;
use checks::{are_listed, read_tables};
use explore::{Observer, Script, Survey, Table, survey_script_observed};
use std::alloc::Global;

/// Whether the tables that these bytes are, are all among those of the script.
fn verdict_on(
    alloc: Global,
    script: &Script,
    listed: &[Table],
    bytes: &[u8],
) -> Result<bool, Problem>
    requires { (rows : List (ℤ × List ℕ)) → IsTableOf script.now rows ↔ Among rows (map rows_of listed.now) }
    ensures verdict { IfOk result (IsVerdict script.now bytes.now) }
    ensures explains { IfErr result (IsOfFile script.now bytes.now) }
{
    let tables = read_tables(alloc, script, bytes)?;
    Ok(are_listed(listed, &tables))
}

/// Whether these bytes are tables.
fn is_file(alloc: Global, script: &Script, bytes: &[u8]) -> Result<(), Problem>
    ensures { IfErr result (IsOfFile script.now bytes.now) }
{
    let _tables = read_tables(alloc, script, bytes)?;
    Ok(())
}

/// Whether all files are tables: they are read once before the search, so that a fault of one is told before it.
fn are_files(alloc: Global, script: &Script, given: &[(&str, Vec<u8>)]) -> Result<(), Problem>
    ensures explains { IfErr result (IsOfFiles script.now (map given_of given.now)) }
{
    for one in given {
        is_file(alloc, script, &one.1)?;
    }
    Ok(())
}

/// The verdict on each file.
fn verdicts_on<'a>(
    alloc: Global,
    script: &Script,
    listed: &[Table],
    given: &[(&'a str, Vec<u8>)],
) -> Result<Vec<(&'a str, bool)>, Problem>
    requires { (rows : List (ℤ × List ℕ)) → IsTableOf script.now rows ↔ Among rows (map rows_of listed.now) }
    ensures verdicts { IfOk result (λ made. AreVerdicts script.now (map given_of given.now) (map verdict_of made.items)) }
    ensures explains { IfErr result (IsOfFiles script.now (map given_of given.now)) }
{
    let mut made = Vec::new(alloc);
    for one in given {
        let verdict = verdict_on(alloc, script, listed, &one.1)?;
        made.push((one.0, verdict))?;
    }
    Ok(made)
}

/// 0 where all verdicts are yes, else 3.
fn status_of(verdicts: &[(&str, bool)]) -> u8
    ensures { result ≡ verdicts_status (map verdict_of verdicts.now) }
{
    for one in verdicts {
        if !one.1 {
            return 3;
        }
    }
    0
}

/// What is told of these verdicts.
fn verdicts_text(alloc: Global, verdicts: &[(&str, bool)], json: bool) -> Result<Vec<u8>, Problem>
    ensures text { IfOk result (λ text. text.items ≡ verdicts_text json (map verdict_of verdicts.now)) }
    ensures memory { IfErr result IsOfMemory }
{
    if json {
        Ok(pictures::write_verdicts(alloc, verdicts)?)
    } else {
        Ok(pictures::verdicts_text(alloc, verdicts)?)
    }
}

/// Whether the tables of each file are the script's, by one search.
pub(crate) fn check_text<O: Observer>(
    alloc: Global,
    script: &Script,
    given: &[(&str, Vec<u8>)],
    limit: u32,
    json: bool,
    observer: &mut O,
) -> Result<Reply, Problem>
    ensures prints { IfOk result (λ reply. IsCheckText script.now json (map given_of given.now) reply.status reply.text.items) }
    ensures stats { IfOk result (λ reply. reply.stats ≡ None) }
    ensures explains { IfErr result (λ p. IsOfFiles script.now (map given_of given.now) p ⊎ IsOfLimit script.now limit p) }
    ensures noted { Noted O.notes (HasStates script.now) observer.old observer.new }
{
    are_files(alloc, script, given)?;
    let Survey { tables, .. } = survey_script_observed(alloc, script, limit, observer)?;
    let verdicts = verdicts_on(alloc, script, &tables, given)?;
    let text = verdicts_text(alloc, &verdicts, json)?;
    Ok(Reply {
        text,
        status: status_of(&verdicts),
        stats: None,
    })
}
