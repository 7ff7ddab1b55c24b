//! A command carried out over the files that it names.
ghost use Rattle.std.specs.Prelude.{◌≡◌, ◌≤◌, ◌⊎◌, ℕ, List, Option, map, IfErr, IfOk};
ghost use Rattle.commands.specs.declared.problem.Problem.{Problem};
ghost use Rattle.commands.specs.Ends.{Ends};
ghost use Rattle.commands.specs.Served.{AreTablesAt, IsClosed, IsOpened};

use crate::answer::perform;
use crate::inputs::Inputs;
use crate::problem::Problem;
use crate::told::{Console, tell};
use command_line::Invocation;
use std::alloc::Global;
use std::io::{Read, Write};
use std::sync::Wait;
use std::thread::Threads;
use std::time::Clock;

/// The files of these names, opened.
fn open_each<'a, R: Inputs>(
    rt: &R,
    alloc: Global,
    names: &[&'a str],
) -> Result<Vec<(&'a str, R::File)>, Problem>
    ensures opened { IfOk result (λ made. AreTablesAt (R.opens rt.now) R.File.remaining (map (λ s. s.now) names.now) (map (λ t. (t.0.now, R.File.remaining t.1)) made.items)) }
    ensures problem { IfErr result (λ p. (p ≡ Problem.Input) ⊎ (p ≡ Problem.Memory)) }
{
    let mut made = Vec::new(alloc);
    for name in names {
        match rt.file(name) {
            Ok(file) => made.push((*name, file))?,
            Err(_) => return Err(Problem::Input),
        }
    }
    Ok(made)
}

/// Carries a job out: opens its script, which may be standard input, and its tables, and performs its job. The status is that of
/// `perform`; a file that can't be opened is a fault of input, reported before the script is read.
pub fn serve<
    T: Threads + Wait + Copy + Send + Sync + 'static + Clock,
    R: Inputs + AllocGlobal,
    W: Write,
    E: Write,
>(threads: &T, rt: &R, invocation: &Invocation<'_>, console: &mut Console<W, E>) -> u8
    ensures bound { result ≤ 3 }
    ensures ends { IsClosed (W.contents console.old.out) (W.contents console.new.out) (E.contents console.old.err) (E.contents console.new.err) result ⊎ IsOpened (R.stands rt.now) R.Standard.remaining (R.opens rt.now) R.File.remaining invocation.now.job invocation.now.file.now (map (λ s. s.now) invocation.now.tables.items) (W.contents console.old.out) (W.contents console.new.out) (E.contents console.old.err) (E.contents console.new.err) result }
{
    if invocation.file == "-" {
        let mut script = rt.standard();
        return serve_script(threads, rt, invocation, &mut script, console);
    }
    match rt.file(invocation.file) {
        Ok(mut script) => serve_script(threads, rt, invocation, &mut script, console),
        Err(_) => tell(&Problem::Input, &mut console.err),
    }
}

/// Carries a job out over its opened script.
fn serve_script<
    T: Threads + Wait + Copy + Send + Sync + 'static + Clock,
    R: Inputs + AllocGlobal,
    S: Read,
    W: Write,
    E: Write,
>(
    threads: &T,
    rt: &R,
    invocation: &Invocation<'_>,
    script: &mut S,
    console: &mut Console<W, E>,
) -> u8
    ensures bound { result ≤ 3 }
    ensures ends { IsClosed (W.contents console.old.out) (W.contents console.new.out) (E.contents console.old.err) (E.contents console.new.err) result ⊎ ((tables : List (List ℕ × Option (List ℕ))) × AreTablesAt (R.opens rt.now) R.File.remaining (map (λ s. s.now) invocation.now.tables.items) tables × Ends invocation.now.job (S.remaining script.old) tables (W.contents console.old.out) (W.contents console.new.out) (E.contents console.old.err) (E.contents console.new.err) result) }
{
    let (alloc, job) = (rt.alloc(), &invocation.job);
    match open_each(rt, alloc, &invocation.tables) {
        Ok(tables) => perform(threads, alloc, job, script, tables, console),
        Err(problem) => tell(&problem, &mut console.err),
    }
}
