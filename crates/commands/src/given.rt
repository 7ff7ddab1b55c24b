//! The bytes of the tables that a command is given.
ghost use Rattle.std.specs.Prelude.{◌≡◌, ◌⊎◌, map, IfErr, IfOk};
ghost use Rattle.commands.specs.Given.{given_of, AreRead};
ghost use Rattle.commands.specs.declared.problem.Problem.{Problem};

use crate::problem::Problem;
use std::alloc::Global;
use std::io::Read;
use streams::read_all;

/// The names of tables, with all bytes of their readers.
pub fn read_each<'a, T: Read + Drop>(
    alloc: Global,
    tables: Vec<(&'a str, T)>,
) -> Result<Vec<(&'a str, Vec<u8>)>, Problem>
    ensures read { IfOk result (λ given. AreRead (map (λ t. (t.0.now, T.remaining t.1)) tables.entry.items) (map given_of given.items)) }
    ensures problem { IfErr result (λ p. (p ≡ Problem.Input) ⊎ (p ≡ Problem.Memory)) }
{
    let mut left = tables;
    let mut given = Vec::new(alloc);
    while let Some((name, mut table)) = left.pop() {
        let bytes = read_all(alloc, &mut table)?;
        given.push((name, bytes))?;
    }
    given.reverse();
    Ok(given)
}
