//! The report that a handle leads to, line by line.
ghost use Rattle.std.specs.Prelude.{◌≡◌, IfErr};
ghost use Rattle.ring_c.specs.Reports.{GivesLineBytes, TellsLine};

use crate::batch::copy_bytes;
use crate::code::Code;
use crate::inside::Inside;
use crate::results::Line;

/// The report's line with this index.
pub(crate) fn line_in(inside: &Inside, index: u64) -> Result<Line, Code>
    ensures { TellsLine index inside.now inside.now result }
{
    let Inside::Report(report) = inside else {
        return Err(Code::WrongKind);
    };
    let lines = report.lines();
    if lines.len() as u64 <= index {
        return Err(Code::Missing);
    }
    let (completion, is_cut) = &lines[index as usize];
    Ok(Line {
        code: 0,
        res: completion.cqe.res,
        user_data: completion.cqe.user_data,
        k: completion.req.k,
        length: completion.buffer.len() as u64,
        ring: completion.req.ring,
        is_cut: u16::from(*is_cut),
    })
}

/// Copies the buffer of the report's line with this index.
pub(crate) fn line_bytes_in(inside: &Inside, index: u64, out: &mut [u8]) -> Result<u64, Code>
    ensures bytes { GivesLineBytes index out.old out.new inside.now inside.now result }
    ensures still { IfErr result (λ _. out.new ≡ out.old) }
{
    let Inside::Report(report) = inside else {
        return Err(Code::WrongKind);
    };
    let lines = report.lines();
    if lines.len() as u64 <= index {
        return Err(Code::Missing);
    }
    let (completion, _) = &lines[index as usize];
    copy_bytes(completion.buffer.as_slice(), out)
}
