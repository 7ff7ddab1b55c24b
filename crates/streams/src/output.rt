//! Bytes written out.
ghost use Rattle.std.specs.Prelude.{◌<◌, ◌≤◌, take, length, Ok, IfOk, OnOk, IfErr, OnErr};
ghost use Rattle.std.specs.Io.KnownBytes.{Appends, Keeps};
ghost use Rattle.streams.specs.{FailedToWrite, IsOfWrite, WriteGave, WroteAll, AppendsBeginning, IsNotInterruptedWrite};

use crate::fault::OutputFault;
use crate::stream::Sink;
use std::io;
use std::io::ErrorKind;

/// Writes all bytes out, in order, as write(2) takes them: where it takes fewer, the rest is written next, and a write that a
/// signal interrupts is tried again. The first write that fails or takes nothing ends it; the writer then has a beginning of the
/// bytes. The writer isn't flushed.
pub fn write_out<W: Sink>(out: &mut W, bytes: &[u8]) -> Result<(), OutputFault>
    ensures all { OnOk result (Appends (W.contents out.old) (W.contents out.new) bytes.now) }
    ensures beginning { OnErr result (AppendsBeginning (W.contents out.old) (W.contents out.new) bytes.now) }
    ensures retried { IfErr result IsNotInterruptedWrite }
    ensures course { OnOk result (WroteAll W.gives bytes.now out.old out.new) }
    ensures told { IfErr result (FailedToWrite W.gives bytes.now out.old out.new) }
{
    let mut rest = bytes;
    while !rest.is_empty() {
        let count = write_some(out, rest)?;
        rest = &rest[count..];
    }
    Ok(())
}

/// One write of some first bytes, tried again where it is interrupted. The answer is how many went out.
fn write_some<W: Sink>(out: &mut W, bytes: &[u8]) -> Result<usize, OutputFault>
    ensures some { IfOk result (λ count. (0 < count) × (count ≤ length bytes.now)) }
    ensures front { IfOk result (λ count. Appends (W.contents out.old) (W.contents out.new) (take count bytes.now)) }
    ensures unchanged { OnErr result (Keeps (W.contents out.old) (W.contents out.new)) }
    ensures retried { IfErr result IsNotInterruptedWrite }
    ensures gave { IfOk result (λ count. WriteGave W.gives bytes.now out.old (Ok count) out.new) }
    ensures told { IfErr result (IsOfWrite W.gives bytes.now out.old out.new) }
{
    for _try in 0..u64::MAX {
        match out.put(bytes) {
            Ok(0) => return Err(OutputFault::WriteZero),
            Ok(count) => return Ok(count),
            Err(error) if error.kind() == ErrorKind::Interrupted => {}
            Err(error) => return Err(OutputFault::Output(error)),
        }
    }
    Err(OutputFault::Output(io::Error::from(ErrorKind::TimedOut)))
}
