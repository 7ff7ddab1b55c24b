//! Bytes read in.
ghost use Rattle.std.specs.Prelude.{◌≡◌, ◌<◌, take, length, Ok, IfOk, OnOk, IfSome, IfErr, OnErr};
ghost use Rattle.std.specs.Io.{ReadsAtMost};
ghost use Rattle.std.specs.Io.KnownBytes.{Consumes, Keeps, IsAtEnd};
ghost use Rattle.streams.specs.{FailedToRead, IsOfRead, ReadGave, TookAll, ConsumesBeginning, IsNotInterruptedRead};

use crate::fault::InputFault;
use crate::stream::Source;
use std::alloc::Global;
use std::io;
use std::io::ErrorKind;

/// How many bytes one read asks for.
const CHUNK: usize = 8192;

/// All bytes of a reader, in order, to its end. A read that a signal interrupts is tried again. The first read that fails, or
/// bytes for which no room is found, end it; what was read by then is gone from the reader.
pub fn read_all<R: Source>(alloc: Global, reader: &mut R) -> Result<Vec<u8>, InputFault>
    ensures all { IfOk result (λ bytes. IfSome (R.remaining reader.old) (λ there. bytes.items ≡ there)) }
    ensures taken { IfOk result (λ bytes. Consumes (R.remaining reader.old) (R.remaining reader.new) bytes.items) }
    ensures end { OnOk result (IsAtEnd (R.remaining reader.new)) }
    ensures beginning { OnErr result (ConsumesBeginning (R.remaining reader.old) (R.remaining reader.new)) }
    ensures retried { IfErr result IsNotInterruptedRead }
    ensures course { IfOk result (λ bytes. TookAll R.gives reader.old bytes.items reader.new) }
    ensures told { IfErr result (FailedToRead R.gives reader.old reader.new) }
{
    let mut bytes = Vec::new(alloc);
    let mut chunk = [0; CHUNK];
    loop {
        let count = read_some(reader, &mut chunk)?;
        if count == 0 {
            return Ok(bytes);
        }
        bytes.extend_from_slice(&chunk[..count])?;
    }
}

/// One read, tried again where it is interrupted. The answer is how many bytes stand at the front of the buffer.
fn read_some<R: Source>(reader: &mut R, buffer: &mut [u8]) -> Result<usize, InputFault>
    ensures bound { ReadsAtMost result buffer.new }
    ensures front { IfOk result (λ count. Consumes (R.remaining reader.old) (R.remaining reader.new) (take count buffer.new)) }
    ensures end { IfOk result (λ count. count ≡ 0 → 0 < length buffer.old → IsAtEnd (R.remaining reader.new)) }
    ensures unchanged { OnErr result (Keeps (R.remaining reader.old) (R.remaining reader.new)) }
    ensures retried { IfErr result IsNotInterruptedRead }
    ensures gave { IfOk result (λ count. ReadGave R.gives reader.old (Ok count) buffer.new reader.new) }
    ensures told { IfErr result (IsOfRead R.gives reader.old reader.new) }
{
    for _try in 0..u64::MAX {
        match reader.get(buffer) {
            Ok(count) => return Ok(count),
            Err(error) if error.kind() == ErrorKind::Interrupted => {}
            Err(error) => return Err(InputFault::Input(error)),
        }
    }
    Err(InputFault::Input(io::Error::from(ErrorKind::TimedOut)))
}
