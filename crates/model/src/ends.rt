//! The ends of pipes.
ghost use Rattle.std.specs.Prelude.{◌≡◌};
ghost use Rattle.history.specs.Pipes.{end_of};
ghost use Rattle.model.specs.Ends.{end_as};

/// The end of a pipe that an fd names. The pipe need not be there.
#[derive(Clone, Copy)]
pub enum NamedEnd {
    Nothing,
    Read(usize),
    Write(usize),
}

pub fn named_end(fd: i32) -> NamedEnd
    ensures { end_as result ≡ end_of fd }
{
    if fd < 0 {
        return NamedEnd::Nothing;
    }
    let n = fd.unsigned_abs() as usize;
    if n % 2 == 0 {
        NamedEnd::Read(n / 2)
    } else {
        NamedEnd::Write(n / 2)
    }
}
