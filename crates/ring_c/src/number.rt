//! The number of a request, as C has it.
ghost use Rattle.std.specs.Prelude.{◌≡◌, ◌<◌, ◌+◌, ◌++◌, ◌∷◌, [], drop, map, take, length};
ghost use Rattle.ring_c.specs.{number_for, Shows};

use crate::code::Code;
use history::Req;

/// A request: the `k`-th of its ring.
#[repr(C)]
#[derive(Clone, Copy)]
pub struct Number {
    pub ring: u16,
    pub k: u64,
}

/// Puts the number of a request after the first `count` of the list.
pub(crate) fn put_number(list: &mut [Number], count: usize, req: Req)
    requires { count < length list.old }
    ensures put { take (count + 1) list.new ≡ take count list.old ++ number_for req ∷ [] }
    ensures rest { drop (count + 1) list.new ≡ drop (count + 1) list.old }
    ensures length { length list.new ≡ length list.old }
{
    list[count] = Number {
        ring: req.ring,
        k: req.k,
    };
}

/// Copies the numbers of these requests.
pub(crate) fn copy_numbers(reqs: &[Req], list: &mut [Number]) -> Result<u64, Code>
    ensures { Shows (map number_for reqs.now) list.old list.new result }
{
    if list.len() < reqs.len() {
        return Err(Code::Length);
    }
    for i in 0..reqs.len() {
        put_number(list, i, reqs[i]);
    }
    Ok(reqs.len() as u64)
}
