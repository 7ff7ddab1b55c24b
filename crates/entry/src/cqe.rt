//! A completion queue entry.
ghost use Rattle.std.specs.Prelude.{Some, codes, decimal, ◌++◌, ◌≡◌, ◌==◌, ◌↔◌, ◌≢◌, IfSome, IsNone, IsTrue, ◌&&◌};
ghost use Rattle.std.specs.Fmt.{signed_decimal};
ghost use Rattle.entry.specs.declared.cqe.Cqe.{Cqe};
ghost use Rattle.entry.specs.{is_i32, is_u64, cqe_text, number_at};

use crate::field::{i32_at, put_i32, put_u64, u32_at, u64_at};
use std::fmt;

/// A completion: the user_data of the entry, and its reply. A negative reply is an error number of errno(3).
#[derive(Clone, Copy, PartialEq, Eq, Debug)]
pub struct Cqe {
    pub user_data: u64,
    pub res: i32,
}

impl fmt::Display for Cqe {
    ghost output = { λ c. Some (codes "ud " ++ (decimal c.user_data ++ (codes " res " ++ signed_decimal c.res))) };

    fn fmt<W: fmt::Write>(&self, f: &mut fmt::Formatter<W>) -> fmt::Result {
        let (user_data, res) = (self.user_data, self.res);
        write!(f, "ud {user_data} res {res}")
    }
}

impl Cqe {
    /// The completion's 16 bytes.
    pub fn to_bytes(&self) -> [u8; 16]
        ensures { result ≡ cqe_text self.now }
    {
        let mut bytes = [0; 16];
        put_u64(&mut bytes, 0, self.user_data);
        put_i32(&mut bytes, 8, self.res);
        bytes
    }

    /// The completion of these bytes: None where the flags word isn't 0.
    pub fn of_bytes(bytes: &[u8; 16]) -> Option<Cqe>
        ensures none { IsNone result ↔ (number_at 12 4 bytes.now ≢ 0) }
        ensures some { IfSome result (λ c. bytes.now ≡ cqe_text c) }
        ensures again { (c : Cqe) → IsTrue (is_u64 c.user_data) → IsTrue (is_i32 c.res) → bytes.now ≡ cqe_text c → result ≡ Some c }
    {
        if u32_at(bytes, 12) != 0 {
            return None;
        }
        Some(Cqe {
            user_data: u64_at(bytes, 0),
            res: i32_at(bytes, 8),
        })
    }
}
