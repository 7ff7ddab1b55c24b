//! The chains of a ring, read off its requests in the order of submission.
ghost use Rattle.std.specs.Prelude.{◌≡◌, ◌<◌, ◌≤◌, ◌⊎◌, length};
ghost use Rattle.entry.specs.Entry.{fails_op};
ghost use Rattle.model.specs.{placed_in, handed_in, with_op, severs_at, severed_in, chain_done};

use crate::request::Request;
use entry::{Op, Sqe, fails};

/// The reply is a failure of the entry, which was placed as it was handed in, or as Invalid.
fn fails_as(sqe: &Sqe, op: Op, res: i32) -> bool
    requires { (op ≡ sqe.now.op) ⊎ (op ≡ Op.Invalid) }
    ensures { result ≡ fails_op op res }
{
    if op == Op::Invalid {
        res < 0
    } else {
        fails(sqe, res)
    }
}

/// The operation of the request `k`, as it was placed.
pub fn placed_op(requests: &[Request], k: usize) -> Op
    requires { k < length requests.now }
    ensures { placed_in requests.now k ≡ with_op (handed_in requests.now k) result }
{
    let op = requests[k].sqe.op();
    if op.is_link_timeout() && (k == 0 || !requests[k - 1].hosts()) {
        Op::Invalid
    } else {
        op
    }
}

/// The request `k` was answered so that the rest of its chain is ended.
#[tactic(auto, using(crate::proofs::RingReading::placed_ops))]
pub fn severs(requests: &[Request], k: usize) -> bool
    requires { k < length requests.now }
    ensures { result ≡ severs_at requests.now k }
{
    let op = placed_op(requests, k);
    let request = &requests[k];
    match request.stage.reply() {
        Some(res) => fails_as(&request.sqe, op, res)
            && (!request.sqe.links_hard() || op == Op::Invalid),
        None => false,
    }
}

/// An earlier member of the chain of the request `k` ended the rest.
#[tactic(auto, using(crate::proofs::RingReading::joins_kept, crate::proofs::RingReading::severed_unjoined, crate::proofs::RingReading::severed_here, crate::proofs::RingReading::severed_before))]
pub fn is_severed(requests: &[Request], k: usize) -> bool
    requires { k ≤ length requests.now }
    ensures { result ≡ severed_in requests.now k }
{
    let mut m = k;
    while m > 0 {
        m -= 1;
        if !requests[m].joins() {
            return false;
        }
        if severs(requests, m) {
            return true;
        }
    }
    false
}

/// All earlier members of the chain of the request `k` were answered.
pub fn is_chain_done(requests: &[Request], k: usize) -> bool
    requires { k ≤ length requests.now }
    ensures { result ≡ chain_done requests.now k }
{
    let mut m = k;
    while m > 0 {
        m -= 1;
        if !requests[m].joins() {
            return true;
        }
        if requests[m].stage.is_pending() {
            return false;
        }
    }
    true
}
