//! What a worker lists of its last run.
ghost use Rattle.std.specs.Prelude.{◌≡◌, ◌↔◌, ℕ, ◌<◌, ◌≤◌, suc, true, false, [], IfOk, List, vec_capacity};
ghost use Rattle.steps.specs.{cells_in, total, LiesIn};
ghost use Rattle.work.specs.Passes.{HasRooms, IsLaidOnce, Settled, woken_of};

use crate::marks::Marks;
use history::Req;
use std::alloc::{AllocError, Global};
use std::mem::swap;
use steps::Laid;

/// The lists of a worker, each with all its room from the start: the requests that its last run ended, and those that it took along
/// from the pipes that it gave back.
#[derive(Drop)]
pub struct Lists {
    pub(crate) took: Vec<Req>,
    /// From the source of a SPLICE, which has two pipes.
    pub(crate) source: Vec<Req>,
    /// From its target, or from the one pipe of another request.
    pub(crate) woken: Vec<Req>,
    pub(crate) marks: Marks,
}

impl Lists {
    /// Empty lists, for rings of which the widest has this many cells beside one, and which have this many in all.
    pub fn new(alloc: Global, others: usize, cells: usize) -> Result<Box<Lists>, AllocError>
        ensures { IfOk result (λ l. (K : List ℕ) → ((i : ℕ) → cells_in K i ≤ suc others) → total K ≡ cells → HasRooms K l.value) }
    {
        let took = Vec::with_capacity(alloc, others)?;
        let source = Vec::with_capacity(alloc, cells)?;
        let woken = Vec::with_capacity(alloc, cells)?;
        let marks = Marks::new(alloc)?;
        let lists = Self {
            took,
            source,
            woken,
            marks,
        };
        Ok(Box::new(alloc, lists)?)
    }

    /// Empties the lists of those that were taken along.
    pub(crate) fn rest(&mut self)
        ensures emptied { (self.new.source.items ≡ []) × (self.new.woken.items ≡ []) }
        ensures same { (self.new.took ≡ self.old.took) × (self.new.marks ≡ self.old.marks) }
        ensures rooms { (K : List ℕ) → HasRooms K self.old → HasRooms K self.new }
    {
        self.source.clear();
        self.woken.clear();
    }

    /// Empties them all.
    pub(crate) fn clear(&mut self)
        ensures emptied { (self.new.took.items ≡ []) × (woken_of self.new ≡ []) }
        ensures marks { self.new.marks ≡ self.old.marks }
        ensures rooms { (K : List ℕ) → HasRooms K self.old → HasRooms K self.new }
    {
        self.rest();
        self.took.clear();
    }
}

/// What a run does with those that lie with a pipe that it has in hand. Where it has an answer it takes all of them along. Else it
/// lays its own request down there, and takes the others along only where there is no place left.
#[tactic(auto, using(crate::proofs::LyingThere::lies_last))]
pub(crate) fn settle(lying: &mut Vec<Req>, out: &mut Vec<Req>, req: Req, answered: bool) -> Laid
    requires empty { out.old.items ≡ [] }
    requires room { (vec_capacity lying.old ≡ vec_capacity out.old) × (0 < vec_capacity out.old) }
    ensures settled { Settled result req answered lying.old.items lying.new.items out.new.items }
    ensures room { (vec_capacity lying.new ≡ vec_capacity lying.old) × (vec_capacity out.new ≡ vec_capacity out.old) }
{
    if answered {
        swap(lying, out);
        return Laid::NoRequest;
    }
    if lying.len() < lying.capacity() {
        lying.push_reserved(req);
        return Laid::Behind;
    }
    swap(lying, out);
    lying.push_reserved(req);
    Laid::Alone
}

/// Whether the request is among these.
fn lies(lying: &[Req], req: Req) -> bool
    ensures exact { (result ≡ true) ↔ LiesIn lying.now req }
{
    lying.contains(&req)
}

/// The same for a request that may lie there already, as a SPLICE that was taken out of its other pipe alone. It stays there, and is
/// not laid down a second time.
pub(crate) fn settle_once(
    lying: &mut Vec<Req>,
    out: &mut Vec<Req>,
    req: Req,
    answered: bool,
) -> Laid
    requires empty { out.old.items ≡ [] }
    requires room { (vec_capacity lying.old ≡ vec_capacity out.old) × (0 < vec_capacity out.old) }
    ensures settled { Settled result req answered lying.old.items lying.new.items out.new.items }
    ensures once { answered ≡ false → IsLaidOnce result req lying.old.items }
    ensures room { (vec_capacity lying.new ≡ vec_capacity lying.old) × (vec_capacity out.new ≡ vec_capacity out.old) }
{
    if !answered && lies(lying, req) {
        return Laid::NoRequest;
    }
    settle(lying, out, req, answered)
}
