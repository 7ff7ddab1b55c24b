//! The requests of one ring, with the replies so far.
ghost use Rattle.std.specs.Prelude.{◌≡◌, ◌↔◌, ◌⊎◌, IsTrue, ℕ, ◌+◌, ◌-◌, ◌^◌, ◌<◌, ◌≤◌, ◌++◌, ◌∷◌, [], List, Option, length, IsOk, IfOk, OnOk, OnErr, IfSome, Some, None};
ghost use Rattle.history.specs.declared.event.Event.{Event};
ghost use Rattle.gates.specs.{Slot, starting, passes, is_pending, Kept, HasCell, Stands, added, new_slot, slot_with, stand_in, stand_ins, with_reply, Waits, waiting, way_in, asked_by, IsAnswer, IsBar, place_by, target_by, without_first, IsToldBy, free_by, link_in};
ghost use Rattle.history.specs.History.{IsReplied, phase};
ghost use Rattle.gates.specs.Shows.{nth, Shows, Mirrors, Trails, IsGate, IsAsked, IsTargetOf, HasFreeCell, IsOfChain, named_in, linked_in};

use crate::cell::{Behind, Cell};
use crate::cells::{
    cell_at, drain_after, first_draining, first_held, first_pending, last_pending, set_reply,
    spread,
};
use crate::error::{Memory, RowFull};
use crate::gate::{Asked, Gate};
use crate::traits::Traits;
use entry::Sqe;
use std::alloc::Global;
use std::collections::VecDeque;
use std::marker::Model;

/// The requests of one ring by number, from 0 on, as far as they have their cells, with the replies so far. Contracts see
/// what is kept, and when that stands for a list of entries and replies (`Stands`).
#[derive(Drop)]
pub struct Row {
    size: usize,
    /// How many requests have lost their cells to later ones.
    lost: u64,
    cells: VecDeque<Cell>,
    /// The place of the first request that has not replied.
    oldest: usize,
    /// The place of the first drain that has not replied.
    drain: usize,
    /// How many of the ring's first entries are plain, as it was told: they may be more than were added.
    plain: u64,
}

impl Model for Row {
    ghost use Rattle.std.specs.Prelude.{◌≤◌};
    ghost use Rattle.std.specs.VecDeque.{deque_capacity};
    ghost use Rattle.gates.specs.EntryRows.{Kept, IsSound};

    ghost Value = { Kept };

    ghost view = { λ r. record { size = r.size; lost = r.lost; cells = r.cells.items; oldest = r.oldest; drain = r.drain; plain = r.plain } };

    ghost invariant = { λ r. IsSound (record { size = r.size; lost = r.lost; cells = r.cells.items; oldest = r.oldest; drain = r.drain; plain = r.plain }) × (r.size ≤ deque_capacity r.cells) };
}

impl Row {
    /// An empty row of this many cells. Its room is made here, once.
    pub fn new(alloc: Global, cells: u32) -> Result<Row, Memory>
        requires least { 1 ≤ cells }
        requires most { cells ≤ 1024 }
        ensures size { IfOk result (λ r. r.size ≡ cells) }
        ensures empty { IfOk result (λ r. Stands [] r) }
        ensures count { IfOk result (λ r. added r ≡ 0) }
        ensures plain { IfOk result (λ r. r.plain ≡ 0) }
    {
        let size = cells as usize;
        match VecDeque::with_capacity(alloc, size) {
            Ok(cells) => Ok(Row {
                size,
                lost: 0,
                cells,
                oldest: 0,
                drain: 0,
                plain: 0,
            }),
            Err(_) => Err(Memory),
        }
    }

    /// The request `k` has replied, and the reply fails, or not (`entry::fails`).
    pub fn replied(&mut self, k: u64, fails: bool)
        requires { HasCell self.old k }
        ensures replied { (xs : List Slot) → Stands xs self.old → Stands (with_reply xs k fails) self.new }
        ensures size { self.new.size ≡ self.old.size }
        ensures plain { self.new.plain ≡ self.old.plain }
        ensures lost { self.new.lost ≡ self.old.lost }
        ensures count { added self.new ≡ added self.old }
        ensures fewer { (xs : List Slot) → Stands xs self.old → IsTrue (passes is_pending xs k) → waiting self.new < waiting self.old }
    {
        let j = (k - self.lost) as usize;
        set_reply(&mut self.cells, j, fails);
        spread(&mut self.cells, self.lost, j);
        self.oldest = first_pending(&self.cells, self.oldest);
        self.drain = first_draining(&self.cells, self.drain);
    }

    /// Adds the next entry of the ring, as it was handed in; `last` ends its batch. Gives its number. `RowFull` says that its
    /// cell isn't free: then nothing has changed.
    pub fn add(&mut self, sqe: Sqe, last: bool) -> Result<u64, RowFull>
        requires { added self.old < 2 ^ 64 - 1 }
        ensures number { IfOk result (λ k. k ≡ added self.old) }
        ensures cell { IfOk result (λ k. HasCell self.new k) }
        ensures added { OnOk result ((xs : List Slot) → Stands xs self.old → Stands (xs ++ new_slot sqe last ∷ []) self.new) }
        ensures free { (h : List Event) (i : ℕ) (xs : List Slot) → Stands xs self.old → Shows h i xs → IsOk result ↔ HasFreeCell h self.old.size (nth i (added self.old)) }
        ensures room { IsOk result ↔ (way_in self.old ≡ None) }
        ensures count { OnOk result (added self.new ≡ added self.old + 1) }
        ensures lost { OnOk result ((self.new.lost ≡ self.old.lost) ⊎ ((self.new.lost ≡ self.old.lost + 1) × (length self.old.cells ≡ self.old.size))) }
        ensures full { OnErr result (self.new ≡ self.old) }
        ensures size { self.new.size ≡ self.old.size }
        ensures plain { self.new.plain ≡ self.old.plain }
    {
        self.add_traits(Traits::of(&sqe), last)
    }

    /// The same for an entry of which these traits are known.
    #[inline(always)]
    pub fn add_traits(&mut self, traits: Traits, last: bool) -> Result<u64, RowFull>
        requires { added self.old < 2 ^ 64 - 1 }
        ensures number { IfOk result (λ k. k ≡ added self.old) }
        ensures cell { IfOk result (λ k. HasCell self.new k) }
        ensures added { OnOk result ((xs : List Slot) → Stands xs self.old → Stands (xs ++ slot_with traits last ∷ []) self.new) }
        ensures free { (h : List Event) (i : ℕ) (xs : List Slot) → Stands xs self.old → Shows h i xs → IsOk result ↔ HasFreeCell h self.old.size (nth i (added self.old)) }
        ensures room { IsOk result ↔ (way_in self.old ≡ None) }
        ensures count { OnOk result (added self.new ≡ added self.old + 1) }
        ensures lost { OnOk result ((self.new.lost ≡ self.old.lost) ⊎ ((self.new.lost ≡ self.old.lost + 1) × (length self.old.cells ≡ self.old.size))) }
        ensures full { OnErr result (self.new ≡ self.old) }
        ensures size { self.new.size ≡ self.old.size }
        ensures plain { self.new.plain ≡ self.old.plain }
    {
        let k = self.count();
        let behind = told_by_last(&self.cells, self.lost);
        if self.cells.len() < self.size {
            self.append(traits, last, behind);
            return Ok(k);
        }
        if !is_free(&self.cells, self.lost, self.oldest) {
            return Err(RowFull);
        }
        self.drop_first();
        self.append(traits, last, behind);
        Ok(k)
    }

    /// Adds a stand-in for the next request: without flags, and with a reply that doesn't fail.
    /// It serves for a request whose whole chain has replied, since nothing that is pending asks how.
    pub fn add_stand_in(&mut self) -> Result<u64, RowFull>
        requires { added self.old < 2 ^ 64 - 1 }
        ensures number { IfOk result (λ k. k ≡ added self.old) }
        ensures cell { IfOk result (λ k. HasCell self.new k) }
        ensures added { OnOk result ((xs : List Slot) → Stands xs self.old → Stands (xs ++ stand_in ∷ []) self.new) }
        ensures room { IsOk result ↔ (way_in self.old ≡ None) }
        ensures count { OnOk result (added self.new ≡ added self.old + 1) }
        ensures lost { OnOk result ((self.new.lost ≡ self.old.lost) ⊎ ((self.new.lost ≡ self.old.lost + 1) × (length self.old.cells ≡ self.old.size))) }
        ensures full { OnErr result (self.new ≡ self.old) }
        ensures size { self.new.size ≡ self.old.size }
        ensures plain { self.new.plain ≡ self.old.plain }
    {
        let plain = Traits {
            invalid: false,
            link_timeout: false,
            drains: false,
            links_soft: false,
            links_hard: false,
        };
        let k = self.add_traits(plain, true)?;
        self.replied(k, false);
        Ok(k)
    }

    /// Begins anew after the first `n` entries: stand-ins are in their place, and have lost their cells.
    pub fn restart(&mut self, n: u64)
        ensures stands { Stands (stand_ins n) self.new }
        ensures count { added self.new ≡ n }
        ensures none { waiting self.new ≡ 0 }
        ensures size { self.new.size ≡ self.old.size }
        ensures plain { self.new.plain ≡ self.old.plain }
    {
        self.cells.clear();
        self.lost = n;
        self.oldest = 0;
        self.drain = 0;
    }

    /// How many of the ring's first entries were noted as plain.
    #[inline(always)]
    pub fn plain(&self) -> u64
        ensures { result ≡ self.now.plain }
    {
        self.plain
    }

    /// Notes that the ring's first `n` entries are plain: none links, drains, or is a LINK_TIMEOUT. Each of them is open, whatever
    /// has replied, so the row need not have it.
    #[inline(always)]
    pub fn note_plain(&mut self, n: u64)
        ensures { self.new ≡ record self.old { plain = n } }
    {
        self.plain = n;
    }

    /// The request that keeps the next one from its cell: the first that is pending of the chain of the request that has it.
    /// None exactly where `add` succeeds.
    pub fn in_the_way(&self) -> Option<u64>
        ensures room { result ≡ way_in self.now }
        ensures named { (xs : List Slot) → Stands xs self.now → (p : ℕ) → result ≡ Some p → Waits xs self.now p }
        ensures trailed { (h : List Event) (i : ℕ) (xs : List Slot) → Stands xs self.now → Trails h i xs → (p : ℕ) → result ≡ Some p → (self.now.size ≤ added self.now) × IsOfChain h (nth i p) (nth i (added self.now - self.now.size)) }
    {
        if self.cells.len() < self.size || is_free(&self.cells, self.lost, self.oldest) {
            return None;
        }
        Some(self.lost + self.oldest as u64)
    }

    /// The first request loses its cell.
    fn drop_first(&mut self)
        requires { 0 < self.old.oldest }
        ensures { self.new ≡ without_first self.old }
    {
        let _ = self.cells.pop_front();
        self.lost += 1;
        self.oldest -= 1;
        self.drain -= 1;
    }

    /// The next request gets a cell.
    fn append(&mut self, traits: Traits, last: bool, behind: Behind)
        requires room { length self.old.cells < self.old.size }
        requires few { added self.old < 2 ^ 64 - 1 }
        requires told { IsToldBy self.old.lost self.old.cells behind }
        ensures cells { self.new.cells ≡ self.old.cells ++ record { traits = traits; last = last; reply = None; behind = behind } ∷ [] }
        ensures lost { self.new.lost ≡ self.old.lost }
        ensures size { self.new.size ≡ self.old.size }
        ensures plain { self.new.plain ≡ self.old.plain }
    {
        self.drain = drain_after(&self.cells, self.drain, traits.drains);
        self.cells.push_back_reserved(Cell {
            traits,
            last,
            reply: None,
            behind,
        });
    }

    /// How many entries were added: the number of the next.
    pub fn count(&self) -> u64
        ensures { result ≡ added self.now }
    {
        self.lost + self.cells.len() as u64
    }

    /// Whether the request `k` may start: severed first, then open, else shut.
    pub fn open(&self, k: u64) -> Gate
        requires { HasCell self.now k }
        ensures handed { (h : List Event) (i : ℕ) (xs : List Slot) → Stands xs self.now → Shows h i xs → IsGate h (nth i k) result }
        ensures placed { (h : List Event) (i : ℕ) (xs : List Slot) → Stands xs self.now → Mirrors h i xs → IsTrue (passes is_pending xs k) → IsGate h (nth i k) result }
    {
        let _ = &self.size;
        self.decide(k).gate()
    }

    /// What is known of whether the request `k` may start, where requests that are pending in the row may have replied.
    pub fn ask(&self, k: u64) -> Asked
        requires { HasCell self.now k }
        ensures named { (xs : List Slot) → Stands xs self.now → (b : ℕ) → named_in result ≡ Some b → (b < k) × Waits xs self.now b }
        ensures linked { (xs : List Slot) → Stands xs self.now → (p : ℕ) → linked_in result ≡ Some p → (p < k) × Waits xs self.now p }
        ensures trailed { (h : List Event) (i : ℕ) (xs : List Slot) → Stands xs self.now → Trails h i xs → (IsReplied (phase h (nth i k)) → ⊥) → IsAsked h (nth i k) result }
    {
        let _ = &self.size;
        self.decide(k)
    }

    /// Whether the request `k` may start, by what is kept.
    fn decide(&self, k: u64) -> Asked
        requires { HasCell self.now k }
        ensures { IsAnswer self.now k result }
    {
        let j = (k - self.lost) as usize;
        let cell = cell_at(&self.cells, j);
        if cell.behind.severed {
            return Asked::Severed;
        }
        match place(cell, j) {
            Some(g) => self.decide_by(g, j),
            None => Asked::Open,
        }
    }

    /// The same of the request at the place `j`, by the place `g`, which decides for it.
    fn decide_by(&self, g: usize, j: usize) -> Asked
        requires { (g ≤ j) × (j < length self.now.cells) }
        ensures { (q : Option ℕ) × IsBar self.now g q × (result ≡ asked_by self.now g j q) }
    {
        match self.bar(g) {
            Some(b) => Asked::Blocked(self.lost + b as u64, self.link_before(j)),
            None if g < j && cell_at(&self.cells, g).is_pending() => {
                Asked::OpenWith(self.lost + g as u64)
            }
            None => Asked::Open,
        }
    }

    /// The place of the first request that keeps the one at a place from starting, by its own place.
    fn bar(&self, g: usize) -> Option<usize>
        requires { g < length self.now.cells }
        ensures bar { IsBar self.now g result }
        ensures before { IfSome result (λ b. b < g) }
    {
        let cell = cell_at(&self.cells, g);
        let member = if cell.behind.held {
            let head = cell.behind.head.saturating_sub(self.lost) as usize;
            first_held(&self.cells, head, g)
        } else {
            g
        };
        let first = if cell.traits.drains {
            self.oldest
        } else {
            self.drain.min(member)
        };
        if first < g { Some(first) } else { None }
    }

    /// The nearest earlier member of its chain, of the request at a place, that is pending.
    fn link_before(&self, j: usize) -> Option<u64>
        requires { j < length self.now.cells }
        ensures { result ≡ link_in self.now j }
    {
        match last_pending(&self.cells, j) {
            Some(p) => Some(self.lost + p as u64),
            None => None,
        }
    }

    /// The target of the request `k`, if that is placed as a LINK_TIMEOUT.
    pub fn target_of(&self, k: u64) -> Option<u64>
        requires { HasCell self.now k }
        ensures handed { (h : List Event) (i : ℕ) (xs : List Slot) → Stands xs self.now → Shows h i xs → IsTargetOf h (nth i k) result }
        ensures trailed { (h : List Event) (i : ℕ) (xs : List Slot) → Stands xs self.now → Trails h i xs → (IsReplied (phase h (nth i k)) → ⊥) → IsTargetOf h (nth i k) result }
    {
        target(cell_at(&self.cells, (k - self.lost) as usize), k)
    }
}

/// The place that decides for a request: its target's, if it is a LINK_TIMEOUT, and none where that has lost its cell.
fn place(cell: &Cell, j: usize) -> Option<usize>
    ensures { result ≡ place_by j cell.now }
{
    if !cell.is_link_timeout() {
        Some(j)
    } else if j == 0 {
        None
    } else {
        Some(j - 1)
    }
}

/// The number of its target, if it is the request `k` and a LINK_TIMEOUT.
fn target(cell: &Cell, k: u64) -> Option<u64>
    ensures { result ≡ target_by k cell.now }
{
    if cell.is_link_timeout() && k > 0 {
        Some(k - 1)
    } else {
        None
    }
}

/// What the entries before the next request make of that one.
fn told_by_last(cells: &VecDeque<Cell>, lost: u64) -> Behind
    requires { lost + length cells.now.items < 2 ^ 64 }
    ensures told { IsToldBy lost cells.now.items result }
    ensures first { length cells.now.items ≡ 0 → result ≡ starting lost }
{
    match cells.len().checked_sub(1) {
        Some(j) => cell_at(cells, j).next(lost + j as u64),
        None => Behind {
            severed: false,
            held: false,
            hosted: false,
            head: lost,
        },
    }
}

/// The first request and all of its chain have replied.
fn is_free(cells: &VecDeque<Cell>, lost: u64, oldest: usize) -> bool
    requires { oldest ≤ length cells.now.items }
    ensures { result ≡ free_by lost cells.now.items oldest }
{
    oldest > 0 && (oldest == cells.len() || cell_at(cells, oldest).behind.head > lost)
}
