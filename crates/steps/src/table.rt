//! The table, from its making to its end, and how seats are cut and joined.
ghost use Rattle.std.specs.Prelude.{◌≡◌, ◌≢◌, ℕ, ◌+◌, ◌*◌, ◌<◌, ◌≤◌, false, [], IfOk, length, slice_index, vec_capacity};
ghost use Rattle.std.specs.Mem.Slots.{slots_items, slots_len, IsFull};
ghost use Rattle.history.specs.declared.req.Req.{Req};
ghost use Rattle.steps.specs.declared.view.Role.TheVariants.{Poller, Lending, Spent};
ghost use Rattle.pipe.specs.Moves.{new_conduit};
ghost use Rattle.steps.specs.{total, IsCapacity, AreNewSlots, words_of, stands_for, workers, IsSameSeat, Ended, opening_view, without_next, without_one, next_submitter, idle_one, hearing, messenger};

use crate::law::{About, Law};
use crate::layout::{PIPES, words_of};
use crate::plays::{CutMessenger, CutSubmitter, CutWorker, Hear};
use crate::slot::{Thing, WaitedPipe};
use crate::view::View;
use atomic_table::{Closed, Seat, Shared, Table};
use pipe::{Pipe, PipeError};
use std::alloc::{AllocError, Global};
use std::snapshot::Snapshot;

/// The table of a board.
pub type BoardTable = Table<Option<Thing>, View, About, Law, Global>;

/// The table as its seats reach it.
pub type Words = Shared<Option<Thing>, View, About, Law>;

/// A seat of the table.
pub type TableSeat = Seat<Option<Thing>, View>;

/// The slots of a new table: a pipe for each capacity, with room for whom it keeps waiting, nothing in the slots of the other
/// pipes, and nothing in those of the cells.
fn new_slots(alloc: Global, caps: &[u32], rows: usize) -> Result<Vec<Option<Thing>>, AllocError>
    requires room { (length caps.now ≤ 64) × (rows ≤ 16384) }
    requires caps { (p : ℕ) → p < length caps.now → IsCapacity (slice_index caps.now p) }
    ensures { IfOk result (λ v. AreNewSlots caps.now rows v.items) }
{
    let mut slots = Vec::new(alloc);
    for p in 0..PIPES {
        let pipe = match caps.get(p) {
            Some(cap) => Some(Thing::Piped(new_pipe(alloc, *cap, rows)?)),
            None => None,
        };
        slots.push(pipe)?;
    }
    for _ in 0..rows {
        slots.push(None)?;
    }
    Ok(slots)
}

/// An empty pipe of this capacity, for which no request waits, with room for this many that will.
fn new_pipe(alloc: Global, cap: u32, rows: usize) -> Result<WaitedPipe, AllocError>
    requires cap { IsCapacity cap }
    requires rows { rows ≤ 16384 }
    ensures { IfOk result (λ w. (w.pipe ≡ new_conduit cap) × (w.lying.items ≡ []) × (vec_capacity w.lying ≡ rows)) }
{
    let pipe = match Pipe::new(alloc, cap) {
        Ok(pipe) => pipe,
        Err(PipeError::Memory) => return Err(AllocError),
        Err(PipeError::BadCapacity) => unreachable!(),
    };
    let lying = Vec::with_capacity(alloc, rows)?;
    Ok(WaitedPipe { pipe, lying })
}

/// A table for rings with these numbers of cells, `rows` in all, and pipes of these capacities. The seat is the poller's,
/// which has all parts.
pub fn set_up(
    alloc: Global,
    cells: &Vec<u64>,
    caps: &Vec<u32>,
    rows: usize,
) -> Result<(BoardTable, TableSeat), AllocError>
    requires rows { (rows ≤ 16384) × (rows ≡ total cells.now.items) }
    requires pipes { length caps.now.items ≤ 64 }
    requires caps { (p : ℕ) → p < length caps.now.items → IsCapacity (slice_index caps.now.items p) }
    ensures { IfOk result (λ t. (t.1.table_id ≡ t.0.shared.table_id) × (t.1.me ≡ (opening_view (record { cells = cells.now.items; caps = caps.now.items }), [])) × (t.0.shared.key.cells.value.items ≡ cells.now.items) × (t.0.shared.key.caps.value.items ≡ caps.now.items) × (t.0.shared.table_id.words ≡ words_of rows)) }
{
    let words = Vec::from_elem(alloc, 0u64, words_of(rows))?;
    let slots = new_slots(alloc, caps.as_slice(), rows)?;
    let about = About {
        cells: Snapshot::of(cells),
        caps: Snapshot::of(caps),
    };
    match Table::new(alloc, words.as_slice(), slots, &about) {
        Ok(made) => Ok(made),
        Err(_) => Err(AllocError),
    }
}

/// The seat of the next ring's submitter, which leaves the poller's.
pub fn next_submitter(words: &Words, seat: &mut TableSeat) -> TableSeat
    requires fits { (seat.old.table_id ≡ words.now.table_id) × (0 < words.now.table_id.words) }
    requires poller { ((n : ℕ) × (seat.old.me.0.role ≡ Poller n)) × (1 < seat.old.me.0.parts) }
    ensures seat { IsSameSeat seat.old seat.new × (seat.new.me ≡ (without_next seat.old.me.0, seat.old.me.1)) }
    ensures submitter { (result.table_id ≡ seat.old.table_id) × (result.me ≡ (next_submitter seat.old.me.0, [])) }
{
    words.split_seat::<CutSubmitter>(seat)
}

/// The seat of a worker without a request.
pub fn next_worker(words: &Words, seat: &mut TableSeat) -> TableSeat
    requires fits { (seat.old.table_id ≡ words.now.table_id) × (0 < words.now.table_id.words) }
    requires live { (seat.old.me.0.role ≢ Spent) × (1 < seat.old.me.0.parts) }
    ensures seat { IsSameSeat seat.old seat.new × (seat.new.me ≡ (without_one seat.old.me.0, seat.old.me.1)) }
    ensures worker { (result.table_id ≡ seat.old.table_id) × (result.me ≡ (idle_one seat.old.me.0, [])) }
{
    words.split_seat::<CutWorker>(seat)
}

/// A seat that carries what this one has seen, and does nothing.
pub fn tell(words: &Words, seat: &mut TableSeat) -> TableSeat
    requires fits { (seat.old.table_id ≡ words.now.table_id) × (0 < words.now.table_id.words) }
    requires live { seat.old.me.0.role ≢ Spent }
    ensures seat { IsSameSeat seat.old seat.new × (seat.new.me ≡ seat.old.me) }
    ensures messenger { (result.table_id ≡ seat.old.table_id) × (result.me ≡ (messenger seat.old.me.0, [])) }
{
    words.split_seat::<CutMessenger>(seat)
}

/// Takes in another seat, which has no work: this one was then told what that one had seen.
pub fn hear(words: &Words, seat: &mut TableSeat, other: TableSeat)
    requires fits { (seat.old.table_id ≡ words.now.table_id) × (other.table_id ≡ words.now.table_id) × (0 < words.now.table_id.words) }
    requires live { seat.old.me.0.role ≢ Spent }
    requires bare { (other.me.1 ≡ []) × ((r : Req) → stands_for other.me.0.role (workers r) ≡ false) × ((r : Req) → other.me.0.role ≢ Lending r) }
    ensures seat { IsSameSeat seat.old seat.new × (seat.new.me ≡ (hearing seat.old.me.0 other.me.0, seat.old.me.1)) }
{
    words.join_seat::<Hear>(seat, other)
}

/// Ends the table.
pub fn finish(board: BoardTable, seat: TableSeat) -> Closed<Option<Thing>, Global>
    requires fits { seat.table_id ≡ board.shared.table_id }
    ensures full { IsFull result.words × IsFull result.slots }
    ensures counts { slots_len result.words ≡ board.shared.table_id.words }
    ensures ended { Ended (record { cells = board.shared.key.cells.value.items; caps = board.shared.key.caps.value.items }) seat.me.0 (slots_items result.words) (slots_items result.slots) }
{
    board.close_with(seat)
}
