//! What the handle of a poller leads to.
ghost use Rattle.std.specs.Prelude.{◌≡◌, ◌⊎◌, ◌++◌, ◌∷◌, [], length, map, Ok, IfOk, IfErr};
ghost use Rattle.std.specs.Arc.{arc_value};
ghost use Rattle.work.specs.Board.{IsOf};
ghost use Rattle.board.specs.{Goes, Finds, AreOf, IsReport};
ghost use Rattle.ring_c.specs.declared.code.Code.TheVariants.{Memory, Missing};
ghost use Rattle.ring_c.specs.{Shows, IsFull, IsStill, Ticks, number_for, IsTurn};

use crate::client::Client;
use crate::code::Code;
use crate::hand::Hand;
use crate::number::Number;
use crate::out::Out;
use crate::results::Turn;
use crate::turn::{go_over, take_up};
use board::{Board, Phase, Poller, Report, Submitter, Worker};
use history::Req;
use std::alloc::Global;
use std::marker::Model;
use std::sync::Arc;

/// The poller with its board, and the passes that no handle leads to: those of clients and of workers. Of each ring it keeps which
/// request it takes up next, and it keeps which requests were taken up and aren't done with.
#[derive(Drop)]
pub struct Desk {
    board: Arc<Board>,
    poller: Poller,
    clients: Vec<Submitter>,
    workers: Vec<Worker>,
    crew: usize,
    next: Vec<u64>,
    held: Vec<Req>,
    out: Out,
}

impl Model for Desk {
    ghost use Rattle.std.specs.Prelude.{◌≡◌, length};
    ghost use Rattle.std.specs.Arc.{arc_value};
    ghost use Rattle.work.specs.Board.{IsOf};
    ghost use Rattle.board.specs.Reports.{AreOf};
    ghost use Rattle.ring_c.specs.Sides.{DeskFacts};

    ghost Value = { DeskFacts };

    ghost view = { λ d. record { board = arc_value d.board; pass = d.poller; clients = d.clients.items; workers = d.workers.items; ready = d.out.ready; answered = d.out.answered } };

    ghost invariant = { λ d. IsOf (arc_value d.board) d.poller × AreOf (arc_value d.board) d.clients.items × AreOf (arc_value d.board) d.workers.items × (length d.next.items ≡ length (arc_value d.board).layout.cells) × (d.crew ≡ (arc_value d.board).workers) };
}

impl Desk {
    /// The desk of a new board, at which all passes are.
    pub(crate) fn new(
        alloc: Global,
        board: Board,
        poller: Poller,
        clients: Vec<Submitter>,
        workers: Vec<Worker>,
    ) -> Result<Desk, Code>
        requires poller { IsOf board poller }
        requires clients { AreOf board clients.items × (length clients.items ≡ length board.layout.cells) }
        requires workers { AreOf board workers.items × (length workers.items ≡ board.workers) }
        ensures new { IfOk result (λ d. d ≡ record { board = board; pass = poller; clients = clients.items; workers = workers.items; ready = []; answered = [] }) }
        ensures refused { IfErr result (λ c. c ≡ Code.Memory) }
    {
        let crew = workers.len();
        let places = board.cells();
        let (Ok(next), Ok(out), Ok(board)) = (
            Vec::from_elem(alloc, 0u64, clients.len()),
            Out::new(alloc, places),
            Arc::new(alloc, board),
        ) else {
            return Err(Code::Memory);
        };
        Ok(Desk {
            board,
            poller,
            clients,
            workers,
            crew,
            next,
            held: Vec::new(alloc),
            out,
        })
    }

    /// Where a request stands.
    pub(crate) fn look(&mut self, req: Req) -> Phase
        ensures same { self.new ≡ record self.old { pass = self.new.pass } }
        ensures looks { Goes self.old.board self.old.pass [] self.new.pass }
        ensures finds { Finds self.old.board req result self.old.pass self.new.pass }
    {
        self.board.look(&mut self.poller, req)
    }

    /// Sets the clock on.
    pub(crate) fn tick(&mut self, to: u32) -> Result<(), Code>
        ensures same { self.new ≡ record self.old { pass = self.new.pass } }
        ensures ticks { Ticks self.old.board to self.old.pass self.new.pass result }
    {
        match self.board.tick(&mut self.poller, to) {
            Ok(()) => Ok(()),
            Err(_) => Err(Code::ClockEnd),
        }
    }

    /// One turn, which tells the requests that are to be run and those that it answered, as many as there is room for.
    pub(crate) fn poll(&mut self, ready: &mut [Number], answered: &mut [Number]) -> Turn
        ensures same { IsStill self.old self.new }
        ensures turn { IsTurn self.old.board self.old.pass self.new.pass self.new.ready self.new.answered }
        ensures ready { Shows (map number_for self.new.ready) ready.old ready.new (Ok result.ready) }
        ensures answered { Shows (map number_for self.new.answered) answered.old answered.new (Ok result.answered) }
    {
        self.out.begin(ready.len(), answered.len());
        let board = &*self.board;
        go_over(board, &mut self.poller, &mut self.out, &mut self.held);
        let next = self.next.as_mut_slice();
        take_up(board, &mut self.poller, &mut self.out, &mut self.held, next);
        self.out.copy_out(ready, answered)
    }

    /// Hands out the last of the clients that are here.
    pub(crate) fn give_client(&mut self, alloc: Global) -> Result<Client, Code>
        ensures given { IfOk result (λ c. (c.board ≡ self.old.board) × (c.bytes ≡ []) × (self.old ≡ record self.new { clients = self.new.clients ++ c.pass ∷ [] })) }
        ensures refused { IfErr result (λ c. (self.new ≡ self.old) × ((c ≡ Memory) ⊎ ((c ≡ Missing) × (self.old.clients ≡ [])))) }
    {
        let Ok(board) = Arc::try_clone(&self.board) else {
            return Err(Code::Memory);
        };
        match self.clients.pop() {
            Some(submitter) => Ok(Client {
                board,
                submitter,
                bytes: Vec::new(alloc),
            }),
            None => Err(Code::Missing),
        }
    }

    /// Hands out the last of the workers that are here.
    pub(crate) fn give_worker(&mut self) -> Result<Hand, Code>
        ensures given { IfOk result (λ h. (h.board ≡ self.old.board) × (self.old ≡ record self.new { workers = self.new.workers ++ h.pass ∷ [] })) }
        ensures refused { IfErr result (λ c. (self.new ≡ self.old) × ((c ≡ Memory) ⊎ ((c ≡ Missing) × (self.old.workers ≡ [])))) }
    {
        let Ok(board) = Arc::try_clone(&self.board) else {
            return Err(Code::Memory);
        };
        match self.workers.pop() {
            Some(worker) => Ok(Hand {
                board,
                worker: Some(worker),
            }),
            None => Err(Code::Missing),
        }
    }

    /// Takes back a client of its board, or gives it back for want of memory.
    pub(crate) fn take_client(&mut self, client: Client) -> Result<(), Client>
        requires ours { client.board ≡ self.old.board }
        ensures taken { IfOk result (λ _. self.new ≡ record self.old { clients = self.old.clients ++ client.pass ∷ [] }) }
        ensures refused { IfErr result (λ c. (c ≡ client) × (self.new ≡ self.old)) }
    {
        if self.clients.reserve(1).is_err() {
            return Err(client);
        }
        let Client { submitter, .. } = client;
        self.clients.push_reserved(submitter);
        Ok(())
    }

    /// Takes back a worker of its board, or gives it back for want of memory.
    pub(crate) fn take_worker(&mut self, hand: Hand) -> Result<(), Hand>
        requires ours { hand.board ≡ self.old.board }
        ensures taken { IfOk result (λ _. self.new ≡ record self.old { workers = self.old.workers ++ hand.pass ∷ [] }) }
        ensures refused { IfErr result (λ h. (h ≡ hand) × (self.new ≡ self.old)) }
    {
        if self.workers.reserve(1).is_err() {
            return Err(hand);
        }
        self.workers.push_reserved(hand.into_worker());
        Ok(())
    }

    /// Ends the board. The desk comes back where a pass is not here, or there is no memory.
    pub(crate) fn finish(self, alloc: Global) -> Result<Report, (Code, Desk)>
        ensures report { IfOk result (λ r. IsReport self.board (self.pass ∷ (self.clients ++ self.workers)) r) }
        ensures complete { IfOk result (λ r. IsFull self) }
        ensures refused { IfErr result (λ e. (e.1 ≡ self) × ((e.0 ≡ Memory) ⊎ (e.0 ≡ Missing))) }
        ensures missing { (IsFull self → ⊥) → IfErr result (λ e. e.0 ≡ Missing) }
    {
        if self.clients.len() != self.next.len() || self.workers.len() != self.crew {
            return Err((Code::Missing, self));
        }
        let Ok(room) = self.board.make_room(alloc) else {
            return Err((Code::Memory, self));
        };
        let Desk {
            board,
            poller,
            clients,
            workers,
            crew,
            next,
            held,
            out,
        } = self;
        match Arc::try_unwrap(board) {
            Ok(board) => {
                drop(out);
                Ok(board.finish_in(poller, clients, workers, room))
            }
            Err(board) => Err((
                Code::Missing,
                Desk {
                    board,
                    poller,
                    clients,
                    workers,
                    crew,
                    next,
                    held,
                    out,
                },
            )),
        }
    }
}
