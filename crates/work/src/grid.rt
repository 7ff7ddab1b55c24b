//! Where the requests of the rings lie among the cells of the table.
ghost use Rattle.std.specs.Prelude.{◌≡◌, ◌-◌, ◌/◌, ◌%◌, ◌<◌, ◌≤◌, length, IfOk, IfSome, IfNone};
ghost use Rattle.steps.specs.Cells.{IsCell, cells_in, place_of, request_at, total};

use history::Req;
use std::alloc::{AllocError, Global};
use std::marker::Model;

/// A request's cell: its place among those of the board, which generation of it the request is, and its number within its ring.
#[derive(Clone, Copy)]
pub struct Cell {
    pub index: usize,
    pub generation: u64,
    pub number: usize,
}

/// The cells of one ring: the number of its first one, and how many there are.
#[derive(Clone, Copy)]
pub struct RingCells {
    first: usize,
    cells: u64,
}

/// The cells of all rings, one ring's after the other's. Contracts see how many cells each ring has.
#[derive(Drop)]
pub struct Grid {
    rows: Vec<RingCells>,
    count: usize,
}

impl Model for Grid {
    ghost use Rattle.std.specs.Prelude.{◌≡◌, List, ℕ};

    ghost Value = { List ℕ };

    ghost use Rattle.steps.specs.Cells.{total};
    ghost use Rattle.work.specs.Grid.{cells_of, IsGrid};

    ghost view = { λ g. cells_of g.rows.items };

    ghost invariant = { λ g. IsGrid g.rows.items × (g.count ≡ total (cells_of g.rows.items)) };
}

/// The quotient of a number by a ring's number of cells, and the rest: without a division where that is a power of two.
/// Each call of a request needs them, and a division takes as long as a step on the board.
#[inline(always)]
pub fn divided(k: u64, cells: u64) -> (u64, u64)
    requires { 0 < cells }
    ensures { (result.0 ≡ k / cells) × (result.1 ≡ k % cells) }
{
    let shift = cells.trailing_zeros();
    if 1 << shift == cells {
        (k >> shift, k & (cells - 1))
    } else {
        (k / cells, k % cells)
    }
}

impl Grid {
    ghost use Rattle.work.specs.Grid.{AreCells};

    /// The cells of rings that have these numbers of them.
    pub fn new(alloc: Global, cells: &[u64]) -> Result<Grid, AllocError>
        requires { AreCells cells.now }
        ensures { IfOk result (λ g. g ≡ cells.now) }
    {
        let mut rows = Vec::new(alloc);
        let mut first = 0;
        for &cells in cells {
            rows.push(RingCells { first, cells })?;
            first += cells as usize;
        }
        Ok(Grid { rows, count: first })
    }

    /// How many rings there are.
    pub fn rings(&self) -> usize
        ensures { result ≡ length self.now }
    {
        self.rows.len()
    }

    /// How many cells the ring has: 0 for a ring that isn't there.
    pub fn cells_in(&self, ring: usize) -> u64
        ensures { result ≡ cells_in self.now ring }
    {
        match self.rows.get(ring) {
            Some(row) => row.cells,
            None => 0,
        }
    }

    /// How many cells the ring has beside any one of them.
    pub(crate) fn others_in(&self, ring: usize) -> u64
        ensures others { result ≡ cells_in self.now ring - 1 }
        ensures few { result < 1024 }
    {
        let Some(row) = self.rows.get(ring) else {
            return 0;
        };
        row.cells - 1
    }

    /// How many cells all rings have.
    pub fn total(&self) -> usize
        ensures { result ≡ total self.now }
    {
        self.count
    }

    /// Where the request lies: None for a ring that isn't there.
    pub fn locate(&self, req: Req) -> Option<Cell>
        ensures some { IfSome result (λ s. IsCell self.now s.index × (request_at self.now s.index s.generation ≡ req) × (s.index < 16384)) }
        ensures number { IfSome result (λ s. s.number ≡ place_of self.now s.index) }
        ensures none { IfNone result (length self.now ≤ req.ring) }
    {
        let row = self.rows.get(usize::from(req.ring))?;
        let (generation, rest) = divided(req.k, row.cells);
        let number = rest as usize;
        Some(Cell {
            index: row.first + number,
            generation,
            number,
        })
    }
}
