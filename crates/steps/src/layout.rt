//! Where the words and the slots of the table lie: word 0 is the clock, the words 1 to 64 are the pipes', and from word 72 on each cell
//! has a line of eight, its claim word and seven note words. The slots 0 to 63 are the pipes', and then comes one a cell.
ghost use Rattle.std.specs.Prelude.{◌≡◌, ◌<◌, ◌≤◌};
ghost use Rattle.steps.specs.Cells.{claim_at, note_at, pipe_at, slot_at, slots_of, words_of};

/// How many pipes a table has slots for.
pub const PIPES: usize = limits::PIPES;

/// The words and slots before those of the first cell.
const FIRST_LINE: usize = 72;

/// How many words a cell has.
const LINE: usize = 8;

/// The note word with the facts of a request.
pub const FACTS: usize = 0;

/// The note word with its user_data.
pub const USER_DATA: usize = 1;

/// The note word with the count of a TIMEOUT.
pub const COUNT: usize = 2;

/// The word of the clock.
pub const CLOCK_WORD: usize = 0;

/// How many words a table of this many cells has.
pub fn words_of(cells: usize) -> usize
    requires { cells ≤ 16384 }
    ensures { result ≡ words_of cells }
{
    LINE * cells + FIRST_LINE
}

/// How many slots a table of this many cells has.
pub fn slots_of(cells: usize) -> usize
    requires { cells ≤ 16384 }
    ensures { result ≡ slots_of cells }
{
    cells + PIPES
}

/// The claim word of the cell.
pub fn claim_word(cell: usize) -> usize
    requires { cell < 16384 }
    ensures { result ≡ claim_at cell }
{
    LINE * cell + FIRST_LINE
}

/// The note word of the cell with this number, from 0 to 6.
pub fn note_word(cell: usize, number: usize) -> usize
    requires { (cell < 16384) × (number < 7) }
    ensures { result ≡ note_at cell number }
{
    LINE * cell + FIRST_LINE + 1 + number
}

/// The slot of the cell.
pub fn slot(cell: usize) -> usize
    requires { cell < 16384 }
    ensures { result ≡ slot_at cell }
{
    cell + PIPES
}

/// The word of the pipe.
pub fn pipe_word(pipe: usize) -> usize
    requires { pipe < 64 }
    ensures { result ≡ pipe_at pipe }
{
    pipe + 1
}
