// The library for C and Rust programs: the calls under their C names. Each hands on what it is lent, and turns what the call answers into C's form of it; it
// has the contract of the call that it makes: the whole answer and every lent word, for any input. No call has a `requires`, since nothing checks a
// caller that is not Rattle. A slice is passed as a pointer and a length, and an answer is returned by value; include/derowlas.h declares the calls so, and
// says what a caller owes (no NULL, no overlap).
#![tactic(auto)]

ghost use Rattle.std.specs.Prelude.{◌≡◌};
ghost use Rattle.rules.specs.Calls.{read_call, write_call, allowance_call, run_call, drain_call};
ghost use Rattle.derowlas_c.specs.Answers.{read_of, written_of, allowed_of, drained_of, Answers};

pub use answers::{Allowed, Drained, Ran, Reading, Written};

mod answers;

// ---- the link sheet

// Reads a sheet into a lent table of 16 words, the link set of each box. A refusal leaves the table as it was.
#[unsafe(no_mangle)]
pub extern "C" fn derowlas_read(sheet: &[u8], table: &mut [u16]) -> Reading
    ensures { read_of result table.new ≡ read_call sheet.now table.old }
{
    reading::read(sheet, table).into()
}

// Writes the sheet of N boxes and a link table to the start of a lent buffer; the rest stays. A refusal leaves the buffer as it was.
#[unsafe(no_mangle)]
pub extern "C" fn derowlas_write(boxes: u32, table: &[u16], buffer: &mut [u8]) -> Written
    ensures { written_of result buffer.new ≡ write_call boxes table.now buffer.old }
{
    writing::write(boxes, table, buffer).into()
}

// The identities that a full broadcast sends, which planners use for line charges.
#[unsafe(no_mangle)]
pub extern "C" fn derowlas_allowance(sheet: &[u8]) -> Allowed
    ensures { allowed_of result ≡ allowance_call sheet.now }
{
    reading::allowance(sheet).into()
}

// ---- lists and the drain

// Runs a list of deliveries from a sleeping hub, and writes the board. A refusal leaves the board as it was.
#[unsafe(no_mangle)]
pub extern "C" fn derowlas_run(sheet: &[u8], list: &[u8], board: &mut [u16]) -> Ran
    ensures { Answers result board.new (run_call sheet.now list.now board.old) }
{
    hub::run(sheet, list, board).into()
}

// Starts a set of boxes, delivers until nothing is under way or the budget is spent, and writes the board. A refusal leaves the board as it was.
#[unsafe(no_mangle)]
pub extern "C" fn derowlas_drain(
    sheet: &[u8],
    starts: u16,
    budget: u32,
    board: &mut [u16],
) -> Drained
    ensures { drained_of result board.new ≡ drain_call sheet.now starts budget board.old }
{
    hub::drain(sheet, starts, budget, board).into()
}
