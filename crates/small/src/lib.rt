// The six calls for the node limit of 2,048: a task with little stack calls these, and so does the program on standard input.
#![tactic(auto)]

ghost use Rattle.calculus.specs.Answers.{counted_values, ran_values, stepped_values, stood_values};
ghost use Rattle.calculus.specs.Sheets.{sheet};
ghost use Rattle.calculus.specs.Calls.{Reads, RunsWith, StandsAt, StepsInto, Writes};
ghost use Rattle.threads.specs.Places.{ThreadPart};
ghost use Rattle.small.specs.Limit.{small_limit};

use calculus::{Ran, Refusal, Standing, Stepped};

// The two instances of `calls` differ in this number; an array's length cannot be computed from a parameter, so each says what follows from it.

/// The nodes of the largest program, and the entries of its column.
pub const LIMIT: usize = 2048;

/// The numbers of a table of that many nodes, and the links of a thread.
pub const NUMBERS: usize = 2 * LIMIT;

/// The bytes of the longest text.
pub const TEXT: usize = 12 * LIMIT;

/// What checking a table needs.
pub const SCRATCH: usize = LIMIT + 2;

// The goals that reading the longest text can come to hold.
const GOALS: usize = TEXT + 2;

/// Reads a text into a table and its column: the nodes at its front, their trees' sizes at the column's; or 2 to 9.
pub fn read(text: &[u8], out: &mut [u16], column: &mut [u16]) -> Result<usize, Refusal>
    ensures { Reads small_limit text.now (sheet out.old column.old) (counted_values result) (sheet out.new column.new) }
{
    calls::read::<LIMIT, NUMBERS, SCRATCH, GOALS>(text, out, column)
}

/// Writes the text of the program in a table: its bytes at the front of the output, or 1, 14, 6, 8, 9.
pub fn write(table: &[u16], column: &[u16], count: usize, out: &mut [u8]) -> Result<usize, Refusal>
    ensures { Writes small_limit (sheet table.now column.now) count out.old (counted_values result) out.new }
{
    calls::write::<LIMIT, SCRATCH>(table, column, count, out)
}

/// Makes a single step of the program in a table: the new program's nodes at the front of the output and their trees' sizes at the front of its column,
/// the rule and the thread; or 1, 14, 6, 7, 8, 9, 11.
pub fn step(
    table: &[u16],
    column: &[u16],
    count: usize,
    out: &mut [u16],
    out_column: &mut [u16],
) -> Result<Stepped, Refusal>
    ensures { StepsInto small_limit (sheet table.now column.now) count (sheet out.old out_column.old) (stepped_values result) (sheet out.new out_column.new) }
{
    calls::step::<LIMIT, NUMBERS>(table, column, count, out, out_column)
}

/// Runs the program in a table for at most `most` steps: why it stopped, the nodes it left in the table (the sizes of their trees in the column), the steps
/// taken and how many each rule made; or 1, 14, 6, 8, 9.
pub fn run(
    table: &mut [u16],
    column: &mut [u16],
    count: usize,
    work: &mut [u16],
    work_column: &mut [u16],
    most: u32,
) -> Result<Ran, Refusal>
    ensures { RunsWith small_limit (sheet table.old column.old) count (sheet work.old work_column.old) most (ran_values result) (sheet table.new column.new) (sheet work.new work_column.new) }
{
    calls::run::<LIMIT, NUMBERS>(table, column, count, work, work_column, most)
}

/// How a thread stands, or 1, 14, 6, 8, 10.
pub fn standing(table: &[u16], column: &[u16], count: usize, k: usize) -> Result<Standing, Refusal>
    ensures { StandsAt small_limit (sheet table.now column.now) count k (stood_values result) }
{
    calls::standing::<LIMIT, SCRATCH>(table, column, count, k)
}

/// The part of the table that is a thread's own, no copy; empty exactly when the standing call refuses.
pub fn thread<'a>(table: &'a [u16], column: &[u16], count: usize, k: usize) -> &'a [u16]
    ensures { ThreadPart small_limit (sheet table.now column.now) count k table.entry.ref_ptr.0 table.entry.ref_ptr.1 result.ref_ptr.0 result.ref_ptr.1 result.now }
{
    calls::thread::<LIMIT, SCRATCH>(table, column, count, k)
}
