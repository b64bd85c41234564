// The six calls over scratch of their own, on the stack: generic over the node limit and over how long each scratch is. `small` and `mespindro` are the two instances.
#![tactic(auto)]

ghost use Rattle.std.specs.Prelude.{◌+◌, ◌*◌, ◌<◌, ◌≤◌};
ghost use Rattle.calculus.specs.Answers.{counted_values, ran_values, stepped_values, stood_values};
ghost use Rattle.calculus.specs.Sheets.{sheet};
ghost use Rattle.calculus.specs.Calls.{Reads, RunsWith, StandsAt, StepsInto, Writes};
ghost use Rattle.threads.specs.Places.{ThreadPart};

use calculus::{Ran, Refusal, Standing, Stepped};

/// Reads a text into a table and its column: the nodes at its front, their trees' sizes at the column's; or 2 to 9.
pub fn read<const LIMIT: usize, const NUMBERS: usize, const SCRATCH: usize, const GOALS: usize>(
    text: &[u8],
    out: &mut [u16],
    column: &mut [u16],
) -> Result<usize, Refusal>
    requires limit { LIMIT < 32767 }
    requires numbers { (2 * LIMIT ≤ NUMBERS) × (NUMBERS < 65536) }
    requires scratch { (LIMIT + 2 ≤ SCRATCH) × (SCRATCH < 65536) }
    requires goals { (12 * LIMIT + 2 ≤ GOALS) × (GOALS < 1048576) }
    ensures { Reads LIMIT text.now (sheet out.old column.old) (counted_values result) (sheet out.new column.new) }
{
    let mut build = [0u16; NUMBERS];
    let mut scratch = [0u16; SCRATCH];
    let mut goals = [0u8; GOALS];
    reading::read::read(
        text,
        out,
        column,
        LIMIT,
        &mut build,
        &mut scratch,
        &mut goals,
    )
}

/// Writes the text of the program in a table: its bytes at the front of the output, or 1, 14, 6, 8, 9.
pub fn write<const LIMIT: usize, const SCRATCH: usize>(
    table: &[u16],
    column: &[u16],
    count: usize,
    out: &mut [u8],
) -> Result<usize, Refusal>
    requires limit { LIMIT < 32767 }
    requires scratch { (LIMIT + 2 ≤ SCRATCH) × (SCRATCH < 65536) }
    ensures { Writes LIMIT (sheet table.now column.now) count out.old (counted_values result) out.new }
{
    let mut scratch = [0u16; SCRATCH];
    writing::store::write(table, column, count, out, LIMIT, &mut scratch)
}

/// Makes a single step of the program in a table: the new program's nodes at the front of the output and their trees' sizes at the front of its column,
/// the rule and the thread; or 1, 14, 6, 7, 8, 9, 11.
pub fn step<const LIMIT: usize, const NUMBERS: usize>(
    table: &[u16],
    column: &[u16],
    count: usize,
    out: &mut [u16],
    out_column: &mut [u16],
) -> Result<Stepped, Refusal>
    requires limit { (2 ≤ LIMIT) × (LIMIT < 32767) }
    requires numbers { (2 * LIMIT ≤ NUMBERS) × (NUMBERS < 65536) }
    ensures { StepsInto LIMIT (sheet table.now column.now) count (sheet out.old out_column.old) (stepped_values result) (sheet out.new out_column.new) }
{
    let mut links = [0u16; NUMBERS];
    let mut sizes = [0u16; LIMIT];
    step::single::step(
        table, column, count, out, out_column, LIMIT, &mut links, &mut sizes,
    )
}

/// Runs the program in a table for at most `most` steps: why it stopped, the nodes it left in the table (the sizes of their trees in the column), the steps
/// taken and how many each rule made; or 1, 14, 6, 8, 9.
pub fn run<const LIMIT: usize, const NUMBERS: usize>(
    table: &mut [u16],
    column: &mut [u16],
    count: usize,
    work: &mut [u16],
    work_column: &mut [u16],
    most: u32,
) -> Result<Ran, Refusal>
    requires limit { (2 ≤ LIMIT) × (LIMIT < 32767) }
    requires numbers { (2 * LIMIT ≤ NUMBERS) × (NUMBERS < 65536) }
    ensures { RunsWith LIMIT (sheet table.old column.old) count (sheet work.old work_column.old) most (ran_values result) (sheet table.new column.new) (sheet work.new work_column.new) }
{
    let mut links = [0u16; NUMBERS];
    let mut sizes = [0u16; LIMIT];
    run::run(
        table,
        column,
        count,
        work,
        work_column,
        most,
        LIMIT,
        &mut links,
        &mut sizes,
    )
}

/// How a thread stands, or 1, 14, 6, 8, 10.
pub fn standing<const LIMIT: usize, const SCRATCH: usize>(
    table: &[u16],
    column: &[u16],
    count: usize,
    k: usize,
) -> Result<Standing, Refusal>
    requires limit { LIMIT < 32767 }
    requires scratch { (LIMIT + 2 ≤ SCRATCH) × (SCRATCH < 65536) }
    ensures { StandsAt LIMIT (sheet table.now column.now) count k (stood_values result) }
{
    let mut scratch = [0u16; SCRATCH];
    standings::standing(table, column, count, k, LIMIT, &mut scratch)
}

/// The part of the table that is a thread's own, no copy; empty exactly when the standing call refuses.
pub fn thread<'a, const LIMIT: usize, const SCRATCH: usize>(
    table: &'a [u16],
    column: &[u16],
    count: usize,
    k: usize,
) -> &'a [u16]
    requires limit { LIMIT < 32767 }
    requires scratch { (LIMIT + 2 ≤ SCRATCH) × (SCRATCH < 65536) }
    ensures { ThreadPart LIMIT (sheet table.now column.now) count k table.entry.ref_ptr.0 table.entry.ref_ptr.1 result.ref_ptr.0 result.ref_ptr.1 result.now }
{
    let mut scratch = [0u16; SCRATCH];
    threads::thread(table, column, count, k, LIMIT, &mut scratch)
}
