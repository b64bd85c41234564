// The six calls for 2,048 nodes as C sees them. They are a crate of their own so that their machine code is made for this size alone: it then takes the least stack.
#![tactic(auto)]

ghost use Rattle.calculus.specs.Sheets.{sheet};
ghost use Rattle.calculus.specs.Calls.{Reads, RunsWith, StandsAt, StepsInto, Writes};
ghost use Rattle.threads.specs.Places.{SpanOf};
ghost use Rattle.small.specs.Limit.{small_limit};
ghost use Rattle.answers.specs.Structs.{count_values, move_values, stand_values, stop_values};

use answers::{Count, Move, Part, Stand, Stop};

#[unsafe(no_mangle)]
pub extern "C" fn mespindro_small_read(text: &[u8], out: &mut [u16], column: &mut [u16]) -> Count
    ensures { Reads small_limit text.now (sheet out.old column.old) (count_values result) (sheet out.new column.new) }
{
    small::read(text, out, column).into()
}

#[unsafe(no_mangle)]
pub extern "C" fn mespindro_small_write(
    table: &[u16],
    column: &[u16],
    count: usize,
    out: &mut [u8],
) -> Count
    ensures { Writes small_limit (sheet table.now column.now) count out.old (count_values result) out.new }
{
    small::write(table, column, count, out).into()
}

#[unsafe(no_mangle)]
pub extern "C" fn mespindro_small_step(
    table: &[u16],
    column: &[u16],
    count: usize,
    out: &mut [u16],
    out_column: &mut [u16],
) -> Move
    ensures { StepsInto small_limit (sheet table.now column.now) count (sheet out.old out_column.old) (move_values result) (sheet out.new out_column.new) }
{
    small::step(table, column, count, out, out_column).into()
}

#[unsafe(no_mangle)]
pub extern "C" fn mespindro_small_run(
    table: &mut [u16],
    column: &mut [u16],
    count: usize,
    work: &mut [u16],
    work_column: &mut [u16],
    most: u32,
) -> Stop
    ensures { RunsWith small_limit (sheet table.old column.old) count (sheet work.old work_column.old) most (stop_values result) (sheet table.new column.new) (sheet work.new work_column.new) }
{
    small::run(table, column, count, work, work_column, most).into()
}

#[unsafe(no_mangle)]
pub extern "C" fn mespindro_small_standing(
    table: &[u16],
    column: &[u16],
    count: usize,
    k: usize,
) -> Stand
    ensures { StandsAt small_limit (sheet table.now column.now) count k (stand_values result) }
{
    small::standing(table, column, count, k).into()
}

/// Where the thread call's part begins and how long it is: C gets no reference back.
#[unsafe(no_mangle)]
pub extern "C" fn mespindro_small_thread(
    table: &[u16],
    column: &[u16],
    count: usize,
    k: usize,
) -> Part
    ensures { SpanOf small_limit (sheet table.now column.now) count k result.start result.length }
{
    let mut scratch = [0u16; small::SCRATCH];
    let span = threads::span_of(table, column, count, k, small::LIMIT, &mut scratch);
    Part {
        start: span.start,
        length: span.length,
    }
}
