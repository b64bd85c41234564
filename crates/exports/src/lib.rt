// The six calls for 16,384 nodes as C sees them: slices are a pointer and a length, answers are structs of numbers.
// small_exports has the same for 2,048: names in C are not generic, and each size is an object of its own.
#![tactic(auto)]

ghost use Rattle.calculus.specs.Sheets.{sheet};
ghost use Rattle.calculus.specs.Calls.{Reads, RunsWith, StandsAt, StepsInto, Writes};
ghost use Rattle.threads.specs.Places.{SpanOf};
ghost use Rattle.mespindro.specs.Limit.{limit};
ghost use Rattle.answers.specs.Structs.{count_values, move_values, stand_values, stop_values};

use answers::{Count, Move, Part, Stand, Stop};

#[unsafe(no_mangle)]
pub extern "C" fn mespindro_read(text: &[u8], out: &mut [u16], column: &mut [u16]) -> Count
    ensures { Reads limit text.now (sheet out.old column.old) (count_values result) (sheet out.new column.new) }
{
    mespindro::read(text, out, column).into()
}

#[unsafe(no_mangle)]
pub extern "C" fn mespindro_write(
    table: &[u16],
    column: &[u16],
    count: usize,
    out: &mut [u8],
) -> Count
    ensures { Writes limit (sheet table.now column.now) count out.old (count_values result) out.new }
{
    mespindro::write(table, column, count, out).into()
}

#[unsafe(no_mangle)]
pub extern "C" fn mespindro_step(
    table: &[u16],
    column: &[u16],
    count: usize,
    out: &mut [u16],
    out_column: &mut [u16],
) -> Move
    ensures { StepsInto limit (sheet table.now column.now) count (sheet out.old out_column.old) (move_values result) (sheet out.new out_column.new) }
{
    mespindro::step(table, column, count, out, out_column).into()
}

#[unsafe(no_mangle)]
pub extern "C" fn mespindro_run(
    table: &mut [u16],
    column: &mut [u16],
    count: usize,
    work: &mut [u16],
    work_column: &mut [u16],
    most: u32,
) -> Stop
    ensures { RunsWith limit (sheet table.old column.old) count (sheet work.old work_column.old) most (stop_values result) (sheet table.new column.new) (sheet work.new work_column.new) }
{
    mespindro::run(table, column, count, work, work_column, most).into()
}

#[unsafe(no_mangle)]
pub extern "C" fn mespindro_standing(table: &[u16], column: &[u16], count: usize, k: usize) -> Stand
    ensures { StandsAt limit (sheet table.now column.now) count k (stand_values result) }
{
    mespindro::standing(table, column, count, k).into()
}

/// Where the thread call's part begins and how long it is: C gets no reference back.
#[unsafe(no_mangle)]
pub extern "C" fn mespindro_thread(table: &[u16], column: &[u16], count: usize, k: usize) -> Part
    ensures { SpanOf limit (sheet table.now column.now) count k result.start result.length }
{
    let mut scratch = [0u16; mespindro::SCRATCH];
    let span = threads::span_of(table, column, count, k, mespindro::LIMIT, &mut scratch);
    Part {
        start: span.start,
        length: span.length,
    }
}
