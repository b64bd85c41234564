// What the program writes for an input: one function of its bytes.
ghost use Rattle.std.specs.Prelude.{◌*◌, ◌≤◌, ◌<◌, length};
ghost use Rattle.calculus.specs.Sheets.{sheet};
ghost use Rattle.calculus.specs.Report.{refusal_report};
ghost use Rattle.writing.specs.Writer.{Fits, Wrote};
ghost use Rattle.small.specs.Limit.{small_limit};
ghost use Rattle.leaf.specs.Reported.{longest, most, Reported, ReportedWhole};
ghost use Rattle.leaf.specs.Written.{reason_atom, start_bytes, Blank, HoldsGood, Loaded, EndWritten, RunWritten};

use calculus::{Reason, Refusal};
use small::{LIMIT, NUMBERS};
use writing::write::Output;

const STEP_LIMIT: u32 = 10000;

// The report of a refusal. No `Display`: the bytes go into lent memory.
fn put_refusal(r: Refusal, out: &mut Output<'_>)
    requires { Blank out.old }
    ensures { Wrote out.old out.new (refusal_report r) }
{
    out.put_all(b"(7:refused");
    out.put_number(r.number());
    out.put(b')');
}

// The atom of a reason, into lent memory too.
fn put_reason(reason: Reason, out: &mut Output<'_>)
    requires { Fits out.old (reason_atom reason) }
    ensures { Wrote out.old out.new (reason_atom reason) }
{
    match reason {
        Reason::Ended => out.put_all(b"5:ended"),
        Reason::Steps => out.put_all(b"5:steps"),
        Reason::Room => out.put_all(b"4:room"),
    }
}

// What a run's report begins with: bracket, reason, steps.
fn put_start(reason: Reason, steps: u16, out: &mut Output<'_>)
    requires { Blank out.old }
    ensures { Wrote out.old out.new (start_bytes reason steps) }
{
    out.put(b'(');
    put_reason(reason, out);
    out.put_number(steps);
}

// The report of an end: reason, steps, the program in the table.
fn put_end(
    reason: Reason,
    steps: u16,
    table: &[u16],
    column: &[u16],
    nodes: usize,
    out: &mut Output<'_>,
)
    requires holds_good { HoldsGood small_limit (sheet table.now column.now) nodes }
    requires blank { Blank out.old }
    ensures { EndWritten small_limit reason steps table.now nodes out.old out.new }
{
    put_start(reason, steps, out);
    match small::write(table, column, nodes, &mut out.bytes[out.at..]) {
        Ok(n) => {
            out.at += n;
            out.put(b')');
        }
        // cannot be: the end of a run is written
        Err(r) => {
            out.at = 0;
            put_refusal(r, out);
        }
    }
}

// The run of the program in the table, and its report.
fn put_run(count: usize, table: &mut [u16], column: &mut [u16], out: &mut Output<'_>)
    requires loaded { Loaded small_limit (sheet table.old column.old) count }
    requires blank { Blank out.old }
    ensures { RunWritten small_limit most table.old count out.old out.new }
{
    let mut work = [0u16; NUMBERS];
    let mut work_column = [0u16; LIMIT];
    match small::run(
        table,
        column,
        count,
        &mut work,
        &mut work_column,
        STEP_LIMIT,
    ) {
        Ok(end) => put_end(end.reason, end.steps as u16, table, column, end.nodes, out),
        // cannot be: what was read is run
        Err(r) => put_refusal(r, out),
    }
}

// The report of a text at the front of the output, and its length.
fn report(text: &[u8], out: &mut [u8]) -> usize
    requires { longest ≤ length out.old }
    ensures { Reported small_limit most text.now out.old result out.new }
{
    let mut table = [0u16; NUMBERS];
    let mut column = [0u16; LIMIT];
    let mut out = Output { bytes: out, at: 0 };
    match operator::read(text, &mut table, &mut column) {
        Ok(n) => put_run(n, &mut table, &mut column, &mut out),
        Err(r) => put_refusal(r, &mut out),
    }
    out.at
}

/// The report of the whole input, of which the first `n` bytes of the buffer are as much as it holds.
pub fn report_input(buffer: &[u8], n: usize, out: &mut [u8]) -> usize
    requires small_limit_in_bounds { 12 * small_limit < length buffer.now }
    requires n_in_bounds { n ≤ length buffer.now }
    requires longest_in_bounds { longest ≤ length out.old }
    ensures { ReportedWhole small_limit most buffer.now n out.old result out.new }
{
    report(&buffer[..n], out)
}
