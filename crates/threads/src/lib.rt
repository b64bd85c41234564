// Where threads stand, and the call that hands a thread's part back.
#![tactic(auto)]

pub mod program;

ghost use Rattle.std.specs.Prelude.{◌≡◌, ◌+◌, ◌*◌, ◌≤◌, length};
ghost use Rattle.calculus.specs.Sheets.{sheet};
ghost use Rattle.table.specs.Checks.{in_force};
ghost use Rattle.threads.specs.Places.{thread_behind, ProgramAt, place_values, PlaceOf, SpanOf, ThreadPart};

use column::check::check_with;
use column::sizes::size_at;
use table::kinds::Kind;
use table::nodes::node_at;

/// A part of a table: its first number, and how many numbers; 0 and 0 for none, as C has it.
#[derive(Clone, Copy)]
pub struct Span {
    pub start: usize,
    pub length: usize,
}

// The first node of the thread whose alternative node is at `at`; none where the empty node ends the program.
fn thread_behind(t: &[u16], at: usize) -> Option<usize>
    requires { 2 * at + 2 ≤ length t.now }
    ensures { result ≡ thread_behind t.now at }
{
    if node_at(t, at).is(Kind::Empty) {
        return None;
    }
    Some(at + 1)
}

/// Where thread k of the program at the front stands: its first node. Each thread before it is passed by one jump.
#[tactic(auto, using(crate::proofs::PlaceOfFacts::placing))]
pub fn place_of(t: &[u16], column: &[u16], k: usize) -> Option<usize>
    requires { ProgramAt t.now column.now }
    ensures { PlaceOf t.now k (place_values result) }
{
    let mut at = 0;
    for _ in 0..k {
        let start = thread_behind(t, at)?;
        at = start + size_at(column, start);
    }
    // both answers written out: must-fail edits exchange the one or the other
    let Some(start) = thread_behind(t, at) else {
        return None; // there are k threads
    };
    Some(start)
}

/// Where the thread's own part of the table is, its term's nodes without the alternative node. Empty exactly when the standing call refuses.
pub fn span_of(
    t: &[u16],
    column: &[u16],
    count: usize,
    k: usize,
    limit: usize,
    scratch: &mut [u16],
) -> Span
    ensures { SpanOf (in_force limit (length scratch.old)) (sheet t.now column.now) count k result.start result.length }
{
    let nothing = Span {
        start: 0,
        length: 0,
    };
    let Ok(()) = check_with(t, column, count, limit, scratch) else {
        return nothing;
    };
    let Some(start) = place_of(t, column, k) else {
        return nothing;
    };
    Span {
        start: 2 * start,
        length: 2 * size_at(column, start),
    }
}

/// The thread's own part of the table, no copy.
pub fn thread<'a>(
    t: &'a [u16],
    column: &[u16],
    count: usize,
    k: usize,
    limit: usize,
    scratch: &mut [u16],
) -> &'a [u16]
    ensures { ThreadPart (in_force limit (length scratch.old)) (sheet t.now column.now) count k t.entry.ref_ptr.0 t.entry.ref_ptr.1 result.ref_ptr.0 result.ref_ptr.1 result.now }
{
    let Span { start, length } = span_of(t, column, count, k, limit, scratch);
    &t[start..start + length]
}
