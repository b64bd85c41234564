// The second rule of coherence (8): one location, one body. The first is the walk's.
ghost use Rattle.std.specs.Prelude.{◌≡◌, ◌≢◌, true, ℕ, IfSome, IfNone, ◌≤◌, ◌<◌, length, get_or, set};
ghost use Rattle.table.specs.Checks.{IsThread, BodiesAgree, ProgramIn, ThreadsAgree};
ghost use Rattle.table.specs.Marks.{numbered};

use crate::kinds::Kind;
use crate::nodes::{end_of, node_at, same_bodies};
use calculus::Loc;

// What is kept for a location: the node behind the first of its allocated abstractions, if one was met. No body stands at node 0: it stands for none.
fn first_of(first: &[u16], l: Loc) -> Option<usize>
    requires { l.0 < length first.now }
    ensures some { IfSome result (λ f. (f ≡ get_or first.now l.0 0) × (f ≢ 0)) }
    ensures none { IfNone result (get_or first.now l.0 0 ≡ 0) }
{
    match first[l.0 as usize] {
        0 => None,
        body => Some(body as usize),
    }
}

fn keep_first(first: &mut [u16], l: Loc, at: usize)
    requires l_in_bounds { l.0 < length first.old }
    requires at_bound { at < 65536 }
    ensures { first.new ≡ set first.old l.0 at }
{
    first[l.0 as usize] = at as u16;
}

// Forgets the locations of a thread.
fn forget_locations(part: &[u16], limit: usize, first: &mut [u16])
    requires thread { IsThread limit part.now }
    requires limit_in_bounds { limit ≤ length first.old }
    ensures { (l : ℕ) → numbered 6 part.now l ≡ true → get_or first.new l 0 ≡ 0 }
{
    let end = part.len() / 2;
    for i in 0..end {
        let n = node_at(part, i);
        if n.is(Kind::Allocated) {
            keep_first(first, Loc(n.number), 0);
        }
    }
}

/// Do any two allocated abstractions of a thread with one location have equal bodies? Each is compared with the first of its location.
pub fn bodies_agree(part: &[u16], limit: usize, first: &mut [u16]) -> bool
    requires thread { IsThread limit part.now }
    requires limit_in_bounds { limit ≤ length first.old }
    requires part_len_bound { length part.now < 65536 }
    ensures { BodiesAgree part.now result }
{
    forget_locations(part, limit, first);
    let end = part.len() / 2;
    for i in 0..end {
        let n = node_at(part, i);
        let body = i + 1;
        if n.is(Kind::Allocated) {
            let l = Loc(n.number);
            match first_of(first, l) {
                None => keep_first(first, l, body),
                Some(f) => {
                    if !same_bodies(&part[2 * f..], &part[2 * body..]) {
                        return false;
                    }
                }
            }
        }
    }
    true
}

/// Do they in every thread of the program at the front?
pub fn threads_agree(t: &[u16], limit: usize, first: &mut [u16]) -> bool
    requires program_in { ProgramIn limit t.now }
    requires limit_in_bounds { limit ≤ length first.old }
    requires limit_bound { limit < 32768 }
    ensures { ThreadsAgree t.now result }
{
    let mut at: usize = 0;
    // from thread to thread, each passed by one jump: no range
    loop {
        if node_at(t, at).is(Kind::Empty) {
            return true;
        }
        let start = at + 1;
        let end = end_of(t, start);
        if !bodies_agree(&t[2 * start..2 * end], limit, first) {
            return false;
        }
        at = end;
    }
}
