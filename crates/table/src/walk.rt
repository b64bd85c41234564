// Is a program there (1), and has every index its binder (6, and the first rule of coherence)?
// What is still to stand is a lent stack that grows down, a cell each.
ghost use Rattle.std.specs.Prelude.{◌≡◌, ◌+◌, ◌≤◌, ◌<◌, length};
ghost use Rattle.table.specs.Checks.{checked_number, unbound, within, Walks};
ghost use Rattle.table.specs.Kinds.{kind_code};
ghost use Rattle.table.specs.Pending.{want, kept, sort_of, may, last_sort, binds, last_part, PartsPut};

use crate::kinds::Kind;
use crate::nodes::node_at;
use calculus::Refusal;

/// Which binders count for what stands inside an allocated abstraction: every one around it, or only those inside it.
#[derive(Clone, Copy)]
pub enum Scope {
    Program,
    Closures,
}

impl Scope {
    // Why an index without a binder is refused.
    fn fault(self) -> Refusal
        ensures { result ≡ unbound (within self) }
    {
        match self {
            Scope::Program => Refusal::NoBinder,
            Scope::Closures => Refusal::Incoherent,
        }
    }
}

// What must stand at a node; its number is what a cell adds for it.
#[derive(Clone, Copy)]
enum Sort {
    Term = 0,
    Program = 1,
}

// A tree that is still to stand, and how many binders are around it.
#[derive(Clone, Copy)]
struct Wanted {
    sort: Sort,
    binders: u16,
}

impl Wanted {
    // What a cell keeps: twice the binders, and 1 more for a program.
    fn of(cell: u16) -> Wanted
        ensures { kept cell ≡ want (sort_of result.sort) result.binders }
    {
        Wanted {
            sort: if cell % 2 == 1 {
                Sort::Program
            } else {
                Sort::Term
            },
            binders: cell / 2,
        }
    }

    // The cell that keeps it.
    fn cell(self) -> u16
        requires { self.binders < 32768 }
        ensures { kept result ≡ want (sort_of self.sort) self.binders }
    {
        2 * self.binders + self.sort as u16
    }
}

// May a node of the kind, with the number m, stand where a tree of the sort must?
fn may_stand(kind: Kind, m: u16, sort: Sort, limit: usize) -> bool
    ensures { result ≡ may limit (sort_of sort) (kind_code kind) m }
{
    match sort {
        Sort::Program => match kind {
            Kind::Empty | Kind::Alternative => m == 0,
            _ => false,
        },
        Sort::Term => match kind {
            Kind::Empty | Kind::Alternative => false,
            Kind::Bound | Kind::Free | Kind::Allocated => (m as usize) < limit,
            Kind::Constructor => true,
            Kind::Abstraction | Kind::Application | Kind::Fresh | Kind::Guard | Kind::Unification =>
                m == 0,
        },
    }
}

// The sort of the last part of a node of the kind; a term's where the node has no part.
fn last_sort(kind: Kind) -> Sort
    ensures { sort_of result ≡ last_sort (kind_code kind) }
{
    match kind {
        Kind::Alternative | Kind::Abstraction | Kind::Allocated => Sort::Program,
        _ => Sort::Term,
    }
}

// How many binders a node of the kind is: 1 or none.
fn binds(kind: Kind) -> u16
    ensures { result ≡ binds (kind_code kind) }
{
    u16::from(matches!(kind, Kind::Abstraction | Kind::Allocated | Kind::Fresh))
}

// The last part of a node of the kind, with d binders around it; a term with as many where that is no other.
// The sort and the binders are asked for apart, so that each question is a test of bits of a constant. One match for both would be a jump through a table,
// which a processor guesses wrong where the kinds of nodes change without order.
fn last_part(kind: Kind, d: u16, scope: Scope) -> Wanted
    requires { d < 32767 }
    ensures part { want (sort_of result.sort) result.binders ≡ last_part (within scope) d (kind_code kind) }
    ensures binders_bound { result.binders < 32768 }
{
    let binders = match (kind, scope) {
        (Kind::Allocated, Scope::Closures) => 1,
        _ => d + binds(kind),
    };
    Wanted {
        sort: last_sort(kind),
        binders,
    }
}

// Puts the parts of a node of the kind, with d binders around it, on top; gives the new top. A place below the top is free: both are written.
fn put_parts(pending: &mut [u16], top: usize, kind: Kind, d: u16, scope: Scope) -> usize
    requires le_top { 2 ≤ top }
    requires top_in_bounds { top ≤ length pending.old }
    requires d_bound { d < 32767 }
    ensures { PartsPut (within scope) d (kind_code kind) top pending.old pending.new result }
{
    let first = Wanted {
        sort: Sort::Term,
        binders: d,
    };
    pending[top - 1] = last_part(kind, d, scope).cell();
    pending[top - 2] = first.cell();
    top - kind.parts()
}

/// One walk over the nodes: no program with its numbers in range is there, or an index has no binder, or neither.
pub fn walk(
    t: &[u16],
    count: usize,
    limit: usize,
    scope: Scope,
    pending: &mut [u16],
) -> Result<(), Refusal>
    requires limit_bound { limit < 32768 }
    requires limit_in_bounds { limit + 2 ≤ length pending.old }
    ensures { Walks limit (within scope) t.now count (checked_number result) }
{
    if limit < count || t.len() / 2 < count {
        return Err(Refusal::NoProgram);
    }
    let end = pending.len();
    let mut top = end - 1;
    pending[top] = 1;
    let mut bound = true;
    for at in 0..count {
        if top == end {
            return Err(Refusal::NoProgram);
        }
        let wanted = Wanted::of(pending[top]);
        let d = wanted.binders;
        let n = node_at(t, at);
        let Ok(kind) = Kind::try_from(n.kind) else {
            return Err(Refusal::NoProgram);
        };
        if !may_stand(kind, n.number, wanted.sort, limit) {
            return Err(Refusal::NoProgram);
        }
        if n.is(Kind::Bound) && d <= n.number {
            bound = false;
        }
        top = put_parts(pending, top + 1, kind, d, scope);
    }
    if top != end {
        return Err(Refusal::NoProgram);
    }
    if bound { Ok(()) } else { Err(scope.fault()) }
}
