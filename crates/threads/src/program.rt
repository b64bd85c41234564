// A checked program and its threads, seen as document 003's trees.
ghost use Rattle.std.specs.Prelude.{◌≡◌, ◌*◌, ◌≤◌, length, slice_get, IfSome, IfNone, IfOk, Some};
ghost use Rattle.calculus.specs.Tree.{empty, alt, threads};
ghost use Rattle.calculus.specs.Sheets.{sheet};
ghost use Rattle.calculus.specs.Good.{Good};
ghost use Rattle.calculus.specs.Calls.{TableOf};
ghost use Rattle.table.specs.Checks.{in_force};
ghost use Rattle.column.specs.Admissions.{ChecksWith};
ghost use Rattle.threads.specs.Programs.{ProgramLies, ThreadLies, FirstEnds, one_program, one_thread, admission_number};

use calculus::Refusal;
use column::check::check_with;
use column::sizes::size_at;
use std::marker::Model;
use table::kinds::Kind;
use table::nodes::node_at;

/// A thread, seen as its term: the slices are its nodes, and a column that begins with its own.
#[derive(Drop)]
pub struct Thread<'a> {
    pub nodes: &'a [u16],
    pub sizes: &'a [u16],
    ghost lies: { ThreadLies nodes.now sizes.now } by { one_thread nodes.now sizes.now },
}

impl<'a> Model for Thread<'a> {
    ghost use Rattle.calculus.specs.Tree.{term, Tree};
    ghost use Rattle.threads.specs.Programs.{tree_code};

    ghost Value = { Tree term };

    ghost coded = { tree_code term };

    ghost view = { λ t. t.lies.0 };
}

/// A program, seen as document 003 has it: the slices begin with its nodes and its column.
#[derive(Drop)]
pub struct Program<'a> {
    pub nodes: &'a [u16],
    pub sizes: &'a [u16],
    ghost lies: { ProgramLies nodes.now sizes.now } by { one_program nodes.now sizes.now },
}

impl<'a> Model for Program<'a> {
    ghost use Rattle.calculus.specs.Tree.{program, Tree};
    ghost use Rattle.threads.specs.Programs.{tree_code};

    ghost Value = { Tree program };

    ghost coded = { tree_code program };

    ghost view = { λ p. p.lies.0 };
}

// The node behind the first thread; none where the program is the empty one.
fn first_end(nodes: &[u16], sizes: &[u16]) -> Option<usize>
    requires { ProgramLies nodes.now sizes.now }
    ensures bounds { IfSome result (λ e. (1 ≤ e) × ((2 * e ≤ length nodes.now) × (e ≤ length sizes.now))) }
    ensures some { IfSome result (FirstEnds nodes.now sizes.now) }
    ensures none { IfNone result ((p : ProgramLies nodes.now sizes.now) → p.0 ≡ empty) }
{
    if node_at(nodes, 0).is(Kind::Empty) {
        return None;
    }
    Some(1 + size_at(sizes, 1))
}

impl<'a> Program<'a> {
    /// The first thread, and the program of the others; none where the program is the empty one.
    pub fn split_first(&self) -> Option<(Thread<'a>, Program<'a>)>
        ensures some { IfSome result (λ r. self.now ≡ alt r.0 r.1) }
        ensures none { IfNone result (self.now ≡ empty) }
    {
        let nodes = self.nodes;
        let sizes = self.sizes;
        let end = first_end(nodes, sizes)?;
        let thread = Thread {
            nodes: &nodes[2..2 * end],
            sizes: &sizes[1..],
        };
        let rest = Program {
            nodes: &nodes[2 * end..],
            sizes: &sizes[end..],
        };
        Some((thread, rest))
    }

    /// The thread k; none where there are not so many.
    #[tactic(auto, using(crate::proofs::Programs::passing))]
    pub fn thread(&self, k: usize) -> Option<Thread<'a>>
        ensures some { IfSome result (λ t. slice_get (threads self.now) k ≡ Some t) }
        ensures none { IfNone result (length (threads self.now) ≤ k) }
    {
        let (mut thread, mut rest) = self.split_first()?;
        for _ in 0..k {
            (thread, rest) = rest.split_first()?;
        }
        Some(thread)
    }
}

/// The check of a table with its column, which hands over the program that it admits.
pub fn checked<'a>(
    t: &'a [u16],
    column: &'a [u16],
    count: usize,
    limit: usize,
    scratch: &mut [u16],
) -> Result<Program<'a>, Refusal>
    ensures checks { ChecksWith (in_force limit (length scratch.old)) (sheet t.now column.now) count (admission_number result) }
    ensures good { IfOk result (λ p. TableOf (in_force limit (length scratch.old)) t.now count p × Good (in_force limit (length scratch.old)) p) }
{
    check_with(t, column, count, limit, scratch)?;
    Ok(Program {
        nodes: t,
        sizes: column,
    })
}
