// Is a program there (1), has every index its binder (6), is every thread coherent (8)?
ghost use Rattle.std.specs.Prelude.{◌≡◌, ◌*◌, ◌≤◌, ◌<◌, length};
ghost use Rattle.table.specs.Checks.{in_force, checked_number, Checks, NoneAllocated};

use crate::closures::threads_agree;
use crate::kinds::Kind;
use crate::nodes::none_of;
use crate::walk::{Scope, walk};
use calculus::Refusal;

// The node limit in force: as far as 16-bit numbers and the scratch serve.
fn limit_in_force(limit: usize, scratch: usize) -> usize
    ensures { result ≡ in_force limit scratch }
{
    if scratch < 2 {
        return 0;
    }
    // identities are 16-bit numbers below twice the limit
    limit.min(32766).min(scratch - 2)
}

/// Whether no allocated abstraction stands among the first nodes.
pub fn none_allocated(t: &[u16], count: usize) -> bool
    requires count_in_bounds { 2 * count ≤ length t.now }
    requires count_bound { count < 65536 }
    ensures { NoneAllocated t.now count result }
{
    none_of(&t[..2 * count], Kind::Allocated)
}

/// The first of the three conditions that holds, over the whole table, or none. The scratch is lent: what it holds afterwards says nothing.
pub fn check(t: &[u16], count: usize, limit: usize, scratch: &mut [u16]) -> Result<(), Refusal>
    ensures { Checks (in_force limit (length scratch.old)) t.now count (checked_number result) }
{
    let n = limit_in_force(limit, scratch.len());
    if n == 0 {
        return Err(Refusal::NoProgram);
    }
    walk(t, count, n, Scope::Program, scratch)?;
    // a program without an allocated abstraction is coherent, and a rule set has none before it is run
    if none_allocated(t, count) {
        return Ok(());
    }
    walk(t, count, n, Scope::Closures, scratch)?;
    if threads_agree(t, n, scratch) {
        Ok(())
    } else {
        Err(Refusal::Incoherent)
    }
}
