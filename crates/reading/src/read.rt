// Text to table, with its refusals.
ghost use Rattle.std.specs.Prelude.{◌+◌, ◌*◌, ◌≤◌, ◌<◌, length};
ghost use Rattle.calculus.specs.Answers.{counted_values};
ghost use Rattle.calculus.specs.Sheets.{sheet};
ghost use Rattle.calculus.specs.Calls.{Reads};

use crate::parse::parse;
use calculus::Refusal;
use column::renew::count_column;
use column::room::holds;
use csexp::is_one;
use table::check::check;
use table::copy::copy_nodes;

// The text of a program has at most so many bytes for each of its nodes.
const BYTES_PER_NODE: usize = 12;

/// Reads a text into a table and its column. The build table, the scratch and the goals are lent; the limit is the node limit.
/// It builds apart from the output, into which nothing may be written before the last refusal is decided.
pub fn read(
    text: &[u8],
    out: &mut [u16],
    column: &mut [u16],
    limit: usize,
    build: &mut [u16],
    scratch: &mut [u16],
    goals: &mut [u8],
) -> Result<usize, Refusal>
    requires limit_bound { limit < 32767 }
    requires limit_in_bounds { 2 * limit ≤ length build.old }
    requires limit_in_bounds_2 { limit + 2 ≤ length scratch.old }
    requires limit_in_bounds_3 { 12 * limit + 2 ≤ length goals.old }
    ensures { Reads limit text.now (sheet out.old column.old) (counted_values result) (sheet out.new column.new) }
{
    if BYTES_PER_NODE * limit < text.len() {
        return Err(Refusal::TooLong);
    }
    if !is_one(text) {
        return Err(Refusal::NotCanonical);
    }
    let nodes = parse(text, limit, build, goals)?;
    if limit < nodes {
        return Err(Refusal::TooManyNodes);
    }
    check(build, nodes, limit, scratch).map_err(|_| Refusal::Incoherent)?;
    if holds(out.len(), column.len()) < nodes {
        return Err(Refusal::NoRoom);
    }
    copy_nodes(build, 0, nodes, out, 0);
    count_column(&build[..2 * nodes], column);
    Ok(nodes)
}
