// Table to text, with its refusals.
ghost use Rattle.std.specs.Prelude.{◌+◌, ◌≤◌, ◌<◌, length};
ghost use Rattle.calculus.specs.Answers.{counted_values};
ghost use Rattle.calculus.specs.Sheets.{sheet};
ghost use Rattle.calculus.specs.Calls.{Writes};

use crate::write::{put_text, text_length};
use calculus::Refusal;
use column::check::check_with;

/// Writes the text of the program in a table with its column. The scratch is lent; the limit is the node limit.
pub fn write(
    t: &[u16],
    column: &[u16],
    count: usize,
    out: &mut [u8],
    limit: usize,
    scratch: &mut [u16],
) -> Result<usize, Refusal>
    requires limit_bound { limit < 32767 }
    requires limit_in_bounds { limit + 2 ≤ length scratch.old }
    ensures { Writes limit (sheet t.now column.now) count out.old (counted_values result) out.new }
{
    check_with(t, column, count, limit, scratch)?;
    let n = text_length(t, count);
    if out.len() < n {
        return Err(Refusal::NoRoom);
    }
    put_text(t, out, scratch);
    Ok(n)
}
