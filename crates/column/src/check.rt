// Is a program there (1), is its column right (14), has every index its binder (6), is every thread coherent (8)?
ghost use Rattle.std.specs.Prelude.{length};
ghost use Rattle.calculus.specs.Sheets.{sheet};
ghost use Rattle.table.specs.Checks.{in_force, checked_number};
ghost use Rattle.column.specs.Admissions.{ChecksWith};

use crate::sizes::check_column;
use calculus::Refusal;
use table::check::check;

/// The check of a table with its column. The column's own is a pass behind the table's, and 14 goes before what that found, but for 1.
pub fn check_with(
    t: &[u16],
    column: &[u16],
    count: usize,
    limit: usize,
    scratch: &mut [u16],
) -> Result<(), Refusal>
    ensures { ChecksWith (in_force limit (length scratch.old)) (sheet t.now column.now) count (checked_number result) }
{
    let checked = check(t, count, limit, scratch);
    if checked == Err(Refusal::NoProgram) || check_column(t, column, count) {
        return checked;
    }
    Err(Refusal::WrongColumn)
}
