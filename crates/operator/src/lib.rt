// Reading an operator's text, for the program on standard input: as the library's small read does, but for 15 where the text holds a closure.
#![tactic(auto)]

ghost use Rattle.std.specs.Prelude.{◌≤◌};
ghost use Rattle.calculus.specs.Answers.{counted_values};
ghost use Rattle.calculus.specs.Sheets.{sheet, holds};
ghost use Rattle.small.specs.Limit.{small_limit};
ghost use Rattle.operator.specs.Operator.{ReadsOperators, TurnedAway};

use calculus::Refusal;
use table::check::none_allocated;

// The refusal of an operator's text that the reader refuses: what is incoherent holds a closure. One refusal becomes another, so it is no `From`.
fn turned_away(r: Refusal) -> Refusal
    ensures { TurnedAway r result }
{
    match r {
        Refusal::Incoherent => Refusal::Closure,
        _ => r,
    }
}

/// Reads an operator's text into a table and its column that hold whatever is within the limit.
pub fn read(text: &[u8], table: &mut [u16], column: &mut [u16]) -> Result<usize, Refusal>
    requires { small_limit ≤ holds (sheet table.old column.old) }
    ensures { ReadsOperators small_limit text.now (sheet table.old column.old) (counted_values result) (sheet table.new column.new) }
{
    match small::read(text, table, column) {
        Ok(count) if none_allocated(table, count) => Ok(count),
        Ok(_) => Err(Refusal::Closure),
        Err(refusal) => Err(turned_away(refusal)),
    }
}
