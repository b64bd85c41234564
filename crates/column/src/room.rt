// How much is lent.
ghost use Rattle.std.specs.Prelude.{◌≡◌, ◌/◌, min};

/// How many nodes a table of so many numbers and a column of so many entries hold together.
pub fn holds(table: usize, column: usize) -> usize
    ensures { result ≡ min (table / 2) column }
{
    (table / 2).min(column)
}
