// What the grammar asks of the next items of a text. Each takes a cursor and hands the next one on.
ghost use Rattle.std.specs.Prelude.{◌≡◌, ℕ, ◌<◌, [], ◌∷◌};
ghost use Rattle.csexp.specs.Items.{item_bytes};
ghost use Rattle.reading.specs.Descent.{FoundAt, AtomAt, TagAt};

use crate::reader::item_from;
use csexp::{Cursor, Item};

// Behind this bracket, where it is next.
fn bracket(s: &[u8], c: Cursor, which: Item) -> Option<Cursor>
    ensures { (k : ℕ) → k < 48 → item_bytes s.now which ≡ k ∷ [] → FoundAt k s.now c.at result }
{
    match c.take(s) {
        Ok((item, next)) if item == which => Some(next),
        _ => None,
    }
}

/// Behind an opening bracket, where one is next.
pub fn open_at(s: &[u8], c: Cursor) -> Option<Cursor>
    ensures { FoundAt 40 s.now c.at result }
{
    bracket(s, c, Item::Open)
}

/// The same for a closing one.
pub fn close_at(s: &[u8], c: Cursor) -> Option<Cursor>
    ensures { FoundAt 41 s.now c.at result }
{
    bracket(s, c, Item::Close)
}

/// An atom: where its bytes begin, how many there are, and the cursor behind it.
pub fn atom_at(s: &[u8], c: Cursor) -> Option<(usize, usize, Cursor)>
    ensures { AtomAt s.now c.at result }
{
    let Ok((item, next)) = item_from(s, c.at) else {
        return None;
    };
    let Item::Atom(place, n) = item else {
        return None;
    };
    Some((place, n, next))
}

/// A term's tag of one byte, behind its opening bracket, and the cursor behind it.
pub fn tag_at(s: &[u8], c: Cursor) -> Option<(u8, Cursor)>
    ensures { TagAt s.now c.at result }
{
    let (place, n, next) = atom_at(s, open_at(s, c)?)?;
    if n == 1 { Some((s[place], next)) } else { None }
}
