// A text and a place in it, held together, and the item that stands there.
ghost use Rattle.std.specs.Prelude.{◌≡◌};
ghost use Rattle.csexp.specs.Items.{Takes};

use csexp::{Cursor, Item, Torn};

/// The reading place stays together with the text it belongs to.
#[derive(Clone, Copy)]
pub struct Reader<'a> {
    pub text: &'a [u8],
    pub at: usize,
}

pub fn reader_at<'a>(text: &'a [u8], at: usize) -> Reader<'a>
    ensures { (result.text ≡ text.entry) × (result.at ≡ at) }
{
    Reader { text, at }
}

/// The item where a reader stands.
pub fn next_item<'a>(r: Reader<'a>) -> Result<(Item, Cursor), Torn>
    ensures { Takes r.entry.text.now r.entry.at result }
{
    Cursor { at: r.at }.take(r.text)
}

/// The item at a place of a text, by a reader of its own.
pub fn item_from(text: &[u8], at: usize) -> Result<(Item, Cursor), Torn>
    ensures { Takes text.now at result }
{
    next_item(reader_at(text, at))
}
