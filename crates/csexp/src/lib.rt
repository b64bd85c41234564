// Rivest's canonical form over bytes: a cursor that takes one item after another, and whether a text is one expression.
#![tactic(auto)]

ghost use Rattle.std.specs.Prelude.{◌≡◌, ◌+◌, ◌-◌, ◌*◌, ◌^◌, ◌<◌, ◌≤◌, length, get_or};
ghost use Rattle.csexp.specs.Items.{Takes, TakesNumber, taken_number, OneExpression};
ghost use Rattle.csexp.specs.Lengths.{LengthKept};

/// The reading place. A reader that has taken one item hands its place on to the next.
#[derive(Clone, Copy)]
pub struct Cursor {
    pub at: usize,
}

/// A bracket, or an atom: where its bytes begin, and how many there are.
#[derive(Clone, Copy, PartialEq, Eq)]
pub enum Item {
    Open,
    Close,
    Atom(usize, usize),
}

/// Why no item is taken: the text ends within it, or the byte at a place can't begin or continue one.
#[derive(Clone, Copy)]
pub enum Torn {
    Cut,
    Bad(usize),
}

// One more digit of a length. A length beyond the text stays one beyond it, so that nothing wraps.
fn longer(n: usize, digit: u8, most: usize) -> usize
    requires { (48 ≤ digit) × (digit < 58) × (most + 9 < 2 ^ 64) }
    ensures { LengthKept most result (10 * n + (digit - 48)) }
{
    let next = n.saturating_mul(10).saturating_add((digit - b'0') as usize);
    next.min(most + 1)
}

// The atom whose length begins at a digit.
fn atom_at(s: &[u8], at: usize) -> Result<(Item, Cursor), Torn>
    requires { (at < length s.now) × (48 ≤ get_or s.now at 0) × (get_or s.now at 0 < 58) }
    ensures { Takes s.now at result }
{
    let most = s.len();
    let first = s[at];
    let mut n = (first - b'0') as usize;
    let mut i = at + 1;
    // A length that begins with 0 has no second digit. A `while`, since the place where the digits end is needed behind the loop.
    while first != b'0' && i < most && s[i].is_ascii_digit() {
        n = longer(n, s[i], most);
        i += 1;
    }
    if i == most {
        return Err(Torn::Cut);
    }
    if s[i] != b':' {
        return Err(Torn::Bad(i));
    }
    let place = i + 1;
    if most - place < n {
        return Err(Torn::Cut);
    }
    Ok((Item::Atom(place, n), Cursor { at: place + n }))
}

impl Cursor {
    pub fn start() -> Self
        ensures { result.at ≡ 0 }
    {
        Cursor { at: 0 }
    }

    /// The item at the cursor, and the cursor behind it.
    pub fn take(self, s: &[u8]) -> Result<(Item, Cursor), Torn>
        ensures takes { Takes s.now self.at result }
        ensures takes_number { TakesNumber s.now self.at (taken_number result) }
    {
        let at = self.at;
        if s.len() <= at {
            return Err(Torn::Cut);
        }
        match s[at] {
            b'(' => Ok((Item::Open, Cursor { at: at + 1 })),
            b')' => Ok((Item::Close, Cursor { at: at + 1 })),
            b'0'..=b'9' => atom_at(s, at),
            _ => Err(Torn::Bad(at)),
        }
    }
}

/// Is the whole text exactly one expression? `depth` brackets are open.
pub fn is_one(s: &[u8]) -> bool
    ensures { OneExpression s.now result }
{
    let mut c = Cursor::start();
    let mut depth: usize = 0;
    while let Ok((item, next)) = c.take(s) {
        match item {
            Item::Open => depth += 1,
            Item::Close if depth == 0 => return false,
            Item::Close => depth -= 1,
            Item::Atom(..) => {}
        }
        if depth == 0 {
            return next.at == s.len();
        }
        c = next;
    }
    false
}
