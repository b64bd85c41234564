// Table to text.
ghost use Rattle.std.specs.Prelude.{◌≡◌, false, [], ◌∷◌, ◌≤◌, ◌<◌, length, get_or, IfSome, IfNone};
ghost use Rattle.table.specs.Kinds.{kind_code};
ghost use Rattle.writing.specs.Writing.{CountedProgram, TextLength, RoomForText, CellsForText, TextWritten};
ghost use Rattle.writing.specs.Writer.{DigitCount, has_number, NodeBytes, tags, Pushed, Asked, Put};
ghost use Rattle.writing.specs.Cells.{code, Popped};

use table::kinds::Kind;
use table::nodes::{Node, node_at};

// How many digits the plain decimal of a number has. `checked_ilog10` gives none for 0, and is no plainer.
fn digits(n: u16) -> usize
    ensures { DigitCount n result }
{
    match n {
        0..10 => 1,
        10..100 => 2,
        100..1000 => 3,
        1000..10000 => 4,
        _ => 5,
    }
}

// Whether a node of the kind has a number.
fn has_number(kind: Kind) -> bool
    ensures { result ≡ get_or has_number (kind_code kind) false }
{
    matches!(
        kind,
        Kind::Bound | Kind::Free | Kind::Constructor | Kind::Allocated
    )
}

// The bytes that a node adds to its program's text: a closing bracket counts with its opening one, an empty program is two brackets.
fn node_bytes(n: Node) -> usize
    ensures { NodeBytes n.kind n.number result }
{
    // a number that no kind has stands in no program
    let Ok(kind) = Kind::try_from(n.kind) else {
        return 5;
    };
    match kind {
        Kind::Empty => 2,
        Kind::Alternative => 0,
        _ if has_number(kind) => 7 + digits(n.number),
        _ => 5,
    }
}

/// The length of the text of the program at the front of a table.
pub fn text_length(t: &[u16], count: usize) -> usize
    requires counted_program { CountedProgram t.now count }
    requires count_bound { count < 65536 }
    ensures { TextLength t.now result }
{
    let mut total: usize = 0;
    for at in 0..count {
        total += node_bytes(node_at(t, at));
    }
    total
}

/// An output: the bytes of it, and how many are written.
#[derive(Drop)]
pub struct Output<'a> {
    pub bytes: &'a mut [u8],
    pub at: usize,
}

impl<'a> Output<'a> {
    ghost use Rattle.table.specs.Kinds.{kind_code};
    ghost use Rattle.writing.specs.Writer.{tag_bytes, numeral, head_bytes, Fits, Wrote};

    /// One byte.
    pub fn put(&mut self, b: u8)
        requires { Fits self.old (b ∷ []) }
        ensures { Wrote self.old self.new (b ∷ []) }
    {
        self.bytes[self.at] = b;
        self.at += 1;
    }

    /// Some bytes.
    pub fn put_all(&mut self, b: &[u8])
        requires { Fits self.old b.now }
        ensures { Wrote self.old self.new b.now }
    {
        let end = self.at + b.len();
        self.bytes[self.at..end].copy_from_slice(b);
        self.at = end;
    }

    /// A number as an N: its length of one digit, a colon, its digits from the last to the first. No `Display`: the bytes go into lent memory.
    pub fn put_number(&mut self, n: u16)
        requires { Fits self.old (numeral n) }
        ensures { Wrote self.old self.new (numeral n) }
    {
        let d = digits(n);
        self.put(b'0' + d as u8);
        self.put(b':');
        let mut left = n;
        let end = self.at + d;
        for i in (self.at..end).rev() {
            self.bytes[i] = b'0' + (left % 10) as u8;
            left /= 10;
        }
        self.at = end;
    }

    // An opening bracket and a tag, the byte that stands in the text.
    fn put_tag(&mut self, tag: u8)
        requires { Fits self.old (tag_bytes tag) }
        ensures { Wrote self.old self.new (tag_bytes tag) }
    {
        self.put(b'(');
        self.put(b'1');
        self.put(b':');
        self.put(tag);
    }

    // What a term of the kind begins with: bracket, tag and, where it has one, its number.
    fn put_head(&mut self, kind: Kind, number: u16)
        requires { Fits self.old (head_bytes (kind_code kind) number) }
        ensures { Wrote self.old self.new (head_bytes (kind_code kind) number) }
    {
        self.put_tag(tag_of(kind));
        if has_number(kind) {
            self.put_number(number);
        }
    }
}

// The tag of a term of the kind. A program has none.
fn tag_of(kind: Kind) -> u8
    ensures { result ≡ get_or tags (kind_code kind) 0 }
{
    match kind {
        Kind::Empty | Kind::Alternative => 0,
        Kind::Bound => b'v',
        Kind::Free => b'x',
        Kind::Constructor => b'c',
        Kind::Abstraction => b'l',
        Kind::Allocated => b'L',
        Kind::Application => b'a',
        Kind::Fresh => b'n',
        Kind::Guard => b'g',
        Kind::Unification => b'u',
    }
}

// A piece of the text that is still to be written.
#[derive(Clone, Copy)]
enum Piece {
    /// The term at the next node.
    Term,
    /// The rest of a program, from the next node on, with its closing bracket.
    Rest,
    /// A closing bracket.
    Close,
}

impl Piece {
    ghost use Rattle.writing.specs.Cells.{StandsFor};

    // The piece that a cell of the stack stands for.
    fn of(cell: u16) -> Piece
        ensures { StandsFor cell result }
    {
        match cell {
            0 => Piece::Term,
            2 => Piece::Close,
            _ => Piece::Rest,
        }
    }
}

// The pieces that are still to be written, the next one on top, in a lent stack.
#[derive(Drop)]
struct Stack<'a> {
    cells: &'a mut [u16],
    top: usize,
}

impl<'a> Stack<'a> {
    // One piece on top.
    fn push(&mut self, piece: Piece)
        requires { self.old.top < length self.old.cells.now }
        ensures { Pushed self.old.cells.now self.new.cells.now self.old.top self.new.top (code piece) }
    {
        self.cells[self.top] = piece as u16;
        self.top += 1;
    }

    // The piece on top, off the stack.
    fn pop(&mut self) -> Option<Piece>
        requires { self.old.top ≤ length self.old.cells.now }
        ensures some { IfSome result (λ piece. Popped self.old.cells.now self.new.cells.now self.old.top self.new.top piece) }
        ensures none { IfNone result (self.old.top ≡ 0) }
    {
        if self.top == 0 {
            return None;
        }
        self.top -= 1;
        Some(Piece::of(self.cells[self.top]))
    }
}

// A term: what it begins with; its parts and its closing bracket go on the stack, the first part on top. Where the next node is.
// Inlined at both calls: so the places in the output and on the stack are numbers at hand and not in memory.
#[inline(always)]
fn put_term(t: &[u16], at: usize, out: &mut Output<'_>, stack: &mut Stack<'_>) -> usize
    requires { Asked 0 t.now at out.old stack.old.cells.now stack.old.top }
    ensures { Put 0 t.now at out.old stack.old.cells.now stack.old.top out.new stack.new.cells.now result stack.new.top }
{
    let n = node_at(t, at);
    let node = at + 1;
    // a term stands there, so its number is a kind's
    let Ok(kind) = Kind::try_from(n.kind) else {
        return node;
    };
    out.put_head(kind, n.number);
    // variables and constructors have no part, the two abstractions a program, a fresh a term, the others two terms
    if kind.parts() == 0 {
        out.put(b')');
        return node;
    }
    stack.push(Piece::Close);
    match kind {
        Kind::Abstraction | Kind::Allocated => {
            out.put(b'(');
            stack.push(Piece::Rest);
        }
        Kind::Fresh => stack.push(Piece::Term),
        _ => {
            stack.push(Piece::Term); // the second part
            stack.push(Piece::Term);
        }
    }
    node
}

// The piece that was on top. Where the next node is.
fn put_piece(
    t: &[u16],
    piece: Piece,
    at: usize,
    out: &mut Output<'_>,
    stack: &mut Stack<'_>,
) -> usize
    requires { Asked (code piece) t.now at out.old stack.old.cells.now stack.old.top }
    ensures { Put (code piece) t.now at out.old stack.old.cells.now stack.old.top out.new stack.new.cells.now result stack.new.top }
{
    match piece {
        Piece::Term => put_term(t, at, out, stack),
        Piece::Close => {
            out.put(b')');
            at
        }
        Piece::Rest => {
            let n = node_at(t, at);
            let next = at + 1;
            if n.is(Kind::Empty) {
                out.put(b')');
                return next;
            }
            stack.push(Piece::Rest);
            put_term(t, next, out, stack)
        }
    }
}

/// The text of the program at the front of a table, at the front of the output. The stack is lent: what it holds afterwards says nothing.
pub fn put_text(t: &[u16], out: &mut [u8], stack: &mut [u16])
    requires room_for_text { RoomForText t.now out.old }
    requires cells_for_text { CellsForText t.now stack.old }
    ensures { TextWritten t.now out.old out.new }
{
    let mut out = Output { bytes: out, at: 0 };
    let mut stack = Stack {
        cells: stack,
        top: 0,
    };
    out.put(b'(');
    stack.push(Piece::Rest);
    let mut node = 0;
    // a piece puts others on the stack: no range or list is gone through
    while let Some(piece) = stack.pop() {
        node = put_piece(t, piece, node, &mut out, &mut stack);
    }
}
