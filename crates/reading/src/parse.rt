// One descent over the grammar. It gives 4 at once, and carries on for 5, 6 and 7 to the end of the text, past the node limit.
ghost use Rattle.std.specs.Prelude.{◌≡◌, [], ◌∷◌, ℕ, ◌+◌, ◌^◌, ◌<◌, ◌≤◌, length, Some};
ghost use Rattle.table.specs.Kinds.{kind_code};
ghost use Rattle.reading.specs.Reading.{Parses, parsed_values};
ghost use Rattle.reading.specs.Descent.{Noted, Heads, Tops, Ahead, Follows, Descends, number, one_term, descent_of, goals_of, GoalReady, TermReady, TurnRead, SameParse, Stays};

use crate::goals::{Goal, Waiting, announced, push};
use crate::items::{atom_at, close_at, open_at, tag_at};
use crate::numbers::number_in;
use calculus::Refusal;
use csexp::Cursor;
use table::kinds::Kind;
use table::nodes::put_node;

/// What a descent has met: the nodes, and whether an N was bad or an index without its binder. Two flags: both may hold, and the nodes are counted in any case.
#[derive(Clone, Copy, Default)]
pub struct Met {
    pub nodes: usize,
    pub bad: bool,
    pub loose: bool,
}

// A parse under way: the text and the node limit; the reading place, what was met and what waits; and the tables that are lent: for the nodes, and
// for the goals.
#[derive(Drop)]
struct Parser<'a> {
    text: &'a [u8],
    limit: usize,
    cursor: Cursor,
    met: Met,
    ahead: Waiting,
    build: &'a mut [u16],
    goals: &'a mut [u8],
}

impl<'a> Parser<'a> {
    // One more node, stored where there is room for it and counted in any case.
    fn put(&mut self, kind: Kind, number: u16)
        requires { self.old.met.nodes < 2 ^ 63 }
        ensures noted { Noted (kind_code kind) number self.old.met self.old.build.now self.new.met self.new.build.now }
        ensures cursor { self.new.cursor ≡ self.old.cursor }
        ensures stays { Stays self.old self.new }
    {
        if self.met.nodes < self.build.len() / 2 {
            put_node(self.build, self.met.nodes, kind.code(), number);
        }
        self.met.nodes += 1;
    }

    // The N of a node of this kind, below its bound. An index has its binder among those around it.
    fn number(&mut self, kind: Kind, below: usize) -> Option<()>
        requires { (below ≤ 65536) × (self.old.met.nodes ≤ self.old.cursor.at) }
        ensures descends { (n : ℕ) → Descends n self.old.text.now (number (kind_code kind) below self.old.ahead.binders ∷ []) self.old.cursor self.old.met self.old.build.now (descent_of result self.new) self.new.build.now }
        ensures stays { Stays self.old self.new }
    {
        let (place, n, next) = atom_at(self.text, self.cursor)?;
        self.cursor = next;
        let Some(v) = number_in(self.text, place, n, below) else {
            self.met.nodes += 1;
            self.met.bad = true;
            return Some(());
        };
        self.put(kind, v);
        if matches!(kind, Kind::Bound) && self.ahead.binders <= v as usize {
            self.met.loose = true;
        }
        Some(())
    }

    // The node of a term with this tag: its kind, and its N where it has one. A tag is the byte of a text, and may be any.
    fn head(&mut self, tag: u8) -> Option<()>
        requires { (self.old.limit < 65536) × (self.old.met.nodes + 1 ≤ self.old.cursor.at) × (self.old.cursor.at ≤ length self.old.text.now) }
        ensures heads { Heads self.old.limit self.old.text.now self.old.ahead.binders tag self.old.cursor self.old.met self.old.build.now (descent_of result self.new) self.new.build.now }
        ensures stays { Stays self.old self.new }
    {
        match tag {
            b'v' => self.number(Kind::Bound, self.limit)?,
            b'x' => self.number(Kind::Free, self.limit)?,
            b'c' => self.number(Kind::Constructor, 65536)?,
            b'l' => self.put(Kind::Abstraction, 0),
            b'L' => self.number(Kind::Allocated, self.limit)?,
            b'n' => self.put(Kind::Fresh, 0),
            b'a' => self.put(Kind::Application, 0),
            b'g' => self.put(Kind::Guard, 0),
            b'u' => self.put(Kind::Unification, 0),
            _ => return None,
        }
        Some(())
    }

    // A term before the goals that wait: its tag and its node. What its tag announces waits then, and its closing bracket.
    fn term(&mut self) -> Option<()>
        requires { TermReady self.old }
        ensures advances { TurnRead (one_term self.old.ahead.binders ∷ goals_of self.old) self.old result self.new }
        ensures same { SameParse self.old self.new }
    {
        let (tag, next) = tag_at(self.text, self.cursor)?;
        self.cursor = next;
        self.head(tag)?;
        self.ahead = announced(tag, self.ahead, self.goals);
        Some(())
    }

    // The members of a program that are the next goal: its closing bracket, or a term before them.
    fn member(&mut self) -> Option<()>
        requires before_goal { GoalReady self.old }
        requires tops { Tops self.old.goals.now self.old.ahead.top 1 }
        ensures advances { TurnRead (goals_of self.old) self.old result self.new }
        ensures same { SameParse self.old self.new }
    {
        if let Some(next) = close_at(self.text, self.cursor) {
            self.cursor = next;
            self.put(Kind::Empty, 0);
            self.ahead.top += 1;
            return Some(());
        }
        self.put(Kind::Alternative, 0);
        self.term()
    }

    // Reads the next goal.
    fn advance(&mut self) -> Option<()>
        requires before_goal { GoalReady self.old }
        requires top_in_bounds { self.old.ahead.top < length self.old.goals.now }
        ensures advances { TurnRead (goals_of self.old) self.old result self.new }
        ensures same { SameParse self.old self.new }
    {
        let top = self.ahead.top;
        match Goal::of(self.goals[top]) {
            Goal::Term => {
                self.ahead.top += 1;
                return self.term();
            }
            Goal::Members => return self.member(),
            Goal::Open => self.cursor = open_at(self.text, self.cursor)?,
            Goal::Close => self.cursor = close_at(self.text, self.cursor)?,
            Goal::CloseBinder => {
                self.cursor = close_at(self.text, self.cursor)?;
                self.ahead.binders -= 1;
            }
        }
        self.ahead.top += 1;
        Some(())
    }

    // One goal after another, until none is left.
    fn descend(&mut self) -> Option<()>
        requires { GoalReady self.old }
        ensures follows { Follows self.old.limit self.old.text.now (goals_of self.old) (Some (self.old.cursor, self.old.met)) self.old.build.now [] (descent_of result self.new) self.new.build.now }
        ensures ahead { Ahead self.old.text.now 0 (descent_of result self.new) }
        ensures same { SameParse self.old self.new }
    {
        // A `while`, since a turn reads one goal and pushes others.
        while self.ahead.top != self.goals.len() {
            self.advance()?;
        }
        Some(())
    }
}

/// The whole text as one program, and its nodes. The goals are lent: what is still to be read.
pub fn parse(s: &[u8], limit: usize, build: &mut [u16], goals: &mut [u8]) -> Result<usize, Refusal>
    requires limit_bound { limit < 65536 }
    requires s_in_bounds { length s.now + 2 ≤ length goals.old }
    ensures { Parses limit s.now build.new (parsed_values result) }
{
    // a program in brackets
    let end = goals.len();
    let last = push(goals, end, Goal::Members as u8);
    let top = push(goals, last, Goal::Open as u8);
    let mut p = Parser {
        text: s,
        limit,
        cursor: Cursor::start(),
        met: Met::default(),
        ahead: Waiting { top, binders: 0 },
        build,
        goals,
    };
    p.descend().ok_or(Refusal::OutOfPlace)?;
    if p.cursor.at != s.len() {
        return Err(Refusal::OutOfPlace); // more stands behind the program
    }
    if p.met.bad {
        return Err(Refusal::BadNumber);
    }
    if p.met.loose {
        return Err(Refusal::NoBinder);
    }
    Ok(p.met.nodes)
}
