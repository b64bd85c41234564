// What is still to be read: a lent stack of goals, a byte each, which grows down from the end of its slice.
// A descent by calls takes machine stack for each level of a text, and a text has thousands.
ghost use Rattle.std.specs.Prelude.{◌+◌, ◌<◌, ◌≤◌, length};
ghost use Rattle.reading.specs.Descent.{Announces, Pushes};

/// What a goal asks for: a term; the members of a program with its closing bracket; an opening bracket; a closing one; or one that ends a binder.
#[derive(Clone, Copy)]
pub enum Goal {
    Term,
    Members,
    Open,
    Close,
    CloseBinder,
}

impl Goal {
    ghost use Rattle.reading.specs.Descent.{Codes};

    // The goal of a cell. Any number but the first four is that of a bracket that ends a binder.
    pub(crate) fn of(cell: u8) -> Goal
        ensures { Codes result cell }
    {
        match cell {
            0 => Goal::Term,
            1 => Goal::Members,
            2 => Goal::Open,
            3 => Goal::Close,
            _ => Goal::CloseBinder,
        }
    }
}

/// Where the next goal stands, and the binders around it: as many as the goals that end one.
#[derive(Clone, Copy)]
pub struct Waiting {
    pub top: usize,
    pub binders: usize,
}

/// One more goal, before those that wait. A goal is a byte here, since the stack is lent as bytes and any byte is allowed.
pub fn push(goals: &mut [u8], top: usize, goal: u8) -> usize
    requires { (0 < top) × (top ≤ length goals.old) }
    ensures { Pushes goal goals.old top result goals.new }
{
    let next = top - 1;
    goals[next] = goal;
    next
}

/// What a tag announces, up to the closing bracket. A tag is a byte of the text, and may be any.
pub fn announced(tag: u8, w: Waiting, goals: &mut [u8]) -> Waiting
    requires { (3 ≤ w.top) × (w.top ≤ length goals.old) × (w.binders < length goals.old) }
    ensures { Announces tag w goals.old result goals.new }
{
    let inside = w.binders + 1;
    match tag {
        b'v' | b'x' | b'c' => Waiting {
            top: push(goals, w.top, Goal::Close as u8),
            ..w
        },
        b'l' | b'L' => {
            let third = push(goals, w.top, Goal::CloseBinder as u8);
            let second = push(goals, third, Goal::Members as u8);
            Waiting {
                top: push(goals, second, Goal::Open as u8),
                binders: inside,
            }
        }
        b'n' => {
            let second = push(goals, w.top, Goal::CloseBinder as u8);
            Waiting {
                top: push(goals, second, Goal::Term as u8),
                binders: inside,
            }
        }
        _ => {
            let third = push(goals, w.top, Goal::Close as u8);
            let second = push(goals, third, Goal::Term as u8);
            Waiting {
                top: push(goals, second, Goal::Term as u8),
                ..w
            }
        }
    }
}
