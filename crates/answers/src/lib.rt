// Answers as C sees them: structs of numbers. What the fields mean stands in include/mespindro.h.
#![tactic(auto)]

use calculus::{Counts, Ran, Refusal, Standing, Stepped};

/// How many nodes or bytes stand at the front of the output; 0 and a refusal's number.
#[repr(C)]
#[derive(Clone, Copy)]
pub struct Count {
    pub count: usize,
    pub refusal: u16,
}

/// What a step made: the nodes of the new program, by which rule, in which thread; zeros and a refusal's number.
#[repr(C)]
#[derive(Clone, Copy, Default)]
pub struct Move {
    pub nodes: usize,
    pub thread: u32,
    pub rule: u16,
    pub refusal: u16,
}

/// Why a run stopped, the nodes it left, the steps taken and how many each rule made; zeros and a refusal's number.
#[repr(C)]
#[derive(Clone, Copy, Default)]
pub struct Stop {
    pub nodes: usize,
    pub steps: u32,
    pub counts: Counts,
    pub reason: u16,
    pub refusal: u16,
}

/// How a thread stands; or a refusal's number.
#[repr(C)]
#[derive(Clone, Copy)]
pub struct Stand {
    pub standing: u16,
    pub refusal: u16,
}

/// A part of the table: its first number, and how many numbers. It is `threads::Span` as C lays it out, as the others are the calls' answers.
#[repr(C)]
#[derive(Clone, Copy)]
pub struct Part {
    pub start: usize,
    pub length: usize,
}

impl From<Result<usize, Refusal>> for Count {
    ghost use Rattle.std.specs.Prelude.{◌≡◌};
    ghost use Rattle.calculus.specs.Answers.{counted_values};
    ghost use Rattle.answers.specs.Structs.{count_values};

    ghost from_gives = { λ x r. count_values r ≡ counted_values x };

    fn from(x: Result<usize, Refusal>) -> Count {
        match x {
            Ok(count) => Count { count, refusal: 0 },
            // one zero, so no `Default`
            Err(r) => Count {
                count: 0,
                refusal: r.number(),
            },
        }
    }
}

impl From<Result<Stepped, Refusal>> for Move {
    ghost use Rattle.std.specs.Prelude.{◌≡◌};
    ghost use Rattle.calculus.specs.Answers.{stepped_values};
    ghost use Rattle.answers.specs.Structs.{move_values};

    ghost from_gives = { λ x r. move_values r ≡ stepped_values x };

    fn from(x: Result<Stepped, Refusal>) -> Move {
        match x {
            Ok(made) => Move {
                nodes: made.nodes,
                thread: made.thread,
                rule: made.rule.code(),
                refusal: 0,
            },
            Err(r) => Move {
                refusal: r.number(),
                ..Move::default()
            },
        }
    }
}

impl From<Result<Ran, Refusal>> for Stop {
    ghost use Rattle.std.specs.Prelude.{◌≡◌};
    ghost use Rattle.calculus.specs.Answers.{ran_values};
    ghost use Rattle.answers.specs.Structs.{stop_values};

    ghost from_gives = { λ x r. stop_values r ≡ ran_values x };

    fn from(x: Result<Ran, Refusal>) -> Stop {
        match x {
            Ok(end) => Stop {
                nodes: end.nodes,
                steps: end.steps,
                counts: end.counts,
                reason: end.reason.code(),
                refusal: 0,
            },
            Err(r) => Stop {
                refusal: r.number(),
                ..Stop::default()
            },
        }
    }
}

impl From<Result<Standing, Refusal>> for Stand {
    ghost use Rattle.std.specs.Prelude.{◌≡◌};
    ghost use Rattle.calculus.specs.Answers.{stood_values};
    ghost use Rattle.answers.specs.Structs.{stand_values};

    ghost from_gives = { λ x r. stand_values r ≡ stood_values x };

    fn from(x: Result<Standing, Refusal>) -> Stand {
        match x {
            Ok(standing) => Stand {
                standing: standing.code(),
                refusal: 0,
            },
            // one zero, so no `Default`
            Err(r) => Stand {
                standing: 0,
                refusal: r.number(),
            },
        }
    }
}
