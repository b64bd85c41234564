// The kinds of nodes, by document 01's numbers.
ghost use Rattle.std.specs.Prelude.{◌≡◌, get_or};
ghost use Rattle.table.specs.Kinds.{kind_code, ReadsKind};
ghost use Rattle.table.specs.Nodes.{parts};

/// What a node is.
#[derive(Clone, Copy)]
pub enum Kind {
    Empty = 0,
    Alternative = 1,
    Bound = 2,
    Free = 3,
    Constructor = 4,
    Abstraction = 5,
    Allocated = 6,
    Application = 7,
    Fresh = 8,
    Guard = 9,
    Unification = 10,
}

/// A number that no kind has.
#[derive(Clone, Copy)]
pub struct UnknownKind(pub u16);

impl TryFrom<u16> for Kind {
    type Error = UnknownKind;

    ghost try_from_gives = { ReadsKind };

    fn try_from(code: u16) -> Result<Self, UnknownKind> {
        match code {
            0 => Ok(Kind::Empty),
            1 => Ok(Kind::Alternative),
            2 => Ok(Kind::Bound),
            3 => Ok(Kind::Free),
            4 => Ok(Kind::Constructor),
            5 => Ok(Kind::Abstraction),
            6 => Ok(Kind::Allocated),
            7 => Ok(Kind::Application),
            8 => Ok(Kind::Fresh),
            9 => Ok(Kind::Guard),
            10 => Ok(Kind::Unification),
            _ => Err(UnknownKind(code)),
        }
    }
}

impl Kind {
    /// Its number in a table.
    pub fn code(self) -> u16
        ensures { result ≡ kind_code self }
    {
        self as u16
    }

    /// How many parts a node of the kind has.
    pub fn parts(self) -> usize
        ensures { result ≡ get_or parts (kind_code self) 0 }
    {
        match self {
            Kind::Alternative | Kind::Application | Kind::Guard | Kind::Unification => 2,
            Kind::Abstraction | Kind::Allocated | Kind::Fresh => 1,
            Kind::Empty | Kind::Bound | Kind::Free | Kind::Constructor => 0,
        }
    }
}
