// The kinds of nodes. "Each kind has one fixed number"; any other number is an unknown kind.
ghost use Rattle.std.specs.Prelude.{◌≡◌, eqb};
ghost use Rattle.definitions.specs.Nodes.{kind_number, operands};
ghost use Rattle.definitions.specs.Tables.{is_unknown, is_rewritten};
ghost use Rattle.rules.specs.Kinds.{kind_in, OfNumber, is_leaf};

#[derive(Clone, Copy, PartialEq, Eq)]
pub enum Kind {
    True,
    Atom,
    Not,
    Or,
    Next,
    Until,
    Prev,
    Since,
    Run,
    End,
    // Keeps the number that it is told by.
    Unknown(u8),
}

impl From<u8> for Kind {
    ghost from_gives = { λ number kind. OfNumber number kind };

    fn from(number: u8) -> Kind {
        match number {
            0 => Kind::True,
            1 => Kind::Atom,
            2 => Kind::Not,
            3 => Kind::Or,
            4 => Kind::Next,
            5 => Kind::Until,
            6 => Kind::Prev,
            7 => Kind::Since,
            8 => Kind::Run,
            9 => Kind::End,
            _ => Kind::Unknown(number),
        }
    }
}

impl Kind {
    pub fn number(self) -> u8
        ensures { result ≡ kind_number (kind_in self) }
    {
        match self {
            Kind::True => 0,
            Kind::Atom => 1,
            Kind::Not => 2,
            Kind::Or => 3,
            Kind::Next => 4,
            Kind::Until => 5,
            Kind::Prev => 6,
            Kind::Since => 7,
            Kind::Run => 8,
            Kind::End => 9,
            Kind::Unknown(_) => 10,
        }
    }

    pub fn is_unknown(self) -> bool
        ensures { result ≡ is_unknown (kind_in self) }
    {
        matches!(self, Kind::Unknown(_))
    }

    // "8 and 9 only in rewritten tables"
    pub fn is_rewritten(self) -> bool
        ensures { result ≡ is_rewritten (kind_in self) }
    {
        matches!(self, Kind::Run | Kind::End)
    }

    pub fn takes_two(self) -> bool
        ensures { result ≡ eqb (operands (kind_in self)) 2 }
    {
        matches!(self, Kind::Or | Kind::Until | Kind::Since)
    }

    // Kinds without operand nodes.
    pub fn is_leaf(self) -> bool
        ensures { result ≡ is_leaf (kind_in self) }
    {
        matches!(
            self,
            Kind::True | Kind::Atom | Kind::Run | Kind::End | Kind::Unknown(_)
        )
    }

    // How many operands a kind uses.
    pub fn operands(self) -> u8
        ensures { result ≡ operands (kind_in self) }
    {
        match self {
            Kind::Or | Kind::Until | Kind::Since => 2,
            Kind::Atom | Kind::Not | Kind::Next | Kind::Prev => 1,
            Kind::True | Kind::Run | Kind::End | Kind::Unknown(_) => 0,
        }
    }
}
