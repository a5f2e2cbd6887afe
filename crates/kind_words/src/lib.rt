// Kind words: fixed byte strings, compared when reading and handed out for printing.
#![tactic(auto)]

ghost use Rattle.std.specs.Prelude.{◌≡◌};
ghost use Rattle.definitions.specs.RuleText.{kind_word, word_kind};
ghost use Rattle.rules.specs.Kinds.{kind_in};

use lines::scan;
use rules::kind::Kind;

// The number of every word that is no kind word.
pub const UNKNOWN: u8 = 10;

// The word of a kind; an unknown kind has none.
pub fn word_of(kind: Kind) -> &'static [u8]
    ensures { result.now ≡ kind_word (kind_in kind) }
{
    match kind {
        Kind::True => b"true",
        Kind::Atom => b"atom",
        Kind::Not => b"not",
        Kind::Or => b"or",
        Kind::Next => b"next",
        Kind::Until => b"until",
        Kind::Prev => b"prev",
        Kind::Since => b"since",
        Kind::Run => b"run",
        Kind::End => b"end",
        Kind::Unknown(_) => b"",
    }
}

// The kinds that have a word, in the order of their numbers.
const KINDS: [Kind; 10] = [
    Kind::True,
    Kind::Atom,
    Kind::Not,
    Kind::Or,
    Kind::Next,
    Kind::Until,
    Kind::Prev,
    Kind::Since,
    Kind::Run,
    Kind::End,
];

// The kind of a word; unknown of every word that is no kind word.
pub fn kind_of_word(w: &[u8]) -> Kind
    ensures { kind_in result ≡ word_kind w.now }
{
    KINDS
        .iter()
        .copied()
        .find(|kind| scan::same(w, word_of(*kind)))
        .unwrap_or(Kind::Unknown(UNKNOWN))
}
