// A rule in one line, read: a function for each level of the grammar, which call one another. The signs that are left fall from call to call, and so does the
// number of brackets that may still be opened. `emitted`: the nodes that come out. They never refuse.
#![tactic(auto)]

pub mod emitted;

ghost use Rattle.std.specs.Prelude.{◌≡◌, ◌<◌, length, drop};
ghost use Rattle.definitions.specs.OneLineGrammar.{Arrows, Ors, Ands, Untils, Prefixes, Primaries};
ghost use Rattle.one_line_readers.specs.Reading.{InfixFirst, UntilFirst, PrefixFirst, Ready, Primed, Read};

use self::emitted::Emitted;
use one_line_signs::sign::{Infix, Prefix, Sign};
use rules::kind::Kind;

// What follows a sign between two operands, where it comes first.
fn past(sign: Infix, signs: &[Sign]) -> Option<&[Sign]>
    ensures { InfixFirst sign signs.now result }
{
    match signs {
        [Sign::Infix(first), rest @ ..] if *first == sign => Some(rest),
        _ => None,
    }
}

// What follows `U` or `S`, where one comes first, and the kind of its node.
fn past_until(signs: &[Sign]) -> Option<(Kind, &[Sign])>
    ensures { UntilFirst signs.now result }
{
    match signs {
        [Sign::Infix(Infix::Until), rest @ ..] => Some((Kind::Until, rest)),
        [Sign::Infix(Infix::Since), rest @ ..] => Some((Kind::Since, rest)),
        _ => None,
    }
}

// The prefix that comes first, and what follows it.
fn past_prefix(signs: &[Sign]) -> Option<(Prefix, &[Sign])>
    ensures { PrefixFirst signs.now result }
{
    match signs {
        [Sign::Prefix(first), rest @ ..] => Some((*first, rest)),
        _ => None,
    }
}

// What follows the first sign.
fn tail(signs: &[Sign]) -> &[Sign]
    requires { 0 < length signs.now }
    ensures { result.now ≡ drop 1 signs.now }
{
    &signs[1..]
}

// "`->` (to the right)": p, not, q, or.
#[cycle(levels)]
pub fn arrows<'a>(signs: &'a [Sign], left: usize, out: &mut Emitted) -> &'a [Sign]
    requires { Ready left signs.now out.old }
    ensures { Read Arrows 1 signs.now out.old result.now out.new }
{
    let rest = ors(signs, left, out);
    let Some(after) = past(Infix::Implies, rest) else {
        return rest;
    };
    out.not();
    let p = out.last();
    let end = arrows(after, left, out);
    out.join(Kind::Or, p);
    end
}

// "`|` (to the left)": p, q, or.
#[cycle(levels)]
fn ors<'a>(signs: &'a [Sign], left: usize, out: &mut Emitted) -> &'a [Sign]
    requires { Ready left signs.now out.old }
    ensures { Read Ors 2 signs.now out.old result.now out.new }
{
    let mut rest = ands(signs, left, out);
    while let Some(after) = past(Infix::Or, rest) {
        let p = out.last();
        rest = ands(after, left, out);
        out.join(Kind::Or, p);
    }
    rest
}

// "`&` (to the left)": p, not, q, not, or, not.
#[cycle(levels)]
fn ands<'a>(signs: &'a [Sign], left: usize, out: &mut Emitted) -> &'a [Sign]
    requires { Ready left signs.now out.old }
    ensures { Read Ands 3 signs.now out.old result.now out.new }
{
    let mut rest = untils(signs, left, out);
    while let Some(after) = past(Infix::And, rest) {
        out.not();
        let p = out.last();
        rest = untils(after, left, out);
        out.dual(Kind::Or, p);
    }
    rest
}

// "`U` and `S` (to the right, alike in strength)": p, q, until or since.
#[cycle(levels)]
fn untils<'a>(signs: &'a [Sign], left: usize, out: &mut Emitted) -> &'a [Sign]
    requires { Ready left signs.now out.old }
    ensures { Read Untils 4 signs.now out.old result.now out.new }
{
    let rest = prefixes(signs, left, out);
    let Some((kind, after)) = past_until(rest) else {
        return rest;
    };
    let p = out.last();
    let end = untils(after, left, out);
    out.join(kind, p);
    end
}

// "prefixes `! X Y F G`".
#[cycle(levels)]
fn prefixes<'a>(signs: &'a [Sign], left: usize, out: &mut Emitted) -> &'a [Sign]
    requires { Ready left signs.now out.old }
    ensures { Read Prefixes 5 signs.now out.old result.now out.new }
{
    let Some((prefix, after)) = past_prefix(signs) else {
        return primaries(signs, left, out);
    };
    let b = out.open_prefix(prefix);
    let rest = prefixes(after, left, out);
    out.close_prefix(prefix, b);
    rest
}

// "`true`, `a` with an atom number, or a bracketed rule".
#[cycle(levels)]
fn primaries<'a>(signs: &'a [Sign], left: usize, out: &mut Emitted) -> &'a [Sign]
    requires { Primed left signs.now out.old }
    ensures { Read Primaries 5 signs.now out.old result.now out.new }
{
    let after = tail(signs);
    match signs[0] {
        Sign::Opening => tail(arrows(after, left - 1, out)),
        Sign::True => {
            out.put(Kind::True, 0, 0);
            after
        }
        Sign::Atom(n) => {
            out.put(Kind::Atom, n as u16, 0);
            after
        }
        _ => unreachable!(),
    }
}
