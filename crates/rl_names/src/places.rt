// Where constructs begin.
ghost use Rattle.std.specs.Prelude.{◌≡◌};
ghost use Rattle.rl_names.specs.Places as places;

use rl_grammar::syntax::{
    Concatenation, Embedded, Key, Negated, Negation, Number, Operand, Repeated, Union,
};
use rl_types::Place;

pub fn number_place(number: &Number) -> Place
    ensures { result ≡ places.number_place number.now }
{
    match number.minus {
        Some(minus) => minus,
        None => number.digits.place,
    }
}

pub fn key_place(key: &Key) -> Place
    ensures { result ≡ places.key_place key.now }
{
    match key {
        Key::Number(number) => number_place(number),
        Key::Character(word) => word.place,
    }
}

fn negation_place(negation: &Negation) -> Place
    ensures { result ≡ places.negation_place negation.now }
{
    match negation {
        Negation::Language(place) | Negation::Character(place) => *place,
    }
}

fn operand_place(operand: &Operand) -> Place
    ensures { result ≡ places.operand_place operand.now }
{
    match operand {
        Operand::Literal(word)
        | Operand::Set(word)
        | Operand::RegularExpression(word)
        | Operand::Name(word) => word.place,
        Operand::Number(number) => number_place(number),
        Operand::Range(low, _, _) => key_place(low),
        Operand::Group(opening, _, _) => *opening,
        Operand::Scanner(scanner) => scanner.get().opening,
    }
}

/// The place of the first token, which may be a parenthesis.
pub fn negated_place(negated: &Negated) -> Place
    ensures { result ≡ places.negated_place negated.now }
{
    match negated.negations.as_slice() {
        [] => operand_place(&negated.operand),
        [first, ..] => negation_place(first),
    }
}

pub fn repeated_place(repeated: &Repeated) -> Place
    ensures { result ≡ places.repeated_place repeated.now }
{
    negated_place(&repeated.operand)
}

pub fn embedded_place(embedded: &Embedded) -> Place
    ensures { result ≡ places.embedded_place embedded.now }
{
    repeated_place(&embedded.operand)
}

pub fn concatenation_place(concatenation: &Concatenation) -> Place
    ensures { result ≡ places.concatenation_place concatenation.now }
{
    embedded_place(&concatenation.first)
}

pub fn union_place(union: &Union) -> Place
    ensures { result ≡ places.union_place union.now }
{
    concatenation_place(&union.first)
}
