// What a definition gives its name to.
ghost use Rattle.std.specs.Prelude.{◌≡◌};
ghost use Rattle.std.specs.Option.{option_copied};
ghost use Rattle.rl_names.specs.Values as values;

use rl_grammar::syntax::{Concatenation, Embedded, Negated, Operand, Repeated, Scanner, Union};

fn operand(operand: &Operand) -> Option<&Scanner>
    ensures { option_copied result ≡ values.operand_scanner operand.now }
{
    match operand {
        Operand::Scanner(scanner) => Some(scanner.get()),
        Operand::Literal(_)
        | Operand::Number(_)
        | Operand::Range(_, _, _)
        | Operand::Set(_)
        | Operand::RegularExpression(_)
        | Operand::Name(_)
        | Operand::Group(_, _, _) => None,
    }
}

fn negated(negated: &Negated) -> Option<&Scanner>
    ensures { option_copied result ≡ values.negated_scanner negated.now }
{
    match negated.negations.as_slice() {
        [] => operand(&negated.operand),
        [_, ..] => None,
    }
}

fn repeated(repeated: &Repeated) -> Option<&Scanner>
    ensures { option_copied result ≡ values.repeated_scanner repeated.now }
{
    match repeated.repetitions.as_slice() {
        [] => negated(&repeated.operand),
        [_, ..] => None,
    }
}

fn embedded(embedded: &Embedded) -> Option<&Scanner>
    ensures { option_copied result ≡ values.embedded_scanner embedded.now }
{
    match embedded.embeddings.as_slice() {
        [] => repeated(&embedded.operand),
        [_, ..] => None,
    }
}

fn concatenation(concatenation: &Concatenation) -> Option<&Scanner>
    ensures { option_copied result ≡ values.concatenation_scanner concatenation.now }
{
    match concatenation.rest.as_slice() {
        [] => embedded(&concatenation.first),
        [_, ..] => None,
    }
}

/// The scanner that is the whole of an expression, without parentheses.
pub fn scanner_of(union: &Union) -> Option<&Scanner>
    ensures { option_copied result ≡ values.scanner_of union.now }
{
    match union.rest.as_slice() {
        [] => concatenation(&union.first),
        [_, ..] => None,
    }
}
