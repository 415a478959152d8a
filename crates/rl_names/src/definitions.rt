// The definitions of one machine.
ghost use Rattle.std.specs.Prelude.{◌≡◌, ◌∷◌, Ok, MatchResult};
ghost use Rattle.rl_names.specs.Answers.{Gives, Explains, and_then, each};
ghost use Rattle.rl_names.specs.Bases as bases;
ghost use Rattle.rl_names.specs.Drafts as drafts;
ghost use Rattle.rl_names.specs.Scopes.{kept};
ghost use Rattle.rl_names.specs.TableForms.{texts, pointed};

use crate::base::Base;
use crate::expressions::union;
use crate::frames::is_of;
use crate::memory::{fault_at, name_of, push};
use crate::places::union_place;
use crate::puts::action;
use crate::scope::Scope;
use crate::texts::{Texts, has, put};
use crate::values::scanner_of;
use indexmap::IndexSet;
use rl_draft::{Definition, Pattern, Sign, Value};
use rl_grammar::syntax::{
    Definition as Written, DefinitionSign, Pattern as Listed, PatternAction, Scanner, Statement,
    Union,
};
use rl_grammar::{ReadFault, Step};
use rl_types::{ActionId, FaultKind, List};
use std::alloc::Global;

fn token(
    alloc: Global,
    scope: &Scope<'_>,
    token: &Option<PatternAction>,
) -> Result<Option<ActionId>, ReadFault>
    ensures { Gives (drafts.token_read (kept scope.now) token.now) result }
{
    match token {
        Some(one) => {
            let number = action(alloc, scope, &one.action)?;
            Ok(Some(number))
        }
        None => Ok(None),
    }
}

#[tactic(auto, using(crate::proofs::LevelLaws::union_at))]
fn pattern(alloc: Global, scope: &Scope<'_>, pattern: &Listed) -> Result<Pattern, ReadFault>
    ensures { Gives (drafts.pattern_read (kept scope.now) pattern.now) result }
{
    let expression = union(alloc, scope, &pattern.value)?;
    let token = token(alloc, scope, &pattern.action)?;
    Ok(Pattern {
        expression,
        token,
        place: union_place(&pattern.value),
    })
}

/// Patterns behind a first one.
fn patterns(
    alloc: Global,
    scope: &Scope<'_>,
    first: Pattern,
    rest: &[Listed],
) -> Result<List<Pattern>, ReadFault>
    ensures { Gives (and_then (each (drafts.pattern_read (kept scope.now)) rest.now) (λ ps. Ok (first ∷ ps))) result }
{
    let mut found = List::new(alloc);
    push(&mut found, first)?;
    for one in rest {
        let read = pattern(alloc, scope, one)?;
        push(&mut found, read)?;
    }
    Ok(found)
}

fn scanner(alloc: Global, scope: &Scope<'_>, scanner: &Scanner) -> Result<Value, ReadFault>
    ensures { Gives (drafts.scanner_read (kept scope.now) scanner.now) result }
{
    let first = pattern(alloc, scope, &scanner.first)?;
    let all = patterns(alloc, scope, first, scanner.rest.as_slice())?;
    Ok(Value::Scanner(all, scanner.opening))
}

fn value(alloc: Global, scope: &Scope<'_>, value: &Union) -> Result<Value, ReadFault>
    ensures { Gives (drafts.value_read (kept scope.now) value.now) result }
{
    match scanner_of(value) {
        Some(one) => scanner(alloc, scope, one),
        None => {
            let expression = union(alloc, scope, value)?;
            Ok(Value::Expression(expression))
        }
    }
}

fn sign_of(sign: DefinitionSign) -> Sign
    ensures { result ≡ drafts.sign_of sign }
{
    match sign {
        DefinitionSign::Name(_) => Sign::Name,
        DefinitionSign::Instantiation(_) => Sign::Instantiation,
    }
}

fn definition(
    alloc: Global,
    scope: &Scope<'_>,
    definition: &Written,
) -> Result<Definition, ReadFault>
    ensures { Gives (drafts.definition_read (kept scope.now) definition.now) result }
{
    let value = value(alloc, scope, &definition.value)?;
    let name = name_of(alloc, definition.name.text.as_slice())?;
    Ok(Definition {
        name,
        place: definition.name.place,
        sign: sign_of(definition.sign),
        value,
    })
}

fn read_behind(
    alloc: Global,
    base: &Base<'_>,
    names: &Texts<'_>,
    earlier: &[Definition],
    one: &Written,
) -> Result<Definition, ReadFault>
    ensures { Gives (drafts.definition_read (drafts.scope_behind (bases.kept_base base.now) (texts names.now) earlier.now one.now.name.text) one.now) result }
{
    let scope = Scope {
        alphabet: base.alphabet,
        actions: base.actions,
        priorities: base.priorities,
        earlier,
        names,
        owner: one.name.text.as_slice(),
    };
    definition(alloc, &scope, one)
}

fn add<'a>(
    alloc: Global,
    base: &Base<'_>,
    names: &mut Texts<'a>,
    list: &mut List<Definition>,
    one: &'a Written,
) -> Result<(), ReadFault>
    requires { texts names.old ≡ drafts.names_of list.old }
    ensures { MatchResult result (λ _. (drafts.definition_behind (bases.kept_base base.now) list.old one.now ≡ Ok list.new) × (texts names.new ≡ drafts.names_of list.new))
        (Explains (drafts.definition_behind (bases.kept_base base.now) list.old one.now)) }
{
    let name = one.name.text.as_slice();
    if has(names, name) {
        return Err(fault_at(FaultKind::F6, one.name.place));
    }
    let read = read_behind(alloc, base, names, list.as_slice(), one)?;
    put(names, name)?;
    push(list, read)
}

fn by_statement<'a>(
    alloc: Global,
    base: &Base<'_>,
    names: &mut Texts<'a>,
    list: &mut List<Definition>,
    statement: &'a Statement,
) -> Result<(), ReadFault>
    requires { texts names.old ≡ drafts.names_of list.old }
    ensures { MatchResult result (λ _. (drafts.definitions_by (bases.kept_base base.now) list.old statement.now ≡ Ok list.new) × (texts names.new ≡ drafts.names_of list.new))
        (Explains (drafts.definitions_by (bases.kept_base base.now) list.old statement.now)) }
{
    match statement {
        Statement::Definition(one) => add(alloc, base, names, list, one),
        Statement::Machine(_)
        | Statement::Include(_)
        | Statement::Alphtype(_)
        | Statement::Access(_)
        | Statement::Variable(_)
        | Statement::Write(_)
        | Statement::Action(_) => Ok(()),
    }
}

fn behind<'a>(
    alloc: Global,
    base: &Base<'_>,
    machine: &[u8],
    names: &mut Texts<'a>,
    list: &mut List<Definition>,
    step: &'a Step,
) -> Result<(), ReadFault>
    requires { texts names.old ≡ drafts.names_of list.old }
    ensures { MatchResult result (λ _. (drafts.definitions_behind (bases.kept_base base.now) machine.now list.old step.now ≡ Ok list.new) × (texts names.new ≡ drafts.names_of list.new))
        (Explains (drafts.definitions_behind (bases.kept_base base.now) machine.now list.old step.now)) }
{
    if is_of(machine, step) {
        by_statement(alloc, base, names, list, &step.statement)
    } else {
        Ok(())
    }
}

/// The definitions of a machine, in the order in which they are read.
pub fn definitions_of(
    alloc: Global,
    base: &Base<'_>,
    machine: &[u8],
    own: &[&Step],
) -> Result<List<Definition>, ReadFault>
    ensures { Gives (drafts.definitions_of (bases.kept_base base.now) machine.now (pointed own.now)) result }
{
    let mut names = IndexSet::new(alloc);
    let mut list = List::new(alloc);
    for step in own {
        behind(alloc, base, machine, &mut names, &mut list, *step)?;
    }
    Ok(list)
}
