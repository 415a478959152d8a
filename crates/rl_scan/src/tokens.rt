// Token lists.
ghost use Rattle.std.specs.Prelude.{◌≡◌, None, IfOk, map, nat_eq};
ghost use Rattle.std.specs.List.{list_any};
ghost use Rattle.std.specs.Option.{option_map};
ghost use Rattle.rl_types.specs.declared.numbers.ActionId.{ActionId};
ghost use Rattle.rl_labels.specs.Labels.{numbers, once, with_last};
ghost use Rattle.rl_automata.specs.Scans.{with_token};
ghost use Rattle.rl_scan.specs.Beside.{first_token, tokens_of, out_in};

use crate::lists::push;
use crate::part::{behind, first_part, part_final, part_out};
use crate::parts::Parts;
use rl_fsm::Fsm;
use rl_types::{ActionId, List, Memory};
use std::alloc::Global;

// Whether the action of this number is among the listed.
fn contains(listed: &[ActionId], number: u32) -> bool
    ensures { result ≡ list_any (λ b. nat_eq b.0 number) listed.now }
{
    listed.iter().any(|a| a.0 == number)
}

// Puts the action at the end, unless it is among the listed.
fn push_once(actions: &mut Vec<ActionId>, number: u32) -> Result<(), Memory>
    ensures { IfOk result (λ _. numbers actions.new.items ≡ with_last number (numbers actions.old.items)) }
{
    if !contains(actions, number) {
        push(actions, ActionId(number))?;
    }
    Ok(())
}

// The action of the first token, if it has one.
fn first_token(tokens: &[Option<ActionId>]) -> Option<ActionId>
    ensures { option_map (λ (a : ActionId). a.0) result ≡ first_token tokens.now }
{
    match tokens {
        [] => None,
        [token, ..] => *token,
    }
}

// Puts the token's action at the end, if it has one, unless it is among the listed.
fn push_token(actions: &mut Vec<ActionId>, token: Option<ActionId>) -> Result<(), Memory>
    ensures { IfOk result (λ _. numbers actions.new.items ≡ with_token (option_map (λ (a : ActionId). a.0) token) (numbers actions.old.items)) }
{
    if let Some(action) = token {
        push_once(actions, action.0)?;
    }
    Ok(())
}

// What the machine leaves in the state, and then the token's action.
fn token_list(
    alloc: Global,
    m: &Fsm,
    part: Option<u32>,
    token: Option<ActionId>,
) -> Result<Vec<ActionId>, Memory>
    ensures { IfOk result (λ v. numbers v.items ≡ with_token (option_map (λ (a : ActionId). a.0) token) (once (out_in m.now part).actions)) }
{
    let out = part_out(alloc, m, part)?;
    let mut actions = out.actions.order_once()?;
    push_token(&mut actions, token)?;
    Ok(actions)
}

// The list of the first machine that is final, if one is.
fn tokens_of(
    alloc: Global,
    machines: &[Fsm],
    tokens: &[Option<ActionId>],
    parts: &[Option<u32>],
) -> Result<Option<List<ActionId>>, Memory>
    ensures { IfOk result (λ o. option_map numbers o ≡ tokens_of machines.now tokens.now parts.now) }
{
    let mut rest = parts;
    let mut ends = tokens;
    for m in machines {
        if part_final(m, first_part(rest)) {
            let list = token_list(alloc, m, first_part(rest), first_token(ends))?;
            return Ok(Some(List::from_vec(list)));
        }
        rest = behind(rest);
        ends = behind(ends);
    }
    Ok(None)
}

// The lists of all configurations.
pub fn token_lists(
    alloc: Global,
    machines: &[Fsm],
    tokens: &[Option<ActionId>],
    found: &[Parts],
) -> Result<Vec<Option<List<ActionId>>>, Memory>
    ensures { IfOk result (λ v. map (option_map numbers) v.items ≡ map (tokens_of machines.now tokens.now) found.now) }
{
    let mut lists: Vec<Option<List<ActionId>>> = Vec::new(alloc);
    for c in found {
        let list = tokens_of(alloc, machines, tokens, c.states())?;
        push(&mut lists, list)?;
    }
    Ok(lists)
}
