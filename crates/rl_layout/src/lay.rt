//! The tables of a machine.
ghost use Rattle.std.specs.Prelude.{◌≡◌, ◌∷◌, [], ◌++◌, pos, IfOk};
ghost use Rattle.rl_arrays.specs.Valid.{Valid};
ghost use Rattle.rl_model.specs.WellFormed.{IsWellFormed};
ghost use Rattle.rl_layout.specs.Fits.{Fits};
ghost use Rattle.rl_layout.specs.Shown.{Shows};
ghost use Rattle.rl_layout.specs.Told.{told};
ghost use Rattle.rl_layout.specs.Books.{actions_of};
ghost use Rattle.rl_layout.specs.SpecArrays.{alphabet_number};
ghost use Rattle.rl_layout.specs.Cells.{offsets};
ghost use Rattle.rl_layout.specs.Layout.{keys_laid, cells_laid, states_laid, statements_laid, names_laid, ends_laid, gathered, arrays_laid, arrays_of};

use crate::books::{actions_of, listed, lists_of, order_of};
use crate::cells::{all_keys, offsets, push_offsets};
use crate::lists::push;
use crate::names::{action_names, condition_names, copy_name, entry_names, entry_states, start_of};
use crate::shares::{cells_used, stored_cells};
use crate::statements::{StatementArray, behind_zero, by_statement, statement_counts};
use crate::states::{StateArray, by_state, cell_counts, key_counts, range_lengths, single_lengths};
use rl_arrays::Arrays;
use rl_minimal::{MinFsm, MinState};
use rl_model::{ActionDef, Spec};
use rl_tables::Tables;
use rl_types::{ActionId, Alphabet, List, Memory, Name};
use std::alloc::Global;

// The arrays of the keys.
#[derive(Drop)]
pub(crate) struct Keys {
    pub offsets: List<i64>,
    pub keys: List<i64>,
    pub singles: List<i64>,
    pub ranges: List<i64>,
}

// The arrays of uses of cells, cells and entries.
#[derive(Drop)]
pub(crate) struct Cells {
    pub offsets: List<i64>,
    pub uses: List<i64>,
    pub asks: List<i64>,
    pub entries: List<i64>,
    pub targets: List<i64>,
    pub lists: List<i64>,
}

// The arrays of the states' lists, kinds and homes.
#[derive(Drop)]
pub(crate) struct States {
    pub from: List<i64>,
    pub to: List<i64>,
    pub eof: List<i64>,
    pub error: List<i64>,
    pub token: List<i64>,
    pub kinds: List<i64>,
    pub homes: List<i64>,
}

// The arrays of statements.
#[derive(Drop)]
pub(crate) struct Statements {
    pub firsts: List<i64>,
    pub counts: List<i64>,
    pub kinds: List<i64>,
    pub outer: List<i64>,
    pub args: List<i64>,
    pub bases: List<i64>,
}

// The names.
#[derive(Drop)]
pub(crate) struct Names {
    pub machine: Name,
    pub actions: List<Name>,
    pub conditions: List<Name>,
    pub entries: List<Name>,
}

// The numbers that stand alone, and the entries' states.
#[derive(Drop)]
pub(crate) struct Ends {
    pub start: i64,
    pub first_final: i64,
    pub alphabet: i64,
    pub entry_states: List<i64>,
}

fn lay_keys(alloc: Global, states: &[MinState]) -> Result<Keys, Memory>
    ensures { IfOk result (λ k. k ≡ keys_laid states.now) }
{
    let counts = key_counts(alloc, states)?;
    let places = offsets(alloc, &counts)?;
    let keys = all_keys(alloc, states)?;
    let singles = single_lengths(alloc, states)?;
    let ranges = range_lengths(alloc, states)?;
    Ok(Keys {
        offsets: List::from_vec(places),
        keys,
        singles,
        ranges,
    })
}

// Keys share the cells that are equal.
fn lay_cells(alloc: Global, lists: &[&[ActionId]], states: &[MinState]) -> Result<Cells, Memory>
    ensures { IfOk result (λ c. c ≡ cells_laid (told lists.now) states.now) }
{
    let counts = cell_counts(alloc, states)?;
    let places = offsets(alloc, &counts)?;
    let used = cells_used(alloc, lists, states)?;
    let stored = stored_cells(alloc, &used)?;
    Ok(Cells {
        offsets: List::from_vec(places),
        uses: stored.uses,
        asks: stored.asks,
        entries: stored.entries,
        targets: stored.targets,
        lists: stored.lists,
    })
}

fn lay_states(alloc: Global, lists: &[&[ActionId]], states: &[MinState]) -> Result<States, Memory>
    ensures { IfOk result (λ s. s ≡ states_laid (told lists.now) states.now) }
{
    Ok(States {
        from: by_state(alloc, StateArray::From, lists, states)?,
        to: by_state(alloc, StateArray::To, lists, states)?,
        eof: by_state(alloc, StateArray::Eof, lists, states)?,
        error: by_state(alloc, StateArray::Error, lists, states)?,
        token: by_state(alloc, StateArray::Token, lists, states)?,
        kinds: by_state(alloc, StateArray::Kind, lists, states)?,
        homes: by_state(alloc, StateArray::Home, lists, states)?,
    })
}

// Element 0, and then where the statements of actions begin, from 1.
fn lay_firsts(alloc: Global, counts: &[usize]) -> Result<List<i64>, Memory>
    ensures { IfOk result (λ v. v ≡ pos 0 ∷ offsets 1 counts.now) }
{
    let mut firsts = Vec::new(alloc);
    push(&mut firsts, 0)?;
    push_offsets(&mut firsts, 1, counts)?;
    Ok(List::from_vec(firsts))
}

fn lay_statements(alloc: Global, actions: &[ActionDef], order: &[u32]) -> Result<Statements, Memory>
    ensures { IfOk result (λ s. s ≡ statements_laid actions.now order.now) }
{
    let own = statement_counts(alloc, actions, order)?;
    let firsts = lay_firsts(alloc, &own)?;
    let counts = behind_zero(alloc, &own)?;
    Ok(Statements {
        firsts,
        counts,
        kinds: by_statement(alloc, StatementArray::Kind, actions, order)?,
        outer: by_statement(alloc, StatementArray::Outer, actions, order)?,
        args: by_statement(alloc, StatementArray::Argument, actions, order)?,
        bases: by_statement(alloc, StatementArray::Base, actions, order)?,
    })
}

fn lay_names(alloc: Global, spec: &Spec, order: &[u32]) -> Result<Names, Memory>
    ensures { IfOk result (λ n. n ≡ names_laid spec.now order.now) }
{
    let actions = spec.actions.as_slice();
    Ok(Names {
        machine: copy_name(alloc, &spec.machine)?,
        actions: action_names(alloc, actions, order)?,
        conditions: condition_names(alloc, actions, spec.conds.as_slice())?,
        entries: entry_names(alloc, spec.entries.as_slice())?,
    })
}

fn alphabet_number(alphabet: Alphabet) -> i64
    ensures { result ≡ alphabet_number alphabet }
{
    match alphabet {
        Alphabet::Char => 0,
        Alphabet::UnsignedChar => 1,
        Alphabet::Short => 2,
        Alphabet::UnsignedShort => 3,
        Alphabet::Int => 4,
        Alphabet::UnsignedInt => 5,
    }
}

fn lay_ends(alloc: Global, spec: &Spec, min: &MinFsm) -> Result<Ends, Memory>
    ensures { IfOk result (λ e. e ≡ ends_laid spec.now min.now) }
{
    let entry_states = entry_states(alloc, min.entries())?;
    let start = start_of(spec.entries.as_slice(), min.entries());
    Ok(Ends {
        start: i64::from(start),
        first_final: i64::from(min.first_final()),
        alphabet: alphabet_number(spec.alphabet),
        entry_states,
    })
}

// All arrays, in version 2.
fn gather(
    actions: List<i64>,
    ends: Ends,
    names: Names,
    keys: Keys,
    cells: Cells,
    states: States,
    statements: Statements,
) -> Arrays
    ensures { result ≡ gathered actions ends names keys cells states statements }
{
    Arrays {
        version: 2,
        name: names.machine,
        start: ends.start,
        first_final: ends.first_final,
        alphabet: ends.alphabet,
        actions,
        key_offsets: keys.offsets,
        trans_keys: keys.keys,
        single_lengths: keys.singles,
        range_lengths: keys.ranges,
        cell_offsets: cells.offsets,
        cell_uses: cells.uses,
        cell_asks: cells.asks,
        cell_entries: cells.entries,
        trans_targs: cells.targets,
        trans_lists: cells.lists,
        from_lists: states.from,
        to_lists: states.to,
        eof_lists: states.eof,
        error_lists: states.error,
        accept_lists: states.token,
        state_kinds: states.kinds,
        homes: states.homes,
        action_names: names.actions,
        stmt_firsts: statements.firsts,
        stmt_counts: statements.counts,
        stmt_kinds: statements.kinds,
        stmt_outer: statements.outer,
        stmt_args: statements.args,
        stmt_bases: statements.bases,
        cond_names: names.conditions,
        entry_names: names.entries,
        entry_states: ends.entry_states,
    }
}

// The arrays, with these lists of actions, and the actions in this order.
fn lay_rest(
    alloc: Global,
    spec: &Spec,
    min: &MinFsm,
    lists: &[&[ActionId]],
    order: &[u32],
    actions: List<i64>,
) -> Result<Arrays, Memory>
    requires { actions ≡ actions_of order.now (told lists.now) }
    ensures { IfOk result (λ a. a ≡ arrays_laid spec.now (told lists.now) order.now min.now) }
{
    let states = min.all_states();
    let ends = lay_ends(alloc, spec, min)?;
    let names = lay_names(alloc, spec, order)?;
    let keys = lay_keys(alloc, states)?;
    let cells = lay_cells(alloc, lists, states)?;
    let own = lay_states(alloc, lists, states)?;
    let statements = lay_statements(alloc, spec.actions.as_slice(), order)?;
    Ok(gather(actions, ends, names, keys, cells, own, statements))
}

// The arrays.
#[tactic(auto, unfolding(crate::specs::Layout::arrays_of))]
fn lay_arrays(alloc: Global, spec: &Spec, min: &MinFsm) -> Result<Arrays, Memory>
    ensures { IfOk result (λ a. a ≡ arrays_of spec.now min.now) }
{
    let lists = lists_of(alloc, min.all_states())?;
    let table = order_of(alloc, &lists)?;
    let actions = actions_of(alloc, &table, &lists)?;
    let order = listed(alloc, &table)?;
    let arrays = lay_rest(alloc, spec, min, &lists, &order, actions)?;
    Ok(arrays)
}

/// The tables of a machine, whose actions, conditions, keys and entries are those of the Spec; its from-state and
/// to-state actions, and those of steps in a scanner, have no control statements. A state's single keys and ranges are
/// the maximal runs of consecutive keys at which it steps alike; the arrays are of version 2, where runs whose cells are
/// equal share one, numbered in the order of first use. Lists are numbered in the order of first use, state by
/// state: its from-state, to-state, end-of-file, error and token lists, and then those of its entries; actions have the
/// numbers of their first places in the lists (this profile). The tables' look-ups are those of the machine, state by
/// state, with actions by these numbers. An `Err` is want of memory.
pub fn layout(alloc: Global, spec: &Spec, min: &MinFsm) -> Result<Tables, Memory>
    requires well_formed { IsWellFormed spec.now }
    requires fits { Fits spec.now min.now }
    ensures arrays { IfOk result (λ t. t ≡ arrays_of spec.now min.now) }
    ensures valid { IfOk result Valid }
    ensures shows { IfOk result (Shows spec.now min.now) }
{
    let arrays = lay_arrays(alloc, spec, min)?;
    let _ = min.states();
    match Tables::new(arrays) {
        Ok(tables) => Ok(tables),
        Err(_) => unreachable!(),
    }
}
