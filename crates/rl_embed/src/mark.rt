// Actions that stay with states.
ghost use Rattle.std.specs.Prelude.{◌≡◌, IfOk};
ghost use Rattle.rl_automata.specs.Auto.{in_class, same_kind, mark_auto};
ghost use Rattle.rl_automata.specs.Follows.{Follows};
ghost use Rattle.rl_automata.specs.Nodes as N;
ghost use Rattle.rl_automata.specs.Nodes.{Node};
ghost use Rattle.rl_fsm.specs.Builds.{IsNumbered, StandsFor};
ghost use Rattle.rl_fsm.specs.Graphs.{fsm_auto};
ghost use Rattle.rl_fsm.specs.Sound.{IsSound};
ghost use Rattle.rl_embed.specs.Changed.{changed_from};
ghost use Rattle.rl_embed.specs.Marked.{marked_with, more_marks, marked_state, marked};

use crate::copies::{copied_edges, copied_out};
use crate::lists::push;
use crate::machine::{is_start, state_of, with_states};
use rl_automata::{Class, Kind};
use rl_fsm::{Fsm, Marks, State, look_ups};
use rl_labels::{Stamp, Stamped};
use rl_types::{ActionId, Memory};
use std::alloc::Global;

// A machine, and an action that its states of a class get.
#[derive(Clone, Copy)]
struct Marking<'a> {
    machine: &'a Fsm,
    class: Class,
    kind: Kind,
    stamp: Stamp,
}

// Whether the state is one of the class.
fn is_in_class(m: &Fsm, class: Class, state: u32) -> bool
    ensures { result ≡ in_class (fsm_auto m.now) class state }
{
    match class {
        Class::Start => is_start(m, state),
        Class::NotStart => !is_start(m, state),
        Class::All => true,
        Class::Final => look_ups::is_final(m, state),
        Class::NotFinal => !look_ups::is_final(m, state),
        Class::Middle => !is_start(m, state) && !look_ups::is_final(m, state),
    }
}

// Whether the two are the same kind.
fn is_same_kind(j: Kind, k: Kind) -> bool
    ensures { result ≡ same_kind j k }
{
    match (j, k) {
        (Kind::To, Kind::To) => true,
        (Kind::From, Kind::From) => true,
        (Kind::Eof, Kind::Eof) => true,
        (Kind::Error, Kind::Error) => true,
        _ => false,
    }
}

// The marks and, where it is due, the action beside them.
fn marked_with(alloc: Global, due: bool, x: Stamp, marks: &Stamped) -> Result<Stamped, Memory>
    ensures { IfOk result (λ s. s ≡ marked_with due x marks.now) }
{
    let mut more = marks.copy(alloc)?;
    if due {
        more.add(x.major, x.minor, x.action)?;
    }
    Ok(more)
}

// The marks of a state, with the action among those of its kind where it is due.
fn more_marks(
    alloc: Global,
    due: bool,
    kind: Kind,
    x: Stamp,
    marks: &Marks,
) -> Result<Marks, Memory>
    ensures { IfOk result (λ m. m ≡ more_marks due kind x marks.now) }
{
    Ok(Marks {
        to: marked_with(alloc, is_same_kind(kind, Kind::To) && due, x, &marks.to)?,
        from: marked_with(alloc, is_same_kind(kind, Kind::From) && due, x, &marks.from)?,
        eof: marked_with(alloc, is_same_kind(kind, Kind::Eof) && due, x, &marks.eof)?,
        error: marked_with(
            alloc,
            is_same_kind(kind, Kind::Error) && due,
            x,
            &marks.error,
        )?,
    })
}

// The state of this number, with the action where it is due.
fn marked_state(alloc: Global, m: &Marking<'_>, number: u32, state: &State) -> Result<State, Memory>
    ensures { IfOk result (λ s. s ≡ marked_state m.now.class m.now.kind m.now.stamp (fsm_auto m.now.machine.now) number state.now) }
{
    let due = is_in_class(m.machine, m.class, number);
    let marks = more_marks(alloc, due, m.kind, m.stamp, &state.marks)?;
    let out = copied_out(alloc, &state.out)?;
    let edges = copied_edges(alloc, state.edges.as_slice())?;
    Ok(State {
        fin: state.fin,
        out,
        marks,
        edges: rl_types::List::from_vec(edges),
    })
}

// All states, with the action where it is due.
fn marked_states(alloc: Global, m: &Marking<'_>) -> Result<Vec<State>, Memory>
    ensures sound { IsSound m.now.machine.now }
    ensures states { IfOk result (λ v. v.items ≡ changed_from (marked_state m.now.class m.now.kind m.now.stamp (fsm_auto m.now.machine.now)) 0 m.now.machine.now.states) }
{
    let mut states: Vec<State> = Vec::new(alloc);
    for number in 0..m.machine.states() {
        let state = state_of(m.machine, number);
        let changed = marked_state(alloc, m, number, state)?;
        push(&mut states, changed)?;
    }
    Ok(states)
}

// The machine with the action at the states of the class.
fn marked(alloc: Global, a: &Fsm, class: Class, kind: Kind, stamp: Stamp) -> Result<Fsm, Memory>
    ensures sound { IsSound a.now }
    ensures machine { IfOk result (λ m. m ≡ marked class kind stamp a.now) }
{
    let marking = Marking {
        machine: a,
        class,
        kind,
        stamp,
    };
    let states = marked_states(alloc, &marking)?;
    Ok(with_states(a, states))
}

/// The machine with an action that stays with each state of the class and is called when `kind` says (the guide's section
/// 3.2 and those after it). `stamp` is the number that the embedding has in the walk of the expression (this profile). The
/// states keep their numbers. An `Err` is want of memory, and the machine handed in is gone then.
pub fn embed_marks(
    alloc: Global,
    a: Fsm,
    class: Class,
    kind: Kind,
    stamp: u32,
    action: ActionId,
) -> Result<Fsm, Memory>
    ensures follows { IfOk result (λ m. Follows (fsm_auto m) (mark_auto (fsm_auto a) class kind (record { major = stamp; minor = 0; action = action })) (λ i. i)) }
    ensures numbered { IfOk result (λ m. IsNumbered a → IsNumbered m) }
    ensures stands { IfOk result (λ m. (t : Node) → StandsFor t a → StandsFor (N.Mark t class kind stamp action.0) m) }
{
    let x = Stamp {
        major: stamp,
        minor: 0,
        action,
    };
    let m = marked(alloc, &a, class, kind, x)?;
    Ok(m)
}
