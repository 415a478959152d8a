// Each public call once, with what the rules say in words.
use rl_automata::{Class, Kind};
use rl_embed::{How, embed_actions, embed_marks, embed_priors, guard};
use rl_fsm::Fsm;
use rl_types::{ActionId, CondId, KeyRange};
use std::alloc::Global;
use std::test::Fail;

// The machine of the letter a.
fn letter(alloc: Global) -> Result<Fsm, Fail> {
    let range = KeyRange::new(97, 97).ok_or("no range")?;
    Ok(Fsm::of_set(alloc, &[range])?)
}

// Finishing and entering on one transition: the entering one comes first, since it has the lower stamp. The leaving one
// stays with the final state.
#[test]
fn actions_on_one_transition(rt: HostRuntime) -> Result<(), Fail> {
    let alloc = rt.alloc();
    let m = letter(alloc)?;
    let m = embed_actions(alloc, m, How::Finish, 2, ActionId(7))?;
    let m = embed_actions(alloc, m, How::Enter, 1, ActionId(8))?;
    let m = embed_actions(alloc, m, How::Leave, 3, ActionId(9))?;
    let start = m.state(0).ok_or("no start")?;
    for edge in start.edges.as_slice() {
        let order = edge.actions.order_once()?;
        assert_eq!(rt; order.as_slice(), [ActionId(8), ActionId(7)].as_slice());
    }
    let end = m.state(1).ok_or("no end")?;
    let left = end.out.actions.order_once()?;
    assert_eq!(rt; left.as_slice(), [ActionId(9)].as_slice());
    Ok(())
}

// A later priority replaces an earlier one under its name; the state after the letter has the mark of final states; and
// the transition asks the condition.
#[test]
fn priorities_marks_and_conditions(rt: HostRuntime) -> Result<(), Fail> {
    let alloc = rt.alloc();
    let m = letter(alloc)?;
    let m = embed_priors(alloc, m, How::All, 1, 2, 5)?;
    let m = embed_priors(alloc, m, How::All, 1, 1, 9)?;
    let m = embed_marks(alloc, m, Class::Final, Kind::To, 3, ActionId(4))?;
    let m = guard(alloc, m, CondId(2))?;
    let start = m.state(0).ok_or("no start")?;
    assert_eq!(rt; start.marks.to.items().len(), 0);
    for edge in start.edges.as_slice() {
        assert_eq!(rt; edge.asks.0, 2);
        assert_eq!(rt; edge.truths.0, 2);
        for prior in edge.priors.items() {
            assert_eq!(rt; prior.value, 5);
        }
    }
    let end = m.state(1).ok_or("no end")?;
    assert_eq!(rt; end.marks.to.items().len(), 1);
    Ok(())
}
