//! Laws of machines. Each function does nothing: its contract is the law, which is proved.
ghost use Rattle.rl_fsm.specs.Graphs.{Graph};
ghost use Rattle.rl_fsm.specs.Sound.{IsSound};
ghost use Rattle.rl_fsm.specs.Builds.{IsNumbered};
ghost use Rattle.rl_fsm.specs.Laws.{FindsEachEdge, ReachesEachState};

/// Each edge of a machine is found by the first key of its range and its own truths.
pub fn edges_are_found()
    ensures { (m : Graph) → IsSound m → FindsEachEdge m }
{}

/// Each state of a machine that is numbered as a walk from its start finds them is reached.
pub fn numbered_states_are_reached()
    ensures { (m : Graph) → IsSound m → IsNumbered m → ReachesEachState m }
{}
