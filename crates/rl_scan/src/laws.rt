//! Laws of scanners. Each function does nothing: its contract is the law, which is proved.
ghost use Rattle.rl_automata.specs.Scans.{TellsClosed};
ghost use Rattle.rl_fsm.specs.Graphs.{Graph, fsm_auto, has_no_edge};
ghost use Rattle.rl_fsm.specs.Sound.{IsSound};
ghost use Rattle.rl_scan.specs.Closed.{ScannersHaveTests};
ghost use Rattle.rl_scan.specs.Scanners.{ScannerCauses};

/// Where the patterns' machines are built of their expressions, a fault of `scanner` has its cause exactly where the
/// scanner of these expressions has it.
pub fn causes_are_the_patterns()
    ensures { ScannerCauses }
{}

/// From the states of a machine that have no edge, and from no others, no letter steps. So there is an honest test of
/// that for each scanner which a machine stands for.
pub fn closed_states_are_told()
    ensures states { (m : Graph) → IsSound m → TellsClosed (fsm_auto m) (has_no_edge m) }
    ensures tests { ScannersHaveTests }
{}
