// What some expressions do along some words, by computation.
ghost use Rattle.rl_automata.specs.Rows.{LeavesBeforeEntering, RoundsAreRestamped, EntersBeforeFinishing, LeavesAtTheEnd, IsPrunedBeforeIt, BothOperandsAct, SecondOperandTakesAway, StaysInTheLongerMatch, BeginsEachRound, LeavesWithEqualPriorities, HigherPriorityWins, EqualPrioritiesJoin, FirstListedToken, LongestToken, ThreeBeatEachOther, ThreeKeyClasses};

/// The lists of actions along words: leaving before entering where a repetition begins anew, the order of a round's
/// actions, entering before finishing, leaving where nothing follows, no action on a path that can't end, and the
/// actions of both operands of a difference.
pub fn embeddings_along_words()
    ensures wrap { LeavesBeforeEntering }
    ensures rounds { RoundsAreRestamped }
    ensures finish { EntersBeforeFinishing }
    ensures end { LeavesAtTheEnd }
    ensures dead { IsPrunedBeforeIt }
    ensures difference { BothOperandsAct }
    ensures taken { SecondOperandTakesAway }
{}

/// The lists of actions along words where priorities decide.
pub fn priorities_along_words()
    ensures longest { StaysInTheLongerMatch }
    ensures plain { BeginsEachRound }
    ensures both { LeavesWithEqualPriorities }
    ensures higher { HigherPriorityWins }
    ensures equal { EqualPrioritiesJoin }
{}

/// The token lists of a scanner: of the patterns that match, the first one's.
pub fn scanner_tokens()
    ensures first { FirstListedToken }
    ensures longest { LongestToken }
{}

/// Three candidates each of which beats another are a cycle; a set in another one splits the keys into three classes.
pub fn refused_nodes()
    ensures cycle { ThreeBeatEachOther }
    ensures classes { ThreeKeyClasses }
{}
