// What tree machines do with small sources: each row is a source, an input, and all that is seen of the run.
ghost use Rattle.rl_model.specs.ActionRows.{LeavesBeforeEntering, EmptyWordIsLeft, NewRoundLast, EntersFirst, GuardEnds, GuardIsLast, FromAndTo, ErrorActionRuns, ErrorActionAtEnd, NoErrorActionAtFinal, HigherStays, EqualAreJoined, LongestGoesOn, EachBegins, BothGoOn};
ghost use Rattle.rl_model.specs.OperatorRows.{DeadPathsGo, SecondOperandActs, SecondOperandIsOut, HoldsAndRuns, FailsAndStays, AskedOnlyThere};
ghost use Rattle.rl_model.specs.ControlRows.{ReturnsToCaller, ReturnsAtEnd, NoRoomToPush, NothingToPop};
ghost use Rattle.rl_model.specs.ScannerRows.{BacksUp, TokenAtOnce, KeywordThenWord};

/// The order of actions, on small sources: leaving actions before entering ones, those of a new round last, an entering
/// action first wherever it is written, and a guard that ends what it guards.
pub fn actions_run_in_order()
    ensures leaves_before_entering { LeavesBeforeEntering }
    ensures empty_word_is_left { EmptyWordIsLeft }
    ensures new_round_last { NewRoundLast }
    ensures enters_first { EntersFirst }
    ensures guard_ends { GuardEnds }
    ensures guard_is_last { GuardIsLast }
{}

/// State embeddings, on small sources: to-state and from-state actions around each character, error actions where there
/// is no step, and at the end of the input where the state is not final.
pub fn state_actions_run()
    ensures from_and_to { FromAndTo }
    ensures error_action_runs { ErrorActionRuns }
    ensures error_action_at_end { ErrorActionAtEnd }
    ensures no_error_action_at_final { NoErrorActionAtFinal }
{}

/// Priorities, on small sources: the higher one stays, equal ones are joined, and a longest repetition goes on rather than
/// begin a new round.
pub fn priorities_decide()
    ensures higher_stays { HigherStays }
    ensures equal_are_joined { EqualAreJoined }
    ensures longest_goes_on { LongestGoesOn }
    ensures each_begins { EachBegins }
    ensures both_go_on { BothGoOn }
{}

/// Intersections and differences, on small sources: paths that lead to no word have no step, and the actions of both
/// operands run.
pub fn operands_step_together()
    ensures dead_paths_go { DeadPathsGo }
    ensures second_operand_acts { SecondOperandActs }
    ensures second_operand_is_out { SecondOperandIsOut }
{}

/// Conditions, on a small source: one is asked before the actions, and only where a transition that bears it could exist.
pub fn conditions_are_asked()
    ensures holds_and_runs { HoldsAndRuns }
    ensures fails_and_stays { FailsAndStays }
    ensures asked_only_there { AskedOnlyThere }
{}

/// Calls of entries and returns from them, on small sources: to the state that called, within the input and at its end;
/// without room on the stack, and with nothing on it.
pub fn calls_return()
    ensures returns_to_caller { ReturnsToCaller }
    ensures returns_at_end { ReturnsAtEnd }
    ensures no_room_to_push { NoRoomToPush }
    ensures nothing_to_pop { NothingToPop }
{}

/// Scanners, on small sources: the longest match is taken and what was read behind it is read again; of equal matches the
/// first listed one is taken; a match that nothing can lengthen is a token at once.
pub fn tokens_are_longest()
    ensures backs_up { BacksUp }
    ensures token_at_once { TokenAtOnce }
    ensures keyword_then_word { KeywordThenWord }
{}
