// What replays of small sources write.
ghost use Rattle.rl_rows.specs.PlainRows.{EmptyWordIsFinal, CharacterIsDue, NoWordIsFinal, EachCharacter, StopStays, LeavesBeforeEntering, EachWordOnce, EmptyWordIsLeft, NewRoundLast, EntersFirst, GuardEnds, GuardIsLast, FromAndTo, ErrorActionRuns, ErrorActionAtEnd, HigherStays, EqualAreJoined, LongestGoesOn, EachBegins, BothGoOn, TwoBytesEach, CutWithin, HalfAtEnd, UpperHalfBelowZero, SaidYes, NotSaid, NoRoomToPush, NothingToPop, StrayPick, TooFarBack, BehindEnd};
ghost use Rattle.rl_rows.specs.TestedRows.{DeadPathsGo, SecondOperandActs, SecondOperandIsOut, ReturnsToCaller, ReturnsAtEnd, BacksUp, PiecesAddUp, SessionsTakeTurns, KeywordThenWord, TokenIsTooLong};

/// Sources without actions: which ends are final.
pub fn words_are_accepted()
    ensures empty_word_is_final { EmptyWordIsFinal }
    ensures character_is_due { CharacterIsDue }
    ensures no_word_is_final { NoWordIsFinal }
{}

/// Actions on steps: each call has its line, in the order of stamps, and a stopped session writes no more.
pub fn actions_are_written()
    ensures each_character { EachCharacter }
    ensures stop_stays { StopStays }
    ensures leaves_before_entering { LeavesBeforeEntering }
    ensures each_word_once { EachWordOnce }
    ensures empty_word_is_left { EmptyWordIsLeft }
    ensures new_round_last { NewRoundLast }
    ensures enters_first { EntersFirst }
    ensures guard_ends { GuardEnds }
    ensures guard_is_last { GuardIsLast }
{}

/// State embeddings: to-state, from-state and error actions.
pub fn state_actions_are_written()
    ensures from_and_to { FromAndTo }
    ensures error_action_runs { ErrorActionRuns }
    ensures error_action_at_end { ErrorActionAtEnd }
{}

/// Priorities: of two steps the higher stays, and a longest repetition goes on.
pub fn priorities_are_written()
    ensures higher_stays { HigherStays }
    ensures equal_are_joined { EqualAreJoined }
    ensures longest_goes_on { LongestGoesOn }
    ensures each_begins { EachBegins }
    ensures both_go_on { BothGoOn }
{}

/// Characters of two bytes: positions count characters, a piece may cut one, an input that ends within one stops, and
/// the upper half of a signed alphabet is below 0.
pub fn wide_characters_are_written()
    ensures two_bytes_each { TwoBytesEach }
    ensures cut_within { CutWithin }
    ensures half_at_end { HalfAtEnd }
    ensures upper_half_below_zero { UpperHalfBelowZero }
{}

/// Conditions: what the script says of one, and No where it says nothing.
pub fn conditions_are_written()
    ensures said_yes { SaidYes }
    ensures not_said { NotSaid }
{}

/// Control statements that are refused: the line of the call has them, and the session stops.
pub fn refused_picks_are_written()
    ensures no_room_to_push { NoRoomToPush }
    ensures nothing_to_pop { NothingToPop }
    ensures stray_pick { StrayPick }
    ensures too_far_back { TooFarBack }
    ensures behind_end { BehindEnd }
{}

/// An intersection and a difference: paths that lead to no word have no step, the actions of both operands run, and what
/// the second operand of a difference takes is out.
pub fn operands_are_written()
    ensures dead_paths_go { DeadPathsGo }
    ensures second_operand_acts { SecondOperandActs }
    ensures second_operand_is_out { SecondOperandIsOut }
{}

/// Calls of entries and returns from them, which the host takes by itself.
pub fn calls_are_written()
    ensures returns_to_caller { ReturnsToCaller }
    ensures returns_at_end { ReturnsAtEnd }
{}

/// Scanners: the longest match is taken, however the input is cut and the sessions take turns; of equal matches the first
/// listed one; and a token may be too long.
pub fn tokens_are_written()
    ensures backs_up { BacksUp }
    ensures pieces_add_up { PiecesAddUp }
    ensures sessions_take_turns { SessionsTakeTurns }
    ensures keyword_then_word { KeywordThenWord }
    ensures token_is_too_long { TokenIsTooLong }
{}
