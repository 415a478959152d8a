// Codes and texts as they are printed.
ghost use Rattle.rl_cexec.specs.Rows.{CharacterIsRead, CallPushes, EndLeavesRun, GoalIsKept, GoalHasValues, TextIsKept, NamesAreReplaced, EntryIsNumber, ShortInit, LongInit};

/// How some codes and init texts are printed: statements, goals and values, in a list and at the end of the input; text that is kept;
/// names of the source; and the lines that stand if actions return or the machine has a scanner.
pub fn texts_are_printed()
    ensures character_is_read { CharacterIsRead }
    ensures call_pushes { CallPushes }
    ensures end_leaves_run { EndLeavesRun }
    ensures goal_is_kept { GoalIsKept }
    ensures goal_has_values { GoalHasValues }
    ensures text_is_kept { TextIsKept }
    ensures names_are_replaced { NamesAreReplaced }
    ensures entry_is_number { EntryIsNumber }
    ensures short_init { ShortInit }
    ensures long_init { LongInit }
{}
