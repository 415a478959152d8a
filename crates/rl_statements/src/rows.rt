// What some codes say.
ghost use Rattle.rl_statements.specs.Rows.{HoldIsRead, NestedExecIsRead, CallNamesEntry, GotoWantsName, TextIsNotRead, FifthIsTooMany, NoneBehindTransfer, BraceEndsBefore, GoalHasStatement, LeftOutIsMisplaced, ReservedIsNoName, EntryWantsParentheses};

/// What some codes say: statements with their names, goals and braces, words that are not read, and words that stand where they may not.
pub fn codes_say()
    ensures hold_is_read { HoldIsRead }
    ensures nested_exec_is_read { NestedExecIsRead }
    ensures call_names_entry { CallNamesEntry }
    ensures goto_wants_name { GotoWantsName }
    ensures text_is_not_read { TextIsNotRead }
    ensures fifth_is_too_many { FifthIsTooMany }
    ensures none_behind_transfer { NoneBehindTransfer }
    ensures brace_ends_before { BraceEndsBefore }
    ensures goal_has_statement { GoalHasStatement }
    ensures left_out_is_misplaced { LeftOutIsMisplaced }
    ensures reserved_is_no_name { ReservedIsNoName }
    ensures entry_wants_parentheses { EntryWantsParentheses }
{}
