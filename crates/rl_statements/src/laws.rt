// What holds of the statements that codes are read as.
ghost use Rattle.rl_statements.specs.Statements.{GoalsAreOwn, EntriesAreOwn, EntriesAreThere, OuterAreFew};

/// Of the statements that a code is read as only an exec has a goal, exactly those have an entry whose kind names one, this is the number of
/// an entry that is there, and at most four are at the outer level where there is no fifth.
pub fn statements_have_their_form()
    ensures goals_are_own { GoalsAreOwn }
    ensures entries_are_own { EntriesAreOwn }
    ensures entries_are_there { EntriesAreThere }
    ensures outer_are_few { OuterAreFew }
{}
