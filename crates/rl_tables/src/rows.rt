// What the check says of the arrays of a small machine. The function does nothing: its contract is what is proved.
ghost use Rattle.rl_tables.specs.Rows.{OneIsValid, NoSuchKey, NoSuchCondition, NoSuchState, NoListBegins, TooFewLists, NoSuchAction, FinalBehindAll, NoSuchVersion, UsesInVersionOne, NoSuchCell};

/// The arrays of `main := 'ab' $x;` are valid. Of ten changes of them each is wrong first where it was made: a key that
/// the alphabet lacks, a condition or a state that does not exist, a number where no list begins, an array that is too
/// short, an action that does not exist, a use of a cell in version 1, a use of a cell that does not exist in version 2;
/// and a least final state behind all states and a version that there is not, which are told at the entries' states (this
/// profile).
pub fn arrays_are_checked()
    ensures valid { OneIsValid }
    ensures key { NoSuchKey }
    ensures condition { NoSuchCondition }
    ensures state { NoSuchState }
    ensures list { NoListBegins }
    ensures short { TooFewLists }
    ensures action { NoSuchAction }
    ensures first_final { FinalBehindAll }
    ensures version { NoSuchVersion }
    ensures uses { UsesInVersionOne }
    ensures cell { NoSuchCell }
{}
