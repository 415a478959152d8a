// Small expressions and some of their words.
ghost use Rattle.rl_language.specs.Rows.{RoundsAreWhole, ADifferenceIsTheRest, AnIntersectionIsInBoth, EachLetterHasTheCondition};

/// What the definition of an expression's words says of a repetition, a difference, an intersection and a condition.
pub fn words_of_small_expressions()
    ensures repetition { RoundsAreWhole }
    ensures difference { ADifferenceIsTheRest }
    ensures intersection { AnIntersectionIsInBoth }
    ensures condition { EachLetterHasTheCondition }
{}
