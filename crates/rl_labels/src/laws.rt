//! Laws of stamped sets and cuts. Each function does nothing: its contract is the law, which is proved.
ghost use Rattle.rl_labels.specs.LabelLaws.{CutGivesSurvivors, SurvivorsAgree, SurvivorsLeadAlike, OrderIsFree, RestampOfThree, OnceOfThree, RingIsCycle, NothingIsLeftOfRing, SecondIsLeft};

/// The places that `cut` gives are those of the tables that no table of the list beats, in order.
pub fn cut_gives_survivors()
    ensures { CutGivesSurvivors }
{}

/// Two tables that both stay after a cut have equal values under each name that both have.
pub fn survivors_agree()
    ensures { SurvivorsAgree }
{}

/// Whichever of two tables that both stay after a cut is put over the other, the outcome is the table of the entries
/// of both: so `Priors::lead`, which prefers its own entry on equal stamps, and `Priors::of`, which takes the greater
/// value then, give the same of them.
pub fn survivors_lead_alike()
    ensures { SurvivorsLeadAlike }
{}

/// The table of the entries of several tables does not depend on the order in which the tables are listed.
pub fn order_is_free()
    ensures { OrderIsFree }
{}

/// Rows that compute: a set of three that is restamped, a list of three actions with a later copy, three candidates
/// each of which another beats, and three of which one is left.
pub fn rows()
    ensures restamped { RestampOfThree }
    ensures once { OnceOfThree }
    ensures cycle { RingIsCycle }
    ensures nothing_left { NothingIsLeftOfRing }
    ensures one_left { SecondIsLeft }
{}
