// Laws over the definitions.
ghost use Rattle.rl_laws.specs.Priorities.{SurvivorsLeadAsOne, SurvivorsLeadInAnyOrder, SurvivorsLeadInTurn};
ghost use Rattle.rl_laws.specs.Regular.{OneRegular, RegularsAreRead, RegularsAreTold};
ghost use Rattle.rl_laws.specs.Ties.{ExpressionsCarryTables, JoinsLead, ScannersCarryTables, StampsTellPriorities};
ghost use Rattle.rl_laws.specs.Written.{OneSet, SetsAreTold, SetsAreRead};

/// Any number of tables that stay after a cut, put over one another by `Priors::lead`, are the table that `Priors::of`
/// makes of the entries of all, in whatever order they are put, how often each, and from whichever end.
pub fn survivors_lead_as_one()
    ensures one { SurvivorsLeadAsOne }
    ensures any_order { SurvivorsLeadInAnyOrder }
    ensures in_turn { SurvivorsLeadInTurn }
{}

/// Within an entry two priorities with one stamp are one: they have one name and one value, also where they stand in two
/// patterns of a scanner. Each step of an expression or a scanner, and each configuration that is left, carries a table of
/// priorities of this expression or these patterns alone. And where stamps tell priorities apart, tables that are carried
/// together come to the same as each put over the next by `Priors::lead`. So no tie is ever left to a rule.
pub fn joins_are_lead()
    ensures stamps { StampsTellPriorities }
    ensures tables { ExpressionsCarryTables }
    ensures scanners { ScannersCarryTables }
    ensures joins { JoinsLead }
{}

/// A text writes one set of characters at most. The token of a set has no fault exactly where it writes one, and that set
/// is what is read from it.
pub fn sets_have_one_value()
    ensures one { OneSet }
    ensures told { SetsAreTold }
    ensures read { SetsAreRead }
{}

/// A text writes one regular expression at most. A text behind a slash has no fault exactly where it writes one with this
/// slash, and of a token that is what is read from it: its items, and whether case is ignored.
pub fn regular_expressions_have_one_value()
    ensures one { OneRegular }
    ensures told { RegularsAreTold }
    ensures read { RegularsAreRead }
{}
