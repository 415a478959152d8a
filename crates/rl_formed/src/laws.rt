// What holds of the Specs of drafts.
ghost use Rattle.rl_formed.specs.Laws.{HasReadCodes, HasFewStatements, HasQuietConditions, HasQuietTurns, HasQuietPatterns, HasPatternsIn, HasOwnTokens, OfAccepted, HasOwnActions, HasOwnEntries, EmbedsOwnActions, HasOwnConditions, HasFewActions, HasFewEntries, HasNamedEntries, HasNamedActions, HasSmallSets, HaveNamedMachines, HasActionsIn, HasWritesIn, OfDrafts, OfFiles, OfNamed, OfWritten};

/// The Spec of a draft: no two actions and no two entries have one name, each action that an entry embeds and each
/// condition is an action of the machine, and the sets of entries are few ranges of keys of the alphabet. Where no fault
/// of names is found there are at most 65,535 actions and entries, and each scanner has a pattern and tokens whose actions
/// are actions of the machine.
pub fn specs_are_formed()
    ensures actions { OfDrafts HasOwnActions }
    ensures entries { OfDrafts HasOwnEntries }
    ensures embedded { OfDrafts EmbedsOwnActions }
    ensures conditions { OfDrafts HasOwnConditions }
    ensures sets { OfDrafts HasSmallSets }
    ensures few_actions { OfNamed HasFewActions }
    ensures few_entries { OfNamed HasFewEntries }
    ensures patterns { OfNamed HasPatternsIn }
    ensures tokens { OfNamed HasOwnTokens }
{}

/// Where no fault of names is found, no action has more than four control statements at the outer level, and conditions,
/// to-state and from-state actions and those that patterns embed have none. Where codes are blocks of C, as those that
/// tokens have, and no fault of entries is found either, each action's code is read as its statements.
pub fn codes_are_read()
    ensures codes { OfAccepted HasReadCodes }
    ensures few { OfNamed HasFewStatements }
    ensures conditions { OfNamed HasQuietConditions }
    ensures turns { OfNamed HasQuietTurns }
    ensures patterns { OfNamed HasQuietPatterns }
{}

/// Where the names in statements are names, as those that tokens have, so are those of machines, entries and actions; an
/// action without a name is called by its place.
pub fn names_are_written()
    ensures entries { OfWritten HasNamedEntries }
    ensures actions { OfWritten HasNamedActions }
    ensures machines { HaveNamedMachines }
{}

/// Actions and `write` statements stand in the files of their statements.
pub fn places_are_in_files()
    ensures actions { OfFiles HasActionsIn }
    ensures writes { OfFiles HasWritesIn }
{}
