// What was given for each option and word of `ragel-run`.
ghost use Rattle.std.specs.Prelude.{◌≡◌, codes};
ghost use Rattle.clap.specs.Words.{found_of, rows_of, first_of};
ghost use Rattle.rl_words.specs.Given.{given_in};
ghost use Rattle.rl_words.specs.Told.{text_in, given_told};

use clap::ArgMatches;

// Each option and word, if it was given.
#[derive(Clone, Copy)]
pub(crate) struct Given<'a> {
    pub machine: Option<&'a str>,
    pub stack: Option<&'a str>,
    pub look: Option<&'a str>,
    pub token: Option<&'a str>,
    pub input: Option<&'a str>,
    pub make: Option<&'a str>,
    pub upgrade: Option<&'a str>,
    pub spec: Option<&'a str>,
    pub script: Option<&'a str>,
}

// What was given for an option or a word.
#[tactic(auto, using(crate::proofs::MatchLaws::first_matched))]
pub(crate) fn value_of<'a>(matches: &ArgMatches<'a>, id: &str) -> Option<&'a str>
    ensures { text_in result ≡ first_of id.now (rows_of (found_of matches.now)) }
{
    matches.get_str(id)
}

// All that was given.
pub(crate) fn all_given<'a>(matches: &ArgMatches<'a>) -> Given<'a>
    ensures { given_told result ≡ given_in (rows_of (found_of matches.now)) }
{
    Given {
        machine: value_of(matches, "machine"),
        stack: value_of(matches, "stack"),
        look: value_of(matches, "look"),
        token: value_of(matches, "token"),
        input: value_of(matches, "input"),
        make: value_of(matches, "make"),
        upgrade: value_of(matches, "upgrade"),
        spec: value_of(matches, "spec"),
        script: value_of(matches, "script"),
    }
}
