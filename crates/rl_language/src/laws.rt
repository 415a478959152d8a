// Laws over the definitions.
ghost use Rattle.std.specs.Prelude.{◌≡◌, ℕ, ◌≤◌, ◌<◌, ◌^◌, Bool, true, false, IsTrue, List, [], ◌∷◌, ◌++◌, None, Option, ◌↔◌, length};
ghost use Rattle.rl_types.specs.declared.numbers.Letter.{Letter};
ghost use Rattle.rl_automata.specs.Language.{IsWordOf, has_priority};
ghost use Rattle.rl_automata.specs.Marks.{Marks, auto, AreHonest};
ghost use Rattle.rl_automata.specs.Nodes.{Node, Ends};
ghost use Rattle.rl_automata.specs.Runs.{unpruned};
ghost use Rattle.rl_automata.specs.Scans.{Pattern, Confs, PatternMarks, ArePatternsHonest, scan_auto, token_list};
ghost use Rattle.rl_model.specs.declared.spec.Spec.{Spec};
ghost use Rattle.rl_model.specs.Specification.{Specification, Scanner, specification_of, roots_of};
ghost use Rattle.rl_model.specs.WellFormed.{IsWellFormed};
ghost use Rattle.rl_model.specs.Trees.{TestsOf, AreTestsHonest, HasHonestTests, root_at, tests_at, context_of, root_part, TreeState, tree_machine};
ghost use Rattle.rl_build.specs.Entries.{AreMachinesOf};
ghost use Rattle.rl_fsm.specs.Roots.{graph_at};
ghost use Rattle.rl_root.specs.Roots.{part_at, root_machine};
ghost use Rattle.rl_build.specs.Roots.{IsTwinOf};
ghost use Rattle.rl_fsm.specs.declared.root.EntryFsm.{EntryFsm};
ghost use Rattle.rl_fsm.specs.Graphs.{fsm_auto};
ghost use Rattle.rl_run.specs.Alike.{MakeSameRuns};
ghost use Rattle.rl_run.specs.Machine.{Machine};
ghost use Rattle.rl_types.specs.Alphabet.{width_of, key_of, has_rest, characters};
ghost use Rattle.rl_language.specs.Verdicts.{IsWithoutPriorities, IsWordOfEntry, HasNoStatements, letters_of, IsTold, VerdictsTellWords, VerdictsTellPlainWords};
ghost use Rattle.rl_language.specs.Replays.{EndsWithVerdict, TellsCalls, PickNothing, AnswerNothing, truths_said};
ghost use Rattle.rl_language.specs.Tokens.{tokens_called, ScansWithoutPriorities, IsScannedBy, IsScannedUnder, TokensCutInput};
ghost use Rattle.rl_replay.specs.declared.script.Line.{Line};
ghost use Rattle.rl_replay.specs.Host.{host};
ghost use Rattle.rl_replay.specs.Sessions.{Names, entry_or_start, only, is_opened, is_ended, fed, first_fault};
ghost use Rattle.rl_replay.specs.Written.{written, whole_input, entry_of};
ghost use Rattle.rl_run.specs.declared.sessions.Settings.{Settings};
ghost use Rattle.rl_language.specs.Scanners.{IsWordOfSome, ArePatternsWithoutPriorities, Leads, MakesToken, FindsTokens};

/// The automaton of an expression without priorities goes along a word to a final configuration exactly where the word
/// is one of the expression's, whichever honest tests are taken. So it does where nothing is pruned: dropping the steps to
/// what can't end takes no word.
pub fn automata_match_words()
    ensures honest { (t : Node) (k : Marks t) → has_priority t ≡ false → AreHonest t k → (w : List Letter) → Ends (auto t k) w (auto t k).start ↔ IsWordOf t w }
    ensures unpruned { (t : Node) → has_priority t ≡ false → (w : List Letter) → Ends (auto t (unpruned t)) w (auto t (unpruned t)).start ↔ IsWordOf t w }
{}

/// Where no action has a control statement, the verdict of a run says whether its input is a word of the entry: a run
/// over a whole input from an entry whose expression has no priorities ends with the verdict Final exactly where the
/// input's letters are one of the expression's words, unless an answer stopped it; where bytes that fill no character
/// stand at the end, it is Error. Each condition is to be answered as it holds at its position; without conditions there
/// is nothing to answer. What makes the same runs tells the same, whichever states stand for each other.
pub fn verdicts_tell_words()
    ensures trees { (spec : Specification) (tests : TestsOf spec) → AreTestsHonest spec tests → HasNoStatements spec → (e : ℕ) → 1 ≤ e → e ≤ length spec.entries →
        IsWithoutPriorities (root_at (roots_of spec) e) → VerdictsTellWords (tree_machine spec tests) e (root_at (roots_of spec) e) }
    ensures alike { (spec : Specification) (tests : TestsOf spec) (m : Machine ℕ) (rename : ℕ → ℕ) (stands : TreeState spec → ℕ → Bool) →
        AreTestsHonest spec tests → HasNoStatements spec → (e : ℕ) → 1 ≤ e → e ≤ length spec.entries →
        IsWithoutPriorities (root_at (roots_of spec) e) →
        MakeSameRuns (tree_machine spec tests) m rename (λ q p. IsTrue (stands q p)) →
        m.width ≡ width_of spec.alphabet → ((character : ℕ) → m.key_of character ≡ key_of spec.alphabet character) →
        VerdictsTellWords m e (root_at (roots_of spec) e) }
    ensures unasked { (spec : Spec) (tests : TestsOf (specification_of spec)) → IsWellFormed spec → AreTestsHonest (specification_of spec) tests → HasNoStatements (specification_of spec) → (specification_of spec).conditions ≡ [] →
        (e : ℕ) → 1 ≤ e → e ≤ length (specification_of spec).entries → IsWithoutPriorities (root_at (roots_of (specification_of spec)) e) →
        VerdictsTellPlainWords (tree_machine (specification_of spec) tests) e (root_at (roots_of (specification_of spec)) e) }
{}

/// So a replay says of an input whether it is a word, where no action has a control statement. The last line that is written
/// for a script which opens a session, feeds it one piece and ends it is the session's end line, and its verdict is Final
/// exactly where the piece is a word of the session's entry, and Error where bytes that fill no character stand at its
/// end; the host says No to each condition, so none holds. In any script without a fault, what is written for a session that is
/// opened and ended, and whose calls of actions no line answers, tells the same of all its input, however it is cut into pieces;
/// at each character those conditions hold to which the host says Yes there, as the session's lines have it.
pub fn replays_tell_words()
    ensures whole { (spec : Specification) (tests : TestsOf spec) → AreTestsHonest spec tests → HasNoStatements spec →
        (names : Names) (settings : Settings) (s : List ℕ) (entry : Option (List ℕ)) (bytes : List ℕ) → length bytes < 2 ^ 63 →
        1 ≤ entry_or_start names entry → entry_or_start names entry ≤ length spec.entries →
        IsWithoutPriorities (root_at (roots_of spec) (entry_or_start names entry)) →
        EndsWithVerdict (written names (tree_machine spec tests) settings (whole_input s entry bytes)) s
        (λ verdict. IsTold verdict (has_rest (width_of spec.alphabet) bytes)
        (IsWordOfEntry (root_at (roots_of spec) (entry_or_start names entry))
        (letters_of (width_of spec.alphabet) (key_of spec.alphabet) (λ p. 0) bytes))) }
    ensures said { (spec : Specification) (tests : TestsOf spec) → AreTestsHonest spec tests → HasNoStatements spec →
        (names : Names) (settings : Settings) (script : List Line) (s : List ℕ) → first_fault names script ≡ None →
        PickNothing (only s script) → is_opened (only s script) ≡ true → is_ended (only s script) ≡ true →
        1 ≤ entry_of names (only s script) → entry_of names (only s script) ≤ length spec.entries →
        IsWithoutPriorities (root_at (roots_of spec) (entry_of names (only s script))) → length (fed (only s script)) < 2 ^ 63 →
        TellsCalls (tree_machine spec tests) (host (tree_machine spec tests) (only s script)) (written names (tree_machine spec tests) settings (only s script)) s
        (λ calls verdict. IsTold verdict (has_rest (width_of spec.alphabet) (fed (only s script)))
        (IsWordOfEntry (root_at (roots_of spec) (entry_of names (only s script)))
        (letters_of (width_of spec.alphabet) (key_of spec.alphabet) (truths_said (host (tree_machine spec tests) (only s script)) calls) (fed (only s script))))) }
{}

/// A scanner whose patterns have no priorities: its automaton goes along a word to a match exactly where the word is one of
/// some pattern's, so the last match on the way along a longer word is at the longest front of it that some pattern has.
/// Where a word leads, the token list is that of the first pattern that has the word; and where no step is on a letter,
/// no word that goes on with the letter is one of any pattern's.
pub fn scanners_match_words()
    ensures words { (ps : List Pattern) (k : PatternMarks ps) → ArePatternsWithoutPriorities ps → ArePatternsHonest ps k → (w : List Letter) → Ends (scan_auto ps k) w (scan_auto ps k).start ↔ IsWordOfSome ps w }
    ensures tokens { (ps : List Pattern) (k : PatternMarks ps) → ArePatternsWithoutPriorities ps → ArePatternsHonest ps k → (w : List Letter) (c : Confs ps) → Leads (scan_auto ps k) w (scan_auto ps k).start c → MakesToken ps k w (token_list ps k c) }
    ensures stuck { (ps : List Pattern) (k : PatternMarks ps) → ArePatternsWithoutPriorities ps → ArePatternsHonest ps k → (w : List Letter) (c : Confs ps) → Leads (scan_auto ps k) w (scan_auto ps k).start c →
        (l : Letter) → (scan_auto ps k).step c l ≡ None → (v : List Letter) → ¬ IsWordOfSome ps (w ++ l ∷ v) }
    ensures longest { (ps : List Pattern) (k : PatternMarks ps) → ArePatternsWithoutPriorities ps → ArePatternsHonest ps k → (closed : Confs ps → Bool) → FindsTokens ps k (root_part (Scanner ps) (k, closed)) }
{}

/// What `build` gives of a scanner whose patterns have no priorities finds the same tokens: along any word, the last match
/// on the way is at the word's longest non-empty front that some pattern has, with the token list of the first pattern
/// that has it; and where there is no step on a letter, no pattern has a word that goes on with it. The premise is what
/// `build` promises of an `Ok`.
pub fn built_scanners_match_words()
    ensures { (spec : Specification) (entries : List EntryFsm) → AreMachinesOf (roots_of spec) entries → (e : ℕ) → 1 ≤ e → e ≤ length spec.entries →
        (ps : List Pattern) (k : PatternMarks ps) → root_at (roots_of spec) e ≡ Scanner ps → ArePatternsWithoutPriorities ps → ArePatternsHonest ps k → FindsTokens ps k (part_at entries e) }
{}

/// Where no action has a control statement, the token calls of a scanner whose patterns have no priorities cut its input: each
/// token is the longest front of what is left that some pattern has, one token begins where the one before it ends, each calls
/// the actions of the first pattern that has it, and the verdict is Final exactly where nothing is left. So it is of the
/// tree machine, of what makes the same runs, where actions may have other numbers, and of what `build` gives, for an input
/// of whole characters, no more than a token may have. In a replay it is so of what is written for a session that is opened
/// and ended and whose calls no line answers, however its input is cut into pieces; no condition holds then.
pub fn scanners_cut_inputs()
    ensures trees { (spec : Spec) (tests : TestsOf (specification_of spec)) → IsWellFormed spec → AreTestsHonest (specification_of spec) tests → HasNoStatements (specification_of spec) →
        (e : ℕ) → 1 ≤ e → e ≤ length (specification_of spec).entries → ScansWithoutPriorities (root_at (roots_of (specification_of spec)) e) →
        TokensCutInput (tree_machine (specification_of spec) tests) e (IsScannedBy (root_at (roots_of (specification_of spec)) e) (tests_at (roots_of (specification_of spec)) tests e)) }
    ensures alike { (spec : Spec) (tests : TestsOf (specification_of spec)) (m : Machine ℕ) (rename : ℕ → ℕ) (stands : TreeState (specification_of spec) → ℕ → Bool) → IsWellFormed spec → AreTestsHonest (specification_of spec) tests → HasNoStatements (specification_of spec) →
        (e : ℕ) → 1 ≤ e → e ≤ length (specification_of spec).entries → ScansWithoutPriorities (root_at (roots_of (specification_of spec)) e) →
        MakeSameRuns (tree_machine (specification_of spec) tests) m rename (λ q p. IsTrue (stands q p)) →
        m.width ≡ width_of (specification_of spec).alphabet → ((character : ℕ) → m.key_of character ≡ key_of (specification_of spec).alphabet character) →
        TokensCutInput m e (IsScannedUnder rename (root_at (roots_of (specification_of spec)) e) (tests_at (roots_of (specification_of spec)) tests e)) }
    ensures built { (spec : Spec) (tests : TestsOf (specification_of spec)) (entries : List EntryFsm) → IsWellFormed spec → AreTestsHonest (specification_of spec) tests → IsTwinOf (specification_of spec) tests entries → HasNoStatements (specification_of spec) →
        (e : ℕ) → 1 ≤ e → e ≤ length (specification_of spec).entries → ScansWithoutPriorities (root_at (roots_of (specification_of spec)) e) →
        TokensCutInput (root_machine entries (context_of (specification_of spec))) e (IsScannedBy (root_at (roots_of (specification_of spec)) e) (tests_at (roots_of (specification_of spec)) tests e)) }
    ensures replays { (spec : Spec) (tests : TestsOf (specification_of spec)) → IsWellFormed spec → AreTestsHonest (specification_of spec) tests → HasNoStatements (specification_of spec) →
        (names : Names) (settings : Settings) (script : List Line) (s : List ℕ) → first_fault names script ≡ None →
        AnswerNothing (only s script) → is_opened (only s script) ≡ true → is_ended (only s script) ≡ true →
        1 ≤ entry_of names (only s script) → entry_of names (only s script) ≤ length (specification_of spec).entries →
        ScansWithoutPriorities (root_at (roots_of (specification_of spec)) (entry_of names (only s script))) → length (fed (only s script)) < 2 ^ 63 →
        has_rest (width_of (specification_of spec).alphabet) (fed (only s script)) ≡ false →
        length (characters (width_of (specification_of spec).alphabet) (fed (only s script))) ≤ settings.token_max →
        TellsCalls (tree_machine (specification_of spec) tests) (host (tree_machine (specification_of spec) tests) (only s script)) (written names (tree_machine (specification_of spec) tests) settings (only s script)) s
        (λ calls verdict. IsScannedBy (root_at (roots_of (specification_of spec)) (entry_of names (only s script))) (tests_at (roots_of (specification_of spec)) tests (entry_of names (only s script)))
        (letters_of (width_of (specification_of spec).alphabet) (key_of (specification_of spec).alphabet) (λ p. 0) (fed (only s script))) (tokens_called calls) verdict) }
{}

/// What `build` gives finds the same words: the machine of an entry whose expression has no priorities ends in a final
/// state along exactly the words of the expression, and where no action has a control statement the verdicts of runs over
/// the machines of all entries tell them. The premises are what `build` promises of an `Ok`.
pub fn built_machines_match_words()
    ensures machines { (spec : Specification) (entries : List EntryFsm) → AreMachinesOf (roots_of spec) entries → HasHonestTests spec → (e : ℕ) → 1 ≤ e → e ≤ length spec.entries →
        IsWithoutPriorities (root_at (roots_of spec) e) → (w : List Letter) → Ends (fsm_auto (graph_at entries e)) w (graph_at entries e).start ↔ IsWordOfEntry (root_at (roots_of spec) e) w }
    ensures verdicts { (spec : Specification) (tests : TestsOf spec) (entries : List EntryFsm) → AreTestsHonest spec tests → IsTwinOf spec tests entries → HasNoStatements spec → (e : ℕ) → 1 ≤ e → e ≤ length spec.entries →
        IsWithoutPriorities (root_at (roots_of spec) e) → VerdictsTellWords (root_machine entries (context_of spec)) e (root_at (roots_of spec) e) }
{}
