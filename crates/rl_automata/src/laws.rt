// Laws over the definitions.
ghost use Rattle.std.specs.Prelude.{◌≡◌, ℕ, ℤ, List, length};
ghost use Rattle.rl_types.specs.declared.alphabet.Alphabet.{Alphabet};
ghost use Rattle.rl_types.specs.KeyRange.{Range};
ghost use Rattle.rl_sets.specs.Order.{IsOrder};
ghost use Rattle.rl_sets.specs.Sets.{In};
ghost use Rattle.rl_automata.specs.Follows.{Reach, Follows};
ghost use Rattle.rl_automata.specs.Nodes.{Node};
ghost use Rattle.rl_automata.specs.Marks.{Marks, auto, AreHonest};
ghost use Rattle.rl_automata.specs.Scans.{Pattern, Confs, PatternMarks, ArePatternsHonest, Root, scan_raw, scan_auto, token_list};
ghost use Rattle.rl_automata.specs.Sites.{Site, AllRootMarks, AreRootsHonest, all_sites};
ghost use Rattle.rl_automata.specs.Refused.{class_count, Cause, IsAccepted, IsRefusal, AreBuildable};
ghost use Rattle.rl_automata.specs.Laws.{AreOneOfEach, NeverReturns, StepsByAsked, UnionKeepsNames, AndKeepsNames, MinusKeepsNames, CatKeepsNames, StarKeepsNames, EnterKeepsNames, FinishKeepsNames, AllKeepsNames, LeaveKeepsNames, MarkKeepsNames, WhenKeepsNames};

/// No step leads to the start, whatever the expression is and whatever its tests say.
pub fn steps_never_return()
    ensures expressions { (t : Node) (k : Marks t) → NeverReturns (auto t k) }
    ensures scanners { (ps : List Pattern) (k : PatternMarks ps) → NeverReturns (scan_auto ps k) }
{}

/// A step depends only on the key, and on which of the asked conditions hold.
pub fn steps_depend_on_asked()
    ensures expressions { (t : Node) (k : Marks t) → StepsByAsked (auto t k) }
    ensures scanners { (ps : List Pattern) (k : PatternMarks ps) → StepsByAsked (scan_auto ps k) }
{}

/// Configurations are in an order in which only equal ones tie, so that sets of them have one list each.
pub fn configurations_are_ordered()
    ensures expressions { (t : Node) (k : Marks t) → IsOrder (auto t k).order }
    ensures scanners { (ps : List Pattern) (k : PatternMarks ps) → IsOrder (scan_auto ps k).order }
{}

/// What an operator makes of automata that are the operands' under other names is the node's under other names: so an
/// operator's code needs to know numbers alone.
pub fn operators_keep_names()
    ensures union { UnionKeepsNames }
    ensures intersection { AndKeepsNames }
    ensures difference { MinusKeepsNames }
    ensures concatenation { CatKeepsNames }
    ensures repetition { StarKeepsNames }
    ensures entering { EnterKeepsNames }
    ensures finishing { FinishKeepsNames }
    ensures every_step { AllKeepsNames }
    ensures leaving { LeaveKeepsNames }
    ensures marks { MarkKeepsNames }
    ensures conditions { WhenKeepsNames }
{}

/// What is told of an expression does not depend on which honest tests are taken: with two of them the automata agree
/// on all that is reached, and a scanner's token lists do too.
pub fn honest_tests_agree()
    ensures expressions { (t : Node) (k h : Marks t) → AreHonest t k → AreHonest t h → Follows (auto t k) (auto t h) (λ c. c) }
    ensures scanners { (ps : List Pattern) (k h : PatternMarks ps) → ArePatternsHonest ps k → ArePatternsHonest ps h → Follows (scan_auto ps k) (scan_auto ps h) (λ c. c) }
    ensures tokens { (ps : List Pattern) (k h : PatternMarks ps) → ArePatternsHonest ps k → ArePatternsHonest ps h → (c : Confs ps) → Reach (scan_raw ps k) c → token_list ps k c ≡ token_list ps h c }
{}

/// A machine has at most one first refused node, with one cause; a machine that has one is not built; and what is
/// accepted with some honest tests is accepted with all.
pub fn refusals_are_sharp()
    ensures one { (alphabet : Alphabet) (xs : List Root) (i j : ℕ) (c d : Cause) → IsRefusal alphabet xs i c → IsRefusal alphabet xs j d → (i ≡ j) × (c ≡ d) }
    ensures not_built { (alphabet : Alphabet) (xs : List Root) (i : ℕ) (c : Cause) → IsRefusal alphabet xs i c → ¬ AreBuildable alphabet xs }
    ensures any_tests { (alphabet : Alphabet) (xs : List Root) (k : AllRootMarks xs) → AreBuildable alphabet xs → AreRootsHonest xs k → (x : Site) → In x (all_sites xs k) → IsAccepted alphabet x }
{}

/// Where some keys are one of each key class of an alphabet, the number of classes is the number of these keys.
pub fn classes_are_counted()
    ensures { (alphabet : Alphabet) (sets : List (List Range)) (keys : List ℤ) → AreOneOfEach alphabet sets keys → class_count alphabet sets ≡ length keys }
{}
