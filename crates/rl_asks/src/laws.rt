// Laws over the definitions.
ghost use Rattle.std.specs.Prelude.{ℕ, List};
ghost use Rattle.rl_types.specs.declared.alphabet.Alphabet.{Alphabet};
ghost use Rattle.rl_sets.specs.Sets.{In};
ghost use Rattle.rl_automata.specs.Auto.{union_auto, cat_auto, star_auto, both_jams, cat_jams, star_jams};
ghost use Rattle.rl_automata.specs.Follows.{Follows};
ghost use Rattle.rl_automata.specs.Nodes.{Node};
ghost use Rattle.rl_automata.specs.Marks.{Marks, auto};
ghost use Rattle.rl_automata.specs.Scans.{Pattern, PatternMarks, scan_raw, scan_jams};
ghost use Rattle.rl_automata.specs.Sites.{Site, sites};
ghost use Rattle.rl_automata.specs.Refused.{IsAccepted};
ghost use Rattle.rl_asks.specs.Asks.{AsksWhereItSteps, AsksTheSameQuiet, plain_auto, HasNoCycles, CycleHidesCondition};

/// Each automaton asks nothing where it can't step. For a union, a concatenation, a repetition and a scanner this is so
/// by their definition, yet it takes nothing away: at a configuration and a key at which no truths make the candidates
/// a cycle of priorities, exactly what the parts ask together is asked. With a cycle the node is refused.
pub fn operators_ask_their_parts()
    ensures expressions { (t : Node) (k : Marks t) → AsksWhereItSteps (auto t k) }
    ensures union { (a b : Node) (k : Marks a) (h : Marks b) → AsksTheSameQuiet (union_auto (auto a k) (auto b h)) (both_jams (auto a k) (auto b h)) }
    ensures concatenation { (a b : Node) (k : Marks a) (h : Marks b) → AsksTheSameQuiet (cat_auto (auto a k) (auto b h)) (cat_jams (auto a k) (auto b h)) }
    ensures repetition { (a : Node) (k : Marks a) (base : ℕ) → AsksTheSameQuiet (star_auto (auto a k) base) (star_jams (auto a k) base) }
    ensures scanners { (ps : List Pattern) (k : PatternMarks ps) → AsksTheSameQuiet (scan_raw ps k) (scan_jams ps k) }
{}

/// So an expression at none of whose nodes a cycle of priorities is reached means the same whether its unions,
/// concatenations and repetitions ask nothing where they can't step, or ask all that their parts ask everywhere; an
/// expression none of whose nodes is refused is such. A cycle can hide a condition.
pub fn accepted_expressions_ask_all()
    ensures no_cycles { (t : Node) (k : Marks t) → HasNoCycles t k → Follows (auto t k) (plain_auto t k) (λ c. c) }
    ensures accepted { (alphabet : Alphabet) (t : Node) (k : Marks t) → ((x : Site) → In x (sites t k) → IsAccepted alphabet x) → HasNoCycles t k }
    ensures cycle { CycleHidesCondition }
{}
