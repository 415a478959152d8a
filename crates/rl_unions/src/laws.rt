// Laws over the definitions.
ghost use Rattle.std.specs.Prelude.{◌≡◌, ◌++◌, ◌∷◌, ℕ, List, Option, false};
ghost use Rattle.rl_types.specs.declared.numbers.Letter.{Letter};
ghost use Rattle.rl_automata.specs.Auto.{both_jams};
ghost use Rattle.rl_automata.specs.Nodes as N;
ghost use Rattle.rl_automata.specs.Nodes.{Node, Conf};
ghost use Rattle.rl_automata.specs.Marks.{Marks, auto};
ghost use Rattle.rl_automata.specs.Refused.{HasMore};
ghost use Rattle.rl_unions.specs.Unions.{HasNoPriors, HaveNoPriors, union_of, MeansAs};

/// Where no embedding puts on a priority, the union of two unions of many expressions means what the union of all of them
/// means, each joined to all before it.
pub fn grouping_does_not_matter()
    ensures { (t : Node) (us : List Node) (v : Node) (vs : List Node) → HaveNoPriors (t ∷ us) → HaveNoPriors (v ∷ vs) → MeansAs (N.Union (union_of t us) (union_of v vs)) (union_of t (us ++ v ∷ vs)) }
{}

/// Without priorities a union reaches at least as many configurations as its first operand, and nowhere a cycle of
/// priorities.
pub fn unions_grow()
    ensures more { (a b : Node) (k : Marks a) (h : Marks b) (n : ℕ) → HasNoPriors a → HasNoPriors b → HasMore (auto a k) n → HasMore (auto (N.Union a b) (k, h)) n }
    ensures cycles { (a b : Node) (k : Marks a) (h : Marks b) → HasNoPriors a → HasNoPriors b → (c : Option (Conf a) × Option (Conf b)) (l : Letter) → both_jams (auto a k) (auto b h) c l ≡ false }
{}
