// Laws of tree machines.
ghost use Rattle.std.specs.Prelude.{ℕ, length};
ghost use Rattle.rl_run.specs.Twin.{IsTwin};
ghost use Rattle.rl_run.specs.Alike.{MakeSameRuns};
ghost use Rattle.rl_run.specs.Classes.{AreReached};
ghost use Rattle.rl_model.specs.declared.spec.Spec.{Spec};
ghost use Rattle.rl_model.specs.Specification.{Specification, specification_of};
ghost use Rattle.rl_model.specs.WellFormed.{IsWellFormed};
ghost use Rattle.rl_model.specs.ListRules.{KeepsRules};
ghost use Rattle.rl_model.specs.Parts.{Part, PartFollows, IsReached, StandsAt, machine};
ghost use Rattle.rl_model.specs.Trees.{ConfAt, TestsOf, AreTestsHonest, part_of, context_of, tree_machine};

/// A machine of numbered states whose entries follow those of a tree machine is its twin: a number stands for the
/// configuration that is its name. So the two make the same runs.
pub fn followers_run_as_trees()
    ensures twins { (spec : Specification) (tests : TestsOf spec) (part : ℕ → Part ℕ) (name : (e : ℕ) → ℕ → ConfAt spec e) →
        ((e : ℕ) → PartFollows (part e) (part_of spec tests e) (name e)) →
        IsTwin (tree_machine spec tests) (machine (λ e. ℕ) part (length spec.entries) (context_of spec)) (λ a. a)
        (StandsAt (ConfAt spec) (λ e. ℕ) part name) }
    ensures runs { (spec : Specification) (tests : TestsOf spec) (part : ℕ → Part ℕ) (name : (e : ℕ) → ℕ → ConfAt spec e) →
        ((e : ℕ) → PartFollows (part e) (part_of spec tests e) (name e)) →
        MakeSameRuns (tree_machine spec tests) (machine (λ e. ℕ) part (length spec.entries) (context_of spec)) (λ a. a)
        (StandsAt (ConfAt spec) (λ e. ℕ) part name) }
{}

/// The states that runs of a tree machine reach are closed under steps; a step keeps the home, and a home is its own
/// home.
pub fn trees_keep_their_homes()
    ensures { (spec : Specification) (tests : TestsOf spec) → AreReached (tree_machine spec tests) (IsReached (ConfAt spec) (part_of spec tests)) }
{}

/// Which honest tests a tree machine has does not matter: those of one specification are twins, state for state, and
/// make the same runs.
pub fn honest_tests_agree()
    ensures twins { (spec : Specification) (tests others : TestsOf spec) → AreTestsHonest spec tests → AreTestsHonest spec others →
        IsTwin (tree_machine spec tests) (tree_machine spec others) (λ a. a)
        (StandsAt (ConfAt spec) (ConfAt spec) (part_of spec others) (λ e c. c)) }
    ensures runs { (spec : Specification) (tests others : TestsOf spec) → AreTestsHonest spec tests → AreTestsHonest spec others →
        MakeSameRuns (tree_machine spec tests) (tree_machine spec others) (λ a. a)
        (StandsAt (ConfAt spec) (ConfAt spec) (part_of spec others) (λ e c. c)) }
{}

/// The tree machine of a well-formed Spec keeps the rules that its tables keep: kinds go along with steps and homes;
/// to-state and from-state actions, and those of steps in a scanner, have no control statements; lists have only numbers
/// of the Spec's actions; only its conditions are asked, and only keys of its alphabet have steps.
pub fn well_formed_trees_keep_rules()
    ensures { (spec : Spec) (tests : TestsOf (specification_of spec)) → IsWellFormed spec →
        KeepsRules (specification_of spec) (tree_machine (specification_of spec) tests) }
{}
