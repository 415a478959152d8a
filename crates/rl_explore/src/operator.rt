// What an operator makes of its operands.
ghost use Rattle.std.specs.Prelude.{◌≡◌, ◌↔◌, Bool, IfOk, IsTrue};
ghost use Rattle.rl_automata.specs.Auto.{Auto};
ghost use Rattle.rl_automata.specs.declared.tree.Kind.{Kind};
ghost use Rattle.rl_types.specs.declared.numbers.Letter.{Letter};
ghost use Rattle.rl_fsm.specs.Graphs.{marks_of};
ghost use Rattle.rl_explore.specs.Ranges.{AreRanges};
ghost use Rattle.rl_explore.specs.Steps.{move_in, is_cycle};

use rl_automata::Move;
use rl_fsm::Marks;
use rl_labels::{Carry, Truths};
use rl_types::{KeyRange, Letter, Memory};
use std::alloc::Global;
use std::hash::Hash;

/// What a configuration does on a letter.
#[derive(Drop)]
pub enum Step<S> {
    /// There is no candidate for a step.
    Stay,
    /// There are candidates, and each of them is beaten: a cycle of priorities.
    Cycle,
    /// The candidates that no other one beats make this step.
    Go(Move<S>),
}

/// What an operator makes of its operands, one configuration at a time. Each call tells what its automaton tells; an
/// `Err` is want of memory.
pub trait Operator {
    /// How far each operand is.
    type Conf: Eq + Hash + Drop;

    // The automaton, and whether the candidates for a step are a cycle of priorities.
    ghost auto: { Self → Auto Self.Conf };

    ghost jams: { Self → Self.Conf → Letter → Bool };

    /// The configuration that it begins with.
    fn start(&self, alloc: Global) -> Result<Self::Conf, Memory>
        ensures { IfOk result (λ c. c ≡ (auto self.now).start) };

    /// Ranges such that the configuration does the same at keys that lie in the same of them, and nothing at other keys.
    fn ranges(&self, alloc: Global, c: &Self::Conf) -> Result<Vec<KeyRange>, Memory>
        ensures { IfOk result (λ v. AreRanges (auto self.now) (jams self.now) c.now v.items) };

    /// The conditions that it asks at the letter's key.
    fn asked(&self, c: &Self::Conf, at: Letter) -> Truths
        ensures { result.0 ≡ (auto self.now).asked c.now at.key };

    /// What it does on the letter.
    fn step(
        &self,
        alloc: Global,
        c: &Self::Conf,
        letter: Letter,
    ) -> Result<Step<Self::Conf>, Memory>
        ensures { IfOk result (λ s. (move_in s ≡ (auto self.now).step c.now letter) × (is_cycle s ≡ jams self.now c.now letter)) };

    /// Whether it is final.
    fn is_final(&self, c: &Self::Conf) -> bool
        ensures { result ≡ (auto self.now).final c.now };

    /// What it puts on the steps that leave it.
    fn out(&self, alloc: Global, c: &Self::Conf) -> Result<Carry, Memory>
        ensures { IfOk result (λ o. o ≡ (auto self.now).out c.now) };

    /// The actions that stay with it.
    fn marks(&self, alloc: Global, c: &Self::Conf) -> Result<Marks, Memory>
        ensures { IfOk result (λ m. (k : Kind) → marks_of k m ≡ (auto self.now).marks c.now k) };

    // Configurations that compare equal are the same.
    ghost same: { (c d : Self.Conf) → IsTrue (Self.Conf.eq c d) ↔ (c ≡ d) };
}
