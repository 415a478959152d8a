//! Laws of the operators. Each function does nothing: its contract is the law, which is proved.
ghost use Rattle.rl_ops.specs.Causes.{UnionCauses, AndCauses, MinusCauses, CatCauses, StarCauses};

/// Where the operands' machines stand for expressions, a fault of an operator has its cause exactly where the node of
/// these expressions has it, before steps are left out.
pub fn causes_are_the_nodes()
    ensures union { UnionCauses }
    ensures intersection { AndCauses }
    ensures difference { MinusCauses }
    ensures concatenation { CatCauses }
    ensures repetition { StarCauses }
{}
