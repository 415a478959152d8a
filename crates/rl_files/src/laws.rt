// Laws of the reading of a file.
ghost use Rattle.std.specs.Prelude.{◌≡◌, ℕ, List};
ghost use Rattle.rl_grammar.specs.declared.read_fault.ReadFault.{ReadFault};
ghost use Rattle.rl_grammar.specs.declared.syntax.Syntax.{Syntax};
ghost use Rattle.rl_files.specs.Files.{ReadsAs, IsRefusal};

/// A text reads as one list of trees at most.
pub fn files_read_once()
    ensures { (number : ℕ) (text : List ℕ) (a b : List Syntax) → ReadsAs number text a → ReadsAs number text b → a ≡ b }
{}

/// A text has one first refusal, and none where it reads as trees.
pub fn refusals_are_sharp()
    ensures once { (number : ℕ) (text : List ℕ) (a b : ReadFault) → IsRefusal number text a → IsRefusal number text b → a ≡ b }
    ensures apart { (number : ℕ) (text : List ℕ) (trees : List Syntax) (e : ReadFault) → ReadsAs number text trees → IsRefusal number text e → ⊥ }
{}
