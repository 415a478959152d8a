// Laws of what tokens say.
ghost use Rattle.std.specs.Prelude.{◌≡◌, ◌&&◌, ◌∷◌, [], false, ℕ, ℤ, Bool, List, map};
ghost use Rattle.rl_types.specs.declared.alphabet.Alphabet.{Alphabet};
ghost use Rattle.rl_types.specs.Alphabet.{has_key};
ghost use Rattle.rl_grammar.specs.Literals as literal;
ghost use Rattle.rl_leaves.specs.declared.text.Character.{Character};
ghost use Rattle.rl_leaves.specs.declared.character_set.CharacterSet.{CharacterSet};
ghost use Rattle.rl_leaves.specs.Texts.{characters};
ghost use Rattle.rl_leaves.specs.CharacterSets.{span_at, behind_span, spans, is_named, has};
ghost use Rattle.rl_leaves.specs.Ranges.{in_ranges, set_ranges, character_ranges};
ghost use Rattle.rl_leaves.specs.RegularExpressions.{item_at, behind_item, regular_items};

/// The ranges of a set have exactly those keys of the alphabet that the set has.
pub fn sets_have_their_keys()
    ensures { (alphabet : Alphabet) (folds : Bool) (set : CharacterSet) (key : ℤ) → in_ranges key (set_ranges alphabet folds set) ≡ (has_key alphabet key && has alphabet folds set key) }
{}

/// The ranges of a character have exactly the keys that this character names in a set.
pub fn characters_have_their_keys()
    ensures { (alphabet : Alphabet) (folds : Bool) (byte : ℕ) (key : ℤ) → in_ranges key (character_ranges alphabet folds byte) ≡ is_named alphabet folds (record { lower = byte; upper = byte } ∷ []) key }
{}

/// The characters of a text stand for the bytes that the grammar reads in it.
pub fn characters_stand_for_bytes()
    ensures { (bytes : List ℕ) → map (λ (c : Character). c.byte) (characters false bytes) ≡ literal.characters false bytes }
{}

/// A set names its first range or character, and then what stands behind it.
pub fn sets_are_read_in_order()
    ensures { (first : Character) (behind : List Character) → spans (first ∷ behind) ≡ span_at first behind ∷ spans (behind_span behind) }
{}

/// A regular expression names its first item, and then what stands behind it.
pub fn items_are_read_in_order()
    ensures { (first : Character) (behind : List Character) → regular_items (first ∷ behind) ≡ item_at first behind ∷ regular_items (behind_item first behind) }
{}
