// The expression of an entry, or the patterns of a scanner.
ghost use Rattle.std.specs.Prelude.{◌≡◌, ◌+◌, ◌++◌, ◌∷◌, [], map, IfOk, OnOk};
ghost use Rattle.std.specs.Option.{option_map};
ghost use Rattle.rl_types.specs.declared.numbers.ActionId.{ActionId};
ghost use Rattle.rl_automata.specs.Nodes.{node_of};
ghost use Rattle.rl_model.specs.Specification.{pattern_of};
ghost use Rattle.rl_model.specs.WellFormed as formed;
ghost use Rattle.rl_rewrite.specs.Plain.{followed, patterns_followed, value_behind, pattern_plain, plains};
ghost use Rattle.rl_rewrite.specs.Plain as p;
ghost use Rattle.rl_rewrite.specs.Walk as w;
ghost use Rattle.rl_rewrite.specs.Entries.{places_of_patterns};
ghost use Rattle.rl_rewrite.specs.Sizes.{nodes, pattern_nodes, value_nodes};
ghost use Rattle.rl_rewrite.specs.Steps.{placed_of, patterns_of, root_placed, made_places, pattern_places, pattern_added, pattern_on, patterns_on, AreFew, HasRoom, MayStamp};

use crate::counts::Counts;
use crate::placed::Placed;
use crate::walk::walk;
use rl_draft::{Definition, Value};
use rl_model::{Pattern, Root};
use rl_types::{Alphabet, List, Place};
use std::alloc::{AllocError, Global};

/// The patterns of a scanner, and the place of each node of theirs: pattern after pattern, each in post-order.
#[derive(Drop)]
pub struct Patterns {
    pub patterns: List<Pattern>,
    pub places: List<Place>,
}

/// The root of an entry, and the place of each of its nodes in post-order.
#[derive(Drop)]
pub struct Rooted {
    pub root: Root,
    pub places: List<Place>,
}

// A pattern behind those that are made.
fn added(
    made: Patterns,
    pattern: &rl_draft::Pattern,
    placed: Placed,
) -> Result<Patterns, AllocError>
    ensures patterns { IfOk result (λ r. (map pattern_of r.patterns ≡ map pattern_of made.patterns ++ record { tree = node_of placed.tree; token = option_map (λ (a : ActionId). a.0) pattern.now.token } ∷ []) × (r.places ≡ made.places ++ placed.places)) }
    ensures places { IfOk result (λ r. made_places r ≡ made_places made ++ pattern.now.place ∷ []) }
{
    let Patterns {
        mut patterns,
        mut places,
    } = made;
    let Placed { tree, places: more } = placed;
    patterns.push(Pattern {
        tree,
        token: pattern.token,
        place: pattern.place,
    })?;
    places.append(more)?;
    Ok(Patterns { patterns, places })
}

// One pattern more, which is walked behind those that are made.
fn walk_pattern(
    alloc: Global,
    alphabet: Alphabet,
    earlier: &[Definition],
    made: Patterns,
    pattern: &rl_draft::Pattern,
    counts: &mut Counts,
) -> Result<Patterns, AllocError>
    requires room { HasRoom counts.old (nodes (followed alphabet earlier.now pattern.now.expression)) }
    ensures patterns { IfOk result (λ r. (patterns_of r, counts.new) ≡ pattern_on (patterns_of made) (pattern_plain alphabet (plains alphabet earlier.now) pattern.now) counts.old) }
    ensures places { IfOk result (λ r. made_places r ≡ made_places made ++ pattern.now.place ∷ []) }
    ensures stamp { OnOk result (MayStamp (nodes (followed alphabet earlier.now pattern.now.expression)) counts.old counts.new) }
    ensures few { OnOk result (AreFew counts.new) }
{
    let placed = walk(alloc, alphabet, earlier, &pattern.expression, counts)?;
    added(made, pattern, placed)
}

// Patterns behind those that are made.
fn walk_patterns(
    alloc: Global,
    alphabet: Alphabet,
    earlier: &[Definition],
    patterns: &[rl_draft::Pattern],
    counts: &mut Counts,
) -> Result<Patterns, AllocError>
    requires room { HasRoom counts.old (pattern_nodes (patterns_followed alphabet earlier.now patterns.now)) }
    ensures patterns { IfOk result (λ r. (patterns_of r, counts.new) ≡ patterns_on w.no_patterns (patterns_followed alphabet earlier.now patterns.now) counts.old) }
    ensures places { IfOk result (λ r. made_places r ≡ pattern_places patterns.now) }
{
    let mut made = Patterns {
        patterns: List::new(alloc),
        places: List::new(alloc),
    };
    for pattern in patterns {
        made = walk_pattern(alloc, alphabet, earlier, made, pattern, counts)?;
    }
    Ok(made)
}

// A scanner, which is a node behind those of its patterns.
fn walk_scanner(
    alloc: Global,
    alphabet: Alphabet,
    earlier: &[Definition],
    patterns: &[rl_draft::Pattern],
    at: Place,
    counts: &mut Counts,
) -> Result<Rooted, AllocError>
    requires room { HasRoom counts.old (pattern_nodes (patterns_followed alphabet earlier.now patterns.now) + 1) }
    ensures root { IfOk result (λ r. (root_placed r, counts.new) ≡ w.walk_value (p.Scanner (patterns_followed alphabet earlier.now patterns.now) at) counts.old) }
    ensures places { IfOk result (λ r. formed.pattern_places r.root ≡ places_of_patterns (p.Scanner (patterns_followed alphabet earlier.now patterns.now) at)) }
{
    let made = walk_patterns(alloc, alphabet, earlier, patterns, counts)?;
    let Patterns {
        patterns,
        mut places,
    } = made;
    places.push(at)?;
    Ok(Rooted {
        root: Root::Scanner(patterns),
        places,
    })
}

// The root of an entry.
pub fn walk_root(
    alloc: Global,
    alphabet: Alphabet,
    earlier: &[Definition],
    value: &Value,
    counts: &mut Counts,
) -> Result<Rooted, AllocError>
    requires room { HasRoom counts.old (value_nodes (value_behind alphabet earlier.now value.now)) }
    ensures root { IfOk result (λ r. (root_placed r, counts.new) ≡ w.walk_value (value_behind alphabet earlier.now value.now) counts.old) }
    ensures places { IfOk result (λ r. formed.pattern_places r.root ≡ places_of_patterns (value_behind alphabet earlier.now value.now)) }
{
    match value {
        Value::Expression(e) => {
            let x = walk(alloc, alphabet, earlier, e, counts)?;
            let Placed { tree, places } = x;
            Ok(Rooted {
                root: Root::Plain(tree),
                places,
            })
        }
        Value::Scanner(patterns, at) => walk_scanner(
            alloc,
            alphabet,
            earlier,
            patterns.as_slice(),
            *at,
            counts,
        ),
    }
}
