use rl_leaves::{
    BuiltIn, Item, KeyFault, Leaf, LeafFault, built_in_leaf, built_in_named, character_key, count,
    is_built_in, key_leaf, literal_leaf, range_leaf, regular_leaf, set_leaf, signed,
};
use rl_types::{Alphabet, FaultKind, Key, KeyRange, Memory};

const CHAR: Alphabet = Alphabet::Char;

const UNSIGNED: Alphabet = Alphabet::UnsignedChar;

/// Whether ranges have these ends.
fn have_ends(ranges: &[KeyRange], ends: &[(i64, i64)]) -> bool {
    ranges.len() == ends.len()
        && ranges
            .iter()
            .zip(ends)
            .all(|(r, e)| r.lo() == e.0 && r.hi() == e.1)
}

/// Whether a leaf is a set of these ranges.
fn is_set(leaf: &Leaf, ends: &[(i64, i64)]) -> bool {
    match leaf {
        Leaf::Set(ranges) => have_ends(ranges.as_slice(), ends),
        _ => false,
    }
}

/// Whether a token gives a set of these ranges.
fn gives_set(found: Result<Leaf, LeafFault>, ends: &[(i64, i64)]) -> bool {
    match found {
        Ok(leaf) => is_set(&leaf, ends),
        Err(_) => false,
    }
}

/// Whether a call that wants memory gives a set of these ranges.
fn makes_set(found: Result<Leaf, Memory>, ends: &[(i64, i64)]) -> bool {
    match found {
        Ok(leaf) => is_set(&leaf, ends),
        Err(_) => false,
    }
}

/// Whether a token has this fault.
fn is_refused(found: Result<Leaf, LeafFault>, fault: KeyFault) -> bool {
    match found {
        Err(LeafFault::Keys(it)) => it == fault,
        _ => false,
    }
}

fn is_null(found: Result<Leaf, LeafFault>) -> bool {
    matches!(found, Ok(Leaf::Null))
}

/// Whether an item has these ranges.
fn has_item(items: &[Item], at: usize, ends: &[(i64, i64)], starred: bool) -> bool {
    match items.get(at) {
        Some(
            Item {
                ranges: Some(ranges),
                starred: is_starred,
            },
        ) => *is_starred == starred && have_ends(ranges.as_slice(), ends),
        _ => false,
    }
}

#[test]
fn sets_have_keys(rt: HostRuntime) {
    let alloc = rt.alloc();
    assert!(rt; gives_set(set_leaf(alloc, CHAR, b"[a-c]"), &[(97, 99)]));
    assert!(rt; gives_set(set_leaf(alloc, CHAR, b"[cab]"), &[(97, 99)]));
    assert!(rt; gives_set(set_leaf(alloc, CHAR, b"[^a]"), &[(-128, 96), (98, 127)]));
    assert!(rt; gives_set(set_leaf(alloc, UNSIGNED, b"[^a]"), &[(0, 96), (98, 255)]));
    assert!(rt;
        gives_set(
            set_leaf(alloc, Alphabet::Short, b"[^a]"),
            &[(-32_768, 96), (98, 32_767)]
        )
    );
    assert!(rt; gives_set(set_leaf(alloc, CHAR, b"[^]"), &[(-128, 127)]));
    assert!(rt;
        gives_set(
            set_leaf(alloc, CHAR, b"[\\n\\]\\-]"),
            &[(10, 10), (45, 45), (93, 93)]
        )
    );
    assert!(rt;
        gives_set(
            set_leaf(alloc, CHAR, b"[\\\n^a-\\\nc]"),
            &[(-128, 96), (100, 127)]
        )
    );
    assert!(rt; is_null(set_leaf(alloc, CHAR, b"[]")));
}

#[test]
fn ranges_of_sets_ascend_by_key(rt: HostRuntime) {
    let alloc = rt.alloc();
    assert!(rt; is_refused(set_leaf(alloc, CHAR, b"[c-a]"), KeyFault::Reversed));
    assert!(rt; is_refused(set_leaf(alloc, CHAR, b"[^xc-a]"), KeyFault::Reversed));
    assert!(rt; is_refused(set_leaf(alloc, CHAR, b"[a-\xff]"), KeyFault::Reversed));
    assert!(rt; gives_set(set_leaf(alloc, UNSIGNED, b"[a-\xff]"), &[(97, 255)]));
    assert!(rt; KeyFault::Reversed.kind() == FaultKind::F9);
}

#[test]
fn literals_have_characters(rt: HostRuntime) {
    let alloc = rt.alloc();
    assert!(rt; makes_set(literal_leaf(alloc, CHAR, b"'\\n'"), &[(10, 10)]));
    assert!(rt; makes_set(literal_leaf(alloc, CHAR, b"\"\xff\""), &[(-1, -1)]));
    assert!(rt; makes_set(literal_leaf(alloc, CHAR, b"'a'i"), &[(65, 65), (97, 97)]));
    assert!(rt; makes_set(literal_leaf(alloc, CHAR, b"'Z'i"), &[(90, 90), (122, 122)]));
    assert!(rt; makes_set(literal_leaf(alloc, CHAR, b"'i'"), &[(105, 105)]));
    assert!(rt; matches!(literal_leaf(alloc, CHAR, b"''i"), Ok(Leaf::Null)));
    assert!(rt; matches!(literal_leaf(alloc, CHAR, b"'\\\n'"), Ok(Leaf::Null)));
}

#[test]
fn literals_are_rows(rt: HostRuntime) {
    match literal_leaf(rt.alloc(), CHAR, b"'a\\\n\\'B'") {
        Ok(Leaf::Row(items)) => {
            let items = items.as_slice();
            assert_eq!(rt; items.len(), 3);
            assert!(rt; has_item(items, 0, &[(97, 97)], false));
            assert!(rt; has_item(items, 1, &[(39, 39)], false));
            assert!(rt; has_item(items, 2, &[(66, 66)], false));
        }
        _ => assert!(rt; false),
    }
}

#[test]
fn regular_expressions_are_rows(rt: HostRuntime) {
    match regular_leaf(rt.alloc(), CHAR, b"/a.[b-d]*\\*/i") {
        Ok(Leaf::Row(items)) => {
            let items = items.as_slice();
            assert_eq!(rt; items.len(), 4);
            assert!(rt; has_item(items, 0, &[(65, 65), (97, 97)], false));
            assert!(rt; has_item(items, 1, &[(-128, 127)], false));
            assert!(rt; has_item(items, 2, &[(66, 68), (98, 100)], true));
            assert!(rt; has_item(items, 3, &[(42, 42)], false));
        }
        _ => assert!(rt; false),
    }
}

#[test]
fn sets_in_regular_expressions(rt: HostRuntime) {
    let alloc = rt.alloc();
    assert!(rt; is_null(regular_leaf(alloc, CHAR, b"//")));
    assert!(rt; is_refused(regular_leaf(alloc, CHAR, b"/x[b-a]/"), KeyFault::Reversed));
    match regular_leaf(alloc, CHAR, b"/[^a][][/]*/i") {
        Ok(Leaf::Row(items)) => {
            let items = items.as_slice();
            assert_eq!(rt; items.len(), 3);
            assert!(rt; has_item(items, 0, &[(-128, 64), (66, 96), (98, 127)], false));
            assert!(rt;
                matches!(
                    items.get(1),
                    Some(Item {
                        ranges: None,
                        starred: false
                    })
                )
            );
            assert!(rt; has_item(items, 2, &[(47, 47)], true));
        }
        _ => assert!(rt; false),
    }
}

#[test]
fn numbers_are_keys(rt: HostRuntime) {
    let alloc = rt.alloc();
    assert!(rt; gives_set(key_leaf(alloc, CHAR, Key(-128)), &[(-128, -128)]));
    assert!(rt; is_refused(key_leaf(alloc, CHAR, Key(-129)), KeyFault::Outside));
    assert!(rt; is_refused(key_leaf(alloc, CHAR, Key(128)), KeyFault::Outside));
    assert!(rt; gives_set(key_leaf(alloc, UNSIGNED, Key(128)), &[(128, 128)]));
    assert!(rt;
        is_refused(
            key_leaf(alloc, Alphabet::Short, Key(32_768)),
            KeyFault::Outside
        )
    );
    assert!(rt; gives_set(range_leaf(alloc, CHAR, Key(-1), Key(9)), &[(-1, 9)]));
    assert!(rt; is_refused(range_leaf(alloc, CHAR, Key(9), Key(1)), KeyFault::Reversed));
    assert!(rt; is_refused(range_leaf(alloc, CHAR, Key(300), Key(1)), KeyFault::Outside));
    assert!(rt;
        is_refused(
            range_leaf(alloc, CHAR, Key(5), Key(300)),
            KeyFault::UpperOutside
        )
    );
    assert!(rt;
        is_refused(
            range_leaf(alloc, CHAR, Key(5), Key(-200)),
            KeyFault::Reversed
        )
    );
    assert!(rt; KeyFault::UpperOutside.kind() == FaultKind::F8);
}

#[test]
fn texts_are_numbers(rt: HostRuntime) {
    assert_eq!(rt; count(b"0x1F"), 31);
    assert_eq!(rt; count(b"0090"), 90);
    assert_eq!(rt; signed(true, b"129"), -129);
    assert_eq!(rt; signed(false, b"0"), 0);
    assert!(rt; matches!(character_key(rt.alloc(), CHAR, b"'\xfe'"), Ok(Key(-2))));
}

/// Whether the built-in machine of a name is a set of these ranges.
fn has_built_in(rt: &HostRuntime, name: &[u8], ends: &[(i64, i64)]) -> bool {
    match built_in_named(name) {
        None => false,
        Some(it) => makes_set(built_in_leaf(rt.alloc(), CHAR, it), ends),
    }
}

#[test]
fn names_are_built_in(rt: HostRuntime) {
    assert!(rt; has_built_in(&rt, b"print", &[(32, 126)]));
    assert!(rt; has_built_in(&rt, b"punct", &[(33, 47), (58, 64), (91, 96), (123, 126)]));
    assert!(rt; has_built_in(&rt, b"space", &[(9, 13), (32, 32)]));
    assert!(rt; has_built_in(&rt, b"any", &[(-128, 127)]));
    assert!(rt; is_built_in(b"cntrl"));
    assert!(rt; !is_built_in(b"anyy"));
    assert!(rt;
        matches!(
            built_in_leaf(rt.alloc(), UNSIGNED, BuiltIn::Zlen),
            Ok(Leaf::Null)
        )
    );
    assert!(rt;
        matches!(
            built_in_leaf(rt.alloc(), UNSIGNED, BuiltIn::Empty),
            Ok(Leaf::Nothing)
        )
    );
    assert!(rt;
        makes_set(
            built_in_leaf(rt.alloc(), UNSIGNED, BuiltIn::Extend),
            &[(0, 255)]
        )
    );
    assert!(rt;
        makes_set(
            built_in_leaf(rt.alloc(), Alphabet::Int, BuiltIn::Extend),
            &[(-128, 127)]
        )
    );
}
