use rl_fsm::Fsm;
use rl_scan::{BuildFault, scanner};
use rl_types::{ActionId, KeyRange};
use std::alloc::Global;
use std::test::Fail;

// The machine of one character with a key from `low` to `high`.
fn one_of(alloc: Global, low: i64, high: i64) -> Result<Fsm, Fail> {
    let range = KeyRange::new(low, high).ok_or("no range")?;
    let machine = Fsm::of_set(alloc, &[range])?;
    Ok(machine)
}

#[test]
fn the_first_listed_match_counts(rt: HostRuntime) -> Result<(), Fail> {
    let a = one_of(rt.alloc(), 97, 97)?;
    let letter = one_of(rt.alloc(), 97, 122)?;
    let patterns = vec![in rt.alloc(); a, letter]?;
    let tokens = [Some(ActionId(1)), None];
    let lexer = scanner(rt.alloc(), patterns, &tokens, 100)?;
    assert_eq!(rt; lexer.machine().states(), 3);
    assert!(rt; lexer.token(0).is_none());
    assert_eq!(rt; lexer.token(1), Some([ActionId(1)].as_slice()));
    Ok(())
}

#[test]
fn a_pattern_of_the_empty_word_is_refused(rt: HostRuntime) -> Result<(), Fail> {
    let a = one_of(rt.alloc(), 97, 97)?;
    let empty = Fsm::of_null(rt.alloc())?;
    let patterns = vec![in rt.alloc(); a, empty]?;
    let refused = scanner(rt.alloc(), patterns, &[None, None], 100).err();
    assert_eq!(rt; refused, Some(BuildFault::F12(1)));
    Ok(())
}
