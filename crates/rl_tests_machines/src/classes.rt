use rl_classes::Segments;
use rl_types::{Alphabet, Key, KeyRange, List};
use std::test::Fail;

#[test]
fn keys_of_the_same_sets_are_one_class(rt: HostRuntime) -> Result<(), Fail> {
    let alloc = rt.alloc();
    let any = KeyRange::new(-128, 127).ok_or("any")?;
    let a = KeyRange::new(97, 97).ok_or("a")?;
    let mut sets = Vec::new(alloc);
    sets.push(List::from_slice(alloc, &[any])?)?;
    sets.push(List::from_slice(alloc, &[a])?)?;
    let segments = Segments::of(alloc, &sets, Alphabet::Char)
        .ok()
        .ok_or("memory")?;
    assert_eq!(rt; segments.count(), 2);
    assert_eq!(rt; segments.class_of(Key(97)), Some(1));
    assert_eq!(rt; segments.class_of(Key(-128)), segments.class_of(Key(127)));
    assert!(rt; segments.class_of(Key(128)).is_none());
    assert_eq!(rt; segments.members(0).len(), 2);
    Ok(())
}

#[test]
fn no_sets_make_one_class(rt: HostRuntime) -> Result<(), Fail> {
    let segments = Segments::of(rt.alloc(), &[], Alphabet::UnsignedChar)
        .ok()
        .ok_or("memory")?;
    assert_eq!(rt; segments.count(), 1);
    assert!(rt; segments.class_of(Key(-1)).is_none());
    Ok(())
}
