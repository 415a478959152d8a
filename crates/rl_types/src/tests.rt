use crate::{Alphabet, Code, Key, KeyRange, Name, Status, Text};
use std::test::Fail;

#[test]
fn bytes_have_keys(rt: HostRuntime) {
    for (byte, signed, unsigned) in [(0, 0, 0), (127, 127, 127), (128, -128, 128), (255, -1, 255)] {
        assert_eq!(rt; Alphabet::Char.key_of(byte), Key(signed));
        assert_eq!(rt; Alphabet::UnsignedChar.key_of(byte), Key(unsigned));
        assert_eq!(rt; Alphabet::Short.key_of(byte), Key(unsigned));
    }
}

#[test]
fn characters_have_keys(rt: HostRuntime) {
    let bytes = b"a\x01\xff\xff\xff".as_slice();
    assert_eq!(rt; Alphabet::Short.key_at(bytes, 0), Some(Key(353)));
    assert_eq!(rt; Alphabet::Short.key_at(bytes, 2), Some(Key(-1)));
    assert_eq!(rt; Alphabet::UnsignedShort.key_at(bytes, 3), Some(Key(65_535)));
    assert_eq!(rt; Alphabet::UnsignedShort.key_at(bytes, 4), None);
    assert_eq!(rt; Alphabet::Int.key_at(bytes, 1), Some(Key(-255)));
    assert_eq!(rt;
        Alphabet::UnsignedInt.key_at(bytes, 1),
        Some(Key(4_294_967_041))
    );
    assert_eq!(rt; Alphabet::UnsignedInt.key_at(bytes, 2), None);
}

#[test]
fn ranges_have_ends(rt: HostRuntime) -> Result<(), Fail> {
    let range = KeyRange::new(-1, 3).ok_or("a range")?;
    assert_eq!(rt; range.lo(), -1);
    assert_eq!(rt; range.hi(), 3);
    assert!(rt; KeyRange::new(1, 1).is_some());
    assert!(rt; KeyRange::new(1, 0).is_none());
    Ok(())
}

#[test]
fn texts_give_their_bytes(rt: HostRuntime) -> Result<(), Fail> {
    let alloc = rt.alloc();
    let name = Name::new(b"main".to_vec(alloc)?);
    assert!(rt; name.bytes() == b"main".as_slice());
    let code = Code::new(b"{ }".to_vec(alloc)?);
    assert!(rt; code.bytes() == b"{ }".as_slice());
    let text = Text::new(String::from_str(alloc, "one.rl")?);
    assert!(rt; text.as_str() == "one.rl");
    Ok(())
}

#[test]
fn statuses_have_numbers(rt: HostRuntime) {
    assert_eq!(rt; Status::Done.code(), 0);
    assert_eq!(rt; Status::Outside.code(), 4);
    assert_eq!(rt; Status::Script.code(), 7);
}
