// An input in blocks.
use rl_blocks::{InputFault, next_block};
use rl_io::MemSource;
use std::test::Fail;

#[test]
fn gives_block_after_block(rt: HostRuntime) -> Result<(), Fail> {
    let alloc = rt.alloc();
    let mut input = MemSource::new(b"abc".to_vec(alloc)?, 2, vec![in alloc; 2]?);
    let mut block = [0u8; 4];
    assert_eq!(rt; next_block(&mut input, &mut block, 0), Ok(2));
    assert_eq!(rt;
        next_block(&mut input, &mut block, 2),
        Err(InputFault::Failed)
    );
    assert_eq!(rt; next_block(&mut input, &mut block, 2), Ok(1));
    assert_eq!(rt; next_block(&mut input, &mut block, 3), Ok(0));
    Ok(())
}

#[test]
fn refuses_a_byte_too_many(rt: HostRuntime) -> Result<(), Fail> {
    let alloc = rt.alloc();
    let mut input = MemSource::new(b"ab".to_vec(alloc)?, 1, Vec::new(alloc));
    let mut block = [0u8; 4];
    assert_eq!(rt;
        next_block(&mut input, &mut block, 1_099_511_627_775),
        Ok(1)
    );
    assert_eq!(rt;
        next_block(&mut input, &mut block, 1_099_511_627_776),
        Err(InputFault::TooLong)
    );
    Ok(())
}
