// Two pieces go through a window with room for four bytes.
ghost use Rattle.rl_window.specs.WindowValue.{IsWidth};

use rl_types::Memory;
use rl_window::Window;
use std::alloc::Global;
use std::test::Fail;

/// How many bytes of `abc` and of `defg` went in, and what a window holds behind each.
fn went_in(alloc: Global, width: u32) -> Result<(Window, usize, usize), Memory>
    requires { IsWidth width }
{
    let mut window = Window::new(alloc, 4, width)?;
    let first = window.push(b"abc");
    window.drop_to(2);
    let second = window.push(b"defg");
    Ok((window, first, second))
}

#[test]
fn takes_what_fits(rt: HostRuntime) -> Result<(), Fail> {
    let Ok((mut window, first, second)) = went_in(rt.alloc(), 1) else {
        return Err("no memory")?;
    };
    assert_eq!(rt; first, 3);
    assert_eq!(rt; second, 3);
    assert_eq!(rt; window.base(), 2);
    assert!(rt; window.bytes() == b"cdef".as_slice());
    window.drop_to(9);
    assert_eq!(rt; window.base(), 6);
    assert!(rt; window.bytes().is_empty());
    Ok(())
}

#[test]
fn drops_whole_characters(rt: HostRuntime) -> Result<(), Fail> {
    let Ok((window, first, second)) = went_in(rt.alloc(), 2) else {
        return Err("no memory")?;
    };
    assert_eq!(rt; first, 3);
    assert_eq!(rt; second, 3);
    assert_eq!(rt; window.base(), 1);
    assert!(rt; window.bytes() == b"cdef".as_slice());
    Ok(())
}
