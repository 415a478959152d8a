ghost use Rattle.std.specs.Prelude.{◌≤◌, length};

use rl_lex::{Part, ReadFault, TokenKind, split, tokens};
use rl_types::{Fault, FaultKind, List};
use std::alloc::Global;
use std::test::Fail;

/// The kinds of the tokens of all blocks of a text.
fn kinds_of(alloc: Global, text: &[u8]) -> Result<List<TokenKind>, ReadFault>
    requires { length text.now ≤ 4194304 }
{
    let mut kinds = List::new(alloc);
    let parts = split(alloc, text, 0)?;
    for part in parts.as_slice() {
        if let Part::Block(block) = part {
            let found = tokens(alloc, block)?;
            for token in found.as_slice() {
                kinds.push(token.kind).map_err(|_| ReadFault::Memory)?;
            }
        }
    }
    Ok(kinds)
}

/// Whether this is the first fault of a text.
fn is_refused(alloc: Global, text: &[u8], kind: FaultKind, line: u32, col: u32) -> bool
    requires { length text.now ≤ 4194304 }
{
    match kinds_of(alloc, text) {
        Err(ReadFault::Fault(Fault { kind: found, place })) => {
            found == kind && place.line == line && place.col == col
        }
        _ => false,
    }
}

#[test]
fn unclosed_pieces(rt: HostRuntime) {
    let text = b"%%{ machine m; action a { ";
    assert!(rt; is_refused(rt.alloc(), text, FaultKind::F2, 1, 25));
    assert!(rt; is_refused(rt.alloc(), b"int x;\n  %%{ # }%%\n", FaultKind::F2, 2, 3));
    assert!(rt; is_refused(rt.alloc(), b"%% access x\n;", FaultKind::F2, 1, 4));
    assert!(rt; is_refused(rt.alloc(), b"%% a = 'b\n'\n;", FaultKind::F2, 1, 8));
}

#[test]
fn bad_bytes_and_numbers(rt: HostRuntime) {
    assert!(rt; is_refused(rt.alloc(), b"%%{ a = \\ ; }%%", FaultKind::F1, 1, 9));
    assert!(rt; is_refused(rt.alloc(), b"%% a = [a-] ;", FaultKind::F1, 1, 8));
    assert!(rt; is_refused(rt.alloc(), b"%% a = /b**/ ;", FaultKind::F1, 1, 8));
    assert!(rt; is_refused(rt.alloc(), b"%% 9223372036854775808", FaultKind::F7, 1, 4));
    assert!(rt; kinds_of(rt.alloc(), b"%% 0x7fffffffffffffff").is_ok());
}

#[test]
fn markers(rt: HostRuntime) {
    assert!(rt; is_refused(rt.alloc(), b"a\n /* rl-data 1 x */\n", FaultKind::F19, 2, 2));
    assert!(rt; is_refused(rt.alloc(), b"%%{ }%% /* rl-data ", FaultKind::F19, 1, 9));
    assert!(rt; is_refused(rt.alloc(), b"%%{ 'a\n/* rl-data ", FaultKind::F2, 1, 5));
}

#[test]
fn kinds_by_context(rt: HostRuntime) -> Result<(), Fail> {
    let kinds = kinds_of(rt.alloc(), b"%%{ a $to b $top *| {2} => {x} |* *| }%%")?;
    let expected = [
        TokenKind::Name,
        TokenKind::Mark,
        TokenKind::Name,
        TokenKind::Dollar,
        TokenKind::Name,
        TokenKind::Star,
        TokenKind::Bar,
        TokenKind::OpenBrace,
        TokenKind::Integer,
        TokenKind::CloseBrace,
        TokenKind::Arrow,
        TokenKind::Code,
        TokenKind::OpenScanner,
        TokenKind::CloseScanner,
        TokenKind::End,
    ];
    assert!(rt; kinds.as_slice() == expected.as_slice());
    Ok(())
}

#[test]
fn parts_in_order(rt: HostRuntime) -> Result<(), Fail> {
    let parts = split(rt.alloc(), b"int x;\n %%{ }%% tail\n%% write data;\n", 0)?;
    assert_eq!(rt; parts.len(), 4);
    match parts.as_slice() {
        [
            Part::Host(host),
            Part::Block(braced),
            Part::Host(tail),
            Part::Block(line),
        ] => {
            assert!(rt; host.as_slice() == b"int x;\n".as_slice());
            assert!(rt; braced.text() == b" %%{ }%%".as_slice());
            assert_eq!(rt; braced.from(), 7);
            assert!(rt; tail.as_slice() == b" tail\n".as_slice());
            assert!(rt; line.text() == b"%% write data;\n".as_slice());
        }
        _ => assert!(rt; false),
    }
    Ok(())
}
