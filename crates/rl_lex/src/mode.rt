// Pieces that end with a byte of their own.
ghost use Rattle.std.specs.Prelude.{◌≡◌, ◌+◌, ◌<◌, ◌≤◌, ◌^◌};
ghost use Rattle.rl_lexical.specs.Modes.{literal_step, set_step, regular_step, regular_set_step, code_step, code_slash_step, code_quote_step, line_comment_step, block_comment_step, block_star_step, mode_behind, is_read};
ghost use Rattle.rl_lex.specs.Pieces.{depth_of};

use rl_lexical::Mode;

fn behind_literal(close: u8, b: u8) -> Mode
    ensures value { result ≡ literal_step close b }
    ensures depth { depth_of result ≡ 0 }
{
    if b == close {
        Mode::Suffixable
    } else if b == b'\\' {
        Mode::LiteralEscape(close)
    } else {
        Mode::Literal(close)
    }
}

fn behind_set(b: u8) -> Mode
    ensures value { result ≡ set_step b }
    ensures depth { depth_of result ≡ 0 }
{
    match b {
        b']' => Mode::Complete,
        b'\\' => Mode::SetEscape,
        _ => Mode::Set,
    }
}

fn behind_regular(b: u8) -> Mode
    ensures value { result ≡ regular_step b }
    ensures depth { depth_of result ≡ 0 }
{
    match b {
        b'/' => Mode::Suffixable,
        b'\\' => Mode::RegularEscape,
        b'[' => Mode::RegularSet,
        _ => Mode::Regular,
    }
}

fn behind_regular_set(b: u8) -> Mode
    ensures value { result ≡ regular_set_step b }
    ensures depth { depth_of result ≡ 0 }
{
    match b {
        b']' => Mode::Regular,
        b'\\' => Mode::RegularSetEscape,
        _ => Mode::RegularSet,
    }
}

fn behind_code(depth: u64, b: u8) -> Mode
    requires { depth + 1 < 2 ^ 64 }
    ensures value { result ≡ code_step depth b }
    ensures depth { depth_of result ≤ depth + 1 }
{
    match b {
        b'{' => Mode::Code(depth + 1),
        b'}' => {
            if depth == 0 {
                Mode::Complete
            } else {
                Mode::Code(depth - 1)
            }
        }
        b'\'' | b'"' => Mode::CodeQuote(b, depth),
        b'/' => Mode::CodeSlash(depth),
        _ => Mode::Code(depth),
    }
}

fn behind_code_slash(depth: u64, b: u8) -> Mode
    requires { depth + 1 < 2 ^ 64 }
    ensures value { result ≡ code_slash_step depth b }
    ensures depth { depth_of result ≤ depth + 1 }
{
    match b {
        b'/' => Mode::LineComment(depth),
        b'*' => Mode::BlockComment(depth),
        _ => behind_code(depth, b),
    }
}

fn behind_code_quote(close: u8, depth: u64, b: u8) -> Mode
    ensures value { result ≡ code_quote_step close depth b }
    ensures depth { depth_of result ≡ depth }
{
    if b == close {
        Mode::Code(depth)
    } else if b == b'\\' {
        Mode::CodeEscape(close, depth)
    } else {
        Mode::CodeQuote(close, depth)
    }
}

fn behind_line_comment(depth: u64, b: u8) -> Mode
    ensures value { result ≡ line_comment_step depth b }
    ensures depth { depth_of result ≡ depth }
{
    if b == b'\n' {
        Mode::Code(depth)
    } else {
        Mode::LineComment(depth)
    }
}

fn behind_block_comment(depth: u64, b: u8) -> Mode
    ensures value { result ≡ block_comment_step depth b }
    ensures depth { depth_of result ≡ depth }
{
    if b == b'*' {
        Mode::BlockStar(depth)
    } else {
        Mode::BlockComment(depth)
    }
}

fn behind_block_star(depth: u64, b: u8) -> Mode
    ensures value { result ≡ block_star_step depth b }
    ensures depth { depth_of result ≡ depth }
{
    if b == b'/' {
        Mode::Code(depth)
    } else {
        behind_block_comment(depth, b)
    }
}

/// What one byte more makes of a mode.
pub fn mode_behind(mode: Mode, b: u8) -> Mode
    requires { depth_of mode + 1 < 2 ^ 64 }
    ensures value { result ≡ mode_behind mode b }
    ensures depth { depth_of result ≤ depth_of mode + 1 }
{
    match mode {
        Mode::Literal(close) => behind_literal(close, b),
        Mode::LiteralEscape(close) => Mode::Literal(close),
        Mode::Set => behind_set(b),
        Mode::SetEscape => Mode::Set,
        Mode::Regular => behind_regular(b),
        Mode::RegularEscape => Mode::Regular,
        Mode::RegularSet => behind_regular_set(b),
        Mode::RegularSetEscape => Mode::RegularSet,
        Mode::Code(depth) => behind_code(depth, b),
        Mode::CodeSlash(depth) => behind_code_slash(depth, b),
        Mode::CodeQuote(close, depth) => behind_code_quote(close, depth, b),
        Mode::CodeEscape(close, depth) => Mode::CodeQuote(close, depth),
        Mode::LineComment(depth) => behind_line_comment(depth, b),
        Mode::BlockComment(depth) => behind_block_comment(depth, b),
        Mode::BlockStar(depth) => behind_block_star(depth, b),
        Mode::Suffixable if b == b'i' => Mode::Complete,
        Mode::Suffixable | Mode::Complete | Mode::Past => Mode::Past,
    }
}

/// Whether a piece is read, and no more than the piece.
pub fn is_read(mode: Mode) -> bool
    ensures { result ≡ is_read mode }
{
    matches!(mode, Mode::Suffixable | Mode::Complete)
}
