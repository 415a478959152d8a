// How far code is read.
ghost use Rattle.std.specs.Prelude.{◌≡◌, ◌+◌, ◌<◌, ◌≤◌, ◌^◌, true};
ghost use Rattle.rl_lexical.specs.Modes.{code_step, code_slash_step, code_quote_step, line_comment_step, block_comment_step, block_star_step, mode_behind, mode_after};
ghost use Rattle.rl_code.specs.Texts as texts;
ghost use Rattle.rl_bytes.specs.Modes.{is_of_code, depth_of};

use rl_lexical::Mode;

fn behind_code(depth: u64, b: u8) -> Mode
    requires { depth + 1 < 2 ^ 64 }
    ensures value { result ≡ code_step depth b }
    ensures depth { depth_of result ≤ depth + 1 }
    ensures code { is_of_code result ≡ true }
{
    match b {
        b'{' => Mode::Code(depth + 1),
        b'}' => {
            if depth == 0 {
                Mode::Complete
            } else {
                Mode::Code(depth - 1)
            }
        }
        b'\'' | b'"' => Mode::CodeQuote(b, depth),
        b'/' => Mode::CodeSlash(depth),
        _ => Mode::Code(depth),
    }
}

fn behind_slash(depth: u64, b: u8) -> Mode
    requires { depth + 1 < 2 ^ 64 }
    ensures value { result ≡ code_slash_step depth b }
    ensures depth { depth_of result ≤ depth + 1 }
    ensures code { is_of_code result ≡ true }
{
    match b {
        b'/' => Mode::LineComment(depth),
        b'*' => Mode::BlockComment(depth),
        _ => behind_code(depth, b),
    }
}

fn behind_quote(close: u8, depth: u64, b: u8) -> Mode
    ensures value { result ≡ code_quote_step close depth b }
    ensures depth { depth_of result ≡ depth }
    ensures code { is_of_code result ≡ true }
{
    if b == close {
        Mode::Code(depth)
    } else if b == b'\\' {
        Mode::CodeEscape(close, depth)
    } else {
        Mode::CodeQuote(close, depth)
    }
}

fn behind_line_comment(depth: u64, b: u8) -> Mode
    ensures value { result ≡ line_comment_step depth b }
    ensures depth { depth_of result ≡ depth }
    ensures code { is_of_code result ≡ true }
{
    if b == b'\n' {
        Mode::Code(depth)
    } else {
        Mode::LineComment(depth)
    }
}

fn behind_block_comment(depth: u64, b: u8) -> Mode
    ensures value { result ≡ block_comment_step depth b }
    ensures depth { depth_of result ≡ depth }
    ensures code { is_of_code result ≡ true }
{
    if b == b'*' {
        Mode::BlockStar(depth)
    } else {
        Mode::BlockComment(depth)
    }
}

fn behind_block_star(depth: u64, b: u8) -> Mode
    ensures value { result ≡ block_star_step depth b }
    ensures depth { depth_of result ≡ depth }
    ensures code { is_of_code result ≡ true }
{
    if b == b'/' {
        Mode::Code(depth)
    } else {
        behind_block_comment(depth, b)
    }
}

/// What one byte more makes of a mode of code.
pub fn mode_behind(mode: Mode, b: u8) -> Mode
    requires code { is_of_code mode ≡ true }
    requires room { depth_of mode + 1 < 2 ^ 64 }
    ensures value { result ≡ mode_behind mode b }
    ensures depth { depth_of result ≤ depth_of mode + 1 }
    ensures code { is_of_code result ≡ true }
{
    match mode {
        Mode::Code(depth) => behind_code(depth, b),
        Mode::CodeSlash(depth) => behind_slash(depth, b),
        Mode::CodeQuote(close, depth) => behind_quote(close, depth, b),
        Mode::CodeEscape(close, depth) => Mode::CodeQuote(close, depth),
        Mode::LineComment(depth) => behind_line_comment(depth, b),
        Mode::BlockComment(depth) => behind_block_comment(depth, b),
        Mode::BlockStar(depth) => behind_block_star(depth, b),
        Mode::Complete | Mode::Past => Mode::Past,
        Mode::Literal(_)
        | Mode::LiteralEscape(_)
        | Mode::Set
        | Mode::SetEscape
        | Mode::Regular
        | Mode::RegularEscape
        | Mode::RegularSet
        | Mode::RegularSetEscape
        | Mode::Suffixable => unreachable!(),
    }
}

/// Whether it is outside strings, character literals and comments.
pub fn is_outside(mode: Mode) -> bool
    ensures { result ≡ texts.is_outside mode }
{
    matches!(mode, Mode::Code(_) | Mode::CodeSlash(_))
}

/// How many braces are open there inside the code's own.
pub fn braces(mode: Mode) -> u64
    ensures value { result ≡ texts.braces mode }
    ensures bound { result ≤ depth_of mode }
{
    match mode {
        Mode::Code(depth) | Mode::CodeSlash(depth) => depth,
        _ => 0,
    }
}

/// Whether a brace ends around what stands inside so many.
pub fn is_left(depth: u64, mode: Mode) -> bool
    ensures { result ≡ texts.is_left depth mode }
{
    match mode {
        Mode::Complete => true,
        Mode::Code(d) => d < depth,
        _ => false,
    }
}
