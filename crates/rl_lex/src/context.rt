// What tokens say of the token behind them.
ghost use Rattle.std.specs.Prelude.{◌≡◌};
ghost use Rattle.rl_lexical.specs.Contexts.{is_text, is_code, expected_behind_name, expected_behind, in_scanner_behind, context_behind, context_behind_stray, first_context};

use crate::word::is_variable;
use rl_grammar::TokenKind;
use rl_lexical::{Context, Expected};

/// Whether a text stands here.
pub fn is_text(expected: Expected) -> bool
    ensures { result ≡ is_text expected }
{
    matches!(expected, Expected::Text)
}

/// Whether a `{` begins code here.
pub fn is_code(expected: Expected) -> bool
    ensures { result ≡ is_code expected }
{
    matches!(expected, Expected::Code)
}

fn expected_behind_name(expected: Expected, name: &[u8]) -> Expected
    ensures { result ≡ expected_behind_name expected name.now }
{
    match expected {
        Expected::ActionName => Expected::Code,
        Expected::VariableName if is_variable(name) => Expected::Text,
        _ => Expected::Any,
    }
}

fn expected_behind(expected: Expected, kind: TokenKind, text: &[u8]) -> Expected
    ensures { result ≡ expected_behind expected kind text.now }
{
    match kind {
        TokenKind::Name => expected_behind_name(expected, text),
        TokenKind::Action => Expected::ActionName,
        TokenKind::Arrow
        | TokenKind::When
        | TokenKind::Greater
        | TokenKind::At
        | TokenKind::Dollar
        | TokenKind::Percent
        | TokenKind::Mark => Expected::Code,
        TokenKind::Access => Expected::Text,
        TokenKind::Variable => Expected::VariableName,
        _ => Expected::Any,
    }
}

fn in_scanner_behind(in_scanner: bool, kind: TokenKind) -> bool
    ensures { result ≡ in_scanner_behind in_scanner kind }
{
    match kind {
        TokenKind::OpenScanner => true,
        TokenKind::CloseScanner => false,
        _ => in_scanner,
    }
}

/// The context behind a token.
pub fn context_behind(context: Context, kind: TokenKind, text: &[u8]) -> Context
    ensures { result ≡ context_behind context kind text.now }
{
    Context {
        in_scanner: in_scanner_behind(context.in_scanner, kind),
        expected: expected_behind(context.expected, kind, text),
    }
}

/// The context behind a byte that begins no token.
pub fn context_behind_stray(context: Context) -> Context
    ensures { result ≡ context_behind_stray context }
{
    Context {
        in_scanner: context.in_scanner,
        expected: Expected::Any,
    }
}

/// The context at the beginning of a block.
pub fn first_context() -> Context
    ensures { result ≡ first_context }
{
    Context {
        in_scanner: false,
        expected: Expected::Any,
    }
}
