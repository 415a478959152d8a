// What sets and regular expressions hold.
ghost use Rattle.std.specs.Prelude.{◌≡◌};
ghost use Rattle.rl_lexical.specs.Forms.{item_form, set_item_form, form_behind, form_behind_escape, form_after, is_set_form, is_regular_form};
ghost use Rattle.rl_lexical.specs.declared.context.Form.TheVariants.{SetStart, Item};

use rl_lexical::Form;

fn item_form(b: u8) -> Form
    ensures { result ≡ item_form b }
{
    match b {
        b'/' => Form::Closed,
        b'*' | b'\n' => Form::Wrong,
        b'[' => Form::SetStart,
        _ => Form::Repeated,
    }
}

fn set_item_form(b: u8) -> Form
    ensures { result ≡ set_item_form b }
{
    match b {
        b']' => Form::Repeated,
        b'-' => Form::Wrong,
        _ => Form::SetCharacter,
    }
}

/// What a character makes of a form that no backslash is before.
fn form_behind(form: Form, b: u8) -> Form
    ensures { result ≡ form_behind form b }
{
    match form {
        Form::Item => item_form(b),
        Form::Repeated if b == b'*' => Form::Item,
        Form::Repeated => item_form(b),
        Form::SetStart if b == b'^' => Form::SetItem,
        Form::SetStart | Form::SetItem => set_item_form(b),
        Form::SetCharacter if b == b'-' => Form::SetRange,
        Form::SetCharacter => set_item_form(b),
        Form::SetRange if b == b']' || b == b'-' => Form::Wrong,
        Form::SetRange => Form::SetItem,
        Form::Closed if b == b'i' => Form::Suffixed,
        Form::Closed | Form::Suffixed | Form::Wrong => Form::Wrong,
    }
}

/// What a character makes of a form that a backslash is before.
fn form_behind_escape(form: Form) -> Form
    ensures { result ≡ form_behind_escape form }
{
    match form {
        Form::Item | Form::Repeated => Form::Repeated,
        Form::SetStart | Form::SetItem | Form::SetCharacter => Form::SetCharacter,
        Form::SetRange => Form::SetItem,
        Form::Closed | Form::Suffixed | Form::Wrong => Form::Wrong,
    }
}

/// What a text makes of a form.
fn form_after(start: Form, text: &[u8]) -> Form
    ensures { result ≡ form_after start text.now }
{
    let mut form = start;
    let mut is_escaped = false;
    for b in text {
        if is_escaped {
            if *b != b'\n' {
                form = form_behind_escape(form);
            }
            is_escaped = false;
        } else if *b == b'\\' {
            is_escaped = true;
        } else {
            form = form_behind(form, *b);
        }
    }
    form
}

/// Whether what stands behind the `[` of a set has the form of one.
pub fn is_set(text: &[u8]) -> bool
    ensures { result ≡ is_set_form (form_after (SetStart) text.now) }
{
    form_after(Form::SetStart, text) == Form::Repeated
}

/// Whether what stands behind the first `/` of a regular expression has the form of one.
pub fn is_regular_expression(text: &[u8]) -> bool
    ensures { result ≡ is_regular_form (form_after (Item) text.now) }
{
    matches!(form_after(Form::Item, text), Form::Closed | Form::Suffixed)
}
