//! The lines of the texts that set a session to its start and that run a machine.

/// A switch of the text that runs a machine: whose actions it does.
#[derive(Clone, Copy, Debug, PartialEq, Eq)]
pub(crate) enum Switch {
    /// The from-state actions.
    From,
    /// The actions of a transition, or the error actions.
    Do,
    /// The action of a token.
    Token,
    /// The to-state actions.
    To,
    /// The actions at the end of the input.
    End,
}

/// A line, and when it stands. In it N is the machine's name.
#[derive(Clone, Copy, Drop)]
pub(crate) enum Line {
    /// It always stands.
    Always(&'static [u8]),
    /// It stands if an action calls an entry or returns.
    IfCalls(&'static [u8]),
    /// It stands if the machine has a scanner.
    IfScanner(&'static [u8]),
    /// It stands if the end of the input does something.
    IfEnding(&'static [u8]),
    /// The lines of all conditions.
    EachCondition,
    /// The cases of a switch.
    Cases(Switch),
}

/// The text that sets a session to its start.
pub(crate) const INIT: [Line; 5] = [
    Line::Always(b"\t{"),
    Line::Always(b"\tcs = N_start;"),
    Line::IfCalls(b"\ttop = 0;"),
    Line::IfScanner(b"\tts = 0; te = 0; act = 0;"),
    Line::Always(b"\t}"),
];

/// The text that runs a machine.
pub(crate) const EXEC: [Line; 68] = [
    Line::Always(b"\t{"),
    Line::Always(b"\tconst int *_a;"),
    Line::Always(b"\tint _n, _i, _f, _e, _b;"),
    Line::Always(b"\tlong long _k;"),
    Line::Always(b"_resume:"),
    Line::Always(b"\tif ( cs == 0 ) goto _out;"),
    Line::Always(b"\tif ( p >= pe ) goto _test_eof;"),
    Line::IfScanner(b"\tif ( _N_state_kinds[cs] == 1 ) { ts = p; te = 0; act = 0; }"),
    Line::Always(b"\t_k = (*p);"),
    Line::Always(b"\t_a = _N_actions + _N_from_lists[cs];"),
    Line::Always(b"\tfor ( _n = *_a++; _n > 0; _n-- ) { switch ( *_a++ ) {"),
    Line::Cases(Switch::From),
    Line::Always(b"\t} }"),
    Line::Always(b"\t_f = -1;"),
    Line::Always(b"\t_b = 1;"),
    Line::Always(b"\t_i = _N_key_offsets[cs];"),
    Line::Always(b"\t_e = _N_cell_offsets[cs];"),
    Line::Always(b"\tfor ( _n = _N_single_lengths[cs]; _n > 0; _n-- ) {"),
    Line::Always(b"\t\tif ( _N_trans_keys[_i] == _k ) _f = _N_cell_uses[_e];"),
    Line::Always(b"\t\t_i += 1; _e += 1;"),
    Line::Always(b"\t}"),
    Line::Always(b"\tfor ( _n = _N_range_lengths[cs]; _n > 0; _n-- ) {"),
    Line::Always(
        b"\t\tif ( _N_trans_keys[_i] <= _k && _k <= _N_trans_keys[_i+1] ) _f = _N_cell_uses[_e];",
    ),
    Line::Always(b"\t\t_i += 2; _e += 1;"),
    Line::Always(b"\t}"),
    Line::Always(b"\tif ( _f >= 0 ) {"),
    Line::Always(b"\t\t_e = _N_cell_entries[_f];"),
    Line::EachCondition,
    Line::Always(b"\t\tif ( _N_trans_targs[_e] == 0 ) _f = -1;"),
    Line::Always(b"\t}"),
    Line::Always(b"\tif ( _f < 0 ) {"),
    Line::IfScanner(b"\t\tif ( _N_state_kinds[cs] >= 2 && te != 0 ) goto _deliver;"),
    Line::Always(b"\t\t_a = _N_actions + _N_error_lists[cs];"),
    Line::Always(b"\t\tcs = 0;"),
    Line::Always(b"\t} else {"),
    Line::Always(b"\t\tcs = _N_trans_targs[_e];"),
    Line::Always(b"\t\t_a = _N_actions + _N_trans_lists[_e];"),
    Line::Always(b"\t}"),
    Line::Always(b"\tfor ( _n = *_a++; _n > 0; _n-- ) { switch ( *_a++ ) {"),
    Line::Cases(Switch::Do),
    Line::Always(b"\t} }"),
    Line::IfScanner(b"\tif ( _N_state_kinds[cs] >= 3 ) { te = p + 1; act = _N_accept_lists[cs]; }"),
    Line::IfScanner(b"\tif ( _N_state_kinds[cs] != 4 ) goto _again;"),
    Line::IfScanner(b"_deliver:"),
    Line::IfScanner(b"\t_a = _N_actions + act;"),
    Line::IfScanner(b"\tcs = _N_homes[cs];"),
    Line::IfScanner(b"\tp = te - 1;"),
    Line::IfScanner(b"\tfor ( _n = *_a++; _n > 0; _n-- ) { switch ( *_a++ ) {"),
    Line::Cases(Switch::Token),
    Line::IfScanner(b"\t} }"),
    Line::Always(b"_again:"),
    Line::Always(b"\t_a = _N_actions + _N_to_lists[cs];"),
    Line::Always(b"\tfor ( _n = *_a++; _n > 0; _n-- ) { switch ( *_a++ ) {"),
    Line::Cases(Switch::To),
    Line::Always(b"\t} }"),
    Line::Always(b"\tif ( cs == 0 ) goto _out;"),
    Line::Always(b"\tp++;"),
    Line::Always(b"\tgoto _resume;"),
    Line::Always(b"_test_eof: ;"),
    Line::IfEnding(b"\tif ( p == eof ) {"),
    Line::IfScanner(b"\t\tif ( _N_state_kinds[cs] >= 2 && te != 0 ) goto _deliver;"),
    Line::IfEnding(b"\t\t_a = _N_actions + _N_eof_lists[cs];"),
    Line::IfEnding(b"\t\tfor ( _n = *_a++; _n > 0; _n-- ) { switch ( *_a++ ) {"),
    Line::Cases(Switch::End),
    Line::IfEnding(b"\t\t} }"),
    Line::IfEnding(b"\t}"),
    Line::Always(b"_out: ;"),
    Line::Always(b"\t}"),
];
