// Worked rows: what a replay prints and answers.
use crate::replay;
use rl_io::{MemSink, MemSource, MemStore, Store};
use rl_types::{Status, Text};
use std::alloc::Global;
use std::test::Fail;

// The names and texts of the files, the calls of the store and of the output that fail, and what is to come.
#[derive(Clone, Copy)]
struct Row {
    files: &'static [(&'static str, &'static str)],
    words: &'static [&'static str],
    store_fails: u64,
    out_fails: u64,
    status: Status,
    out: &'static str,
    err: &'static str,
}

const RAN: Row = Row {
    files: &[
        ("m.rl", "%%{ machine one; action x { } main := 'ab' $x; }%%"),
        ("t", "open s\npiece s \"ab\"\nend s\n"),
    ],
    words: &["m.rl", "t"],
    store_fails: 0,
    out_fails: 0,
    status: Status::Done,
    out: "s do x 0\ns do x 1\ns end final 2\n",
    err: "",
};

// A row that writes nothing.
const EMPTY: Row = Row { out: "", ..RAN };

const NULL: Row = Row {
    files: &[
        ("m.rl", "%%{ machine m; main := ''; }%%"),
        ("t", "open s\nend s\n"),
    ],
    out: "s end final 0\n",
    ..EMPTY
};

const NO_PIECE: Row = Row {
    files: &[
        ("m.rl", "%%{ machine m; main := 'a'; }%%"),
        ("t", "open s\nend s\n"),
    ],
    out: "s end partial 0\n",
    ..EMPTY
};

const NOTHING: Row = Row {
    files: &[
        ("m.rl", "%%{ machine m; main := empty; }%%"),
        ("t", "open s\nend s\n"),
    ],
    out: "s end partial 0\n",
    ..EMPTY
};

const STOPPED: Row = Row {
    files: &[
        ("m.rl", "%%{ machine m; action x { } main := 'ab' $x; }%%"),
        ("t", "open s\npiece s \"ac\"\npiece s \"ab\"\nend s\n"),
    ],
    out: "s do x 0\ns stop error 1\ns end error 1\n",
    ..EMPTY
};

const ROUNDS: Row = Row {
    files: &[
        (
            "m.rl",
            "%%{ machine m; action A { } action B { } main := ('a' >A %B)*; }%%",
        ),
        ("t", "open s\npiece s \"aa\"\nend s\n"),
    ],
    out: "s do A 0\ns do B 1\ns do A 1\ns eof B 2\ns end final 2\n",
    ..EMPTY
};

const WORDS: Row = Row {
    files: &[
        (
            "m.rl",
            "%%{ machine m; action act { } word = [a-z]+ %act; main := word ('\\n' word)* '\\n\\n'; }%%",
        ),
        ("t", "open s\npiece s \"ab\\ncd\\n\\n\"\nend s\n"),
    ],
    out: "s do act 2\ns do act 5\ns end final 7\n",
    ..EMPTY
};

const ENTERS: Row = Row {
    files: &[
        (
            "m.rl",
            "%%{ machine m; action A { } action C { } main := ('' >A) . 'b' >C; }%%",
        ),
        ("t", "open s\npiece s \"b\"\nend s\n"),
    ],
    out: "s do A 0\ns do C 0\ns end final 1\n",
    ..EMPTY
};

const BOTH: Row = Row {
    files: &[
        (
            "m.rl",
            "%%{ machine m; action A { } main := ('ab' $A) & 'ac'; }%%",
        ),
        ("t", "open s\npiece s \"a\"\nend s\n"),
    ],
    out: "s stop error 0\ns end error 0\n",
    ..EMPTY
};

const MINUS: Row = Row {
    files: &[
        (
            "m.rl",
            "%%{ machine m; action Z { } main := ( 'ab' | 'ac' ) - ( 'ab' $Z ); }%%",
        ),
        ("t", "open s\npiece s \"ac\"\nend s\n"),
    ],
    out: "s do Z 0\ns end final 2\n",
    ..EMPTY
};

const MINUS_CUT: Row = Row {
    files: &[
        (
            "m.rl",
            "%%{ machine m; action Z { } main := ( 'ab' | 'ac' ) - ( 'ab' $Z ); }%%",
        ),
        ("t", "open s\npiece s \"ab\"\nend s\n"),
    ],
    out: "s do Z 0\ns stop error 1\ns end error 1\n",
    ..EMPTY
};

const UP_TO: Row = Row {
    files: &[
        (
            "m.rl",
            "%%{ machine m; action fin { } main := any* :>> '*/' @fin; }%%",
        ),
        ("t", "open s\npiece s \"x*/\"\nend s\n"),
    ],
    out: "s do fin 2\ns end final 3\n",
    ..EMPTY
};

const BEHIND: Row = Row {
    files: &[
        (
            "m.rl",
            "%%{ machine m; action fin { } main := any* :>> '*/' @fin; }%%",
        ),
        ("t", "open s\npiece s \"x*/y\"\nend s\n"),
    ],
    out: "s do fin 2\ns stop error 3\ns end error 3\n",
    ..EMPTY
};

const HIGHER: Row = Row {
    files: &[
        (
            "m.rl",
            "%%{ machine m; action X { } action Y { } main := 'a' $X $1 | 'a' $Y $0; }%%",
        ),
        ("t", "open s\npiece s \"a\"\nend s\n"),
    ],
    out: "s do X 0\ns end final 1\n",
    ..EMPTY
};

const EQUAL: Row = Row {
    files: &[
        (
            "m.rl",
            "%%{ machine m; action X { } action Y { } main := 'a' $X $0 | 'a' $Y $0; }%%",
        ),
        ("t", "open s\npiece s \"a\"\nend s\n"),
    ],
    out: "s do X 0\ns do Y 0\ns end final 1\n",
    ..EMPTY
};

const UNNAMED: Row = Row {
    files: &[
        ("m.rl", "%%{ machine m; main := 'a' @{ n++; }; }%%"),
        ("t", "open s\npiece s \"a\"\nend s\n"),
    ],
    out: "s do @1:29 0\ns end final 1\n",
    ..EMPTY
};

const THIRTEEN: Row = Row {
    files: &[
        ("m.rl", "%%{ machine m; main := any* 'a' any{13}; }%%"),
        ("t", "open s\npiece s \"axxxxxxxxxxxxx\"\nend s\n"),
    ],
    out: "s end final 14\n",
    ..EMPTY
};

const TWELVE: Row = Row {
    files: &[
        ("m.rl", "%%{ machine m; main := any* 'a' any{13}; }%%"),
        ("t", "open s\npiece s \"axxxxxxxxxxxx\"\nend s\n"),
    ],
    out: "s end partial 13\n",
    ..EMPTY
};

const STAMPS: Row = Row {
    files: &[
        (
            "m.rl",
            "%%{ machine m; action x { } action y { } main := ( 'a' $x | 'aa' $y )*; }%%",
        ),
        ("t", "open s\npiece s \"aa\"\nend s\n"),
    ],
    out: "s do x 0\ns do y 0\ns do y 1\ns do x 1\ns end final 2\n",
    ..EMPTY
};

const ENTERING_FIRST: Row = Row {
    files: &[
        (
            "m.rl",
            "%%{ machine m; action F { } action E { } main := ( 'a' @F >E ); }%%",
        ),
        ("t", "open s\npiece s \"a\"\nend s\n"),
    ],
    out: "s do E 0\ns do F 0\ns end final 1\n",
    ..EMPTY
};

const LONGEST: Row = Row {
    files: &[
        (
            "m.rl",
            "%%{ machine m; action A { } main := ( [a-z]+ >A )**; }%%",
        ),
        ("t", "open s\npiece s \"ab\"\nend s\n"),
    ],
    out: "s do A 0\ns end final 2\n",
    ..EMPTY
};

const EACH: Row = Row {
    files: &[
        (
            "m.rl",
            "%%{ machine m; action A { } main := ( [a-z]+ >A )*; }%%",
        ),
        ("t", "open s\npiece s \"ab\"\nend s\n"),
    ],
    out: "s do A 0\ns do A 1\ns end final 2\n",
    ..EMPTY
};

const LONGEST_LEFT: Row = Row {
    files: &[
        (
            "m.rl",
            "%%{ machine m; action A { } action B { } main := ( 'a' >A )** 'a' @B; }%%",
        ),
        ("t", "open s\npiece s \"aa\"\nend s\n"),
    ],
    out: "s do A 0\ns do B 0\ns do A 1\ns do B 1\ns end final 2\n",
    ..EMPTY
};

const TWO_PIECES: Row = Row {
    files: &[
        (
            "m.rl",
            "%%{ machine m; action x { } action y { } main := 'a' $x . \"b\\n\" $(y) 'c'; }%%",
        ),
        ("t", "open s\npiece s \"a\"\npiece s \"b\\n\\x63\"\nend s\n"),
    ],
    out: "s do x 0\ns do y 1\ns do y 2\ns end final 4\n",
    ..EMPTY
};

const STATES: Row = Row {
    files: &[
        (
            "m.rl",
            "%%{ machine m; action t { } action f { } main := 'ab' $~t $*f; }%%",
        ),
        ("t", "open s\npiece s \"abx\"\nend s\n"),
    ],
    out: "s from f 0\ns to t 0\ns from f 1\ns to t 1\ns from f 2\ns stop error 2\ns end error 2\n",
    ..EMPTY
};

const ERROR: Row = Row {
    files: &[
        (
            "m.rl",
            "%%{ machine m; action oops { } main := 'ab' $!oops; }%%",
        ),
        ("t", "open s\npiece s \"ac\"\nend s\n"),
    ],
    out: "s error oops 1\ns stop error 1\ns end error 1\n",
    ..EMPTY
};

const ERROR_AT_END: Row = Row {
    files: &[
        (
            "m.rl",
            "%%{ machine m; action oops { } main := 'ab' $!oops; }%%",
        ),
        ("t", "open s\npiece s \"a\"\nend s\n"),
    ],
    out: "s eof oops 1\ns end partial 1\n",
    ..EMPTY
};

const FIRST_MACHINE: Row = Row {
    files: &[
        (
            "m.rl",
            "%%{ machine one; main := 'a'; }%%\n%%{ machine two; main := 'b'; }%%\n",
        ),
        ("t", "open s\npiece s \"a\"\nend s\n"),
    ],
    out: "s end final 1\n",
    ..EMPTY
};

const MAIN_IS_SECOND: Row = Row {
    files: &[
        ("m.rl", "%%{ machine m; other := 'b'; main := 'a'; }%%"),
        ("t", "open s\npiece s \"a\"\nend s\n"),
    ],
    out: "s end final 1\n",
    ..EMPTY
};

const INCLUDES: Row = Row {
    files: &[
        ("m.rl", "%%{ machine m; include 'b.rl'; main := word; }%%"),
        ("b.rl", "%%{ machine m; action x { } word = 'a' $x; }%%"),
        ("t", "open s\npiece s \"a\"\nend s\n"),
    ],
    out: "s do x 0\ns end final 1\n",
    ..EMPTY
};

const UNKNOWN: Row = Row {
    files: &[
        ("m.rl", "%%{ machine m; main := nope; }%%"),
        ("t", "open s\npiece s \"ab\"\nend s\n"),
    ],
    status: Status::Source,
    err: "m.rl:1:24: F5 unknown name\n",
    ..EMPTY
};

const ENDS: Row = Row {
    files: &[
        ("m.rl", "%%{ machine m; main := 9..1; }%%"),
        ("t", "open s\npiece s \"ab\"\nend s\n"),
    ],
    status: Status::Source,
    err: "m.rl:1:24: F9 range ends\n",
    ..EMPTY
};

const UNCLOSED: Row = Row {
    files: &[
        ("m.rl", "%%{ machine m; action a { "),
        ("t", "open s\npiece s \"ab\"\nend s\n"),
    ],
    status: Status::Source,
    err: "m.rl:1:25: F2 unclosed\n",
    ..EMPTY
};

const WRONG_START: Row = Row {
    files: &[
        ("m.rl", "%%{ machine m; main := ) ; }%%"),
        ("t", "open s\npiece s \"ab\"\nend s\n"),
    ],
    status: Status::Source,
    err: "m.rl:1:24: F3 syntax\n",
    ..EMPTY
};

const CYCLE: Row = Row {
    files: &[
        (
            "m.rl",
            "%%{ machine m; main := 'k'{0,2} . ( 'a' $(p,1) $(r,0) | 'k' . 'a' $(p,0) $(q,1) | 'kk' . 'a' $(q,0) $(r,1) ); }%%",
        ),
        ("t", "open s\npiece s \"ab\"\nend s\n"),
    ],
    status: Status::Source,
    err: "m.rl:1:24: F15 priority cycle\n",
    ..EMPTY
};

const TOO_MANY: Row = Row {
    files: &[
        ("m.rl", "%%{ machine m; main := any* 'a' any{15}; }%%"),
        ("t", "open s\npiece s \"ab\"\nend s\n"),
    ],
    status: Status::Limit,
    err: "m.rl:1:24: L6 configurations\n",
    ..EMPTY
};

const NO_MACHINE: Row = Row {
    files: &[
        ("m.rl", "%%{ main := 'a'; }%%"),
        ("t", "open s\npiece s \"ab\"\nend s\n"),
    ],
    status: Status::Source,
    err: "m.rl:1:5: F4 no machine\n",
    ..EMPTY
};

const NO_INSTANCE: Row = Row {
    files: &[
        ("m.rl", "%%{ machine m; }%%"),
        ("t", "open s\npiece s \"ab\"\nend s\n"),
    ],
    status: Status::Source,
    err: "m.rl:1:1: F18 no instance\n",
    ..EMPTY
};

const EMPTY_TOKEN: Row = Row {
    files: &[
        (
            "m.rl",
            "%%{ machine m; action A { } main := |* 'a'* => A; *|; }%%",
        ),
        ("t", "open s\npiece s \"ab\"\nend s\n"),
    ],
    status: Status::Source,
    err: "m.rl:1:40: F12 zero token\n",
    ..EMPTY
};

const TOKENS: Row = Row {
    files: &[
        (
            "m.rl",
            "%%{ machine m; action A { } action B { } main := |* 'a' => A; 'aab' => B; *|; }%%",
        ),
        (
            "t",
            "open s\npiece s \"a\"\npiece s \"a\"\npiece s \"a\"\npiece s \"c\"\nend s\n",
        ),
    ],
    out: "s token A 2 0 1\ns token A 3 1 2\ns token A 3 2 3\ns stop error 3\ns end error 3\n",
    ..RAN
};

const KEYWORDS: Row = Row {
    files: &[
        (
            "m.rl",
            "%%{ machine m; action kw { } action id { } main := |* 'if' => kw; [a-z]+ => id; ' '; *|; }%%",
        ),
        ("t", "open s\npiece s \"if ifx\"\nend s\n"),
    ],
    out: "s token kw 2 0 2\ns token id 6 3 6\ns end final 6\n",
    ..RAN
};

const TOO_DEEP: Row = Row {
    files: &[
        (
            "m.rl",
            "%%{ machine m; main := ((((((((((((((((((((((((((((((((((((((((((((((((((((((((((((((((((((((((((((((((((((((((((((((((((((((((((((((((((((((((((((((((('a'; }%%",
        ),
        ("t", "open s\npiece s \"ab\"\nend s\n"),
    ],
    status: Status::Limit,
    err: "m.rl:1:152: L3 parentheses\n",
    ..EMPTY
};

const LOOP: Row = Row {
    files: &[
        ("m.rl", "%%{ machine m; include 'b.rl'; main := 'a'; }%%"),
        ("b.rl", "%%{ machine m; include 'm.rl'; }%%"),
        ("t", "open s\npiece s \"ab\"\nend s\n"),
    ],
    status: Status::Source,
    err: "b.rl:1:16: F17 include loop\n",
    ..EMPTY
};

const NO_INCLUDE: Row = Row {
    files: &[
        ("m.rl", "%%{ machine m; include 'b.rl'; main := 'a'; }%%"),
        ("t", "open s\npiece s \"ab\"\nend s\n"),
    ],
    status: Status::Outside,
    err: "b.rl: missing\n",
    ..EMPTY
};

const INCLUDE_FAILED: Row = Row {
    files: &[
        ("m.rl", "%%{ machine m; include 'b.rl'; main := 'a'; }%%"),
        ("t", "open s\npiece s \"ab\"\nend s\n"),
    ],
    store_fails: 4,
    status: Status::Outside,
    err: "b.rl: store failed\n",
    ..EMPTY
};

const BEFORE_FAILURE: Row = Row {
    files: &[
        (
            "m.rl",
            "%%{ machine m; x = nope; include 'b.rl'; main := 'a'; }%%",
        ),
        ("t", "open s\npiece s \"ab\"\nend s\n"),
    ],
    store_fails: 4,
    status: Status::Source,
    err: "m.rl:1:20: F5 unknown name\n",
    ..EMPTY
};

const INCLUDED_FAULT: Row = Row {
    files: &[
        ("m.rl", "%%{ machine m; include 'b.rl'; main := 'a'; }%%"),
        ("b.rl", "%%{ machine m; x := ) ; }%%"),
        ("t", "open s\npiece s \"ab\"\nend s\n"),
    ],
    status: Status::Source,
    err: "b.rl:1:21: F3 syntax\n",
    ..EMPTY
};

const INCLUDED_NODE: Row = Row {
    files: &[
        ("x/m.rl", "%%{ machine m; include 'b.rl'; main := y; }%%"),
        ("x/b.rl", "%%{ machine m; y = any* 'a' any{15}; }%%"),
        ("t", "open s\npiece s \"ab\"\nend s\n"),
    ],
    words: &["x/m.rl", "t"],
    status: Status::Limit,
    err: "x/b.rl:1:20: L6 configurations\n",
    ..EMPTY
};

const BAD_LINE: Row = Row {
    files: &[
        ("m.rl", "%%{ machine one; action x { } main := 'ab' $x; }%%"),
        ("t", "opne s\n"),
    ],
    status: Status::Script,
    err: "t:1: bad line\n",
    ..EMPTY
};

const NOT_OPEN: Row = Row {
    files: &[
        ("m.rl", "%%{ machine one; action x { } main := 'ab' $x; }%%"),
        ("t", "piece s \"a\"\n"),
    ],
    status: Status::Script,
    err: "t:1: no session\n",
    ..EMPTY
};

const TWICE: Row = Row {
    files: &[
        ("m.rl", "%%{ machine one; action x { } main := 'ab' $x; }%%"),
        ("t", "open s\nopen s\n"),
    ],
    status: Status::Script,
    err: "t:2: twice\n",
    ..EMPTY
};

const NO_ENTRY: Row = Row {
    files: &[
        ("m.rl", "%%{ machine one; action x { } main := 'ab' $x; }%%"),
        ("t", "# a comment\nopen s nowhere\n"),
    ],
    status: Status::Script,
    err: "t:2: no entry\n",
    ..EMPTY
};

const NO_NAME: Row = Row {
    files: &[
        ("m.rl", "%%{ machine one; action x { } main := 'ab' $x; }%%"),
        ("t", "open s\npick s y 1 -\n"),
    ],
    status: Status::Script,
    err: "t:2: no name\n",
    ..EMPTY
};

const NO_CONDITION: Row = Row {
    files: &[
        ("m.rl", "%%{ machine one; action x { } main := 'ab' $x; }%%"),
        ("t", "say s x 1 yes\nopen s\n"),
    ],
    status: Status::Script,
    err: "t:1: no name\n",
    ..EMPTY
};

const NO_END: Row = Row {
    files: &[
        ("m.rl", "%%{ machine one; action x { } main := 'ab' $x; }%%"),
        ("t", "open s\npiece s \"ab\"\n"),
    ],
    out: "s do x 0\ns do x 1\ns left final 2\n",
    ..EMPTY
};

const TURNS: Row = Row {
    files: &[
        ("m.rl", "%%{ machine one; action x { } main := 'ab' $x; }%%"),
        (
            "t",
            "# two sessions\n\nopen s\nopen t main\npiece s \"a\"\npiece t \"x\"\npiece s \"b\"\nend t\nend s",
        ),
    ],
    out: "s do x 0\nt stop error 0\ns do x 1\nt end error 0\ns end final 2\n",
    ..EMPTY
};

const PICKED: Row = Row {
    files: &[
        ("m.rl", "%%{ machine one; action x { } main := 'ab' $x; }%%"),
        ("t", "open s\npick s x 2 1\npiece s \"ab\"\npiece s \"c\"\n"),
    ],
    out: "s do x 0\ns do x 1 ?1\ns stop stray 2\ns left error 2\n",
    ..EMPTY
};

const AT_ENTRY: Row = Row {
    files: &[
        ("m.rl", "%%{ machine m; main := 'a'; other := 'b'; }%%"),
        ("t", "open s other\npiece s \"b\"\nend s\n"),
    ],
    out: "s end final 1\n",
    ..EMPTY
};

// The section of the machine `one`, whose word is `ab` with the action `x` on each character.
const SECTION: &str = "\
/* rl-data 1 one */\n\
static const int one_start = 1;\n\
static const int one_first_final = 3;\n\
static const int one_error = 0;\n\
static const int one_alphabet = 0;\n\
static const int one_en_main = 1;\n\
static const int _one_actions[] = { 0, 1, 1 };\n\
static const int _one_key_offsets[] = { 0, 0, 1, 2 };\n\
static const long long _one_trans_keys[] = { 97, 98, 0 };\n\
static const int _one_single_lengths[] = { 0, 1, 1, 0 };\n\
static const int _one_range_lengths[] = { 0, 0, 0, 0 };\n\
static const int _one_cell_offsets[] = { 0, 0, 1, 2 };\n\
static const int _one_cell_asks[] = { 0, 0, 0 };\n\
static const int _one_cell_entries[] = { 0, 1, 0 };\n\
static const int _one_trans_targs[] = { 2, 3, 0 };\n\
static const int _one_trans_lists[] = { 1, 1, 0 };\n\
static const int _one_from_lists[] = { 0, 0, 0, 0 };\n\
static const int _one_to_lists[] = { 0, 0, 0, 0 };\n\
static const int _one_eof_lists[] = { 0, 0, 0, 0 };\n\
static const int _one_error_lists[] = { 0, 0, 0, 0 };\n\
static const int _one_accept_lists[] = { 0, 0, 0, 0 };\n\
static const int _one_state_kinds[] = { 0, 0, 0, 0 };\n\
static const int _one_homes[] = { 0, 0, 0, 0 };\n\
static const char *const _one_action_names[] = { \"\", \"x\" };\n\
static const int _one_stmt_firsts[] = { 0, 1 };\n\
static const int _one_stmt_counts[] = { 0, 0 };\n\
static const int _one_stmt_kinds[] = { 0 };\n\
static const int _one_stmt_outer[] = { 0 };\n\
static const int _one_stmt_args[] = { 0 };\n\
static const int _one_stmt_bases[] = { 0 };\n\
static const char *const _one_cond_names[] = { \"\" };\n\
static const char *const _one_entry_names[] = { \"\", \"main\" };\n\
static const int _one_entry_states[] = { 0, 1 };\n\
/* rl-end one */\n\
";

// The same with a target that is no state.
const SECTION_WITH_A_WRONG_TARGET: &str = "\
/* rl-data 1 one */\n\
static const int one_start = 1;\n\
static const int one_first_final = 3;\n\
static const int one_error = 0;\n\
static const int one_alphabet = 0;\n\
static const int one_en_main = 1;\n\
static const int _one_actions[] = { 0, 1, 1 };\n\
static const int _one_key_offsets[] = { 0, 0, 1, 2 };\n\
static const long long _one_trans_keys[] = { 97, 98, 0 };\n\
static const int _one_single_lengths[] = { 0, 1, 1, 0 };\n\
static const int _one_range_lengths[] = { 0, 0, 0, 0 };\n\
static const int _one_cell_offsets[] = { 0, 0, 1, 2 };\n\
static const int _one_cell_asks[] = { 0, 0, 0 };\n\
static const int _one_cell_entries[] = { 0, 1, 0 };\n\
static const int _one_trans_targs[] = { 2, 4, 0 };\n\
static const int _one_trans_lists[] = { 1, 1, 0 };\n\
static const int _one_from_lists[] = { 0, 0, 0, 0 };\n\
static const int _one_to_lists[] = { 0, 0, 0, 0 };\n\
static const int _one_eof_lists[] = { 0, 0, 0, 0 };\n\
static const int _one_error_lists[] = { 0, 0, 0, 0 };\n\
static const int _one_accept_lists[] = { 0, 0, 0, 0 };\n\
static const int _one_state_kinds[] = { 0, 0, 0, 0 };\n\
static const int _one_homes[] = { 0, 0, 0, 0 };\n\
static const char *const _one_action_names[] = { \"\", \"x\" };\n\
static const int _one_stmt_firsts[] = { 0, 1 };\n\
static const int _one_stmt_counts[] = { 0, 0 };\n\
static const int _one_stmt_kinds[] = { 0 };\n\
static const int _one_stmt_outer[] = { 0 };\n\
static const int _one_stmt_args[] = { 0 };\n\
static const int _one_stmt_bases[] = { 0 };\n\
static const char *const _one_cond_names[] = { \"\" };\n\
static const char *const _one_entry_names[] = { \"\", \"main\" };\n\
static const int _one_entry_states[] = { 0, 1 };\n\
/* rl-end one */\n\
";

const SPELLED: Row = Row {
    files: &[("x.c", SECTION), ("t", "open s\npiece s \"ab\"\nend s\n")],
    words: &["x.c", "t"],
    out: "s do x 0\ns do x 1\ns end final 2\n",
    ..EMPTY
};

const BAD_TEXT: Row = Row {
    files: &[
        (
            "x.c",
            "/* rl-data 1 one */\nstatic const int one_start = 1;\nstatic const int one_first_final = 3;\n",
        ),
        ("t", "open s\nend s\n"),
    ],
    words: &["x.c", "t"],
    status: Status::Tables,
    err: "x.c:4: bad text\n",
    ..EMPTY
};

const BAD_VALUE: Row = Row {
    files: &[
        ("x.c", SECTION_WITH_A_WRONG_TARGET),
        ("t", "open s\nend s\n"),
    ],
    words: &["x.c", "t"],
    status: Status::Tables,
    err: "x.c: bad value in trans_targs at 1\n",
    ..EMPTY
};

const NO_SECTION: Row = Row {
    files: &[("x.c", ""), ("t", "open s\nend s\n")],
    words: &["x.c", "t"],
    status: Status::Tables,
    err: "x.c: no section\n",
    ..EMPTY
};

const MISSING: Row = Row {
    files: &[
        ("m.rl", "%%{ machine one; action x { } main := 'ab' $x; }%%"),
        ("t", "open s\npiece s \"ab\"\nend s\n"),
    ],
    words: &["no.rl", "t"],
    status: Status::Outside,
    err: "no.rl: missing\n",
    ..EMPTY
};

const NO_SCRIPT: Row = Row {
    files: &[
        ("m.rl", "%%{ machine one; action x { } main := 'ab' $x; }%%"),
        ("t", "open s\npiece s \"ab\"\nend s\n"),
    ],
    words: &["m.rl", "no.t"],
    status: Status::Outside,
    err: "no.t: missing\n",
    ..EMPTY
};

const STORE_FAILED: Row = Row {
    files: &[
        ("m.rl", "%%{ machine one; action x { } main := 'ab' $x; }%%"),
        ("t", "open s\npiece s \"ab\"\nend s\n"),
    ],
    words: &["no.rl", "t"],
    store_fails: 3,
    status: Status::Outside,
    err: "no.rl: store failed\n",
    ..EMPTY
};

const OUTPUT_FAILED: Row = Row {
    files: &[
        ("m.rl", "%%{ machine one; action x { } main := 'ab' $x; }%%"),
        ("t", "open s\npiece s \"ab\"\nend s\n"),
    ],
    out_fails: 1,
    status: Status::Outside,
    err: "output failed\n",
    ..EMPTY
};

const NO_WORDS: Row = Row {
    files: &[
        ("m.rl", "%%{ machine one; action x { } main := 'ab' $x; }%%"),
        ("t", "open s\npiece s \"ab\"\nend s\n"),
    ],
    words: &[],
    status: Status::Usage,
    err: "usage\n",
    ..EMPTY
};

const NO_PRINTED: Row = Row {
    files: &[
        ("m.rl", "%%{ machine one; action x { } main := 'ab' $x; }%%"),
        ("t", "open s\nend s\n"),
    ],
    words: &["no.c", "t"],
    status: Status::Outside,
    err: "no.c: missing\n",
    ..EMPTY
};

const PRINTED_FAILED: Row = Row {
    words: &["no.c", "t"],
    store_fails: 3,
    status: Status::Outside,
    err: "no.c: store failed\n",
    ..EMPTY
};

const EXPRESSIONS: [&Row; 9] = [
    &RAN, &NULL, &NO_PIECE, &NOTHING, &STOPPED, &ROUNDS, &WORDS, &ENTERS, &BOTH,
];

const OPERATORS: [&Row; 9] = [
    &MINUS, &MINUS_CUT, &UP_TO, &BEHIND, &HIGHER, &EQUAL, &UNNAMED, &THIRTEEN, &TWELVE,
];

const NAMES: [&Row; 12] = [
    &STATES,
    &ERROR,
    &ERROR_AT_END,
    &STAMPS,
    &ENTERING_FIRST,
    &LONGEST,
    &EACH,
    &LONGEST_LEFT,
    &TWO_PIECES,
    &FIRST_MACHINE,
    &MAIN_IS_SECOND,
    &INCLUDES,
];

const FAULTS: [&Row; 9] = [
    &UNKNOWN,
    &ENDS,
    &UNCLOSED,
    &WRONG_START,
    &CYCLE,
    &TOO_MANY,
    &NO_MACHINE,
    &NO_INSTANCE,
    &EMPTY_TOKEN,
];

const FILES: [&Row; 7] = [
    &TOO_DEEP,
    &LOOP,
    &NO_INCLUDE,
    &INCLUDE_FAILED,
    &BEFORE_FAILURE,
    &INCLUDED_FAULT,
    &INCLUDED_NODE,
];

const SCRIPTS: [&Row; 6] = [
    &BAD_LINE,
    &NOT_OPEN,
    &TWICE,
    &NO_ENTRY,
    &NO_NAME,
    &NO_CONDITION,
];

const SESSIONS: [&Row; 6] = [&NO_END, &TURNS, &PICKED, &AT_ENTRY, &TOKENS, &KEYWORDS];

const SECTIONS: [&Row; 6] = [
    &SPELLED,
    &BAD_TEXT,
    &BAD_VALUE,
    &NO_SECTION,
    &NO_PRINTED,
    &PRINTED_FAILED,
];

const FAILURES: [&Row; 5] = [
    &MISSING,
    &NO_SCRIPT,
    &STORE_FAILED,
    &OUTPUT_FAILED,
    &NO_WORDS,
];

// Words with options.
const LITTLE_STACK: Row = Row {
    files: &[
        (
            "m.rl",
            "%%{ machine m; action deep { fcall main; } main := 'c' @deep; }%%",
        ),
        ("t", "open s\npiece s \"ccc\"\nend s\n"),
    ],
    words: &["--stack", "2", "m.rl", "t"],
    out: "s do deep 0 call main\ns do deep 1 call main\ns do deep 2 call main\ns stop stack-full 3\ns end error 3\n",
    ..EMPTY
};

const SHORT_LOOK: Row = Row {
    files: &[
        (
            "m.rl",
            "%%{ machine m; action again { if (q) { fexec r; } } main := any* $again; }%%",
        ),
        ("t", "open s\npiece s \"abc\"\npick s again 3 1=0\nend s\n"),
    ],
    words: &["m.rl", "--look=1", "t"],
    out: "s do again 0\ns do again 1\ns do again 2 exec 0\ns stop back 3\ns end error 3\n",
    ..EMPTY
};

const SHORT_TOKEN: Row = Row {
    files: &[
        (
            "m.rl",
            "%%{ machine m; action w { } main := |* [a-z]+ => w; *|; }%%",
        ),
        ("t", "open s\npiece s \"abcd\"\nend s\n"),
    ],
    words: &["m.rl", "t", "--token", "3"],
    out: "s stop overlong 3\ns end error 3\n",
    ..EMPTY
};

const NAMED: Row = Row {
    files: &[
        (
            "m.rl",
            "%%{ machine m; main := 'a'; machine n; action x { } main := 'b' $x; }%%",
        ),
        ("t", "open s\npiece s \"b\"\nend s\n"),
    ],
    words: &["--machine", "n", "m.rl", "t"],
    out: "s do x 0\ns end final 1\n",
    ..EMPTY
};

const ABSENT: Row = Row {
    files: &[
        ("m.rl", "%%{ machine m; main := 'a'; }%%"),
        ("t", "open s\nend s\n"),
    ],
    words: &["--machine", "n", "m.rl", "t"],
    status: Status::Source,
    err: "m.rl:1:1: F4 no machine\n",
    ..EMPTY
};

const UNMADE: Row = Row {
    files: &[
        (
            "m.rl",
            "%%{ machine m; main := 'a'; machine n; x = 'b'; }%%",
        ),
        ("t", "open s\nend s\n"),
    ],
    words: &["--machine", "n", "m.rl", "t"],
    status: Status::Source,
    err: "m.rl:1:1: F18 no instance\n",
    ..EMPTY
};

const NAMED_SECTION: Row = Row {
    files: &[("x.c", SECTION), ("t", "open s\nend s\n")],
    words: &["--machine", "n", "x.c", "t"],
    status: Status::Tables,
    err: "x.c: no section\n",
    ..EMPTY
};

const WIDE_STACK: Row = Row {
    words: &["--stack", "1025", "m.rl", "t"],
    status: Status::Usage,
    out: "",
    err: "usage\n",
    ..RAN
};

const RENEWED: Row = Row {
    files: &[("x.c", SECTION)],
    words: &["--upgrade", "y.c", "x.c"],
    ..EMPTY
};

const NOT_RENEWED: Row = Row {
    store_fails: 3,
    status: Status::Outside,
    err: "y.c: store failed\n",
    ..RENEWED
};

const NOTHING_TO_RENEW: Row = Row {
    files: &[],
    status: Status::Outside,
    err: "x.c: missing\n",
    ..RENEWED
};

const SOURCE_TO_RENEW: Row = Row {
    words: &["--upgrade", "y.c", "m.rl"],
    status: Status::Usage,
    out: "",
    err: "usage\n",
    ..RAN
};

const OPTIONS: [&Row; 12] = [
    &LITTLE_STACK,
    &SHORT_LOOK,
    &SHORT_TOKEN,
    &NAMED,
    &ABSENT,
    &UNMADE,
    &NAMED_SECTION,
    &WIDE_STACK,
    &RENEWED,
    &NOT_RENEWED,
    &NOTHING_TO_RENEW,
    &SOURCE_TO_RENEW,
];

const MADE_SOURCE: &str = r"%%{
machine made;
action word { }
action number { }
action blank { }
main := |*
  [a-z]+ => word;
  [0-9]+ => number;
  [ \n] => blank;
*|;
}%%
";

const MADE: Row = Row {
    files: &[("made.rl", MADE_SOURCE)],
    words: &["--make", "1000", "made.rl"],
    out: "make 1000: 7890 bytes, 1974 pieces, 4000 tokens, final\n",
    ..EMPTY
};

const MADE_THREE: Row = Row {
    words: &["--make", "3", "made.rl"],
    out: "make 3: 15 bytes, 5 pieces, 12 tokens, final\n",
    ..MADE
};

const MADE_STOPPED: Row = Row {
    words: &["--make", "3", "m.rl"],
    out: "make 3: 15 bytes, 5 pieces, 0 tokens, error\n",
    ..RAN
};

const MADE_OF_NOTHING: Row = Row {
    words: &["--make", "0", "made.rl"],
    status: Status::Usage,
    out: "",
    err: "usage\n",
    ..MADE
};

const MADE_WITHOUT_FILE: Row = Row {
    words: &["--make", "3", "x.c"],
    status: Status::Outside,
    out: "",
    err: "x.c: missing\n",
    ..MADE
};

const MADE_UNHEARD: Row = Row {
    out_fails: 1,
    status: Status::Outside,
    out: "",
    err: "output failed\n",
    ..MADE
};

const INPUTS: [&Row; 6] = [
    &MADE,
    &MADE_THREE,
    &MADE_STOPPED,
    &MADE_OF_NOTHING,
    &MADE_WITHOUT_FILE,
    &MADE_UNHEARD,
];

// A row that reads the standard input, whether its bytes come one by one, and the call of it that fails.
struct Fed {
    row: Row,
    by_bytes: bool,
    input_fails: u64,
}

const STREAMED: Fed = Fed {
    row: Row {
        words: &["m.rl", "--input", "main"],
        out: "input do x 0\ninput do x 1\ninput end final 2\n",
        ..RAN
    },
    by_bytes: false,
    input_fails: 0,
};

const STREAMED_BY_BYTES: Fed = Fed {
    by_bytes: true,
    ..STREAMED
};

const STREAMED_FROM_NOWHERE: Fed = Fed {
    row: Row {
        words: &["m.rl", "--input", "word"],
        status: Status::Script,
        err: "input:1: no entry\n",
        ..EMPTY
    },
    ..STREAMED
};

const STREAMED_WITHOUT_FILE: Fed = Fed {
    row: Row {
        words: &["x.rl", "--input", "main"],
        status: Status::Outside,
        err: "x.rl: missing\n",
        ..EMPTY
    },
    ..STREAMED
};

const CUT_OFF: Fed = Fed {
    row: Row {
        words: &["m.rl", "--input", "main"],
        status: Status::Outside,
        out: "input do x 0\n",
        err: "input failed\n",
        ..EMPTY
    },
    by_bytes: true,
    input_fails: 2,
};

const UNHEARD_INPUT: Fed = Fed {
    row: Row {
        words: &["m.rl", "--input", "main"],
        out_fails: 1,
        status: Status::Outside,
        err: "output failed\n",
        ..EMPTY
    },
    ..STREAMED
};

const FED: [&Fed; 6] = [
    &STREAMED,
    &STREAMED_BY_BYTES,
    &STREAMED_FROM_NOWHERE,
    &STREAMED_WITHOUT_FILE,
    &CUT_OFF,
    &UNHEARD_INPUT,
];

// What a replay left.
#[derive(Drop)]
struct Left {
    status: Status,
    out: MemSink,
    err: MemSink,
}

// A store with the files, whose call with this number fails; the first calls write the files.
fn store_of(alloc: Global, row: &Row) -> Result<MemStore, Fail> {
    let mut store = MemStore::new(alloc, Vec::new(alloc), vec![in alloc; row.store_fails]?);
    for (name, text) in row.files.iter() {
        store.write(name, text.as_bytes())?;
    }
    Ok(store)
}

fn words_of(alloc: Global, row: &Row) -> Result<Vec<Text>, Fail> {
    let mut words = Vec::new(alloc);
    for word in row.words.iter() {
        words.push(Text::new(word.to_string(alloc)?))?;
    }
    Ok(words)
}

// The run of a row over an input; the first call of the error output fails where it is broken.
fn run_over(alloc: Global, row: &Row, mut input: MemSource, err_fails: u64) -> Result<Left, Fail> {
    let words = words_of(alloc, row)?;
    let mut store = store_of(alloc, row)?;
    let mut out = MemSink::new(alloc, vec![in alloc; row.out_fails]?);
    let mut err = MemSink::new(alloc, vec![in alloc; err_fails]?);
    let status = replay(alloc, &words, &mut store, &mut input, &mut out, &mut err);
    Ok(Left { status, out, err })
}

// The replay of a row, without an input.
fn replayed(alloc: Global, row: &Row, err_fails: u64) -> Result<Left, Fail> {
    let input = MemSource::new(Vec::new(alloc), 1, Vec::new(alloc));
    run_over(alloc, row, input, err_fails)
}

// Whether what was left is what a row is to leave.
fn is_left(left: &Left, row: &Row) -> bool {
    left.status == row.status
        && left.out.bytes() == row.out.as_bytes()
        && left.err.bytes() == row.err.as_bytes()
}

// Whether a row comes as it is to.
fn comes(alloc: Global, row: &Row) -> Result<bool, Fail> {
    let left = replayed(alloc, row, 0)?;
    Ok(is_left(&left, row))
}

// Whether a row comes as it is to over the input `ab`.
fn comes_over(alloc: Global, fed: &Fed) -> Result<bool, Fail> {
    let bytes = vec![in alloc; b'a', b'b']?;
    let chunk = if fed.by_bytes { 1 } else { 4096 };
    let input = MemSource::new(bytes, chunk, vec![in alloc; fed.input_fails]?);
    let left = run_over(alloc, &fed.row, input, 0)?;
    Ok(is_left(&left, &fed.row))
}

// The place of the first row that does not come as it is to.
fn first_wrong(alloc: Global, rows: &[&Row]) -> Result<Option<usize>, Fail> {
    for (place, row) in rows.iter().enumerate() {
        if !comes(alloc, row)? {
            return Ok(Some(place));
        }
    }
    Ok(None)
}

#[test]
fn expressions_come(rt: HostRuntime) -> Result<(), Fail> {
    assert_eq!(rt; first_wrong(rt.alloc(), &EXPRESSIONS)?, None);
    Ok(())
}

#[test]
fn operators_come(rt: HostRuntime) -> Result<(), Fail> {
    assert_eq!(rt; first_wrong(rt.alloc(), &OPERATORS)?, None);
    Ok(())
}

#[test]
fn names_come(rt: HostRuntime) -> Result<(), Fail> {
    assert_eq!(rt; first_wrong(rt.alloc(), &NAMES)?, None);
    Ok(())
}

#[test]
fn faults_come(rt: HostRuntime) -> Result<(), Fail> {
    assert_eq!(rt; first_wrong(rt.alloc(), &FAULTS)?, None);
    Ok(())
}

#[test]
fn files_come(rt: HostRuntime) -> Result<(), Fail> {
    assert_eq!(rt; first_wrong(rt.alloc(), &FILES)?, None);
    Ok(())
}

#[test]
fn scripts_come(rt: HostRuntime) -> Result<(), Fail> {
    assert_eq!(rt; first_wrong(rt.alloc(), &SCRIPTS)?, None);
    Ok(())
}

#[test]
fn sessions_come(rt: HostRuntime) -> Result<(), Fail> {
    assert_eq!(rt; first_wrong(rt.alloc(), &SESSIONS)?, None);
    Ok(())
}

#[test]
fn sections_come(rt: HostRuntime) -> Result<(), Fail> {
    assert_eq!(rt; first_wrong(rt.alloc(), &SECTIONS)?, None);
    Ok(())
}

#[test]
fn options_come(rt: HostRuntime) -> Result<(), Fail> {
    assert_eq!(rt; first_wrong(rt.alloc(), &OPTIONS)?, None);
    Ok(())
}

#[test]
fn inputs_come(rt: HostRuntime) -> Result<(), Fail> {
    assert_eq!(rt; first_wrong(rt.alloc(), &INPUTS)?, None);
    Ok(())
}

#[test]
fn streams_come(rt: HostRuntime) -> Result<(), Fail> {
    for fed in FED.iter() {
        assert!(rt; comes_over(rt.alloc(), fed)?);
    }
    Ok(())
}

#[test]
fn failures_come(rt: HostRuntime) -> Result<(), Fail> {
    assert_eq!(rt; first_wrong(rt.alloc(), &FAILURES)?, None);
    Ok(())
}

// A broken error output changes no status.
#[test]
fn status_stays(rt: HostRuntime) -> Result<(), Fail> {
    let left = replayed(rt.alloc(), &MISSING, 1)?;
    assert_eq!(rt; left.status, Status::Outside);
    assert_eq!(rt; left.err.bytes(), b"".as_slice());
    Ok(())
}
