//! The classes of bytes, the words and the modes by which action code is read.
#![tactic(auto)]

mod bytes;
mod mode;
mod word;

pub use bytes::{
    are_blanks, behind_blanks, blanks_len, cut_word, digits_len, in_word, is_blank, is_digit,
    word_len,
};
pub use mode::{braces, is_left, is_outside, mode_behind};
pub use word::code_word;
