//! Tokens of texts: their bytes, lines and faults; single tokens, and turns of a list.
#![tactic(auto)]

mod at;
mod read_fault;
mod text;
mod token;
mod word;

pub use at::At;
pub use read_fault::{ReadError, ReadFault, ReadKind};
pub use text::{MAX_TEXT, check_length, line_len, shown};
pub use token::{
    Gap, Step, Token, fault, front, is, is_digit, is_letter, number_at, sign_at, token_at,
};
pub use word::{
    MAX_NAME, exactly, expect, expect_word, name_of, number_of, unwanted_token, value_of,
};
