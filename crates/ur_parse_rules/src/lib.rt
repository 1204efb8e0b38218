//! The rules of the language over tokens, with the law that any tokens have at most one tree; and the readers of single
//! tokens, with what is answered where something else is wanted.
#![tactic(auto)]

mod law;
mod number;
mod parse_rules_law;
mod parse_rules_place;
mod parsed;
mod place;
mod words;

pub use law::one_tree_of_lines;
pub use number::number_at;
pub use parse_rules_law::{
    one_constructor, one_declaration, one_expression, one_literal, one_module, one_quote,
    one_signature, one_statement,
};
pub use parse_rules_place::ConPlace;
pub use parsed::{MAX_LEVELS, Parsed, above, below};
pub use place::{
    boxed, bytes_equal, expect, expect_name, expect_word, peek, pushed, same, sees, sees_word,
    span, text, too_deep, unexpected,
};
pub use words::{expect_field, is_among};
