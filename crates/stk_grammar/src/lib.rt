//! Where the trees of C stand among lexemes: expressions, declarations, statements and units, and the laws of reading
//! them.
#![tactic(auto)]

mod declarations_one_way;
mod expressions_one_way;
mod fronts;
mod lexeme;
mod punctuators;
mod statement_punctuators;
mod statement_tables;
mod tables;
mod units_one_way;

pub use declarations_one_way::{one_declaration, one_front};
pub use expressions_one_way::{one_place, one_text};
pub use fronts::{
    begins_designator, behind_more, behind_void, opens_body, optional_word_at, storage_at,
};
pub use lexeme::{lexemes_of, spans_of};
pub use punctuators::{
    basic_at, behind_assign, behind_colon, behind_comma, behind_dot, behind_left_brace,
    behind_left_bracket, behind_left_paren, behind_right_brace, behind_right_bracket,
    behind_right_paren, behind_semicolon, is_tag_word, stars_at, word_at,
};
pub use statement_punctuators::{
    begins_label, begins_static, behind_case, behind_default, behind_else, behind_first,
    behind_while, ends_section, is_semicolon, kind_at,
};
pub use statement_tables::Kind;
pub use tables::{Opener, Suffix, opener_of, suffix_left, suffix_level, suffix_of};
pub use units_one_way::one_unit;
