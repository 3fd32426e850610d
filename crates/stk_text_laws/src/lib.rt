//! Laws of texts: of tokens and skimming, of the trees that are read, of lawful texts of records, and of candidates.
#![tactic(auto)]

mod candidates;
mod cuts;
mod found;
mod layouts;
mod semicolons;
mod stretches;
mod texts;
mod words;

pub use candidates::{each_text_has_candidates, one_list_of_candidates, script_or_too_few};
pub use cuts::{each_punctuator_is_fixed, each_text_has_a_cut};
pub use found::nodes_are_found;
pub use layouts::laid_out_by_its_tokens;
pub use semicolons::ends_at_the_first_semicolon;
pub use stretches::{one_skimming, skimming_by_stretches};
pub use texts::{each_text_has_lawful_records, one_lawful_text};
pub use words::{generating_is_no_reading, words_ask_for_one};
