//! Which file a text is, said once: the grammar with what each of its lines plays. No code but laws,
//! which say that this is the grammar of `fm_grammar` with the meaning of `fm_meaning`.
#![tactic(auto)]

mod laws;

pub use laws::{accepted_texts_say_their_scores, each_text_is_one_file};
