// From the text of a site's file to its words.
#![tactic(auto)]

mod reader;
mod words;

pub use words::words_of_text;
