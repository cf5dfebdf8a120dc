// Ionogram, reflectrix and slot sheet for callers in any language: words in, words out. Each
// function answers 0, or the number of its refusal, and then leaves every lent word as it was.
#![tactic(auto)]

pub mod exports;
pub mod ionogram_words;
pub mod port_layouts;
