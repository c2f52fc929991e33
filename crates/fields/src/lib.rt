// Fields of lines in words: names of numbers, AD structures, monitors (docs/FORMATS.md, What `show` writes).
#![tactic(auto)]

pub mod data;
pub mod monitors;
pub mod terms;
