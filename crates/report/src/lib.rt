// What the programs share that run vectors: the input and its records in sections are read, and a line for each section says how many of them agree.
#![tactic(auto)]

pub mod input;
pub mod parts;
pub mod sections;
