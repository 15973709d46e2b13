// The run (document 01, "States and edges" and "The image", last paragraphs): from the words of an image, where they lie, and a text, the live
// states and the ends.

#![tactic(auto)]

pub mod ends;
pub mod live;
pub mod rounds;
pub mod rows;
pub mod steps;
pub mod stretch;
pub mod table;
mod widths;
