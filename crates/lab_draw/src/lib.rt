//! omplab draw: the page of a session in HTML and SVG: source, lanes, boxes, arrows, what was taken back or refused.
//!
//! - `page` runs a session (`session`), and draws the history that it leaves (`drawing`).
//! - `front` and `style` write the page with its source and lanes. `marks` write boxes, `strokes` arrows,
//!   `object` the words on arrows; `scale` says where each stands, and `escape` escapes markup.
//! - `harm` has the races of the history in words, and rings their boxes.
//! - `story` tells from the journal what was taken back and which undos were refused; `beside` draws these
//!   beside the steps that stand.
#![tactic(auto)]

mod beside;
mod drawing;
mod escape;
mod front;
mod harm;
mod marks;
mod object;
mod outcome;
mod scale;
mod session;
mod story;
mod strokes;
mod style;

pub use drawing::page;
pub use outcome::Page;
pub use scale::Scale;
pub use session::{Heard, hear};
