//! Stored bodies: what a body may be shown, what it may answer, and the book that keeps them.
#![tactic(auto)]

mod act;
mod body;
mod book;
mod book_error;
mod display;
mod promise;
mod promise_book;
mod spare_frames;

pub use act::{Act, Frame};
pub use body::{Asks, Body};
pub use book::{Bodies, Book};
pub use book_error::{BookCause, BookError};
pub use promise::Promise;
pub use promise_book::PromiseBook;
pub use spare_frames::SpareFrames;
