//! Why beans and interceptors are taken or left: the verdict on each where a bean of a type with some qualifiers or of a name
//! is wanted, or the interceptors of a place; by which bean another is specialized; and which declared name is near to a
//! wanted one.
#![tactic(auto)]

mod choice;
mod interceptors;
mod known;
mod named;
mod near;
mod priority;
mod replacer;
mod rivals;
mod verdict;

pub use choice::verdicts_on_choice;
pub use interceptors::verdicts_on_interceptors;
pub use named::verdicts_on_name;
pub use near::KnownNames;
pub use replacer::replacer_of;
pub use verdict::{Disabled, InterceptorVerdict, Verdict};
