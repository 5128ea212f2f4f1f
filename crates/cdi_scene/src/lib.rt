//! A deployment as its runs see it, once every question about it was answered: what is chosen for each injection point,
//! which interceptors are at each place, and who observes each event. Everything is named by its position, so a run looks
//! nothing up by a name and takes no memory for what it finds here.
#![tactic(auto)]

mod find;
mod place;
mod scene;

pub use place::{Place, Seat, position_at};
pub use scene::{
    Bean, CallSite, Form, Injection, Interceptor, Invocable, Managed, Notified, Observer, Part,
    Product, Scene, Via,
};
