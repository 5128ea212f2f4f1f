//! The container: present declarations that are edited while it runs, questions about them, and the instances that it
//! makes, calls and destroys.
#![tactic(auto)]

mod answer;
mod asked;
mod batch;
mod beans;
mod container;
mod deployment;
mod edited;
mod found;
mod instances;
mod points;
mod printing;

pub use answer::{Answer, PutDone, WorkDone};
pub use batch::{BATCH_LIMIT, BatchError};
pub use beans::Beans;
pub use cdi_bodies::{
    Act, Asks, Bodies, Body, Book, BookCause, BookError, Frame, Promise, PromiseBook,
};
pub use cdi_contexts::{Actor, InstanceId, Owner};
pub use cdi_effective::{BeanId, Effective};
pub use cdi_faults::{Code, Fault, Subject};
pub use cdi_index::Counts;
pub use cdi_legal::{Entries, Entry};
pub use cdi_lines::{Command, Edit, Said, read_line, read_quals};
pub use cdi_model::{
    Arguments, Attributes, BeanDecl, BeanPlace, BindingDecl, CallDecl, Decl, DisposerDecl, Error,
    EventDecl, Failure, Form, Ident, InterceptorDecl, Iter as DeclIter, Kind, MemberDecl, Members,
    MethodDecl, Name, Named, ObserverDecl, Outcome, PartDecl, PartPlace, PointDecl, PointPlace,
    ProducerDecl, Qual, QualifierDecl, Quals, Refusal, Scope, Seq, StereotypeDecl, TypeDecl,
    UseKind, Val,
};
pub use cdi_observe::{ObserverId, Shared};
pub use cdi_resolve::Choice;
pub use cdi_scene::{Notified, Place, Seat};
pub use cdi_text::{Explanation, Path, Step, explain_refusal, read_decl, read_qualifier};
pub use cdi_trace::{NamedEntries, NamedEntry, NamedInstance, NamedInstances};
pub use container::{Container, history_laws};
pub use points::{InjectionPoint, PointIter, Points};
