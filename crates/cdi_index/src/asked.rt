//! Which declarations ask for a bean of a type, or for the observer methods of an event of it.
ghost use Rattle.std.specs.Prelude.{◌≡◌, ◌&&◌, option_map};
ghost use Rattle.std.specs.List.{list_any};
ghost use Rattle.cdi_model.specs.Mentions.{shown};
ghost use Rattle.cdi_postings.specs.Words.{word_at};
ghost use Rattle.cdi_index.specs.Asked.{asks_for, asks_in, event_asks, point_asks};
ghost use Rattle.cdi_index.specs.AskedAt.{is_asker, reason_of};
ghost use Rattle.cdi_index.specs.Slots.{entry_kept};

use crate::shelf::{Entry, Slots};
use cdi_effective::{default_use, required};
use cdi_model::{Decl, Decls, EventDecl, Mention, Name, PointDecl, Qual};
use cdi_postings::{Reason, Word};
use std::alloc::Global;

/// What declarations ask.
#[derive(Clone, Copy, Debug)]
pub enum Question {
    /// Which bean is right for a type, as points do.
    Choice,
    /// Which observer methods are notified of an event of a type, as bodies do that may fire one.
    Event,
}

/// For what is asked: a type, and uses of qualifiers as they are written.
#[derive(Clone, Copy)]
pub struct Asked<'a> {
    pub question: Question,
    pub name: &'a Name,
    pub uses: &'a [Qual],
}

impl<'a> Asked<'a> {
    /// The word under which those are listed that ask for it.
    pub(crate) fn word(self) -> Word
        ensures { result ≡ word_at (reason_of self.entry.question) self.entry.name.now }
    {
        Word {
            reason: match self.question {
                Question::Choice => Reason::Asks,
                Question::Event => Reason::Fires,
            },
            name: *self.name,
        }
    }
}

fn point_asks(alloc: Global, point: &PointDecl, name: &Name, uses: &[Qual]) -> bool
    ensures { result ≡ point_asks name.now uses.now point.now }
{
    if *name != point.required_type {
        return false;
    }
    let by_default = [default_use(alloc)];
    uses == required(&point.qualifiers, &by_default)
}

fn event_asks(event: &EventDecl, name: &Name, uses: &[Qual]) -> bool
    ensures { result ≡ event_asks name.now uses.now event.now }
{
    *name == event.event_type && uses == event.qualifiers.as_slice()
}

fn asks_in(alloc: Global, mention: &Mention<'_>, asked: Asked<'_>) -> bool
    ensures { result ≡ asks_in asked.entry.question asked.entry.name.now asked.entry.uses.now (shown mention.now) }
{
    match (asked.question, mention) {
        (Question::Choice, Mention::Point(_, point)) => {
            point_asks(alloc, point, asked.name, asked.uses)
        }
        (Question::Event, Mention::Event(event)) => event_asks(event, asked.name, asked.uses),
        _ => false,
    }
}

/// Whether a declaration asks for it.
#[tactic(auto, unfolding(crate::specs::Asked::asks_for))]
fn asks_for(alloc: Global, decl: &Decl, asked: Asked<'_>) -> bool
    ensures { result ≡ asks_for asked.entry.question asked.entry.name.now asked.entry.uses.now decl.now }
{
    for mention in decl.mentions() {
        if asks_in(alloc, &mention, asked) {
            return true;
        }
    }
    false
}

/// Whether what is kept is of a declaration that asks for it.
fn is_asker(alloc: Global, decls: &Decls, entry: Option<Entry<'_>>, asked: Asked<'_>) -> bool
    ensures { result ≡ is_asker decls.now asked.entry (option_map entry_kept entry.entry) }
{
    let Some(entry) = entry else {
        return false;
    };
    match decls.get(entry.key.kind, &entry.key.name) {
        Some(decl) => asks_for(alloc, decl, asked),
        None => false,
    }
}

/// Whether a declaration at one of some slots asks for it.
pub(crate) fn is_asked_at<S: Slots>(
    alloc: Global,
    decls: &Decls,
    shelved: &S,
    slots: &[u64],
    asked: Asked<'_>,
) -> bool
    ensures { result ≡ list_any (λ s. is_asker decls.now asked.entry (S.kept shelved.now s)) slots.now }
{
    for slot in slots {
        if is_asker(alloc, decls, shelved.at(*slot), asked) {
            return true;
        }
    }
    false
}
