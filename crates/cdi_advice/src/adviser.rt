//! What is told of a fault, by its code.
use crate::advice::Advice;
use crate::notes::Notes;
use crate::words::filled;
use crate::{beans, bodies, choices, declared, names, types, uses};
use cdi_bodies::Bodies;
use cdi_effective::Effective;
use cdi_faults::{Code, Fault, Subject};
use cdi_model::{BeanDecl, Decl, Decls, Ident, Kind, Name};
use std::alloc::{AllocError, Global};

/// What faults of a deployment are told by.
#[derive(Clone, Copy)]
pub struct Adviser<'a> {
    pub alloc: Global,
    pub decls: &'a Decls,
    /// The records of their beans, in the order of the bean list.
    pub beans: &'a [&'a Effective],
    /// The names of stored bodies that help may name.
    pub body_names: &'a [Ident],
}

/// A part of a declaration that is at fault.
#[derive(Clone, Copy)]
pub(crate) struct Part<'a> {
    pub(crate) decl: &'a Decl,
    pub(crate) subject: &'a Subject,
}

impl<'a> Adviser<'a> {
    /// What is told of a fault of a deployment with these stored bodies, by notes on other faults of the same deployment too.
    /// It takes memory for its texts and for what it notes, and time near the number of declarations and beans.
    pub fn advise<B: Bodies>(
        &self,
        notes: &mut Notes,
        book: &B,
        fault: &Fault,
    ) -> Result<Advice, AllocError> {
        match fault {
            Fault::Declared {
                code,
                kind,
                name,
                subject,
            } => match self.decls.get(*kind, name) {
                Some(decl) => self.advise_in(notes, book, *code, Part { decl, subject }),
                None => self.help("the declaration is not there any more", &[]),
            },
            Fault::NameClash(name) => names::clash(self, *name),
            Fault::NamePrefix(name, longer) => names::prefix(self, *name, *longer),
            Fault::Circular { class, producer } => beans::circle(self, notes, *class, *producer),
            Fault::SpecializedTwice {
                specialized,
                first,
                second,
            } => beans::specialized_twice(self, specialized, first, second),
        }
    }

    fn advise_in<B: Bodies>(
        &self,
        notes: &mut Notes,
        book: &B,
        code: Code,
        part: Part<'_>,
    ) -> Result<Advice, AllocError> {
        match code {
            Code::Body => bodies::unfit(self, notes, book, part),
            _ => self.advise_on_part(notes, code, part),
        }
    }

    fn advise_on_part(
        &self,
        notes: &mut Notes,
        code: Code,
        part: Part<'_>,
    ) -> Result<Advice, AllocError> {
        match code {
            Code::UnknownName => declared::unknown(self, notes, part),
            Code::Cycle => types::cycle(self, notes, part),
            Code::BadKind => types::bad_kind(self, part),
            Code::Typed => types::typed(self, part),
            Code::ScopeConflict => beans::scope_conflict(self, part),
            Code::BindingConflict => uses::conflict(self, part),
            Code::Member => uses::member(self, part),
            Code::Disposer => beans::disposer(self, part),
            Code::ConditionalDependent => beans::conditional(self),
            Code::NoBinding => self.help("list what it binds to, as bindings = [\"Log\"]", &[]),
            Code::Unsatisfied => choices::unsatisfied(self, notes, part),
            Code::Ambiguous => choices::ambiguous(self, notes, part),
            Code::Unproxyable => choices::unproxyable(self, notes, part),
            Code::Site => choices::site(self, notes, part),
            Code::NoSpecialized => beans::no_specialized(self, part),
            Code::SpecializedType => beans::specialized_type(self, part),
            Code::SpecializedName => beans::specialized_name(self),
            _ => self.see(),
        }
    }

    /// A line of help alone: a text with each `{}` replaced by the next of some words.
    pub(crate) fn help(&self, form: &str, words: &[&str]) -> Result<Advice, AllocError> {
        Ok(Advice::of_help(self.alloc, filled(self.alloc, form, words)?))
    }

    /// What is told where there is nothing to tell.
    pub(crate) fn see(&self) -> Result<Advice, AllocError> {
        self.help("see the declaration", &[])
    }

    /// The declaration of a bean, if there is one.
    pub(crate) fn bean(&self, name: &Name) -> Option<&'a BeanDecl> {
        match self.decls.get(Kind::Bean, name) {
            Some(Decl::Bean(bean)) => Some(bean),
            _ => None,
        }
    }

    /// The record of a bean, if there is one.
    pub(crate) fn record(&self, position: Option<usize>) -> Option<&'a Effective> {
        self.beans.get(position?).copied()
    }
}
