//! The texts of faults.
ghost use Rattle.std.specs.Prelude.{◌≡◌, [], ◌++◌, Some, IfOk, OnOk, OnErr};
ghost use Rattle.std.specs.BTreeMap.{insert_entry, values};
ghost use Rattle.cdi_faults.specs.TextTree.{entries_in};
ghost use Rattle.cdi_model.specs.Bytes.{byte_order};
ghost use Rattle.cdi_faults.specs.FaultText.{text_of_code, word_of_code, text_of_subject, text_of_fault, by_text, in_text_order};
ghost use Rattle.cdi_faults.specs.FaultText.{SubjectsInOrder};

use crate::fault::{Code, Fault, Subject};
use cdi_effective::BeanId;
use cdi_model::PointPlace;
use std::alloc::{AllocError, Global};
use std::collections::BTreeMap;
use std::fmt;
use std::io::Write;

impl fmt::Display for Code {
    ghost output = { λ code. Some (text_of_code code) };

    fn fmt<W: fmt::Write>(&self, f: &mut fmt::Formatter<W>) -> fmt::Result {
        f.pad(match self {
            Code::UnknownName => "F01",
            Code::Cycle => "F02",
            Code::BadKind => "F03",
            Code::Typed => "F04",
            Code::ScopeConflict => "F05",
            Code::BindingConflict => "F06",
            Code::Member => "F07",
            Code::Disposer => "F08",
            Code::ConditionalDependent => "F09",
            Code::Body => "F10",
            Code::NoBinding => "F11",
            Code::Unsatisfied => "F20",
            Code::Ambiguous => "F21",
            Code::Unproxyable => "F22",
            Code::Site => "F23",
            Code::NameClash => "F24",
            Code::NamePrefix => "F25",
            Code::Circular => "F26",
            Code::NoSpecialized => "F27",
            Code::SpecializedType => "F28",
            Code::SpecializedName => "F29",
            Code::SpecializedTwice => "F30",
        })
    }
}

impl Code {
    /// Its name, such as `UnknownName`.
    pub fn word(self) -> &'static str
        ensures { result.now ≡ word_of_code self }
    {
        match self {
            Code::UnknownName => "UnknownName",
            Code::Cycle => "Cycle",
            Code::BadKind => "BadKind",
            Code::Typed => "Typed",
            Code::ScopeConflict => "ScopeConflict",
            Code::BindingConflict => "BindingConflict",
            Code::Member => "Member",
            Code::Disposer => "Disposer",
            Code::ConditionalDependent => "ConditionalDependent",
            Code::Body => "Body",
            Code::NoBinding => "NoBinding",
            Code::Unsatisfied => "Unsatisfied",
            Code::Ambiguous => "Ambiguous",
            Code::Unproxyable => "Unproxyable",
            Code::Site => "Site",
            Code::NameClash => "NameClash",
            Code::NamePrefix => "NamePrefix",
            Code::Circular => "Circular",
            Code::NoSpecialized => "NoSpecialized",
            Code::SpecializedType => "SpecializedType",
            Code::SpecializedName => "SpecializedName",
            Code::SpecializedTwice => "SpecializedTwice",
        }
    }
}

impl fmt::Display for Subject {
    ghost output = { λ subject. Some (text_of_subject subject) };

    fn fmt<W: fmt::Write>(&self, f: &mut fmt::Formatter<W>) -> fmt::Result {
        match self {
            Subject::Whole => Ok(()),
            Subject::Type(name) => write!(f, "type {name}"),
            Subject::Used(kind, name) => {
                let kind = kind.declared_as();
                write!(f, "{kind} {name}")
            }
            Subject::Stereotype(name) => write!(f, "stereotype {name}"),
            Subject::Extends(name) => write!(f, "extends {name}"),
            Subject::Implements(name) => write!(f, "implements {name}"),
            Subject::Class => write!(f, "class"),
            Subject::Typed { producer, name } => match producer {
                Some(producer) => write!(f, "producer {producer} typed {name}"),
                None => write!(f, "typed {name}"),
            },
            Subject::Producer(name) => write!(f, "producer {name}"),
            Subject::Disposer(name) => write!(f, "disposer {name}"),
            Subject::Observer(name) => write!(f, "observer {name}"),
            Subject::Use(kind, qual) => {
                let kind = kind.declared_as();
                write!(f, "{kind} {qual}")
            }
            Subject::Point { place, name } => match place {
                PointPlace::Constructor => write!(f, "point {name}"),
                PointPlace::Producer(method) => write!(f, "producer {method} param {name}"),
                PointPlace::Observer(method) => write!(f, "observer {method} param {name}"),
            },
            Subject::Part(place) => write!(f, "{place}"),
            Subject::Call {
                place,
                point,
                method,
            } => write!(f, "{place} call {point}.{method}"),
        }
    }
}

impl Subject {
    /// Appends its text.
    fn push_text(&self, text: &mut Vec<u8>) -> Result<(), AllocError>
        ensures { OnOk result (text.new.items ≡ text.old.items ++ text_of_subject self.now) }
    {
        write!(text, "{self}").map_err(|_| AllocError)
    }
}

impl fmt::Display for Fault {
    ghost output = { λ fault. Some (text_of_fault fault) };

    #[tactic(auto, using(crate::proofs::TextLemmas::behind_space_of))]
    fn fmt<W: fmt::Write>(&self, f: &mut fmt::Formatter<W>) -> fmt::Result {
        let code = self.code();
        match self {
            Fault::Declared {
                kind,
                name,
                subject,
                ..
            } => {
                if matches!(subject, Subject::Whole) {
                    write!(f, "{code} {kind} {name}")
                } else {
                    write!(f, "{code} {kind} {name} {subject}")
                }
            }
            Fault::NameClash(name) => write!(f, "{code} name {name}"),
            Fault::NamePrefix(name, longer) => write!(f, "{code} name {name} {longer}"),
            Fault::Circular { class, producer } => {
                let id = BeanId {
                    class: *class,
                    producer: *producer,
                };
                write!(f, "{code} bean {id}")
            }
            Fault::SpecializedTwice {
                specialized,
                first,
                second,
            } => write!(f, "{code} bean {specialized} {first} {second}"),
        }
    }
}

impl Fault {
    /// Appends the text of the fault: its code, the kind and the name of the declaration, and its subject where it is not
    /// the declaration as a whole, separated by single spaces. It takes memory for the text; at `Err` nothing is appended.
    pub fn push_text(&self, text: &mut Vec<u8>) -> Result<(), AllocError>
        ensures ok { OnOk result (text.new.items ≡ text.old.items ++ text_of_fault self.now) }
        ensures err { OnErr result (text.new.items ≡ text.old.items) }
    {
        let own = format!(in *text.allocator(); "{self}")?;
        text.extend_from_slice(own.as_bytes())
    }
}

/// Subjects in the byte order of their texts, each once. It takes memory where there are several.
pub fn in_text_order(alloc: Global, subjects: Vec<Subject>) -> Result<Vec<Subject>, AllocError>
    ensures value { IfOk result (λ list. list.items ≡ in_text_order subjects.items) }
    ensures order { SubjectsInOrder }
{
    if subjects.len() < 2 {
        return Ok(subjects);
    }
    let tree = by_text(alloc, subjects)?;
    subjects_in(alloc, tree)
}

fn by_text(alloc: Global, subjects: Vec<Subject>) -> Result<BTreeMap<Vec<u8>, Subject>, AllocError>
    ensures { IfOk result (λ tree. entries_in tree ≡ by_text subjects.items) }
{
    let mut tree = BTreeMap::new(alloc);
    for subject in subjects {
        put(alloc, &mut tree, subject)?;
    }
    Ok(tree)
}

/// Puts a subject at its text, in the place of one that is there.
fn put(
    alloc: Global,
    tree: &mut BTreeMap<Vec<u8>, Subject>,
    subject: Subject,
) -> Result<(), AllocError>
    ensures { OnOk result (entries_in tree.new ≡ insert_entry byte_order (entries_in tree.old) (text_of_subject subject) subject) }
{
    let mut text = Vec::new(alloc);
    subject.push_text(&mut text)?;
    tree.insert(text, subject)?;
    Ok(())
}

/// The subjects, in the order of their texts.
fn subjects_in(alloc: Global, tree: BTreeMap<Vec<u8>, Subject>) -> Result<Vec<Subject>, AllocError>
    ensures { IfOk result (λ list. list.items ≡ values tree) }
{
    tree.into_values().collect(alloc)
}
