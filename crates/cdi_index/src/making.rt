//! What is made of a declaration.
ghost use Rattle.std.specs.Prelude.{◌≡◌, ◌∷◌, ◌++◌, [], flat_map, map, option_map, Some, IfOk, OnOk};
ghost use Rattle.std.specs.Option.{option_to_list};
ghost use Rattle.cdi_model.specs.declared.decl.Kind.TheVariants as kinds;
ghost use Rattle.cdi_model.specs.DeclKey.{key_at};
ghost use Rattle.cdi_effective.specs.Disposers.{as_bean};
ghost use Rattle.cdi_effective.specs.Qualifiers.{default_use};
ghost use Rattle.cdi_model.specs.Mentions.{mentions, shown};
ghost use Rattle.cdi_model.specs.Quals.{name_of_use};
ghost use Rattle.cdi_postings.specs.declared.word.Reason.TheVariants as reasons;
ghost use Rattle.cdi_postings.specs.Words.{word_at};
ghost use Rattle.cdi_match.specs.Filling.{as_binding};
ghost use Rattle.cdi_match.specs.Locality.{binding_reads};
ghost use Rattle.cdi_index.specs.Made.{intercepted_reads, made_of, made_of_bean, made_of_binding, made_of_interceptor, made_of_type};
ghost use Rattle.cdi_index.specs.Made.{words_named, words_named_in, words_of, words_of_event, words_of_observer, words_of_point, words_of_record};
ghost use Rattle.cdi_index.specs.Made.{serves_as_alternative, words_as_alternative, words_intercepting, words_of_bindings, words_written_in};

use crate::next_types::NextTypes;
use cdi_effective::{
    Closures, Effective, default_use, own_records_of, reads_of, replaced_by, required,
};
use cdi_match::{push_uses, types_brought};
use cdi_model::{
    Decl, DeclKey, Decls, EventDecl, Kind, Mention, Name, ObserverDecl, PointDecl, Qual, Seq,
    UseKind,
};
use cdi_postings::{Reason, Word};
use std::alloc::{AllocError, Global};

/// What a declaration gives.
#[derive(Drop)]
pub(crate) enum Given {
    /// The types of a type.
    Types(Seq<Name>),
    /// The records that a bean declaration has by itself.
    Records(Seq<Effective>),
    /// Nothing but words.
    Nothing,
}

/// What is made of a declaration, and what that read.
pub(crate) struct Made {
    pub(crate) reads: Seq<DeclKey>,
    /// The classes of the beans that it replaces.
    pub(crate) replaces: Seq<Name>,
    /// Under what it is listed beside what it reads and replaces.
    pub(crate) words: Seq<Word>,
    pub(crate) given: Given,
}

impl Drop for Made {
    fn drop(self) {
        let Made {
            reads: _,
            replaces: _,
            words: _,
            given: _,
        } = self;
    }
}

/// The keys of a kind with some names.
fn keys_of_names(alloc: Global, kind: Kind, names: &[Name]) -> Result<Seq<DeclKey>, AllocError>
    ensures { IfOk result (λ keys. keys ≡ map (key_at kind) names.now) }
{
    let mut keys = Seq::new(alloc);
    for name in names {
        keys.push(DeclKey { kind, name: *name })?;
    }
    Ok(keys)
}

/// The keys of the types of some bindings.
fn keys_of_bindings(alloc: Global, bindings: &[Qual]) -> Result<Seq<DeclKey>, AllocError>
    ensures { IfOk result (λ keys. keys ≡ map (λ u. key_at kinds.Binding (name_of_use u)) bindings.now) }
{
    let mut keys = Seq::new(alloc);
    for binding in bindings {
        keys.push(DeclKey {
            kind: Kind::Binding,
            name: binding.name,
        })?;
    }
    Ok(keys)
}

/// Makes the types of a type.
fn make_types(alloc: Global, types: &NextTypes<'_>, name: &Name) -> Result<Made, AllocError>
    ensures { IfOk result (λ made. made ≡ made_of_type types.now.decls.now name.now) }
{
    let types = types.types_of(alloc, *name)?;
    let reads = keys_of_names(alloc, Kind::Type, types.as_slice())?;
    Ok(Made {
        reads,
        replaces: Seq::new(alloc),
        words: Seq::new(alloc),
        given: Given::Types(Seq::from_vec(types)),
    })
}

/// Whether a bean is an enabled alternative, or an enabled product of one.
pub(crate) fn serves_as_alternative(bean: &Effective) -> bool
    ensures { result ≡ serves_as_alternative bean.now }
{
    bean.is_enabled && (bean.is_alternative || bean.is_of_alternative)
}

/// Appends the words of a record.
fn push_record_words(record: &Effective, words: &mut Vec<Word>) -> Result<(), AllocError>
    ensures { OnOk result (words.new.items ≡ words.old.items ++ words_of_record record.now) }
{
    push_words(Reason::HasType, record.types.as_slice(), words)?;
    push_name_word(record.name, words)?;
    push_use_words(Reason::Qualifies, record.qualifiers.as_slice(), words)?;
    push_words_of_class(record, words)?;
    Ok(())
}

/// Appends the word of the name of a record, if it has one.
fn push_name_word(name: Option<Name>, words: &mut Vec<Word>) -> Result<(), AllocError>
    ensures { OnOk result (words.new.items ≡ words.old.items ++ map (word_at reasons.HasName) (option_to_list name)) }
{
    if let Some(name) = name {
        words.push(Word {
            reason: Reason::HasName,
            name,
        })?;
    }
    Ok(())
}

/// Appends the words of the bindings of its class, and those of its types as an alternative.
fn push_words_of_class(record: &Effective, words: &mut Vec<Word>) -> Result<(), AllocError>
    ensures { OnOk result (words.new.items ≡ words.old.items ++ (words_of_bindings record.now.bindings ++ words_as_alternative record.now)) }
{
    push_use_words(Reason::Binds, record.bindings.as_slice(), words)?;
    if serves_as_alternative(record) {
        push_words(Reason::HasTypeAsAlternative, record.types.as_slice(), words)?;
    }
    Ok(())
}

/// Appends the words of some uses.
fn push_use_words(reason: Reason, uses: &[Qual], words: &mut Vec<Word>) -> Result<(), AllocError>
    ensures { OnOk result (words.new.items ≡ words.old.items ++ map (λ u. word_at reason (name_of_use u)) uses.now) }
{
    for qual in uses {
        words.push(Word {
            reason,
            name: qual.name,
        })?;
    }
    Ok(())
}

/// Appends the words of some names.
fn push_words(reason: Reason, names: &[Name], words: &mut Vec<Word>) -> Result<(), AllocError>
    ensures { OnOk result (words.new.items ≡ words.old.items ++ map (word_at reason) names.now) }
{
    for name in names {
        words.push(Word {
            reason,
            name: *name,
        })?;
    }
    Ok(())
}

/// Appends the words of a point: the type and the qualifiers for which it asks.
fn push_point_words(
    alloc: Global,
    point: &PointDecl,
    words: &mut Vec<Word>,
) -> Result<(), AllocError>
    ensures { OnOk result (words.new.items ≡ words.old.items ++ words_of_point point.now) }
{
    words.push(Word {
        reason: Reason::Asks,
        name: point.required_type,
    })?;
    let by_default = [default_use(alloc)];
    push_use_words(
        Reason::Qualifies,
        required(&point.qualifiers, &by_default),
        words,
    )
}

/// Appends the words of an event that may be fired: its type and its qualifiers.
fn push_event_words(event: &EventDecl, words: &mut Vec<Word>) -> Result<(), AllocError>
    ensures { OnOk result (words.new.items ≡ words.old.items ++ words_of_event event.now) }
{
    words.push(Word {
        reason: Reason::Fires,
        name: event.event_type,
    })?;
    push_use_words(Reason::Qualifies, event.qualifiers.as_slice(), words)
}

/// Appends the word of a binding.
fn push_binding_word(binding: &Qual, words: &mut Vec<Word>) -> Result<(), AllocError>
    ensures { OnOk result (words.new.items ≡ words.old.items ++ word_at reasons.Binds (name_of_use binding.now) ∷ []) }
{
    words.push(Word {
        reason: Reason::Binds,
        name: binding.name,
    })?;
    Ok(())
}

/// Appends the words of what a declaration names in a place.
fn push_named_words(
    alloc: Global,
    mention: &Mention<'_>,
    words: &mut Vec<Word>,
) -> Result<(), AllocError>
    ensures { OnOk result (words.new.items ≡ words.old.items ++ words_named_in (shown mention.now)) }
{
    match mention {
        Mention::Point(_, point) => push_point_words(alloc, point, words),
        Mention::Event(event) => push_event_words(event, words),
        Mention::Use(UseKind::Binding, binding) => push_binding_word(binding, words),
        _ => Ok(()),
    }
}

/// Appends the words of what a declaration names in its places.
fn push_words_in_places(alloc: Global, decl: &Decl, words: &mut Vec<Word>) -> Result<(), AllocError>
    ensures { OnOk result (words.new.items ≡ words.old.items ++ flat_map words_named_in (mentions decl.now)) }
{
    for mention in decl.mentions() {
        push_named_words(alloc, &mention, words)?;
    }
    Ok(())
}

/// The word of the name that a declaration writes in a place, if it writes one there.
fn written_word(mention: &Mention<'_>) -> Option<Word>
    ensures { option_to_list result ≡ words_written_in (shown mention.now) }
{
    let (kind, name) = match mention {
        Mention::Type(_, name) => (Kind::Type, **name),
        Mention::Use(kind, used) => (kind.declared_as(), used.name),
        Mention::Stereotype(name) => (Kind::Stereotype, **name),
        Mention::Point(_, point) => (Kind::Type, point.required_type),
        _ => return None,
    };
    Some(Word {
        reason: Reason::Writes(kind),
        name,
    })
}

/// Appends the words of the names that a declaration writes.
fn push_written_words(decl: &Decl, words: &mut Vec<Word>) -> Result<(), AllocError>
    ensures { OnOk result (words.new.items ≡ words.old.items ++ flat_map words_written_in (mentions decl.now)) }
{
    for mention in decl.mentions() {
        if let Some(word) = written_word(&mention) {
            words.push(word)?;
        }
    }
    Ok(())
}

/// Appends the words of what a declaration names.
#[tactic(auto, unfolding(crate::specs::Made::words_named))]
fn push_words_named(alloc: Global, decl: &Decl, words: &mut Vec<Word>) -> Result<(), AllocError>
    ensures { OnOk result (words.new.items ≡ words.old.items ++ words_named decl.now) }
{
    push_words_in_places(alloc, decl, words)?;
    push_written_words(decl, words)
}

/// Appends the words of some records.
fn push_words_of_records(records: &[Effective], words: &mut Vec<Word>) -> Result<(), AllocError>
    ensures { OnOk result (words.new.items ≡ words.old.items ++ flat_map words_of_record records.now) }
{
    for record in records {
        push_record_words(record, words)?;
    }
    Ok(())
}

/// Appends the words of an observer method: the type that it observes and its qualifiers.
fn push_observer_words(observer: &ObserverDecl, words: &mut Vec<Word>) -> Result<(), AllocError>
    ensures { OnOk result (words.new.items ≡ words.old.items ++ words_of_observer observer.now) }
{
    words.push(Word {
        reason: Reason::Observes,
        name: observer.event_type,
    })?;
    push_use_words(Reason::Qualifies, observer.qualifiers.as_slice(), words)
}

/// Appends the words of some observer methods.
fn push_words_of_observers(
    observers: &[ObserverDecl],
    words: &mut Vec<Word>,
) -> Result<(), AllocError>
    ensures { OnOk result (words.new.items ≡ words.old.items ++ flat_map words_of_observer observers.now) }
{
    for observer in observers {
        push_observer_words(observer, words)?;
    }
    Ok(())
}

/// The words of a bean declaration with some records.
fn words_of(
    alloc: Global,
    records: &[Effective],
    decl: &Decl,
    observers: &[ObserverDecl],
) -> Result<Vec<Word>, AllocError>
    ensures { IfOk result (λ words. words.items ≡ words_of records.now decl.now observers.now) }
{
    let mut words = Vec::new(alloc);
    push_words_of_records(records, &mut words)?;
    push_words_of_observers(observers, &mut words)?;
    push_words_named(alloc, decl, &mut words)?;
    Ok(words)
}

/// Makes the records of a declaration, if it is that of a bean.
fn make_records(
    alloc: Global,
    types: &NextTypes<'_>,
    decl: &Decl,
) -> Result<Option<Made>, AllocError>
    ensures { IfOk result (λ made. made ≡ option_map (made_of_bean types.now.decls.now) (as_bean (Some decl.now))) }
{
    let Decl::Bean(bean) = decl else {
        return Ok(None);
    };
    let records = own_records_of(alloc, types.decls, types, bean)?;
    let reads = reads_of(alloc, types.decls, types, bean)?;
    let replaces = replaced_by(alloc, types.decls, decl)?;
    let words = words_of(alloc, &records, decl, bean.observers.as_slice())?;
    Ok(Some(Made {
        reads: Seq::from_vec(reads),
        replaces: Seq::from_vec(replaces),
        words: Seq::from_vec(words),
        given: Given::Records(Seq::from_vec(records)),
    }))
}

/// The types of the bindings of an interceptor.
fn intercepted_reads(alloc: Global, decl: &Decl) -> Result<Seq<DeclKey>, AllocError>
    ensures { IfOk result (λ keys. keys ≡ intercepted_reads decl.now) }
{
    match decl {
        Decl::Interceptor(interceptor) => keys_of_bindings(alloc, interceptor.bindings.as_slice()),
        _ => Ok(Seq::new(alloc)),
    }
}

/// Appends the words of the bindings of an interceptor, by which chains find it.
fn push_intercepting_words(decl: &Decl, words: &mut Vec<Word>) -> Result<(), AllocError>
    ensures { OnOk result (words.new.items ≡ words.old.items ++ words_intercepting decl.now) }
{
    match decl {
        Decl::Interceptor(interceptor) => {
            push_use_words(Reason::Intercepts, interceptor.bindings.as_slice(), words)
        }
        _ => Ok(()),
    }
}

/// Makes the words of an interceptor declaration.
fn make_words(alloc: Global, decl: &Decl) -> Result<Made, AllocError>
    ensures { IfOk result (λ made. made ≡ made_of_interceptor decl.now) }
{
    let mut words = Vec::new(alloc);
    push_intercepting_words(decl, &mut words)?;
    push_words_named(alloc, decl, &mut words)?;
    Ok(Made {
        reads: intercepted_reads(alloc, decl)?,
        replaces: Seq::new(alloc),
        words: Seq::from_vec(words),
        given: Given::Nothing,
    })
}

/// The binding types on which rests what some uses bring.
fn binding_reads(alloc: Global, decls: &Decls, uses: &[Qual]) -> Result<Seq<DeclKey>, AllocError>
    ensures { IfOk result (λ keys. keys ≡ binding_reads decls.now uses.now) }
{
    let mut lent = Vec::with_capacity(alloc, uses.len())?;
    push_uses(&mut lent, uses)?;
    let types = types_brought(alloc, decls, lent.as_slice())?;
    keys_of_names(alloc, Kind::Binding, types.as_slice())
}

/// Makes what is made of a binding type.
fn make_brought(alloc: Global, decls: &Decls, decl: &Decl) -> Result<Option<Made>, AllocError>
    ensures { IfOk result (λ made. made ≡ option_map (made_of_binding decls.now) (as_binding (Some decl.now))) }
{
    let Decl::Binding(binding) = decl else {
        return Ok(None);
    };
    Ok(Some(Made {
        reads: binding_reads(alloc, decls, binding.declares.as_slice())?,
        replaces: Seq::new(alloc),
        words: Seq::new(alloc),
        given: Given::Nothing,
    }))
}

/// Makes what is made of the declaration of a key.
pub(crate) fn make(
    alloc: Global,
    types: &NextTypes<'_>,
    key: &DeclKey,
) -> Result<Option<Made>, AllocError>
    ensures { IfOk result (λ made. made ≡ made_of types.now.decls.now key.now) }
{
    match key.kind {
        Kind::Type => {
            if types.decls.get(Kind::Type, &key.name).is_none() {
                return Ok(None);
            }
            Ok(Some(make_types(alloc, types, &key.name)?))
        }
        Kind::Bean => match types.decls.get(Kind::Bean, &key.name) {
            Some(decl) => make_records(alloc, types, decl),
            None => Ok(None),
        },
        Kind::Interceptor => match types.decls.get(Kind::Interceptor, &key.name) {
            Some(decl) => Ok(Some(make_words(alloc, decl)?)),
            None => Ok(None),
        },
        Kind::Binding => match types.decls.get(Kind::Binding, &key.name) {
            Some(decl) => make_brought(alloc, types.decls, decl),
            None => Ok(None),
        },
        _ => Ok(None),
    }
}
