//! Questions about the beans of some declarations.
use crate::answers::{Answer, is_choice};
use crate::deployed::Deployed;
use cdi_effective::{Effective, disposer_of};
use cdi_fixtures::{name, quals};
use cdi_model::{Decls, Error, Ident, Mention, Scope, Work};
use cdi_observe::{PlainView, View, evaluate};
use cdi_resolve::{BeanList, choose_name};
use std::alloc::Global;

/// A question about beans, with its answer.
#[derive(Clone, Copy)]
pub enum BeanQuestion {
    /// The beans.
    Beans(&'static [Told]),
    /// The bean for a type and uses of qualifiers.
    Choose(&'static [u8], &'static [&'static [u8]], Answer),
    /// The bean of a name.
    ChooseName(&'static [u8], Answer),
    /// What is right for each injection point.
    Evaluate(&'static [Answer]),
}

/// The class of a bean and the producer of a product, its scope and its disposer. What it has not is empty.
#[derive(Clone, Copy)]
pub struct Told(
    pub &'static [u8],
    pub &'static [u8],
    pub Scope,
    pub &'static [u8],
);

use BeanQuestion::{Beans, Choose, ChooseName, Evaluate};

/// Whether a question has its answer.
pub fn has_answer(
    alloc: Global,
    deployed: &Deployed,
    question: BeanQuestion,
) -> Result<bool, Error> {
    let Deployed { decls, beans } = deployed;
    match question {
        Beans(wanted) => Ok(are_told(alloc, decls, beans.as_slice(), wanted)),
        Choose(text, uses, answer) => chooses(alloc, deployed, text, uses, answer),
        ChooseName(text, answer) => chooses_name(alloc, beans.as_slice(), text, answer),
        Evaluate(wanted) => evaluates(alloc, decls, wanted),
    }
}

/// Whether the choice for a type and uses of qualifiers is the one that is wanted. The work rises by one, unless there is no
/// memory for the choice.
fn chooses(
    alloc: Global,
    deployed: &Deployed,
    text: &[u8],
    uses: &[&[u8]],
    answer: Answer,
) -> Result<bool, Error> {
    let quals = quals(alloc, uses)?;
    let mut work = Work::new();
    work.add_one();
    let chosen = deployed
        .beans
        .choose(alloc, &deployed.decls, name(text)?, &quals, &mut work);
    if work.count() != 1 + u64::from(chosen.is_ok()) {
        return Ok(false);
    }
    Ok(is_choice(&chosen?, answer))
}

/// Whether the beans are these, in this order.
fn are_told(alloc: Global, decls: &Decls, beans: &[Effective], wanted: &[Told]) -> bool {
    if beans.len() != wanted.len() {
        return false;
    }
    for (bean, told) in beans.iter().zip(wanted.iter()) {
        if !is_told(bean, disposer_of(alloc, decls, bean), told) {
            return false;
        }
    }
    true
}

fn is_told(bean: &Effective, disposer: Option<Ident>, wanted: &Told) -> bool {
    let Told(class, producer, scope, disposed_by) = wanted;
    let has_names = bean.id.class.as_bytes() == *class && is_spelled(bean.id.producer, producer);
    has_names && bean.scope == *scope && is_spelled(disposer, disposed_by)
}

/// Whether an identifier is a text, or there is none where the text is empty.
fn is_spelled(ident: Option<Ident>, text: &[u8]) -> bool {
    match ident {
        Some(ident) => ident.as_bytes() == text,
        None => text.is_empty(),
    }
}

/// Whether the bean of a name is the one that is wanted.
fn chooses_name(
    alloc: Global,
    beans: &[Effective],
    text: &[u8],
    answer: Answer,
) -> Result<bool, Error> {
    let mut candidates = Vec::with_capacity(alloc, beans.len())?;
    for bean in beans {
        candidates.push(bean)?;
    }
    let choice = choose_name(alloc, &candidates, name(text)?)?;
    Ok(is_choice(&choice, answer))
}

/// Whether what is chosen for each injection point is what is wanted.
fn evaluates(alloc: Global, decls: &Decls, wanted: &[Answer]) -> Result<bool, Error> {
    let list = BeanList::of(alloc, decls)?;
    let mut view = PlainView::new(decls, &list);
    evaluate(alloc, &mut view)?;
    let mut left = wanted.iter();
    for decl in decls.iter() {
        for mention in decl.mentions() {
            if let Mention::Point(_, point) = mention {
                let choice = view.lent_choice(alloc, &point.required_type, &point.qualifiers)?;
                match left.next() {
                    Some(answer) if is_choice(choice.get(), *answer) => {}
                    _ => return Ok(false),
                }
            }
        }
    }
    Ok(left.next().is_none())
}
