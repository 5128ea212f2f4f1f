//! Which kept chains are not kept after a draft.
ghost use Rattle.std.specs.Prelude.{◌≡◌, ◌&&◌, ◌||◌, ℕ, List, IfOk, OnOk};
ghost use Rattle.std.specs.List.{list_any};
ghost use Rattle.std.specs.Str.{bytes_eq};
ghost use Rattle.cdi_match.specs.Bindings.{uses_in};
ghost use Rattle.cdi_index.specs.Under.{bindings_in};
ghost use Rattle.cdi_intercept.specs.Bindings.{in_text_order};
ghost use Rattle.cdi_memo.specs.Answers.{parts_under};
ghost use Rattle.cdi_observe.specs.Keys.{same_place, ChainKey};
ghost use Rattle.cdi_seen.specs.Touched.{is_touched};
ghost use Rattle.cdi_live.specs.ChainCompared.{are_same_bindings, is_of_class, see_same_interceptors, set_bound, AreBound, IsBound};
ghost use Rattle.cdi_live.specs.ChainGone.{goes, is_gone_chain};
ghost use Rattle.cdi_live.specs.Compared.{IsBetween};

use crate::chain_gone::{GoneChain, push_gone_chain};
use crate::chain_place::ChainPlace;
use crate::interceptors::{seen_among, words_bound};
use crate::sides::Sides;
use cdi_intercept::{bindings_seen, has_place};
use cdi_memo::Memo;
use cdi_model::{BeanDecl, BeanPlace, Decl, Decls, Kind, Name, Qual};
use cdi_observe::Shared;
use cdi_seen::{same_as_written, same_interceptors, same_types};
use std::alloc::{AllocError, Global};

/// A bean, with the bindings of its class.
#[derive(Clone, Copy)]
pub(crate) struct BoundBean<'a> {
    pub(crate) bean: &'a BeanDecl,
    pub(crate) class: &'a [Qual],
}

/// The bean of a class, which has these bindings.
fn bound<'a>(decls: &'a Decls, class: &Name, bindings: &'a [Qual]) -> Option<BoundBean<'a>>
    requires { bindings.now ≡ bindings_in decls.now class.now }
    ensures { IsBound decls.now class.now result }
{
    match decls.get(Kind::Bean, class) {
        Some(Decl::Bean(bean)) => Some(BoundBean {
            bean,
            class: bindings,
        }),
        _ => None,
    }
}

/// The bean of a class before the draft and after it.
#[derive(Clone, Copy)]
pub(crate) struct BeanSides<'a> {
    pub(crate) before: Option<BoundBean<'a>>,
    pub(crate) after: Option<BoundBean<'a>>,
    /// Whether the bindings of the class are the same before and after, and declared alike.
    pub(crate) is_same_class: bool,
}

/// That of a class.
fn both<'a>(alloc: Global, sides: &Sides<'a>, class: &Name) -> Result<BeanSides<'a>, AllocError>
    ensures { IfOk result (AreBound sides.now.index.now.decls sides.now.next.now class.now) }
{
    let index = sides.index;
    let next = sides.next;
    let before = bound(index.decls(), class, index.class_bindings(class));
    let after = bound(next.decls(), class, next.class_bindings(class));
    let is_same_class = are_same_bindings(alloc, sides, before, after, &BeanPlace::Construct)?;
    Ok(BeanSides {
        before,
        after,
        is_same_class,
    })
}

/// The bindings at a place of a bean, if there is one: each once, in the byte order of their texts.
#[tactic(auto, unfolding(cdi_effective::specs::TextOrder::in_text_order))]
fn bindings_at<'a>(
    alloc: Global,
    decls: &'a Decls,
    bound: Option<BoundBean<'a>>,
    place: &BeanPlace,
) -> Result<Vec<&'a Qual>, AllocError>
    ensures { IfOk result (λ list. uses_in list.items ≡ in_text_order (set_bound decls.now bound.entry place.now)) }
{
    match bound {
        Some(BoundBean { bean, class }) => bindings_seen(alloc, decls, class, bean, place),
        None => Ok(Vec::new(alloc)),
    }
}

/// Whether the bindings at a place are those of the class of any bean.
fn is_of_class(place: &BeanPlace) -> bool
    ensures { result ≡ is_of_class place.now }
{
    matches!(
        place,
        BeanPlace::Construct | BeanPlace::Post | BeanPlace::Pre
    )
}

/// Whether a bean has the same bindings at a place before the draft and after it, and these are declared alike.
fn are_same_bindings(
    alloc: Global,
    sides: &Sides<'_>,
    before: Option<BoundBean<'_>>,
    after: Option<BoundBean<'_>>,
    place: &BeanPlace,
) -> Result<bool, AllocError>
    ensures { IfOk result (λ is. is ≡ are_same_bindings sides.now.index.now.decls sides.now.next.now before.entry after.entry place.now) }
{
    let olds = bindings_at(alloc, sides.index.decls(), before, place)?;
    let news = bindings_at(alloc, sides.next.decls(), after, place)?;
    if !same_as_written(&olds, &news) {
        return Ok(false);
    }
    Ok(same_types(sides.index.decls(), &olds, sides.next.decls(), &news))
}

/// The same of the bean of a class. The bindings of the class are not compared again.
fn are_same_at(
    alloc: Global,
    sides: &Sides<'_>,
    both: BeanSides<'_>,
    place: &BeanPlace,
) -> Result<bool, AllocError>
    ensures { IfOk result (λ is. (class : List ℕ) → AreBound sides.now.index.now.decls sides.now.next.now class both.entry
        → is ≡ are_same_bindings sides.now.index.now.decls sides.now.next.now both.entry.before both.entry.after place.now) }
{
    if is_of_class(place) {
        return Ok(both.is_same_class);
    }
    are_same_bindings(alloc, sides, both.before, both.after, place)
}

/// Whether a place of a bean sees the same interceptors before and after the draft, where its bindings are these. It looks at
/// those that have a binding of one of their types, before or after.
fn see_same_interceptors(
    alloc: Global,
    sides: &Sides<'_>,
    before: Option<BoundBean<'_>>,
    place: &BeanPlace,
) -> Result<bool, AllocError>
    requires { IsBetween sides.now }
    ensures { IfOk result (λ is. is ≡ see_same_interceptors sides.now.index.now.decls sides.now.next.now
        (in_text_order (set_bound sides.now.index.now.decls before.entry place.now)) place.now) }
{
    if !sides.moves_interceptors {
        return Ok(true);
    }
    let bindings = bindings_at(alloc, sides.index.decls(), before, place)?;
    see_same_among(alloc, sides, &bindings, place)
}

/// Whether a place with some bindings does.
fn see_same_among(
    alloc: Global,
    sides: &Sides<'_>,
    bindings: &[&Qual],
    place: &BeanPlace,
) -> Result<bool, AllocError>
    ensures { IfOk result (λ is. is ≡ see_same_interceptors sides.now.index.now.decls sides.now.next.now (uses_in bindings.now) place.now) }
{
    let words = words_bound(alloc, bindings)?;
    let before = sides.index.decls_under(alloc, &words)?;
    let after = sides.next.decls_under(alloc, &words)?;
    let olds = seen_among(alloc, &before, bindings, place)?;
    let news = seen_among(alloc, &after, bindings, place)?;
    same_interceptors(alloc, sides.index.decls(), &olds, sides.next.decls(), &news)
}

/// Whether the chain around a place of a bean sees something else after the draft.
fn is_touched(
    alloc: Global,
    sides: &Sides<'_>,
    both: BeanSides<'_>,
    place: &BeanPlace,
) -> Result<bool, AllocError>
    requires { IsBetween sides.now }
    ensures { IfOk result (λ is. (class : List ℕ) → AreBound sides.now.index.now.decls sides.now.next.now class both.entry
        → is ≡ is_touched sides.now.index.now.decls sides.now.next.now (ChainKey class place.now)) }
{
    if !are_same_at(alloc, sides, both, place)? {
        return Ok(true);
    }
    let is_same = see_same_interceptors(alloc, sides, both.before, place)?;
    Ok(!is_same)
}

/// Appends a chain, if its place is there no more after the draft, or it sees something else then.
fn push_if_gone(
    alloc: Global,
    sides: &Sides<'_>,
    both: BeanSides<'_>,
    class: &Name,
    place: &BeanPlace,
    gone: &mut Vec<GoneChain>,
) -> Result<(), AllocError>
    requires between { IsBetween sides.now }
    requires bound { AreBound sides.now.index.now.decls sides.now.next.now class.now both }
    ensures { OnOk result ((c : _) (p : _) → is_gone_chain gone.new.items c p ≡ (is_gone_chain gone.old.items c p
        || (bytes_eq c class.now && (same_place p place.now
        && goes sides.now.index.now.decls sides.now.next.now class.now place.now)))) }
{
    let Some(after) = both.after else {
        return push_gone_chain(class, place, gone);
    };
    if !has_place(after.bean, place) {
        return push_gone_chain(class, place, gone);
    }
    if !is_touched(alloc, sides, both, place)? {
        return Ok(());
    }
    push_gone_chain(class, place, gone)
}

/// Appends the kept chains of a class that are not kept after the draft.
fn push_gone_of_class(
    alloc: Global,
    sides: &Sides<'_>,
    chains: &Memo<ChainPlace, Shared<Name>>,
    class: &Name,
    gone: &mut Vec<GoneChain>,
) -> Result<(), AllocError>
    requires { IsBetween sides.now }
    ensures { OnOk result ((c : _) (p : _) → is_gone_chain gone.new.items c p ≡ (is_gone_chain gone.old.items c p
        || (bytes_eq c class.now && list_any (λ q. same_place p q && goes sides.now.index.now.decls sides.now.next.now class.now q)
        (parts_under chains.now class.now)))) }
{
    if chains.part_at(class, 0).is_none() {
        return Ok(());
    }
    let both = both(alloc, sides, class)?;
    let mut index = 0;
    'parts: while let Some(part) = chains.part_at(class, index) {
        push_if_gone(alloc, sides, both, class, &part.place(), gone)?;
        index += 1;
    }
    Ok(())
}

/// The kept chains of some classes that are not kept after the draft.
pub(crate) fn gone_of_classes(
    alloc: Global,
    sides: &Sides<'_>,
    chains: &Memo<ChainPlace, Shared<Name>>,
    classes: &[Name],
) -> Result<Vec<GoneChain>, AllocError>
    requires { IsBetween sides.now }
    ensures { IfOk result (λ gone. (c : _) (p : _) → is_gone_chain gone.items c p
        ≡ list_any (λ n. bytes_eq c n && list_any (λ q. same_place p q && goes sides.now.index.now.decls sides.now.next.now n q)
        (parts_under chains.now n)) classes.now) }
{
    let mut gone = Vec::new(alloc);
    for class in classes {
        push_gone_of_class(alloc, sides, chains, class, &mut gone)?;
    }
    Ok(gone)
}
