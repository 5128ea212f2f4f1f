//! Names of beans that cannot be used side by side (CDI 4.0, Ambiguous names).
ghost use Rattle.std.specs.Prelude.{◌≡◌, ◌∷◌, ◌++◌, ℕ, List, true, All, Some, length, map, filter, flat_map, nat_le, IfOk, OnOk};
ghost use Rattle.std.specs.BTreeMap.{get, keys};
ghost use Rattle.std.specs.List.{list_all};
ghost use Rattle.std.specs.List.Sorted.{IsStrictlySortedBy};
ghost use Rattle.std.specs.Cmp.Lexicographic.{slice_cmp};
ghost use Rattle.std.specs.Ordering.{nat_cmp};
ghost use Rattle.cdi_model.specs.Decl.{kind_of, name_of_decl};
ghost use Rattle.cdi_model.specs.DeclList.{find_decl};
ghost use Rattle.cdi_effective.specs.Beans.{beans};
ghost use Rattle.cdi_effective.specs.declared.records.Effective.{Effective as AnyBean};
ghost use Rattle.cdi_resolve.specs.Leaders.{leading};
ghost use Rattle.cdi_faults.specs.declared.fault.Fault.TheVariants as faults_are;
ghost use Rattle.cdi_subjects.specs.Subjects.{is_ambiguous};
ghost use Rattle.cdi_validate.specs.Faults.{enabled_name, goes_on, name_clashes, name_prefixes};
ghost use Rattle.cdi_validate.specs.Names.{has_dot_at, prefix_pairs, with_bean, AreNames, AreLed};
ghost use Rattle.cdi_validate.specs.Together.{is_nameless, HaveNoClash};

use cdi_effective::Effective;
use cdi_faults::Fault;
use cdi_model::{Decl, Name};
use cdi_observe::{View, records_of_decl};
use cdi_resolve::{Choice, Leaders};
use std::alloc::{AllocError, Global};
use std::collections::BTreeMap;

/// Appends the faults of names: each that several enabled beans have of which none is chosen, and each pair of which one
/// continues the other. It goes through the beans once, or twice where there is no such fault, and takes memory for the names of
/// enabled beans. It answers whether no two of these beans share a name, and there is no such fault.
pub(crate) fn push_of_names<V: View>(
    alloc: Global,
    view: &V,
    faults: &mut Vec<Fault>,
) -> Result<bool, AllocError>
    ensures faults { OnOk result (faults.new.items ≡ faults.old.items
        ++ name_clashes (beans (V.list view.now)) ++ name_prefixes (beans (V.list view.now))) }
    ensures grammar { OnOk result (AreNames (flat_map enabled_name (beans (V.list view.now)))) }
    ensures apart { IfOk result (λ apart. apart ≡ true → HaveNoClash (V.list view.now) (V.list view.now)) }
{
    let before = faults.len();
    let leaders = leaders_of_names(alloc, view)?;
    push_clashes(&leaders, faults)?;
    push_prefixes(names_of(alloc, &leaders)?.as_slice(), faults)?;
    Ok(faults.len() == before && have_names_at_most(view, leaders.len()))
}

/// Whether no enabled bean of some declarations has a name. It takes no memory, and looks at these alone.
pub fn are_nameless<V: View>(view: &V, decls: &[&Decl]) -> bool
    requires { All (λ d. find_decl (kind_of d.now) (name_of_decl d.now) (V.list view.now) ≡ Some d.now) decls.now }
    ensures { result ≡ list_all (is_nameless (V.list view.now)) (map (λ d. d.now) decls.now) }
{
    for decl in decls {
        if count_of_names_in(records_of_decl(view, *decl)) != 0 {
            return false;
        }
    }
    true
}

/// Whether at most so many enabled beans have a name.
fn have_names_at_most<V: View>(view: &V, most: usize) -> bool
    ensures { result ≡ nat_le (length (flat_map enabled_name (beans (V.list view.now)))) most }
{
    let mut left = most;
    for decl in view.decls().iter() {
        let count = count_of_names_in(records_of_decl(view, decl));
        if count > left {
            return false;
        }
        left -= count;
    }
    true
}

/// How many of some beans are enabled and have a name.
fn count_of_names_in(beans: &[Effective]) -> usize
    ensures { result ≡ length (flat_map enabled_name beans.now) }
{
    let mut count = 0;
    for bean in beans {
        if bean.is_enabled && bean.name.is_some() {
            count += 1;
        }
    }
    count
}

/// Of each name of an enabled bean, the choice among the enabled beans that have it.
fn leaders_of_names<V: View>(alloc: Global, view: &V) -> Result<BTreeMap<Name, Leaders>, AllocError>
    ensures led { IfOk result (λ leaders. AreLed leaders (beans (V.list view.now))) }
    ensures grammar { OnOk result (AreNames (flat_map enabled_name (beans (V.list view.now)))) }
{
    let mut leaders = BTreeMap::new(alloc);
    for decl in view.decls().iter() {
        add_all(alloc, &mut leaders, records_of_decl(view, decl))?;
    }
    Ok(leaders)
}

/// Adds some beans, each to those that have its name, if it is enabled and has one.
fn add_all(
    alloc: Global,
    leaders: &mut BTreeMap<Name, Leaders>,
    beans: &[Effective],
) -> Result<(), AllocError>
    ensures led { OnOk result ((before : List AnyBean) → AreLed leaders.old before → AreLed leaders.new (before ++ beans.now)) }
    ensures grammar { OnOk result (AreNames (flat_map enabled_name beans.now)) }
{
    for bean in beans {
        add(alloc, leaders, bean)?;
    }
    Ok(())
}

/// Adds a bean to those that have its name, if it is enabled and has one.
fn add(
    alloc: Global,
    leaders: &mut BTreeMap<Name, Leaders>,
    bean: &Effective,
) -> Result<(), AllocError>
    ensures led { OnOk result ((s : List ℕ) → get (slice_cmp nat_cmp) leaders.new s
        ≡ with_bean (get (slice_cmp nat_cmp) leaders.old s) bean.now s) }
    ensures grammar { OnOk result (AreNames (enabled_name bean.now)) }
{
    if !bean.is_enabled {
        return Ok(());
    }
    let Some(name) = bean.name else {
        return Ok(());
    };
    // No effect at run time. The proof reads here that the name is one by the grammar.
    let _ = name.as_bytes();
    let others = leaders.remove(&name).unwrap_or(Leaders::new());
    leaders.insert(name, others.with(alloc, bean)?)?;
    Ok(())
}

/// Appends the names of which no bean is chosen.
fn push_clashes(
    leaders: &BTreeMap<Name, Leaders>,
    faults: &mut Vec<Fault>,
) -> Result<(), AllocError>
    ensures faults { OnOk result (faults.new.items ≡ faults.old.items
        ++ map (λ e. faults_are.NameClash e.0) (filter (λ e. is_ambiguous (leading e.1)) leaders.now.entries)) }
    ensures order { IsStrictlySortedBy (slice_cmp nat_cmp) (keys leaders.now) }
{
    for (name, beans) in leaders.iter() {
        if matches!(beans.chosen(), Choice::Ambiguous(_)) {
            faults.push(Fault::NameClash(*name))?;
        }
    }
    Ok(())
}

/// The names, in byte order.
fn names_of(alloc: Global, leaders: &BTreeMap<Name, Leaders>) -> Result<Vec<Name>, AllocError>
    ensures { IfOk result (λ names. names.items ≡ keys leaders.now) }
{
    let mut names = Vec::with_capacity(alloc, leaders.len())?;
    for name in leaders.keys() {
        names.push(*name)?;
    }
    Ok(names)
}

/// Appends the pairs of which one continues the other, among names in byte order.
fn push_prefixes(names: &[Name], faults: &mut Vec<Fault>) -> Result<(), AllocError>
    requires { IsStrictlySortedBy (slice_cmp nat_cmp) names.now }
    ensures { OnOk result (faults.new.items ≡ faults.old.items ++ prefix_pairs names.now) }
{
    let mut left = names;
    'taken: while let Some((name, later)) = left.split_first() {
        push_behind(*name, later, faults)?;
        left = later;
    }
    Ok(())
}

/// Appends the pairs of a name and those that continue it, among the names after it in byte order. The names that
/// begin with it come first among these.
fn push_behind(name: Name, later: &[Name], faults: &mut Vec<Fault>) -> Result<(), AllocError>
    requires { IsStrictlySortedBy (slice_cmp nat_cmp) (name ∷ later.now) }
    ensures { OnOk result (faults.new.items ≡ faults.old.items ++ map (faults_are.NamePrefix name) (filter (goes_on name) later.now)) }
{
    for other in later {
        if !other.as_bytes().starts_with(name.as_bytes()) {
            return Ok(());
        }
        if has_dot_behind(name, *other) {
            faults.push(Fault::NamePrefix(name, *other))?;
        }
    }
    Ok(())
}

/// Whether the byte after as many as the first name has is a dot.
fn has_dot_behind(name: Name, other: Name) -> bool
    ensures { result ≡ has_dot_at other (length name) }
{
    matches!(other.as_bytes().get(name.as_bytes().len()), Some(b'.'))
}
