//! Two enabled beans that specialize one bean (CDI 4.0, Inconsistent specialization).
ghost use Rattle.std.specs.Prelude.{◌≡◌, ◌++◌, List, fold, length, map, not, slice_set, true, IfOk, OnOk};
ghost use Rattle.std.specs.BTreeMap.{values};
ghost use Rattle.std.specs.List.{AllZip, flat_map, list_all};
ghost use Rattle.cdi_model.specs.DeclList.{AreDistinct};
ghost use Rattle.cdi_model.specs.declared.decl.BeanDecl.{BeanDecl as AnyBean};
ghost use Rattle.cdi_effective.specs.Lent.{beans_in};
ghost use Rattle.cdi_effective.specs.Specialized.{class_names};
ghost use Rattle.cdi_faults.specs.FaultText.{text_of_fault};
ghost use Rattle.cdi_validate.specs.Linked.{faults_between, faults_of_chains, first_marked, is_first_enabled, is_marked, link_to};
ghost use Rattle.cdi_validate.specs.Linked.{links_to, specializing, specializing_by, AreMarked, KeepsChain};
ghost use Rattle.cdi_validate.specs.Together.{is_chainless, HaveNoneTwice};
ghost use Rattle.cdi_validate.specs.Twice.{by_line, specialized_twice, with_line};

use crate::text::Text;
use cdi_effective::{Effective, behind};
use cdi_faults::Fault;
use cdi_model::{BeanDecl, Decl, Decls, Kind, Name};
use cdi_observe::View;
use std::alloc::{AllocError, Global};
use std::collections::BTreeMap;

/// A class, and the position of the declaration of its bean.
#[derive(Clone, Copy)]
struct Link {
    position: usize,
    class: Name,
}

/// The chain of an enabled bean.
#[derive(Drop)]
struct BeanChain {
    class: Name,
    /// The beans behind it, in order.
    behind: Vec<Link>,
    /// Of the position of each declaration, whether it is that of a bean behind it.
    marks: Vec<bool>,
}

/// Appends a fault for each two enabled beans whose chains share a bean and of which neither is in the chain of the other,
/// in the byte order of their lines. It takes memory for the chains of the enabled beans that specialize others, for a mark
/// for each declaration beside each of these chains, and for the lines. It answers whether there is no such fault.
pub(crate) fn push_of_twice<V: View>(
    alloc: Global,
    view: &V,
    faults: &mut Vec<Fault>,
) -> Result<bool, AllocError>
    ensures faults { OnOk result (faults.new.items ≡ faults.old.items ++ specialized_twice (V.list view.now)) }
    ensures apart { IfOk result (λ apart. apart ≡ true → HaveNoneTwice (V.list view.now) (V.list view.now)) }
{
    let before = faults.len();
    let chains = chains_of(alloc, view)?;
    let lines = lines_between(alloc, &chains)?;
    push_all(lines, faults)?;
    Ok(faults.len() == before)
}

/// Whether no enabled bean of some declarations says that it specializes another. It takes no memory, and looks at these alone.
pub fn are_chainless<V: View>(view: &V, decls: &[&Decl]) -> bool
    ensures { result ≡ list_all (is_chainless (V.list view.now)) (map (λ d. d.now) decls.now) }
{
    for decl in decls {
        if specializes(view, *decl) {
            return false;
        }
    }
    true
}

/// Whether a declaration is that of an enabled bean that says that it specializes another.
fn specializes<V: View>(view: &V, decl: &Decl) -> bool
    ensures { result ≡ not (is_chainless (V.list view.now) decl.now) }
{
    match decl {
        Decl::Bean(bean) => bean.specializes && is_first_enabled(view.records(&bean.name)),
        _ => false,
    }
}

/// The chains of the enabled beans that say that they specialize others, in the order of their declarations.
fn chains_of<V: View>(alloc: Global, view: &V) -> Result<Vec<BeanChain>, AllocError>
    ensures chains { IfOk result (λ chains. AllZip (KeepsChain (V.list view.now)) chains.items (specializing (V.list view.now))) }
    ensures distinct { AreDistinct (V.list view.now) }
{
    let mut chains = Vec::new(alloc);
    for decl in view.decls().iter() {
        push_of_decl(alloc, view, decl, &mut chains)?;
    }
    Ok(chains)
}

/// Appends the chain of the bean of a declaration, if it is one that says that it specializes another, and is enabled.
fn push_of_decl<V: View>(
    alloc: Global,
    view: &V,
    decl: &Decl,
    chains: &mut Vec<BeanChain>,
) -> Result<(), AllocError>
    ensures { OnOk result ((bs : List AnyBean) → AllZip (KeepsChain (V.list view.now)) chains.old.items bs
        → AllZip (KeepsChain (V.list view.now)) chains.new.items (bs ++ specializing_by (V.list view.now) decl.now)) }
{
    let Decl::Bean(bean) = decl else {
        return Ok(());
    };
    if !bean.specializes {
        return Ok(());
    }
    if !is_first_enabled(view.records(&bean.name)) {
        return Ok(());
    }
    chains.push(chain_of(alloc, view.decls(), bean)?)?;
    Ok(())
}

fn is_first_enabled(records: &[Effective]) -> bool
    ensures { result ≡ is_first_enabled records.now }
{
    match records {
        [] => false,
        [bean, ..] => bean.is_enabled,
    }
}

/// The chain of a bean.
fn chain_of(alloc: Global, decls: &Decls, bean: &BeanDecl) -> Result<BeanChain, AllocError>
    ensures { IfOk result (λ chain. KeepsChain decls.now chain bean.now) }
{
    let beans = behind(alloc, decls, bean)?;
    let links = links_to(alloc, decls, &beans)?;
    let marks = marks_of(alloc, decls, &links)?;
    Ok(BeanChain {
        class: bean.name,
        behind: links,
        marks,
    })
}

/// The classes of some beans, with the positions of their declarations.
fn links_to(alloc: Global, decls: &Decls, beans: &[&BeanDecl]) -> Result<Vec<Link>, AllocError>
    ensures { IfOk result (λ links. links.items ≡ links_to decls.now (class_names (beans_in beans.now))) }
{
    let mut links = Vec::with_capacity(alloc, beans.len())?;
    for bean in beans {
        push_link(decls, bean, &mut links)?;
    }
    Ok(links)
}

fn push_link(decls: &Decls, bean: &BeanDecl, links: &mut Vec<Link>) -> Result<(), AllocError>
    ensures { OnOk result (links.new.items ≡ links.old.items ++ link_to decls.now bean.now.name) }
{
    if let Some(position) = decls.position(Kind::Bean, &bean.name) {
        links.push(Link {
            position,
            class: bean.name,
        })?;
    }
    Ok(())
}

/// Marks for the positions of all declarations: those of the links are marked.
fn marks_of(alloc: Global, decls: &Decls, links: &[Link]) -> Result<Vec<bool>, AllocError>
    ensures { IfOk result (λ marks. AreMarked (length decls.now) links.now marks.items) }
{
    let mut marks = vec![in alloc; false; decls.len()]?;
    for link in links {
        mark(&mut marks, link.position);
    }
    Ok(marks)
}

/// Marks a position, if there are so many.
fn mark(marks: &mut Vec<bool>, position: usize)
    ensures { marks.new.items ≡ slice_set marks.old.items position true }
{
    if position < marks.len() {
        marks[position] = true;
    }
}

/// The faults between each two of some chains, by their lines.
fn lines_between(alloc: Global, chains: &[BeanChain]) -> Result<BTreeMap<Text, Fault>, AllocError>
    ensures { IfOk result (λ lines. lines.entries ≡ by_line (faults_between chains.now)) }
{
    let mut lines = BTreeMap::new(alloc);
    let mut left = chains;
    'taken: while let Some((chain, later)) = left.split_first() {
        add_lines(alloc, chain, later, &mut lines)?;
        left = later;
    }
    Ok(lines)
}

/// Adds the faults between a chain and each of those after it.
fn add_lines(
    alloc: Global,
    chain: &BeanChain,
    later: &[BeanChain],
    lines: &mut BTreeMap<Text, Fault>,
) -> Result<(), AllocError>
    ensures { OnOk result (lines.new.entries ≡ fold with_line lines.old.entries (flat_map (faults_of_chains chain.now) later.now)) }
{
    for other in later {
        add_line(alloc, chain, other, lines)?;
    }
    Ok(())
}

/// Adds the fault of two chains, if they share a bean.
fn add_line(
    alloc: Global,
    chain: &BeanChain,
    later: &BeanChain,
    lines: &mut BTreeMap<Text, Fault>,
) -> Result<(), AllocError>
    ensures { OnOk result (lines.new.entries ≡ fold with_line lines.old.entries (faults_of_chains chain.now later.now)) }
{
    let Some(specialized) = first_marked(&chain.behind, &later.marks) else {
        return Ok(());
    };
    let fault = Fault::SpecializedTwice {
        specialized,
        first: chain.class,
        second: later.class,
    };
    let line = line_of(alloc, &fault)?;
    lines.insert(line, fault)?;
    Ok(())
}

/// The class of the first link whose position is marked.
fn first_marked(links: &[Link], marks: &[bool]) -> Option<Name>
    ensures { result ≡ first_marked links.now marks.now }
{
    for link in links {
        if is_marked(marks, link.position) {
            return Some(link.class);
        }
    }
    None
}

/// Whether the mark at a position is set: none is beyond the last.
pub(crate) fn is_marked(marks: &[bool], position: usize) -> bool
    ensures { result ≡ is_marked marks.now position }
{
    matches!(marks.get(position), Some(true))
}

/// The line that a fault prints.
fn line_of(alloc: Global, fault: &Fault) -> Result<Text, AllocError>
    ensures { IfOk result (λ line. line ≡ text_of_fault fault.now) }
{
    let mut text = Vec::new(alloc);
    fault.push_text(&mut text)?;
    Ok(Text::new(text))
}

/// Appends the faults, in the order of their lines.
fn push_all(lines: BTreeMap<Text, Fault>, faults: &mut Vec<Fault>) -> Result<(), AllocError>
    ensures { OnOk result (faults.new.items ≡ faults.old.items ++ values lines) }
{
    for fault in lines.into_values() {
        faults.push(fault)?;
    }
    Ok(())
}
