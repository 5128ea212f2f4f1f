//! Dependent beans that need themselves before they can be made (profile).
ghost use Rattle.std.specs.Prelude.{◌≡◌, ◌<◌, ◌∷◌, [], ◌++◌, ℕ, List, true, All, Some, fold, length, map, IfOk, OnOk};
ghost use Rattle.std.specs.BTreeMap.{get, insert_entry, keys, values};
ghost use Rattle.std.specs.List.{flat_map, list_all, list_any, AllByRecursion};
ghost use Rattle.std.specs.Option.{option_to_list};
ghost use Rattle.cdi_effective.specs.Beans.{beans};
ghost use Rattle.cdi_effective.specs.BeanText.{text_of_id};
ghost use Rattle.cdi_effective.specs.declared.records.BeanId.{BeanId as AnId};
ghost use Rattle.cdi_model.specs.Bytes.{byte_order};
ghost use Rattle.cdi_model.specs.Decl.{kind_of, name_of_decl};
ghost use Rattle.cdi_model.specs.DeclList.{find_decl, AreDistinct};
ghost use Rattle.cdi_model.specs.declared.decl.Decl.TheVariants as declared;
ghost use Rattle.cdi_model.specs.declared.decl.Kind.TheVariants as kinds;
ghost use Rattle.cdi_model.specs.declared.place.PartPlace.TheVariants as parts;
ghost use Rattle.cdi_model.specs.Mentions.{shown};
ghost use Rattle.cdi_observe.specs.Answers.{answer_to};
ghost use Rattle.cdi_observe.specs.Lending.{are_answerable, is_answerable, IsEvaluated};
ghost use Rattle.cdi_observe.specs.Wanted.{key_of_point, point_named};
ghost use Rattle.cdi_validate.specs.Circles.{bean_of_point, chosen_for, chosen_one, dependents_by_text, is_dependent, managed_id};
ghost use Rattle.cdi_validate.specs.Circles.{need_around, need_in, needs, needs_in, needs_to_run, product_id, with_dependent};
ghost use Rattle.cdi_validate.specs.Faults.{circle, circles};
ghost use Rattle.cdi_validate.specs.Needed.{bean_id, circle_at, edge, edges_of, numbers_of, AreNumbered};
ghost use Rattle.cdi_validate.specs.Surrounded.{give_needs, gives_needs, number_around, numbers_at, AreByInterceptor};
ghost use Rattle.cdi_validate.specs.Together.{is_needless, AreNamed, HaveNoCircle};

use crate::surrounded::{add_number, numbers_around};
use crate::text::Text;
use crate::twice::is_marked;
use cdi_effective::{BeanId, Effective};
use cdi_faults::Fault;
use cdi_model::{
    BeanDecl, Decl, Decls, Ident, InterceptorDecl, Mention, Mentions, Name, PartPlace, PointDecl,
    PointPlace, Scope, Seq,
};
use cdi_observe::{View, interceptors_of, records_of_decl};
use cdi_resolve::Choice;
use cdi_ways::{Edge, on_circles};
use std::alloc::{AllocError, Global};
use std::collections::BTreeMap;
use std::io::Write;

/// Appends a fault for each dependent bean that needs itself, where all that the declarations ask for is known or the view
/// keeps nothing. It takes memory for the dependent beans, for the bindings at their places, for what they need, for answers
/// that are made, and for what is on circles. It answers whether there is no such fault.
pub(crate) fn push_of_circles<V: View>(
    alloc: Global,
    view: &V,
    faults: &mut Vec<Fault>,
) -> Result<bool, AllocError>
    requires { IsEvaluated (V.list view.now) (V.kept view.now) }
    ensures faults { OnOk result (faults.new.items ≡ faults.old.items ++ circles (V.list view.now)) }
    ensures apart { IfOk result (λ apart. apart ≡ true → HaveNoCircle (V.list view.now) (V.list view.now)) }
    ensures named { OnOk result (AreNamed (V.list view.now)) }
{
    let before = faults.len();
    push_all_circles(alloc, view, faults)?;
    Ok(faults.len() == before)
}

/// Appends these faults.
fn push_all_circles<V: View>(
    alloc: Global,
    view: &V,
    faults: &mut Vec<Fault>,
) -> Result<(), AllocError>
    requires { IsEvaluated (V.list view.now) (V.kept view.now) }
    ensures faults { OnOk result (faults.new.items ≡ faults.old.items ++ circles (V.list view.now)) }
    ensures named { OnOk result (AreNamed (V.list view.now)) }
{
    let dependents = dependents_of(alloc, view)?;
    if dependents.ids.is_empty() {
        return Ok(());
    }
    let edges = edges_between(alloc, view, &dependents)?;
    let marks = on_circles(alloc, edges.as_slice())?;
    push_circles(&dependents, marks.as_slice(), faults)
}

/// Whether no dependent bean of some declarations needs anything, and no interceptor among them gives a bean anything to need.
/// It takes memory for the names of interceptors and for answers that are made, and looks at these declarations alone.
pub fn are_needless<V: View>(alloc: Global, view: &V, decls: &[&Decl]) -> Result<bool, AllocError>
    requires found { All (λ d. find_decl (kind_of d.now) (name_of_decl d.now) (V.list view.now) ≡ Some d.now) decls.now }
    requires evaluated { IsEvaluated (V.list view.now) (V.kept view.now) }
    ensures { IfOk result (λ needless. needless ≡ list_all (is_needless (V.list view.now)) (map (λ d. d.now) decls.now)) }
{
    for decl in decls {
        if !is_needless(alloc, view, *decl)? {
            return Ok(false);
        }
    }
    Ok(true)
}

/// Whether no dependent bean of a declaration needs anything, or it is an interceptor that gives a bean nothing to need.
fn is_needless<V: View>(alloc: Global, view: &V, decl: &Decl) -> Result<bool, AllocError>
    requires found { find_decl (kind_of decl.now) (name_of_decl decl.now) (V.list view.now) ≡ Some decl.now }
    requires evaluated { IsEvaluated (V.list view.now) (V.kept view.now) }
    ensures { IfOk result (λ needless. needless ≡ is_needless (V.list view.now) decl.now) }
{
    match decl {
        Decl::Bean(bean) => {
            if !has_dependent(records_of_decl(view, decl)) {
                return Ok(true);
            }
            if !bean.points.is_empty() || !bean.producers.is_empty() {
                return Ok(false);
            }
            Ok(interceptors_of(alloc, view, bean)?.is_empty())
        }
        Decl::Interceptor(interceptor) => {
            Ok(interceptor.priority.is_none() || interceptor.points.is_empty())
        }
        _ => Ok(true),
    }
}

/// Whether one of some beans is dependent.
fn has_dependent(beans: &[Effective]) -> bool
    ensures { result ≡ list_any is_dependent beans.now }
{
    for bean in beans {
        if is_dependent(bean) {
            return true;
        }
    }
    false
}

/// Appends a fault for each bean that is marked, in the order of the texts of their ids.
fn push_circles(
    dependents: &Dependents,
    marks: &[bool],
    faults: &mut Vec<Fault>,
) -> Result<(), AllocError>
    requires { AllByRecursion (λ number. number < length dependents.now.ids) (values dependents.now.numbers) }
    ensures { OnOk result (faults.new.items ≡ faults.old.items
        ++ flat_map (circle_at dependents.now.ids marks.now) (values dependents.now.numbers)) }
{
    for number in dependents.numbers.values() {
        push_if_marked(dependents.ids.as_slice(), marks, *number, faults)?;
    }
    Ok(())
}

/// Appends the fault of the bean with a number, if it is marked.
fn push_if_marked(
    ids: &[BeanId],
    marks: &[bool],
    number: usize,
    faults: &mut Vec<Fault>,
) -> Result<(), AllocError>
    requires { number < length ids.now }
    ensures { OnOk result (faults.new.items ≡ faults.old.items ++ circle_at ids.now marks.now number) }
{
    if is_marked(marks, number) {
        faults.push(circle(ids[number]))?;
    }
    Ok(())
}

fn circle(id: BeanId) -> Fault
    ensures { result ≡ circle id }
{
    Fault::Circular {
        class: id.class,
        producer: id.producer,
    }
}

/// Dependent beans. Each has a number, which is found by the text of its id.
#[derive(Drop)]
struct Dependents {
    ids: Seq<BeanId>,
    numbers: BTreeMap<Text, usize>,
}

impl Dependents {
    /// None.
    fn new(alloc: Global) -> Dependents
        ensures { AreNumbered [] result }
    {
        Dependents {
            ids: Seq::new(alloc),
            numbers: BTreeMap::new(alloc),
        }
    }

    /// Adds the bean of a class, or the product of a producer method of it.
    fn add(&mut self, alloc: Global, class: Name, producer: Option<Ident>) -> Result<(), AllocError>
        ensures { OnOk result ((entries : List (List ℕ × AnId)) → AreNumbered entries self.old
            → AreNumbered (insert_entry byte_order entries (text_of_id (bean_id class producer)) (bean_id class producer)) self.new) }
    {
        let number = self.ids.len();
        let id = BeanId { class, producer };
        self.ids.push(id)?;
        self.numbers.insert(text_of(alloc, id)?, number)?;
        Ok(())
    }

    /// The number of a bean, if it is one of them.
    fn number(&self, alloc: Global, id: BeanId) -> Result<Option<usize>, AllocError>
        ensures { IfOk result (λ number. number ≡ get byte_order self.now.numbers (text_of_id id)) }
    {
        let text = text_of(alloc, id)?;
        Ok(self.numbers.get(&text).copied())
    }

    /// The number of the bean that is chosen, if it is one of them.
    fn chosen(&self, alloc: Global, choice: &Choice) -> Result<Option<usize>, AllocError>
        ensures { IfOk result (λ number. option_to_list number ≡ numbers_of self.now.numbers (chosen_one choice.now)) }
    {
        match choice {
            Choice::One(id) => self.number(alloc, *id),
            _ => Ok(None),
        }
    }
}

/// The dependent beans of a view.
fn dependents_of<V: View>(alloc: Global, view: &V) -> Result<Dependents, AllocError>
    ensures value { IfOk result (AreNumbered (dependents_by_text (beans (V.list view.now)))) }
    ensures named { OnOk result (AreNamed (V.list view.now)) }
{
    let mut dependents = Dependents::new(alloc);
    for decl in view.decls().iter() {
        // No effect at run time. The proof reads here that the name is one by the grammar.
        let _ = decl.name().as_bytes();
        add_dependents(alloc, records_of_decl(view, decl), &mut dependents)?;
    }
    Ok(dependents)
}

/// Adds those of some beans that are dependent.
fn add_dependents(
    alloc: Global,
    beans: &[Effective],
    dependents: &mut Dependents,
) -> Result<(), AllocError>
    ensures { OnOk result ((entries : List (List ℕ × AnId)) → AreNumbered entries dependents.old
        → AreNumbered (fold with_dependent entries beans.now) dependents.new) }
{
    for bean in beans {
        if is_dependent(bean) {
            dependents.add(alloc, bean.id.class, bean.id.producer)?;
        }
    }
    Ok(())
}

/// Whether a bean is enabled, and an instance of it is made for each that asks for one (CDI 4.0, Dependent pseudo-scope).
fn is_dependent(bean: &Effective) -> bool
    ensures { result ≡ is_dependent bean.now }
{
    bean.is_enabled && matches!(bean.scope, Scope::Dependent)
}

/// The text that identifies a bean.
fn text_of(alloc: Global, id: BeanId) -> Result<Text, AllocError>
    ensures { IfOk result (λ text. text ≡ text_of_id id) }
{
    let mut text = Vec::new(alloc);
    write!(text, "{id}").map_err(|_| AllocError)?;
    Ok(Text::new(text))
}

/// Edges from each dependent bean to those that it needs, between their numbers.
fn edges_between<V: View>(
    alloc: Global,
    view: &V,
    dependents: &Dependents,
) -> Result<Vec<Edge>, AllocError>
    requires { IsEvaluated (V.list view.now) (V.kept view.now) }
    ensures { IfOk result (λ edges. edges.items ≡ edges_of dependents.now.numbers (needs (V.list view.now))) }
{
    let by_interceptor = by_interceptor(alloc, view, dependents)?;
    let mut edges = Vec::new(alloc);
    for decl in view.decls().iter() {
        add_needs(alloc, view, dependents, &by_interceptor, decl, &mut edges)?;
    }
    Ok(edges)
}

/// The numbers of the dependent beans by the interceptors around their places, where an interceptor gives beans something to
/// need. It takes memory for them, and for what is around each bean.
fn by_interceptor<V: View>(
    alloc: Global,
    view: &V,
    dependents: &Dependents,
) -> Result<BTreeMap<Name, Vec<usize>>, AllocError>
    requires { IsEvaluated (V.list view.now) (V.kept view.now) }
    ensures { IfOk result (λ by_interceptor. give_needs (V.list view.now) ≡ true
        → AreByInterceptor dependents.now.numbers (V.list view.now) by_interceptor) }
{
    if !give_needs(view.decls()) {
        return Ok(BTreeMap::new(alloc));
    }
    number_all(alloc, view, dependents)
}

/// The numbers of the dependent beans by the interceptors around their places.
fn number_all<V: View>(
    alloc: Global,
    view: &V,
    dependents: &Dependents,
) -> Result<BTreeMap<Name, Vec<usize>>, AllocError>
    requires { IsEvaluated (V.list view.now) (V.kept view.now) }
    ensures { IfOk result (AreByInterceptor dependents.now.numbers (V.list view.now)) }
{
    let mut by_interceptor = BTreeMap::new(alloc);
    for decl in view.decls().iter() {
        add_by_interceptor(alloc, view, dependents, decl, &mut by_interceptor)?;
    }
    Ok(by_interceptor)
}

/// Whether an interceptor of some declarations is enabled and has points.
fn give_needs(decls: &Decls) -> bool
    ensures { result ≡ give_needs decls.now }
{
    for decl in decls.iter() {
        if gives_needs(decl) {
            return true;
        }
    }
    false
}

fn gives_needs(decl: &Decl) -> bool
    ensures { result ≡ gives_needs decl.now }
{
    match decl {
        Decl::Interceptor(interceptor) => {
            interceptor.priority.is_some() && !interceptor.points.is_empty()
        }
        _ => false,
    }
}

/// Adds the number of the managed bean of a declaration to those of the interceptors around its places, if it is dependent.
fn add_by_interceptor<V: View>(
    alloc: Global,
    view: &V,
    dependents: &Dependents,
    decl: &Decl,
    by_interceptor: &mut BTreeMap<Name, Vec<usize>>,
) -> Result<(), AllocError>
    requires evaluated { IsEvaluated (V.list view.now) (V.kept view.now) }
    requires found { find_decl (kind_of decl.now) (name_of_decl decl.now) (V.list view.now) ≡ Some decl.now }
    ensures { OnOk result ((name : List ℕ) → numbers_at by_interceptor.new name
        ≡ numbers_at by_interceptor.old name ++ number_around dependents.now.numbers (V.list view.now) name decl.now) }
{
    let Decl::Bean(bean) = decl else {
        return Ok(());
    };
    let Some(number) = dependents.number(alloc, managed_id(bean))? else {
        return Ok(());
    };
    let names = interceptors_of(alloc, view, bean)?;
    add_number(alloc, names.as_slice(), number, by_interceptor)
}

/// Adds what beans need by a declaration.
fn add_needs<V: View>(
    alloc: Global,
    view: &V,
    dependents: &Dependents,
    by_interceptor: &BTreeMap<Name, Vec<usize>>,
    decl: &Decl,
    edges: &mut Vec<Edge>,
) -> Result<(), AllocError>
    requires distinct { AreDistinct (V.list view.now) }
    requires evaluated { IsEvaluated (V.list view.now) (V.kept view.now) }
    requires around { give_needs (V.list view.now) ≡ true
        → AreByInterceptor dependents.now.numbers (V.list view.now) by_interceptor.now }
    requires found { find_decl (kind_of decl.now) (name_of_decl decl.now) (V.list view.now) ≡ Some decl.now }
    ensures { OnOk result (edges.new.items ≡ edges.old.items
        ++ edges_of dependents.now.numbers (needs_in (V.list view.now) decl.now)) }
{
    match decl {
        Decl::Bean(bean) => add_needs_along(alloc, view, dependents, bean, decl.mentions(), edges),
        Decl::Interceptor(interceptor) => {
            add_needs_around(alloc, view, dependents, by_interceptor, interceptor, edges)
        }
        _ => Ok(()),
    }
}

/// Adds what the beans of a declaration need for all that it names.
fn add_needs_along<V: View>(
    alloc: Global,
    view: &V,
    dependents: &Dependents,
    bean: &BeanDecl,
    mentions: Mentions<'_>,
    edges: &mut Vec<Edge>,
) -> Result<(), AllocError>
    requires { are_answerable (V.kept view.now) (map key_of_point (flat_map point_named mentions)) ≡ true }
    ensures { OnOk result (edges.new.items ≡ edges.old.items
        ++ edges_of dependents.now.numbers (flat_map (need_in (V.list view.now) bean.now) mentions.entry)) }
{
    for mention in mentions {
        add_needs_at(alloc, view, dependents, bean, &mention, edges)?;
    }
    Ok(())
}

/// Adds what they need for what is named in one place.
fn add_needs_at<V: View>(
    alloc: Global,
    view: &V,
    dependents: &Dependents,
    bean: &BeanDecl,
    mention: &Mention<'_>,
    edges: &mut Vec<Edge>,
) -> Result<(), AllocError>
    requires { are_answerable (V.kept view.now) (map key_of_point (point_named (shown mention.now))) ≡ true }
    ensures { OnOk result (edges.new.items ≡ edges.old.items
        ++ edges_of dependents.now.numbers (need_in (V.list view.now) bean.now (shown mention.now))) }
{
    match mention {
        Mention::Point(place, point) => match bean_of_point(bean, place) {
            Some(id) => add_need_at(alloc, view, dependents, id, point, edges),
            None => Ok(()),
        },
        Mention::Body(PartPlace::Producer(name), _) => {
            add_need_to_run(alloc, dependents, bean, *name, edges)
        }
        _ => Ok(()),
    }
}

/// Adds what a bean needs for a point that is there for it, if it is dependent.
fn add_need_at<V: View>(
    alloc: Global,
    view: &V,
    dependents: &Dependents,
    id: BeanId,
    point: &PointDecl,
    edges: &mut Vec<Edge>,
) -> Result<(), AllocError>
    requires { is_answerable (V.kept view.now) (key_of_point point.now) ≡ true }
    ensures { OnOk result (edges.new.items ≡ edges.old.items
        ++ edges_of dependents.now.numbers ((text_of_id id, chosen_one (answer_to (V.list view.now) point.now)) ∷ [])) }
{
    let Some(from) = dependents.number(alloc, id)? else {
        return Ok(());
    };
    let answer = view.lent_choice(alloc, &point.required_type, &point.qualifiers)?;
    push_edge(from, dependents.chosen(alloc, answer.get())?, edges)
}

/// Adds that the product of a producer method, if it is dependent, needs the bean that declares it.
fn add_need_to_run(
    alloc: Global,
    dependents: &Dependents,
    bean: &BeanDecl,
    producer: Ident,
    edges: &mut Vec<Edge>,
) -> Result<(), AllocError>
    ensures { OnOk result (edges.new.items ≡ edges.old.items
        ++ edges_of dependents.now.numbers (needs_to_run bean.now (parts.Producer producer))) }
{
    let Some(from) = dependents.number(alloc, product_id(bean, producer))? else {
        return Ok(());
    };
    push_edge(from, dependents.number(alloc, managed_id(bean))?, edges)
}

/// Appends an edge, if it leads to a bean.
fn push_edge(from: usize, to: Option<usize>, edges: &mut Vec<Edge>) -> Result<(), AllocError>
    ensures { OnOk result (edges.new.items ≡ edges.old.items ++ map (edge from) (option_to_list to)) }
{
    if let Some(to) = to {
        edges.push(Edge { from, to })?;
    }
    Ok(())
}

/// The bean for which a point is there: none waits for the parameters of an observer method.
fn bean_of_point(bean: &BeanDecl, place: &PointPlace) -> Option<BeanId>
    ensures { result ≡ bean_of_point bean.now place.now }
{
    match place {
        PointPlace::Constructor => Some(managed_id(bean)),
        PointPlace::Producer(name) => Some(product_id(bean, *name)),
        PointPlace::Observer(_) => None,
    }
}

/// Adds what each managed bean needs for an interceptor that is around a place of it.
fn add_needs_around<V: View>(
    alloc: Global,
    view: &V,
    dependents: &Dependents,
    by_interceptor: &BTreeMap<Name, Vec<usize>>,
    interceptor: &InterceptorDecl,
    edges: &mut Vec<Edge>,
) -> Result<(), AllocError>
    requires distinct { AreDistinct (V.list view.now) }
    requires evaluated { IsEvaluated (V.list view.now) (V.kept view.now) }
    requires around { give_needs (V.list view.now) ≡ true
        → AreByInterceptor dependents.now.numbers (V.list view.now) by_interceptor.now }
    requires found { find_decl kinds.Interceptor interceptor.now.name (V.list view.now) ≡ Some (declared.Interceptor interceptor.now) }
    ensures { OnOk result (edges.new.items ≡ edges.old.items ++ edges_of dependents.now.numbers
        (flat_map (need_around (V.list view.now) interceptor.now (chosen_for (V.list view.now) interceptor.now.points))
        (V.list view.now))) }
{
    if interceptor.priority.is_none() {
        return Ok(());
    }
    let chosen = chosen_for(alloc, view, dependents, interceptor.points.as_slice())?;
    if chosen.is_empty() {
        return Ok(());
    }
    let numbers = numbers_around(by_interceptor, &interceptor.name);
    push_edges(numbers, chosen.as_slice(), edges)
}

/// Appends the edges from each of some numbers to each of others.
fn push_edges(from: &[usize], to: &[usize], edges: &mut Vec<Edge>) -> Result<(), AllocError>
    ensures { OnOk result (edges.new.items ≡ edges.old.items ++ flat_map (λ p. map (edge p) to.now) from.now) }
{
    for number in from {
        push_edges_from(*number, to, edges)?;
    }
    Ok(())
}

/// Appends the edges from a number to some others.
fn push_edges_from(from: usize, to: &[usize], edges: &mut Vec<Edge>) -> Result<(), AllocError>
    ensures { OnOk result (edges.new.items ≡ edges.old.items ++ map (edge from) to.now) }
{
    for number in to {
        edges.push(Edge { from, to: *number })?;
    }
    Ok(())
}

/// The numbers of the dependent beans that are chosen for some points.
fn chosen_for<V: View>(
    alloc: Global,
    view: &V,
    dependents: &Dependents,
    points: &[PointDecl],
) -> Result<Vec<usize>, AllocError>
    requires { are_answerable (V.kept view.now) (map key_of_point points.now) ≡ true }
    ensures { IfOk result (λ chosen. chosen.items
        ≡ numbers_of dependents.now.numbers (chosen_for (V.list view.now) points.now)) }
{
    let mut chosen = Vec::new(alloc);
    for point in points {
        let answer = view.lent_choice(alloc, &point.required_type, &point.qualifiers)?;
        if let Some(number) = dependents.chosen(alloc, answer.get())? {
            chosen.push(number)?;
        }
    }
    Ok(chosen)
}

fn managed_id(bean: &BeanDecl) -> BeanId
    ensures { result ≡ managed_id bean.now }
{
    BeanId {
        class: bean.name,
        producer: None,
    }
}

fn product_id(bean: &BeanDecl, producer: Ident) -> BeanId
    ensures { result ≡ product_id bean.now producer }
{
    BeanId {
        class: bean.name,
        producer: Some(producer),
    }
}
