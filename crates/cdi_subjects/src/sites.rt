//! Call sites that name what is not there (profile).
ghost use Rattle.std.specs.Prelude.{◌≡◌, ◌++◌, true, map, IfOk};
ghost use Rattle.std.specs.List.{find, list_any};
ghost use Rattle.std.specs.Option.{option_copied};
ghost use Rattle.std.specs.Str.{bytes_eq};
ghost use Rattle.cdi_model.specs.Mentions.{shown};
ghost use Rattle.cdi_observe.specs.Answers.{answer_to};
ghost use Rattle.cdi_observe.specs.Lending.{are_answerable, is_answerable};
ghost use Rattle.cdi_observe.specs.Wanted.{asked_by, key_of_point};
ghost use Rattle.cdi_subjects.specs.Sites.{has_method, is_lost, lacks_method, lost_in, lost_sites, own_points, own_seen, params_given};

use crate::enabled::{is_enabled_in, producer_of_part};
use cdi_effective::{BeanId, Effective};
use cdi_faults::Subject;
use cdi_model::{CallDecl, Decl, Decls, Ident, Kind, Mention, MethodDecl, PartPlace, PointDecl};
use cdi_observe::View;
use cdi_resolve::Choice;
use std::alloc::{AllocError, Global};

/// The call sites of enabled beans and interceptors that name a point that their body does not see, or a method that the
/// chosen bean does not have, of a declaration that has these beans.
pub(crate) fn lost_sites<V: View>(
    alloc: Global,
    view: &V,
    decl: &Decl,
    beans: &[Effective],
) -> Result<Vec<Subject>, AllocError>
    requires { are_answerable (V.kept view.now) (asked_by decl.now) ≡ true }
    ensures { IfOk result (λ list. list.items ≡ lost_sites (V.list view.now) (answer_to (V.list view.now)) beans.now decl.now) }
{
    let mut subjects = Vec::new(alloc);
    for mention in decl.mentions() {
        if let Some(subject) = lost_in(alloc, view, decl, beans, &mention)? {
            subjects.push(subject)?;
        }
    }
    Ok(subjects)
}

/// The call site that is named in a place, where it is lost.
fn lost_in<V: View>(
    alloc: Global,
    view: &V,
    decl: &Decl,
    beans: &[Effective],
    mention: &Mention<'_>,
) -> Result<Option<Subject>, AllocError>
    requires own { are_answerable (V.kept view.now) (map key_of_point (own_points decl.now)) ≡ true }
    requires params { are_answerable (V.kept view.now) (map key_of_point (params_given (shown mention.now))) ≡ true }
    ensures { IfOk result (λ found. found
        ≡ lost_in (V.list view.now) (answer_to (V.list view.now)) beans.now decl.now (shown mention.now)) }
{
    let Mention::Call(place, params, call) = mention else {
        return Ok(None);
    };
    if !is_enabled_in(decl, beans, producer_of_part(place)) {
        return Ok(None);
    }
    if !is_lost(alloc, view, *params, own_seen(place, decl), call)? {
        return Ok(None);
    }
    Ok(Some(Subject::Call {
        place: *place,
        point: call.point,
        method: call.method,
    }))
}

/// Those injection points of a bean or an interceptor that the body in a place sees: a static producer method none.
fn own_seen<'a>(place: &PartPlace, decl: &'a Decl) -> &'a [PointDecl]
    ensures { result.now ≡ own_seen place.now (own_points decl.now) }
{
    match place {
        PartPlace::StaticProducer(_) => &[],
        _ => own_points(decl),
    }
}

fn own_points(decl: &Decl) -> &[PointDecl]
    ensures { result.now ≡ own_points decl.now }
{
    match decl {
        Decl::Bean(bean) => bean.points.as_slice(),
        Decl::Interceptor(interceptor) => interceptor.points.as_slice(),
        _ => &[],
    }
}

/// Whether a call site names a point that is neither among some points nor among others, or a method that the chosen bean
/// does not have.
fn is_lost<V: View>(
    alloc: Global,
    view: &V,
    params: &[PointDecl],
    own: &[PointDecl],
    call: &CallDecl,
) -> Result<bool, AllocError>
    requires params { are_answerable (V.kept view.now) (map key_of_point params.now) ≡ true }
    requires own { are_answerable (V.kept view.now) (map key_of_point own.now) ≡ true }
    ensures { IfOk result (λ lost. lost ≡ is_lost (V.list view.now) (answer_to (V.list view.now)) (params.now ++ own.now) call.now) }
{
    match point_seen(params, own, call.point) {
        Some(point) => lacks_method_at(alloc, view, point, call.method),
        None => Ok(true),
    }
}

/// The point of a name among some points, or else among others.
fn point_seen<'a>(
    params: &'a [PointDecl],
    own: &'a [PointDecl],
    name: Ident,
) -> Option<&'a PointDecl>
    ensures { option_copied result ≡ find (λ p. bytes_eq p.name name) (params.now ++ own.now) }
{
    params.iter().chain(own).find(|point| point.name == name)
}

/// Whether one bean is chosen for a point, and does not have a method.
fn lacks_method_at<V: View>(
    alloc: Global,
    view: &V,
    point: &PointDecl,
    method: Ident,
) -> Result<bool, AllocError>
    requires { is_answerable (V.kept view.now) (key_of_point point.now) ≡ true }
    ensures { IfOk result (λ lacks. lacks ≡ lacks_method (V.list view.now) method (answer_to (V.list view.now) point.now)) }
{
    let answer = view.lent_choice(alloc, &point.required_type, &point.qualifiers)?;
    Ok(lacks_method(view.decls(), method, answer.get()))
}

/// Whether one bean is chosen, and does not have a method.
fn lacks_method(decls: &Decls, method: Ident, choice: &Choice) -> bool
    ensures { result ≡ lacks_method decls.now method choice.now }
{
    match choice {
        Choice::One(id) => !has_method(decls, id, method),
        _ => false,
    }
}

/// Whether a bean has a method: a managed bean those that it declares, and a product one, named `value` (profile). It
/// takes no memory.
pub fn has_method(decls: &Decls, id: &BeanId, method: Ident) -> bool
    ensures { result ≡ has_method decls.now id.now method }
{
    if id.producer.is_some() {
        return method.as_bytes() == b"value".as_slice();
    }
    match decls.get(Kind::Bean, &id.class) {
        Some(Decl::Bean(bean)) => is_among(bean.methods.as_slice(), method),
        _ => false,
    }
}

fn is_among(methods: &[MethodDecl], name: Ident) -> bool
    ensures { result ≡ list_any (λ m. bytes_eq m.name name) methods.now }
{
    methods.iter().any(|method| method.name == name)
}
