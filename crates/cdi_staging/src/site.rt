//! Where call sites lead.
ghost use Rattle.std.specs.Prelude.{◌≡◌, map, position, IfOk};
ghost use Rattle.cdi_effective.specs.Disposers.{find_bean};
ghost use Rattle.cdi_staging.specs.Sites.{sight_in, is_method, is_point, method_declared, method_of, site_at};
ghost use Rattle.cdi_staging.specs.Sites.{target_at, site_of};

use crate::listed_beans::ListedBeans;
use crate::target::{Target, nowhere};
use cdi_model::{CallDecl, Decl, Decls, Ident, Kind, MethodDecl, Name, PointDecl, Seq};
use cdi_scene::{CallSite, Via, position_at};
use std::alloc::{AllocError, Global};

/// What a body sees: the injection points of whoever runs and the parameters of the method that runs, with what is
/// chosen for each, in order.
#[derive(Clone, Copy)]
pub(crate) struct Visible<'a> {
    pub(crate) points: &'a [PointDecl],
    pub(crate) targets: &'a [Target],
    pub(crate) params: &'a [PointDecl],
    pub(crate) param_targets: &'a [Target],
}

fn point_named(points: &[PointDecl], name: Ident) -> Option<usize>
    ensures { result ≡ position (is_point name) points.now }
{
    for (place, point) in points.iter().enumerate() {
        if point.name == name {
            return Some(place);
        }
    }
    None
}

fn method_named(methods: &[MethodDecl], name: Ident) -> Option<usize>
    ensures { result ≡ position (is_method name) methods.now }
{
    for (place, method) in methods.iter().enumerate() {
        if method.name == name {
            return Some(place);
        }
    }
    None
}

/// The position of a method of a managed bean, or the one after its last.
fn method_declared(decls: &Decls, class: Name, name: Ident) -> usize
    ensures { result ≡ method_declared (find_bean class decls.now) name }
{
    match decls.get(Kind::Bean, &class) {
        Some(Decl::Bean(bean)) => {
            let methods = bean.methods.as_slice();
            method_named(methods, name).unwrap_or(methods.len())
        }
        _ => 0,
    }
}

/// The position of a method: of a managed bean among those that it declares, or the one after its last; 0 of a product,
/// which has no class here (profile). It takes no memory.
#[tactic(auto, unfolding(crate::specs::Sites::method_of))]
pub fn method_of(decls: &Decls, class: Option<Name>, name: Ident) -> usize
    ensures { result ≡ method_of decls.now class name }
{
    match class {
        Some(class) => method_declared(decls, class, name),
        None => 0,
    }
}

#[tactic(auto, unfolding(crate::specs::Sites::site_at))]
fn site_at(decls: &Decls, via: Via, target: Target, name: Ident) -> Result<CallSite, AllocError>
    ensures { IfOk result (λ site. site ≡ site_at decls.now via target name) }
{
    Ok(CallSite {
        via,
        bean: position_at(target.bean)?,
        method: position_at(method_of(decls, target.class, name))?,
    })
}

fn target_at(beans: &ListedBeans<'_>, targets: &[Target], position: usize) -> Target
    ensures { result ≡ target_at beans.now targets.now position }
{
    match targets.get(position) {
        Some(target) => *target,
        None => nowhere(beans),
    }
}

#[tactic(auto, unfolding(crate::specs::Sites::site_of))]
fn site_of(
    decls: &Decls,
    beans: &ListedBeans<'_>,
    sight: Visible<'_>,
    call: CallDecl,
) -> Result<CallSite, AllocError>
    ensures { IfOk result (λ site. site ≡ site_of decls.now beans.now (sight_in sight.entry) call) }
{
    if let Some(place) = point_named(sight.params, call.point) {
        let target = target_at(beans, sight.param_targets, place);
        return site_at(decls, Via::Param(position_at(place)?), target, call.method);
    }
    let place = point_named(sight.points, call.point).unwrap_or(sight.points.len());
    let target = target_at(beans, sight.targets, place);
    site_at(decls, Via::Own(position_at(place)?), target, call.method)
}

/// Where each of some call sites leads.
pub(crate) fn sites_of(
    alloc: Global,
    decls: &Decls,
    beans: &ListedBeans<'_>,
    sight: Visible<'_>,
    calls: &[CallDecl],
) -> Result<Seq<CallSite>, AllocError>
    ensures { IfOk result (λ sites. sites ≡ map (site_of decls.now beans.now (sight_in sight.entry)) calls.now) }
{
    let mut sites = Seq::new(alloc);
    for call in calls {
        sites.push(site_of(decls, beans, sight, *call)?)?;
    }
    Ok(sites)
}
