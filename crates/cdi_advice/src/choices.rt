//! Injection points and call sites.
use crate::advice::{Advice, Beans};
use crate::adviser::{Adviser, Part};
use crate::near::nearest_ident;
use crate::notes::Notes;
use crate::verdicts::text_of_verdict;
use crate::words::{List, filled, listed, text_of};
use cdi_effective::BeanId;
use cdi_explain::{Disabled, Verdict, verdicts_on_choice};
use cdi_faults::Subject;
use cdi_model::{
    BeanDecl, Decl, Form, Ident, Kind, Mention, Name, PartPlace, PointDecl, PointPlace, Quals,
    TypeDecl,
};
use indexmap::IndexSet;
use std::alloc::{AllocError, Global};

/// No bean fits an injection point.
pub(crate) fn unsatisfied(
    adviser: &Adviser<'_>,
    notes: &mut Notes,
    part: Part<'_>,
) -> Result<Advice, AllocError> {
    let Some(point) = point_at_fault(part) else {
        return adviser.see();
    };
    let considered = considered_at(adviser, notes, point)?;
    let help = help_for_unsatisfied(adviser, point, &considered)?;
    Ok(considered.into_advice(help))
}

/// Several beans fit an injection point.
pub(crate) fn ambiguous(
    adviser: &Adviser<'_>,
    notes: &mut Notes,
    part: Part<'_>,
) -> Result<Advice, AllocError> {
    let Some(point) = point_at_fault(part) else {
        return adviser.see();
    };
    let considered = considered_at(adviser, notes, point)?;
    let help = filled(
        adviser.alloc,
        "make one of {} an alternative with a greater priority than the others, or ask at {} for a qualifier that one of them alone has",
        &[considered.tied.as_str(), point.name.as_str()],
    )?;
    Ok(considered.into_advice(help))
}

/// What is chosen for an injection point cannot be put behind its type.
pub(crate) fn unproxyable(
    adviser: &Adviser<'_>,
    notes: &mut Notes,
    part: Part<'_>,
) -> Result<Advice, AllocError> {
    let Some(point) = point_at_fault(part) else {
        return adviser.see();
    };
    let considered = considered_at(adviser, notes, point)?;
    let help = help_for_unproxyable(adviser.alloc, &point.required_type, considered.chosen)?;
    Ok(considered.into_advice(help))
}

/// What to write where the bean that is chosen for a type cannot be put behind it.
fn help_for_unproxyable(
    alloc: Global,
    required_type: &Name,
    chosen: Option<BeanId>,
) -> Result<String, AllocError> {
    let Some(chosen) = chosen else {
        return Ok(String::new(alloc));
    };
    let bean = text_of(alloc, &chosen)?;
    filled(
        alloc,
        "leave final out of the type {}, or ask for an interface of {}; or give {} the scope dependent and no interceptor",
        &[required_type.as_str(), bean.as_str(), bean.as_str()],
    )
}

/// A call site names a point that its body does not see, or a method that the chosen bean does not have.
pub(crate) fn site(
    adviser: &Adviser<'_>,
    notes: &mut Notes,
    part: Part<'_>,
) -> Result<Advice, AllocError> {
    let Subject::Call {
        place,
        point,
        method,
    } = part.subject
    else {
        return adviser.see();
    };
    match point_seen(part, place, point) {
        Some(point) => lacking_method(adviser, notes, point, method),
        None => unseen_point(adviser, part, place, point),
    }
}

/// A call site names a point that its body does not see.
fn unseen_point(
    adviser: &Adviser<'_>,
    part: Part<'_>,
    place: &PartPlace,
    point: &Ident,
) -> Result<Advice, AllocError> {
    let seen = points_seen(adviser.alloc, part, place)?;
    let list = listed(adviser.alloc, seen.as_slice())?;
    let place = text_of(adviser.alloc, place)?;
    match nearest_ident(adviser.alloc, point, seen.as_slice())? {
        Some(near) => adviser.help(
            "{} sees no point {}: write {} if that is meant; it sees: {}",
            &[place.as_str(), point.as_str(), near.as_str(), list.as_str()],
        ),
        None => adviser.help(
            "{} sees no point {}; it sees: {}",
            &[place.as_str(), point.as_str(), list.as_str()],
        ),
    }
}

/// A call site names a method that the bean chosen for its point does not have.
fn lacking_method(
    adviser: &Adviser<'_>,
    notes: &mut Notes,
    point: &PointDecl,
    method: &Ident,
) -> Result<Advice, AllocError> {
    let considered = considered_at(adviser, notes, point)?;
    let methods = methods_of_chosen(adviser, considered.chosen)?;
    let help = help_for_lacking_method(adviser.alloc, &point.name, method, methods.as_slice())?;
    Ok(considered.into_advice(help))
}

/// The methods of a bean that is chosen, if one is.
fn methods_of_chosen(
    adviser: &Adviser<'_>,
    chosen: Option<BeanId>,
) -> Result<Vec<Ident>, AllocError> {
    match chosen {
        Some(chosen) => methods_of(adviser.alloc, adviser.bean(&chosen.class)),
        None => Ok(Vec::new(adviser.alloc)),
    }
}

/// What to write where a bean has no such method.
fn help_for_lacking_method(
    alloc: Global,
    point: &Ident,
    method: &Ident,
    methods: &[Ident],
) -> Result<String, AllocError> {
    let list = listed(alloc, methods)?;
    match nearest_ident(alloc, method, methods)? {
        Some(near) => filled(
            alloc,
            "what is chosen for {} has no method {}: write {} if that is meant; it has: {}",
            &[
                point.as_str(),
                method.as_str(),
                near.as_str(),
                list.as_str(),
            ],
        ),
        None => filled(
            alloc,
            "what is chosen for {} has no method {}; it has: {}",
            &[point.as_str(), method.as_str(), list.as_str()],
        ),
    }
}

/// The injection point that is at fault.
fn point_at_fault<'a>(part: Part<'a>) -> Option<&'a PointDecl> {
    match part.subject {
        Subject::Point { place, name } => point_in(part, place, name),
        _ => None,
    }
}

/// The injection point of a name that is a parameter in a place.
fn point_in<'a>(part: Part<'a>, place: &PointPlace, name: &Ident) -> Option<&'a PointDecl> {
    for mention in part.decl.mentions() {
        if let Mention::Point(at, point) = mention {
            if at == *place && point.name == *name {
                return Some(point);
            }
        }
    }
    None
}

/// The injection point that a body in a place sees under a name.
fn point_seen<'a>(part: Part<'a>, place: &PartPlace, name: &Ident) -> Option<&'a PointDecl> {
    for mention in part.decl.mentions() {
        if let Mention::Point(at, point) = mention {
            if is_seen(place, at) && point.name == *name {
                return Some(point);
            }
        }
    }
    None
}

/// The names of the points that a body in a place sees.
fn points_seen(alloc: Global, part: Part<'_>, place: &PartPlace) -> Result<Vec<Ident>, AllocError> {
    let mut names = Vec::new(alloc);
    for mention in part.decl.mentions() {
        if let Mention::Point(at, point) = mention {
            if is_seen(place, at) {
                names.push(point.name)?;
            }
        }
    }
    Ok(names)
}

/// Whether a body in a place sees the points that are parameters in another: those of its own method, and those of the
/// constructor unless the method is static.
fn is_seen(place: &PartPlace, at: PointPlace) -> bool {
    match at {
        PointPlace::Constructor => !matches!(place, PartPlace::StaticProducer(_)),
        PointPlace::Producer(name) => match place {
            PartPlace::Producer(own) | PartPlace::StaticProducer(own) => name == *own,
            _ => false,
        },
        PointPlace::Observer(name) => match place {
            PartPlace::Observer(own) => name == *own,
            _ => false,
        },
    }
}

/// The names of the methods of a bean.
fn methods_of(alloc: Global, bean: Option<&BeanDecl>) -> Result<Vec<Ident>, AllocError> {
    let mut names = Vec::new(alloc);
    if let Some(bean) = bean {
        for method in bean.methods.as_slice() {
            names.push(method.name)?;
        }
    }
    Ok(names)
}

/// What is told of the beans that have a type, where one with some qualifiers is wanted.
#[derive(Drop)]
pub(crate) struct Considered {
    wanted: String,
    beans: Beans,
    /// The beans that fit as well as others, as a list.
    tied: String,
    chosen: Option<BeanId>,
    /// The first bean to which little is wanting: a qualifier, or a priority.
    nearly: Option<(BeanId, Verdict)>,
}

impl Considered {
    fn of(adviser: &Adviser<'_>, wanted: &Name, quals: &Quals) -> Result<Considered, AllocError> {
        let alloc = adviser.alloc;
        let beans = adviser.beans;
        let verdicts = verdicts_on_choice(alloc, adviser.decls, beans, *wanted, quals)?;
        let mut told = Beans::new(alloc);
        let mut tied = List::new(alloc);
        let mut chosen = None;
        let mut nearly = None;
        for (bean, verdict) in beans.iter().zip(verdicts) {
            if verdict != Verdict::LacksType && told.has_room() {
                told.push(
                    bean.id,
                    text_of_verdict(adviser, bean, verdict, quals.as_slice())?,
                )?;
            } else {
                told.pass();
            }
            match verdict {
                Verdict::Tied => tied.push(&bean.id)?,
                Verdict::Chosen => chosen = Some(bean.id),
                _ if is_nearly(verdict) && nearly.is_none() => nearly = Some((bean.id, verdict)),
                _ => {}
            }
        }
        Ok(Considered {
            wanted: text_of_wanted(alloc, wanted, quals)?,
            beans: told,
            tied: tied.into_text()?,
            chosen,
            nearly,
        })
    }

    /// The same where no bean has the type.
    fn of_none(
        adviser: &Adviser<'_>,
        wanted: &Name,
        quals: &Quals,
    ) -> Result<Considered, AllocError> {
        let alloc = adviser.alloc;
        let others = adviser.beans.len();
        let mut beans = Beans::new(alloc);
        beans.others = others;
        Ok(Considered {
            wanted: text_of_wanted(alloc, wanted, quals)?,
            beans,
            tied: List::new(alloc).into_text()?,
            chosen: None,
            nearly: None,
        })
    }

    fn copy(&self, alloc: Global) -> Result<Considered, AllocError> {
        Ok(Considered {
            wanted: self.wanted.clone()?,
            beans: self.beans.copy(alloc)?,
            tied: self.tied.clone()?,
            chosen: self.chosen,
            nearly: self.nearly,
        })
    }

    fn into_advice(self, help: String) -> Advice {
        Advice {
            wanted: Some(self.wanted),
            beans: self.beans,
            help,
        }
    }
}

/// Whether little is wanting to a bean with a verdict.
fn is_nearly(verdict: Verdict) -> bool {
    matches!(
        verdict,
        Verdict::LacksQualifier { .. } | Verdict::Disabled(Disabled::NoPriority)
    )
}

/// What is told of the beans that have the type that an injection point requires. Points that ask for the same share it.
fn considered_at(
    adviser: &Adviser<'_>,
    notes: &mut Notes,
    point: &PointDecl,
) -> Result<Considered, AllocError> {
    let alloc = adviser.alloc;
    let (wanted, quals) = (&point.required_type, &point.qualifiers);
    if let Some(considered) = notes.points.get(wanted, quals) {
        return considered.copy(alloc);
    }
    if !is_type_of_bean(adviser, notes, wanted)? {
        return Considered::of_none(adviser, wanted, quals);
    }
    let considered = Considered::of(adviser, wanted, quals)?;
    let kept = considered.copy(alloc)?;
    notes.points.keep(*wanted, quals.copy()?, kept)?;
    Ok(considered)
}

/// Whether a bean has a type, enabled or not.
fn is_type_of_bean(
    adviser: &Adviser<'_>,
    notes: &mut Notes,
    wanted: &Name,
) -> Result<bool, AllocError> {
    if let Some(types) = &notes.types {
        return Ok(types.contains(wanted));
    }
    let mut types = IndexSet::new(adviser.alloc);
    for bean in adviser.beans {
        for name in bean.types.as_slice() {
            types.insert(*name)?;
        }
    }
    let is_type = types.contains(wanted);
    notes.types = Some(types);
    Ok(is_type)
}

/// A type and qualifiers, as a question writes them.
fn text_of_wanted(alloc: Global, wanted: &Name, quals: &Quals) -> Result<String, AllocError> {
    if quals.is_empty() {
        return String::from_str(alloc, wanted.as_str());
    }
    let quals = text_of(alloc, quals)?;
    filled(alloc, "{} {}", &[wanted.as_str(), quals.as_str()])
}

/// What to write where no bean fits.
fn help_for_unsatisfied(
    adviser: &Adviser<'_>,
    point: &PointDecl,
    considered: &Considered,
) -> Result<String, AllocError> {
    match considered.nearly {
        Some((bean, Verdict::LacksQualifier { wanted, .. })) => {
            help_for_qualifier(adviser.alloc, point, bean, wanted)
        }
        Some((bean, _)) => {
            let bean = text_of(adviser.alloc, &bean)?;
            filled(
                adviser.alloc,
                "give {} a priority, or make it no alternative",
                &[bean.as_str()],
            )
        }
        None => help_for_type(adviser, &point.required_type),
    }
}

/// What to write where a bean lacks a qualifier alone. None is written where `Default` is wanted.
fn help_for_qualifier(
    alloc: Global,
    point: &PointDecl,
    bean: BeanId,
    wanted: usize,
) -> Result<String, AllocError> {
    let bean = text_of(alloc, &bean)?;
    let (bean, point_name) = (bean.as_str(), point.name.as_str());
    match point.qualifiers.as_slice().get(wanted) {
        Some(qual) => {
            let qual = text_of(alloc, qual)?;
            filled(
                alloc,
                "give {} the qualifier \"{}\", or ask for one that it has at {}",
                &[bean, qual.as_str(), point_name],
            )
        }
        None => filled(
            alloc,
            "ask at {} for a qualifier that {} has, or give {} the qualifier \"Default\"",
            &[point_name, bean, bean],
        ),
    }
}

/// What to write where no bean has a type.
fn help_for_type(adviser: &Adviser<'_>, wanted: &Name) -> Result<String, AllocError> {
    let alloc = adviser.alloc;
    let name = wanted.as_str();
    if name != "Object" && adviser.decls.get(Kind::Type, wanted).is_none() {
        return filled(alloc, "no type {} is declared", &[name]);
    }
    match class_of_type(adviser, wanted) {
        Some(class) => filled(
            alloc,
            "declare a bean of the class {}, which has the type {}",
            &[class.as_str(), name],
        ),
        None => filled(
            alloc,
            "declare a class that has the type {}, and a bean of it",
            &[name],
        ),
    }
}

/// The first declared class that is a type, or extends or implements it, and has no bean.
fn class_of_type(adviser: &Adviser<'_>, wanted: &Name) -> Option<Name> {
    for decl in adviser.decls.iter() {
        if let Decl::Type(class) = decl {
            if class.form == Form::Class
                && adviser.bean(&class.name).is_none()
                && has_directly(class, wanted)
            {
                return Some(class.name);
            }
        }
    }
    None
}

/// Whether a class is a type, or extends or implements it.
fn has_directly(class: &TypeDecl, wanted: &Name) -> bool {
    class.name == *wanted
        || class.extends == Some(*wanted)
        || class.implements.as_slice().contains(wanted)
}
