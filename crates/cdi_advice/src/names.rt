//! Names of beans that clash.
use crate::advice::{Advice, Beans};
use crate::adviser::Adviser;
use crate::verdicts::text_of_verdict;
use crate::words::filled;
use cdi_explain::{Verdict, verdicts_on_name};
use cdi_model::Name;
use std::alloc::AllocError;

/// Several beans have a name, and none of them is chosen for it.
pub(crate) fn clash(adviser: &Adviser<'_>, name: Name) -> Result<Advice, AllocError> {
    let alloc = adviser.alloc;
    let beans = adviser.beans;
    let mut told = Beans::new(alloc);
    for (bean, verdict) in beans.iter().zip(verdicts_on_name(alloc, beans, name)?) {
        if verdict != Verdict::LacksName && told.has_room() {
            told.push(bean.id, text_of_verdict(adviser, bean, verdict, &[])?)?;
        } else {
            told.pass();
        }
    }
    Ok(Advice {
        wanted: Some(filled(alloc, "name {}", &[name.as_str()])?),
        beans: told,
        help: String::from_str(
            alloc,
            "give one of them another name, or make one an alternative with a greater priority",
        )?,
    })
}

/// The name of a bean is that of another, a dot and a name.
pub(crate) fn prefix(
    adviser: &Adviser<'_>,
    name: Name,
    longer: Name,
) -> Result<Advice, AllocError> {
    let alloc = adviser.alloc;
    let mut advice = of_names(adviser, &[name, longer])?;
    advice.help = filled(
        alloc,
        "{} is read as a property of {}: give one of them another name",
        &[longer.as_str(), name.as_str()],
    )?;
    Ok(advice)
}

/// The enabled beans that have one of some names.
fn of_names(adviser: &Adviser<'_>, names: &[Name]) -> Result<Advice, AllocError> {
    let alloc = adviser.alloc;
    let mut told = Beans::new(alloc);
    for bean in adviser.beans {
        match bean.name {
            Some(name) if bean.is_enabled && names.contains(&name) && told.has_room() => {
                told.push(bean.id, filled(alloc, "has the name {}", &[name.as_str()])?)?;
            }
            _ => told.pass(),
        }
    }
    Ok(Advice {
        wanted: None,
        beans: told,
        help: String::new(alloc),
    })
}
