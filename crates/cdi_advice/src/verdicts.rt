//! Verdicts in words.
use crate::adviser::Adviser;
use crate::words::{filled, listed, text_of};
use cdi_effective::Effective;
use cdi_explain::{Disabled, Verdict, replacer_of};
use cdi_model::Qual;
use std::alloc::{AllocError, Global};

/// A verdict on a bean in words, where these qualifiers are wanted.
pub(crate) fn text_of_verdict(
    adviser: &Adviser<'_>,
    bean: &Effective,
    verdict: Verdict,
    quals: &[Qual],
) -> Result<String, AllocError> {
    let words = match verdict {
        Verdict::LacksQualifier { wanted, has } => {
            return text_of_lacking(adviser.alloc, bean, quals.get(wanted), has);
        }
        Verdict::Disabled(why) => return text_of_disabled(adviser, bean, why),
        Verdict::Chosen => "is chosen",
        Verdict::Tied => "fits, and so do others",
        Verdict::LowerPriority => "is an alternative of a lower priority",
        Verdict::NoAlternative => "is no alternative, and one is there",
        Verdict::LacksType => "lacks the type",
        Verdict::LacksName => "lacks the name",
    };
    String::from_str(adviser.alloc, words)
}

/// Which qualifier a bean lacks, and what it has in its place. None is written where `Default` is wanted.
fn text_of_lacking(
    alloc: Global,
    bean: &Effective,
    wanted: Option<&Qual>,
    has: Option<usize>,
) -> Result<String, AllocError> {
    let Some(wanted) = wanted else {
        let quals = listed(alloc, bean.qualifiers.as_slice())?;
        return filled(
            alloc,
            "lacks Default, since it has qualifiers of its own ({})",
            &[quals.as_str()],
        );
    };
    let wanted = text_of(alloc, wanted)?;
    match qualifier_at(bean, has) {
        Some(has) => {
            let has = text_of(alloc, has)?;
            filled(
                alloc,
                "lacks {}, and has {}",
                &[wanted.as_str(), has.as_str()],
            )
        }
        None => filled(alloc, "lacks {}", &[wanted.as_str()]),
    }
}

/// The qualifier of a bean at a position.
fn qualifier_at(bean: &Effective, position: Option<usize>) -> Option<&Qual> {
    bean.qualifiers.as_slice().get(position?)
}

/// Why a bean is disabled.
fn text_of_disabled(
    adviser: &Adviser<'_>,
    bean: &Effective,
    why: Disabled,
) -> Result<String, AllocError> {
    let alloc = adviser.alloc;
    match why {
        Disabled::NoPriority => {
            String::from_str(alloc, "is disabled, as an alternative without a priority")
        }
        Disabled::Specialized => match replacer_of(alloc, adviser.decls, bean.id.class)? {
            Some(other) => filled(
                alloc,
                "is disabled, as {} specializes it",
                &[other.as_str()],
            ),
            None => String::from_str(alloc, "is disabled, as another bean specializes it"),
        },
        Disabled::Declaring => filled(
            alloc,
            "is disabled, as its bean {} is",
            &[bean.declaring_bean.as_str()],
        ),
    }
}
