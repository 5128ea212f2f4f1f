//! The verdicts among eligible beans.
ghost use Rattle.std.specs.Prelude.{◌≡◌, filter, length, map};
ghost use Rattle.cdi_resolve.specs.Choices.{alternatives, candidate};
ghost use Rattle.cdi_explain.specs.Lent.{lent_in};
ghost use Rattle.cdi_explain.specs.Verdicts.{among_by, is_kept_by, raise, rivals_of, top};

use crate::priority::{greater, is_less};
use crate::verdict::Verdict;
use cdi_effective::Effective;

/// What the eligible beans have among them: the greatest priority of the alternatives, if there is one, and how many are kept.
#[derive(Clone, Copy)]
pub(crate) struct Rivals {
    pub(crate) top: Option<Option<i64>>,
    pub(crate) kept: usize,
}

impl Rivals {
    /// What these eligible beans have.
    pub(crate) fn of(beans: &[&Effective]) -> Rivals
        ensures { result ≡ rivals_of (map candidate (lent_in beans.now)) }
    {
        let top = top_of(beans);
        Rivals {
            top,
            kept: count_kept(beans, top),
        }
    }

    /// The verdict on one of them.
    pub(crate) fn verdict(self, bean: &Effective) -> Verdict
        ensures { result ≡ among_by self (candidate bean.now) }
    {
        if is_kept(bean, self.top) {
            return if self.kept == 1 {
                Verdict::Chosen
            } else {
                Verdict::Tied
            };
        }
        if is_alternative(bean) {
            Verdict::LowerPriority
        } else {
            Verdict::NoAlternative
        }
    }
}

/// The greatest priority of the alternatives, if there is one.
fn top_of(beans: &[&Effective]) -> Option<Option<i64>>
    ensures { result ≡ top (alternatives (map candidate (lent_in beans.now))) }
{
    let mut top = None;
    for bean in beans {
        if is_alternative(bean) {
            top = raised(top, bean.priority);
        }
    }
    top
}

/// How many are kept, where this is the greatest priority of the alternatives.
fn count_kept(beans: &[&Effective], top: Option<Option<i64>>) -> usize
    ensures { result ≡ length (filter (is_kept_by top) (map candidate (lent_in beans.now))) }
{
    let mut count = 0;
    for bean in beans {
        if is_kept(bean, top) {
            count += 1;
        }
    }
    count
}

/// Whether a bean is an alternative, or the product of one.
fn is_alternative(bean: &Effective) -> bool
    ensures { result ≡ (candidate bean.now).is_alternative }
{
    bean.is_alternative || bean.is_of_alternative
}

/// The greatest priority with one more.
fn raised(top: Option<Option<i64>>, priority: Option<i64>) -> Option<Option<i64>>
    ensures { result ≡ raise top priority }
{
    match top {
        None => Some(priority),
        Some(first) => Some(greater(first, priority)),
    }
}

/// Whether an eligible bean is kept, where this is the greatest priority of the eligible alternatives.
fn is_kept(bean: &Effective, top: Option<Option<i64>>) -> bool
    ensures { result ≡ is_kept_by top (candidate bean.now) }
{
    match top {
        None => true,
        Some(greatest) => is_alternative(bean) && !is_less(bean.priority, greatest),
    }
}
