//! The order of priorities.
ghost use Rattle.std.specs.Prelude.{◌≡◌};
ghost use Rattle.cdi_resolve.specs.Choices.{is_less};
ghost use Rattle.cdi_explain.specs.Verdicts.{greater};

/// Whether a priority is below another; none is below any.
pub(crate) fn is_less(first: Option<i64>, second: Option<i64>) -> bool
    ensures { result ≡ is_less first second }
{
    match (first, second) {
        (_, None) => false,
        (None, Some(_)) => true,
        (Some(first), Some(second)) => first < second,
    }
}

/// The greater of two priorities.
pub(crate) fn greater(first: Option<i64>, second: Option<i64>) -> Option<i64>
    ensures { result ≡ greater first second }
{
    if is_less(first, second) {
        second
    } else {
        first
    }
}
