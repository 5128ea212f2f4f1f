//! Names that texts are.
use cdi_container::ObserverId;
use cdi_model::Name;

/// Whether these are the names, in this order.
pub fn are_names(found: &[Name], wanted: &[&[u8]]) -> bool {
    found.len() == wanted.len()
        && found
            .iter()
            .zip(wanted.iter())
            .all(|(name, text)| name.as_bytes() == *text)
}

/// Whether observer methods are those of these names.
pub fn are_observers(ids: &[ObserverId], texts: &[&[u8]]) -> bool {
    ids.len() == texts.len()
        && ids
            .iter()
            .zip(texts)
            .all(|(id, text)| id.observer.as_bytes() == *text)
}
