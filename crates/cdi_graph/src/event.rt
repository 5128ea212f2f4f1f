//! The distinct events of a plan.

use crate::plan::Fired;
use cdi_model::{Name, Quals};
use indexmap::IndexSet;
use std::alloc::{AllocError, Global};

/// An event by which fire sites are compared.
#[derive(Clone, Copy, PartialEq, Eq, Hash)]
struct EventKey<'a> {
    event_type: &'a Name,
    qualifiers: &'a Quals,
}

/// Which event is fired at a site.
#[derive(Clone, Copy)]
pub(crate) struct Site {
    /// Its place among the distinct events.
    pub(crate) event: usize,
    /// Whether no site before fires it.
    pub(crate) is_first: bool,
}

/// Which event is fired at each of some sites. It takes memory for the events and the sites.
pub(crate) fn sites_of<'a>(alloc: Global, fired: &'a [Fired<'a>]) -> Result<Vec<Site>, AllocError> {
    let mut events = IndexSet::new(alloc);
    let mut sites = Vec::new(alloc);
    for one in fired {
        let (event, is_first) = events.insert_full(EventKey {
            event_type: &one.event.event_type,
            qualifiers: &one.event.qualifiers,
        })?;
        sites.push(Site { event, is_first })?;
    }
    Ok(sites)
}
