//! The entries of a trace, with names in place of positions.
ghost use Rattle.std.specs.Prelude.{◌≡◌, ◌++◌, [], IfOk, OnErr, OnOk, map, option_copied};
ghost use Rattle.std.specs.Iterator.{YieldsFirstBy, item_count};
ghost use Rattle.cdi_trace.specs.Entries.{bean_of_entry, call_of_entry, event_of_entry, interceptor_of_entry, number_of_entry};
ghost use Rattle.cdi_trace.specs.Entries.{place_of_seat, place_of_entry, seat_of, shown};
ghost use Rattle.cdi_trace.specs.TraceText.{text_of_entries};

use crate::lookup::{bean_in, call_in, fire_in, interceptor_in, method_in, observer_in};
use crate::parts::{CallText, ClassText, FireText, InstanceText, OutcomeText, PlaceText, SeatText};
use cdi_contexts::Actor;
use cdi_effective::BeanId;
use cdi_legal::{Entries, Entry};
use cdi_model::{CallDecl, EventDecl, Name, PartPlace};
use cdi_scene::{Place, Seat};
use cdi_staging::Names;
use std::alloc::{AllocError, Global};
use std::fmt;
use std::io::Write;
use std::marker::Model;

/// An entry of a trace, with the names of what it is about. It prints as its line of the trace, without the two spaces.
#[derive(Clone, Copy)]
pub struct NamedEntry<'a> {
    names: &'a Names,
    entry: Entry,
}

impl<'a> NamedEntry<'a> {
    /// The entry, with positions in place of names.
    pub fn entry(&self) -> Entry
        ensures { result ≡ (shown self.now).entry }
    {
        self.entry
    }

    /// The bean that the entry is about: that of the instance, or the one whose part runs, calls, fires or is skipped.
    pub fn bean(&self) -> Option<BeanId>
        ensures { result ≡ bean_of_entry (shown self.now) }
    {
        let position = match self.entry {
            Entry::Create { id, .. } => id.bean,
            Entry::Ready { id, .. } => id.bean,
            Entry::Broken { id, .. } => id.bean,
            Entry::Enter { seat, .. } => seat.bean,
            Entry::Called { seat, .. } => seat.bean,
            Entry::Fired { seat, .. } => seat.bean,
            Entry::Skip { observer } => observer.bean,
            Entry::Destroy { id } => id.bean,
            Entry::Gone { id } => id.bean,
            Entry::Loaded { .. }
            | Entry::Stored { .. }
            | Entry::Proceeded { .. }
            | Entry::Got { .. }
            | Entry::Leave { .. } => return None,
        };
        let bean = bean_in(self.names, position)?;
        Some(bean.id)
    }

    /// The number of the instance that the entry is about. None where a static producer method or a disposer method
    /// runs, and where the entry is about no instance.
    pub fn number(&self) -> Option<u64>
        ensures { result ≡ number_of_entry (shown self.now).entry }
    {
        match self.entry {
            Entry::Create { id, .. } => Some(id.number),
            Entry::Ready { id, .. } => Some(id.number),
            Entry::Broken { id, .. } => Some(id.number),
            Entry::Enter { seat, .. } => seat.number,
            Entry::Stored { number, .. } => Some(number),
            Entry::Called { seat, .. } => seat.number,
            Entry::Fired { seat, .. } => seat.number,
            Entry::Destroy { id } => Some(id.number),
            Entry::Gone { id } => Some(id.number),
            Entry::Loaded { .. }
            | Entry::Proceeded { .. }
            | Entry::Got { .. }
            | Entry::Leave { .. }
            | Entry::Skip { .. } => None,
        }
    }

    /// Where the body runs that begins, calls or fires.
    fn seat(&self) -> Option<Seat>
        ensures { result ≡ seat_of (shown self.now).entry }
    {
        match self.entry {
            Entry::Enter { seat, .. } => Some(seat),
            Entry::Called { seat, .. } => Some(seat),
            Entry::Fired { seat, .. } => Some(seat),
            _ => None,
        }
    }

    /// The place at which the body runs that begins, calls or fires, or the observer method that is skipped. Around a
    /// place it is the place of the bean, and not that of the interceptor.
    pub fn place(&self) -> Option<PartPlace>
        ensures { result ≡ place_of_entry (shown self.now) }
    {
        if let Entry::Skip { observer } = self.entry {
            let method = observer_in(self.names, observer.bean, observer.observer)?;
            return Some(PartPlace::Observer(method.name));
        }
        place_of_seat(self.names, self.seat()?)
    }

    /// The interceptor whose body begins, calls or fires, if it is one's.
    pub fn interceptor(&self) -> Option<Name>
        ensures { result ≡ interceptor_of_entry (shown self.now) }
    {
        let seat = self.seat()?;
        let Actor::Interceptor(position) = seat.actor else {
            return None;
        };
        let interceptor = interceptor_in(self.names, position)?;
        Some(interceptor.name)
    }

    /// The call site of a call.
    pub fn call(&self) -> Option<&'a CallDecl>
        ensures { option_copied result ≡ call_of_entry (shown self.now) }
    {
        match self.entry {
            Entry::Called { seat, site, .. } => call_in(self.names, seat, usize::from(site)),
            _ => None,
        }
    }

    /// The event that is fired.
    pub fn event(&self) -> Option<&'a EventDecl>
        ensures { option_copied result ≡ event_of_entry (shown self.now) }
    {
        match self.entry {
            Entry::Fired { seat, site, .. } => fire_in(self.names, seat, usize::from(site)),
            _ => None,
        }
    }
}

/// The place of a seat.
fn place_of_seat(names: &Names, seat: Seat) -> Option<PartPlace>
    ensures { result ≡ place_of_seat names.now seat }
{
    match seat.place {
        Place::Construct => Some(PartPlace::Construct),
        Place::Post => Some(PartPlace::Post),
        Place::Pre => Some(PartPlace::Pre),
        Place::Method(position) => {
            let method = method_in(names, seat.bean, position)?;
            Some(PartPlace::Method(method.name))
        }
        Place::Producer(product) => {
            let name = bean_in(names, product)?.id.producer?;
            match seat.number {
                Some(_) => Some(PartPlace::Producer(name)),
                None => Some(PartPlace::StaticProducer(name)),
            }
        }
        Place::Disposer(product) => {
            let name = bean_in(names, product)?.disposer?;
            Some(PartPlace::Disposer(name))
        }
        Place::Observer(position) => {
            let method = observer_in(names, seat.bean, position)?;
            Some(PartPlace::Observer(method.name))
        }
    }
}

impl fmt::Display for NamedEntry<'_> {
    ghost use Rattle.std.specs.Prelude.{Some};
    ghost use Rattle.cdi_trace.specs.Entries.{shown};
    ghost use Rattle.cdi_trace.specs.TraceText.{text_of_entry};

    ghost output = { λ e. Some (text_of_entry (shown e).names (shown e).entry) };

    fn fmt<W: fmt::Write>(&self, f: &mut fmt::Formatter<W>) -> fmt::Result {
        let names = self.names;
        match self.entry {
            Entry::Create { id, .. } => write!(f, "create {}", InstanceText { names, id }),
            Entry::Ready { id, .. } => write!(f, "ready {}", InstanceText { names, id }),
            Entry::Broken { id, failure } => {
                write!(f, "broken {} {failure}", InstanceText { names, id })
            }
            Entry::Enter { seat, arg } => {
                write!(f, "enter {} arg {arg}", SeatText { names, seat })
            }
            Entry::Loaded { value } => write!(f, "load {value}"),
            Entry::Stored { value, .. } => write!(f, "store {value}"),
            Entry::Called { seat, site, arg } => {
                let call = CallText(call_in(names, seat, usize::from(site)));
                write!(f, "call {call} {arg}")
            }
            Entry::Fired { seat, site, arg } => {
                let event = FireText(fire_in(names, seat, usize::from(site)));
                write!(f, "fire {arg} {event}")
            }
            Entry::Proceeded { arg } => write!(f, "proceed {arg}"),
            Entry::Got { outcome } => write!(f, "got {}", OutcomeText(outcome)),
            Entry::Leave { outcome } => write!(f, "leave {}", OutcomeText(outcome)),
            Entry::Skip { observer } => {
                let bean = observer.bean;
                let class = ClassText { names, bean };
                let place = PlaceText {
                    names,
                    bean,
                    place: Place::Observer(observer.observer),
                };
                write!(f, "skip {class} {place}")
            }
            Entry::Destroy { id } => write!(f, "destroy {}", InstanceText { names, id }),
            Entry::Gone { id } => write!(f, "gone {}", InstanceText { names, id }),
        }
    }
}

impl fmt::Debug for NamedEntry<'_> {
    fn fmt<W: fmt::Write>(&self, f: &mut fmt::Formatter<W>) -> fmt::Result {
        write!(f, "{self}")
    }
}

/// The entries of a trace, in order, with names in place of positions.
#[derive(Drop)]
pub struct NamedEntries<'a> {
    names: Option<&'a Names>,
    rest: Entries<'a>,
}

impl<'a> Model for NamedEntries<'a> {
    ghost use Rattle.std.specs.Prelude.{List, option_copied};
    ghost use Rattle.cdi_trace.specs.Entries.{Shown, all_shown};

    ghost Value = { List Shown };

    ghost view = { λ e. all_shown (option_copied e.names) e.rest };
}

impl<'a> NamedEntries<'a> {
    ghost use Rattle.cdi_trace.specs.Entries.{Shown};

    /// These entries, by these names.
    pub fn new(names: &'a Names, entries: Entries<'a>) -> NamedEntries<'a>
        ensures { result ≡ map (λ entry. record { names = names.now; entry = entry }) entries.entry }
    {
        NamedEntries {
            names: Some(names),
            rest: entries,
        }
    }

    /// No entry.
    pub fn none() -> NamedEntries<'a>
        ensures { result ≡ [] }
    {
        NamedEntries {
            names: None,
            rest: Entries::none(),
        }
    }
}

impl<'a> Iterator for NamedEntries<'a> {
    type Item = NamedEntry<'a>;

    ghost next_gives = { YieldsFirstBy shown (λ s. s) };

    ghost remaining = { item_count (λ s. s) };

    fn next(&mut self) -> Option<NamedEntry<'a>> {
        let names = self.names?;
        let entry = self.rest.next()?;
        Some(NamedEntry { names, entry })
    }
}

impl fmt::Debug for NamedEntries<'_> {
    fn fmt<W: fmt::Write>(&self, f: &mut fmt::Formatter<W>) -> fmt::Result {
        write!(f, "NamedEntries")
    }
}

/// Appends the text of entries, each on a line of its own after two spaces. It takes memory for the text; at `Err`
/// nothing is appended. Each name is found by its position.
pub fn push_entries(
    text: &mut Vec<u8>,
    names: &Names,
    entries: Entries<'_>,
) -> Result<(), AllocError>
    ensures ok { OnOk result (text.new.items ≡ text.old.items ++ text_of_entries names.now entries.entry) }
    ensures err { OnErr result (text.new.items ≡ text.old.items) }
{
    let own = text_of_entries(*text.allocator(), names, entries)?;
    text.extend_from_slice(own.as_slice())
}

/// The text of entries.
fn text_of_entries(
    alloc: Global,
    names: &Names,
    entries: Entries<'_>,
) -> Result<Vec<u8>, AllocError>
    ensures { IfOk result (λ own. own.items ≡ text_of_entries names.now entries.entry) }
{
    let mut own = Vec::new(alloc);
    for entry in entries {
        let entry = NamedEntry { names, entry };
        writeln!(own, "  {entry}").map_err(|_| AllocError)?;
    }
    Ok(own)
}
