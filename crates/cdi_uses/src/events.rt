//! Which texts are events, and what they say.
ghost use Rattle.std.specs.Prelude.{◌≡◌, ◌↔◌, ◌≤◌, [], true, length, map, option_map, IsTrue, IfOk};
ghost use Rattle.std.specs.List.{list_all};
ghost use Rattle.cdi_model.specs.Bytes.{space};
ghost use Rattle.cdi_model.specs.Quals.{list_limit};
ghost use Rattle.cdi_uses.specs.Events.{is_event, is_event_use, event_repeats, event_of, uses_in};
ghost use Rattle.cdi_uses.specs.Events.{EventsReadBack, SpellsEvent, SpellsEventUse};
ghost use Rattle.cdi_uses.specs.Pieces.{pieces};
ghost use Rattle.cdi_uses.specs.Uses.{quals_from};

use crate::pieces::{cut, next_piece};
use crate::uses::{add_use, has_name_twice, is_use, repeats_some_member};
use cdi_model::{EventDecl, Name, Quals, is_name};
use std::alloc::{AllocError, Global};

/// Whether a text is a use that an event may have, and that an observer may ask for: any but `Default` (profile).
pub fn is_event_use(text: &[u8]) -> bool
    ensures value { result ≡ is_event_use text.now }
    ensures meaning { IsTrue result ↔ SpellsEventUse text.now }
{
    is_use(text) && text != b"Default".as_slice()
}

/// Whether a text is an event: the name of a type, and uses of qualifiers other than `Default`, each after one space
/// (CDI 4.0, Event types and qualifier types). It takes no memory.
pub fn is_event(text: &[u8]) -> bool
    ensures value { result ≡ is_event text.now }
    ensures meaning { IsTrue result ↔ SpellsEvent text.now }
{
    spells_event(text)
}

fn spells_event(text: &[u8]) -> bool
    ensures { result ≡ is_event text.now }
{
    let (event_type, rest) = cut(text, b' ');
    is_name(event_type) && are_event_uses(rest)
}

/// Whether each part of what is left is a use that an event may have.
fn are_event_uses(uses: Option<&[u8]>) -> bool
    ensures { result ≡ list_all is_event_use (pieces space (option_map (λ u. u.now) uses.entry)) }
{
    let mut rest = uses;
    while let Some(left) = rest {
        let (this, more) = next_piece(left, b' ');
        if !is_event_use(this) {
            return false;
        }
        rest = more;
    }
    true
}

/// The number of uses in the text of an event.
pub fn count_uses(text: &[u8]) -> usize
    ensures { result ≡ length (uses_in text.now) }
{
    let (_, mut rest) = cut(text, b' ');
    let mut count = 0;
    while let Some(left) = rest {
        let (_, more) = next_piece(left, b' ');
        count += 1;
        rest = more;
    }
    count
}

/// Whether the text of an event has the name of a qualifier twice, or a use of it writes a member twice.
///
/// It takes memory for the names, and time near their number.
pub fn event_repeats(alloc: Global, text: &[u8]) -> Result<bool, AllocError>
    ensures { IfOk result (λ found. found ≡ event_repeats text.now) }
{
    let uses = uses_in(alloc, text)?;
    if has_name_twice(alloc, uses.as_slice())? {
        return Ok(true);
    }
    repeats_some_member(alloc, uses.as_slice())
}

/// The parts after the type.
fn uses_in<'a>(alloc: Global, text: &'a [u8]) -> Result<Vec<&'a [u8]>, AllocError>
    ensures { IfOk result (λ uses. map (λ u. u.now) uses.items ≡ uses_in text.now) }
{
    let mut uses = Vec::new(alloc);
    let (_, mut rest) = cut(text, b' ');
    while let Some(left) = rest {
        let (this, more) = next_piece(left, b' ');
        uses.push(this)?;
        rest = more;
    }
    Ok(uses)
}

/// The event that such a text spells. Of a qualifier that is written twice the last use counts.
///
/// It takes memory for the uses.
pub fn event_of(alloc: Global, text: &[u8]) -> Result<EventDecl, AllocError>
    requires text { is_event text.now ≡ true }
    requires count { length (uses_in text.now) ≤ list_limit }
    ensures value { IfOk result (λ event. event ≡ event_of text.now) }
    // The text of each event that one can spell is read back as it.
    ensures events { EventsReadBack }
{
    let (event_type, rest) = cut(text, b' ');
    Ok(EventDecl {
        event_type: Name::new(event_type),
        qualifiers: quals_in(alloc, rest)?,
    })
}

/// The qualifiers that the parts of what is left say.
fn quals_in(alloc: Global, uses: Option<&[u8]>) -> Result<Quals, AllocError>
    requires uses { list_all is_event_use (pieces space (option_map (λ u. u.now) uses)) ≡ true }
    requires count { length (pieces space (option_map (λ u. u.now) uses)) ≤ list_limit }
    ensures { IfOk result (λ quals. quals ≡ quals_from [] (pieces space (option_map (λ u. u.now) uses.entry))) }
{
    let mut quals = Quals::new(alloc);
    let mut rest = uses;
    while let Some(left) = rest {
        let (this, more) = next_piece(left, b' ');
        add_use(alloc, &mut quals, this)?;
        rest = more;
    }
    Ok(quals)
}
