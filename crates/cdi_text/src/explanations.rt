//! Why a text declares nothing, and where in it.
ghost use Rattle.std.specs.Prelude.{◌≡◌, IfOk, IfSome, Some, [], option_map};
ghost use Rattle.std.specs.Result.{result_err};
ghost use Rattle.toml.specs.View.{table_view};
ghost use Rattle.cdi_text.specs.Conditions.{refusal_of};
ghost use Rattle.cdi_text.specs.Places.{IsLineOf, IsToKind, IsWayTo, last_key, line_of_way, present_part};
ghost use Rattle.cdi_text.specs.Reading.{decl_of, decl_of_members, tree_of};
ghost use Rattle.cdi_text.specs.KeyLines.{line_of_key};

use crate::key_lines::{line_at, line_of_key};
use crate::places::{Place, first_place, to_key};
use crate::read::{TEXT_LIMIT, kind_in, schema_of};
use crate::steps::{Path, Step};
use cdi_model::Refusal;
use std::alloc::{AllocError, Global};
use toml::Table;

/// Why a text declares nothing, and where in it.
#[derive(Debug, PartialEq, Eq, Drop)]
pub struct Explanation {
    /// Why it is refused.
    pub refusal: Refusal,
    /// The way to what is refused, which is empty where it is the whole text.
    pub path: Path,
    /// The line of what is refused, from 1, if it is known.
    pub line: Option<usize>,
}

/// Why a text declares nothing, and where in it; nothing of a text that `read_decl` accepts.
///
/// A text that is too long or not TOML is refused as a whole, and one of an unknown kind at its key `kind`. Any other is
/// refused at the first place of which its condition holds: the value at a key, an entry of a list, or a required key
/// that is missing. Where a param has the name of a point, the place is the list of the params. Places are gone through
/// in the order of their keys and entries.
///
/// The line of a text that is not TOML is that in which its error begins. Any other line is that of the last key of the
/// path that is not missing. It is told only where that key is bare, and stands just once in the text, not counting
/// longer words.
///
/// It takes memory for the path, and what `read_decl` takes to read the text, and time near the size of the text.
///
/// # Errors
///
/// `AllocError` where memory runs out.
pub fn explain_refusal(alloc: Global, text: &[u8]) -> Result<Option<Explanation>, AllocError>
    // That of `read_decl`, if it refuses the text.
    ensures refusal { IfOk result (λ told. option_map (λ e. e.refusal) told ≡ result_err (decl_of text.now)) }
    ensures path { IfOk result (λ told. IfSome told (λ e. IsWayTo e.refusal text.now e.path.0.items)) }
    ensures line { IfOk result (λ told. IfSome told (λ e. IsLineOf e.refusal text.now e.path.0.items e.line)) }
{
    if text.len() > TEXT_LIMIT {
        return Ok(Some(of_whole(alloc, Refusal::TooLong, None)));
    }
    match toml::table_from_slice(alloc, text) {
        Ok(table) => explain_table(alloc, text, &table),
        Err(error) => match error.span() {
            Some(span) => {
                let line = line_at(text, span.start);
                Ok(Some(of_whole(alloc, Refusal::NotToml, Some(line))))
            }
            None => Err(AllocError),
        },
    }
}

fn of_whole(alloc: Global, refusal: Refusal, line: Option<usize>) -> Explanation
    ensures refusal { result.refusal ≡ refusal }
    ensures path { result.path.0.items ≡ [] }
    ensures line { result.line ≡ line }
{
    Explanation {
        refusal,
        path: Path(Vec::new(alloc)),
        line,
    }
}

fn explain_table(
    alloc: Global,
    text: &[u8],
    table: &Table,
) -> Result<Option<Explanation>, AllocError>
    ensures refusal { IfOk result (λ told.
        option_map (λ e. e.refusal) told ≡ result_err (decl_of_members (table_view table.now))) }
    ensures path { tree_of text.now ≡ Some (table_view table.now)
        → IfOk result (λ told. IfSome told (λ e. IsWayTo e.refusal text.now e.path.0.items)) }
    ensures line { IfOk result (λ told. IfSome told (λ e. IsLineOf e.refusal text.now e.path.0.items e.line)) }
{
    match kind_in(table) {
        Some(kind) => match first_place(alloc, schema_of(kind), table)? {
            Some(place) => Ok(Some(explain_place(text, place))),
            None => Ok(None),
        },
        None => Ok(Some(explain_kind(alloc, text)?)),
    }
}

fn explain_kind(alloc: Global, text: &[u8]) -> Result<Explanation, AllocError>
    ensures refusal { IfOk result (λ e. e.refusal ≡ Refusal.UnknownKind) }
    ensures path { IfOk result (λ e. IsToKind e.path.0.items) }
    ensures line { IfOk result (λ e. e.line ≡ line_of_way text.now e.path.0.items) }
{
    let path = Path(to_key(alloc, "kind", Vec::new(alloc))?);
    let line = line_of_way(text, path.0.as_slice());
    Ok(Explanation {
        refusal: Refusal::UnknownKind,
        path,
        line,
    })
}

fn explain_place(text: &[u8], place: Place) -> Explanation
    ensures refusal { result.refusal ≡ refusal_of place.condition }
    ensures path { result.path.0.items ≡ place.way.items }
    ensures line { result.line ≡ line_of_way text.now (present_part (refusal_of place.condition) place.way.items) }
{
    let refusal = place.condition.refusal();
    let line = line_of_way(text, present_part(refusal, place.way.as_slice()));
    Explanation {
        refusal,
        path: Path(place.way),
        line,
    }
}

fn line_of_way(text: &[u8], way: &[Step]) -> Option<usize>
    ensures { result ≡ line_of_way text.now way.now }
{
    line_of_key(text, last_key(way)?)
}

/// The part of a way that stands in the text: a key that is missing does not.
fn present_part(refusal: Refusal, way: &[Step]) -> &[Step]
    ensures { result.now ≡ present_part refusal way.now }
{
    match refusal {
        Refusal::MissingKey => &way[..way.len().saturating_sub(1)],
        _ => way,
    }
}

fn last_key(way: &[Step]) -> Option<&[u8]>
    ensures { option_map (λ k. k.now) result ≡ last_key way.now }
{
    let mut last = None;
    for step in way {
        if let Step::Key(key) = step {
            last = Some(key.as_bytes());
        }
    }
    last
}
