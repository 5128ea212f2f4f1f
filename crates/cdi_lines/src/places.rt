//! The places of a bean, as words.
ghost use Rattle.std.specs.Prelude.{◌≡◌};
ghost use Rattle.cdi_lines.specs.Places.{place_alone, place_named, place_of};
ghost use Rattle.cdi_lines.specs.Words.{words_of};

use crate::words::split_word;
use cdi_model::{BeanPlace, Ident};

/// The place of a bean that these words say, if they say one.
pub fn read_place(words: &[u8]) -> Option<BeanPlace>
    ensures { result ≡ place_of (words_of words.now) }
{
    let (word, rest) = split_word(words)?;
    let Some((name, rest)) = split_word(rest) else {
        return read_alone(word);
    };
    if split_word(rest).is_some() {
        return None;
    }
    read_named(word, name)
}

fn read_alone(word: &[u8]) -> Option<BeanPlace>
    ensures { result ≡ place_alone word.now }
{
    if word == b"construct".as_slice() {
        Some(BeanPlace::Construct)
    } else if word == b"post".as_slice() {
        Some(BeanPlace::Post)
    } else if word == b"pre".as_slice() {
        Some(BeanPlace::Pre)
    } else {
        None
    }
}

fn read_named(word: &[u8], name: &[u8]) -> Option<BeanPlace>
    ensures { result ≡ place_named word.now name.now }
{
    if word == b"method".as_slice() {
        Some(BeanPlace::Method(Ident::parse(name)?))
    } else if word == b"producer".as_slice() {
        Some(BeanPlace::Producer(Ident::parse(name)?))
    } else if word == b"observer".as_slice() {
        Some(BeanPlace::Observer(Ident::parse(name)?))
    } else {
        None
    }
}
