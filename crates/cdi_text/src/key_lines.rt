//! Words of a text: where a key stands in it, and in which line.
ghost use Rattle.std.specs.Prelude.{◌≡◌, ◌≤◌, length, option_copied};
ghost use Rattle.std.specs.List.{list_all};
ghost use Rattle.cdi_text.specs.KeyLines.{is_key_byte, is_bare, is_in_key, stands_at, places, only, line_at, line_of_key};

/// The line of the only place at which a bare key stands as a word, if there is just one.
pub(crate) fn line_of_key(text: &[u8], key: &[u8]) -> Option<usize>
    ensures { result ≡ line_of_key text.now key.now }
{
    if !is_bare(key) {
        return None;
    }
    let place = only_place(text, key)?;
    Some(line_at(text, place))
}

/// The line of a place, from 1.
#[tactic(auto, using(std::proofs::lemmas::List::take_min))]
pub(crate) fn line_at(text: &[u8], place: usize) -> usize
    ensures { result ≡ line_at text.now place }
{
    let mut line = 1;
    for byte in &text[..place.min(text.len())] {
        if *byte == b'\n' {
            line += 1;
        }
    }
    line
}

/// Whether a key may be written without quotes.
pub(crate) fn is_bare(key: &[u8]) -> bool
    ensures { result ≡ is_bare key.now }
{
    !key.is_empty() && are_key_bytes(key)
}

fn are_key_bytes(bytes: &[u8]) -> bool
    ensures { result ≡ list_all is_key_byte bytes.now }
{
    bytes.iter().all(|byte| is_key_byte(*byte))
}

fn is_key_byte(byte: u8) -> bool
    ensures { result ≡ is_key_byte byte }
{
    matches!(byte, b'A'..=b'Z' | b'a'..=b'z' | b'0'..=b'9' | b'_' | b'-')
}

fn is_in_key(byte: Option<&u8>) -> bool
    ensures { result ≡ is_in_key (option_copied byte.entry) }
{
    match byte {
        Some(byte) => is_key_byte(*byte),
        None => false,
    }
}

/// The only place at which a word stands.
#[tactic(auto, using(crate::proofs::KeyLineLemmas::no_place, crate::proofs::KeyLineLemmas::one_place, crate::proofs::KeyLineLemmas::two_found, crate::proofs::KeyLineLemmas::all_found_at))]
fn only_place(text: &[u8], word: &[u8]) -> Option<usize>
    ensures { result ≡ only (places text.now word.now) }
{
    let mut found = None;
    for place in 0..text.len() {
        if stands_at(text, word, place) {
            if found.is_some() {
                return None;
            }
            found = Some(place);
        }
    }
    found
}

fn stands_at(text: &[u8], word: &[u8], place: usize) -> bool
    requires { place ≤ length text.now }
    ensures { result ≡ stands_at text.now word.now place }
{
    let (before, rest) = text.split_at(place);
    rest.starts_with(word) && !is_in_key(before.last()) && !is_in_key(rest.get(word.len()))
}
