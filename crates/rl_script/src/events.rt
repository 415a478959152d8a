// What a line says.
ghost use Rattle.std.specs.Prelude.{◌≡◌, ◌&&◌, List, [], ◌∷◌, ◌⊎◌, Some, None, if◌then◌else◌, IfOk, codes};
ghost use Rattle.std.specs.List.{list_all};
ghost use Rattle.std.specs.Str.{bytes_eq};
ghost use Rattle.rl_replay.specs.declared.script.Event.TheVariants.{Open, Piece};
ghost use Rattle.rl_replay.specs.Script.{is_name_byte, is_session, is_word, count_of, yes_or_no, opens_by, feeds_by, ends_by, picks_by, says_by, event_by, event_of};
ghost use Rattle.rl_script.specs.Parts.{words};

use crate::numbers::count_of;
use crate::parts::{answer_words, cut_at, is_one_word};
use crate::picks::picks_of;
use crate::quoted::push_bytes;
use rl_replay::Event;
use rl_types::{List as Items, Name};
use std::alloc::{AllocError, Global};

fn are_name_bytes(bytes: &[u8]) -> bool
    ensures { result ≡ list_all is_name_byte bytes.now }
{
    bytes
        .iter()
        .all(|b| b.is_ascii_alphanumeric() || *b == b'_' || *b == b'-')
}

fn is_session(bytes: &[u8]) -> bool
    ensures { result ≡ is_session bytes.now }
{
    !bytes.is_empty() && bytes.len() <= 32 && are_name_bytes(bytes)
}

fn is_word(bytes: &[u8]) -> bool
    ensures { result ≡ is_word bytes.now }
{
    !bytes.is_empty()
}

fn name_of(alloc: Global, bytes: &[u8]) -> Result<Name, AllocError>
    ensures { IfOk result (λ name. name ≡ bytes.now) }
{
    Ok(Name::new(Vec::from_slice(alloc, bytes)?))
}

// A session opens at the start entry.
fn open_at_start(alloc: Global, session: &[u8]) -> Result<Option<Event>, AllocError>
    ensures { IfOk result (λ event. event ≡ opens_by (session.now ∷ [])) }
{
    if !is_session(session) {
        return Ok(None);
    }
    let session = name_of(alloc, session)?;
    Ok(Some(Event::Open(session, None)))
}

// A session opens at an entry that is named.
fn open_at(alloc: Global, session: &[u8], entry: &[u8]) -> Result<Option<Event>, AllocError>
    ensures { IfOk result (λ event. event ≡ opens_by (session.now ∷ words entry.now)) }
{
    if !is_session(session) {
        return Ok(None);
    }
    if !is_one_word(entry) {
        return Ok(None);
    }
    let session = name_of(alloc, session)?;
    let entry = name_of(alloc, entry)?;
    Ok(Some(Event::Open(session, Some(entry))))
}

fn opening(alloc: Global, text: &[u8]) -> Result<Option<Event>, AllocError>
    ensures { IfOk result (λ event. event ≡ opens_by (words text.now)) }
{
    match cut_at(text, b' ') {
        Some((session, entry)) => open_at(alloc, session, entry),
        None => open_at_start(alloc, text),
    }
}

// A session is fed the bytes that stand between quotes.
fn feed(alloc: Global, session: &[u8], quoted: &[u8]) -> Result<Option<Event>, AllocError>
    ensures { IfOk result (λ event. event ≡ feeds_by (session.now ∷ words quoted.now)) }
{
    if !is_session(session) {
        return Ok(None);
    }
    let mut bytes = Vec::new(alloc);
    let is_quoted = push_bytes(&mut bytes, quoted)?;
    if !is_quoted {
        return Ok(None);
    }
    let session = name_of(alloc, session)?;
    Ok(Some(Event::Piece(session, Items::from_vec(bytes))))
}

fn piece(alloc: Global, text: &[u8]) -> Result<Option<Event>, AllocError>
    ensures { IfOk result (λ event. event ≡ feeds_by (words text.now)) }
{
    match cut_at(text, b' ') {
        Some((session, quoted)) => feed(alloc, session, quoted),
        None => Ok(None),
    }
}

fn end_of(alloc: Global, session: &[u8]) -> Result<Option<Event>, AllocError>
    ensures { IfOk result (λ event. event ≡ ends_by (session.now ∷ [])) }
{
    if !is_session(session) {
        return Ok(None);
    }
    let session = name_of(alloc, session)?;
    Ok(Some(Event::End(session)))
}

fn end(alloc: Global, text: &[u8]) -> Result<Option<Event>, AllocError>
    ensures { IfOk result (λ event. event ≡ ends_by (words text.now)) }
{
    match cut_at(text, b' ') {
        Some(_) => Ok(None),
        None => end_of(alloc, text),
    }
}

// Which call is answered, where the session and the name of the call have their form.
fn answered_call(session: &[u8], name: &[u8], count: &[u8]) -> Option<u32>
    ensures { result ≡ (if is_session session.now && is_word name.now then count_of count.now else None) }
{
    if is_session(session) && is_word(name) {
        count_of(count)
    } else {
        None
    }
}

fn pick(alloc: Global, text: &[u8]) -> Result<Option<Event>, AllocError>
    ensures { IfOk result (λ event. event ≡ picks_by (words text.now)) }
{
    let Some(line) = answer_words(text) else {
        return Ok(None);
    };
    let Some(count) = answered_call(line.session, line.name, line.count) else {
        return Ok(None);
    };
    let Some(picks) = picks_of(alloc, line.answer)? else {
        return Ok(None);
    };
    let session = name_of(alloc, line.session)?;
    let action = name_of(alloc, line.name)?;
    Ok(Some(Event::Pick(session, action, count, picks)))
}

fn yes_or_no(word: &[u8]) -> Option<bool>
    ensures { result ≡ yes_or_no word.now }
{
    if word == b"yes".as_slice() {
        Some(true)
    } else if word == b"no".as_slice() {
        Some(false)
    } else {
        None
    }
}

fn say(alloc: Global, text: &[u8]) -> Result<Option<Event>, AllocError>
    ensures { IfOk result (λ event. event ≡ says_by (words text.now)) }
{
    let Some(line) = answer_words(text) else {
        return Ok(None);
    };
    let Some(count) = answered_call(line.session, line.name, line.count) else {
        return Ok(None);
    };
    let Some(holds) = yes_or_no(line.answer) else {
        return Ok(None);
    };
    let session = name_of(alloc, line.session)?;
    let condition = name_of(alloc, line.name)?;
    Ok(Some(Event::Say(session, condition, count, holds)))
}

// What the words behind a verb say.
fn event_by(alloc: Global, verb: &[u8], text: &[u8]) -> Result<Option<Event>, AllocError>
    ensures { IfOk result (λ event. event ≡ event_by (verb.now ∷ words text.now)) }
{
    if verb == b"open".as_slice() {
        return opening(alloc, text);
    }
    if verb == b"piece".as_slice() {
        return piece(alloc, text);
    }
    if verb == b"end".as_slice() {
        return end(alloc, text);
    }
    if verb == b"pick".as_slice() {
        return pick(alloc, text);
    }
    if verb == b"say".as_slice() {
        return say(alloc, text);
    }
    Ok(None)
}

/// The event that a line says, where it has one of the forms.
pub fn event_of(alloc: Global, line: &[u8]) -> Result<Option<Event>, AllocError>
    ensures { IfOk result (λ event. event ≡ event_of line.now) }
{
    match cut_at(line, b' ') {
        Some((verb, text)) => event_by(alloc, verb, text),
        None => Ok(None),
    }
}
