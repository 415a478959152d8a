// Books of the answers that a script gives, and of the calls that were made.
ghost use Rattle.std.specs.Prelude.{◌≡◌, ◌+◌, ◌&&◌, ◌==◌, ℕ, map, if◌then◌else◌, IfOk, OnOk, slice_get, [], ◌∷◌};
ghost use Rattle.std.specs.Bool.{then_some};
ghost use Rattle.std.specs.Option.{option_map, option_or};
ghost use Rattle.rl_replay.specs.Host as spec;
ghost use Rattle.rl_replay.specs.Host.{picks_answer, yes_no};
ghost use Rattle.rl_playback.specs.Books.{Named as NamedLem, same, count_in, answer_in, TakesNext, AddsLine, AreAnswersOf, HasNoCalls};

use indexmap::IndexMap;
use rl_replay::{Event, Line};
use rl_run::{Answer, Pick};
use rl_types::Memory;
use std::alloc::Global;

// A session's name, and the name of an action or of a condition.
pub type Named<'a> = (&'a [u8], &'a [u8]);

// How often each name was called in each session.
pub type Counts<'a> = IndexMap<Named<'a>, u64>;

// The answers to the calls of a name in a session, counted from 1.
pub type Answers<'a> = IndexMap<(Named<'a>, u64), Answer>;

// The answers to one sort of calls, and how many of these were made.
#[derive(Drop)]
pub struct Book<'a> {
    pub answers: Answers<'a>,
    pub counts: Counts<'a>,
}

// The calls that may have picks, and the questions.
#[derive(Drop)]
pub struct Books<'a> {
    pub picks: Book<'a>,
    pub asks: Book<'a>,
}

// How often a name was called in a session.
fn count_of(counts: &Counts<'_>, session: &[u8], name: &[u8]) -> u64
    ensures { result ≡ count_in (session.now, name.now) counts.now }
{
    match counts.get(&(session, name)) {
        Some(count) => *count,
        None => 0,
    }
}

fn set_count<'a>(
    counts: &mut Counts<'a>,
    session: &'a [u8],
    name: &'a [u8],
    count: u64,
) -> Result<(), Memory>
    ensures { OnOk result ((q : NamedLem) → count_in q counts.new ≡ (if same q (session.now, name.now) then count else count_in q counts.old)) }
{
    match counts.insert((session, name), count) {
        Ok(_) => Ok(()),
        Err(_) => Err(Memory),
    }
}

// The answer that stands for a call.
fn answer_of(answers: &Answers<'_>, session: &[u8], name: &[u8], number: u64) -> Option<Answer>
    ensures { result ≡ answer_in (session.now, name.now) number answers.now }
{
    match answers.get(&((session, name), number)) {
        Some(answer) => Some(*answer),
        None => None,
    }
}

// Notes an answer, unless one stands for that call.
fn add_answer<'a>(
    answers: &mut Answers<'a>,
    session: &'a [u8],
    name: &'a [u8],
    number: u64,
    answer: Answer,
) -> Result<(), Memory>
    ensures { OnOk result ((q : NamedLem) (k : ℕ) → answer_in q k answers.new
        ≡ option_or (answer_in q k answers.old) (then_some (same q (session.now, name.now) && k == number) answer)) }
{
    if answer_of(answers, session, name, number).is_some() {
        return Ok(());
    }
    match answers.insert(((session, name), number), answer) {
        Ok(_) => Ok(()),
        Err(_) => Err(Memory),
    }
}

// Counts a call, and gives the answer that stands for it.
pub fn next_answer<'a>(
    book: &mut Book<'a>,
    session: &'a [u8],
    name: &'a [u8],
) -> Result<Option<Answer>, Memory>
    ensures { IfOk result (λ answer. TakesNext book.old book.new (session.now, name.now) answer) }
{
    let Some(number) = count_of(&book.counts, session, name).checked_add(1) else {
        return Err(Memory);
    };
    set_count(&mut book.counts, session, name, number)?;
    Ok(answer_of(&book.answers, session, name, number))
}

// The pick at a place of a list.
fn pick_at(list: &[(u32, Option<i64>)], place: usize) -> Option<Pick>
    ensures { result ≡ option_map (λ x. spec.pick_of x.0 x.1) (slice_get list.now place) }
{
    match list.get(place) {
        Some((statement, goal)) => Some(Pick {
            statement: *statement,
            goal: *goal,
        }),
        None => None,
    }
}

// The first four picks of a list.
fn answer_with(list: &[(u32, Option<i64>)]) -> Answer
    ensures { result ≡ picks_answer (map (λ x. spec.pick_of x.0 x.1) list.now) }
{
    Answer::Picks([
        pick_at(list, 0),
        pick_at(list, 1),
        pick_at(list, 2),
        pick_at(list, 3),
    ])
}

fn answer_that(holds: bool) -> Answer
    ensures { result ≡ yes_no holds }
{
    if holds { Answer::Yes } else { Answer::No }
}

// Notes the answer that a line gives, if it gives one.
fn add_line<'a>(books: &mut Books<'a>, line: &'a Line) -> Result<(), Memory>
    ensures { OnOk result (AddsLine books.old books.new line.now) }
{
    match &line.event {
        Event::Pick(session, action, number, list) => add_answer(
            &mut books.picks.answers,
            session.bytes(),
            action.bytes(),
            u64::from(*number),
            answer_with(list.as_slice()),
        ),
        Event::Say(session, condition, number, holds) => add_answer(
            &mut books.asks.answers,
            session.bytes(),
            condition.bytes(),
            u64::from(*number),
            answer_that(*holds),
        ),
        Event::Open(..) | Event::Piece(..) | Event::End(..) => Ok(()),
    }
}

fn no_books<'a>(alloc: Global) -> Books<'a>
    ensures answers { AreAnswersOf [] result }
    ensures calls { HasNoCalls result }
{
    Books {
        picks: Book {
            answers: IndexMap::new(alloc),
            counts: IndexMap::new(alloc),
        },
        asks: Book {
            answers: IndexMap::new(alloc),
            counts: IndexMap::new(alloc),
        },
    }
}

// The answers that a script's lines give; no call was made yet.
pub fn books_of<'a>(alloc: Global, lines: &'a [Line]) -> Result<Books<'a>, Memory>
    ensures answers { IfOk result (AreAnswersOf lines.now) }
    ensures calls { IfOk result HasNoCalls }
{
    let mut books = no_books(alloc);
    for line in lines {
        add_line(&mut books, line)?;
    }
    Ok(books)
}
