//! A script that runs closures of the test around others: they proceed with what they like, also before the destruction, and
//! again after a value; others store without loading, and return what a store answers.
ghost use Rattle.cdi_bodies.specs.Within.{IsWithin};

use crate::fixtures::{assert_text, printed};
use cdi_bodies::{Act, Body, Frame, Promise};
use cdi_model::{Ident, Outcome, Val};
use std::alloc::{AllocError, Global};
use std::test::Fail;

const HOLDING: Promise = Promise::LOAD_STORE;

const PROCEEDING: Promise = Promise::PROCEED_FAIL;

/// A shared bean whose constructor stores its argument, between two interceptors: the first proceeds, twice at the
/// constructor, and the second stores what it is given and loads that before the destruction. Another shared bean stores its
/// argument before its destruction, and the interceptor around it proceeds with a number.
const SCRIPT: &[u8] = br#"put
kind="binding"
name="Log"
.
put
kind="type"
name="S"
.
put
kind="bean"
name="S"
scope="application"
bindings=["Log"]
construct={body="keep"}
methods=[{name="get",body="show"},{name="set",body="keep"}]
.
put
kind="interceptor"
name="I"
priority=1
bindings=["Log"]
around_invoke={body="ahead"}
around_construct={body="twice"}
post={body="ahead"}
.
put
kind="interceptor"
name="J"
priority=2
bindings=["Log"]
post={body="keep"}
pre={body="show"}
.
put
kind="binding"
name="End"
.
put
kind="type"
name="T"
.
put
kind="bean"
name="T"
scope="application"
bindings=["End"]
pre={body="keep"}
.
put
kind="interceptor"
name="K"
priority=3
bindings=["End"]
pre={body="sevens"}
.
call get 5 S
call set 7 S
call get null S
lookup T
stop
"#;

const TEXT: &[u8] = br#"ok
ok
ok
ok
ok
ok
ok
ok
ok
  create S#1
  enter S#1 construct by I arg null
  proceed 1
  enter S#1 construct arg 1
  store 1
  leave null
  got null
  proceed 2
  enter S#1 construct arg 2
  store 2
  leave null
  got null
  leave null
  enter S#1 post by I arg null
  proceed 10
  enter S#1 post by J arg 10
  store 10
  leave null
  got null
  leave null
  ready S#1
  enter S#1 method get by I arg 5
  proceed 15
  enter S#1 method get arg 15
  load 2
  leave 2
  got 2
  leave 2
value 2
  enter S#1 method set by I arg 7
  proceed 17
  enter S#1 method set arg 17
  store 17
  leave null
  got null
  leave null
value null
  enter S#1 method get by I arg null
  proceed 10
  enter S#1 method get arg 10
  load 17
  leave 17
  got 17
  leave 17
value 17
  create T#2
  ready T#2
value null
  destroy T#2
  enter T#2 pre by K arg null
  proceed 7
  enter T#2 pre arg 7
  store 7
  leave null
  got null
  leave null
  gone T#2
  destroy S#1
  enter S#1 pre by J arg null
  load 10
  leave 10
  gone S#1
ok
"#;

fn latest(frame: &Frame) -> Option<Outcome> {
    frame.answers.last().copied()
}

/// The value that an answer is, or -1 where it is a failure.
fn value_of(answer: Outcome) -> Val {
    match answer {
        Outcome::Value(value) => value,
        Outcome::Failed(_) => Val::Int(-1),
    }
}

/// A value and a step, where null is 0.
fn beyond(value: Val, step: i64) -> Val {
    match value {
        Val::Null => Val::Int(step),
        Val::Int(number) => Val::Int(number.saturating_add(step)),
    }
}

/// A body that stores its argument, and returns what that answers.
fn keeping(alloc: Global, name: Ident) -> Result<Body, AllocError> {
    let asks = move |frame: &Frame| -> Act
        ensures { IsWithin HOLDING frame.now result }
    {
        match latest(frame) {
            None => Act::Store(frame.argument),
            Some(answer) => Act::Return(value_of(answer)),
        }
    };
    Ok(Body::new(name, HOLDING, Box::new(alloc, asks)?))
}

/// A body that returns what it loads.
fn showing(alloc: Global, name: Ident) -> Result<Body, AllocError> {
    let asks = move |frame: &Frame| -> Act
        ensures { IsWithin HOLDING frame.now result }
    {
        match latest(frame) {
            None => Act::Load,
            Some(answer) => Act::Return(value_of(answer)),
        }
    };
    Ok(Body::new(name, HOLDING, Box::new(alloc, asks)?))
}

/// A body that proceeds with a step more than its argument, and returns the answer.
fn ahead(alloc: Global, name: Ident, step: i64) -> Result<Body, AllocError> {
    let asks = move |frame: &Frame| -> Act
        ensures { IsWithin PROCEEDING frame.now result }
    {
        match latest(frame) {
            None => Act::Proceed(beyond(frame.argument, step)),
            Some(answer) => Act::Return(value_of(answer)),
        }
    };
    Ok(Body::new(name, PROCEEDING, Box::new(alloc, asks)?))
}

/// A body that proceeds with a number, and whatever that answers with one more, and returns the second answer.
fn twice(alloc: Global, name: Ident, number: i64) -> Result<Body, AllocError> {
    let asks = move |frame: &Frame| -> Act
        ensures { IsWithin PROCEEDING frame.now result }
    {
        match frame.answers.len() {
            0 => Act::Proceed(Val::Int(number)),
            1 => Act::Proceed(beyond(Val::Int(number), 1)),
            _ => Act::Return(value_of(latest(frame).unwrap_or(Outcome::Value(Val::Null)))),
        }
    };
    Ok(Body::new(name, PROCEEDING, Box::new(alloc, asks)?))
}

fn bodies(alloc: Global) -> Result<Vec<Body>, AllocError> {
    let mut bodies = Vec::new(alloc);
    bodies.push(keeping(alloc, Ident::new(b"keep"))?)?;
    bodies.push(showing(alloc, Ident::new(b"show"))?)?;
    bodies.push(ahead(alloc, Ident::new(b"ahead"), 10)?)?;
    bodies.push(ahead(alloc, Ident::new(b"sevens"), 7)?)?;
    bodies.push(twice(alloc, Ident::new(b"twice"), 1)?)?;
    Ok(bodies)
}

#[test]
fn closures_proceed(rt: HostRuntime) -> Result<(), Fail> {
    let written = printed(rt.alloc(), SCRIPT, bodies(rt.alloc())?)?;
    assert_text(&rt, written.as_slice(), TEXT, &"closures that proceed");
    Ok(())
}
