//! A script that runs a closure of the test, which holds a number of its own.
ghost use Rattle.cdi_bodies.specs.Within.{IsWithin};

use crate::fixtures::{assert_text, printed};
use cdi_bodies::{Act, Body, Frame, Promise};
use cdi_model::{Ident, Val};
use std::alloc::{AllocError, Global};
use std::test::Fail;

const NOTHING: Promise = Promise::NONE;

/// A body that returns a number, whatever it is shown.
fn returning(alloc: Global, name: Ident, number: i64) -> Result<Body, AllocError> {
    let asks = move |frame: &Frame| -> Act
        ensures { IsWithin NOTHING frame.now result }
    {
        let _ = frame;
        Act::Return(Val::Int(number))
    };
    Ok(Body::new(name, NOTHING, Box::new(alloc, asks)?))
}

/// A script that asks a dependent bean for a number.
const ASKING: &[u8] = br#"put
kind="type"
name="A"
.
put
kind="bean"
name="A"
methods=[{name="get",body="told"}]
.
call get 5 A
"#;

/// What it prints, where the number is 41.
const ASKED: &[u8] = br#"ok
ok
  create A#1
  ready A#1
  enter A#1 method get arg 5
  leave 41
  destroy A#1
  gone A#1
value 41
"#;

/// What it prints where the body of the name `told` returns a number.
fn told(alloc: Global, number: i64) -> Result<Vec<u8>, Fail> {
    let mut bodies = Vec::new(alloc);
    bodies.push(returning(alloc, Ident::new(b"told"), number)?)?;
    printed(alloc, ASKING, bodies)
}

#[test]
fn asks_the_stored_body(rt: HostRuntime) -> Result<(), Fail> {
    let written = told(rt.alloc(), 41)?;
    let other = told(rt.alloc(), -6)?;
    assert_text(&rt, written.as_slice(), ASKED, &"a body that returns 41");
    assert!(rt;
        other
            .as_slice()
            .ends_with(b"  leave -6\n  destroy A#1\n  gone A#1\nvalue -6\n")
    );
    Ok(())
}
