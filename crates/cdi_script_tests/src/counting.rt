//! A script whose bodies are closures of the test that count how often they are asked.
ghost use Rattle.cdi_bodies.specs.Within.{IsWithin};

use crate::fixtures::{assert_text, printed_quietly};
use cdi_bodies::{Act, Body, Frame, Promise};
use cdi_model::{Ident, Val};
use std::alloc::{AllocError, Global};
use std::cell::Cell;
use std::rc::Rc;
use std::test::Fail;

const CALLING: Promise = Promise::CALL;

const LOADING: Promise = Promise::LOAD;

/// A shared bean whose method calls itself for ever, and a dependent bean whose method calls that for ever, and which loads
/// for ever before its destruction. The askings are spent by one call, and the destruction comes behind it.
const SCRIPT: &[u8] = br#"put
kind="type"
name="K"
.
put
kind="bean"
name="K"
scope="application"
points=[{name="k",type="K"}]
methods=[{name="m",body="calls",calls=["k.m"]}]
.
put
kind="type"
name="D"
.
put
kind="bean"
name="D"
points=[{name="k",type="K"}]
methods=[{name="m",body="calls",calls=["k.m"]}]
pre={body="loads"}
.
call m 5 D
"#;

const TEXT: &[u8] = b"ok\nok\nok\nok\nfailed Budget\n";

/// One more, or the greatest number.
fn count_one(asked: &Cell<u64>) {
    asked.set(asked.get().saturating_add(1));
}

/// A body that calls its first site for ever, and counts how often it is asked.
fn calling(alloc: Global, name: Ident, asked: Rc<Cell<u64>>) -> Result<Body, AllocError> {
    let asks = move |frame: &Frame| -> Act
        ensures { IsWithin CALLING frame.now result }
    {
        count_one(&asked);
        if frame.calls == 0 {
            Act::Return(Val::Null)
        } else {
            Act::Call {
                site: 0,
                arg: frame.argument,
            }
        }
    };
    Ok(Body::new(name, CALLING, Box::new(alloc, asks)?))
}

/// A body that loads for ever, and counts how often it is asked.
fn loading(alloc: Global, name: Ident, asked: Rc<Cell<u64>>) -> Result<Body, AllocError> {
    let asks = move |frame: &Frame| -> Act
        ensures { IsWithin LOADING frame.now result }
    {
        let _ = frame;
        count_one(&asked);
        Act::Load
    };
    Ok(Body::new(name, LOADING, Box::new(alloc, asks)?))
}

#[test]
fn askings_of_one_command(rt: HostRuntime) -> Result<(), Fail> {
    let alloc = rt.alloc();
    let called = Rc::new(alloc, Cell::new(0))?;
    let loaded = Rc::new(alloc, Cell::new(0))?;
    let mut bodies = Vec::new(alloc);
    bodies.push(calling(alloc, Ident::new(b"calls"), called.clone()?)?)?;
    bodies.push(loading(alloc, Ident::new(b"loads"), loaded.clone()?)?)?;
    let written = printed_quietly(alloc, SCRIPT, bodies)?;
    assert_text(&rt, written.as_slice(), TEXT, &"askings that are spent");
    assert_eq!(rt; called.get(), 20_000);
    assert_eq!(rt; loaded.get(), 9);
    Ok(())
}
