//! The program's bodies, and what each does by their table.
use Act::{Call, Fire, Load, Proceed, Return, Store};
use Outcome::{Failed, Value};
use Val::{Int, Null};
use arrayvec::ArrayVec;
use cdi_bodies::{Act, Bodies, Book, Frame, Promise};
use cdi_model::{Failure, Ident, Outcome, Val};
use cdi_stock::stock_bodies;
use std::test::Fail;

/// A body, its argument, how many call sites and as many fire sites it has, the answers so far, and its next act.
struct Case(&'static [u8], Val, u8, &'static [Outcome], Act);

const FIVE: Val = Int(5);

const NOTHING: Outcome = Value(Null);

const LATE: Outcome = Failed(Failure::Steps);

static CASES: [Case; 47] = [
    Case(b"unit", FIVE, 0, &[], Return(Null)),
    Case(b"zero", FIVE, 0, &[], Return(Int(0))),
    Case(b"echo", FIVE, 0, &[], Return(FIVE)),
    Case(b"short", FIVE, 0, &[], Return(Int(-1))),
    Case(b"boom", FIVE, 0, &[], Act::Fail(Failure::User(9))),
    Case(b"count", FIVE, 0, &[], Load),
    Case(b"count", FIVE, 0, &[NOTHING], Store(Int(1))),
    Case(b"count", FIVE, 0, &[NOTHING, NOTHING], Return(Int(1))),
    Case(b"count", FIVE, 0, &[Value(Int(-3))], Store(Int(-2))),
    Case(
        b"count",
        FIVE,
        0,
        &[Value(Int(i64::MAX))],
        Store(Int(i64::MAX)),
    ),
    Case(b"flaky", FIVE, 0, &[], Load),
    Case(b"flaky", FIVE, 0, &[Value(Int(2))], Store(Int(3))),
    Case(b"flaky", FIVE, 0, &[Value(Int(2)), NOTHING], Return(Int(3))),
    Case(
        b"flaky",
        FIVE,
        0,
        &[Value(Int(3)), NOTHING],
        Act::Fail(Failure::User(3)),
    ),
    Case(
        b"flaky",
        FIVE,
        0,
        &[Value(Int(-4)), NOTHING],
        Return(Int(-3)),
    ),
    Case(
        b"flaky",
        FIVE,
        0,
        &[Value(Int(-1)), NOTHING],
        Return(Int(0)),
    ),
    Case(b"spin", FIVE, 0, &[], Load),
    Case(b"spin", FIVE, 0, &[NOTHING, NOTHING, NOTHING], Load),
    Case(b"relay", FIVE, 0, &[], Return(FIVE)),
    Case(b"relay", FIVE, 2, &[], Call { site: 0, arg: FIVE }),
    Case(
        b"relay",
        FIVE,
        2,
        &[Value(Int(6))],
        Call {
            site: 1,
            arg: Int(6),
        },
    ),
    Case(
        b"relay",
        FIVE,
        2,
        &[Value(Int(6)), Value(Int(7))],
        Return(Int(7)),
    ),
    Case(b"relay", FIVE, 2, &[LATE], Act::Fail(Failure::Steps)),
    Case(
        b"relay",
        FIVE,
        2,
        &[Value(Int(6)), LATE],
        Act::Fail(Failure::Steps),
    ),
    Case(b"notify", FIVE, 0, &[], Return(FIVE)),
    Case(b"notify", FIVE, 2, &[], Fire { site: 0, arg: FIVE }),
    Case(b"notify", FIVE, 2, &[NOTHING], Fire { site: 1, arg: FIVE }),
    Case(b"notify", FIVE, 2, &[NOTHING, NOTHING], Return(FIVE)),
    Case(b"notify", FIVE, 2, &[LATE], Act::Fail(Failure::Steps)),
    Case(b"pass", FIVE, 0, &[], Proceed(FIVE)),
    Case(b"pass", FIVE, 0, &[Value(Int(6))], Return(Int(6))),
    Case(b"pass", FIVE, 0, &[LATE], Act::Fail(Failure::Steps)),
    Case(b"double", FIVE, 0, &[], Proceed(FIVE)),
    Case(b"double", FIVE, 0, &[Value(Int(-6))], Return(Int(-12))),
    Case(
        b"double",
        FIVE,
        0,
        &[Value(Int(i64::MIN))],
        Return(Int(i64::MIN)),
    ),
    Case(b"double", FIVE, 0, &[NOTHING], Return(Null)),
    Case(b"double", FIVE, 0, &[LATE], Act::Fail(Failure::Steps)),
    Case(b"guard", Int(-1), 0, &[], Act::Fail(Failure::User(1))),
    Case(b"guard", Int(0), 0, &[], Proceed(Int(0))),
    Case(b"guard", Null, 0, &[Value(Int(6))], Return(Int(6))),
    Case(b"retry", FIVE, 0, &[], Proceed(FIVE)),
    Case(b"retry", FIVE, 0, &[LATE, LATE], Proceed(FIVE)),
    Case(b"retry", FIVE, 0, &[LATE, Value(Int(6))], Return(Int(6))),
    Case(
        b"retry",
        FIVE,
        0,
        &[LATE, LATE, Failed(Failure::User(2))],
        Act::Fail(Failure::User(2)),
    ),
    Case(b"swallow", FIVE, 0, &[], Proceed(FIVE)),
    Case(b"swallow", FIVE, 0, &[Value(Int(6))], Return(Int(6))),
    Case(b"swallow", FIVE, 0, &[LATE], Return(Null)),
];

/// What each body promises.
static PROMISES: [(&[u8], Promise); 15] = [
    (b"unit", Promise::NONE),
    (b"zero", Promise::NONE),
    (b"echo", Promise::NONE),
    (b"count", Promise::LOAD_STORE),
    (b"relay", Promise::CALL_FAIL),
    (b"notify", Promise::FIRE_FAIL),
    (b"pass", Promise::PROCEED_FAIL),
    (b"double", Promise::PROCEED_FAIL),
    (b"guard", Promise::PROCEED_FAIL),
    (b"retry", Promise::PROCEED_FAIL),
    (b"swallow", Promise::PROCEED),
    (b"short", Promise::NONE),
    (b"boom", Promise::FAIL),
    (b"flaky", Promise::LOAD_STORE_FAIL),
    (b"spin", Promise::LOAD),
];

/// The frame of a case.
fn frame_of(case: &Case) -> Frame {
    let mut frame = Frame {
        argument: case.1,
        calls: case.2,
        fires: case.2,
        answers: ArrayVec::new(),
    };
    for answer in case.3 {
        let _ = frame.answers.try_push(*answer);
    }
    frame
}

/// Whether the body of a case makes its act.
fn holds(book: &Book, case: &Case) -> bool {
    match Ident::parse(case.0) {
        Some(name) => book.ask(&name, &frame_of(case)) == Some(case.4),
        None => false,
    }
}

/// The first case that does not hold.
fn first_that_fails(book: &Book, cases: &[Case]) -> Option<usize> {
    cases.iter().position(|case| !holds(book, case))
}

/// Whether a book has bodies of these names and promises, in this order.
fn has_promises(book: &Book, promises: &[(&[u8], Promise)]) -> bool {
    promises.iter().enumerate().all(|(place, (name, promise))| stands_at(
        book, place, name, *promise,
    ))
}

fn stands_at(book: &Book, place: usize, text: &[u8], promise: Promise) -> bool {
    match Ident::parse(text) {
        Some(name) => book.position(&name) == Some(place) && book.promise(&name) == Some(promise),
        None => false,
    }
}

#[test]
fn the_programs_bodies_make_a_book(rt: HostRuntime) -> Result<(), Fail> {
    let alloc = rt.alloc();
    let Ok(book) = Book::new(stock_bodies!(alloc)) else {
        return Err(Fail::new("no book"));
    };
    assert!(rt; has_promises(&book, &PROMISES));
    assert_eq!(rt; first_that_fails(&book, &CASES), None);
    Ok(())
}
