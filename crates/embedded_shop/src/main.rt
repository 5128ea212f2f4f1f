//! A program with a container inside: a shop sells at one price, is declared anew, and sells at another. It prints what was done.
#![tactic(auto)]

ghost use Rattle.cdi_container.specs.Within.{IsWithin};

use cdi_container::{
    Act, Bodies, Body, Book, Container, Error, Frame, Ident, Name, Outcome, Promise, Quals, Val,
};
use std::alloc::Global;
use std::fmt;
use std::io::{self, Write};
use std::process::ExitCode;

const SHOP: &[u8] =
    b"kind='bean'\nname='Shop'\nscope='application'\nmethods=[{name='sell',body='full'}]\n";

const SALE: &[u8] =
    b"kind='bean'\nname='Shop'\nscope='application'\nmethods=[{name='sell',body='less'}]\n";

/// Loads what the shop has taken so far, stores it with the price of these pieces, and returns the sum.
fn sell(frame: &Frame, price: i64) -> Act
    ensures { IsWithin Promise.LOAD_STORE frame.now result }
{
    let Val::Int(pieces) = frame.argument else {
        return Act::Return(Val::Null);
    };
    let taken = match frame.answers.first() {
        Some(Outcome::Value(Val::Int(taken))) => *taken,
        _ => 0,
    };
    let sum = Val::Int(taken.saturating_add(pieces.saturating_mul(price)));
    match frame.answers.len() {
        0 => Act::Load,
        1 => Act::Store(sum),
        _ => Act::Return(sum),
    }
}

/// Appends the trace of the last command, an entry a line.
fn push_entries<B: Bodies>(shop: &Container<B>, log: &mut Vec<u8>) -> Result<(), Error> {
    for entry in shop.entries() {
        writeln!(log, "{entry}").map_err(|_| Error::OutOfMemory)?;
    }
    Ok(())
}

/// Appends what is wrong with the declarations, a fault a line.
fn push_faults<B: Bodies>(shop: &mut Container<B>, log: &mut Vec<u8>) -> Result<(), Error> {
    let faults = shop.report()?;
    for fault in &faults {
        writeln!(log, "{fault}").map_err(|_| Error::OutOfMemory)?;
    }
    Ok(())
}

/// Sells three pieces, and appends what the edit before and the sale did.
fn sale<B: Bodies>(alloc: Global, shop: &mut Container<B>, log: &mut Vec<u8>) -> Result<(), Error> {
    push_entries(shop, log)?;
    let quals = Quals::new(alloc);
    shop.call(Name::new(b"Shop"), &quals, Ident::new(b"sell"), Val::Int(3))?;
    push_entries(shop, log)
}

/// Declares the shop, of which the type is missing at first, sells, declares it anew, sells again, and answers what was wrong and
/// done.
fn trade<B: Bodies>(alloc: Global, shop: &mut Container<B>) -> Result<Vec<u8>, Error> {
    let mut log = Vec::new(alloc);
    shop.put(SHOP)?;
    push_faults(shop, &mut log)?;
    shop.put(b"kind='type'\nname='Shop'\n")?;
    push_faults(shop, &mut log)?;
    sale(alloc, shop, &mut log)?;
    shop.put(SALE)?;
    sale(alloc, shop, &mut log)?;
    Ok(log)
}

fn open<B: Bodies>(alloc: Global, book: B) -> Container<B> {
    Container::new(alloc, book)
}

fn trade_by<B: Bodies + Drop>(alloc: Global, book: B) -> Result<Vec<u8>, Error> {
    trade(alloc, &mut open(alloc, book))
}

/// Stores the sale at either price, and trades with both.
fn trade_at(alloc: Global, full: i64, less: i64) -> Result<Vec<u8>, Error> {
    let full = Box::new(alloc, move |frame: &Frame| sell(frame, full))?;
    let less = Box::new(alloc, move |frame: &Frame| sell(frame, less))?;
    let mut bodies = Vec::new(alloc);
    bodies.push(Body::new(Ident::new(b"full"), Promise::LOAD_STORE, full))?;
    bodies.push(Body::new(Ident::new(b"less"), Promise::LOAD_STORE, less))?;
    trade_by(alloc, Book::new(bodies).map_err(|_| Error::OutOfMemory)?)
}

fn main(rt: HostRuntime) -> ExitCode {
    let log = match trade_at(rt.alloc(), 10, 7) {
        Ok(log) => log,
        Err(error) => return fail(&rt, &error),
    };
    match io::writer(&rt).write_all(log.as_slice()) {
        Ok(()) => ExitCode::SUCCESS,
        Err(error) => fail(&rt, &error),
    }
}

/// Prints an error, and ends with a failure.
fn fail<E: fmt::Display>(rt: &HostRuntime, error: &E) -> ExitCode {
    let _ = eprintln!(rt; "error: {error}");
    ExitCode::FAILURE
}
