//! Calls of the libraries that no program makes: what the records of a bean rest on, the interceptors around a bean, and the
//! copy of a choice.
use cdi_effective::{class_bindings, reads_of};
use cdi_fixtures::{declared, name};
use cdi_intercept::{around_any, in_order};
use cdi_model::{Decl, DeclKey, Decls, Error, Kind, Name, Quals, Work};
use cdi_resolve::{BeanList, Choice};
use std::alloc::Global;
use std::io::Write;
use std::test::Fail;

/// A bean whose class has a type above it, with a stereotype that inherits another, a binding at one method, and a product
/// with its type; the interceptor for the binding; and a second bean of the type above.
static STANDS: [&[u8]; 9] = [
    b"kind=\"type\"\nname=\"Shop\"\nform=\"interface\"\n",
    b"kind=\"type\"\nname=\"Stand\"\nimplements=[\"Shop\"]\n",
    b"kind=\"stereotype\"\nname=\"Mock\"\nstereotypes=[\"Base\"]\n",
    b"kind=\"stereotype\"\nname=\"Base\"\n",
    br#"kind="bean"
name="Stand"
stereotypes=["Mock"]
producers=[{name="make",type="Beer",body="unit"}]
methods=[{name="run",body="echo",bindings=["Log"]}]
"#,
    b"kind=\"binding\"\nname=\"Log\"\n",
    b"kind=\"interceptor\"\nname=\"Scribe\"\npriority=1\nbindings=[\"Log\"]\naround_invoke={body=\"pass\"}\n",
    b"kind=\"type\"\nname=\"Market\"\nimplements=[\"Shop\"]\n",
    b"kind=\"bean\"\nname=\"Market\"\n",
];

/// What the records of the first bean rest on, each on a line.
const READ: &[u8] = b"bean Stand
type Object
type Shop
type Stand
stereotype Base
stereotype Mock
type Beer
type Object
";

/// Writes keys, each on a line.
fn push_keys(text: &mut Vec<u8>, keys: &[DeclKey]) -> Result<(), Fail> {
    for key in keys {
        writeln!(text, "{} {}", key.kind, key.name)?;
    }
    Ok(())
}

/// What the records of a bean rest on, each on a line.
fn read_by(alloc: Global, decls: &Decls, class: Name) -> Result<Vec<u8>, Fail> {
    let Some(Decl::Bean(bean)) = decls.get(Kind::Bean, &class) else {
        return Err(Fail::new("no bean"));
    };
    let keys = reads_of(alloc, decls, decls, bean)?;
    let mut text = Vec::new(alloc);
    push_keys(&mut text, keys.as_slice())?;
    Ok(text)
}

/// How many interceptors are around a bean.
fn count_around(alloc: Global, decls: &Decls, class: Name) -> Result<usize, Fail> {
    let Some(Decl::Bean(bean)) = decls.get(Kind::Bean, &class) else {
        return Err(Fail::new("no bean"));
    };
    let bindings = class_bindings(alloc, decls, bean)?;
    let order = in_order(alloc, decls)?;
    let around = around_any(alloc, decls, &order, bindings.as_slice(), bean)?;
    Ok(around.len())
}

#[test]
fn a_bean_is_read_and_surrounded(rt: HostRuntime) -> Result<(), Fail> {
    let decls = declared(rt.alloc(), &STANDS)?;
    let text = read_by(rt.alloc(), &decls, name(b"Stand")?)?;
    let count = count_around(rt.alloc(), &decls, name(b"Stand")?)?;
    let is_right = text.as_slice() == READ;
    assert!(rt; is_right, "{:?}", str::from_utf8(text.as_slice()));
    assert_eq!(rt; count, 1);
    Ok(())
}

/// The choice of a shop.
fn chosen(alloc: Global, decls: &Decls) -> Result<Choice, Error> {
    let list = BeanList::of(alloc, decls)?;
    let quals = Quals::new(alloc);
    Ok(list.choose(alloc, decls, name(b"Shop")?, &quals, &mut Work::new())?)
}

/// Whether a choice and its copy print this.
fn prints_twice(alloc: Global, choice: &Choice, wanted: &str) -> Result<bool, Fail> {
    let copy = choice.copy(alloc)?;
    let text = format!(in alloc; "{choice}, {copy}")?;
    Ok(text.as_str() == wanted)
}

#[test]
fn an_ambiguous_choice_is_copied(rt: HostRuntime) -> Result<(), Fail> {
    let decls = declared(rt.alloc(), &STANDS)?;
    let choice = chosen(rt.alloc(), &decls)?;
    let is_right = prints_twice(
        rt.alloc(),
        &choice,
        "ambiguous Stand Market, ambiguous Stand Market",
    )?;
    assert!(rt; is_right);
    Ok(())
}
