//! The faults of a plain view.
use cdi_faults::Fault;
use cdi_fixtures::{Echo, declared, lines_of};
use cdi_model::Decls;
use cdi_observe::PlainView;
use cdi_resolve::BeanList;
use cdi_validate::faults;
use std::alloc::Global;
use std::test::Fail;

/// Types and stereotypes that reach themselves, uses that do not fit, points with no bean and with two, a type that is listed
/// in vain, a method whose body is nowhere and that calls what is not there, and a bean of an interface.
static FAULTY: [&[u8]; 15] = [
    b"kind = \"type\"\nname = \"A\"\nextends = \"B\"\n",
    b"kind = \"type\"\nname = \"B\"\nextends = \"A\"\n",
    b"kind = \"stereotype\"\nname = \"X\"\nstereotypes = [\"Y\"]\n",
    b"kind = \"stereotype\"\nname = \"Y\"\nstereotypes = [\"X\"]\n",
    b"kind = \"type\"\nname = \"Shop\"\nform = \"interface\"\n",
    b"kind = \"type\"\nname = \"C\"\nimplements = [\"Shop\"]\n",
    b"kind = \"type\"\nname = \"D\"\nimplements = [\"Shop\"]\n",
    b"kind = \"bean\"\nname = \"C\"\n",
    b"kind = \"bean\"\nname = \"D\"\n",
    b"kind = \"qualifier\"\nname = \"Rank\"\nmembers = [{ name = \"n\" }]\n",
    b"kind = \"type\"\nname = \"E\"\n",
    br#"kind = "bean"
name = "E"
qualifiers = ["Rank"]
points = [
  { name = "s", type = "Shop" },
  { name = "r", type = "C", qualifiers = ["Rank(m=1,n=2)"] },
]
"#,
    b"kind = \"type\"\nname = \"F\"\n",
    br#"kind = "bean"
name = "F"
stereotypes = ["X"]
types = ["Shop"]
methods = [{ name = "m", body = "nobody", calls = ["x.y"] }]
"#,
    b"kind = \"bean\"\nname = \"Shop\"\nstereotypes = [\"None\"]\n",
];

/// What their faults say, each on a line.
const FAULTS: &[u8] = b"F02 type A
F02 type B
F02 stereotype X
F02 stereotype Y
F07 bean E qualifier Rank
F07 bean E qualifier Rank(m=1,n=2)
F20 bean E point r
F21 bean E point s
F04 bean F typed Shop
F10 bean F method m
F23 bean F method m call x.y
F01 bean Shop stereotype None
F03 bean Shop class
";

/// The faults of some declarations where no body is stored.
fn found_in(alloc: Global, decls: &Decls) -> Result<Vec<Fault>, Fail> {
    let list = BeanList::of(alloc, decls)?;
    Ok(faults(alloc, &mut PlainView::new(decls, &list), &Echo)?)
}

/// The faults of the faulty declarations.
fn faulty(alloc: Global) -> Result<Vec<Fault>, Fail> {
    let decls = declared(alloc, &FAULTY)?;
    found_in(alloc, &decls)
}

/// Their texts.
fn faulty_lines(alloc: Global) -> Result<Vec<u8>, Fail> {
    let found = faulty(alloc)?;
    Ok(lines_of(alloc, found.as_slice())?)
}

#[test]
fn a_plain_view_has_faults(rt: HostRuntime) -> Result<(), Fail> {
    let text = faulty_lines(rt.alloc())?;
    let is_right = text.as_slice() == FAULTS;
    assert!(rt; is_right, "{:?}", str::from_utf8(text.as_slice()));
    Ok(())
}
