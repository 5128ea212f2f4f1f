//! Questions about types, qualifiers, beans and chains, of which any one allocation may be refused. They change nothing.
use crate::Difference;
use crate::answers::Answer;
use crate::bean_questions::{BeanQuestion, Told, has_answer};
use crate::chain_questions::{AUDITED, ChainQuestion, has_answer_of_chains};
use crate::deployed::Deployed;
use crate::texts::are_names;
use cdi_fixtures::{declared, name};
use cdi_match::{closure, fill_members, is_type};
use cdi_model::{Decls, Error, Ident, Members, Scope, UseKind};
use cdi_text::read_qualifier;
use std::alloc::Global;

/// A question, with its answer.
#[derive(Clone, Copy)]
enum Question {
    /// The types of a type.
    Closure(&'static [u8], &'static [&'static [u8]]),
    /// Whether a type has another.
    IsType(&'static [u8], &'static [u8], bool),
    /// The members of a use, with their defaults.
    Fill(&'static [u8], &'static [(&'static [u8], i64)]),
    /// What is asked of the beans.
    OfBeans(BeanQuestion),
    /// What is asked of the audited bean.
    OfChains(ChainQuestion),
}

use BeanQuestion::{Beans, Choose, ChooseName, Evaluate};
use ChainQuestion::{Around, Bound, Observed};
use Question::{Closure, Fill, IsType, OfBeans, OfChains};

/// What is declared: types of which two extend each other, a qualifier, stereotypes of which two declare each other,
/// and beans of which two are alternatives of one priority and one name, one has injection points and a product, and one
/// has products with scopes.
static TEXTS: [&[u8]; 12] = [
    b"kind=\"type\"\nname=\"Corner\"\nextends=\"Place\"\nimplements=[\"Shop\",\"Stop\"]\n",
    b"kind=\"type\"\nname=\"Place\"\nextends=\"Corner\"\n",
    b"kind=\"type\"\nname=\"Shop\"\nform=\"interface\"\nimplements=[\"Stand\"]\n",
    b"kind=\"qualifier\"\nname=\"Rank\"\nmembers=[{name=\"n\",default=2},{name=\"m\"},{name=\"k\",default=7}]\n",
    b"kind=\"stereotype\"\nname=\"Sun\"\nstereotypes=[\"Moon\",\"Star\"]\nscope=\"request\"\n",
    b"kind=\"stereotype\"\nname=\"Moon\"\nstereotypes=[\"Sun\"]\nalternative=true\n",
    b"kind=\"bean\"\nname=\"Corner\"\nqualifiers=[\"Rank(m=1)\"]\nnamed=\"clerk\"\nstereotypes=[\"Sun\"]\npriority=2\n",
    b"kind=\"bean\"\nname=\"Place\"\ntypes=[\"Shop\",\"Stand\"]\nnamed=\"clerk\"\nalternative=true\npriority=2\n",
    b"kind=\"bean\"\nname=\"Inn\"\nstereotypes=[\"Moon\"]\n",
    br#"kind="bean"
name="Mill"
types=[]
points=[{name="p",type="Shop",qualifiers=["Rank(m=1)"]},{name="q",type="Inn"}]
producers=[{name="flour",type="Flour",qualifiers=["Rank(n=1)"],body="zero",params=[{name="r",type="Inn"}]}]
disposers=[{name="sweep",type="Flour",qualifiers=["Any"],body="unit"}]
"#,
    b"kind=\"stereotype\"\nname=\"Calm\"\nscope=\"application\"\n",
    br#"kind="bean"
name="Zoo"
types=[]
scope="application"
stereotypes=["Sun"]
producers=[
  {name="yard",type="Yard",scope="request",body="zero"},
  {name="gate",type="Gate",stereotypes=["Sun","Calm"],body="zero"},
]
"#,
];

static QUESTIONS: [Question; 20] = [
    Closure(
        b"Corner",
        &[b"Corner", b"Object", b"Place", b"Shop", b"Stand", b"Stop"],
    ),
    Closure(b"Mall", &[b"Mall", b"Object"]),
    IsType(b"Corner", b"Stand", true),
    IsType(b"Corner", b"Mall", false),
    IsType(b"Mall", b"Object", true),
    Fill(b"Rank(m=1)", &[(b"n", 2), (b"m", 1), (b"k", 7)]),
    Fill(b"Rank(n=5,k=6)", &[(b"n", 5), (b"k", 6)]),
    Fill(b"Plain(n=3)", &[(b"n", 3)]),
    OfBeans(Beans(&[
        Told(b"Corner", b"", Scope::Request, b""),
        Told(b"Place", b"", Scope::Dependent, b""),
        Told(b"Inn", b"", Scope::Request, b""),
        Told(b"Mill", b"", Scope::Dependent, b""),
        Told(b"Mill", b"flour", Scope::Dependent, b"sweep"),
        // The scope that a bean declares goes before that of a stereotype.
        Told(b"Zoo", b"", Scope::Application, b""),
        Told(b"Zoo", b"yard", Scope::Request, b""),
        // Two stereotypes give two scopes.
        Told(b"Zoo", b"gate", Scope::Dependent, b""),
    ])),
    OfBeans(Choose(b"Flour", &[b"Rank(n=1)"], Answer::One(b"Mill"))),
    OfBeans(Choose(b"Shop", &[], Answer::One(b"Place"))),
    OfBeans(Choose(
        b"Stand",
        &[b"Any"],
        Answer::Ambiguous(&[b"Corner", b"Place"]),
    )),
    OfBeans(Choose(b"Corner", &[b"Rank(m=1,n=2)"], Answer::One(b"Corner"))),
    OfBeans(ChooseName(b"clerk", Answer::Ambiguous(&[b"Corner", b"Place"]))),
    OfBeans(ChooseName(b"inn", Answer::Unsatisfied)),
    OfBeans(Evaluate(&[
        Answer::One(b"Corner"),
        Answer::Unsatisfied,
        Answer::Unsatisfied,
    ])),
    OfChains(Around(b"run", &[b"G"])),
    // A binding of the method replaces the one of its type that the class has through another.
    OfChains(Around(b"fast", &[])),
    OfChains(Bound(b"fast", &[b"Audit", b"Log", b"Tx"])),
    OfChains(Observed(b"S", &[b"see"])),
];

/// What the questions are about.
#[derive(Drop)]
struct Asked {
    deployed: Deployed,
    audited: Decls,
}

impl Asked {
    fn new(alloc: Global) -> Result<Asked, Error> {
        let deployed = Deployed::new(alloc, &TEXTS)?;
        let audited = declared(alloc, &AUDITED)?;
        Ok(Asked { deployed, audited })
    }
}

/// Makes what the questions are about, asks them, and tells whether there was no memory for one of these.
pub fn ask_questions(alloc: Global) -> Result<bool, Difference> {
    match Asked::new(alloc) {
        Ok(asked) => ask_each(alloc, &asked),
        Err(Error::OutOfMemory) => Ok(true),
        Err(_) => Err(Difference::Declarations),
    }
}

/// Asks the questions, and tells whether one got no memory. Where one gets none, it is asked again.
fn ask_each(alloc: Global, asked: &Asked) -> Result<bool, Difference> {
    let mut refused = false;
    for (place, question) in QUESTIONS.iter().enumerate() {
        let mut answered = ask(alloc, asked, *question);
        if answered == Err(Error::OutOfMemory) {
            if refused {
                return Err(Difference::RefusedAgain);
            }
            refused = true;
            answered = ask(alloc, asked, *question);
        }
        if answered != Ok(true) {
            return Err(Difference::Question(place));
        }
    }
    Ok(refused)
}

/// Whether a question has its answer.
fn ask(alloc: Global, asked: &Asked, question: Question) -> Result<bool, Error> {
    let decls = &asked.deployed.decls;
    match question {
        Closure(text, wanted) => has_types(alloc, decls, text, wanted),
        IsType(text, other, wanted) => Ok(is_type(decls, name(text)?, name(other)?) == wanted),
        Fill(text, wanted) => fills(alloc, decls, text, wanted),
        OfBeans(question) => has_answer(alloc, &asked.deployed, question),
        OfChains(question) => has_answer_of_chains(alloc, &asked.audited, question),
    }
}

fn has_types(alloc: Global, decls: &Decls, text: &[u8], wanted: &[&[u8]]) -> Result<bool, Error> {
    let types = closure(alloc, decls, name(text)?)?;
    Ok(are_names(types.as_slice(), wanted))
}

fn fills(
    alloc: Global,
    decls: &Decls,
    text: &[u8],
    wanted: &[(&[u8], i64)],
) -> Result<bool, Error> {
    let qual = read_qualifier(alloc, text)?;
    let members = fill_members(alloc, decls, UseKind::Qualifier, &qual)?;
    Ok(are_members(&members, wanted))
}

/// Whether these are the members with their values.
fn are_members(found: &Members, wanted: &[(&[u8], i64)]) -> bool {
    found.len() == wanted.len()
        && wanted
            .iter()
            .all(|(name, value)| value_of(found, name) == Some(*value))
}

fn value_of(members: &Members, name: &[u8]) -> Option<i64> {
    members.get(Ident::parse(name)?)
}
