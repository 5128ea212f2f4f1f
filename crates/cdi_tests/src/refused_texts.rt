//! Where texts are refused: the path as it prints, and the line.
use cdi_model::Refusal;
use cdi_text::explain_refusal;
use std::alloc::{AllocError, Global};
use std::test::Fail;

/// A text, and why and where it is refused.
struct Case {
    text: &'static [u8],
    refusal: Refusal,
    path: &'static str,
    line: Option<usize>,
}

/// A case whose text is refused at a path, in a line.
macro_rules! case {
    ($text:expr, $refusal:ident, $path:literal, $line:expr) => {
        Case {
            text: $text,
            refusal: Refusal::$refusal,
            path: $path,
            line: $line,
        }
    };
}

/// Each condition at the top.
static AT_TOP: [Case; 10] = [
    case!(b"name=\"A\"\n", UnknownKind, "kind", None),
    case!(
        b"name=\"A\"\nkind=\"thing\"\n",
        UnknownKind,
        "kind",
        Some(2)
    ),
    case!(
        b"kind=\"type\"\nname=\"A\"\nfrom=\"class\"\n",
        UnknownKey,
        "from",
        Some(3)
    ),
    case!(b"kind=\"type\"\n", MissingKey, "name", None),
    case!(
        b"kind=\"type\"\nname=\"A\"\nfinal=1\n",
        WrongKind,
        "final",
        Some(3)
    ),
    case!(b"kind=\"type\"\n\nname=\"1\"\n", BadName, "name", Some(3)),
    case!(
        b"kind=\"type\"\nname=\"A\"\nimplements=[\"B\",1]",
        WrongKind,
        "implements[1]",
        Some(3)
    ),
    case!(
        b"kind=\"type\"\nname=\"A\"\nimplements=[\"B\",\"B\"]",
        Twice,
        "implements",
        Some(3)
    ),
    case!(
        b"kind=\"bean\"\nname=\"A\"\npoints=[{name=\"p\",type=\"B\"}]\nproducers=[{name=\"m\",type=\"B\",body=\"unit\",params=[{name=\"p\",type=\"B\"}]}]\n",
        Twice,
        "producers[0].params",
        Some(4)
    ),
    case!(
        b"kind=\"type\"\nname=\"A\"\nimplements=[\"A1\",\"A2\",\"A3\",\"A4\",\"A5\",\"A6\",\"A7\",\"A8\",\"A9\",\"B1\",\"B2\",\"B3\",\"B4\",\"B5\",\"B6\",\"B7\",\"B8\",\"B9\",\"C1\",\"C2\",\"C3\",\"C4\",\"C5\",\"C6\",\"C7\",\"C8\",\"C9\",\"D1\",\"D2\",\"D3\",\"D4\",\"D5\",\"D6\"]\n",
        ListTooLong,
        "implements",
        Some(3)
    ),
];

/// Each condition in the tables of a list.
static IN_LISTS: [Case; 9] = [
    case!(
        b"kind=\"bean\"\nname=\"A\"\n[[methods]]\nname=\"m\"\nbdy=\"unit\"\n",
        UnknownKey,
        "methods[0].bdy",
        Some(5)
    ),
    case!(
        b"kind=\"bean\"\nname=\"A\"\n\n[[methods]]\nname=\"m\"\n",
        MissingKey,
        "methods[0].body",
        Some(4)
    ),
    case!(
        b"kind=\"bean\"\nname=\"A\"\n[[methods]]\nname=\"m\"\nbody=\"unit\"\n[[methods]]\nname=\"n\"\nbody=1\n",
        WrongKind,
        "methods[1].body",
        None
    ),
    case!(
        b"kind=\"bean\"\nname=\"A\"\n[[methods]]\nname=\"m\"\nbody=\"1\"\n",
        BadName,
        "methods[0].body",
        Some(5)
    ),
    case!(
        b"kind=\"bean\"\nname=\"A\"\n[[points]]\nname=\"p\"\ntype=\"B\"\n[[observers]]\nname=\"o\"\ntype=\"E\"\nbody=\"unit\"\nparams=[{name=\"q\",type=\"C\",qualifiers=[\"Q\",\"1\"]}]\n",
        BadName,
        "observers[0].params[0].qualifiers[1]",
        Some(10)
    ),
    case!(
        b"kind=\"bean\"\nname=\"A\"\n[[points]]\nname=\"p\"\ntype=\"B\"\n[[observers]]\nname=\"o\"\ntype=\"E\"\nbody=\"unit\"\nparams=[{name=\"p\",type=\"C\"}]\n",
        Twice,
        "observers[0].params",
        Some(10)
    ),
    case!(
        b"kind=\"bean\"\nname=\"A\"\n[[producers]]\nname=\"m\"\ntype=\"B\"\nbody=\"unit\"\nparams=[{name=\"p\",type=\"B\",qualifiers=[\"Q\",\"Q\"]}]\n",
        Twice,
        "producers[0].params[0].qualifiers",
        Some(7)
    ),
    case!(
        b"kind=\"bean\"\nname=\"A\"\n[[methods]]\nname=\"m\"\nbody=\"unit\"\nfires=[\"E Q1 Q2 Q3 Q4 Q5 Q6 Q7 Q8 Q9 R1 R2 R3 R4 R5 R6 R7 R8 R9 S1 S2 S3 S4 S5 S6 S7 S8 S9 T1 T2 T3 T4 T5 T6\"]\n",
        ListTooLong,
        "methods[0].fires",
        Some(6)
    ),
    case!(
        b"kind=\"bean\"\nname=\"A\"\n[construct]\n",
        MissingKey,
        "construct.body",
        Some(3)
    ),
];

/// What is refused as a whole, keys that are quoted, and keys that stand more than once or within other words.
static OTHERS: [Case; 8] = [
    case!(b"kind=\"type\"\nname=", NotToml, "", Some(2)),
    case!(b"kind=\"type\"\n\nname=\"\xff\"\n", NotToml, "", Some(3)),
    case!(b"\xff", NotToml, "", Some(1)),
    case!(
        b"kind=\"type\"\nname=\"A\"\n\"a key\"=1\n",
        UnknownKey,
        "\"a key\"",
        None
    ),
    case!(
        b"kind=\"type\"\nname=\"A\"\n\"\"=1\n",
        UnknownKey,
        "\"\"",
        None
    ),
    case!(
        b"kind=\"type\"\nname=\"A\"\n\"from\"=1\n",
        UnknownKey,
        "from",
        Some(3)
    ),
    case!(
        b"kind=\"type\"\nname=\"A\"\nfrom=\"from\"\n",
        UnknownKey,
        "from",
        None
    ),
    case!(
        b"# from-here from_here afrom\nkind=\"type\"\nname=\"A\"\nfrom=1",
        UnknownKey,
        "from",
        Some(4)
    ),
];

/// Whether a text is refused as a case says.
fn is_as_told(alloc: Global, case: &Case) -> Result<bool, AllocError> {
    match explain_refusal(alloc, case.text)? {
        Some(explanation) => {
            let path = explanation.path.to_string(alloc)?;
            Ok(
                explanation.refusal == case.refusal
                    && path.as_str() == case.path
                    && explanation.line == case.line,
            )
        }
        None => Ok(false),
    }
}

/// How many of some cases are not as told, from the first.
fn count_right(alloc: Global, cases: &[Case]) -> Result<usize, AllocError> {
    for (index, case) in cases.iter().enumerate() {
        if !is_as_told(alloc, case)? {
            return Ok(index);
        }
    }
    Ok(cases.len())
}

#[test]
fn at_the_top(rt: HostRuntime) -> Result<(), Fail> {
    let count = count_right(rt.alloc(), &AT_TOP)?;
    assert_eq!(rt; count, AT_TOP.len());
    Ok(())
}

#[test]
fn in_lists(rt: HostRuntime) -> Result<(), Fail> {
    let count = count_right(rt.alloc(), &IN_LISTS)?;
    assert_eq!(rt; count, IN_LISTS.len());
    Ok(())
}

#[test]
fn others(rt: HostRuntime) -> Result<(), Fail> {
    let count = count_right(rt.alloc(), &OTHERS)?;
    assert_eq!(rt; count, OTHERS.len());
    Ok(())
}

#[test]
fn too_long(rt: HostRuntime) -> Result<(), Fail> {
    let text = vec![in rt.alloc(); b'\n'; 65_537]?;
    let found = explain_refusal(rt.alloc(), text.as_slice())?;
    let is_whole = match found {
        Some(explanation) => {
            explanation.refusal == Refusal::TooLong
                && explanation.path.0.is_empty()
                && explanation.line.is_none()
        }
        None => false,
    };
    assert!(rt; is_whole);
    Ok(())
}

#[test]
fn accepted(rt: HostRuntime) -> Result<(), Fail> {
    let text = b"kind=\"type\"\nname=\"A\"\n";
    let found = explain_refusal(rt.alloc(), text)?;
    assert!(rt; found.is_none());
    Ok(())
}
