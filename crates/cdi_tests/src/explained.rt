//! The verdicts on the beans and interceptors of deployments that have one for each verdict, by which bean another is
//! specialized, and names near to others.
use cdi_effective::{Effective, beans};
use cdi_explain::{
    Disabled, InterceptorVerdict, KnownNames, Verdict, replacer_of, verdicts_on_choice,
    verdicts_on_interceptors, verdicts_on_name,
};
use cdi_fixtures::{declared, name, quals};
use cdi_model::{BeanPlace, Error, Ident, Name, Refusal};
use cdi_observe::push_records;
use std::alloc::{AllocError, Global};
use std::test::Fail;

/// Shops: two alternatives with a priority, one without that makes a further shop, one that is none, one with a qualifier,
/// one that another specializes, and a bean that is no shop.
static SHOPS: [&[u8]; 15] = [
    b"kind=\"type\"\nname=\"Shop\"\nform=\"interface\"\n",
    b"kind=\"type\"\nname=\"Fast\"\nimplements=[\"Shop\"]\n",
    b"kind=\"type\"\nname=\"Slow\"\nimplements=[\"Shop\"]\n",
    b"kind=\"type\"\nname=\"Lazy\"\nimplements=[\"Shop\"]\n",
    b"kind=\"type\"\nname=\"Plain\"\nimplements=[\"Shop\"]\n",
    b"kind=\"type\"\nname=\"Old\"\nimplements=[\"Shop\"]\n",
    b"kind=\"type\"\nname=\"New\"\nextends=\"Old\"\n",
    b"kind=\"qualifier\"\nname=\"Paid\"\nmembers=[{name=\"rate\"}]\n",
    b"kind=\"bean\"\nname=\"Fast\"\nalternative=true\npriority=2\nqualifiers=[\"Default\",\"Paid(rate=1)\"]\n",
    b"kind=\"bean\"\nname=\"Slow\"\nalternative=true\npriority=1\nqualifiers=[\"Default\",\"Paid(rate=2)\"]\n",
    br#"kind="bean"
name="Lazy"
alternative=true
producers=[{name="make",type="Shop",body="unit"}]
"#,
    b"kind=\"bean\"\nname=\"Plain\"\n",
    b"kind=\"bean\"\nname=\"Old\"\n",
    b"kind=\"bean\"\nname=\"New\"\nspecializes=true\n",
    b"kind=\"bean\"\nname=\"Beer\"\n",
];

/// Where a shop is wanted.
static OF_ANY: [Verdict; 8] = [
    Verdict::Chosen,
    Verdict::LowerPriority,
    Verdict::Disabled(Disabled::NoPriority),
    Verdict::Disabled(Disabled::Declaring),
    Verdict::NoAlternative,
    Verdict::Disabled(Disabled::Specialized),
    Verdict::NoAlternative,
    Verdict::LacksType,
];

/// Where a paid shop of the second rate is wanted.
static OF_PAID: [Verdict; 8] = [
    Verdict::LacksQualifier {
        wanted: 1,
        has: Some(2),
    },
    Verdict::Chosen,
    Verdict::LacksQualifier {
        wanted: 1,
        has: None,
    },
    Verdict::LacksQualifier {
        wanted: 1,
        has: None,
    },
    Verdict::LacksQualifier {
        wanted: 1,
        has: None,
    },
    Verdict::LacksQualifier {
        wanted: 1,
        has: None,
    },
    Verdict::LacksQualifier {
        wanted: 1,
        has: None,
    },
    Verdict::LacksType,
];

fn lent(alloc: Global, beans: &[Effective]) -> Result<Vec<&Effective>, AllocError> {
    let mut list = Vec::new(alloc);
    push_records(beans, &mut list)?;
    Ok(list)
}

/// Whether the verdicts on all beans are these, where a shop with some qualifiers is wanted.
fn are_verdicts(alloc: Global, texts: &[&[u8]], wanted: &[Verdict]) -> Result<bool, Error> {
    let decls = declared(alloc, &SHOPS)?;
    let beans = beans(alloc, &decls)?;
    let lent = lent(alloc, &beans)?;
    let quals = quals(alloc, texts)?;
    let verdicts = verdicts_on_choice(alloc, &decls, &lent, name(b"Shop")?, &quals)?;
    Ok(verdicts.as_slice() == wanted)
}

#[test]
fn a_shop_is_wanted(rt: HostRuntime) -> Result<(), Fail> {
    let is_right = are_verdicts(rt.alloc(), &[], &OF_ANY)?;
    assert!(rt; is_right);
    Ok(())
}

#[test]
fn a_paid_shop_is_wanted(rt: HostRuntime) -> Result<(), Fail> {
    let is_right = are_verdicts(rt.alloc(), &[b"Any", b"Paid(rate=2)"], &OF_PAID)?;
    assert!(rt; is_right);
    Ok(())
}

/// Two plain beans of one type, of which none is an alternative.
static TWINS: [&[u8]; 5] = [
    b"kind=\"type\"\nname=\"Shop\"\nform=\"interface\"\n",
    b"kind=\"type\"\nname=\"Left\"\nimplements=[\"Shop\"]\n",
    b"kind=\"type\"\nname=\"Right\"\nimplements=[\"Shop\"]\n",
    b"kind=\"bean\"\nname=\"Left\"\n",
    b"kind=\"bean\"\nname=\"Right\"\n",
];

/// The verdicts on twins where one is wanted.
static OF_TWINS: [Verdict; 2] = [Verdict::Tied, Verdict::Tied];

#[test]
fn twins_are_tied(rt: HostRuntime) -> Result<(), Fail> {
    let decls = declared(rt.alloc(), &TWINS)?;
    let beans = beans(rt.alloc(), &decls)?;
    let lent = lent(rt.alloc(), &beans)?;
    let none = quals(rt.alloc(), &[])?;
    let verdicts = verdicts_on_choice(rt.alloc(), &decls, &lent, name(b"Shop")?, &none)?;
    assert!(rt; verdicts.as_slice() == OF_TWINS.as_slice());
    Ok(())
}

#[test]
fn an_old_shop_is_replaced(rt: HostRuntime) -> Result<(), Fail> {
    let decls = declared(rt.alloc(), &SHOPS)?;
    let of_old = replacer_of(rt.alloc(), &decls, name(b"Old")?)?;
    assert!(rt; of_old == Some(name(b"New")?));
    let of_new = replacer_of(rt.alloc(), &decls, name(b"New")?)?;
    assert!(rt; of_new == None);
    Ok(())
}

/// Beans of one name: two alternatives of different priorities, one without, and one that is none; and one of another name.
static TILLS: [&[u8]; 5] = [
    b"kind=\"bean\"\nname=\"First\"\nnamed=\"till\"\nalternative=true\npriority=2\n",
    b"kind=\"bean\"\nname=\"Second\"\nnamed=\"till\"\nalternative=true\npriority=1\n",
    b"kind=\"bean\"\nname=\"Third\"\nnamed=\"till\"\nalternative=true\n",
    b"kind=\"bean\"\nname=\"Fourth\"\nnamed=\"till\"\n",
    b"kind=\"bean\"\nname=\"Fifth\"\nnamed=\"drawer\"\n",
];

/// The verdicts on them where the till is wanted.
static OF_TILL: [Verdict; 5] = [
    Verdict::Chosen,
    Verdict::LowerPriority,
    Verdict::Disabled(Disabled::NoPriority),
    Verdict::NoAlternative,
    Verdict::LacksName,
];

#[test]
fn a_till_is_wanted(rt: HostRuntime) -> Result<(), Fail> {
    let decls = declared(rt.alloc(), &TILLS)?;
    let beans = beans(rt.alloc(), &decls)?;
    let lent = lent(rt.alloc(), &beans)?;
    let verdicts = verdicts_on_name(rt.alloc(), &lent, name(b"till")?)?;
    assert!(rt; verdicts.as_slice() == OF_TILL.as_slice());
    Ok(())
}

/// A till whose method is logged, and interceptors: one that is called, one without a method for it, one without a
/// binding, one whose second binding the method lacks, and one without a priority.
static GUARDED: [&[u8]; 9] = [
    b"kind=\"binding\"\nname=\"Log\"\n",
    b"kind=\"binding\"\nname=\"Safe\"\n",
    b"kind=\"type\"\nname=\"Till\"\n",
    b"kind=\"bean\"\nname=\"Till\"\nmethods=[{name=\"sell\",body=\"unit\",bindings=[\"Log\"]}]\n",
    b"kind=\"interceptor\"\nname=\"Scribe\"\npriority=1\nbindings=[\"Log\"]\naround_invoke={body=\"pass\"}\n",
    b"kind=\"interceptor\"\nname=\"Maker\"\npriority=1\nbindings=[\"Log\"]\naround_construct={body=\"pass\"}\n",
    b"kind=\"interceptor\"\nname=\"Idle\"\npriority=1\naround_invoke={body=\"pass\"}\n",
    b"kind=\"interceptor\"\nname=\"Guard\"\npriority=1\nbindings=[\"Log\",\"Safe\"]\naround_invoke={body=\"pass\"}\n",
    b"kind=\"interceptor\"\nname=\"Asleep\"\nbindings=[\"Log\"]\naround_invoke={body=\"pass\"}\n",
];

/// The verdicts on them where the till sells.
static OF_SALE: [InterceptorVerdict; 5] = [
    InterceptorVerdict::Called,
    InterceptorVerdict::LacksBody,
    InterceptorVerdict::NoBinding,
    InterceptorVerdict::LacksBinding(1),
    InterceptorVerdict::Disabled,
];

/// The method of a name.
fn method(text: &[u8]) -> Result<BeanPlace, Error> {
    match Ident::parse(text) {
        Some(name) => Ok(BeanPlace::Method(name)),
        None => Err(Error::Refused(Refusal::BadName)),
    }
}

#[test]
fn a_sale_is_surrounded(rt: HostRuntime) -> Result<(), Fail> {
    let decls = declared(rt.alloc(), &GUARDED)?;
    let till = name(b"Till")?;
    let verdicts = verdicts_on_interceptors(rt.alloc(), &decls, till, &method(b"sell")?)?;
    assert!(rt; verdicts.as_slice() == OF_SALE.as_slice());
    let unknown = verdicts_on_interceptors(rt.alloc(), &decls, till, &method(b"buy")?);
    assert!(rt; matches!(unknown, Err(Error::Refused(Refusal::NoMethod))));
    Ok(())
}

/// Whether this is the name near to a wanted one, of three.
fn is_nearest(alloc: Global, wanted: &[u8], nearest: Option<Name>) -> Result<bool, Error> {
    let declared = [
        name(b"shop.Till")?,
        name(b"shop.Drawer")?,
        name(b"shop.Drawers")?,
    ];
    Ok(KnownNames::of(alloc, &declared)?.nearest(alloc, name(wanted)?)? == nearest)
}

#[test]
fn names_are_near(rt: HostRuntime) -> Result<(), Fail> {
    let same_end = is_nearest(rt.alloc(), b"store.Drawer", Some(name(b"shop.Drawer")?))?;
    assert!(rt; same_end);
    let one_letter = is_nearest(rt.alloc(), b"shop.Tall", Some(name(b"shop.Till")?))?;
    assert!(rt; one_letter);
    let first_of_two = is_nearest(rt.alloc(), b"shop.Drawerz", Some(name(b"shop.Drawer")?))?;
    assert!(rt; first_of_two);
    let least = is_nearest(rt.alloc(), b"shop.Drawersa", Some(name(b"shop.Drawers")?))?;
    assert!(rt; least);
    let itself = is_nearest(rt.alloc(), b"shop.Till", None)?;
    assert!(rt; itself);
    let nothing = is_nearest(rt.alloc(), b"Pot", None)?;
    assert!(rt; nothing);
    Ok(())
}
