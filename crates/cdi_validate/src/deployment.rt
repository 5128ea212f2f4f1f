//! The faults of a deployment.
ghost use Rattle.std.specs.Prelude.{◌≡◌, ◌≢◌, ◌&&◌, ◌||◌, AllPairs, All, ◌++◌, true, map, Some, IfOk, OnOk, OnErr};
ghost use Rattle.std.specs.List.{flat_map, list_all, list_any};
ghost use Rattle.indexmap.specs.IndexSet.{contains};
ghost use Rattle.cdi_model.specs.Decl.{key_of, kind_of, name_of_decl};
ghost use Rattle.cdi_model.specs.DeclKey.{same_key};
ghost use Rattle.cdi_model.specs.DeclList.{find_decl};
ghost use Rattle.cdi_effective.specs.Beans.{beans};
ghost use Rattle.cdi_observe.specs.Kept.{evaluated, EvaluatesSome};
ghost use Rattle.cdi_observe.specs.Lending.{IsEvaluated};
ghost use Rattle.cdi_observe.specs.Wanted.{wanted};
ghost use Rattle.cdi_faults.specs.FaultText.{SubjectsInOrder};
ghost use Rattle.cdi_validate.specs.Among.{faults_together, has_faults, looks_at_all, HaveNoneAnew};
ghost use Rattle.cdi_validate.specs.Circles.{NeedsItselfOnCircle};
ghost use Rattle.cdi_validate.specs.Faults.{circles, faults, faults_of, name_clashes, name_prefixes};
ghost use Rattle.cdi_validate.specs.Faults.{LinesRise, PrefixesGoOn};
ghost use Rattle.cdi_validate.specs.Twice.{specialized_twice, SharersAreTold};
ghost use Rattle.cdi_faults.specs.declared.fault.Fault.TheVariants as the_faults;

use crate::circles::push_of_circles;
use crate::names::push_of_names;
use crate::twice::push_of_twice;
use cdi_bodies::Bodies;
use cdi_faults::{Code, Fault, Subject, in_text_order};
use cdi_model::{Decl, DeclKey, Decls};
use cdi_observe::{View, evaluate, records_of_decl};
use cdi_subjects::{Glance, subjects_at_fault};
use indexmap::IndexSet;
use std::alloc::{AllocError, Global};

/// For which faults that several declarations have together all declarations are looked at.
#[derive(Clone, Copy)]
pub struct Together {
    /// For the names that enabled beans share, or of which one continues another.
    pub names: bool,
    /// For the dependent beans that need themselves.
    pub circles: bool,
    /// For the beans that specialize one bean.
    pub chains: bool,
}

impl Together {
    /// For each.
    pub fn all() -> Together
        ensures { result ≡ looks_at_all }
    {
        Together {
            names: true,
            circles: true,
            chains: true,
        }
    }
}

/// What is found among some declarations.
#[derive(Drop)]
pub struct Found {
    /// The faults, in order.
    pub faults: Vec<Fault>,
    /// Which of these declarations have some by themselves.
    pub keys: IndexSet<DeclKey>,
    /// For which faults that several declarations have together there are some, or may be.
    pub together: Together,
}

/// All that is wrong with the declarations of a view where the bodies of a book are stored (CDI 4.0, Problems detected
/// automatically by the container): the declarations in order, each with its faults by code and then by the texts of
/// their subjects, and then the faults of names, those of circles, and those of two beans that specialize one. Each fault
/// occurs once.
///
/// If the view keeps answers, all that the declarations ask for is asked, each injection point once for each type and
/// qualifiers. It takes memory for the faults and for what they are found by, and where the view does. Where none is left,
/// some of the keys were asked. An edit that is staged stays where each of the keys is known.
#[tactic(auto, using(crate::proofs::CircleLemmas::needs_itself_on_circle, crate::proofs::LineLemmas::clashes_rise, crate::proofs::LineLemmas::circles_rise, crate::proofs::TwiceLemmas::twice_rise))]
pub fn faults<V: View, B: Bodies>(
    alloc: Global,
    view: &mut V,
    book: &B,
) -> Result<Vec<Fault>, AllocError>
    ensures faults { IfOk result (λ list. list.items ≡ faults (V.list view.old) (B.promises book.now)) }
    ensures list { V.list view.new ≡ V.list view.old }
    ensures counts { V.counts view.new ≡ V.counts view.old }
    ensures ok { OnOk result (V.kept view.new ≡ evaluated (V.list view.old) (wanted (V.list view.old)) (V.kept view.old)) }
    ensures err { OnErr result (EvaluatesSome (V.list view.old) (V.kept view.old) (V.kept view.new)) }
    ensures staged { list_all (V.kept view.old).knows (wanted (V.list view.old)) ≡ true → V.staged view.new ≡ V.staged view.old }
    ensures order { SubjectsInOrder }
    ensures once { IfOk result (λ list. AllPairs (λ f g. f ≢ g) list.items) }
    ensures clashes { LinesRise (name_clashes (beans (V.list view.old))) }
    ensures prefixes { OnOk result (LinesRise (name_prefixes (beans (V.list view.old)))) }
    ensures longer { PrefixesGoOn }
    ensures circles { NeedsItselfOnCircle }
    ensures circle_lines { LinesRise (circles (V.list view.old)) }
    ensures twice_lines { LinesRise (specialized_twice (V.list view.old)) }
    ensures sharers { SharersAreTold }
{
    evaluate(alloc, view)?;
    find(alloc, &*view, book)
}

/// The same, where all that the declarations ask for is known or the view keeps nothing.
fn find<V: View, B: Bodies>(alloc: Global, view: &V, book: &B) -> Result<Vec<Fault>, AllocError>
    requires { IsEvaluated (V.list view.now) (V.kept view.now) }
    ensures faults { IfOk result (λ list. list.items ≡ faults (V.list view.now) (B.promises book.now)) }
    ensures once { IfOk result (λ list. AllPairs (λ f g. f ≢ g) list.items) }
    ensures prefixes { OnOk result (LinesRise (name_prefixes (beans (V.list view.now)))) }
{
    let decls = all_decls(alloc, view.decls())?;
    let found = faults_among(alloc, view, book, decls.as_slice(), Together::all())?;
    Ok(found.faults)
}

/// All declarations, in order. It takes memory for a list of them.
pub fn all_decls(alloc: Global, decls: &Decls) -> Result<Vec<&Decl>, AllocError>
    ensures { IfOk result (λ list. map (λ d. d.now) list.items ≡ decls.now) }
{
    let mut list = Vec::with_capacity(alloc, decls.len())?;
    for decl in decls.iter() {
        list.push(decl)?;
    }
    Ok(list)
}

/// The faults that some declarations of a view have by themselves, in their order, and then of names, circles and beans that
/// specialize one each those that all declarations have together, or none. All that the declarations ask for is known, or the
/// view keeps nothing. It takes memory for the faults and for what they are found by.
pub fn faults_among<V: View, B: Bodies>(
    alloc: Global,
    view: &V,
    book: &B,
    decls: &[&Decl],
    together: Together,
) -> Result<Found, AllocError>
    requires found { All (λ d. find_decl (kind_of d.now) (name_of_decl d.now) (V.list view.now) ≡ Some d.now) decls.now }
    requires evaluated { IsEvaluated (V.list view.now) (V.kept view.now) }
    ensures faults { IfOk result (λ found. found.faults.items
        ≡ flat_map (faults_of (V.list view.now) (B.promises book.now)) (map (λ d. d.now) decls.now)
        ++ faults_together (V.list view.now) together) }
    ensures keys { IfOk result (λ found. (k : _) → contains same_key found.keys k
        ≡ list_any (λ d. same_key (key_of d) k && has_faults (V.list view.now) (B.promises book.now) d) (map (λ d. d.now) decls.now)) }
    ensures together { IfOk result (λ found. HaveNoneAnew (V.list view.now) together found.together) }
    ensures prefixes { OnOk result (together.names ≡ true → LinesRise (name_prefixes (beans (V.list view.now)))) }
{
    let mut faults = Vec::new(alloc);
    let keys = push_of_each(alloc, view, book, decls, &mut faults)?;
    let together = push_of_several(alloc, view, together, &mut faults)?;
    Ok(Found {
        faults,
        keys,
        together,
    })
}

/// Appends the faults that several declarations have together: those of names, those of circles, and those of two beans that
/// specialize one, of those for which all declarations are looked at. It takes memory for them and for what they are found by,
/// and answers which of them there may be.
fn push_of_several<V: View>(
    alloc: Global,
    view: &V,
    together: Together,
    faults: &mut Vec<Fault>,
) -> Result<Together, AllocError>
    requires { IsEvaluated (V.list view.now) (V.kept view.now) }
    ensures faults { OnOk result (faults.new.items ≡ faults.old.items ++ faults_together (V.list view.now) together) }
    ensures together { IfOk result (λ found. HaveNoneAnew (V.list view.now) together found) }
    ensures prefixes { OnOk result (together.names ≡ true → LinesRise (name_prefixes (beans (V.list view.now)))) }
{
    let names = together.names && !push_of_names(alloc, view, faults)?;
    let circles = together.circles && !push_of_circles(alloc, view, faults)?;
    let chains = together.chains && !push_of_twice(alloc, view, faults)?;
    Ok(Together {
        names,
        circles,
        chains,
    })
}

/// Appends the faults of some declarations, and answers which of them have some.
fn push_of_each<V: View, B: Bodies>(
    alloc: Global,
    view: &V,
    book: &B,
    decls: &[&Decl],
    faults: &mut Vec<Fault>,
) -> Result<IndexSet<DeclKey>, AllocError>
    requires found { All (λ d. find_decl (kind_of d.now) (name_of_decl d.now) (V.list view.now) ≡ Some d.now) decls.now }
    requires evaluated { IsEvaluated (V.list view.now) (V.kept view.now) }
    ensures faults { OnOk result (faults.new.items
        ≡ faults.old.items ++ flat_map (faults_of (V.list view.now) (B.promises book.now)) (map (λ d. d.now) decls.now)) }
    ensures keys { IfOk result (λ keys. (k : _) → contains same_key keys k
        ≡ list_any (λ d. same_key (key_of d) k && has_faults (V.list view.now) (B.promises book.now) d) (map (λ d. d.now) decls.now)) }
{
    let mut keys = IndexSet::new(alloc);
    for decl in decls {
        push_and_note(alloc, view, book, *decl, faults, &mut keys)?;
    }
    Ok(keys)
}

/// Appends the faults of a declaration, and adds its key if it has some.
fn push_and_note<V: View, B: Bodies>(
    alloc: Global,
    view: &V,
    book: &B,
    decl: &Decl,
    faults: &mut Vec<Fault>,
    keys: &mut IndexSet<DeclKey>,
) -> Result<(), AllocError>
    requires found { find_decl (kind_of decl.now) (name_of_decl decl.now) (V.list view.now) ≡ Some decl.now }
    requires evaluated { IsEvaluated (V.list view.now) (V.kept view.now) }
    ensures faults { OnOk result (faults.new.items ≡ faults.old.items ++ faults_of (V.list view.now) (B.promises book.now) decl.now) }
    ensures keys { OnOk result ((k : _) → contains same_key keys.new k ≡ (contains same_key keys.old k
        || (same_key (key_of decl.now) k && has_faults (V.list view.now) (B.promises book.now) decl.now))) }
{
    let before = faults.len();
    push_of_decl(alloc, view, book, decl, faults)?;
    if before < faults.len() {
        keys.insert(decl.key())?;
    }
    Ok(())
}

/// Appends the faults of a declaration. Codes of which one look at what the declaration names finds no fault are passed over.
fn push_of_decl<V: View, B: Bodies>(
    alloc: Global,
    view: &V,
    book: &B,
    decl: &Decl,
    faults: &mut Vec<Fault>,
) -> Result<(), AllocError>
    requires found { find_decl (kind_of decl.now) (name_of_decl decl.now) (V.list view.now) ≡ Some decl.now }
    requires evaluated { IsEvaluated (V.list view.now) (V.kept view.now) }
    ensures { OnOk result (faults.new.items ≡ faults.old.items ++ faults_of (V.list view.now) (B.promises book.now) decl.now) }
{
    let beans = records_of_decl(view, decl);
    let glance = Glance::at(alloc, view, book, decl)?;
    for code in Code::all() {
        if !glance.may_find(code) {
            continue;
        }
        let subjects = subjects_at_fault(alloc, code, view, book, decl, beans)?;
        push_declared(code, decl, in_text_order(alloc, subjects)?, faults)?;
    }
    Ok(())
}

/// Appends a fault of a declaration for each of some subjects.
fn push_declared(
    code: Code,
    decl: &Decl,
    subjects: Vec<Subject>,
    faults: &mut Vec<Fault>,
) -> Result<(), AllocError>
    ensures { OnOk result (faults.new.items ≡ faults.old.items
        ++ map (the_faults.Declared code (kind_of decl.now) (name_of_decl decl.now)) subjects.items) }
{
    for subject in subjects {
        faults.push(Fault::Declared {
            code,
            kind: decl.kind(),
            name: *decl.name(),
            subject,
        })?;
    }
    Ok(())
}
