//! Faults of a deployment (CDI 4.0, Problems detected automatically by the container).
ghost use Rattle.std.specs.Prelude.{◌≡◌, Contains};
ghost use Rattle.std.specs.List.Sorted.{IsStrictlySortedBy};
ghost use Rattle.cdi_faults.specs.Codes.{all_codes, code_of, code_order};

use cdi_model::{Ident, Kind, Name, PartPlace, PointPlace, Qual, UseKind};

/// What is wrong. Faults are listed in the order of the codes.
#[derive(Clone, Copy, Debug, PartialEq, Eq, PartialOrd, Ord, Hash)]
pub enum Code {
    /// A name that it names is neither declared nor built in.
    UnknownName,
    /// A type, a binding type or a stereotype reaches itself.
    Cycle,
    /// A class is named where an interface is needed, or the other way round.
    BadKind,
    /// A type to which a bean is restricted is not one of its types (CDI 4.0, Restricting the bean types of a bean).
    Typed,
    /// Stereotypes give different default scopes (CDI 4.0, Default scope for a stereotype).
    ScopeConflict,
    /// The bindings at a place have two of one type with different members (Interceptors 2.1, Conflicting Interceptor
    /// Bindings).
    BindingConflict,
    /// A use does not fit the declaration of what is used (CDI 4.0, Qualifier annotations with members; Interceptors 2.1,
    /// Interceptor Bindings With Members).
    Member,
    /// A disposer method matches no producer method, or two match one (CDI 4.0, Disposer method resolution).
    Disposer,
    /// A dependent bean has a conditional observer method (CDI 4.0, Conditional observer methods).
    ConditionalDependent,
    /// A body that it names is not in the book, or may do more than is allowed in its place (profile).
    Body,
    /// An interceptor declares no binding (Interceptors 2.1, Declaring the Interceptor Bindings of an Interceptor).
    NoBinding,
    /// No bean is right for an injection point (CDI 4.0, Unsatisfied and ambiguous dependencies).
    Unsatisfied,
    /// More than one bean is left for an injection point (CDI 4.0, Unsatisfied and ambiguous dependencies).
    Ambiguous,
    /// What is chosen for an injection point needs a class between it and its callers, which the required type does not let be
    /// extended (CDI 4.0, Unproxyable bean types).
    Unproxyable,
    /// A call site names no injection point that its body sees, or a method that the chosen bean does not have (profile).
    Site,
    /// Several enabled beans have a name, and none of them is chosen for it (CDI 4.0, Ambiguous names).
    NameClash,
    /// The name of an enabled bean is that of another, a dot and a name (CDI 4.0, Ambiguous names).
    NamePrefix,
    /// A dependent bean needs itself before it can be made (profile).
    Circular,
    /// A bean says that it specializes another, and its class extends none that has a bean (CDI 4.0, Specialization).
    NoSpecialized,
    /// A bean lacks a type of the bean that it specializes (CDI 4.0, Specialization).
    SpecializedType,
    /// A bean gives itself a name, and the bean that it specializes has one (CDI 4.0, Specialization).
    SpecializedName,
    /// Two enabled beans specialize one bean (CDI 4.0, Inconsistent specialization).
    SpecializedTwice,
}

impl Code {
    /// All codes, in their order.
    #[tactic(auto, using(crate::proofs::CodeLemmas::codes_rise, crate::proofs::CodeLemmas::has_code))]
    pub fn all() -> [Code; 22]
        ensures value { result ≡ all_codes }
        ensures order { IsStrictlySortedBy code_order all_codes }
        ensures each { (code : Code) → Contains all_codes code }
    {
        [
            Code::UnknownName,
            Code::Cycle,
            Code::BadKind,
            Code::Typed,
            Code::ScopeConflict,
            Code::BindingConflict,
            Code::Member,
            Code::Disposer,
            Code::ConditionalDependent,
            Code::Body,
            Code::NoBinding,
            Code::Unsatisfied,
            Code::Ambiguous,
            Code::Unproxyable,
            Code::Site,
            Code::NameClash,
            Code::NamePrefix,
            Code::Circular,
            Code::NoSpecialized,
            Code::SpecializedType,
            Code::SpecializedName,
            Code::SpecializedTwice,
        ]
    }
}

/// The part of a declaration that has a fault.
#[derive(Debug, PartialEq, Eq, Hash, Drop)]
pub enum Subject {
    /// The declaration as a whole.
    Whole,
    /// A type that it names.
    Type(Name),
    /// A qualifier or a binding type that it names.
    Used(UseKind, Name),
    /// A stereotype that it names.
    Stereotype(Name),
    /// The type that it extends.
    Extends(Name),
    /// A type that it implements.
    Implements(Name),
    /// The class of a bean.
    Class,
    /// A type to which a bean, or the product of a producer method, is restricted.
    Typed {
        producer: Option<Ident>,
        name: Name,
    },
    Producer(Ident),
    Disposer(Ident),
    Observer(Ident),
    /// A use of a qualifier or of a binding.
    Use(UseKind, Qual),
    /// An injection point, by what it is a parameter of.
    Point {
        place: PointPlace,
        name: Ident,
    },
    /// A place at which a stored body runs.
    Part(PartPlace),
    /// A call site of what runs in a place.
    Call {
        place: PartPlace,
        point: Ident,
        method: Ident,
    },
}

/// What is wrong with a deployment.
#[derive(Debug, PartialEq, Eq, Hash, Drop)]
pub enum Fault {
    /// A part of a declaration is at fault.
    Declared {
        code: Code,
        kind: Kind,
        name: Name,
        subject: Subject,
    },
    /// The name that several enabled beans have.
    NameClash(Name),
    /// The shorter name and the longer.
    NamePrefix(Name, Name),
    /// A dependent bean: its class, and its producer method if it is the product of one.
    Circular {
        class: Name,
        producer: Option<Ident>,
    },
    /// The class of a bean that two enabled beans specialize, and the classes of these in the order of their declarations.
    SpecializedTwice {
        specialized: Name,
        first: Name,
        second: Name,
    },
}

impl Fault {
    /// What is wrong.
    pub fn code(&self) -> Code
        ensures { result ≡ code_of self.now }
    {
        match self {
            Fault::Declared { code, .. } => *code,
            Fault::NameClash(_) => Code::NameClash,
            Fault::NamePrefix(..) => Code::NamePrefix,
            Fault::Circular { .. } => Code::Circular,
            Fault::SpecializedTwice { .. } => Code::SpecializedTwice,
        }
    }
}
