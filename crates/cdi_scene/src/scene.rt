//! What runs see of a deployment. Beans are named by their positions in the bean list, interceptors by their positions
//! among those that are enabled, bodies by their positions in the book, methods and observer methods by their positions in
//! their bean.
use cdi_bodies::Promise;
use cdi_contexts::Actor;
use cdi_model::{Scope, Seq};

/// How a call site names what it calls (profile).
#[derive(Clone, Copy, PartialEq, Eq, Debug)]
pub enum Via {
    /// An injection point of whoever runs: of the bean, or of the interceptor.
    Own(u32),
    /// A parameter of the method that runs.
    Param(u32),
}

/// A call site: an injection point, the bean that is chosen for it (CDI 4.0, Performing typesafe resolution), and a method
/// of that bean. A product has one method, which answers its state, so what is written here for it does not matter.
#[derive(Clone, Copy, PartialEq, Eq, Debug)]
pub struct CallSite {
    pub via: Via,
    pub bean: u32,
    pub method: u32,
}

/// An observer method that is notified, by its bean and its position there (CDI 4.0, Observer resolution).
#[derive(Clone, Copy, PartialEq, Eq, Debug)]
pub struct Notified {
    pub bean: u32,
    pub observer: u32,
}

/// A stored body at a place, with what its call sites call and whom its fire sites notify, in order (CDI 4.0, Observer
/// ordering).
#[derive(Drop)]
pub struct Part {
    /// The body, by its position in the book.
    pub body: usize,
    /// What the body promises, as the book says.
    pub promise: Promise,
    pub calls: Seq<CallSite>,
    pub fires: Seq<Seq<Notified>>,
}

/// What is invoked at a place: the interceptors of its chain, by their positions, and after them the bean's own body, if
/// it has one (Interceptors 2.1, Interceptor Ordering).
#[derive(Drop)]
pub struct Invocable {
    /// The interceptors, in the order in which they run.
    pub chain: Seq<u32>,
    /// The bean's own body. Where it has none, a value comes back and nothing runs.
    pub part: Option<Part>,
}

/// An injection point of a managed bean or of one of its interceptors, with the bean that is chosen for it (CDI 4.0,
/// Performing typesafe resolution).
#[derive(Clone, Copy, PartialEq, Eq, Debug)]
pub struct Injection {
    pub actor: Actor,
    pub point: u32,
    pub bean: u32,
}

/// An observer method.
#[derive(Drop)]
pub struct Observer {
    /// Whether it is notified only where its bean has an instance (CDI 4.0, Conditional observer methods).
    pub is_conditional: bool,
    /// The beans that are chosen for its parameters.
    pub params: Seq<u32>,
    pub invocable: Invocable,
}

/// A managed bean (CDI 4.0, Managed beans).
#[derive(Drop)]
pub struct Managed {
    /// The injection points of each interceptor that is in a chain of it, in the order of the interceptors, then its own.
    pub injections: Seq<Injection>,
    pub construct: Invocable,
    pub post: Invocable,
    pub pre: Invocable,
    pub methods: Seq<Invocable>,
    pub observers: Seq<Observer>,
}

/// The product of a producer method (CDI 4.0, Producer methods).
#[derive(Drop)]
pub struct Product {
    /// The bean that declares the method.
    pub declaring: u32,
    /// Whether the method runs without an instance of that bean.
    pub is_static: bool,
    /// The beans that are chosen for its parameters.
    pub params: Seq<u32>,
    /// The producer method. That of a static one has no interceptors.
    pub invocable: Invocable,
    /// The disposer method that matches it, if there is one (CDI 4.0, Disposer method resolution).
    pub disposer: Option<Part>,
}

/// How instances of a bean come to be.
#[derive(Drop)]
pub enum Form {
    Managed(Managed),
    Product(Product),
}

/// A bean: its scope says whether its instances are shared (CDI 4.0, Normal scopes and pseudo-scopes).
#[derive(Drop)]
pub struct Bean {
    pub scope: Scope,
    pub form: Form,
}

/// An interceptor: the bodies that it has for the construction, after it, before the destruction, and for every other place
/// (Interceptors 2.1, Interceptors for Lifecycle Event Callbacks; AroundConstruct; Method Interceptors).
#[derive(Drop)]
pub struct Interceptor {
    pub around_construct: Option<Part>,
    pub around_invoke: Option<Part>,
    pub post: Option<Part>,
    pub pre: Option<Part>,
}

/// The beans and the interceptors of a deployment. One scene serves every run until the declarations change.
pub struct Scene {
    /// In the order of the bean list.
    pub beans: Seq<Bean>,
    /// Those that are enabled.
    pub interceptors: Seq<Interceptor>,
}

impl Drop for Scene {
    fn drop(self) {
        let Scene {
            beans: _,
            interceptors: _,
        } = self;
    }
}
