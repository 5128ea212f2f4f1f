//! What a declaration names.
ghost use Rattle.std.specs.Prelude.{◌≡◌, [], ◌∷◌, ◌++◌, map, flat_map, Some, None};
ghost use Rattle.cdi_model.specs.declared.place.PartPlace.TheVariants as parts_are;
ghost use Rattle.std.specs.Iterator.{YieldsFirstBy, item_count};
ghost use Rattle.cdi_model.specs.declared.decl.Decl.TheVariants as decls_are;
ghost use Rattle.cdi_model.specs.Mentions.{Mention as AnyMention, BodyOf, TypeIn, StereotypeOf};
ghost use Rattle.cdi_model.specs.declared.mention.PointPlace.TheVariants as points_are;
ghost use Rattle.cdi_model.specs.declared.mention.TypePlace.TheVariants as places_are;
ghost use Rattle.cdi_model.specs.Mentions.{body_left, calls_left, left, left_before, left_behind, left_now, listed_types, mentions};
ghost use Rattle.cdi_model.specs.Mentions.{names_left, of_attributes, of_bindings, of_event, of_part, of_parts, of_point, of_qualifiers};
ghost use Rattle.cdi_model.specs.Mentions.{part_place_of, parts_left, shown, sites_left, some_left, supers};

use crate::decl::{
    Attributes, BeanDecl, CallDecl, Decl, DisposerDecl, EventDecl, InterceptorDecl, MethodDecl,
    ObserverDecl, PartDecl, PointDecl, ProducerDecl, UseKind,
};
use crate::name::{Ident, Name};
use crate::place::PartPlace;
use crate::quals::Qual;
use std::marker::Model;

/// Where a declaration names a type.
#[derive(Clone, Copy, Debug)]
pub enum TypePlace {
    /// It is the class of a bean.
    Class,
    /// The type extends it.
    Extends,
    /// The type implements it.
    Implements,
    /// It is among those to which a bean, or the product of a producer method, is restricted.
    Listed,
    /// An injection point requires it.
    Required,
    /// A producer method declares to return it.
    Produced,
    /// A disposer method disposes it.
    Disposed,
    /// An observer method observes events of it.
    Observed,
    /// A body may fire events of it.
    Fired,
}

/// Of what an injection point is a parameter.
#[derive(Clone, Copy, Debug, PartialEq, Eq, Hash)]
pub enum PointPlace {
    /// Of the constructor of a bean or of an interceptor.
    Constructor,
    /// Of the producer method of this name.
    Producer(Ident),
    /// Of the observer method of this name.
    Observer(Ident),
}

/// What a declaration names in one place.
#[derive(Clone, Copy)]
pub enum Mention<'a> {
    Type(TypePlace, &'a Name),
    Use(UseKind, &'a Qual),
    Stereotype(&'a Name),
    /// A business method. Its bindings come after it.
    Method(&'a MethodDecl),
    /// An injection point. Its type and its uses come after it.
    Point(PointPlace, &'a PointDecl),
    /// The stored body that runs in a place. What it may call and fire comes after it.
    Body(PartPlace, &'a Ident),
    /// A call site of the body in a place, and the parameters of the method whose body it is.
    Call(PartPlace, &'a [PointDecl], &'a CallDecl),
    /// An event that a body may fire. Its type and its uses come after it.
    Event(&'a EventDecl),
}

/// What is left of that which a declaration names.
#[derive(Drop)]
pub struct Mentions<'a> {
    rest: Rest<'a>,
}

impl<'a> Model for Mentions<'a> {
    ghost use Rattle.std.specs.Prelude.{List};
    ghost use Rattle.cdi_model.specs.Mentions.{Mention as AnyMention, left};

    ghost Value = { List AnyMention };

    ghost view = { λ m. left m.rest };
}

impl<'a> Iterator for Mentions<'a> {
    type Item = Mention<'a>;

    ghost next_gives = { YieldsFirstBy shown (λ s. s) };

    ghost remaining = { item_count (λ s. s) };

    fn next(&mut self) -> Option<Mention<'a>> {
        self.rest.next()
    }
}

/// Types, uses and stereotypes that are written beside one another.
#[derive(Drop)]
pub(crate) struct Names<'a> {
    first: Option<(TypePlace, &'a Name)>,
    /// The place of the others.
    place: TypePlace,
    types: &'a [Name],
    qualifiers: &'a [Qual],
    stereotypes: &'a [Name],
    bindings: &'a [Qual],
}

impl<'a> Names<'a> {
    /// Some types that a type names.
    fn of_types(first: Option<(TypePlace, &'a Name)>, types: &'a [Name]) -> Names<'a>
        ensures { names_left result ≡ supers first.entry types.now }
    {
        Names {
            first,
            place: TypePlace::Implements,
            types,
            qualifiers: none(),
            stereotypes: none(),
            bindings: none(),
        }
    }

    /// Some stereotypes, and some bindings.
    fn of_stereotypes(stereotypes: &'a [Name], bindings: &'a [Qual]) -> Names<'a>
        ensures { names_left result ≡ map StereotypeOf stereotypes.now ++ of_bindings bindings.now }
    {
        Names {
            first: None,
            place: TypePlace::Implements,
            types: none(),
            qualifiers: none(),
            stereotypes,
            bindings,
        }
    }

    /// Uses of qualifiers, and of bindings.
    fn of_uses(qualifiers: &'a [Qual], bindings: &'a [Qual]) -> Names<'a>
        ensures { names_left result ≡ of_qualifiers qualifiers.now ++ of_bindings bindings.now }
    {
        Names {
            first: None,
            place: TypePlace::Implements,
            types: none(),
            qualifiers,
            stereotypes: none(),
            bindings,
        }
    }

    /// What is declared of the product of a producer method.
    fn of_product(producer: &'a ProducerDecl) -> Names<'a>
        ensures { names_left result ≡ of_attributes producer.now.attributes ++ of_bindings producer.now.bindings }
    {
        Names {
            first: None,
            place: TypePlace::Listed,
            types: listed_types(&producer.attributes),
            qualifiers: producer.attributes.qualifiers.as_slice(),
            stereotypes: producer.attributes.stereotypes.as_slice(),
            bindings: producer.bindings.as_slice(),
        }
    }

    /// A type, and uses of qualifiers.
    fn of_type(place: TypePlace, name: &'a Name, qualifiers: &'a [Qual]) -> Names<'a>
        ensures { names_left result ≡ TypeIn place name.now ∷ of_qualifiers qualifiers.now }
    {
        Names {
            first: Some((place, name)),
            place: TypePlace::Implements,
            types: none(),
            qualifiers,
            stereotypes: none(),
            bindings: none(),
        }
    }

    /// The class of a bean, and what is declared of it.
    fn of_bean(bean: &'a BeanDecl) -> Names<'a>
        ensures { names_left result ≡ TypeIn places_are.Class bean.now.name ∷ of_attributes bean.now.attributes
            ++ of_bindings bean.now.bindings }
    {
        Names {
            first: Some((TypePlace::Class, &bean.name)),
            place: TypePlace::Listed,
            types: listed_types(&bean.attributes),
            qualifiers: bean.attributes.qualifiers.as_slice(),
            stereotypes: bean.attributes.stereotypes.as_slice(),
            bindings: bean.bindings.as_slice(),
        }
    }

    fn next(&mut self) -> Option<Mention<'a>>
        ensures { YieldsFirstBy shown names_left self.old result self.new }
    {
        if let Some((place, name)) = self.first {
            self.first = None;
            return Some(Mention::Type(place, name));
        }
        if let Some((name, others)) = self.types.split_first() {
            self.types = others;
            return Some(Mention::Type(self.place, name));
        }
        if let Some((qual, others)) = self.qualifiers.split_first() {
            self.qualifiers = others;
            return Some(Mention::Use(UseKind::Qualifier, qual));
        }
        if let Some((name, others)) = self.stereotypes.split_first() {
            self.stereotypes = others;
            return Some(Mention::Stereotype(name));
        }
        let (binding, others) = self.bindings.split_first()?;
        self.bindings = others;
        Some(Mention::Use(UseKind::Binding, binding))
    }
}

fn none<'a, T>() -> &'a [T]
    ensures { result.now ≡ [] }
{
    &[]
}

/// The types to which a bean is restricted.
fn listed_types(attributes: &Attributes) -> &[Name]
    ensures { result.now ≡ listed_types attributes.now }
{
    match &attributes.types {
        Some(types) => types.as_slice(),
        None => none(),
    }
}

/// The call sites and the events of the body that runs in a place.
#[derive(Drop)]
pub(crate) struct Sites<'a> {
    place: PartPlace,
    /// The parameters of the method whose body it is.
    params: &'a [PointDecl],
    calls: &'a [CallDecl],
    fires: &'a [EventDecl],
}

impl<'a> Sites<'a> {
    /// Of a body that calls and fires nothing.
    fn none() -> Sites<'a>
        ensures calls { result.calls.now ≡ [] }
        ensures fires { result.fires.now ≡ [] }
    {
        Sites {
            place: PartPlace::Construct,
            params: none(),
            calls: none(),
            fires: none(),
        }
    }

    fn of(body: Body<'a>) -> Sites<'a>
        ensures { BodyOf body.entry.place body.entry.name.now ∷ sites_left result ≡ body_left body.entry }
    {
        Sites {
            place: body.place,
            params: body.params,
            calls: body.calls,
            fires: body.fires,
        }
    }

    /// The first of the call sites that are left.
    fn next_call(&mut self) -> Option<Mention<'a>>
        ensures call { YieldsFirstBy shown calls_left self.old result self.new }
        ensures fires { self.new.fires.now ≡ self.old.fires.now }
    {
        let (call, others) = self.calls.split_first()?;
        self.calls = others;
        Some(Mention::Call(self.place, self.params, call))
    }

    /// The first of the events that are left.
    fn next_event(&mut self) -> Option<&'a EventDecl>
        ensures event { YieldsFirstBy (λ e. e.now) (λ s. s.fires.now) self.old result self.new }
        ensures calls { calls_left self.new ≡ calls_left self.old }
    {
        let (event, others) = self.fires.split_first()?;
        self.fires = others;
        Some(event)
    }
}

/// The body that runs in a place.
#[derive(Clone, Copy)]
pub(crate) struct Body<'a> {
    place: PartPlace,
    name: &'a Ident,
    /// The parameters of the method whose body it is.
    params: &'a [PointDecl],
    calls: &'a [CallDecl],
    fires: &'a [EventDecl],
}

impl<'a> Body<'a> {
    /// The body of a method that has these parameters.
    fn of(place: PartPlace, params: &'a [PointDecl], part: &'a PartDecl) -> Body<'a>
        ensures { body_left result ≡ of_part place params.now part.now }
    {
        Body {
            place,
            name: &part.body,
            params,
            calls: part.calls.as_slice(),
            fires: part.fires.as_slice(),
        }
    }
}

/// The bodies that are not begun, each of which may be there.
#[derive(Drop)]
pub(crate) struct Parts<'a> {
    first: Option<Body<'a>>,
    second: Option<Body<'a>>,
    third: Option<Body<'a>>,
    fourth: Option<Body<'a>>,
}

impl<'a> Parts<'a> {
    fn none() -> Parts<'a>
        ensures first { some_left result.first ≡ [] }
        ensures second { some_left result.second ≡ [] }
        ensures third { some_left result.third ≡ [] }
        ensures fourth { some_left result.fourth ≡ [] }
    {
        Parts {
            first: None,
            second: None,
            third: None,
            fourth: None,
        }
    }

    /// The body of a method that has these parameters.
    fn of(place: PartPlace, params: &'a [PointDecl], part: &'a PartDecl) -> Parts<'a>
        ensures { parts_left result ≡ of_part place params.now part.now }
    {
        let mut parts = Parts::none();
        parts.first = Some(Body::of(place, params, part));
        parts
    }

    fn of_producer(producer: &'a ProducerDecl) -> Parts<'a>
        ensures { parts_left result ≡ of_part (part_place_of producer.now) producer.now.params producer.now.part }
    {
        let place = if producer.is_static {
            PartPlace::StaticProducer(producer.name)
        } else {
            PartPlace::Producer(producer.name)
        };
        Parts::of(place, producer.params.as_slice(), &producer.part)
    }

    fn of_disposer(disposer: &'a DisposerDecl) -> Parts<'a>
        ensures { parts_left result ≡ BodyOf (parts_are.Disposer disposer.now.name) disposer.now.body ∷ [] }
    {
        let mut parts = Parts::none();
        parts.first = Some(Body {
            place: PartPlace::Disposer(disposer.name),
            name: &disposer.body,
            params: none(),
            calls: none(),
            fires: none(),
        });
        parts
    }

    /// The constructor and the callbacks of a bean.
    fn of_bean(bean: &'a BeanDecl) -> Parts<'a>
        ensures { parts_left result ≡ of_parts parts_are.Construct bean.now.construct ++ of_parts parts_are.Post bean.now.post
            ++ of_parts parts_are.Pre bean.now.pre }
    {
        Parts {
            first: body_in(PartPlace::Construct, &bean.construct),
            second: body_in(PartPlace::Post, &bean.post),
            third: body_in(PartPlace::Pre, &bean.pre),
            fourth: None,
        }
    }

    fn of_interceptor(decl: &'a InterceptorDecl) -> Parts<'a>
        ensures { parts_left result ≡ of_parts parts_are.AroundInvoke decl.now.around_invoke
            ++ of_parts parts_are.AroundConstruct decl.now.around_construct ++ of_parts parts_are.Post decl.now.post
            ++ of_parts parts_are.Pre decl.now.pre }
    {
        Parts {
            first: body_in(PartPlace::AroundInvoke, &decl.around_invoke),
            second: body_in(PartPlace::AroundConstruct, &decl.around_construct),
            third: body_in(PartPlace::Post, &decl.post),
            fourth: body_in(PartPlace::Pre, &decl.pre),
        }
    }

    /// The first of them, which is begun.
    fn begin(&mut self) -> Option<Body<'a>>
        ensures first { parts_left self.old ≡ some_left result ++ parts_left self.new }
        ensures none { result ≡ None → parts_left self.old ≡ [] }
    {
        if let Some(body) = self.first.take() {
            return Some(body);
        }
        if let Some(body) = self.second.take() {
            return Some(body);
        }
        if let Some(body) = self.third.take() {
            return Some(body);
        }
        self.fourth.take()
    }
}

/// The body in a place, where there is one. It has no parameters.
fn body_in<'a>(place: PartPlace, part: &'a Option<PartDecl>) -> Option<Body<'a>>
    ensures { some_left result ≡ of_parts place part.now }
{
    match part {
        Some(part) => Some(Body::of(place, none(), part)),
        None => None,
    }
}

/// What is left: the names of what is gone through, and after them what is not begun.
#[derive(Drop)]
pub(crate) struct Rest<'a> {
    names: Names<'a>,
    /// Of what the points are parameters.
    place: PointPlace,
    points: &'a [PointDecl],
    sites: Sites<'a>,
    parts: Parts<'a>,
    methods: &'a [MethodDecl],
    producers: &'a [ProducerDecl],
    disposers: &'a [DisposerDecl],
    observers: &'a [ObserverDecl],
}

impl<'a> Rest<'a> {
    /// Nothing.
    fn none() -> Rest<'a>
        ensures names { names_left result.names ≡ [] }
        ensures place { result.place ≡ points_are.Constructor }
        ensures points { result.points.now ≡ [] }
        ensures sites { sites_left result.sites ≡ [] }
        ensures parts { parts_left result.parts ≡ [] }
        ensures behind { left_behind result ≡ [] }
    {
        Rest {
            names: Names::of_uses(none(), none()),
            place: PointPlace::Constructor,
            points: none(),
            sites: Sites::none(),
            parts: Parts::none(),
            methods: none(),
            producers: none(),
            disposers: none(),
            observers: none(),
        }
    }

    #[tactic(auto, unfolding(crate::specs::Mentions::mentions))]
    fn of_bean(bean: &'a BeanDecl) -> Rest<'a>
        ensures { left result ≡ mentions (decls_are.Bean bean.now) }
    {
        Rest {
            names: Names::of_bean(bean),
            place: PointPlace::Constructor,
            points: bean.points.as_slice(),
            sites: Sites::none(),
            parts: Parts::of_bean(bean),
            methods: bean.methods.as_slice(),
            producers: bean.producers.as_slice(),
            disposers: bean.disposers.as_slice(),
            observers: bean.observers.as_slice(),
        }
    }

    #[tactic(auto, unfolding(crate::specs::Mentions::mentions))]
    fn of_interceptor(decl: &'a InterceptorDecl) -> Rest<'a>
        ensures { left result ≡ mentions (decls_are.Interceptor decl.now) }
    {
        let mut rest = Rest::none();
        rest.names = Names::of_uses(none(), decl.bindings.as_slice());
        rest.points = decl.points.as_slice();
        rest.parts = Parts::of_interceptor(decl);
        rest
    }

    #[tactic(auto, unfolding(crate::specs::Mentions::mentions))]
    fn of(decl: &'a Decl) -> Rest<'a>
        ensures { left result ≡ mentions decl.now }
    {
        let mut rest = Rest::none();
        match decl {
            Decl::Bean(bean) => return Rest::of_bean(bean),
            Decl::Interceptor(decl) => return Rest::of_interceptor(decl),
            Decl::Type(decl) => {
                let extended = decl.extends.as_ref();
                let first = extended.map(|extended| (TypePlace::Extends, extended));
                rest.names = Names::of_types(first, decl.implements.as_slice());
            }
            Decl::Qualifier(_) => {}
            Decl::Binding(decl) => {
                rest.names = Names::of_uses(none(), decl.declares.as_slice());
            }
            Decl::Stereotype(decl) => {
                rest.names = Names::of_stereotypes(
                    decl.stereotypes.as_slice(),
                    decl.bindings.as_slice(),
                );
            }
        }
        rest
    }

    fn next(&mut self) -> Option<Mention<'a>>
        ensures { YieldsFirstBy shown left self.old result self.new }
    {
        if let Some(mention) = self.names.next() {
            return Some(mention);
        }
        if let Some((point, others)) = self.points.split_first() {
            self.points = others;
            self.names = Names::of_type(
                TypePlace::Required,
                &point.required_type,
                point.qualifiers.as_slice(),
            );
            return Some(Mention::Point(self.place, point));
        }
        self.next_site()
    }

    /// The same where neither names nor points are left of what is gone through.
    fn next_site(&mut self) -> Option<Mention<'a>>
        requires names { names_left self.now.names ≡ [] }
        requires points { self.now.points.now ≡ [] }
        ensures { YieldsFirstBy shown left self.old result self.new }
    {
        if let Some(call) = self.sites.next_call() {
            return Some(call);
        }
        if let Some(event) = self.sites.next_event() {
            self.names = Names::of_type(
                TypePlace::Fired,
                &event.event_type,
                event.qualifiers.as_slice(),
            );
            return Some(Mention::Event(event));
        }
        self.next_part()
    }

    /// The same where nothing is left of what is gone through.
    fn next_part(&mut self) -> Option<Mention<'a>>
        requires through { left_now self.now ≡ [] }
        ensures { YieldsFirstBy shown left self.old result self.new }
    {
        if let Some(body) = self.parts.begin() {
            let (place, name) = (body.place, body.name);
            self.sites = Sites::of(body);
            return Some(Mention::Body(place, name));
        }
        self.next_method()
    }

    /// The same where no body is left either.
    fn next_method(&mut self) -> Option<Mention<'a>>
        requires through { left_before self.now ≡ [] }
        ensures { YieldsFirstBy shown left self.old result self.new }
    {
        if let Some((method, others)) = self.methods.split_first() {
            self.methods = others;
            self.names = Names::of_uses(none(), method.bindings.as_slice());
            let place = PartPlace::Method(method.name);
            self.parts = Parts::of(place, none(), &method.part);
            self.begin(none());
            return Some(Mention::Method(method));
        }
        if let Some((producer, others)) = self.producers.split_first() {
            self.producers = others;
            self.place = PointPlace::Producer(producer.name);
            self.names = Names::of_product(producer);
            self.parts = Parts::of_producer(producer);
            self.begin(producer.params.as_slice());
            return Some(Mention::Type(TypePlace::Produced, &producer.product_type));
        }
        if let Some((disposer, others)) = self.disposers.split_first() {
            self.disposers = others;
            self.names = Names::of_uses(disposer.qualifiers.as_slice(), none());
            self.parts = Parts::of_disposer(disposer);
            self.begin(none());
            return Some(Mention::Type(TypePlace::Disposed, &disposer.product_type));
        }
        let (observer, others) = self.observers.split_first()?;
        self.observers = others;
        self.place = PointPlace::Observer(observer.name);
        self.names = Names::of_uses(observer.qualifiers.as_slice(), observer.bindings.as_slice());
        let place = PartPlace::Observer(observer.name);
        self.parts = Parts::of(place, observer.params.as_slice(), &observer.part);
        self.begin(observer.params.as_slice());
        Some(Mention::Type(TypePlace::Observed, &observer.event_type))
    }

    /// Goes through these points before the bodies.
    fn begin(&mut self, points: &'a [PointDecl])
        ensures begun { left_before self.new ≡ names_left self.old.names ++ flat_map (of_point self.old.place) points.now
            ++ parts_left self.old.parts }
        ensures others { left_behind self.new ≡ left_behind self.old }
    {
        self.points = points;
        self.sites = Sites::none();
    }
}

impl Decl {
    /// What it names, in order: each type, use of a qualifier or of a binding, stereotype, business method, injection point,
    /// stored body, call site and event, each with its place. It takes no memory.
    pub fn mentions(&self) -> Mentions<'_>
        ensures { result ≡ mentions self.now }
    {
        Mentions {
            rest: Rest::of(self),
        }
    }
}
