//! Entries as they are kept: each in 32 bytes.
ghost use Rattle.std.specs.Prelude.{◌≡◌, Some, None, IfSome};
ghost use Rattle.std.specs.Int.{cast_signed, w64};
ghost use Rattle.cdi_model.specs.declared.outcome.Outcome.TheVariants.{Failed, Value};
ghost use Rattle.cdi_legal.specs.Packed.{actor_by, entry_of, failure_by, id_of, outcome_by, owner_by, place_by, product_by};
ghost use Rattle.cdi_legal.specs.Packed.{seat_of, val_by};

use crate::entry::Entry;
use cdi_contexts::{Actor, InstanceId, Owner};
use cdi_model::{Failure, Outcome, Val};
use cdi_scene::{Notified, Place, Seat};

/// Which entry it is. Of three it says too whether the body runs on an instance or on its class.
#[repr(u8)]
#[derive(Clone, Copy, PartialEq, Eq, Debug)]
enum Kind {
    Create,
    Ready,
    Broken,
    Enter,
    EnterClass,
    Loaded,
    Stored,
    Called,
    CalledClass,
    Fired,
    FiredClass,
    Proceeded,
    Got,
    Leave,
    Skip,
    Destroy,
    Gone,
}

/// At which place a body runs, and whether it is the bean's own or that of an interceptor.
#[repr(u8)]
#[derive(Clone, Copy, PartialEq, Eq, Debug)]
enum Spot {
    Construct,
    Post,
    Pre,
    Method,
    Producer,
    Disposer,
    Observer,
    AroundConstruct,
    AroundPost,
    AroundPre,
    AroundMethod,
    AroundProducer,
    AroundDisposer,
    AroundObserver,
}

/// What a value, a failure or an owner is. A number of it is kept beside this.
#[repr(u8)]
#[derive(Clone, Copy, PartialEq, Eq, Debug)]
enum Tag {
    Nothing,
    Null,
    Int,
    NotActive,
    Creating,
    Depth,
    Steps,
    Budget,
    IllegalProduct,
    NotConstructed,
    Limit,
    User,
    Request,
    Application,
    Point,
}

/// A value, an outcome or a failure: what it is, and its number.
#[derive(Clone, Copy)]
struct Word {
    tag: Tag,
    bits: u64,
    code: u8,
}

/// Where a body runs: the spot, the position of the interceptor, and that of the method, the observer method or the product.
#[derive(Clone, Copy)]
struct Post {
    spot: Spot,
    actor: u32,
    place: u32,
}

/// An entry in 32 bytes. `entry_of` of `specs/Packed` says which entry it is.
#[derive(Clone, Copy)]
pub(crate) struct Packed {
    number: u64,
    bits: u64,
    bean: u32,
    actor: u32,
    place: u32,
    kind: Kind,
    spot: Spot,
    tag: Tag,
    code: u8,
}

impl Word {
    /// A tag without a number.
    fn bare(tag: Tag) -> Word
        ensures { result ≡ record { tag = tag; bits = 0; code = 0 } }
    {
        Word {
            tag,
            bits: 0,
            code: 0,
        }
    }

    fn of_int(number: i64) -> Word
        ensures tag { result.tag ≡ Tag.Int }
        ensures bits { cast_signed w64 result.bits ≡ number }
    {
        Word {
            tag: Tag::Int,
            bits: number.cast_unsigned(),
            code: 0,
        }
    }

    fn of_val(value: Val) -> Word
        ensures val { val_by result.tag result.bits ≡ value }
        ensures outcome { outcome_by result.tag result.bits result.code ≡ Value value }
        ensures product { product_by result.tag result.bits ≡ Some value }
    {
        match value {
            Val::Null => Word::bare(Tag::Null),
            Val::Int(number) => Word::of_int(number),
        }
    }

    fn of_failure(failure: Failure) -> Word
        ensures failure { failure_by result.tag result.code ≡ failure }
        ensures outcome { outcome_by result.tag result.bits result.code ≡ Failed failure }
    {
        match failure {
            Failure::NotActive => Word::bare(Tag::NotActive),
            Failure::Creating => Word::bare(Tag::Creating),
            Failure::Depth => Word::bare(Tag::Depth),
            Failure::Steps => Word::bare(Tag::Steps),
            Failure::Budget => Word::bare(Tag::Budget),
            Failure::IllegalProduct => Word::bare(Tag::IllegalProduct),
            Failure::NotConstructed => Word::bare(Tag::NotConstructed),
            Failure::Limit => Word::bare(Tag::Limit),
            Failure::User(code) => Word {
                tag: Tag::User,
                bits: 0,
                code,
            },
        }
    }

    fn of_outcome(outcome: Outcome) -> Word
        ensures { outcome_by result.tag result.bits result.code ≡ outcome }
    {
        match outcome {
            Outcome::Value(value) => Word::of_val(value),
            Outcome::Failed(failure) => Word::of_failure(failure),
        }
    }

    fn of_product(product: Option<Val>) -> Word
        ensures { product_by result.tag result.bits ≡ product }
    {
        match product {
            None => Word::bare(Tag::Nothing),
            Some(value) => Word::of_val(value),
        }
    }
}

impl Post {
    /// The bean's own body at a place.
    fn own(place: Place) -> Post
        ensures actor { actor_by result.spot result.actor ≡ Actor.Target }
        ensures place { place_by result.spot result.place ≡ place }
    {
        let (spot, place) = match place {
            Place::Construct => (Spot::Construct, 0),
            Place::Post => (Spot::Post, 0),
            Place::Pre => (Spot::Pre, 0),
            Place::Method(position) => (Spot::Method, position),
            Place::Producer(product) => (Spot::Producer, product),
            Place::Disposer(product) => (Spot::Disposer, product),
            Place::Observer(position) => (Spot::Observer, position),
        };
        Post {
            spot,
            actor: 0,
            place,
        }
    }

    /// The body of an interceptor around a place.
    fn around(actor: u32, place: Place) -> Post
        ensures actor { actor_by result.spot result.actor ≡ Actor.Interceptor actor }
        ensures place { place_by result.spot result.place ≡ place }
    {
        let (spot, place) = match place {
            Place::Construct => (Spot::AroundConstruct, 0),
            Place::Post => (Spot::AroundPost, 0),
            Place::Pre => (Spot::AroundPre, 0),
            Place::Method(position) => (Spot::AroundMethod, position),
            Place::Producer(product) => (Spot::AroundProducer, product),
            Place::Disposer(product) => (Spot::AroundDisposer, product),
            Place::Observer(position) => (Spot::AroundObserver, position),
        };
        Post { spot, actor, place }
    }

    fn of(actor: Actor, place: Place) -> Post
        ensures actor { actor_by result.spot result.actor ≡ actor }
        ensures place { place_by result.spot result.place ≡ place }
    {
        match actor {
            Actor::Target => Post::own(place),
            Actor::Interceptor(position) => Post::around(position, place),
        }
    }
}

impl Packed {
    /// A kind with a word, about no instance.
    fn within(kind: Kind, word: Word) -> Packed
        ensures kind { result.kind ≡ kind }
        ensures tag { result.tag ≡ word.tag }
        ensures bits { result.bits ≡ word.bits }
        ensures code { result.code ≡ word.code }
    {
        Packed {
            number: 0,
            bits: word.bits,
            bean: 0,
            actor: 0,
            place: 0,
            kind,
            spot: Spot::Construct,
            tag: word.tag,
            code: word.code,
        }
    }

    /// The same about an instance.
    fn on(kind: Kind, id: InstanceId, word: Word) -> Packed
        ensures kind { result.kind ≡ kind }
        ensures id { id_of result ≡ id }
        ensures tag { result.tag ≡ word.tag }
        ensures bits { result.bits ≡ word.bits }
        ensures code { result.code ≡ word.code }
    {
        Packed {
            number: id.number,
            bean: id.bean,
            ..Packed::within(kind, word)
        }
    }

    /// What a body does at a seat, with a value: of the first kind on an instance, and else of the second.
    fn at(kinds: (Kind, Kind), seat: Seat, value: Val, code: u8) -> Packed
        ensures on { IfSome seat.number (λ n. (result.kind ≡ kinds.0) × (seat_of result (Some result.number) ≡ seat)) }
        ensures class { seat.number ≡ None → (result.kind ≡ kinds.1) × (seat_of result None ≡ seat) }
        ensures value { val_by result.tag result.bits ≡ value }
        ensures code { result.code ≡ code }
    {
        let word = Word::of_val(value);
        let post = Post::of(seat.actor, seat.place);
        let (kind, number) = match seat.number {
            Some(number) => (kinds.0, number),
            None => (kinds.1, 0),
        };
        Packed {
            number,
            bits: word.bits,
            bean: seat.bean,
            actor: post.actor,
            place: post.place,
            kind,
            spot: post.spot,
            tag: word.tag,
            code,
        }
    }

    /// The creation of an instance for an owner.
    fn of_create(id: InstanceId, owner: Owner) -> Packed
        ensures { entry_of result ≡ Entry.Create id owner }
    {
        let packed = Packed::on(Kind::Create, id, Word::bare(Tag::Nothing));
        match owner {
            Owner::Request => Packed {
                tag: Tag::Request,
                ..packed
            },
            Owner::Application => Packed {
                tag: Tag::Application,
                ..packed
            },
            Owner::Point {
                instance,
                actor,
                point,
            } => {
                let post = Post::of(actor, Place::Construct);
                Packed {
                    tag: Tag::Point,
                    bits: instance,
                    actor: post.actor,
                    spot: post.spot,
                    place: point,
                    ..packed
                }
            }
            Owner::Nobody => packed,
        }
    }

    /// What an instance holds for an actor from now on.
    fn of_stored(number: u64, actor: Actor, value: Val) -> Packed
        ensures { entry_of result ≡ Entry.Stored number actor value }
    {
        let post = Post::of(actor, Place::Construct);
        Packed {
            number,
            actor: post.actor,
            spot: post.spot,
            ..Packed::within(Kind::Stored, Word::of_val(value))
        }
    }

    /// An entry.
    #[inline(always)]
    pub(crate) fn of(entry: Entry) -> Packed
        ensures { entry_of result ≡ entry }
    {
        match entry {
            Entry::Create { id, owner } => Packed::of_create(id, owner),
            Entry::Ready { id, product } => {
                Packed::on(Kind::Ready, id, Word::of_product(product))
            }
            Entry::Broken { id, failure } => {
                Packed::on(Kind::Broken, id, Word::of_failure(failure))
            }
            Entry::Enter { seat, arg } => Packed::at((Kind::Enter, Kind::EnterClass), seat, arg, 0),
            Entry::Loaded { value } => Packed::within(Kind::Loaded, Word::of_val(value)),
            Entry::Stored {
                number,
                actor,
                value,
            } => Packed::of_stored(number, actor, value),
            Entry::Called { seat, site, arg } => {
                Packed::at((Kind::Called, Kind::CalledClass), seat, arg, site)
            }
            Entry::Fired { seat, site, arg } => {
                Packed::at((Kind::Fired, Kind::FiredClass), seat, arg, site)
            }
            Entry::Proceeded { arg } => Packed::within(Kind::Proceeded, Word::of_val(arg)),
            Entry::Got { outcome } => Packed::within(Kind::Got, Word::of_outcome(outcome)),
            Entry::Leave { outcome } => Packed::within(Kind::Leave, Word::of_outcome(outcome)),
            Entry::Skip { observer } => Packed {
                bean: observer.bean,
                place: observer.observer,
                ..Packed::within(Kind::Skip, Word::bare(Tag::Nothing))
            },
            Entry::Destroy { id } => Packed::on(Kind::Destroy, id, Word::bare(Tag::Nothing)),
            Entry::Gone { id } => Packed::on(Kind::Gone, id, Word::bare(Tag::Nothing)),
        }
    }

    fn id(self) -> InstanceId
        ensures { result ≡ id_of self }
    {
        InstanceId {
            bean: self.bean,
            number: self.number,
        }
    }

    fn actor(self) -> Actor
        ensures { result ≡ actor_by self.spot self.actor }
    {
        match self.spot {
            Spot::Construct
            | Spot::Post
            | Spot::Pre
            | Spot::Method
            | Spot::Producer
            | Spot::Disposer
            | Spot::Observer => Actor::Target,
            _ => Actor::Interceptor(self.actor),
        }
    }

    fn place(self) -> Place
        ensures { result ≡ place_by self.spot self.place }
    {
        match self.spot {
            Spot::Construct | Spot::AroundConstruct => Place::Construct,
            Spot::Post | Spot::AroundPost => Place::Post,
            Spot::Pre | Spot::AroundPre => Place::Pre,
            Spot::Method | Spot::AroundMethod => Place::Method(self.place),
            Spot::Producer | Spot::AroundProducer => Place::Producer(self.place),
            Spot::Disposer | Spot::AroundDisposer => Place::Disposer(self.place),
            Spot::Observer | Spot::AroundObserver => Place::Observer(self.place),
        }
    }

    /// A seat on the instance of this number, or on none.
    fn seat(self, number: Option<u64>) -> Seat
        ensures { result ≡ seat_of self number }
    {
        Seat {
            bean: self.bean,
            number,
            actor: self.actor(),
            place: self.place(),
        }
    }

    fn val(self) -> Val
        ensures { result ≡ val_by self.tag self.bits }
    {
        match self.tag {
            Tag::Int => Val::Int(self.bits.cast_signed()),
            _ => Val::Null,
        }
    }

    fn product(self) -> Option<Val>
        ensures { result ≡ product_by self.tag self.bits }
    {
        match self.tag {
            Tag::Null => Some(Val::Null),
            Tag::Int => Some(Val::Int(self.bits.cast_signed())),
            _ => None,
        }
    }

    fn failure(self) -> Failure
        ensures { result ≡ failure_by self.tag self.code }
    {
        match self.tag {
            Tag::NotActive => Failure::NotActive,
            Tag::Creating => Failure::Creating,
            Tag::Depth => Failure::Depth,
            Tag::Steps => Failure::Steps,
            Tag::Budget => Failure::Budget,
            Tag::IllegalProduct => Failure::IllegalProduct,
            Tag::NotConstructed => Failure::NotConstructed,
            Tag::Limit => Failure::Limit,
            _ => Failure::User(self.code),
        }
    }

    fn outcome(self) -> Outcome
        ensures { result ≡ outcome_by self.tag self.bits self.code }
    {
        match self.tag {
            Tag::Null => Outcome::Value(Val::Null),
            Tag::Int => Outcome::Value(Val::Int(self.bits.cast_signed())),
            _ => Outcome::Failed(self.failure()),
        }
    }

    fn owner(self) -> Owner
        ensures { result ≡ owner_by self.tag self.bits self.spot self.actor self.place }
    {
        match self.tag {
            Tag::Request => Owner::Request,
            Tag::Application => Owner::Application,
            Tag::Point => Owner::Point {
                instance: self.bits,
                actor: self.actor(),
                point: self.place,
            },
            _ => Owner::Nobody,
        }
    }

    /// Which entry it is.
    pub(crate) fn entry(self) -> Entry
        ensures { result ≡ entry_of self }
    {
        match self.kind {
            Kind::Create => Entry::Create {
                id: self.id(),
                owner: self.owner(),
            },
            Kind::Ready => Entry::Ready {
                id: self.id(),
                product: self.product(),
            },
            Kind::Broken => Entry::Broken {
                id: self.id(),
                failure: self.failure(),
            },
            Kind::Enter => self.enter(Some(self.number)),
            Kind::EnterClass => self.enter(None),
            Kind::Loaded => Entry::Loaded { value: self.val() },
            Kind::Stored => Entry::Stored {
                number: self.number,
                actor: self.actor(),
                value: self.val(),
            },
            Kind::Called => self.called(Some(self.number)),
            Kind::CalledClass => self.called(None),
            Kind::Fired => self.fired(Some(self.number)),
            Kind::FiredClass => self.fired(None),
            Kind::Proceeded => Entry::Proceeded { arg: self.val() },
            Kind::Got => Entry::Got {
                outcome: self.outcome(),
            },
            Kind::Leave => Entry::Leave {
                outcome: self.outcome(),
            },
            Kind::Skip => Entry::Skip {
                observer: self.observer(),
            },
            Kind::Destroy => Entry::Destroy { id: self.id() },
            Kind::Gone => Entry::Gone { id: self.id() },
        }
    }

    fn enter(self, number: Option<u64>) -> Entry
        ensures { result ≡ Entry.Enter (seat_of self number) (val_by self.tag self.bits) }
    {
        Entry::Enter {
            seat: self.seat(number),
            arg: self.val(),
        }
    }

    fn called(self, number: Option<u64>) -> Entry
        ensures { result ≡ Entry.Called (seat_of self number) self.code (val_by self.tag self.bits) }
    {
        Entry::Called {
            seat: self.seat(number),
            site: self.code,
            arg: self.val(),
        }
    }

    fn fired(self, number: Option<u64>) -> Entry
        ensures { result ≡ Entry.Fired (seat_of self number) self.code (val_by self.tag self.bits) }
    {
        Entry::Fired {
            seat: self.seat(number),
            site: self.code,
            arg: self.val(),
        }
    }

    fn observer(self) -> Notified
        ensures { result ≡ record { bean = self.bean; observer = self.place } }
    {
        Notified {
            bean: self.bean,
            observer: self.place,
        }
    }
}
