//! The injection points with what is chosen for each.
ghost use Rattle.std.specs.Prelude.{◌≡◌, ◌∷◌, [], MatchOption};
ghost use Rattle.std.specs.Iterator.{YieldsFirstBy, item_count};
ghost use Rattle.cdi_container.specs.Lent.{lent_at, own_left, placed_at, placed_left, some_left};
ghost use Rattle.cdi_container.specs.Points.{placed_points, points_in};
ghost use Rattle.cdi_container.specs.Wired.{KnowsAll};

use cdi_live::Live;
use cdi_model::{Decl, Iter as DeclIter, Mention, Mentions, PointDecl, PointPlace};
use cdi_resolve::Choice;
use std::fmt;
use std::marker::Model;

/// An injection point (CDI 4.0, Injection points).
#[derive(Clone, Copy)]
pub struct InjectionPoint<'a> {
    /// The declaration of the bean or the interceptor that has it.
    pub owner: &'a Decl,
    /// Of what it is a parameter: of its constructor, of a producer method or of an observer method.
    pub place: PointPlace,
    /// The type that it requires, and its qualifiers as they are written.
    pub point: &'a PointDecl,
    /// The bean that is chosen for it, or why none is.
    pub choice: &'a Choice,
}

/// An injection point without what is chosen for it.
#[derive(Clone, Copy)]
struct Placed<'a> {
    owner: &'a Decl,
    place: PointPlace,
    point: &'a PointDecl,
}

/// The injection points of a declaration that are left.
#[derive(Drop)]
struct OwnPoints<'a> {
    owner: &'a Decl,
    mentions: Mentions<'a>,
}

impl<'a> OwnPoints<'a> {
    fn of(owner: &'a Decl) -> OwnPoints<'a>
        ensures { own_left result ≡ points_in owner.now }
    {
        OwnPoints {
            owner,
            mentions: owner.mentions(),
        }
    }

    fn next(&mut self) -> Option<Placed<'a>>
        ensures { MatchOption result ((own_left self.old ≡ []) × (own_left self.new ≡ []))
            (λ p. own_left self.old ≡ placed_at p ∷ own_left self.new) }
    {
        while let Some(mention) = self.mentions.next() {
            if let Mention::Point(place, point) = mention {
                return Some(Placed {
                    owner: self.owner,
                    place,
                    point,
                });
            }
        }
        None
    }
}

/// The injection points of some declarations that are left.
#[derive(Drop)]
struct PlacedPoints<'a> {
    /// Those of the declaration that is gone through, if one is.
    own: Option<OwnPoints<'a>>,
    /// The declarations after it.
    rest: DeclIter<'a>,
}

impl<'a> PlacedPoints<'a> {
    fn next(&mut self) -> Option<Placed<'a>>
        ensures { MatchOption result ((placed_left self.old ≡ []) × (placed_left self.new ≡ []))
            (λ p. placed_left self.old ≡ placed_at p ∷ placed_left self.new) }
    {
        loop {
            if let Some(placed) = self.next_own() {
                return Some(placed);
            }
            let owner = self.rest.next()?;
            self.own = Some(OwnPoints::of(owner));
        }
    }

    /// The next of the declaration that is gone through.
    fn next_own(&mut self) -> Option<Placed<'a>>
        ensures own { MatchOption result ((some_left self.old.own ≡ []) × (some_left self.new.own ≡ []))
            (λ p. some_left self.old.own ≡ placed_at p ∷ some_left self.new.own) }
        ensures rest { self.new.rest ≡ self.old.rest }
    {
        match &mut self.own {
            Some(own) => own.next(),
            None => None,
        }
    }
}

/// The injection points of a container, in the order of the declarations and of the places in which each names its points,
/// with what is chosen for each. It lends the kept answers, which are all known, and takes no memory.
#[derive(Clone, Copy)]
pub struct Points<'a> {
    live: &'a Live,
    ghost known: { KnowsAll live.now },
}

impl<'a> Points<'a> {
    ghost use Rattle.cdi_container.specs.Points.{points_told};
    ghost use Rattle.cdi_container.specs.PointsLent.{points_lent};

    /// Those of the present declarations.
    pub(crate) fn new(live: &'a Live) -> Points<'a>
        requires { KnowsAll live.now }
        ensures { points_lent result ≡ points_told live.now.decls }
    {
        Points { live }
    }

    /// Goes through them. It takes no memory.
    #[tactic(auto, unfolding(crate::specs::Points::points_told))]
    pub fn iter(&self) -> PointIter<'a>
        ensures { result ≡ points_lent self.now }
    {
        let live = self.live;
        PointIter {
            live,
            left: PlacedPoints {
                own: None,
                rest: live.decls().iter(),
            },
        }
    }
}

impl<'a> IntoIterator for Points<'a> {
    ghost use Rattle.cdi_container.specs.PointsLent.{points_lent};

    type Item = InjectionPoint<'a>;

    type IntoIter = PointIter<'a>;

    ghost into_iter_gives = { λ points left. left ≡ points_lent points };

    fn into_iter(self) -> PointIter<'a> {
        self.iter()
    }
}

impl fmt::Debug for Points<'_> {
    fn fmt<W: fmt::Write>(&self, f: &mut fmt::Formatter<W>) -> fmt::Result {
        write!(f, "Points")
    }
}

/// The injection points that are left, in order, with what is chosen for each.
#[derive(Drop)]
pub struct PointIter<'a> {
    live: &'a Live,
    left: PlacedPoints<'a>,
}

impl<'a> Model for PointIter<'a> {
    ghost use Rattle.std.specs.Prelude.{List, map};
    ghost use Rattle.cdi_container.specs.Lent.{AreKnown, placed_left};
    ghost use Rattle.cdi_container.specs.Points.{ToldPoint, told_at};

    ghost Value = { List ToldPoint };

    ghost view = { λ p. map (told_at p.live.now.decls) (placed_left p.left) };

    ghost invariant = { λ p. AreKnown p.live.now (placed_left p.left) };
}

impl<'a> Iterator for PointIter<'a> {
    type Item = InjectionPoint<'a>;

    ghost next_gives = { YieldsFirstBy lent_at (λ s. s) };

    ghost remaining = { item_count (λ s. s) };

    fn next(&mut self) -> Option<InjectionPoint<'a>> {
        let Some(placed) = self.left.next() else {
            return None;
        };
        let live = self.live;
        let point = placed.point;
        match live.kept_choice(&point.required_type, &point.qualifiers) {
            Some(choice) => Some(InjectionPoint {
                owner: placed.owner,
                place: placed.place,
                point,
                choice,
            }),
            None => unreachable!(),
        }
    }
}

impl fmt::Debug for PointIter<'_> {
    fn fmt<W: fmt::Write>(&self, f: &mut fmt::Formatter<W>) -> fmt::Result {
        write!(f, "PointIter")
    }
}
