//! The bean list.
ghost use Rattle.std.specs.Prelude.{◌≡◌, ◌∷◌, [], MatchOption};
ghost use Rattle.std.specs.Iterator.{YieldsFirstRef, item_count};
ghost use Rattle.cdi_effective.specs.Beans.{beans};
ghost use Rattle.cdi_container.specs.BeansLent.{beans_left, AreDeclared};

use cdi_effective::Effective;
use cdi_live::Live;
use cdi_model::Iter as DeclIter;
use cdi_observe::records_of_decl;
use std::fmt;
use std::marker::Model;

/// The records of some declarations that are left.
#[derive(Drop)]
struct LeftBeans<'a> {
    live: &'a Live,
    /// Those of the declaration that is gone through.
    own: &'a [Effective],
    /// The declarations after it.
    rest: DeclIter<'a>,
}

impl<'a> LeftBeans<'a> {
    fn next(&mut self) -> Option<&'a Effective>
        requires { AreDeclared self.old.live.now.decls self.old.rest }
        ensures declared { AreDeclared self.new.live.now.decls self.new.rest }
        ensures next { MatchOption result ((beans_left self.old ≡ []) × (beans_left self.new ≡ []))
            (λ bean. beans_left self.old ≡ bean.now ∷ beans_left self.new) }
    {
        loop {
            if let Some((bean, own)) = self.own.split_first() {
                self.own = own;
                return Some(bean);
            }
            let decl = self.rest.next()?;
            self.own = records_of_decl(self.live, decl);
        }
    }
}

/// The records of the beans of a deployment, in the order of the bean list: what each bean's declaration, class and
/// stereotypes give it. It lends them, and takes no memory.
#[derive(Drop)]
pub struct Beans<'a> {
    left: LeftBeans<'a>,
}

impl<'a> Model for Beans<'a> {
    ghost use Rattle.std.specs.Prelude.{List};
    ghost use Rattle.cdi_effective.specs.declared.records.Effective.{Effective as AnyBean};
    ghost use Rattle.cdi_container.specs.BeansLent.{beans_left, AreDeclared};

    ghost Value = { List AnyBean };

    ghost view = { λ b. beans_left b.left };

    ghost invariant = { λ b. AreDeclared b.left.live.now.decls b.left.rest };
}

impl<'a> Beans<'a> {
    /// Those of the present declarations.
    #[tactic(auto, unfolding(cdi_effective::specs::Beans::beans))]
    pub(crate) fn new(live: &'a Live) -> Beans<'a>
        ensures { result ≡ beans live.now.decls }
    {
        Beans {
            left: LeftBeans {
                live,
                own: &[],
                rest: live.decls().iter(),
            },
        }
    }
}

impl<'a> Iterator for Beans<'a> {
    type Item = &'a Effective;

    ghost next_gives = { YieldsFirstRef (λ s. s) };

    ghost remaining = { item_count (λ s. s) };

    fn next(&mut self) -> Option<&'a Effective> {
        self.left.next()
    }
}

impl fmt::Debug for Beans<'_> {
    fn fmt<W: fmt::Write>(&self, f: &mut fmt::Formatter<W>) -> fmt::Result {
        write!(f, "Beans")
    }
}
