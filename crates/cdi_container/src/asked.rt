//! Where lookups and calls lead, and which events may be fired.
ghost use Rattle.std.specs.Prelude.{◌≡◌};
ghost use Rattle.cdi_effective.specs.Beans.{beans as beans_of};
ghost use Rattle.cdi_staging.specs.Sites.{managed_class};
ghost use Rattle.cdi_container.specs.Asked.{purpose_of, aim_of_choice, can_be_fired};
ghost use Rattle.cdi_container.specs.Asked.{names_default};

use cdi_effective::BeanId;
use cdi_model::{Decls, Ident, Name, Qual, Quals, Refusal, Val};
use cdi_resolve::Choice;
use cdi_run::Purpose;
use cdi_staging::{ListedBeans, method_of, target_of};
use cdi_subjects::{are_known, has_method};

/// A method and its argument.
#[derive(Clone, Copy)]
pub(crate) struct Message {
    pub(crate) method: Ident,
    pub(crate) arg: Val,
}

/// The position of a bean in the bean list, and what is done with its instance.
#[derive(Clone, Copy)]
pub(crate) struct Aim {
    pub(crate) bean: usize,
    pub(crate) purpose: Purpose,
}

/// The aim at what is chosen.
#[tactic(auto, unfolding(cdi_staging::specs::Sites::target_of))]
pub(crate) fn aim_of_choice(
    decls: &Decls,
    beans: &ListedBeans<'_>,
    choice: &Choice,
    message: Option<Message>,
) -> Result<Aim, Refusal>
    requires { beans.now ≡ beans_of decls.now }
    ensures { result ≡ aim_of_choice decls.now message choice.now }
{
    match choice {
        Choice::Unsatisfied => Err(Refusal::Unsatisfied),
        Choice::Ambiguous(_) => Err(Refusal::Ambiguous),
        Choice::One(id) => {
            let target = target_of(beans, choice);
            Ok(Aim {
                bean: target.bean,
                purpose: purpose_of(decls, *id, target.class, message)?,
            })
        }
    }
}

/// What is done with the instance of a bean, which has this class unless it is a product.
fn purpose_of(
    decls: &Decls,
    id: BeanId,
    class: Option<Name>,
    message: Option<Message>,
) -> Result<Purpose, Refusal>
    requires { class ≡ managed_class id }
    ensures { result ≡ purpose_of decls.now id message }
{
    let Some(Message { method, arg }) = message else {
        return Ok(Purpose::State);
    };
    if !has_method(decls, &id, method) {
        return Err(Refusal::NoMethod);
    }
    Ok(Purpose::Answer {
        method: method_of(decls, class, method),
        arg,
    })
}

/// Whether the type and the qualifiers of an event are known, and `Default` is not one of these (profile).
pub(crate) fn can_be_fired(decls: &Decls, event_type: Name, quals: &Quals) -> bool
    ensures { result ≡ can_be_fired decls.now event_type quals.now }
{
    are_known(decls, event_type, quals) && !names_default(quals.as_slice())
}

fn names_default(quals: &[Qual]) -> bool
    ensures { result ≡ names_default quals.now }
{
    quals
        .iter()
        .any(|have| have.name.as_bytes() == b"Default".as_slice())
}
