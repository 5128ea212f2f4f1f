//! How names, kinds, uses of qualifiers, values and failures print.
use crate::decl::{CallDecl, EventDecl, Kind};
use crate::name::{Ident, Name};
use crate::outcome::{Failure, Outcome, Val};
use crate::quals::{Arguments, Members, Qual, Quals};
use std::fmt;

impl fmt::Display for Name {
    ghost use Rattle.std.specs.Prelude.{Some};

    ghost output = { λ name. Some name };

    fn fmt<W: fmt::Write>(&self, f: &mut fmt::Formatter<W>) -> fmt::Result {
        f.pad(self.as_str())
    }
}

impl fmt::Debug for Name {
    fn fmt<W: fmt::Write>(&self, f: &mut fmt::Formatter<W>) -> fmt::Result {
        fmt::Debug::fmt(self.as_str(), f)
    }
}

impl fmt::Display for Ident {
    ghost use Rattle.std.specs.Prelude.{Some};

    ghost output = { λ name. Some name };

    fn fmt<W: fmt::Write>(&self, f: &mut fmt::Formatter<W>) -> fmt::Result {
        f.pad(self.as_str())
    }
}

impl fmt::Debug for Ident {
    fn fmt<W: fmt::Write>(&self, f: &mut fmt::Formatter<W>) -> fmt::Result {
        fmt::Debug::fmt(self.as_str(), f)
    }
}

impl fmt::Display for Kind {
    ghost use Rattle.std.specs.Prelude.{Some};
    ghost use Rattle.cdi_model.specs.Decl.{word_of_kind};

    ghost output = { λ kind. Some (word_of_kind kind) };

    fn fmt<W: fmt::Write>(&self, f: &mut fmt::Formatter<W>) -> fmt::Result {
        f.pad(match self {
            Kind::Type => "type",
            Kind::Qualifier => "qualifier",
            Kind::Binding => "binding",
            Kind::Stereotype => "stereotype",
            Kind::Bean => "bean",
            Kind::Interceptor => "interceptor",
        })
    }
}

impl fmt::Display for Members {
    ghost use Rattle.std.specs.Prelude.{Some};
    ghost use Rattle.cdi_model.specs.UseText.{text_of_pairs};

    ghost output = { λ members. Some (text_of_pairs members) };

    fn fmt<W: fmt::Write>(&self, f: &mut fmt::Formatter<W>) -> fmt::Result {
        let mut separator = "";
        for (name, value) in self.iter() {
            write!(f, "{separator}{name}={value}")?;
            separator = ",";
        }
        Ok(())
    }
}

impl fmt::Display for Arguments {
    ghost use Rattle.std.specs.Prelude.{Some};
    ghost use Rattle.cdi_model.specs.UseText.{text_of_arguments};

    ghost output = { λ arguments. Some (text_of_arguments arguments) };

    fn fmt<W: fmt::Write>(&self, f: &mut fmt::Formatter<W>) -> fmt::Result {
        match self {
            Arguments::Name(name) => write!(f, "({name})"),
            Arguments::Members(members) => {
                if members.is_empty() {
                    Ok(())
                } else {
                    write!(f, "({members})")
                }
            }
        }
    }
}

impl fmt::Display for Qual {
    ghost use Rattle.std.specs.Prelude.{Some};
    ghost use Rattle.cdi_model.specs.UseText.{text_of_use};

    ghost output = { λ use_of_qualifier. Some (text_of_use use_of_qualifier) };

    fn fmt<W: fmt::Write>(&self, f: &mut fmt::Formatter<W>) -> fmt::Result {
        write!(f, "{}{}", self.name, self.arguments)
    }
}

impl fmt::Debug for Qual {
    fn fmt<W: fmt::Write>(&self, f: &mut fmt::Formatter<W>) -> fmt::Result {
        write!(f, "{self}")
    }
}

impl fmt::Debug for Members {
    fn fmt<W: fmt::Write>(&self, f: &mut fmt::Formatter<W>) -> fmt::Result {
        write!(f, "{self}")
    }
}

impl fmt::Debug for Arguments {
    fn fmt<W: fmt::Write>(&self, f: &mut fmt::Formatter<W>) -> fmt::Result {
        write!(f, "{self}")
    }
}

/// The uses in the order of their names, separated by spaces, as on a command line.
impl fmt::Display for Quals {
    ghost use Rattle.std.specs.Prelude.{Some};
    ghost use Rattle.cdi_model.specs.EventText.{text_of_quals};

    ghost output = { λ quals. Some (text_of_quals quals) };

    fn fmt<W: fmt::Write>(&self, f: &mut fmt::Formatter<W>) -> fmt::Result {
        match self.as_slice() {
            [] => Ok(()),
            [first, others @ ..] => write!(f, "{first}{}", Listed(others)),
        }
    }
}

impl fmt::Debug for Quals {
    fn fmt<W: fmt::Write>(&self, f: &mut fmt::Formatter<W>) -> fmt::Result {
        fmt::Debug::fmt(self.as_slice(), f)
    }
}

impl fmt::Display for CallDecl {
    ghost use Rattle.std.specs.Prelude.{Some};
    ghost use Rattle.cdi_model.specs.CallText.{text_of_call};

    ghost output = { λ call. Some (text_of_call call) };

    fn fmt<W: fmt::Write>(&self, f: &mut fmt::Formatter<W>) -> fmt::Result {
        write!(f, "{}.{}", self.point, self.method)
    }
}

/// Uses, each preceded by a space.
#[derive(Clone, Copy)]
struct Listed<'a>(&'a [Qual]);

impl fmt::Display for Listed<'_> {
    ghost use Rattle.std.specs.Prelude.{Some};
    ghost use Rattle.cdi_model.specs.EventText.{text_of_uses};

    ghost output = { λ listed. Some (text_of_uses listed.0.now) };

    fn fmt<W: fmt::Write>(&self, f: &mut fmt::Formatter<W>) -> fmt::Result {
        for use_of_qualifier in self.0 {
            write!(f, " {use_of_qualifier}")?;
        }
        Ok(())
    }
}

/// The type name and the qualifiers, separated by spaces.
impl fmt::Display for EventDecl {
    ghost use Rattle.std.specs.Prelude.{Some};
    ghost use Rattle.cdi_model.specs.EventText.{text_of_event};

    ghost output = { λ event. Some (text_of_event event) };

    fn fmt<W: fmt::Write>(&self, f: &mut fmt::Formatter<W>) -> fmt::Result {
        write!(
            f,
            "{}{}",
            self.event_type,
            Listed(self.qualifiers.as_slice())
        )
    }
}

/// `null`, or the whole number.
impl fmt::Display for Val {
    ghost use Rattle.std.specs.Prelude.{Some};
    ghost use Rattle.cdi_model.specs.OutcomeText.{text_of_val};

    ghost output = { λ val. Some (text_of_val val) };

    fn fmt<W: fmt::Write>(&self, f: &mut fmt::Formatter<W>) -> fmt::Result {
        match self {
            Val::Null => f.write_str("null"),
            Val::Int(number) => write!(f, "{number}"),
        }
    }
}

/// The word of the failure; for what a body failed with, `User(1)`.
impl fmt::Display for Failure {
    ghost use Rattle.std.specs.Prelude.{Some};
    ghost use Rattle.cdi_model.specs.OutcomeText.{text_of_failure};

    ghost output = { λ failure. Some (text_of_failure failure) };

    fn fmt<W: fmt::Write>(&self, f: &mut fmt::Formatter<W>) -> fmt::Result {
        match self {
            Failure::NotActive => f.write_str("NotActive"),
            Failure::Creating => f.write_str("Creating"),
            Failure::Depth => f.write_str("Depth"),
            Failure::Steps => f.write_str("Steps"),
            Failure::Budget => f.write_str("Budget"),
            Failure::IllegalProduct => f.write_str("IllegalProduct"),
            Failure::NotConstructed => f.write_str("NotConstructed"),
            Failure::Limit => f.write_str("Limit"),
            Failure::User(number) => write!(f, "User({number})"),
        }
    }
}

/// `value` and the value, or `failed` and the failure, as a script prints it.
impl fmt::Display for Outcome {
    ghost use Rattle.std.specs.Prelude.{Some};
    ghost use Rattle.cdi_model.specs.OutcomeText.{words_of_outcome};

    ghost output = { λ outcome. Some (words_of_outcome outcome) };

    fn fmt<W: fmt::Write>(&self, f: &mut fmt::Formatter<W>) -> fmt::Result {
        match self {
            Outcome::Value(value) => write!(f, "value {value}"),
            Outcome::Failed(failure) => write!(f, "failed {failure}"),
        }
    }
}
