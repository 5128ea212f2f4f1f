//! How answers print.

use crate::answer::{Answer, WorkDone};
use cdi_faults::Fault;
use cdi_index::Counts;
use cdi_model::{Name, Refusal};
use cdi_observe::ObserverId;
use std::fmt;

/// Names, each after a space.
#[derive(Clone, Copy)]
struct NamesText<'a>(&'a [Name]);

impl fmt::Display for NamesText<'_> {
    ghost use Rattle.std.specs.Prelude.{Some};
    ghost use Rattle.cdi_container.specs.AnswerText.{text_of_names};

    ghost output = { λ names. Some (text_of_names names.0.now) };

    fn fmt<W: fmt::Write>(&self, f: &mut fmt::Formatter<W>) -> fmt::Result {
        for name in self.0 {
            write!(f, " {name}")?;
        }
        Ok(())
    }
}

/// Observer methods, each after a space.
#[derive(Clone, Copy)]
struct ObserversText<'a>(&'a [ObserverId]);

impl fmt::Display for ObserversText<'_> {
    ghost use Rattle.std.specs.Prelude.{Some};
    ghost use Rattle.cdi_container.specs.AnswerText.{text_of_observer_ids};

    ghost output = { λ ids. Some (text_of_observer_ids ids.0.now) };

    fn fmt<W: fmt::Write>(&self, f: &mut fmt::Formatter<W>) -> fmt::Result {
        for id in self.0 {
            write!(f, " {id}")?;
        }
        Ok(())
    }
}

/// Faults, each on a line of its own.
#[derive(Clone, Copy)]
struct FaultsText<'a>(&'a [Fault]);

impl fmt::Display for FaultsText<'_> {
    ghost use Rattle.std.specs.Prelude.{Some};
    ghost use Rattle.cdi_container.specs.AnswerText.{text_of_faults};

    ghost output = { λ faults. Some (text_of_faults faults.0.now) };

    fn fmt<W: fmt::Write>(&self, f: &mut fmt::Formatter<W>) -> fmt::Result {
        for fault in self.0 {
            write!(f, "\n{fault}")?;
        }
        Ok(())
    }
}

/// The code and the word of a refusal, and the number of faults where these are the reason.
#[derive(Clone, Copy)]
struct RefusalText(Refusal);

impl fmt::Display for RefusalText {
    ghost use Rattle.std.specs.Prelude.{Some, ◌++◌};
    ghost use Rattle.cdi_container.specs.AnswerText.{count_of, word_of};

    ghost output = { λ refusal. Some (word_of refusal.0 ++ count_of refusal.0) };

    fn fmt<W: fmt::Write>(&self, f: &mut fmt::Formatter<W>) -> fmt::Result {
        let (code, word) = (self.0.code(), self.0.word());
        match self.0 {
            Refusal::Faulty(count) => write!(f, "{code} {word} {count}"),
            _ => write!(f, "{code} {word}"),
        }
    }
}

/// What a script prints of it, without the end of its line.
impl fmt::Display for Answer {
    ghost use Rattle.std.specs.Prelude.{Some};
    ghost use Rattle.cdi_container.specs.AnswerText.{words_of_answer};

    ghost output = { λ answer. Some (words_of_answer answer) };

    fn fmt<W: fmt::Write>(&self, f: &mut fmt::Formatter<W>) -> fmt::Result {
        match self {
            Answer::Done => write!(f, "ok"),
            Answer::Chosen(choice) => write!(f, "{choice}"),
            Answer::Intercepted(names) => write!(f, "chain{}", NamesText(names.as_slice())),
            Answer::Observed(ids) => write!(f, "observers{}", ObserversText(ids.as_slice())),
            Answer::Reported(faults) => {
                let list = FaultsText(faults.as_slice());
                write!(f, "faults {}{list}", faults.len())
            }
            Answer::Counted(Counts { closures, beans }) => {
                write!(f, "counts closures {closures} beans {beans}")
            }
            Answer::Worked(WorkDone { work, known }) => write!(f, "work {work} known {known}"),
            Answer::Given(outcome) => write!(f, "{outcome}"),
            Answer::Refused {
                refusal,
                edit: None,
            } => write!(f, "refused {}", RefusalText(*refusal)),
            Answer::Refused {
                refusal,
                edit: Some(number),
            } => write!(f, "refused {} {number}", RefusalText(*refusal)),
        }
    }
}
