// What a call of a manager answers, as it is told.

ghost use Rattle.telling.specs.Answers.{done_words, value_words, lost_words, told};

use jobs::set::JobSet;
use rules::fault::ManagerFault;
use std::fmt;
use std::fmt::Display;

// The answer of a call that has nothing to tell but that it was accepted.
#[derive(Clone, Copy, PartialEq, Eq, Debug)]
pub struct Done;

// The answer of a call that asked for a value.
#[derive(Clone, Copy, PartialEq, Eq, Debug)]
pub struct Value<V>(pub V);

// The answer of a call that may cost other jobs: those that are lost.
#[derive(Clone, Copy, PartialEq, Eq, Debug)]
pub struct Lost(pub JobSet);

// What a call came to: its answer, or the refusal.
#[derive(Clone, Copy, PartialEq, Eq, Debug)]
pub struct Told<A>(pub Result<A, ManagerFault>);

impl Display for Done {
    ghost output = { λ _. done_words tt };

    fn fmt<W: fmt::Write>(&self, f: &mut fmt::Formatter<W>) -> fmt::Result {
        f.write_str("done")
    }
}

impl<V: Display> Display for Value<V> {
    ghost output = { λ v. value_words V.output v.0 };

    fn fmt<W: fmt::Write>(&self, f: &mut fmt::Formatter<W>) -> fmt::Result {
        write!(f, "value {}", self.0)
    }
}

impl Display for Lost {
    ghost output = { λ l. lost_words l.0 };

    fn fmt<W: fmt::Write>(&self, f: &mut fmt::Formatter<W>) -> fmt::Result {
        if self.0.is_empty() {
            return f.write_str("lost none");
        }
        f.write_str("lost")?;
        for job in self.0 {
            write!(f, " {}", job.number())?;
        }
        Ok(())
    }
}

impl<A: Display> Display for Told<A> {
    ghost output = { λ t. told A.output t.0 };

    fn fmt<W: fmt::Write>(&self, f: &mut fmt::Formatter<W>) -> fmt::Result {
        match &self.0 {
            Ok(answer) => answer.fmt(f),
            Err(fault) => fault.fmt(f),
        }
    }
}
