// A line for each call of a manager, with its answer.

ghost use Rattle.std.specs.Prelude.{◌≡◌, IfSome};
ghost use Rattle.telling.specs.Lines.{Tells, call_words, line};

use crate::answers::Told;
use arrayvec::ArrayString;
use rules::fault::ManagerFault;
use std::fmt::{Display, Write as _};
use std::io::Write;
use std::{fmt, io};

// A call of a manager.
#[derive(Clone, Copy, PartialEq, Eq, Debug)]
pub enum Call<V> {
    Read { job: u8, parameter: u8 },
    Write { job: u8, parameter: u8, value: V },
    Vote { job: u8 },
    Commit { job: u8 },
    RollBack { job: u8 },
    Settled { parameter: u8 },
}

impl<V: Display> Display for Call<V> {
    ghost output = { call_words V.output };

    fn fmt<W: fmt::Write>(&self, f: &mut fmt::Formatter<W>) -> fmt::Result {
        match self {
            Call::Read { job, parameter } => write!(f, "job {job} reads parameter {parameter}"),
            Call::Write {
                job,
                parameter,
                value,
            } => write!(f, "job {job} writes {value} to parameter {parameter}"),
            Call::Vote { job } => write!(f, "vote on job {job}"),
            Call::Commit { job } => write!(f, "commit job {job}"),
            Call::RollBack { job } => write!(f, "roll back job {job}"),
            Call::Settled { parameter } => write!(f, "settled parameter {parameter}"),
        }
    }
}

// A line of so many bytes or fewer is short.
const SHORT: usize = 128;

// The line of a call and what it came to, if it is short.
fn short_line<V: Copy + Display, A: Copy + Display>(
    call: Call<V>,
    answer: Result<A, ManagerFault>,
) -> Option<ArrayString<SHORT>>
    ensures { IfSome result (λ text. IfSome (line V.output call A.output answer) (λ words. text.bytes ≡ words)) }
{
    let mut text = ArrayString::new();
    writeln!(text, "{call}: {}", Told(answer)).ok()?;
    Some(text)
}

// Tells a call and what it came to. A short line is handed to the writer whole, and so goes out at once.
pub fn tell<V: Copy + Display, A: Copy + Display, W: Write>(
    out: &mut W,
    call: Call<V>,
    answer: Result<A, ManagerFault>,
) -> io::Result<()>
    ensures { Tells result (line V.output call A.output answer) (W.contents out.old) (W.contents out.new) }
{
    match short_line(call, answer) {
        Some(text) => out.write_all(text.as_str().as_bytes()),
        None => writeln!(out, "{call}: {}", Told(answer)),
    }
}
