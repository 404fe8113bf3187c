ghost use Rattle.std.specs.Prelude.{◌≡◌, length};
ghost use Rattle.rules.specs.Calls.{read_of, write_of, vote_of, commit_of, roll_back_of};
ghost use Rattle.telling.specs.Answers.{done_words, value_words, lost_words};
ghost use Rattle.telling.specs.Lines.{Tells, line, settled_lines};

use crate::answers::{Done, Lost, Value};
use crate::lines::{Call, tell};
use managers::interface::ResourceManager;
use std::fmt::Display;
use std::io;
use std::io::Write;

// A drive, and where its calls are told. Each call is made first and told then, so it is made even where telling fails.
// Calls are made by numbers, as the drive takes them.
#[derive(Drop)]
pub struct Teller<W, M> {
    pub out: W,
    pub drive: M,
}

impl<V: Copy + Display, W: Write, M: ResourceManager<Value = V>> Teller<W, M> {
    // Reads a parameter.
    pub fn read(&mut self, job: u8, parameter: u8) -> io::Result<()>
        ensures follows_the_rules { M.meaning self.new.drive ≡ (read_of (M.admits self.old.drive) (M.meaning self.old.drive) job parameter).1 }
        ensures told { Tells result (line V.output (Call.Read job parameter) (value_words V.output) (read_of (M.admits self.old.drive) (M.meaning self.old.drive) job parameter).0) (W.contents self.old.out) (W.contents self.new.out) }
    {
        let answer = self.drive.read(job, parameter).map(Value);
        tell(&mut self.out, Call::<V>::Read { job, parameter }, answer)
    }

    // Writes a parameter.
    pub fn write(&mut self, job: u8, parameter: u8, value: V) -> io::Result<()>
        ensures follows_the_rules { M.meaning self.new.drive ≡ (write_of (M.admits self.old.drive) (M.meaning self.old.drive) job parameter value).1 }
        ensures told { Tells result (line V.output (Call.Write job parameter value) done_words (write_of (M.admits self.old.drive) (M.meaning self.old.drive) job parameter value).0) (W.contents self.old.out) (W.contents self.new.out) }
    {
        let answer = self.drive.write(job, parameter, value).map(|()| Done);
        let call = Call::Write {
            job,
            parameter,
            value,
        };
        tell(&mut self.out, call, answer)
    }

    // Asks for the vote on a job.
    pub fn vote(&mut self, job: u8) -> io::Result<()>
        ensures follows_the_rules { M.meaning self.new.drive ≡ (vote_of (M.meaning self.old.drive) job).1 }
        ensures told { Tells result (line V.output (Call.Vote job) done_words (vote_of (M.meaning self.old.drive) job).0) (W.contents self.old.out) (W.contents self.new.out) }
    {
        let answer = self.drive.vote(job).map(|()| Done);
        tell(&mut self.out, Call::<V>::Vote { job }, answer)
    }

    // Commits a job.
    pub fn commit(&mut self, job: u8) -> io::Result<()>
        ensures follows_the_rules { M.meaning self.new.drive ≡ (commit_of (M.meaning self.old.drive) job).1 }
        ensures told { Tells result (line V.output (Call.Commit job) lost_words (commit_of (M.meaning self.old.drive) job).0) (W.contents self.old.out) (W.contents self.new.out) }
    {
        let answer = self.drive.commit(job).map(Lost);
        tell(&mut self.out, Call::<V>::Commit { job }, answer)
    }

    // Rolls a job back.
    pub fn roll_back(&mut self, job: u8) -> io::Result<()>
        ensures follows_the_rules { M.meaning self.new.drive ≡ (roll_back_of (M.meaning self.old.drive) job).1 }
        ensures told { Tells result (line V.output (Call.RollBack job) lost_words (roll_back_of (M.meaning self.old.drive) job).0) (W.contents self.old.out) (W.contents self.new.out) }
    {
        let answer = self.drive.roll_back(job).map(Lost);
        tell(&mut self.out, Call::<V>::RollBack { job }, answer)
    }

    // Asks for the settled value of each parameter.
    pub fn settled(&mut self) -> io::Result<()>
        ensures changes_nothing { self.new.drive ≡ self.old.drive }
        ensures told { Tells result (settled_lines V.output (M.meaning self.old.drive) (length (M.meaning self.old.drive).settled)) (W.contents self.old.out) (W.contents self.new.out) }
    {
        // a parameter is known by its number alone: the interface has no list of them
        for parameter in 0..self.drive.parameters() {
            let answer = self.drive.settled(parameter).map(Value);
            tell(&mut self.out, Call::<V>::Settled { parameter }, answer)?;
        }
        Ok(())
    }
}
