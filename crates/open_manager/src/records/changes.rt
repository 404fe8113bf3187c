ghost use Rattle.std.specs.Prelude.{◌≡◌, ℕ, ◌<◌, ◌≤◌, MatchOption};
ghost use Rattle.jobs.specs.Jobs.{member, number_in};
ghost use Rattle.open_manager.specs.Lists.{among, last_listed};
ghost use Rattle.open_manager.specs.Writers.{listed};
ghost use Rattle.open_manager.specs.Records.{record_at, rivals, Unused, WithReader, WithWriter, WithoutJob, ReaderNoted, WriterNoted, JobLeft};

use crate::records::{Record, Records};
use crate::writers::Writers;
use jobs::job::Job;
use jobs::set::JobSet;
use rules::access::Access;
use std::array;

impl Record {
    fn new() -> Record
        ensures { Unused result }
    {
        Record {
            readers: JobSet::empty(),
            writers: Writers::new(),
        }
    }

    // The job of the last pending write, if there is one.
    pub(crate) fn last_writer(&self) -> Option<Job>
        ensures { number_in result ≡ last_listed (listed self.now.writers) }
    {
        self.writers.last()
    }

    // Whether the job has a pending write.
    pub(crate) fn is_writer(&self, job: Job) -> bool
        ensures { result ≡ among (listed self.now.writers) job.number }
    {
        self.writers.contains(job)
    }

    // The jobs with which such an access of the job conflicts.
    pub(crate) fn conflicts(&self, job: Job, access: Access) -> JobSet
        ensures { (k : ℕ) → member result k ≡ rivals self.now job.number access k }
    {
        // as for a lock, but here many jobs may write, and all of them are asked for
        let holders = match access {
            Access::Read => self.writers.jobs(),
            Access::Write => self.readers.union(self.writers.jobs()),
        };
        holders.remove(job)
    }

    // The job becomes a reader.
    fn add_reader(&mut self, job: Job)
        ensures { WithReader self.old job.number self.new }
    {
        self.readers = self.readers.insert(job);
    }

    // The last write is the job's.
    fn add_writer(&mut self, job: Job)
        ensures { WithWriter self.old job.number self.new }
    {
        self.writers.push(job);
    }

    // The accesses of the job go.
    fn remove(&mut self, job: Job)
        ensures { WithoutJob self.old job.number self.new }
    {
        self.readers = self.readers.remove(job);
        self.writers.remove(job);
    }
}

impl Records {
    // Nobody has accessed a parameter.
    pub(crate) fn new() -> Records
        ensures { (p : ℕ) → Unused (record_at result.entries p) }
    {
        Records {
            entries: array::from_fn(|_| Record::new()),
        }
    }

    // The record of the parameter, unless the table ends before it.
    pub(crate) fn get(&self, parameter: u8) -> Option<&Record>
        ensures { MatchOption result (64 ≤ parameter) (λ r. r.now ≡ record_at self.now.entries parameter) }
    {
        self.entries.get(usize::from(parameter))
    }

    // The job becomes a pending reader of the parameter, which is in the table, so that there is a record to write to.
    pub(crate) fn note_reader(&mut self, parameter: u8, job: Job)
        requires { parameter < 64 }
        ensures { ReaderNoted self.old.entries parameter job.number self.new.entries }
    {
        self.entries[usize::from(parameter)].add_reader(job);
    }

    // The last pending write of the parameter, which is in the table, is the job's.
    pub(crate) fn note_writer(&mut self, parameter: u8, job: Job)
        requires { parameter < 64 }
        ensures { WriterNoted self.old.entries parameter job.number self.new.entries }
    {
        self.entries[usize::from(parameter)].add_writer(job);
    }

    // The accesses of the job go.
    pub(crate) fn leave(&mut self, job: Job)
        ensures { JobLeft self.old.entries job.number self.new.entries }
    {
        for entry in &mut self.entries {
            entry.remove(job);
        }
    }
}
