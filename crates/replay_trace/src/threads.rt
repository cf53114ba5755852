// The records of a team.
ghost use Rattle.std.specs.Prelude.{◌≤◌};

use call_replay::run::Team;
use chart::format::Chart;
use masks::bits::has;
use std::{fmt, io};
use theory_traces::Thread;

// What a line says of a thread: where it is, each construct whose begin it has left, how often, and all sections that it has taken.
#[derive(Clone, Copy)]
struct Record(Thread);

impl fmt::Display for Record {
    fn fmt<W: fmt::Write>(&self, f: &mut fmt::Formatter<W>) -> fmt::Result {
        let thread = self.0;
        write!(f, "node {}", thread.node)?;
        for (c, count) in thread.counts.iter().enumerate() {
            if *count != 0 {
                write!(f, " construct {c} count {count}")?;
            }
        }
        let taken = thread.taken.iter().fold(0, |all, sections| all | sections);
        for x in 0..Chart::CONSTRUCTS {
            if has(taken, x) {
                write!(f, " taken {x}")?;
            }
        }
        Ok(())
    }
}

// A line for each thread of the team.
pub fn all(rt: &impl Print, team: Team) -> io::Result<()>
    requires { team.count ≤ 8 }
{
    for (t, thread) in team.threads[..team.count].iter().enumerate() {
        println!(rt; "thread {t} {}", Record(*thread))?;
    }
    Ok(())
}
