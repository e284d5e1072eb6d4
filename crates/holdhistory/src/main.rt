//! Replays a small history of edits and prints what was answered, then the figures of the set that it leaves.
#![tactic(auto)]

use ledger::{Edit, Mark, SetFault};
use loads::{LoadKind, Plain, Row};
use std::fmt;
use supplies::{Supply, Whole};
use taskset::{TaskSet, replay};

/// A plain task with jobs of `job` ticks, `period` apart, put in at a position.
fn insert(position: u64, job: u64, period: u64, deadline: u64) -> Edit {
    let row: Row = [job, period, 0, 0, 0, 0, 0, 0];
    Edit::Insert {
        position,
        row,
        deadline,
    }
}

/// A section of a task on a resource.
fn section(position: u64, resource: u64, length: u64) -> Edit {
    Edit::Section {
        position,
        resource,
        length,
    }
}

/// Three plain tasks, the most urgent first, that share two resources; then a task that would leave the first no instant, and a
/// section longer than a job of its task.
fn example() -> [Edit; 8] {
    [
        insert(1, 2, 10, 5),
        insert(2, 3, 15, 12),
        insert(3, 5, 30, 30),
        section(2, 1, 1),
        section(3, 1, 3),
        section(3, 2, 4),
        insert(1, 6, 20, 20),
        section(3, 1, 6),
    ]
}

/// An edit in plain words.
#[derive(Clone, Copy)]
struct Words<'a>(&'a Edit);

impl fmt::Display for Words<'_> {
    fn fmt<W: fmt::Write>(&self, f: &mut fmt::Formatter<W>) -> fmt::Result {
        match self.0 {
            Edit::Insert {
                position,
                row: [job, period, ..],
                deadline,
            } => write!(
                f,
                "Insert at {position}: jobs of {job} ticks, {period} apart, deadline {deadline}"
            ),
            Edit::Withdraw { position } => write!(f, "Withdraw {position}"),
            Edit::Section {
                position,
                resource,
                length,
            } => write!(
                f,
                "Section of task {position} on resource {resource}, length {length}"
            ),
            Edit::Mark { resource, mark } => write!(
                f,
                "Mark resource {resource} {}",
                // this program's words for a mark, used here alone
                match mark {
                    Mark::Lowered => "lowered",
                    Mark::Kept => "kept",
                }
            ),
        }
    }
}

/// What an edit was answered, in plain words.
#[derive(Clone, Copy)]
struct Answered<'a>(&'a Result<(), SetFault>);

impl fmt::Display for Answered<'_> {
    fn fmt<W: fmt::Write>(&self, f: &mut fmt::Formatter<W>) -> fmt::Result {
        match self.0 {
            Ok(()) => f.write_str("taken"),
            Err(fault) => write!(f, "refused with {}", fault.number()),
        }
    }
}

/// Prints the figures of every task and of every resource that is in use.
// printed line by line: the figures are a tuple, and no type of theirs has a text
fn print_figures<K: LoadKind, S: Supply>(
    rt: &impl Print,
    set: &TaskSet<K, S>,
) -> anyhow::Result<()> {
    // ranges of numbers: positions and resources are what a set is asked by; `as`, since there is no `From`
    for position in 1..=set.count() as u64 {
        if let Ok((blocking, slack, first)) = set.task(position) {
            println!(rt;
                "Task {position}: blocking {blocking}, slack {slack}, first instant {first}."
            )?;
        }
    }
    for resource in 1..=16 {
        if let Ok((natural, held, hold)) = set.resource(resource)
            && natural > 0
        {
            println!(rt;
                "Resource {resource}: natural ceiling {natural}, held ceiling {held}, hold time {hold}."
            )?;
        }
    }
    Ok(())
}

/// Replays the example, and prints it.
fn run(rt: &impl Print) -> anyhow::Result<()> {
    let edits = example();
    // beside the edits, as `replay` is lent room for an answer to each
    let mut answers = [Ok(()); 8];
    if let Some(set) = replay(Plain, Whole, &edits, &mut answers) {
        for (edit, answer) in edits.iter().zip(answers.iter()) {
            println!(rt; "{}: {}.", Words(edit), Answered(answer))?;
        }
        print_figures(rt, &set)?;
    }
    Ok(())
}

fn main(rt: HostRuntime) -> anyhow::Result<()> {
    run(&rt)
}
