//! Judges a small task set and prints what it finds, in plain words.
#![tactic(auto)]

use analysis::Level;
use loads::{LoadKind, Plain, Row};
use supplies::{Supply, Whole};

/// A plain task: its row and its deadline.
#[derive(Clone, Copy)]
struct Task {
    row: Row,
    deadline: u64,
}

/// Two tasks, the most urgent first. The lower one is served, although its work at the deadline is more than is supplied there.
// An array: the program judges these two and reads no others.
const TASKS: [Task; 2] = [
    Task {
        row: [4, 10, 0, 0, 0, 0, 0, 0],
        deadline: 10,
    },
    Task {
        row: [5, 11, 0, 0, 0, 0, 0, 0],
        deadline: 11,
    },
];

/// Prints what there is to say of a task at a level.
fn judge(rt: &impl Print, level: &Level<Plain, Whole>, task: &Task) -> anyhow::Result<()> {
    let Task { row, deadline } = *task;
    let position = level.above.len() + 1;
    let longest = level.kind.longest(&row);
    let separation = level.kind.separation(&row);
    let slack = level.slack(longest, deadline);
    let work = level.work(longest, deadline);
    let supplied = level.supply.supplied(deadline);
    println!(rt;
        "Position {position}: jobs of {longest} ticks, {separation} apart, deadline {deadline}."
    )?;
    println!(rt; "  Slack: {slack}.")?;
    match level.first_instant(longest, deadline) {
        Some(instant) => println!(rt; "  First instant: {instant}, so the task is served.")?,
        None => println!(rt; "  First instant: none, so the task is not served.")?,
    }
    println!(rt;
        "  At the deadline itself the work adds up to {work}, and {supplied} ticks are supplied."
    )?;
    Ok(())
}

/// Prints what there is to say of the two tasks.
fn run(rt: &impl Print) -> anyhow::Result<()> {
    println!(rt; "Two plain tasks on the whole processor, the most urgent first.")?;
    let rows = TASKS.map(|task| task.row);
    // with the index, which is how many tasks stand above
    for (above, task) in TASKS.iter().enumerate() {
        let level = Level {
            kind: &Plain,
            supply: &Whole,
            above: &rows[..above],
        };
        judge(rt, &level, task)?;
    }
    Ok(())
}

/// Judges the two tasks.
fn main(rt: HostRuntime) -> anyhow::Result<()> {
    run(&rt)
}
