// Runs cases that were made apart from this code, and prints how many agree.
#![tactic(auto)]

mod digits;
mod logs;
mod table_cases;

use std::alloc::Global;
use std::fs;

// Runs the cases of a file, one in each line.
fn run<F: Fn(Global, &str) -> anyhow::Result<bool>>(
    rt: &HostRuntime,
    name: &str,
    file: &str,
    agrees: F,
) -> anyhow::Result<()>
    requires { F.IsAlwaysCallable agrees }
{
    let text = fs::read_to_string(rt, file)?;
    let cases = text.as_str();
    let mut agreeing = 0usize;
    for case in cases.lines() {
        if agrees(rt.alloc(), case)? {
            agreeing = agreeing.saturating_add(1);
        } else {
            println!(rt; "differs: {case}")?;
        }
    }
    println!(rt; "{name}: {agreeing} of {} agree", cases.lines().count())?;
    Ok(())
}

fn main(rt: HostRuntime) -> anyhow::Result<()> {
    run(&rt, "logs", "logs.txt", logs::agrees)?;
    run(&rt, "tables", "tables.txt", table_cases::agrees)
}
