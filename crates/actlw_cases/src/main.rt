// Prints the listings of a table of inputs: of the examples, of models and formulas that are
// refused, of each kind of path, and of inputs at each limit and one past it. A line with two
// equals signs says what the input is.
#![tactic(auto)]

mod examples;
mod formulas;
mod limits;
mod models;
mod path_lines;

use anyhow::Result;
use listing::{listing, run};

// An input by its two parts: the text of a model, and the lines of formulas after it.
#[derive(Clone, Copy, PartialEq, Eq, Debug)]
struct Case {
    title: &'static str,
    model: &'static str,
    formulas: &'static str,
}

// Prints the listing of an input. Reading the input and writing its listing is to give the same.
fn show(rt: &HostRuntime, title: &str, input: &str) -> Result<()> {
    println!(rt; "== {title}")?;
    let out = listing(rt.alloc(), input.as_bytes())?;
    rt.print(str::from_utf8(&out)?)?;
    let mut written = Vec::new(rt.alloc());
    run(rt.alloc(), input.as_bytes(), &mut written)?;
    if written != out {
        println!(rt; "another listing was written")?;
    }
    Ok(())
}

// Prints the listing of an input by its two parts.
fn show_parts(rt: &HostRuntime, title: &str, model: &str, formulas: &str) -> Result<()> {
    let mut input = String::new(rt.alloc());
    input.push_str(model)?;
    input.push_str(formulas)?;
    show(rt, title, &input)
}

// Prints the listings of a table.
fn show_all(rt: &HostRuntime, cases: &[Case]) -> Result<()> {
    for case in cases {
        show_parts(rt, case.title, case.model, case.formulas)?;
    }
    Ok(())
}

fn main(rt: HostRuntime) -> Result<()> {
    examples::show_all(&rt)?;
    show_all(&rt, &models::CASES)?;
    show_all(&rt, &formulas::CASES)?;
    show_all(&rt, &path_lines::CASES)?;
    limits::show_all(&rt)
}
