// Inputs at each limit, and one past it.
use crate::{show, show_parts};
use anyhow::Result;
use std::alloc::{AllocError, Global};

// A model of one state, with a step to itself.
const ONE: &str = "des (0,1,1)\n(0,\"a\",0)\n";

// What is asked of the model with three steps at each state.
const WIDE_QUESTIONS: &str = "EF {a7} EX {a8}
AG EF {a1}
EG {NOT (a0 OR a3 OR a5)}
AF {a11}
A[{NOT a4} W {a9 OR a4} EX {a2 OR a16}]
E[{NOT a10} U {a13} AX {NOT a10}]
NOT EF {a19} EG {NOT a2}
";

// A model of so many states in a ring, of which the last step alone is by b.
fn ring(heap: Global, states: usize) -> Result<String, AllocError> {
    let mut text = String::new(heap);
    write!(text, "des (0,{states},{states})\n")?;
    for state in 1..states {
        write!(text, "({},\"a\",{state})\n", state - 1)?;
    }
    write!(text, "({},\"b\",0)\n", states.saturating_sub(1))?;
    Ok(text)
}

// A model in which so many steps leave the start, each by a label of its own.
fn fan(heap: Global, steps: usize) -> Result<String, AllocError> {
    let mut text = String::new(heap);
    write!(text, "des (0,{steps},2)\n")?;
    for step in 0..steps {
        write!(text, "(0,\"a{step}\",1)\n")?;
    }
    Ok(text)
}

// A model with so many labels besides tau, each on one step of a ring of 64 states.
fn labelled(heap: Global, labels: usize) -> Result<String, AllocError> {
    let mut text = String::new(heap);
    write!(text, "des (0,{labels},64)\n")?;
    for label in 0..labels {
        write!(
            text,
            "({},\"a{label}\",{})\n",
            label % 64,
            (label % 64 + 1) % 64
        )?;
    }
    Ok(text)
}

// A model of 512 states with three steps each, by twenty labels.
fn wide(heap: Global) -> Result<String, AllocError> {
    let mut text = String::new(heap);
    text.push_str("des (300,1536,512)\n")?;
    for state in 0usize..512 {
        for slot in 0usize..3 {
            let label = (state * 3 + slot) % 20;
            let target = (state * 5 + slot * 77 + 3) % 512;
            write!(text, "({state},\"a{label}\",{target})\n")?;
        }
    }
    Ok(text)
}

// A text, so many times over.
fn times(heap: Global, text: &str, count: usize) -> Result<String, AllocError> {
    let mut all = String::new(heap);
    for _ in 0..count {
        all.push_str(text)?;
    }
    Ok(all)
}

// A model and a line of spaces, so many bytes in all.
fn padded(heap: Global, model: &str, bytes: usize) -> Result<String, AllocError> {
    let mut text = String::new(heap);
    text.push_str(model)?;
    let spaces = times(heap, " ", bytes.saturating_sub(model.len()))?;
    text.push_str(&spaces)?;
    Ok(text)
}

// A text within so many pairs of parentheses.
fn within(heap: Global, text: &str, pairs: usize) -> Result<String, AllocError> {
    let mut all = times(heap, "(", pairs)?;
    all.push_str(text)?;
    let closing = times(heap, ")", pairs)?;
    all.push_str(&closing)?;
    Ok(all)
}

// As many states, and as many steps at one, as there may be.
fn show_models(rt: &HostRuntime) -> Result<()> {
    let heap = rt.alloc();
    let asked = "EF {b}\nEG TRUE\nAX {a}\n";
    show_parts(rt, "512 states", &ring(heap, 512)?, asked)?;
    show_parts(rt, "513 states", &ring(heap, 513)?, asked)?;
    let last = "des (511,2,512)\n(511,\"a\",510)\n(510,\"b\",511)\n";
    show_parts(rt, "the last of 512 states at the start", last, asked)?;
    show_parts(
        rt,
        "512 states with three steps each",
        &wide(heap)?,
        WIDE_QUESTIONS,
    )?;
    show_parts(
        rt,
        "8 steps at a state",
        &fan(heap, 8)?,
        "EX {a7}\nEX {a8}\n",
    )?;
    show_parts(rt, "9 steps at a state", &fan(heap, 9)?, "EX {a7}\n")?;
    let out_of_range = "des (0,9,1)\n(0,\"a\",1)\n";
    let mut text = String::new(heap);
    text.push_str(out_of_range)?;
    text.push_str(&times(heap, "(0,\"a\",0)\n", 8)?)?;
    show(rt, "9 steps at a state, one of them to no state", &text)?;
    let asked = "EF {a62}\nEX {a0}\nEX {a63}\n";
    show_parts(rt, "63 labels besides tau", &labelled(heap, 63)?, asked)?;
    show_parts(rt, "64 labels besides tau", &labelled(heap, 64)?, asked)
}

// As many bytes as there may be.
fn show_lengths(rt: &HostRuntime) -> Result<()> {
    let heap = rt.alloc();
    let model = "des (0,1,1)\n(0,\"a\",0)\nEX {a}\n";
    show(rt, "32,768 bytes", &padded(heap, model, 32_768)?)?;
    show(rt, "32,769 bytes", &padded(heap, model, 32_769)?)?;
    show(rt, "32,768 bytes and no model", &padded(heap, "", 32_768)?)?;
    show(rt, "32,769 bytes and no model", &padded(heap, "", 32_769)?)?;
    show_parts(
        rt,
        "a formula of 1,024 bytes",
        ONE,
        &padded(heap, "EX {a}", 1_024)?,
    )?;
    show_parts(
        rt,
        "one of 1,025 bytes",
        ONE,
        &padded(heap, "EX {a}", 1_025)?,
    )?;
    show_parts(
        rt,
        "510 pairs of parentheses",
        ONE,
        &within(heap, "TRUE", 510)?,
    )
}

// As many formulas, and as many nodes in one formula, as there may be.
fn show_formulas(rt: &HostRuntime) -> Result<()> {
    let heap = rt.alloc();
    let mut lines = times(heap, "EX {a}\n", 8)?;
    show_parts(rt, "eight formulas", ONE, &lines)?;
    lines.push_str("TRUE\nEX {b}\nEX {a\nFALSE\n")?;
    show_parts(rt, "more than eight formulas", ONE, &lines)?;
    let mut lines = times(heap, "NOT ", 46)?;
    lines.push_str("EX {a}\n")?;
    show_parts(rt, "a formula of 48 nodes", ONE, &lines)?;
    lines.push_str("TRUE\n")?;
    show_parts(rt, "a formula of 48 nodes, and one more node", ONE, &lines)?;
    let mut lines = times(heap, "NOT ", 47)?;
    lines.push_str("EX {a}\nEX {a}\n")?;
    show_parts(rt, "a formula of 49 nodes, and one of two", ONE, &lines)
}

// As many nodes in eight formulas as there may be.
fn show_nodes(rt: &HostRuntime) -> Result<()> {
    let heap = rt.alloc();
    let five = times(heap, "E[{a} U {a} TRUE AND TRUE]\n", 8)?;
    show_parts(rt, "eight formulas of 40 nodes in all", ONE, &five)?;
    let six = times(heap, "NOT E[{a} U {a} TRUE AND TRUE]\n", 8)?;
    show_parts(rt, "eight formulas of 48 nodes in all", ONE, &six)?;
    let seven = times(heap, "NOT NOT E[{a} U {a} TRUE AND TRUE]\n", 8)?;
    show_parts(
        rt,
        "six formulas of 42 nodes, and two that find no room",
        ONE,
        &seven,
    )
}

/// Prints the listings at the limits.
pub(crate) fn show_all(rt: &HostRuntime) -> Result<()> {
    show_models(rt)?;
    show_lengths(rt)?;
    show_formulas(rt)?;
    show_nodes(rt)
}
