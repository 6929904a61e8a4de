// Prints the upload of a thermostat's readings as AUT text, and the questions that are asked of it:
// with `fresh` the protocol that sends a lost message again under a fresh number, with `same` the
// one that keeps the number.
#![tactic(auto)]

use anyhow::{Result, bail};
use std::env;
use upload_protocol::{Retry, write_protocol};

// Room for the text of 180 states.
const ROOM: usize = 8_192;

// What is asked, a formula a line (docs/EXAMPLE.md).
const QUESTIONS: &str = "NOT EF {add} E[{NOT meas} U {add}]
NOT E[{NOT ack} U {recv1} EX {add}]
NOT EF {meas} E[{NOT add} U {ack}]
A[{NOT ack} W {add}]
AF {add}
AF {add OR lost}
AG EF {add}
";

// Which protocol a word of the command line names.
fn protocol_of(word: &str) -> Option<Retry> {
    match word {
        "fresh" => Some(Retry::Fresh),
        "same" => Some(Retry::Same),
        _ => None,
    }
}

// Prints the text of the protocol that the first argument names, and the questions.
fn main(rt: HostRuntime) -> Result<()> {
    let Some(word) = env::args(&rt)?.nth(1) else {
        bail!("say which protocol: fresh or same");
    };
    let Some(retry) = protocol_of(word.as_str()) else {
        bail!("no such protocol: fresh or same");
    };
    let mut text = [0; ROOM];
    let length = write_protocol(retry, &mut text)?;
    rt.print(str::from_utf8(text.get(..length).unwrap_or(&[]))?)?;
    rt.print(QUESTIONS)?;
    Ok(())
}
