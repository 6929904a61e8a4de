// The examples: the upload of readings as one model, and as three parts that are joined.
use crate::show_parts;
use anyhow::Result;
use upload_protocol::{Retry, write_protocol};

/// A measurement is sent, added, and acknowledged or lost.
pub(crate) const UPLOAD: &str =
    "des (0,5,4)\n(0,\"meas\",1)\n(1,\"send\",2)\n(2,\"add\",3)\n(3,\"ack\",0)\n(3,\"lost\",1)\n";

const QUESTIONS: &str = "NOT EF {add} E[{NOT meas} U {add}]
AF {ack}
EX {lost}
AX {meas}
";

// What is asked of the joined parts.
const JOINED_QUESTIONS: &str = "NOT EF {add} E[{NOT meas} U {add}]
NOT E[{NOT ack} U {recv1} EX {add}]
NOT EF {meas} E[{NOT add} U {ack}]
A[{NOT ack} W {add}]
AF {add}
AF {add OR lost}
AG EF {add}
";

// Room for the text of the joined parts.
const ROOM: usize = 8_192;

// The joined parts under a way to number messages.
fn show_protocol(rt: &HostRuntime, title: &str, retry: Retry) -> Result<()> {
    let mut text = [0; ROOM];
    let length = write_protocol(retry, &mut text)?;
    let model = str::from_utf8(text.get(..length).unwrap_or(&[]))?;
    show_parts(rt, title, model, JOINED_QUESTIONS)
}

/// Prints the listings of the examples.
pub(crate) fn show_all(rt: &HostRuntime) -> Result<()> {
    show_parts(rt, "the upload model", UPLOAD, QUESTIONS)?;
    show_protocol(
        rt,
        "a lost message is sent again under a fresh number",
        Retry::Fresh,
    )?;
    show_protocol(
        rt,
        "a lost message is sent again under the same number",
        Retry::Same,
    )
}
