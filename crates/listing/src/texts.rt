ghost use Rattle.std.specs.Prelude.{◌≡◌, ◌++◌, codes, decimal, OnOk};
ghost use Rattle.search.specs.Quests.{steps_of};
ghost use Rattle.aut.specs.Writing.{name_at};
ghost use Rattle.search.specs.Finding.{path_in, Counted};
ghost use Rattle.study.specs.Study.{said};
ghost use Rattle.listing.specs.Texts.{refused_text, word_of, figures_text, verdict_text};
ghost use Rattle.listing.specs.Texts.{steps_text, path_text};

use base::{Labels, Refusal};
use itoa::Buffer;
use search::{Airtime, Found, Lists, Step};
use std::alloc::AllocError;
use study::Verdict;

// Writes a number.
fn push_number(out: &mut Vec<u8>, number: usize) -> Result<(), AllocError>
    ensures { OnOk result (out.new.items ≡ out.old.items ++ decimal number) }
{
    let mut buffer = Buffer::new();
    out.extend_from_slice(buffer.format(number).as_bytes())
}

// Writes the line of a refusal.
pub(crate) fn push_refusal(out: &mut Vec<u8>, why: Refusal) -> Result<(), AllocError>
    ensures { OnOk result (out.new.items ≡ out.old.items ++ refused_text why) }
{
    out.extend_from_slice(b"refused ")?;
    push_number(out, usize::from(why.number()))?;
    out.extend_from_slice(b"\n")
}

// The verdict in a word.
fn word(holds: bool) -> &'static [u8]
    ensures { result.now ≡ word_of holds }
{
    if holds { b"YES" } else { b"NO" }
}

// Writes a number after a space.
fn push_figure(out: &mut Vec<u8>, figure: usize) -> Result<(), AllocError>
    ensures { OnOk result (out.new.items ≡ out.old.items ++ (codes " " ++ decimal figure)) }
{
    out.extend_from_slice(b" ")?;
    push_number(out, figure)
}

// Writes the count, the total and the share of a verdict.
fn push_figures(out: &mut Vec<u8>, verdict: Verdict) -> Result<(), AllocError>
    ensures { OnOk result (out.new.items ≡ out.old.items ++ figures_text (said verdict)) }
{
    push_figure(out, verdict.count)?;
    push_figure(out, verdict.total)?;
    push_figure(out, verdict.share)?;
    out.extend_from_slice(b"\n")
}

// Writes the line of a verdict.
pub(crate) fn push_verdict(
    out: &mut Vec<u8>,
    number: usize,
    verdict: Verdict,
) -> Result<(), AllocError>
    ensures { OnOk result (out.new.items ≡ out.old.items ++ verdict_text number (said verdict)) }
{
    push_number(out, number)?;
    out.extend_from_slice(b" ")?;
    out.extend_from_slice(word(verdict.holds))?;
    push_figures(out, verdict)
}

// Writes the label of a step.
fn push_step(out: &mut Vec<u8>, labels: &Labels, step: &Step) -> Result<(), AllocError>
    ensures { OnOk result
        (out.new.items ≡ out.old.items ++ (codes " " ++ name_at labels.now step.now.action)) }
{
    out.extend_from_slice(b" ")?;
    out.extend_from_slice(labels.name_of(step.action).unwrap_or(b""))
}

// Writes the labels of steps.
fn push_steps(out: &mut Vec<u8>, labels: &Labels, steps: &[Step]) -> Result<(), AllocError>
    ensures { OnOk result
        (out.new.items ≡ out.old.items ++ steps_text labels.now (steps_of steps.now)) }
{
    for step in steps {
        push_step(out, labels, step)?;
    }
    Ok(())
}

// Writes the line of what was found: no path, no line.
pub(crate) fn push_path(
    out: &mut Vec<u8>,
    labels: &Labels,
    found: Found,
    lists: &Lists<'_, Airtime>,
) -> Result<(), AllocError>
    requires { Counted lists.now.stem.now lists.now.cycle.now found }
    ensures { OnOk result (out.new.items ≡ out.old.items
        ++ path_text labels.now (path_in lists.now.stem.now lists.now.cycle.now found)) }
{
    match found {
        Found::None => Ok(()),
        Found::Ended { stem } => {
            out.extend_from_slice(b"path")?;
            push_steps(out, labels, &lists.stem[..stem])?;
            out.extend_from_slice(b"\n")
        }
        Found::Looping { stem, cycle } => {
            out.extend_from_slice(b"path")?;
            push_steps(out, labels, &lists.stem[..stem])?;
            out.extend_from_slice(b" |")?;
            push_steps(out, labels, &lists.cycle[..cycle])?;
            out.extend_from_slice(b"\n")
        }
    }
}
