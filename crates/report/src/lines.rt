//! The lines of a record.
ghost use Rattle.std.specs.Prelude.{◌≡◌, ◌<◌, ◌∷◌, ◌++◌, ◌%◌, OnOk, codes, option_copied, string_bytes};
ghost use Rattle.std.specs.Fmt.{decimal};
ghost use Rattle.meaning.specs.Words.{call_text, reply_text};
ghost use Rattle.meaning.specs.Texts.{abort_line, line, reason_text, refusal_text, outcome_text, choice_text, steps_text, step_text, child_text, children_text};
ghost use Rattle.batch.specs.Names.{names_of};
ghost use Rattle.batch.specs.Views.{block_view, record_view, step_view, taken_view, subaction_view, tried_view, children_view, all_tried_view};

use crate::calls::{write_call, write_natural, write_response};
use crate::names::{object_name, reason_name};
use crate::paths::{branch_end, count_up, push_handler, push_part, reason_of};
use batch::{Block, Names, Record, Step, Subaction, Taken, end_after, reason_for};
use meaning::End;
use objects::{Call, Reply};
use serial::NoMemory;
use vocabulary::{Response, Word, response_of};

// Writes the lines of the steps of a block, whose path is `path` and then `end`. The paths of its
// steps are made in the text of `path`, which is as before after `Ok`.
#[cycle(lines)]
fn write_block(
    out: &mut String,
    names: &Names,
    path: &mut String,
    end: &str,
    block: &Block,
    done: &Record,
) -> Result<(), NoMemory>
    ensures lines { OnOk result (string_bytes out.new ≡ string_bytes out.old
        ++ steps_text (names_of names.now) (string_bytes path.old ++ end.now) 1
        (block_view block.now) (record_view done.now)) }
    ensures path { OnOk result (string_bytes path.new ≡ string_bytes path.old) }
{
    let length = path.len();
    path.push_str(end)?;
    path.push('.')?;
    let start = path.len();
    for index in 0..block.steps.len().min(done.taken.len()) {
        let (step, taken) = (&block.steps[index], &done.taken[index]);
        count_up(path, start, index + 1)?;
        write_step(out, names, path, index + 1, step, taken)?;
    }
    path.truncate(length);
    Ok(())
}

/// Writes the lines of the step of this number (from 1). `path` is the path of its block, a dot, and
/// the number without its last digit. It is as before after `Ok`.
#[cycle(lines)]
pub(crate) fn write_step(
    out: &mut String,
    names: &Names,
    path: &mut String,
    number: usize,
    step: &Step,
    taken: &Taken,
) -> Result<(), NoMemory>
    ensures lines { OnOk result (string_bytes out.new ≡ string_bytes out.old
        ++ step_text (names_of names.now) (string_bytes path.old ++ decimal (number % 10))
        (step_view step.now) (taken_view taken.now)) }
    ensures path { OnOk result (string_bytes path.new ≡ string_bytes path.old) }
{
    let block_length = path.len();
    write_natural(path, (number % 10) as u64)?;
    write_step_at(out, names, path, step, taken)?;
    path.truncate(block_length);
    Ok(())
}

// Writes the lines of the step at this path, which is as before after `Ok`.
#[cycle(lines)]
fn write_step_at(
    out: &mut String,
    names: &Names,
    path: &mut String,
    step: &Step,
    taken: &Taken,
) -> Result<(), NoMemory>
    ensures lines { OnOk result (string_bytes out.new ≡ string_bytes out.old
        ++ step_text (names_of names.now) (string_bytes path.old)
        (step_view step.now) (taken_view taken.now)) }
    ensures path { OnOk result (string_bytes path.new ≡ string_bytes path.old) }
{
    match (step, taken) {
        (Step::Op { object, call, .. }, Taken::Op(reply)) => {
            begin_line(out, 'O', path)?;
            write_operation(out, names, *object, call, reply)
        }
        (Step::Fill(filling), Taken::Filled(made)) => {
            begin_line(out, 'O', path)?;
            write_operation(out, names, filling.object, &made.call, &made.reply)?;
            write_refusal(out, names, path, end_after(filling.refusal, &made.reply))
        }
        (Step::Fill(filling), Taken::Abort) => {
            write_abort(out, names, path, reason_for(filling.refusal))
        }
        (
            Step::If {
                then,
                otherwise,
                ..
            },
            Taken::If(holds, record),
        ) => {
            write_choice(out, path, *holds)?;
            let branch = if *holds { then } else { otherwise };
            write_block(out, names, path, branch_end(*holds), branch, record)
        }
        (Step::Sub(child), Taken::Sub(body, handler)) => {
            write_child(out, names, path, child, body, handler.as_deref())
        }
        (Step::Abort(reason), Taken::Abort) => write_abort(out, names, path, *reason),
        (Step::Parallel(children), Taken::Parallel(tried)) => {
            write_children(out, names, path, children, tried)
        }
        _ => Ok(()),
    }
}

// Writes the lines of the subaction at this path, which is as before after `Ok`.
#[cycle(lines)]
fn write_child(
    out: &mut String,
    names: &Names,
    path: &mut String,
    child: &Subaction,
    body: &Record,
    handler: Option<&Record>,
) -> Result<(), NoMemory>
    ensures lines { OnOk result (let child = subaction_view child.now in
        string_bytes out.new ≡ string_bytes out.old
        ++ child_text (names_of names.now) (string_bytes path.old) child.body child.handlers
        (tried_view (body.now, option_copied handler.entry))) }
    ensures path { OnOk result (string_bytes path.new ≡ string_bytes path.old) }
{
    write_outcome(out, names, path, body.outcome)?;
    write_block(out, names, path, ".b", &child.body, body)?;
    let Some(done) = handler else {
        return Ok(());
    };
    let length = path.len();
    let Some(block) = push_handler(path, names, child, reason_of(body.outcome))? else {
        return Ok(());
    };
    write_block(out, names, path, "", block, done)?;
    path.truncate(length);
    Ok(())
}

// Writes the lines of the children of the step at this path, which is as before after `Ok`.
#[cycle(lines)]
fn write_children(
    out: &mut String,
    names: &Names,
    path: &mut String,
    children: &[Subaction],
    all_tried: &[(Record, Option<Record>)],
) -> Result<(), NoMemory>
    ensures lines { OnOk result (string_bytes out.new ≡ string_bytes out.old
        ++ children_text (names_of names.now) (string_bytes path.old) 1
        (children_view children.now) (all_tried_view all_tried.now)) }
    ensures path { OnOk result (string_bytes path.new ≡ string_bytes path.old) }
{
    let length = path.len();
    for index in 0..children.len().min(all_tried.len()) {
        let (body, handler) = &all_tried[index];
        push_part(path, index + 1)?;
        write_child(out, names, path, &children[index], body, handler.as_ref())?;
        path.truncate(length);
    }
    Ok(())
}

// Begins a line with its letter and a path.
fn begin_line(out: &mut String, letter: char, path: &str) -> Result<(), NoMemory>
    requires { letter < 128 }
    ensures { OnOk result (string_bytes out.new
        ≡ string_bytes out.old ++ (letter ∷ (codes " " ++ path.now))) }
{
    out.push(letter)?;
    out.push(' ')?;
    out.push_str(path)?;
    Ok(())
}

// Writes the line of an abort, where a call that ended so aborts its block.
fn write_refusal(out: &mut String, names: &Names, path: &str, end: End) -> Result<(), NoMemory>
    ensures { OnOk result (string_bytes out.new
        ≡ string_bytes out.old ++ refusal_text (names_of names.now) path.now end) }
{
    match end {
        End::Ended => Ok(()),
        End::Aborted(reason) => write_abort(out, names, path, reason),
    }
}

// Writes what the line of an operation has after its path.
fn write_operation(
    out: &mut String,
    names: &Names,
    object: u32,
    call: &Call,
    reply: &Reply,
) -> Result<(), NoMemory>
    ensures { OnOk result (let names = names_of names.now in
        string_bytes out.new ≡ string_bytes out.old
        ++ line (codes " " ++ names.object object ++ codes " " ++ call_text names call.now
        ++ codes " = " ++ reply_text names reply.now)) }
{
    write_name(out, object_name(names, object))?;
    write_call(out, names, call)?;
    write_line_end(out, names, reply)
}

// Ends the line of an operation with its reply. Most replies are `ok`: these are written at once.
fn write_line_end(out: &mut String, names: &Names, reply: &Reply) -> Result<(), NoMemory>
    ensures { OnOk result (string_bytes out.new
        ≡ string_bytes out.old ++ line (codes " = " ++ reply_text (names_of names.now) reply.now)) }
{
    match response_of(reply) {
        Response::Word(Word::Ok) => out.push_str(" = ok\n")?,
        response => {
            out.push_str(" = ")?;
            write_response(out, names, response)?;
            out.push('\n')?;
        }
    }
    Ok(())
}

// Writes a name between two spaces.
fn write_name(out: &mut String, name: &str) -> Result<(), NoMemory>
    ensures { OnOk result (string_bytes out.new
        ≡ string_bytes out.old ++ (codes " " ++ name.now ++ codes " ")) }
{
    out.push(' ')?;
    out.push_str(name)?;
    out.push(' ')?;
    Ok(())
}

fn write_choice(out: &mut String, path: &str, holds: bool) -> Result<(), NoMemory>
    ensures { OnOk result (string_bytes out.new
        ≡ string_bytes out.old ++ line (codes "I " ++ path.now ++ choice_text holds)) }
{
    begin_line(out, 'I', path)?;
    if holds {
        out.push_str(" then\n")?;
    } else {
        out.push_str(" else\n")?;
    }
    Ok(())
}

fn write_abort(
    out: &mut String,
    names: &Names,
    path: &str,
    reason: Option<u32>,
) -> Result<(), NoMemory>
    ensures { OnOk result (string_bytes out.new
        ≡ string_bytes out.old ++ abort_line (names_of names.now) path.now reason) }
{
    begin_line(out, 'A', path)?;
    write_reason(out, names, reason)
}

fn write_outcome(out: &mut String, names: &Names, path: &str, outcome: End) -> Result<(), NoMemory>
    ensures { OnOk result (string_bytes out.new ≡ string_bytes out.old
        ++ line (codes "S " ++ path.now ++ outcome_text (names_of names.now) outcome)) }
{
    begin_line(out, 'S', path)?;
    write_end(out, names, outcome)
}

/// Writes how a block ended, and ends the line.
pub(crate) fn write_end(out: &mut String, names: &Names, outcome: End) -> Result<(), NoMemory>
    ensures { OnOk result (string_bytes out.new
        ≡ string_bytes out.old ++ line (outcome_text (names_of names.now) outcome)) }
{
    match outcome {
        End::Ended => {
            out.push_str(" committed\n")?;
            Ok(())
        }
        End::Aborted(reason) => {
            out.push_str(" aborted")?;
            write_reason(out, names, reason)
        }
    }
}

// Writes the reason of an abort, if there is one, and ends the line.
fn write_reason(out: &mut String, names: &Names, reason: Option<u32>) -> Result<(), NoMemory>
    ensures { OnOk result (string_bytes out.new
        ≡ string_bytes out.old ++ line (reason_text (names_of names.now) reason)) }
{
    match reason {
        Some(reason) => {
            out.push(' ')?;
            out.push_str(reason_name(names, reason))?;
            out.push('\n')?;
        }
        None => out.push('\n')?,
    }
    Ok(())
}
