//! Reading a line: what it asks for, and its body.

ghost use Rattle.std.specs.Prelude.{◌≡◌, ◌≤◌, length, IfOk, IfSome};
ghost use Rattle.session_text.specs.Bodies.{IsWithin};
ghost use Rattle.session_core.specs.Bodies as bodies;
ghost use Rattle.session_core.specs.Lines as spec;
ghost use Rattle.session_core.specs.Holding.{BodyIsReady, IsReady};
ghost use Rattle.session_core.specs.code.Reading as code;
ghost use Rattle.session_core.specs.code.Reading.{IsReadable, ReadsBody, ReadsLine};

use crate::form::{Form, Purpose};
use crate::line::Line;
use crate::words::{is_quiet, trim_end, trimmed_start};
use dio_core::LONGEST_LINE;
use plain_data::{OrNoMemory, Text};
use session_text::{Verb, VerbError, Why, read_verb};
use std::alloc::{AllocError, Global};
use txn_lang::{CheckError, Checked, check};
use txn_parse::{ParseError, parse};

/// What a fault of the parser comes to.
fn of_parse(error: ParseError) -> OrNoMemory<Why>
    ensures { result ≡ code.of_parse error }
{
    match error {
        ParseError::Syntax(column) => OrNoMemory::Cause(Why::Syntax(column)),
        ParseError::NoMemory => OrNoMemory::NoMemory,
    }
}

/// What a fault of the checker comes to.
fn of_check(error: CheckError) -> OrNoMemory<Why>
    ensures { result ≡ code.of_check error }
{
    match error {
        CheckError::BadType(column) => OrNoMemory::Cause(Why::BadType(column)),
        CheckError::Writes(column) => OrNoMemory::Cause(Why::Writes(column)),
        CheckError::NoMemory => OrNoMemory::NoMemory,
    }
}

/// What was read, or why it is refused, apart from want of memory.
fn split(found: Result<Checked, OrNoMemory<Why>>) -> Result<Result<Checked, Why>, AllocError>
    ensures { result ≡ code.split found }
{
    match found {
        Ok(checked) => Ok(Ok(checked)),
        Err(OrNoMemory::Cause(reason)) => Ok(Err(reason)),
        Err(OrNoMemory::NoMemory) => Err(AllocError),
    }
}

/// The body that a text is, or why it is refused. The text itself, without the blanks at its end, becomes the source.
fn read_body(alloc: Global, text: Text, read_only: bool) -> Result<Checked, OrNoMemory<Why>>
    requires { length text ≤ LONGEST_LINE }
    ensures reads { ReadsBody result (bodies.body_of read_only text) }
    ensures ready { IfOk result (λ checked. IsReady checked) }
{
    let mut source = text;
    let body = match parse(alloc, source.as_slice()) {
        Ok(body) => body,
        Err(error) => return Err(of_parse(error)),
    };
    trim_end(&mut source);
    match check(alloc, body, source, read_only) {
        Ok(checked) => Ok(checked),
        Err(error) => Err(of_check(error)),
    }
}

/// The same, apart from want of memory.
fn body_or_why(
    alloc: Global,
    text: Text,
    read_only: bool,
) -> Result<Result<Checked, Why>, AllocError>
    requires { length text ≤ LONGEST_LINE }
    ensures reads { IfOk result (λ read. bodies.body_of read_only text ≡ read) }
    ensures ready { IfOk result (λ read. IfOk read (λ checked. IsReady checked)) }
{
    split(read_body(alloc, text, read_only))
}

/// Whether a body may only read.
fn only_reads(purpose: &Purpose) -> bool
    ensures { result ≡ code.only_reads purpose.now }
{
    match purpose {
        Purpose::Begin | Purpose::Try(_) => false,
        Purpose::Look | Purpose::At(_) | Purpose::Watch(_) => true,
    }
}

/// The line of a body, or the refusal of that.
fn with_body(purpose: Purpose, read: Result<Checked, Why>) -> Line
    requires { IfOk read IsReady }
    ensures line { result ≡ spec.with_body (code.line_with purpose) read }
    ensures ready { BodyIsReady result }
{
    let body = match read {
        Ok(body) => body,
        Err(reason) => return Line::Refused(reason),
    };
    match purpose {
        Purpose::Begin => Line::Begin(body),
        Purpose::Try(tries) => Line::Try(tries, body),
        Purpose::Look => Line::Look(body),
        Purpose::At(number) => Line::At(number, body),
        Purpose::Watch(name) => Line::Watch(name, body),
    }
}

/// The form of a line that has this verb, or is refused since it has none's form.
fn form_of(verb: Option<Verb>) -> Form
    requires { IfSome verb (IsWithin LONGEST_LINE) }
    ensures form { result ≡ code.form_of verb }
    ensures readable { IsReadable result }
{
    let Some(verb) = verb else {
        return Form::Plain(Line::Refused(Why::Verb));
    };
    match verb {
        Verb::Begin(text) => Form::WithBody(Purpose::Begin, text),
        Verb::Do(text) => Form::WithBody(Purpose::Try(1), text),
        Verb::Try(tries, text) => Form::WithBody(Purpose::Try(tries), text),
        Verb::Look(text) => Form::WithBody(Purpose::Look, text),
        Verb::At(number, text) => Form::WithBody(Purpose::At(number), text),
        Verb::Watch(name, text) => Form::WithBody(Purpose::Watch(name), text),
        Verb::Step => Form::Plain(Line::Step),
        Verb::Go => Form::Plain(Line::Go),
        Verb::Drop => Form::Plain(Line::Drop),
        Verb::Seen => Form::Plain(Line::Seen),
        Verb::Quit => Form::Plain(Line::Quit),
        Verb::Unwatch(name) => Form::Plain(Line::Unwatch(name)),
        Verb::Sync => Form::Plain(Line::Sync),
        Verb::Wait => Form::Plain(Line::Wait),
    }
}

/// What a line of a form asks for.
fn line_of_form(alloc: Global, form: Form) -> Result<Line, AllocError>
    requires { IsReadable form }
    ensures { ReadsLine result (code.line_of_form form) }
{
    match form {
        Form::Plain(line) => Ok(line),
        Form::WithBody(purpose, text) => {
            let read = body_or_why(alloc, text, only_reads(&purpose))?;
            Ok(with_body(purpose, read))
        }
    }
}

/// The verb that was read, or none where the line has no verb's form, apart from want of memory.
fn verb_of(found: Result<Verb, VerbError>) -> Result<Option<Verb>, AllocError>
    ensures { result ≡ code.verb_of found }
{
    match found {
        Ok(verb) => Ok(Some(verb)),
        Err(VerbError::BadVerb) => Ok(None),
        Err(VerbError::NoMemory) => Err(AllocError),
    }
}

/// What a line asks for.
pub fn read_line(alloc: Global, bytes: &[u8]) -> Result<Line, AllocError>
    requires { length bytes.now ≤ LONGEST_LINE }
    ensures { ReadsLine result (spec.line_of bytes.now) }
{
    if is_quiet(trimmed_start(bytes)) {
        return Ok(Line::Quiet);
    }
    let verb = verb_of(read_verb(alloc, bytes))?;
    line_of_form(alloc, form_of(verb))
}
