//! Lines of a store: written, and put from a file.
ghost use Rattle.std.specs.Prelude.{◌≡◌, ◌≤◌, ◌++◌, length, map, IfOk, OnOk};
ghost use Rattle.ed_base.specs.Lines.{lines_of};
ghost use Rattle.ed_base.specs.Buffer.{plain_line};
ghost use Rattle.ed_base.specs.Parts.{inserted};
ghost use Rattle.ed_syntax.specs.PublicTypes.{form_value};
ghost use Rattle.ed_syntax.specs.meaning.Forms.{lines_written};

use crate::editor::addressing::Span;
use crate::editor::forms::push_line;
use ed_base::{Bytes, Pieces};
use ed_syntax::Form;
use line_store::{Block, FileLines, LineStore};
use std::alloc::{AllocError, Global};

/// Up to which line of so many each is looked at for itself where a span is written. Plain lines up to the last one are written at once.
pub fn looked_at(form: Form, span: Span, last: usize) -> usize
    requires first { 1 ≤ span.first }
{
    match form {
        Form::Plain if span.last == last => span.first - 1,
        Form::Plain | Form::Numbered | Form::Unambiguous => span.last,
    }
}

/// Appends the lines of a span, as the form writes them. Plain lines share their bytes with the store, unless they are short and
/// stand alone.
pub fn write_lines<S: LineStore>(
    alloc: Global,
    output: &mut Pieces,
    form: Form,
    span: Span,
    store: &S,
) -> Result<(), AllocError>
    requires first { 1 ≤ span.first }
    requires order { span.first ≤ span.last }
    requires last { span.last ≤ length (S.lines store.now) }
    ensures appended { OnOk result
        (output.new ≡ output.old ++ lines_written (form_value form) span.first span.last (S.lines store.now)) }
{
    match form {
        Form::Plain => write_plain(output, span, store),
        Form::Numbered | Form::Unambiguous => write_formed(alloc, output, form, span, store),
    }
}

/// Appends the lines of a span as they are.
fn write_plain<S: LineStore>(output: &mut Pieces, span: Span, store: &S) -> Result<(), AllocError>
    requires first { 1 ≤ span.first }
    requires order { span.first ≤ span.last }
    requires last { span.last ≤ length (S.lines store.now) }
    ensures appended { OnOk result
        (output.new ≡ output.old ++ lines_written (form_value Form.Plain) span.first span.last (S.lines store.now)) }
{
    store.push_lines(span.first - 1, span.last, output)
}

/// Appends the lines of a span, each put into the form first and then copied.
fn write_formed<S: LineStore>(
    alloc: Global,
    output: &mut Pieces,
    form: Form,
    span: Span,
    store: &S,
) -> Result<(), AllocError>
    requires first { 1 ≤ span.first }
    requires order { span.first ≤ span.last }
    requires last { span.last ≤ length (S.lines store.now) }
    ensures appended { OnOk result
        (output.new ≡ output.old ++ lines_written (form_value form) span.first span.last (S.lines store.now)) }
{
    let mut line = Bytes::new(alloc);
    for i in span.first - 1..span.last {
        line.clear();
        push_line(&mut line, form, i + 1, store.text(i))?;
        output.extend_from_slice(line.as_slice())?;
    }
    Ok(())
}

/// A store of the lines of a file's bytes, which they share.
pub fn file_store<S: LineStore>(alloc: Global, bytes: Bytes) -> Result<S, AllocError>
    ensures value { IfOk result (λ store. S.lines store ≡ map plain_line (lines_of bytes)) }
{
    let mut store = S::empty(alloc)?;
    let file = FileLines::new(alloc, bytes)?;
    put_file(file, 0, &mut store)?;
    Ok(store)
}

/// Puts the lines of a file after line `place`. After an `Err` the store is as before.
pub fn put_file<S: LineStore>(
    file: FileLines,
    place: usize,
    store: &mut S,
) -> Result<(), AllocError>
    requires place { place ≤ length (S.lines store.old) }
    ensures put { OnOk result (S.lines store.new ≡ inserted place (map plain_line (lines_of file)) (S.lines store.old)) }
    ensures no_fewer { length (S.lines store.old) ≤ length (S.lines store.new) }
{
    let new = Block::of_file(file)?;
    match store.exchange_block(place, place, new) {
        Ok(_none) => Ok(()),
        Err(_refused) => Err(AllocError),
    }
}
