//! Printing: the one printed form of each value.

ghost use Rattle.std.specs.Prelude.{◌≡◌, ◌++◌, IfOk, OnOk};
ghost use Rattle.std.specs.Fmt.{decimal, signed_decimal};
ghost use Rattle.std.specs.List.{flat_map};
ghost use Rattle.dtext.specs.Printing as spec;
ghost use Rattle.rdt_types.specs.Printed as printed;
ghost use Rattle.rdt_types.specs.declared.operation.WriteOp.TheVariants as op;

use crate::value::bool_word;
use itoa::Buffer;
use plain_data::Text;
use rdt_types::{Address, Item, Outcome, Spelling, TextList, WriteOp, spelling_of};
use std::alloc::{AllocError, Global};

/// Adds a byte of a text as it is spelled between quotes.
fn push_byte(out: &mut Text, byte: u8) -> Result<(), AllocError>
    ensures ok { OnOk result (out.new ≡ out.old ++ printed.spelled (printed.spelling_of byte)) }
    ensures grows { spec.Grows out.old out.new }
{
    match spelling_of(byte) {
        Spelling::Plain(byte) => out.push(byte),
        Spelling::Escaped(byte) => out.extend_from_slice(&[b'\\', byte]),
        Spelling::Hexadecimal(high, low) => out.extend_from_slice(&[b'\\', b'x', high, low]),
    }
}

/// Adds the bytes of a text as they are spelled between quotes.
fn push_bytes(out: &mut Text, bytes: &[u8]) -> Result<(), AllocError>
    ensures ok { OnOk result (out.new ≡ out.old
        ++ flat_map (λ byte. printed.spelled (printed.spelling_of byte)) bytes.now) }
    ensures grows { spec.Grows out.old out.new }
{
    for byte in bytes {
        push_byte(out, *byte)?;
    }
    Ok(())
}

/// Adds a text in quotes.
pub fn push_text(out: &mut Text, text: &Text) -> Result<(), AllocError>
    ensures ok { OnOk result (out.new ≡ out.old ++ printed.printed_text text.now) }
    ensures grows { spec.Grows out.old out.new }
{
    out.push(b'"')?;
    push_bytes(out, text.as_slice())?;
    out.push(b'"')
}

/// Adds a number.
pub fn push_number(out: &mut Text, number: i64) -> Result<(), AllocError>
    ensures ok { OnOk result (out.new ≡ out.old ++ signed_decimal number) }
    ensures grows { spec.Grows out.old out.new }
{
    let mut digits = Buffer::new();
    out.extend_from_slice(digits.format(number).as_bytes())
}

/// Adds a number without a sign.
pub fn push_natural(out: &mut Text, number: u64) -> Result<(), AllocError>
    ensures ok { OnOk result (out.new ≡ out.old ++ decimal number) }
    ensures grows { spec.Grows out.old out.new }
{
    let mut digits = Buffer::new();
    out.extend_from_slice(digits.format(number).as_bytes())
}

/// Adds an address: the word of its kind, and its key in parentheses.
pub fn push_address(out: &mut Text, address: &Address) -> Result<(), AllocError>
    ensures ok { OnOk result (out.new ≡ out.old ++ printed.printed_address address.now) }
    ensures grows { spec.Grows out.old out.new }
{
    out.extend_from_slice(address.kind.word())?;
    out.push(b'(')?;
    push_text(out, &address.key)?;
    out.push(b')')
}

/// Adds texts, each behind a comma.
fn push_more(out: &mut Text, texts: &[Text]) -> Result<(), AllocError>
    ensures ok { OnOk result (out.new ≡ out.old ++ flat_map spec.after_comma texts.now) }
    ensures grows { spec.Grows out.old out.new }
{
    for text in texts {
        out.push(b',')?;
        push_text(out, text)?;
    }
    Ok(())
}

/// Adds texts with a comma between each two.
fn push_separated(out: &mut Text, texts: &[Text]) -> Result<(), AllocError>
    ensures ok { OnOk result (out.new ≡ out.old ++ spec.separated texts.now) }
    ensures grows { spec.Grows out.old out.new }
{
    let Some((first, rest)) = texts.split_first() else {
        return Ok(());
    };
    push_text(out, first)?;
    push_more(out, rest)
}

fn push_texts(out: &mut Text, texts: &TextList) -> Result<(), AllocError>
    ensures ok { OnOk result (out.new ≡ out.old ++ spec.printed_texts texts.now) }
    ensures grows { spec.Grows out.old out.new }
{
    out.push(b'[')?;
    push_separated(out, texts.as_slice())?;
    out.push(b']')
}

fn push_item(out: &mut Text, item: &Item) -> Result<(), AllocError>
    ensures ok { OnOk result (out.new ≡ out.old ++ spec.printed_item item.now) }
    ensures grows { spec.Grows out.old out.new }
{
    match item {
        Item::Int(number) => push_number(out, *number),
        Item::Bool(value) => out.extend_from_slice(bool_word(*value)),
        Item::Text(text) => push_text(out, text),
        Item::Texts(texts) => push_texts(out, texts),
    }
}

/// Adds values, each behind a space.
fn push_items(out: &mut Text, items: &[Item]) -> Result<(), AllocError>
    ensures ok { OnOk result (out.new ≡ out.old ++ flat_map spec.after_space items.now) }
    ensures grows { spec.Grows out.old out.new }
{
    for item in items {
        out.push(b' ')?;
        push_item(out, item)?;
    }
    Ok(())
}

/// Adds a word, and a text behind it.
fn push_named(out: &mut Text, word: &[u8], text: &Text) -> Result<(), AllocError>
    ensures ok { OnOk result (out.new ≡ out.old ++ (word.now ++ printed.printed_text text.now)) }
    ensures grows { spec.Grows out.old out.new }
{
    out.extend_from_slice(word)?;
    push_text(out, text)
}

/// Adds a word, and a number behind it.
fn push_counted(out: &mut Text, word: &[u8], number: i64) -> Result<(), AllocError>
    ensures ok { OnOk result (out.new ≡ out.old ++ (word.now ++ signed_decimal number)) }
    ensures grows { spec.Grows out.old out.new }
{
    out.extend_from_slice(word)?;
    push_number(out, number)
}

fn push_put_bool(out: &mut Text, value: bool) -> Result<(), AllocError>
    ensures ok { OnOk result (out.new ≡ out.old ++ spec.printed_part (op.PutBool value)) }
    ensures grows { spec.Grows out.old out.new }
{
    out.extend_from_slice(b"put ")?;
    out.extend_from_slice(bool_word(value))
}

fn push_field(out: &mut Text, field: &Text, text: &Text) -> Result<(), AllocError>
    ensures ok { OnOk result (out.new ≡ out.old
        ++ spec.printed_part (op.HashPut field.now text.now)) }
    ensures grows { spec.Grows out.old out.new }
{
    push_named(out, b"put ", field)?;
    out.push(b' ')?;
    push_text(out, text)
}

/// Adds one write, without its kind.
pub fn push_part(out: &mut Text, part: &WriteOp) -> Result<(), AllocError>
    ensures ok { OnOk result (out.new ≡ out.old ++ spec.printed_part part.now) }
    ensures grows { spec.Grows out.old out.new }
{
    match part {
        WriteOp::PutBool(value) => push_put_bool(out, *value),
        WriteOp::PutCounter(number) => push_counted(out, b"put ", *number),
        WriteOp::AddCounter(number) => push_counted(out, b"add ", *number),
        WriteOp::PutText(text) => push_named(out, b"put ", text),
        WriteOp::HashPut(field, text) => push_field(out, field, text),
        WriteOp::SetAdd(element) => push_named(out, b"add ", element),
        WriteOp::ListPush(item) => push_named(out, b"push ", item),
        WriteOp::SetRemove(x) | WriteOp::HashRemove(x) | WriteOp::ListRemove(x) => {
            push_named(out, b"remove ", x)
        }
        WriteOp::SetClear | WriteOp::HashClear | WriteOp::ListClear => {
            out.extend_from_slice(b"clear")
        }
        WriteOp::Raise(number) => push_counted(out, b"raise ", *number),
    }
}

/// Adds how a body ended.
pub fn push_outcome(out: &mut Text, outcome: &Outcome) -> Result<(), AllocError>
    ensures ok { OnOk result (out.new ≡ out.old ++ spec.printed_outcome outcome.now) }
    ensures grows { spec.Grows out.old out.new }
{
    match outcome {
        Outcome::Ok(items) => {
            out.extend_from_slice(b"ok")?;
            push_items(out, items.as_slice())
        }
        Outcome::Fail(reason) => push_named(out, b"fail ", reason),
        Outcome::Spent => out.extend_from_slice(b"spent"),
        Outcome::Big => out.extend_from_slice(b"big"),
    }
}

/// Prints a text in quotes.
pub fn print_text(alloc: Global, text: &Text) -> Result<Text, AllocError>
    ensures { IfOk result (λ out. out ≡ printed.printed_text text.now) }
{
    let mut out = Text::new(alloc);
    push_text(&mut out, text)?;
    Ok(out)
}

/// Prints an address: the word of its kind, and its key in parentheses.
pub fn print_address(alloc: Global, address: &Address) -> Result<Text, AllocError>
    ensures { IfOk result (λ out. out ≡ printed.printed_address address.now) }
{
    let mut out = Text::new(alloc);
    push_address(&mut out, address)?;
    Ok(out)
}

/// Prints a value that a body emits.
pub fn print_item(alloc: Global, item: &Item) -> Result<Text, AllocError>
    ensures { IfOk result (λ out. out ≡ spec.printed_item item.now) }
{
    let mut out = Text::new(alloc);
    push_item(&mut out, item)?;
    Ok(out)
}

/// Prints how a body ended.
pub fn print_outcome(alloc: Global, outcome: &Outcome) -> Result<Text, AllocError>
    ensures { IfOk result (λ out. out ≡ spec.printed_outcome outcome.now) }
{
    let mut out = Text::new(alloc);
    push_outcome(&mut out, outcome)?;
    Ok(out)
}

/// Prints one write, without its kind.
pub fn print_part(alloc: Global, part: &WriteOp) -> Result<Text, AllocError>
    ensures { IfOk result (λ out. out ≡ spec.printed_part part.now) }
{
    let mut out = Text::new(alloc);
    push_part(&mut out, part)?;
    Ok(out)
}
