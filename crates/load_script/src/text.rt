//! The script that a number makes.

ghost use Rattle.std.specs.Prelude.{◌≡◌, ◌++◌, ◌∷◌, [], IfOk, OnOk};
ghost use Rattle.dio_core.specs.declared.line.TheConstants.{NEWLINE};
ghost use Rattle.load_script.specs.LoadText as spec;

use dio_core::NEWLINE;
use dtext::push_natural;
use plain_data::Text;
use std::alloc::{AllocError, Global};

/// The number that is drawn after another.
fn draw(number: u32) -> u32
    ensures { result ≡ spec.draw number }
{
    ((75 * u64::from(number) + 74) % 65_537) as u32
}

/// Adds a key, with the quotes around it.
#[tactic(auto, unfolding(crate::specs::LoadText::key))]
fn push_key(text: &mut Text, key: u32) -> Result<(), AllocError>
    ensures { OnOk result (text.new ≡ text.old ++ spec.key key) }
{
    text.extend_from_slice(b"\"k")?;
    push_natural(text, u64::from(key))?;
    text.push(b'"')
}

/// Adds a key with a text before it and one behind it.
#[tactic(auto, unfolding(crate::specs::LoadText::key_in))]
fn push_key_in(text: &mut Text, before: &[u8], key: u32, after: &[u8]) -> Result<(), AllocError>
    ensures { OnOk result (text.new ≡ text.old ++ spec.key_in before.now key after.now) }
{
    text.extend_from_slice(before)?;
    push_key(text, key)?;
    text.extend_from_slice(after)
}

/// Adds the address of the counter at a key.
#[tactic(auto, unfolding(crate::specs::LoadText::counter))]
fn push_counter(text: &mut Text, key: u32) -> Result<(), AllocError>
    ensures { OnOk result (text.new ≡ text.old ++ spec.counter key) }
{
    push_key_in(text, b"counter(", key, b")")
}

/// Adds what adds to a counter.
#[tactic(auto, unfolding(crate::specs::LoadText::adds))]
fn push_add(text: &mut Text, key: u32) -> Result<(), AllocError>
    ensures { OnOk result (text.new ≡ text.old ++ spec.adds key) }
{
    push_counter(text, key)?;
    text.extend_from_slice(b".add(1);")
}

/// Adds what looks at a counter.
#[tactic(auto, unfolding(crate::specs::LoadText::emits))]
fn push_emit(text: &mut Text, key: u32) -> Result<(), AllocError>
    ensures { OnOk result (text.new ≡ text.old ++ spec.emits key) }
{
    text.extend_from_slice(b"emit ")?;
    push_counter(text, key)?;
    text.extend_from_slice(b".get();")
}

/// Adds what adds a key to the set.
#[tactic(auto, unfolding(crate::specs::LoadText::collects))]
fn push_collect(text: &mut Text, key: u32) -> Result<(), AllocError>
    ensures { OnOk result (text.new ≡ text.old ++ spec.collects key) }
{
    push_key_in(text, b"set(\"s\").add(", key, b");")
}

/// Adds what puts one key at another, a field of the hash.
fn push_put(text: &mut Text, p: u32, q: u32) -> Result<(), AllocError>
    ensures { OnOk result (text.new ≡ text.old ++ spec.puts p q) }
{
    push_key_in(text, b"hash(\"h\").put(", p, b",")?;
    push_key_in(text, b" ", q, b");")
}

/// Adds what moves a key to the end of the list.
#[tactic(auto, unfolding(crate::specs::LoadText::moves))]
fn push_move(text: &mut Text, key: u32) -> Result<(), AllocError>
    ensures { OnOk result (text.new ≡ text.old ++ spec.moves key) }
{
    push_key_in(text, b"list(\"l\").remove(", key, b"); ")?;
    push_key_in(text, b"list(\"l\").push(", key, b");")
}

/// Adds what the first client does.
#[tactic(auto, unfolding(crate::specs::LoadText::first_body))]
fn push_first(text: &mut Text, p: u32, q: u32) -> Result<(), AllocError>
    ensures { OnOk result (text.new ≡ text.old ++ spec.first_body p q) }
{
    push_add(text, p)?;
    text.push(b' ')?;
    push_emit(text, q)
}

/// Adds what the second client does.
#[tactic(auto, unfolding(crate::specs::LoadText::second_body))]
fn push_second(text: &mut Text, p: u32, q: u32, form: u32) -> Result<(), AllocError>
    ensures { OnOk result (text.new ≡ text.old ++ spec.second_body p q form) }
{
    match form {
        0 => push_add(text, q),
        1 => push_collect(text, p),
        2 => push_put(text, p, q),
        _ => push_move(text, p),
    }
}

/// Adds the line with which the first client begins.
#[tactic(auto, unfolding(crate::specs::LoadText::begin_line))]
fn push_begin(text: &mut Text, p: u32, q: u32) -> Result<(), AllocError>
    ensures { OnOk result (text.new ≡ text.old ++ spec.begin_line p q) }
{
    text.extend_from_slice(b"0 begin ")?;
    push_first(text, p, q)?;
    text.push(NEWLINE)
}

/// Adds the line of the second client.
#[tactic(auto, unfolding(crate::specs::LoadText::do_line))]
fn push_do(text: &mut Text, p: u32, q: u32, form: u32) -> Result<(), AllocError>
    ensures { OnOk result (text.new ≡ text.old ++ spec.do_line p q form) }
{
    text.extend_from_slice(b"1 do ")?;
    push_second(text, p, q, form)?;
    text.push(NEWLINE)
}

/// Adds the five lines of a round.
#[tactic(auto, unfolding(crate::specs::LoadText::round))]
fn push_round(text: &mut Text, p: u32, q: u32, form: u32) -> Result<(), AllocError>
    ensures { OnOk result (text.new ≡ text.old ++ spec.round p q form) }
{
    push_begin(text, p, q)?;
    text.extend_from_slice(b"0 step\n")?;
    push_do(text, p, q, form)?;
    text.extend_from_slice(b"0 go\n2 sync\n")
}

/// Draws the three numbers of a round, adds its lines, and answers the last number.
#[tactic(auto, unfolding(crate::specs::LoadText::round_behind))]
fn push_next(text: &mut Text, number: u32) -> Result<u32, AllocError>
    ensures text { OnOk result (text.new ≡ text.old ++ spec.round_behind number) }
    ensures last { IfOk result (λ last. last ≡ spec.after_round number) }
{
    let p = draw(number);
    let q = draw(p);
    let last = draw(q);
    push_round(text, p % 16, q % 16, last % 4)?;
    Ok(last)
}

/// The script that a number makes, of so many rounds.
pub fn load_text(alloc: Global, seed: u32, count: u32) -> Result<Text, AllocError>
    ensures { IfOk result (λ text. text ≡ spec.load_text seed count) }
{
    let mut text = Text::new(alloc);
    text.extend_from_slice(b"2 watch w emit counter(\"k0\").get();\n")?;
    let mut number = seed;
    for _ in 0..count {
        number = push_next(&mut text, number)?;
    }
    Ok(text)
}
