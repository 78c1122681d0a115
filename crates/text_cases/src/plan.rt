//! What the words of a command ask for, as rows have it: the command, with all that it is told.

use cli_words::Plan;
use dtext::push_natural;
use plain_data::Text;
use rdt_types::Settings;
use std::alloc::{AllocError, Global};

/// Adds the name of an option, and its number.
fn push_option(out: &mut Text, name: &[u8], number: u64) -> Result<(), AllocError> {
    out.extend_from_slice(name)?;
    push_natural(out, number)
}

fn push_settings(out: &mut Text, settings: &Settings) -> Result<(), AllocError> {
    push_option(out, b" --shards ", u64::from(settings.shards))?;
    push_option(out, b" --window ", u64::from(settings.window))?;
    push_option(out, b" --limit ", u64::from(settings.limit))
}

/// Adds the path of a file, where one is given.
fn push_file(out: &mut Text, file: &Option<Text>) -> Result<(), AllocError> {
    if let Some(path) = file {
        out.extend_from_slice(b" --file ")?;
        out.extend_from_slice(path.as_slice())?;
    }
    Ok(())
}

/// Adds the form of what links bring, where it isn't text.
fn push_form(out: &mut Text, wire: bool) -> Result<(), AllocError> {
    if wire {
        out.extend_from_slice(b" --form wire")?;
    }
    Ok(())
}

fn push_plan(out: &mut Text, plan: &Plan) -> Result<(), AllocError> {
    match plan {
        Plan::Run(settings) => {
            out.extend_from_slice(b"run")?;
            push_settings(out, settings)
        }
        Plan::Serve {
            settings,
            address,
            sessions,
            file,
            wire,
        } => {
            out.extend_from_slice(b"serve --address ")?;
            out.extend_from_slice(address.as_slice())?;
            push_option(out, b" --sessions ", u64::from(*sessions))?;
            push_file(out, file)?;
            push_form(out, *wire)?;
            push_settings(out, settings)
        }
        Plan::Audit { file, at } => {
            out.extend_from_slice(b"audit --file ")?;
            out.extend_from_slice(file.as_slice())?;
            match at {
                Some(number) => push_option(out, b" --at ", *number),
                None => Ok(()),
            }
        }
        Plan::Remote { address } => {
            out.extend_from_slice(b"remote --address ")?;
            Ok(out.extend_from_slice(address.as_slice())?)
        }
        Plan::Load {
            settings,
            seed,
            count,
        } => {
            push_option(out, b"load --seed ", u64::from(*seed))?;
            push_option(out, b" --count ", u64::from(*count))?;
            push_settings(out, settings)
        }
    }
}

/// What words ask for, printed.
pub fn print_plan(alloc: Global, plan: &Plan) -> Result<Text, AllocError> {
    let mut out = Text::new(alloc);
    push_plan(&mut out, plan)?;
    Ok(out)
}
