//! Pure steps, which call a function of a library on their words. The README of this crate lists
//! them.

mod arguments;
mod classes;
mod expansion;
mod faults;
mod headers;
mod lines;
mod nets;
mod pictures;
mod preparation;
mod sizes;
mod stop;
mod trees;
mod words;

use crate::script::{Step, Trouble};
use click_lines::push_words;
use std::alloc::Global;
use stop::Stop;

/// Returns the reply of a pure step, or None if the step is not pure.
pub fn show(alloc: Global, step: &Step<'_>) -> Result<Option<Vec<u8>>, Trouble> {
    match show_line_or_bytes(alloc, step) {
        Ok(reply) => Ok(reply),
        Err(Stop::Malformed) => Err(Trouble::Malformed),
        Err(stop) => Ok(Some(format!(in alloc; "{stop}")?.into_bytes())),
    }
}

/// Returns the reply of a pure step: a line unchanged, or other bytes escaped.
fn show_line_or_bytes(alloc: Global, step: &Step<'_>) -> Result<Option<Vec<u8>>, Stop> {
    match step.who {
        b"line" => Ok(Some(lines::write_line(alloc, step.words)?)),
        b"reads" => Ok(Some(lines::read_back(alloc, step.words)?)),
        _ => match show_text(alloc, step)? {
            Some(bytes) => Ok(Some(spell(alloc, bytes.as_slice())?)),
            None => Ok(None),
        },
    }
}

/// Returns bytes in their escaped form.
fn spell(alloc: Global, bytes: &[u8]) -> Result<Vec<u8>, Stop> {
    let mut text = Vec::new(alloc);
    push_words(&mut text, bytes)?;
    Ok(text)
}

/// Returns the result of a step on a text, as bytes.
fn show_text(alloc: Global, step: &Step<'_>) -> Result<Option<Vec<u8>>, Stop> {
    let text = step.words;
    match step.who {
        b"places" => Ok(Some(arguments::list_places(alloc, text)?)),
        b"arguments" => Ok(Some(arguments::list_arguments(alloc, text)?)),
        b"words" => Ok(Some(arguments::list_words(alloc, text)?)),
        b"unquote" => Ok(Some(arguments::unquote_argument(alloc, text)?)),
        b"statements" => Ok(Some(trees::list_statements(alloc, text)?)),
        b"bodies" => Ok(Some(trees::list_bodies(alloc, text)?)),
        b"parsed" => Ok(Some(sizes::measure_tree(alloc, text)?)),
        b"expanded" => Ok(Some(sizes::measure_flat_form(alloc, text)?)),
        b"flat" => Ok(Some(expansion::show_flat_form(alloc, text)?)),
        b"kinds" => Ok(Some(nets::list_kinds(alloc, text)?)),
        b"prepared" => Ok(Some(preparation::count_elements(alloc, text)?)),
        b"cuts" => Ok(Some(preparation::count_prefixes(alloc, text)?)),
        _ => show_part(alloc, step),
    }
}

/// Returns the result of a step on a part of a router or of a picture, as bytes.
fn show_part(alloc: Global, step: &Step<'_>) -> Result<Option<Vec<u8>>, Stop> {
    match step.who {
        b"make" => Ok(Some(classes::make_element(alloc, step.words)?)),
        b"fault" => Ok(Some(faults::show_fault(alloc, step.words)?)),
        b"header" => Ok(Some(headers::show_header(alloc, step.words)?)),
        b"ttl" => Ok(Some(headers::set_ttl(alloc, step.words)?)),
        b"picture" => Ok(Some(pictures::draw(alloc, step.words)?)),
        b"frame" => Ok(Some(pictures::draw_frame(alloc, step.words)?)),
        b"frames" => Ok(Some(pictures::list_frames(alloc, step.words)?)),
        _ => Ok(None),
    }
}
