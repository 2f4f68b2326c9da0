//! The lines below the sheets of a picture: the stop, and statuses that are not 0.

ghost use Rattle.std.specs.Prelude.{◌≡◌, ◌+◌, ◌*◌, ◌≤◌, ◌++◌, OnOk};
ghost use Rattle.pr_render.specs.Svg.{all_zero, notes_svg, place_text, places_text, statuses_svg, stop_picas, stop_svg};

use crate::adding::{push_if, push_number, push_small, stop_name};
use crate::parts::{notes_begin, status_begin, stop_begin, text_end};
use pr_channels::Stop;
use pr_system::Outcome;
use std::alloc::AllocError;

/// How many picas a stop takes.
pub fn stop_picas(stop: Option<(usize, Stop)>) -> u128
    ensures picas { result ≡ stop_picas stop }
    ensures within { result ≤ 1 }
{
    match stop {
        None => 0,
        Some(_) => 1,
    }
}

/// Adds the line of a stop, if there is one.
#[tactic(auto, unfolding(crate::specs::Svg::stop_svg))]
fn push_stop(text: &mut Vec<u8>, stop: Option<(usize, Stop)>) -> Result<(), AllocError>
    ensures { OnOk result (text.new.items ≡ text.old.items ++ stop_svg stop) }
{
    let Some((place, stop)) = stop else {
        return Ok(());
    };
    text.extend_from_slice(stop_begin())?;
    text.extend_from_slice(stop_name(stop))?;
    text.extend_from_slice(b" in statement ")?;
    push_small(text, place as u64)?;
    text.extend_from_slice(b"</tspan>\n")
}

/// Whether statuses are all 0.
pub fn all_zero(statuses: &[u8]) -> bool
    ensures { result ≡ all_zero statuses.now }
{
    statuses.iter().all(|status| *status == 0)
}

/// Adds the status of a statement, after a comma or not.
#[tactic(auto, unfolding(crate::specs::Svg::place_text))]
fn push_place(text: &mut Vec<u8>, comma: bool, status: u8, place: u64) -> Result<(), AllocError>
    ensures { OnOk result (text.new.items ≡ text.old.items ++ place_text comma status place) }
{
    push_if(text, comma, b", ")?;
    push_small(text, u64::from(status))?;
    text.extend_from_slice(b" in statement ")?;
    push_small(text, place)
}

/// Adds the first four statuses that are not 0, with their statements.
fn push_places(text: &mut Vec<u8>, statuses: &[u8]) -> Result<(), AllocError>
    ensures { OnOk result (text.new.items ≡ text.old.items ++ places_text 4 1 statuses.now) }
{
    let mut left: u64 = 4;
    let mut place: u64 = 1;
    for status in statuses {
        if *status != 0 {
            if left == 0 {
                return text.extend_from_slice(b", and more");
            }
            push_place(text, left < 4, *status, place)?;
            left -= 1;
        }
        place += 1;
    }
    Ok(())
}

/// Adds the statuses that are not 0, if there are any.
#[tactic(auto, unfolding(crate::specs::Svg::statuses_svg))]
fn push_statuses(text: &mut Vec<u8>, statuses: &[u8]) -> Result<(), AllocError>
    ensures { OnOk result (text.new.items ≡ text.old.items ++ statuses_svg statuses.now) }
{
    if all_zero(statuses) {
        return Ok(());
    }
    text.extend_from_slice(status_begin())?;
    push_places(text, statuses)?;
    text.extend_from_slice(b"</tspan>\n")
}

/// Adds the lines below the sheets, which take so many picas.
#[tactic(auto, unfolding(crate::specs::Svg::notes_svg))]
pub fn push_notes(text: &mut Vec<u8>, picas: u128, outcome: &Outcome) -> Result<(), AllocError>
    requires { picas ≤ 36893488147419103366 }
    ensures { OnOk result (text.new.items ≡ text.old.items ++ notes_svg picas outcome.now) }
{
    text.extend_from_slice(notes_begin())?;
    push_number(text, 210 * (picas + 1))?;
    text.extend_from_slice(b")\">\n")?;
    push_stop(text, outcome.stop)?;
    push_statuses(text, outcome.statuses.as_slice())?;
    text.extend_from_slice(text_end())
}
