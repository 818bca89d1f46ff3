//! Scenes are read.

use crate::scene::{Opening, Role, Scene, SceneSetting};
use command_line::MOST_STATIONS;
use gate_bytes::Text;
use std::alloc::Global;
use std::str;
use test_text::{CaseFault, CasesFault, first_number, first_word, meant, next_line};

/// Reads scenes.
pub fn read_scenes(alloc: Global, script: &[u8]) -> Result<Vec<Scene>, CasesFault> {
    let mut scenes = Vec::new(alloc);
    let mut left = script;
    for number in 1..u64::MAX {
        let Some((line, rest)) = next_line(left) else {
            break;
        };
        left = rest;
        if let Err(fault) = obey(alloc, &mut scenes, line) {
            return Err(fault.at(number));
        }
    }
    Ok(scenes)
}

/// Does what a line says.
fn obey(alloc: Global, scenes: &mut Vec<Scene>, line: &[u8]) -> Result<(), CaseFault> {
    if line.is_empty() || line.starts_with(b"#") {
        return Ok(());
    }
    let (word, more) = first_word(line);
    if word == b"run".as_slice() {
        return begin(alloc, scenes, more);
    }
    match scenes.last_mut() {
        Some(scene) => set(alloc, scene, word, more),
        None => Err(CaseFault::Unreadable),
    }
}

/// Begins a scene.
fn begin(alloc: Global, scenes: &mut Vec<Scene>, name: &[u8]) -> Result<(), CaseFault> {
    let name = Text::copy(alloc, name)?;
    scenes.push(Scene::new(alloc, name))?;
    Ok(())
}

/// Sets what a line says of a scene.
fn set(alloc: Global, scene: &mut Scene, word: &[u8], more: &[u8]) -> Result<(), CaseFault> {
    match str::from_utf8(word).unwrap_or("") {
        "replay" => {
            scene.is_replayed = true;
            Ok(())
        }
        "brief" => {
            scene.is_brief = true;
            Ok(())
        }
        "stations" => set_stations(scene, number_in(more)?),
        _ => arrange(alloc, &mut scene.setting, word, more),
    }
}

/// Has a scene's world behave as a line says.
fn arrange(
    alloc: Global,
    setting: &mut SceneSetting,
    word: &[u8],
    more: &[u8],
) -> Result<(), CaseFault> {
    match str::from_utf8(word).unwrap_or("") {
        "link" => link(alloc, setting),
        "closed" => {
            setting.closed = Some(opening_in(more)?);
            Ok(())
        }
        "want" => {
            setting.wanting = Some(number_in(more)?);
            Ok(())
        }
        "fail-note" => Ok(setting.fail_note(number_in(more)?)?),
        "idle" => {
            setting.idle_from(number_in(more)?);
            Ok(())
        }
        "fail" => Ok(setting.fail_at(number_in(more)?)?),
        _ => match setting.roles.last_mut() {
            Some(role) => speak(alloc, role, word, more),
            None => Err(CaseFault::Unreadable),
        },
    }
}

/// What a line names that can't be opened.
fn opening_in(line: &[u8]) -> Result<Opening, CaseFault> {
    match str::from_utf8(line).unwrap_or("") {
        "door" => Ok(Opening::Door),
        "recording" => Ok(Opening::Recording),
        "link" => Ok(Opening::Link),
        _ => Err(CaseFault::Unreadable),
    }
}

/// Begins a link.
fn link(alloc: Global, setting: &mut SceneSetting) -> Result<(), CaseFault> {
    setting.roles.push(Role::new(alloc))?;
    Ok(())
}

/// Has a link say what a line says, or wait.
fn speak(alloc: Global, role: &mut Role, word: &[u8], more: &[u8]) -> Result<(), CaseFault> {
    match str::from_utf8(word).unwrap_or("") {
        "wait" => wait(alloc, role, more),
        "say" => Ok(role.say(meant(alloc, more)?)?),
        "end" => end(alloc, role, more),
        "stuck" => {
            role.stuck = meant(alloc, more)?.len() as u64;
            Ok(())
        }
        "fail-write" => Ok(role.fail_write(number_in(more)?)?),
        _ => Err(CaseFault::Unreadable),
    }
}

/// Has what a link says next wait until an outlet was handed the bytes of a line.
fn wait(alloc: Global, role: &mut Role, line: &[u8]) -> Result<(), CaseFault> {
    let (outlet, body) = first_word(line);
    let outlet = number_in(outlet)?;
    let bytes = meant(alloc, body)?;
    match u32::try_from(outlet) {
        Ok(outlet) => {
            role.wait_for(outlet, bytes.len() as u64);
            Ok(())
        }
        Err(_) => Err(CaseFault::Unreadable),
    }
}

/// Has the end of a link wait, or never come.
fn end(alloc: Global, role: &mut Role, line: &[u8]) -> Result<(), CaseFault> {
    match str::from_utf8(line).unwrap_or(" ") {
        "" => {}
        "never" => role.wait_for_ever(),
        _ => return Err(CaseFault::Unreadable),
    }
    Ok(role.say(Text::new(alloc))?)
}

/// The number of a line.
fn number_in(line: &[u8]) -> Result<u64, CaseFault> {
    match first_number(line) {
        Some((number, _)) => Ok(number),
        None => Err(CaseFault::Unreadable),
    }
}

/// Gives a scene so many stations.
fn set_stations(scene: &mut Scene, number: u64) -> Result<(), CaseFault> {
    match u8::try_from(number) {
        Ok(stations) if 0 < stations && stations <= MOST_STATIONS => {
            scene.stations = stations;
            Ok(())
        }
        _ => Err(CaseFault::Unreadable),
    }
}
