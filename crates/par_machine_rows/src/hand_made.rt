//! Class files made by hand: the code of a method `main` behind what stands before it.

use par_io::{MemFolder, NoMemory};
use par_row_calls::{Answer, answers};
use std::alloc::Global;

/// A handler: from where to where it covers, where it stands, and the constant of its class.
pub type Handler = [u8; 4];

/// A method's code, with its room for operands, the number of its locals and its handlers.
#[derive(Clone, Copy)]
pub struct Code<'a> {
    pub room: u8,
    pub locals: u8,
    pub bytes: &'a [u8],
    pub handlers: &'a [Handler],
}

fn put_handlers(file: &mut Vec<u8>, handlers: &[Handler]) -> Result<(), NoMemory> {
    file.extend_from_slice(&[0, handlers.len().min(255) as u8])?;
    for [start, end, at, class] in handlers {
        file.extend_from_slice(&[0, *start, 0, *end, 0, *at, 0, *class])?;
    }
    Ok(())
}

// How many bytes stand behind the length of a Code attribute.
fn length_of(code: Code<'_>) -> u8 {
    let handlers = code.handlers.len().min(20) * 8;
    (code.bytes.len().min(255) + handlers + 12).min(255) as u8
}

// Puts a Code attribute behind its name.
fn put_code(file: &mut Vec<u8>, code: Code<'_>) -> Result<(), NoMemory> {
    let length = code.bytes.len().min(255) as u8;
    file.extend_from_slice(&[0, 0, 0, length_of(code)])?;
    file.extend_from_slice(&[0, code.room, 0, code.locals, 0, 0, 0, length])?;
    file.extend_from_slice(code.bytes)?;
    put_handlers(file, code.handlers)?;
    file.extend_from_slice(&[0, 0])?;
    Ok(())
}

/// A class file whose last method, before whose attribute it is cut, has this code.
pub fn with_code(alloc: Global, front: &[u8], code: Code<'_>) -> Result<Vec<u8>, NoMemory> {
    let mut file = front.to_vec(alloc)?;
    put_code(&mut file, code)?;
    file.extend_from_slice(&[0, 0])?;
    Ok(file)
}

fn add_all(folder: &mut MemFolder, files: &[(&str, &[u8])], inputs: &str) -> Result<(), NoMemory> {
    for (name, bytes) in files {
        folder.add(name, bytes)?;
    }
    folder.add("in.txt", inputs.as_bytes())
}

/// A folder with these class files and an input file.
pub fn folder_with(
    alloc: Global,
    files: &[(&str, &[u8])],
    inputs: &str,
) -> Result<MemFolder, NoMemory> {
    let mut folder = MemFolder::new(alloc);
    add_all(&mut folder, files, inputs)?;
    Ok(folder)
}

/// Whether a run has this answer in a folder with these class files and an empty input file.
pub fn files_run_as(
    alloc: Global,
    files: &[(&str, &[u8])],
    command: &str,
    answer: Answer,
) -> Result<bool, NoMemory> {
    let mut folder = folder_with(alloc, files, "")?;
    answers(alloc, command, &mut folder, answer)
}
