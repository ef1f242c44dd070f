// What a program writes, in the place of a file in the working directory, whole or not at all: it goes to a new file beside that one, which
// takes its name when all is written.
use crate::name::text_of;
use crate::print::{complain, complain_failed, name_program};
use std::fs;
use std::fs::{File, Metadata, OpenOptions};
use std::io::{Error, ErrorKind, Result, Write};

// The name of a new file, with a number of six digits behind it.
type Spare = [u8; 17];

// How many numbers there are to try.
const NUMBERS: u32 = 1000000;

// The system's number for what the user may not do.
const DENIED: i32 = 13;

// What failed with a file, and the system's words for it.
fn fail_with(rt: &HostRuntime, program: &[u8], what: &[u8], name: &[u8], error: &Error) {
    name_program(rt, program);
    complain(rt, what);
    complain_failed(rt, name, error);
}

// Answers why the user may not write what has this name, if so. A file is opened to see it, and stays as it is. A pipe would wait for a
// reader, so of what is no file only the mode is looked at.
fn ask_to_write(rt: &HostRuntime, name: &str, found: &Metadata) -> Result<()> {
    if found.is_file() {
        let _file = OpenOptions::new().write(true).open(rt, name)?;
        return Ok(());
    }
    if found.permissions().readonly() {
        return Err(Error::from_raw_os_error(DENIED));
    }
    Ok(())
}

// Whether a link has the name. What else has it, the user may write.
fn is_link(rt: &HostRuntime, name: &str) -> Result<bool> {
    let found = fs::symlink_metadata(rt, name)?;
    if found.is_symlink() {
        return Ok(true);
    }
    ask_to_write(rt, name, &found)?;
    Ok(false)
}

// Whether a new file may take the name: a link would be gone, and what it leads to not written, and a file that the user may not write
// would be replaced all the same, since that asks only for a folder that may be written.
fn may_replace(rt: &HostRuntime, program: &[u8], name: &str) -> bool {
    match is_link(rt, name) {
        Ok(false) => true,
        Ok(true) => {
            name_program(rt, program);
            complain(rt, name.as_bytes());
            complain(rt, b" is a link and stays as it is; nothing is written\n");
            false
        }
        Err(error) => {
            if error.kind() == ErrorKind::NotFound {
                return true;
            }
            fail_with(rt, program, b"cannot write ", name.as_bytes(), &error);
            false
        }
    }
}

// Writes a number's last six digits to the end of a name.
fn put_number(number: u32, spare: &mut Spare) {
    let mut rest = number;
    for digit in spare[11..].iter_mut().rev() {
        *digit = b'0' + (rest % 10) as u8;
        rest /= 10;
    }
}

// Makes a new file, whose number is the first that is free, with the mode that the user's umask leaves.
fn make_new(rt: &HostRuntime, spare: &mut Spare) -> Result<File> {
    for number in 0..NUMBERS {
        put_number(number, spare);
        match File::create_new(rt, text_of(spare)?) {
            Ok(file) => return Ok(file),
            Err(error) => {
                if error.kind() != ErrorKind::AlreadyExists {
                    return Err(error);
                }
            }
        }
    }
    Err(Error::from(ErrorKind::AlreadyExists))
}

// Writes the bytes to a file that is open, and sees them to the device.
fn fill(mut file: File, bytes: &[u8]) -> Result<()> {
    file.write_all(bytes)?;
    file.sync_all()
}

// Takes a new file away again.
fn unlink(rt: &HostRuntime, spare: &Spare) {
    if let Ok(name) = text_of(spare) {
        let _ = fs::remove_file(rt, name);
    }
}

// Writes the bytes to a new file. If that fails no file is left.
fn write_new(
    rt: &HostRuntime,
    program: &[u8],
    name: &[u8],
    spare: &mut Spare,
    bytes: &[u8],
) -> bool {
    match make_new(rt, spare) {
        Err(error) => {
            fail_with(rt, program, b"cannot make a file beside ", name, &error);
            false
        }
        Ok(file) => {
            if let Err(error) = fill(file, bytes) {
                fail_with(rt, program, b"cannot write the bytes of ", name, &error);
                unlink(rt, spare);
                return false;
            }
            true
        }
    }
}

// Puts a new file in the place of the one of this name.
fn replace(rt: &HostRuntime, spare: &Spare, name: &str) -> Result<()> {
    fs::rename(rt, text_of(spare)?, name)
}

// Puts the bytes in the place of the file of this name, if that may be done.
fn save_text(rt: &HostRuntime, program: &[u8], name: &str, bytes: &[u8]) -> bool {
    if !may_replace(rt, program, name) {
        return false;
    }
    let mut spare = *b"unfinished.000000";
    if !write_new(rt, program, name.as_bytes(), &mut spare, bytes) {
        return false;
    }
    if let Err(error) = replace(rt, &spare, name) {
        fail_with(rt, program, b"cannot replace ", name.as_bytes(), &error);
        unlink(rt, &spare);
        return false;
    }
    true
}

// The same, for a name in bytes.
pub fn save(rt: &HostRuntime, program: &[u8], name: &[u8], bytes: &[u8]) -> bool {
    match text_of(name) {
        Ok(text) => save_text(rt, program, text, bytes),
        Err(error) => {
            fail_with(rt, program, b"cannot write ", name, &error);
            false
        }
    }
}
