// The desk program: writes the report line of the mesh file and the claim file that its first two arguments name, with
// the table file that a third one names. What is missing or can't be opened it also says on standard error.

#![tactic(auto)]

ghost use Rattle.std.specs.Prelude.{◌≡◌, length};
ghost use Rattle.io.specs.Counts.{IsPrefixLen};
ghost use Rattle.reader.specs.File.{file_width};
ghost use Rattle.judge.specs.Judge.{files_verdict};
ghost use Rattle.report.specs.Report.{report_line, usual_decimals};

use pechuvo::pechuvo_check;
use report::{LINE, USUAL_DECIMALS};
use std::env::Env;
use std::fs;
use std::io::Read;
use std::rt::Files;

// Says on standard error, after the program's name, what is wrong with an argument. Where that can't be written nothing
// is left to do.
fn complain(err: &impl Print, argument: &[u8], what: &str) {
    let _ = err.write_all(b"desk: ");
    let _ = err.write_all(argument);
    let _ = err.write_all(what.as_bytes());
}

// Reads until `bytes` is full, the file ends or a read fails, and answers how many bytes were read.
fn read_full(file: &mut impl Read, bytes: &mut [u8], err: &impl Print, name: &[u8]) -> usize
    ensures { IsPrefixLen result bytes.new }
{
    let mut done = 0;
    while done < bytes.len() {
        match file.read(&mut bytes[done..]) {
            Ok(0) => break,
            Err(_) => {
                complain(err, name, ": can't be read\n");
                break;
            }
            Ok(count) => done += count,
        }
    }
    done
}

// The bytes of the file with this name, as far as the buffer that is lent goes. "A file that can't be opened counts as
// empty"; so does a name that isn't UTF-8, by which `std::fs` opens nothing.
fn read_named<'b>(rt: &impl Files, err: &impl Print, name: &[u8], buffer: &'b mut [u8]) -> &'b [u8]
    ensures { IsPrefixLen (length result.now) buffer.old }
{
    let opened = match str::from_utf8(name) {
        Ok(text) => fs::open(rt, text).ok(),
        Err(_) => None,
    };
    let Some(mut file) = opened else {
        complain(err, name, ": can't be opened\n");
        return &[];
    };
    let count = read_full(&mut file, buffer, err, name);
    &buffer[..count]
}

// Those of the file that argument i names. A missing argument counts as an empty file, too; where one is asked for, it
// is said.
fn read_argument<'b>(
    rt: &(impl Env + Files),
    err: &impl Print,
    i: usize,
    asked: Option<&str>,
    buffer: &'b mut [u8],
) -> &'b [u8]
    ensures { IsPrefixLen (length result.now) buffer.old }
{
    let mut name = io::buffer();
    let length = rt.arg(i, &mut name).unwrap_or(0);
    if 0 < length {
        return read_named(rt, err, &name[..length], buffer);
    }
    if let Some(asked) = asked {
        complain(
            err,
            asked.as_bytes(),
            " is missing: desk MESH CLAIM [TABLE]\n",
        );
    }
    &[]
}

// The report line of three files: "The desk program and N3's runs go on with six". A table of no bytes is none.
fn report_line(mesh: &[u8], table: &[u8], claim: &[u8]) -> [u8; LINE]
    ensures { result
        ≡ report_line usual_decimals
        (files_verdict file_width mesh.now table.now claim.now) }
{
    let mut line = [0u8; LINE];
    pechuvo_check(mesh, table, claim, USUAL_DECIMALS, &mut line);
    line
}

fn main(rt: HostRuntime) {
    let err = rt.stderr();
    let mut mesh = io::large_buffer();
    let mesh = read_argument(&rt, &err, 1, Some("MESH"), &mut mesh);
    let mut claim = io::large_buffer();
    let claim = read_argument(&rt, &err, 2, Some("CLAIM"), &mut claim);
    let mut table = io::large_buffer();
    let table = read_argument(&rt, &err, 3, None, &mut table);
    let line = report_line(mesh, table, claim);
    // A line that can't be written changes nothing of the exit status, which is 0.
    let _ = rt.write_all(&line);
}
