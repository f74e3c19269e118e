// Runs the cases of the files that `FILES` names: a case is a line with a call of the library and the answer that it must
// give. Writes a line for each case that fails, and last how many passed and how many failed.
#![tactic(auto)]

mod calls;
mod facts;
mod failure;
mod history;
mod line;

use failure::{Failure, Outcome};
use history::Cache;
use line::Line;
use std::io::Read;
use std::rt::Files;
use std::{fmt, fs, io};

const FILES: [&str; 13] = [
    "read_txt.cases",
    "read_policy.cases",
    "judge_host.cases",
    "judge_host_limits.cases",
    "judge_host_digests.cases",
    "next_host.cases",
    "cache.cases",
    "cache_limits.cases",
    "publish.cases",
    "publish_limits.cases",
    "read_certificate.cases",
    "read_certificate_limits.cases",
    "judge_host_certificate.cases",
];

// The most bytes that a file of cases has, and the most that the fields of a line and of its default have once they are decoded.
const FILE_ROOM: usize = 131072;

const LINE_ROOM: usize = 262144;

#[derive(Clone, Copy, Default)]
struct Count {
    passed: u64,
    failed: u64,
}

impl fmt::Display for Count {
    fn fmt<W: fmt::Write>(&self, f: &mut fmt::Formatter<W>) -> fmt::Result {
        write!(f, "{} passed, {} failed", self.passed, self.failed)
    }
}

// What has come of a file up to a line: the default that holds, and the cache.
#[derive(Drop)]
struct Progress {
    default: Option<Line>,
    cache: Cache,
}

fn main(rt: HostRuntime) -> io::Result<()> {
    let mut count = Count::default();
    for name in FILES {
        run_file(&rt, name, &mut count)?;
    }
    println!(rt; "{count}")
}

// Counts the cases of a file. A file that can't be opened and read to its end counts as a case that failed.
fn run_file<R: Files + Print + AllocGlobal>(
    rt: &R,
    name: &str,
    count: &mut Count,
) -> io::Result<()> {
    let mut text = Vec::new(rt.alloc());
    // one byte more than a file may have, so that a longer one is seen
    let read = fs::open(rt, name).and_then(|file| file
        .take(FILE_ROOM as u64 + 1)
        .read_to_end(&mut text));
    if read.is_err() || text.len() > FILE_ROOM {
        return tell(rt, name.as_bytes(), Err(Failure::Unreadable), count);
    }
    let mut progress = Progress {
        default: None,
        cache: Cache::new(rt.alloc(), 0, 0)?,
    };
    for line in text.split(|b| *b == b'\n') {
        // an empty line and one that begins with `#` are no case
        if !matches!(line, [] | [b'#', ..]) {
            run_line(rt, line, &mut progress, count)?;
        }
    }
    Ok(())
}

fn run_line<R: Print + AllocGlobal>(
    rt: &R,
    text: &[u8],
    progress: &mut Progress,
    count: &mut Count,
) -> io::Result<()> {
    let room = match &progress.default {
        Some(default) => default.room,
        None => LINE_ROOM,
    };
    let line = Line::read(rt.alloc(), text, room)?;
    if line.bytes_at(0) != b"default".as_slice() {
        let came_to = progress
            .cache
            .run(rt.alloc(), &line, progress.default.as_ref());
        return tell(rt, line.name(), came_to, count);
    }
    // A default is no case. One that can't be read counts as a case that failed. It holds all the same, with all the room, so that no
    // case after it runs on an older one: they can't be read either.
    progress.default = Some(Line::read(rt.alloc(), text, LINE_ROOM)?);
    let came_to = facts::of_default(rt.alloc(), Some(&line)).map(|_| Outcome::SetUp);
    tell(rt, line.bytes_at(0), came_to, count)
}

// Counts what a line, or a file, came to. Where it failed, says why.
fn tell(
    rt: &impl Print,
    name: &[u8],
    came_to: Result<Outcome, Failure>,
    count: &mut Count,
) -> io::Result<()> {
    match came_to {
        Ok(Outcome::SetUp) => Ok(()),
        Ok(Outcome::Passed) => {
            count.passed = count.passed.wrapping_add(1);
            Ok(())
        }
        Err(Failure::OutOfMemory(e)) => Err(e.into()),
        Err(failure) => {
            count.failed = count.failed.wrapping_add(1);
            rt.write_all(name)?;
            println!(rt; ": {failure}")
        }
    }
}
