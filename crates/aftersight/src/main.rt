//! The program `aftersight`: the words of the command line, the host's files and streams, the top call and its status.
#![tactic(auto)]

mod command_line;

use after_cli::{Outcome, aftersight_plain, end_flushed, end_shown, end_with, refusal_before};
use after_edge::{Sink, StdFiles, StdSink};
use command_line::{HostWords, read_words, text_of_lone};
use refusals::Refusal;
use std::io::{LineWriter, Write};
use std::process::ExitCode;

// At most so many bytes of a line of output wait for its end.
const LINE_BYTES: usize = 4096;

// Judges the words, and does what they ask for.
fn answer<R: std::rt::Files + AllocGlobal, O: Sink, E: Sink>(
    rt: &R,
    words: &[String],
    out: &mut O,
    err: &mut E,
) -> Outcome {
    match text_of_lone(words) {
        Some(text) => end_shown(out.put(text.as_bytes()), err),
        None => {
            let mut files = StdFiles::new(rt);
            aftersight_plain(rt.alloc(), words, &mut files, out, err)
        }
    }
}

// Does what the host's words ask for, and flushes its output.
fn answer_host<O: Write + Drop, E: Sink>(
    rt: &HostRuntime,
    out: &mut StdSink<O>,
    err: &mut E,
) -> Outcome {
    let ended = match read_words(rt) {
        Ok(HostWords::Text(words)) => answer(rt, &words, out, err),
        Ok(HostWords::Broken(words)) => end_with(refusal_before(&words), err),
        Err(_) => end_with(Refusal::NoMemory, err),
    };
    end_flushed(ended, out.flush(), err)
}

fn main(rt: HostRuntime) -> ExitCode {
    let mut err = StdSink::new(rt.stderr());
    let outcome = match LineWriter::with_capacity(rt.alloc(), LINE_BYTES, rt.stdout()) {
        Ok(lines) => answer_host(&rt, &mut StdSink::new(lines), &mut err),
        Err(_) => end_with(Refusal::NoMemory, &mut err),
    };
    ExitCode::from(outcome.status)
}
