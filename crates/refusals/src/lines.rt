//! The lines that tell what went wrong.
ghost use Rattle.std.specs.Prelude.{◌≡◌, ◌≤◌, length};
ghost use Rattle.refusals.specs.Lines.{words_line, files_failed_line, image_long_line, script_long_line, disk_long_line, input_line, image_line, segment_line, overlap_line, script_fault_line, script_line, no_memory_line, not_built_line, output_failed_line};

use command_words::WordsFault;
use elf_image::ImageFault;
use in_script::ScriptFault;
use run_inputs::InputFault;
use text_line::Line;

/// The line that tells that a put of the output failed.
#[tactic(auto, unfolding(crate::specs::Lines::output_failed_line))]
pub fn output_failed() -> Line
    ensures { result ≡ output_failed_line }
{
    Line::new().text("output failed").with_line_feed()
}

// The words are a job that is not built.
#[tactic(auto, unfolding(crate::specs::Lines::not_built_line))]
pub(crate) fn not_built() -> Line
    ensures { result ≡ not_built_line }
{
    Line::new().text("not built").with_line_feed()
}

// There was no memory.
#[tactic(auto, unfolding(crate::specs::Lines::no_memory_line))]
pub(crate) fn no_memory() -> Line
    ensures { result ≡ no_memory_line }
{
    Line::new().text("no memory").with_line_feed()
}

// What is wrong with words: which one is bad, or that one is missing.
#[tactic(auto, unfolding(crate::specs::Lines::words_line))]
pub(crate) fn words(fault: WordsFault) -> Line
    ensures { result ≡ words_line fault }
{
    match fault {
        WordsFault::Word { number } => Line::new()
            .text("words: word ")
            .number(u64::from(number))
            .with_line_feed(),
        WordsFault::Missing => Line::new().text("words: missing").with_line_feed(),
    }
}

// What is wrong with the files of a run.
pub(crate) fn inputs(fault: InputFault) -> Line
    ensures { result ≡ input_line fault }
{
    match fault {
        InputFault::Files => files_failed(),
        InputFault::ImageTooLong => image_long(),
        InputFault::ScriptTooLong => script_long(),
        InputFault::DiskTooLong => disk_long(),
        InputFault::Image(fault) => image(fault),
        InputFault::Script(fault) => script(fault),
        InputFault::NoMemory => no_memory(),
    }
}

#[tactic(auto, unfolding(crate::specs::Lines::files_failed_line))]
fn files_failed() -> Line
    ensures { result ≡ files_failed_line }
{
    Line::new().text("files: failed").with_line_feed()
}

#[tactic(auto, unfolding(crate::specs::Lines::image_long_line))]
fn image_long() -> Line
    ensures { result ≡ image_long_line }
{
    Line::new().text("image: too long").with_line_feed()
}

#[tactic(auto, unfolding(crate::specs::Lines::script_long_line))]
fn script_long() -> Line
    ensures { result ≡ script_long_line }
{
    Line::new().text("script: too long").with_line_feed()
}

#[tactic(auto, unfolding(crate::specs::Lines::disk_long_line))]
fn disk_long() -> Line
    ensures { result ≡ disk_long_line }
{
    Line::new().text("disk: too long").with_line_feed()
}

// What is wrong with an image.
#[tactic(auto, unfolding(crate::specs::Lines::image_line))]
fn image(fault: ImageFault) -> Line
    ensures { result ≡ image_line fault }
{
    match fault {
        ImageFault::Short { need } => Line::new()
            .text("image: short need ")
            .number(need)
            .with_line_feed(),
        ImageFault::NotThis { field } => Line::new()
            .text("image: not this field ")
            .number(u64::from(field))
            .with_line_feed(),
        ImageFault::BadTable => Line::new().text("image: bad table").with_line_feed(),
        ImageFault::SegmentShape { index } => segment(index, " shape"),
        ImageFault::SegmentOutside { index } => segment(index, " outside"),
        ImageFault::Overlap { first, second } => overlap(first, second),
        ImageFault::NoSegment => Line::new().text("image: no segment").with_line_feed(),
        ImageFault::EntryOutside => Line::new().text("image: entry outside").with_line_feed(),
        ImageFault::NoMemory => no_memory(),
    }
}

// What is wrong with the segment of this header.
#[tactic(auto, unfolding(crate::specs::Lines::segment_line))]
fn segment(index: u32, what: &str) -> Line
    requires { length what.now ≤ 16 }
    ensures { result ≡ segment_line index what.now }
{
    Line::new()
        .text("image: segment ")
        .number(u64::from(index))
        .text(what)
        .with_line_feed()
}

// The segments of these headers share an address.
#[tactic(auto, unfolding(crate::specs::Lines::overlap_line))]
fn overlap(first: u32, second: u32) -> Line
    ensures { result ≡ overlap_line first second }
{
    Line::new()
        .text("image: segments ")
        .number(u64::from(first))
        .text(" ")
        .number(u64::from(second))
        .text(" overlap")
        .with_line_feed()
}

// What is wrong with a script.
fn script(fault: ScriptFault) -> Line
    ensures { result ≡ script_fault_line fault }
{
    match fault {
        ScriptFault::BadLine { line } => script_line(line, " bad"),
        ScriptFault::BadNumber { line } => script_line(line, " number"),
        ScriptFault::Falling { line } => script_line(line, " falling"),
        ScriptFault::TooMany { line } => script_line(line, " too many"),
        ScriptFault::NoMemory => no_memory(),
    }
}

// What is wrong with this line of a script.
#[tactic(auto, unfolding(crate::specs::Lines::script_line))]
fn script_line(line: u32, what: &str) -> Line
    requires { length what.now ≤ 16 }
    ensures { result ≡ script_line line what.now }
{
    Line::new()
        .text("script: line ")
        .number(u64::from(line))
        .text(what)
        .with_line_feed()
}
