//! Counts and ranges of marks.
ghost use Rattle.std.specs.Prelude.{◌≡◌, ◌<◌, ◌≤◌, true, ◌∷◌, length, slice_get};
ghost use Rattle.analysis_model.specs.Cover.{runs};
ghost use Rattle.coverage_map.specs.Coverage.{marked};
ghost use Rattle.coverage_map.specs.Places.{place_address, marked_from_place};

use memory_map::RAM_START;

/// How many of the words are marked.
pub fn count_marks(marks: &[bool]) -> u64
    ensures { result ≡ length (marked marks.now) }
{
    marks.iter().filter(|mark| **mark).count() as u64
}

/// How many ranges the marked words make up.
pub fn count_ranges(marks: &[bool]) -> u64
    requires { length marks.now ≤ 4194304 }
    ensures { result ≡ length (runs (marked marks.now)) }
{
    let mut ranges = 0u64;
    let mut place = next_marked(marks, 0);
    while place < marks.len() {
        place = next_marked(marks, range_end(marks, place));
        ranges += 1;
    }
    ranges
}

/// The range with this index: its first address, and the one after its last.
pub fn find_range(marks: &[bool], index: u64) -> (u32, u32)
    requires size { length marks.now ≤ 4194304 }
    requires there { index < length (runs (marked marks.now)) }
    ensures { slice_get (runs (marked marks.now)) index
        ≡ Some (record { from = result.0; to = result.1 }) }
{
    let mut place = next_marked(marks, 0);
    for passed in 0..index {
        place = next_marked(marks, range_end(marks, place));
    }
    (address_of(place), address_of(range_end(marks, place)))
}

// The first marked place from here on, or the number of places.
fn next_marked(marks: &[bool], start: usize) -> usize
    requires { start ≤ length marks.now }
    ensures from { start ≤ result }
    ensures to { result ≤ length marks.now }
    ensures found { result < length marks.now → slice_get marks.now result ≡ Some true }
    ensures same { marked_from_place marks.now start ≡ marked_from_place marks.now result }
{
    let mut place = start;
    while place < marks.len() && !marks[place] {
        place += 1;
    }
    place
}

// The place after the range that begins at this marked place.
#[tactic(auto, using(crate::proofs::PlaceLaws::range_grows, crate::proofs::PlaceLaws::range_ends, crate::proofs::PlaceLaws::range_ends_last))]
fn range_end(marks: &[bool], start: usize) -> usize
    requires { slice_get marks.now start ≡ Some true }
    ensures from { start < result }
    ensures to { result ≤ length marks.now }
    ensures range { runs (marked_from_place marks.now start)
        ≡ record { from = place_address start; to = place_address result } ∷ runs
        (marked_from_place marks.now result) }
{
    let mut place = start + 1;
    while place < marks.len() && marks[place] {
        place += 1;
    }
    place
}

// The address of the word at this place.
fn address_of(place: usize) -> u32
    requires { place ≤ 4194304 }
    ensures { result ≡ place_address place }
{
    RAM_START + 4 * place as u32
}
