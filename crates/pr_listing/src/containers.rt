//! A saved program in a file of another kind, after a header.

ghost use Rattle.std.specs.Prelude.{◌≡◌, ◌≤◌, ◌<◌, ◌+◌, ◌*◌, ◌^◌, drop, slice_index_or, take, IfSome};
ghost use Rattle.pr_listing.specs.Containers.{address_at, addressed_end, cut_at_files, entry_count, entry_program, is_p00, is_t64, is_used, nearer_end, offset_at, program_at, program_in, used_from};
ghost use Rattle.pr_listing.specs.Hints.{file_count, tape_files, used_count};

/// How many bytes are before the program in a P00 file.
const P00_HEADER: usize = 26;

/// Where the first entry of a T64 file's directory is.
const FIRST_ENTRY: usize = 64;

/// How many bytes an entry has.
const ENTRY: usize = 32;

/// How many bytes after its end by its addresses a program of a T64 file may have: many end addresses are one or
/// two bytes too small, and what follows the last link of a program does not count.
const SPARE: usize = 2;

/// Whether a file is a P00 file, which emulators keep for a program.
pub fn is_p00(file: &[u8]) -> bool
    ensures { result ≡ is_p00 file.now }
{
    file.starts_with(b"C64File")
}

/// Whether a file is a T64 file, the image of a tape.
pub fn is_t64(file: &[u8]) -> bool
    ensures { result ≡ is_t64 file.now }
{
    file.starts_with(b"C64 tape") || file.starts_with(b"C64S tape")
}

/// The byte at a place, or 0 after the end.
fn byte_or_0(file: &[u8], place: usize) -> usize
    ensures value { result ≡ slice_index_or file.now place 0 }
    ensures small { result < 256 }
{
    if place < file.len() {
        return usize::from(file[place]);
    }
    0
}

/// The number that two bytes at a place are, the low one first; a byte after the end counts as 0.
pub fn address_at(bytes: &[u8], place: usize) -> usize
    requires { place < 2 ^ 63 }
    ensures value { result ≡ address_at place bytes.now }
    ensures small { result < 65536 }
{
    byte_or_0(bytes, place) + 256 * byte_or_0(bytes, place + 1)
}

/// How many entries the directory of a T64 file has.
fn entry_count(file: &[u8]) -> usize
    ensures value { result ≡ entry_count file.now }
    ensures small { result < 65536 }
{
    match address_at(file, 34) {
        0 => 1,
        count => count,
    }
}

/// Whether the entry at a place is of a file.
fn is_used(file: &[u8], place: usize) -> bool
    ensures { result ≡ is_used file.now place }
{
    byte_or_0(file, place) == 1
}

/// Where the file of the entry at a place begins.
fn offset_at(file: &[u8], place: usize) -> usize
    requires { place < 2 ^ 32 }
    ensures value { result ≡ offset_at file.now place }
    ensures small { result < 2 ^ 32 }
{
    address_at(file, place + 8) + 65_536 * address_at(file, place + 10)
}

/// The place of the first entry of a file in the directory of a T64 file.
#[tactic(auto, unfolding(crate::specs::Containers::used_from))]
fn used_entry(file: &[u8]) -> Option<usize>
    ensures value { result ≡ used_from file.now 64 (entry_count file.now) }
    ensures small { IfSome result (λ place. place < 2 ^ 32) }
{
    let mut place = FIRST_ENTRY;
    for _number in 0..entry_count(file) {
        if is_used(file, place) {
            return Some(place);
        }
        place += ENTRY;
    }
    None
}

/// How many files the entry at a place is of: one, or none.
#[tactic(auto, unfolding(crate::specs::Hints::file_count))]
fn file_count(file: &[u8], place: usize) -> usize
    ensures value { result ≡ file_count file.now place }
    ensures small { result ≤ 1 }
{
    if is_used(file, place) {
        return 1;
    }
    0
}

/// Returns how many files a T64 file has: the entries of its directory that are in use.
#[tactic(auto, unfolding(crate::specs::Hints::used_count))]
pub fn tape_files(file: &[u8]) -> usize
    ensures { result ≡ tape_files file.now }
{
    let mut count = 0;
    let mut place = FIRST_ENTRY;
    for _number in 0..entry_count(file) {
        count += file_count(file, place);
        place += ENTRY;
    }
    count
}

/// The limit of a file of a T64 file that begins at `start`, or before the limit where the file of the entry at a
/// place begins.
fn nearer_end(file: &[u8], start: usize, place: usize, limit: usize) -> usize
    requires { place < 2 ^ 32 }
    ensures { result ≡ nearer_end file.now start place limit }
{
    let other = offset_at(file, place);
    if is_used(file, place) && start < other && other < limit {
        return other;
    }
    limit
}

/// Where a file of a T64 file ends that begins at `start`: at the limit, or before it where another one begins.
#[tactic(auto, unfolding(crate::specs::Containers::cut_at_files))]
fn cut_at_files(file: &[u8], start: usize, limit: usize) -> usize
    ensures { result ≡ cut_at_files file.now start 64 limit (entry_count file.now) }
{
    let mut stop = limit;
    let mut place = FIRST_ENTRY;
    for _number in 0..entry_count(file) {
        stop = nearer_end(file, start, place, stop);
        place += ENTRY;
    }
    stop
}

/// Where the file of the entry at a place ends at the latest, by its addresses.
fn addressed_end(file: &[u8], place: usize) -> usize
    requires { place < 2 ^ 32 }
    ensures { result ≡ addressed_end file.now place }
{
    let from = address_at(file, place + 2);
    let to = address_at(file, place + 4);
    if from < to {
        return offset_at(file, place) + (to - from) + SPARE;
    }
    file.len()
}

/// The bytes from a place on; none after the end.
fn bytes_from(file: &[u8], place: usize) -> &[u8]
    ensures { result.now ≡ drop place file.now }
{
    if place < file.len() {
        return &file[place..];
    }
    &file[file.len()..]
}

/// This many bytes at most, from the front on.
fn bytes_to(bytes: &[u8], count: usize) -> &[u8]
    ensures { result.now ≡ take count bytes.now }
{
    if count < bytes.len() {
        return &bytes[..count];
    }
    bytes
}

/// The saved program of the entry at a place of a T64 file, after the two bytes before it.
fn entry_program(file: &[u8], place: usize) -> &[u8]
    requires { place < 2 ^ 32 }
    ensures { result.now ≡ entry_program file.now place }
{
    let start = offset_at(file, place);
    let stop = cut_at_files(file, start, addressed_end(file, place));
    let first = start.saturating_sub(2);
    bytes_to(bytes_from(file, first), stop.saturating_sub(first))
}

/// The saved program of a file: after the header of a P00 file, of the first entry of a T64 file that is of a
/// file, or else the file itself. Of a T64 file the two bytes before the program are taken for its load address,
/// which does not count. A T64 file without a file has a program without a line.
pub fn program_in(file: &[u8]) -> &[u8]
    ensures { result.now ≡ program_in file.now }
{
    if is_p00(file) {
        return bytes_from(file, P00_HEADER);
    }
    if !is_t64(file) {
        return file;
    }
    match used_entry(file) {
        Some(place) => entry_program(file, place),
        None => b"\0\0\0\0",
    }
}
