//! Files of other kinds that are given for a listing, by how they begin or how many bytes they have.

use crate::refusals::{CARTRIDGE, DISK, TAPE};
use pr_listing::{looks_like_disk, looks_like_text};

/// What is said of a file that a program has packed, by the program.
const GZIP: &str = "gzip has packed this file: gzip -d unpacks it";

const XZ: &str = "xz has packed this file: xz -d unpacks it";

const BZIP2: &str = "bzip2 has packed this file: bzip2 -d unpacks it";

const ZSTD: &str = "zstd has packed this file: zstd -d unpacks it";

/// The same of an archive, which may be a document.
const ZIP: &str =
    "this is a zip archive, as .zip, .odt and .docx files are: unpack it, or save the document as plain text";

/// What is said of a document.
const DOCUMENT: &str = "this is a word processor's document: save it as plain text";

const PDF: &str = "this is a PDF document: save the listing in it as plain text";

/// What is said of a picture.
const PICTURE: &str = "this is a picture, which has no listing as text";

/// What is said of a program of another computer.
const GW_BASIC: &str =
    "this may be a saved program of GW-BASIC, of a PC: save it as text there, as in SAVE \"NAME\",A";

const BBC_BASIC: &str = "this may be a saved program of BBC BASIC: save it as text there";

/// How files of other kinds begin.
const BEGINNINGS: [(&[u8], &str); 11] = [
    (b"\x1f\x8b", GZIP),
    (b"\xfd7zXZ\0", XZ),
    (b"BZh", BZIP2),
    (b"\x28\xb5\x2f\xfd", ZSTD),
    (b"PK\x03\x04", ZIP),
    (b"\xd0\xcf\x11\xe0", DOCUMENT),
    (b"{\\rtf", DOCUMENT),
    (b"%PDF", PDF),
    (b"\x89PNG", PICTURE),
    (b"\xff\xd8\xff", PICTURE),
    (b"\r\0", BBC_BASIC),
];

/// What is said of a file of another kind that is given for a listing; nothing where it may be one. Only a listing that is
/// refused is asked so.
pub fn other_kind(bytes: &[u8]) -> Option<&'static str> {
    for (beginning, text) in BEGINNINGS {
        if bytes.starts_with(beginning) {
            return Some(text);
        }
    }
    image_kind(bytes)
}

/// The same of an image of a disk, a tape or a cartridge, and of a byte 255, which is no mark of UTF-16.
fn image_kind(bytes: &[u8]) -> Option<&'static str> {
    if looks_like_disk(bytes) && !looks_like_text(bytes) {
        Some(DISK)
    } else if bytes.starts_with(b"\xff") && !bytes.starts_with(b"\xff\xfe") {
        Some(GW_BASIC)
    } else if bytes.starts_with(b"C64-TAPE-RAW") {
        Some(TAPE)
    } else if bytes.starts_with(b"C64 CARTRIDGE") {
        Some(CARTRIDGE)
    } else {
        None
    }
}
